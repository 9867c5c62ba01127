//! Laws of a worker's processors.

ghost use Rattle.worker_bank.specs.InstructionReports.{FirstFaultsAreTold, OthersNeverFault};

/// Of the keys that a worker's processors note in an instruction, that of the first one that faults
/// is the least: it is the one that is told.
pub fn first_faults_are_told()
    // Of all keys that a worker's processors note in an instruction, that of the first one that faults is the least.
    ensures { FirstFaultsAreTold }
{}

/// An instruction that is no arithmetic, no read and no write faults on no processor.
pub fn others_never_fault()
    // An instruction that is no arithmetic, no read and no write faults on no processor.
    ensures { OthersNeverFault }
{}
