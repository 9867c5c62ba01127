//! What runs of verified code can rely on, by the machine's definition.

ghost use Rattle.bsp_verify.specs.Moments.{MomentsAreSound, ReadsHaveOneSide, SentReadsHaveOneSide};
ghost use Rattle.bsp_verify.specs.Runs.{RunsArrive, RunsAreSound};

/// Each exchange that a worker comes to is on a path of control, and is one that it may make: a reply comes where answers are
/// awaited and nothing is held, and where answers are awaited nothing else comes; no vote and no
/// close comes while reads are held, and no vote while a write is.
pub fn runs_are_sound()
    // Each exchange that a worker of verified code comes to is on a control path; no reply comes unasked, and no
    // exchange in the midst of another.
    ensures { RunsAreSound }
{}

/// No worker is led to a place without an instruction, or on and on without an exchange.
pub fn runs_arrive()
    // No worker of verified code with N instructions comes to a missing instruction, or takes over (bound + 1) * N + 1
    // of them between two exchanges.
    ensures { RunsArrive }
{}

/// At every moment of every stretch of every worker there is a path of control to its place, whose state
/// says of the worker whether it has a range of processors, under how many masks each of them is, how many
/// reads are held, of which side they are, whether a write is held, and whether answers are awaited.
pub fn moments_are_sound()
    // At every moment some control path leads to a worker's place, and its sound state describes the worker: range,
    // masks, held reads and their side, held write, awaited answers.
    ensures { MomentsAreSound }
{}

/// Each read that a worker holds is of one side, at every moment of every stretch and where it comes to an
/// exchange: a private read has no cell of the uniform part, and by a uniform one no processor asks.
pub fn reads_have_one_side()
    // At every moment each read that a worker holds is of one side: a private one has no uniform cell, by a uniform one
    // no processor asks.
    ensures moments { ReadsHaveOneSide }
    // Where a worker comes to an exchange, each read that it holds is of one side: private without a uniform cell, or
    // uniform without a processor's.
    ensures sent { SentReadsHaveOneSide }
{}
