//! The instructions of superstep code.

ghost use Rattle.superstep_instructions.specs.Limits.{IsInstr};

/// Which registers an instruction works on: those that each worker has one copy of, or those of
/// each active processor.
#[derive(Clone, Copy, Debug, PartialEq, Eq)]
pub enum Side {
    /// Registers of the program, of which all workers keep the same copy.
    Uniform,
    /// Registers of each active processor.
    Private,
}

/// Arithmetic on two values, which may fault.
#[derive(Clone, Copy, Debug, PartialEq, Eq)]
pub enum Arithmetic {
    Add,
    Subtract,
    Multiply,
    /// Floor division.
    Divide,
    /// What floor division leaves.
    Remainder,
}

/// A comparison or a connective of two values, which gives 1 or 0 and never faults.
#[derive(Clone, Copy, Debug, PartialEq, Eq)]
pub enum Truth {
    Equal,
    Less,
    /// At most, `<=`.
    AtMost,
    And,
    Or,
}

/// An instruction.
///
/// The operands `destination`, `source`, `left`, `right`, `low`, `high`, `subscript` and `value`
/// are registers by number, of the instruction's side where it has one; `entry` is a declaration
/// of the layout by number, `target` an instruction by number, and `position` the place of an
/// operation within its statement, by which faults are ordered.
#[derive(Clone, Copy, Debug, PartialEq, Eq)]
pub enum Instr {
    /// A statement begins: the run closes at its bound, or the count rises by 1 and the line is
    /// this one.
    Mark {
        line: u32,
    },
    /// `destination` gets the value.
    Set {
        side: Side,
        destination: u16,
        value: i64,
    },
    /// `destination` gets `source`.
    Copy {
        side: Side,
        destination: u16,
        source: u16,
    },
    /// `destination` gets `-source`.
    Negate {
        side: Side,
        destination: u16,
        source: u16,
        position: u32,
    },
    /// `destination` gets what the operation gives.
    Calculate {
        side: Side,
        operation: Arithmetic,
        destination: u16,
        left: u16,
        right: u16,
        position: u32,
    },
    /// `destination` gets 1 where it is true, else 0.
    Decide {
        side: Side,
        operation: Truth,
        destination: u16,
        left: u16,
        right: u16,
    },
    /// `destination` gets 1 where `source` is 0, else 0.
    Not {
        side: Side,
        destination: u16,
        source: u16,
    },
    /// The private `destination` gets the uniform `source`.
    CopyUniform {
        destination: u16,
        source: u16,
    },
    /// The private `destination` gets the processor's index.
    Index {
        destination: u16,
    },
    /// The range of processors is from the uniform `low` to the uniform `high`, all active and
    /// with all their registers 0.
    Enter {
        low: u16,
        high: u16,
        position: u32,
    },
    /// Ends the range.
    Leave,
    /// Of the active processors those stay active whose private `source` is not 0.
    Mask {
        source: u16,
    },
    /// Of the processors that were active before the last mask, those are active that are not now.
    Flip,
    /// Takes the last mask off.
    Unmask,
    /// Holds a read of the entry's cell at `subscript`, for `destination`.
    Ask {
        side: Side,
        destination: u16,
        entry: u16,
        subscript: u16,
        position: u32,
    },
    /// Holds a write of `value` to the entry's cell at `subscript`.
    Put {
        side: Side,
        entry: u16,
        subscript: u16,
        value: u16,
        position: u32,
    },
    /// Exchanges what is held.
    Send,
    /// Exchanges the answers to the reads that were sent.
    Reply,
    /// The uniform `destination` gets 1 where a processor of any worker is active, else 0.
    Vote {
        destination: u16,
    },
    /// An item of the output: the uniform `source`.
    Print {
        source: u16,
    },
    /// Goes to the instruction `target`.
    Jump {
        target: u16,
    },
    /// Goes there where the uniform `source` is 0.
    JumpIfZero {
        source: u16,
        target: u16,
    },
    /// The run closes at its end.
    Halt,
}

impl Instr {
    /// The operands of every instruction have as many bits as the listing gives them.
    pub fn operands_fit(self)
        ensures { IsInstr self }
    {}
}
