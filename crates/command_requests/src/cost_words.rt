//! What is told of the costs of a run.

ghost use Rattle.std.specs.Prelude.{◌<◌};
ghost use Rattle.std.specs.Option.{ForSome};

/// What is told of the costs of a run.
#[derive(Clone, Copy, Debug)]
pub struct CostWords {
    /// The number of processors on which the work is scheduled. Without one no rounds are told.
    pub schedule: Option<u32>,
    /// The number of workers for which the most words are told that they send, of which there may be more than run a program. Without
    /// one no words are told.
    pub workers: Option<u32>,
    /// Whether what each line costs is told.
    pub lines: bool,
    ghost scheduled: { ForSome schedule (λ q. 0 < q) },
    ghost sent: { ForSome workers (λ p. 0 < p) },
}
