ghost use Rattle.std.specs.Prelude.{◌≡◌};
ghost use Rattle.rv_realize.specs.declared.options.RealizeFault.TheVariants.{Mem};

use rv_price::Goal;
use std::alloc::AllocError;
use thiserror::Error;

/// What is looked for.
#[derive(Clone, Copy, Debug, PartialEq, Eq)]
pub struct RealizeOptions {
    /// At most so many lines.
    pub lines: u8,
    /// What is to be small.
    pub goal: Goal,
    /// How long is searched: with 0 not at all, and with 100 some seconds.
    pub effort: u16,
    /// The numbers by which searches choose.
    pub seed: u16,
}

/// Why there is no circuit.
#[derive(Clone, Copy, Debug, PartialEq, Eq, Error)]
pub enum RealizeFault {
    /// There are so many lines, more than there may be.
    #[error("{0} lines are too many")]
    TooManyLines(u8),
    #[error("too many gates")]
    TooManyGates,
    #[error("out of memory")]
    Mem,
}

impl From<AllocError> for RealizeFault {
    ghost from_gives = { λ _ fault. fault ≡ Mem };

    fn from(_: AllocError) -> Self {
        RealizeFault::Mem
    }
}
