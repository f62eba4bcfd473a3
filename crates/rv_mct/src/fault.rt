ghost use Rattle.std.specs.Prelude.{◌≡◌};
ghost use Rattle.rv_mct.specs.declared.fault.MctFault.TheVariants.{Mem};

use std::alloc::AllocError;

/// Why a circuit is not decomposed. The lines come first.
#[derive(Clone, Copy)]
pub enum MctFault {
    /// There would be so many lines, more than [`MOST_LINES`](rv_gate::MOST_LINES).
    TooManyLines(u8),
    /// There would be so many gates, more than [`MOST_GATES`](rv_gate::MOST_GATES).
    TooManyGates(u32),
    /// Memory was wanting.
    Mem,
}

impl From<AllocError> for MctFault {
    ghost from_gives = { λ _ fault. fault ≡ Mem };

    fn from(_: AllocError) -> Self {
        MctFault::Mem
    }
}
