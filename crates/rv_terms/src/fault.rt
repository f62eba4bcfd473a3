ghost use Rattle.std.specs.Prelude.{◌≡◌};
ghost use Rattle.rv_terms.specs.declared.fault.SumFault.TheVariants.{Mem};

use std::alloc::AllocError;

/// Why a sum or phases were not made.
#[derive(Clone, Copy, Debug, PartialEq, Eq)]
pub enum SumFault {
    /// There would be more products than there may be.
    TooLong,
    Mem,
}

impl From<AllocError> for SumFault {
    ghost from_gives = { λ _ fault. fault ≡ Mem };

    fn from(_: AllocError) -> Self {
        SumFault::Mem
    }
}
