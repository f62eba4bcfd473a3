ghost use Rattle.std.specs.Prelude.{◌≡◌};
ghost use Rattle.rv_route.specs.declared.fault.RouteFault.TheVariants.{Mem};

use std::alloc::AllocError;

/// Why a circuit is not routed.
#[derive(Clone, Copy)]
pub enum RouteFault {
    /// The routed circuit would have so many gates, more than [`MOST_GATES`](rv_gate::MOST_GATES).
    TooManyGates(u32),
    /// Memory was wanting.
    Mem,
}

impl From<AllocError> for RouteFault {
    ghost from_gives = { λ _ fault. fault ≡ Mem };

    fn from(_: AllocError) -> Self {
        RouteFault::Mem
    }
}
