ghost use Rattle.std.specs.Prelude.{◌≡◌};
ghost use Rattle.rv_reader.specs.declared.stop.Stop.TheVariants.{Mem};

use std::alloc::{AllocError, AllocFailed};

/// Why a line stops the reading.
#[derive(Clone, Copy)]
pub enum Stop {
    /// The code of the first rule that the line breaks.
    Fault(u8),
    /// No memory was left.
    Mem,
}

impl From<AllocError> for Stop {
    ghost from_gives = { λ _ stop. stop ≡ Mem };

    fn from(_: AllocError) -> Stop {
        Stop::Mem
    }
}

impl<T: Drop> From<AllocFailed<T>> for Stop {
    ghost from_gives = { λ _ stop. stop ≡ Mem };

    fn from(_: AllocFailed<T>) -> Stop {
        Stop::Mem
    }
}
