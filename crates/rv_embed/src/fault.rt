ghost use Rattle.std.specs.Prelude.{◌≡◌};
ghost use Rattle.rv_embed.specs.declared.fault.EmbedFault.TheVariants.{Mem};

use rv_perm::MOST_PERM_LINES;
use std::alloc::AllocError;
use thiserror::Error;

/// Why a function was not embedded.
#[derive(Clone, Copy, Debug, Error)]
pub enum EmbedFault {
    /// The least number of lines, which is over [`MOST_PERM_LINES`].
    #[error("{0} lines are more than {most}", most = MOST_PERM_LINES)]
    TooManyLines(u8),
    #[error("out of memory")]
    Mem,
}

impl From<AllocError> for EmbedFault {
    ghost from_gives = { λ _ fault. fault ≡ Mem };

    fn from(_: AllocError) -> Self {
        EmbedFault::Mem
    }
}
