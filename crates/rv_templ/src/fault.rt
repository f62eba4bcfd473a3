ghost use Rattle.std.specs.Prelude.{◌≡◌};
ghost use Rattle.rv_templ.specs.declared.fault.LibFault.TheVariants.{Mem};

use std::alloc::AllocError;
use thiserror::Error;

/// Why a circuit is not taken as a template. They come in this order.
#[derive(Clone, Copy, Debug, PartialEq, Eq, Error)]
pub enum LibFault {
    /// It has so many lines, more than [`TEMPLATE_LINES`](crate::TEMPLATE_LINES).
    #[error("template of {0} lines is too wide")]
    TooWide(u8),
    /// It has so many gates, more than [`TEMPLATE_GATES`](crate::TEMPLATE_GATES).
    #[error("template of {0} gates is too long")]
    TooLong(u32),
    /// The gate of this number, counted from 1, is no Toffoli gate. It is the first one.
    #[error("gate {0} is no Toffoli gate")]
    NotToffoli(u32),
    /// The circuit makes another word of a word, the least one that it changes. Both are given by their numbers.
    #[error("no identity: word {word} gives {image}")]
    NotIdentity { word: u8, image: u8 },
    #[error("out of memory")]
    Mem,
}

impl From<AllocError> for LibFault {
    ghost from_gives = { λ _ fault. fault ≡ Mem };

    fn from(_: AllocError) -> Self {
        LibFault::Mem
    }
}
