use rv_text::TextFault;
use thiserror::Error;

/// Why a text gave no network.
#[derive(Clone, Copy, Debug, PartialEq, Eq, Error)]
pub enum BlifFault {
    /// The text is not of the format. The codes are those of [`code`](crate::code).
    #[error("{0}")]
    Text(TextFault),
    #[error("out of memory")]
    Mem,
}
