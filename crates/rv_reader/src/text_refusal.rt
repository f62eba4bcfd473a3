use rv_text::TextFault;
use thiserror::Error;

/// Why a text was refused.
#[derive(Clone, Copy, Debug, PartialEq, Eq, Error)]
pub enum TextRefusal {
    /// The text is not of its format.
    #[error("{0}")]
    Text(TextFault),
    /// No memory was left.
    #[error("out of memory")]
    Mem,
}
