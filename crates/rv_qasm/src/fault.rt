use rv_text::TextFault;
use thiserror::Error;

/// Why a text of OpenQASM is refused.
#[derive(Clone, Copy, Debug, PartialEq, Eq, Error)]
pub enum QasmFault {
    /// The text is not of the format: the code says what is wrong, with the line of the statement's first token.
    #[error("{0}")]
    Text(TextFault),
    #[error("out of memory")]
    Mem,
}
