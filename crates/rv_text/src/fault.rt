use thiserror::Error;

/// A text is not of its format.
///
/// What is wrong is a code of the format. Lines are counted from 1, and what is wrong at the end of
/// a text without lines stands at line 0.
#[derive(Clone, Copy, Debug, PartialEq, Eq, Error)]
#[error("line {line}: fault {code}")]
pub struct TextFault {
    pub line: u32,
    pub code: u8,
}
