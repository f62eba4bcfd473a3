use crate::perm::MOST_NUMBERS;
use rv_text::TextFault;
use thiserror::Error;

/// Why numbers, or a text of them, give no permutation.
#[derive(Clone, Copy, Debug, PartialEq, Eq, Error)]
pub enum PermFault {
    /// The text is not of the format.
    #[error("{0}")]
    Text(TextFault),
    /// The count, which is no 2^`n` for an `n` from 1 to
    /// [`MOST_PERM_LINES`](crate::MOST_PERM_LINES).
    #[error("{0} numbers are no power of two from 2 to {most}", most = MOST_NUMBERS)]
    Length(u32),
    /// The place of a number that is not below the count.
    #[error("image out of range at place {0}")]
    OutOfRange(u32),
    /// The first place of a number, and the next place at which it stands.
    #[error("image repeated at places {0} and {1}")]
    Repeated(u32, u32),
    #[error("out of memory")]
    Mem,
}
