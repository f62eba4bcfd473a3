use rv_text::TextFault;
use thiserror::Error;

/// Why a text gave no PLA.
#[derive(Clone, Copy, Debug, PartialEq, Eq, Error)]
pub enum PlaFault {
    /// The text is not of the format. The codes are those of [`code`](crate::code).
    #[error("{0}")]
    Text(TextFault),
    /// The first terms, by their lines, that say ON and OFF of an output at a word, which goes by the
    /// number of its `inputs` bits.
    #[error("lines {on_line} and {off_line} conflict at word {word}")]
    Conflict {
        on_line: u32,
        off_line: u32,
        inputs: u8,
        word: u32,
        output: u8,
    },
    #[error("out of memory")]
    Mem,
}
