//! Rows of marks, as the texts of circuits and of permutations have them.
//!
//! A row has one byte for each line: `-`, `0` or `1` for what is put in, and `-` or `1` for whether
//! the output is garbage. [`read_marks`] and [`read_row`] read the row that the tokens of a line have,
//! joined, and [`put_row`] writes one, which reads back. [`put_marks`] writes both rows of a text.
#![tactic(auto)]

mod read;
mod row_mark;
mod write;

pub use read::{read_marks, read_row};
pub use row_mark::RowMark;
pub use write::{put_marks, put_row};
