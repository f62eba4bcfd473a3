//! Permutations of the words of a few lines, as tables of images.
//!
//! A reversible circuit on `n` lines permutes the 2^`n` words of `n` bits. [`Perm`] holds such a
//! permutation as the list of its images: the word with the number `x` goes to the word with the number
//! `get(x)`. A list that is no permutation is refused by [`Perm::from_numbers`], which names the first
//! fault. [`PermSpec`] adds what is put in on each line, and which outputs are garbage. [`circuit_on`] puts gates on
//! those lines.
#![tactic(auto)]

mod circuit;
pub mod code;
mod end;
mod fault;
mod line;
mod perm;
mod places;
mod spec;
mod walk;
mod write;

pub use circuit::circuit_on;
pub use fault::PermFault;
pub use perm::{MOST_DEMO_LINES, MOST_NUMBERS, MOST_PERM_LINES, Perm};
use rv_reader::Reader;
pub use rv_reader::TextReader;
pub use spec::PermSpec;
pub use write::write_perm;

/// Reads the text of a permutation, which comes in pieces of any size.
///
/// What a reader holds is the line that is being read, the rows of marks, and at most [`MOST_NUMBERS`]
/// numbers.
pub type PermReader = Reader<line::State>;
