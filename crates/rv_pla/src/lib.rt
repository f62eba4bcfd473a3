//! Espresso's PLA format.
//!
//! A PLA lists terms: an input part, which words match, and an output part, which says something of each
//! output. What the terms say together is the entry of an output at a word: 1, 0, or free.
#![tactic(auto)]

pub mod code;
mod cube;
mod end;
mod entry;
mod fault;
mod join;
mod kind;
mod line;
mod pla;
mod row;
mod sets;
mod table;
mod term;
mod write;

pub use cube::{Cube, MOST_INPUTS, MOST_OUTPUTS};
pub use entry::Entry;
pub use fault::PlaFault;
pub use kind::Kind;
pub use pla::{MOST_TERMS, Pla};
use rv_reader::Reader;
pub use rv_reader::TextReader;
pub use sets::has;
pub use write::write_esop_pla;

/// Reads the text of a PLA, which comes in pieces of any size.
///
/// What a reader holds is the line that is being read, and the terms so far: at most 2^20.
pub type PlaReader = Reader<line::State>;
