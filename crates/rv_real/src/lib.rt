//! RevLib's `.real` format, version 2.0.
#![tactic(auto)]

mod begin;
mod begun;
mod body;
pub mod code;
mod directive;
mod fault;
mod gate_name;
mod header;
mod label;
mod labels;
mod line;
mod line_set;
mod operands;
mod places;
mod texts;
mod words;
mod write;

pub use fault::RealFault;
pub use label::{needs_quotes, put_label};
use rv_reader::Reader;
pub use rv_reader::TextReader;
pub use write::write_real;

/// Reads the text of a circuit, which comes in pieces of any size.
///
/// What a reader holds is the line that is being read, and the circuit so far.
pub type RealReader = Reader<line::State>;
