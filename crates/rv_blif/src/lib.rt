//! Combinational BLIF, the Berkeley logic interchange format, and the logic networks that it denotes.
//!
//! A logic network has named inputs, nodes, each a cover over signals before it, and named outputs.
#![tactic(auto)]

pub mod code;
mod cover;
mod end;
mod evaluate;
mod fault;
mod line;
mod logic;
mod marks;
mod names;
mod network;
mod node;
mod output;
mod placing;
mod port;
mod product;
mod row;

pub use fault::BlifFault;
pub use logic::{Logic, MOST_SIGNALS};
pub use node::Node;
pub use output::Output;
pub use product::{MOST_OPERANDS, Product};
use rv_reader::Reader;
pub use rv_reader::TextReader;

/// Reads the text of a logic network, which comes in pieces of any size.
///
/// What a reader holds is the line that is being read, and what the lines said so far.
pub type BlifReader = Reader<line::State>;
