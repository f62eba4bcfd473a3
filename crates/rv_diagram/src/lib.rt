//! Decision diagrams of Boolean functions, and what gates make of them.
//!
//! A diagram has nodes, each of which asks for one bit of an input word and then goes on by one of two edges. An edge
//! stands for a function of the input word, and contracts speak of its `value`. Which edges are shared, which answers
//! are kept, and in what order bits are asked for are hints: no contract speaks of them.
#![tactic(auto)]

mod apart;
mod copies;
mod diagram;
mod edge;
mod gates;
mod marks;
mod operation;
mod order;
mod signals;

pub use apart::blank_lines;
pub use diagram::{Diagram, MOST_NODES};
pub use edge::{DiagramFault, Edge};
pub use order::{Order, network_order, order_of};
pub use signals::Signals;
