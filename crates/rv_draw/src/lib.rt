//! Drawings of circuits and of networks as text: a row of symbols for each line, and a column for each gate.
#![tactic(auto)]

mod drawn;
mod symbol;
mod write;

pub use drawn::Drawn;
pub use symbol::{Symbol, op_symbol_on, symbol_on};
pub use write::{block_count, gates_of_block, write_drawing, write_network};
