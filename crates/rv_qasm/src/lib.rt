//! OpenQASM 2.0: networks as text.
//!
//! [`QasmReader`] reads a text in pieces of any size, which gives a [`Program`]: a network with its registers.
//! [`write_qasm`] sends the one text of a network, whose lines are the qubits of a register `q`; one whose operations
//! come one after another is sent by [`put_header`] and [`put_statement`]. [`to_circuit`] makes a circuit of a network
//! that only moves words.
#![tactic(auto)]

mod apply;
mod back;
pub mod code;
mod declare;
mod fault;
mod gates;
mod kind;
mod lexer;
mod measure;
mod numbers;
mod operands;
mod program;
mod reached;
mod reader;
mod registers;
mod state;
mod texts;
mod tokens;
mod write;
mod written;

pub use back::{BackFault, to_circuit};
pub use fault::QasmFault;
pub use program::{MOST_MEASUREMENTS, Program};
pub use reader::QasmReader;
pub use rv_reader::TextReader;
pub use texts::OpTexts;
pub use write::{put_header, put_ops, put_statement, write_qasm};
