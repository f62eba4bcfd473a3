//! Networks of gates that other tools write, with their exact amplitudes.
//!
//! [`read`] makes a network of a text in OpenQASM 2.0, which has exactly the amplitudes of the gates that the text denotes.
//! [`tokens_of`] cuts the text into tokens, [`statements_read`] reads them statement by statement into [`SoFar`], and
//! [`gate_call`] reads a statement of a gate: [`call_of`] knows the gates by their names, and [`Angles`] reads the angles
//! between a gate's parentheses. A [`Call`] is a gate on qubits, one that a network has or one with angles that are
//! multiples of pi/4. [`net_of`] makes a network of calls by the standards' definitions of the gates.
#![tactic(auto)]

mod angles;
mod call;
mod fault;
mod lexer;
mod made;
mod named;
mod register;
mod so_far;
mod statement;
mod text;

pub use angles::{Angles, MOST_ANGLES};
pub use call::{Call, Qubits};
pub use fault::{CallFault, TextFault};
pub use lexer::tokens_of;
pub use made::{add, net_of};
pub use named::call_of;
pub use register::{Register, register_of};
pub use so_far::SoFar;
pub use statement::{AnglesRead, angles_from, gate_call, qubits_of};
pub use text::{read, statements_read};
