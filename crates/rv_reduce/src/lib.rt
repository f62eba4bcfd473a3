//! Fewer operations, fewer T and fewer CNOT in Clifford+T networks, by a search.
//!
//! Operations that undo each other are cancelled, phase gates are folded and T gates joined past Clifford operations,
//! in rounds. What is found is not one network of a definition: a law holds of it.
#![tactic(auto)]

mod by_goal;
mod expanding;
mod goal;
mod measures;
mod pieces;
mod reducing;

pub use by_goal::reduce_for;
pub use goal::Goal;
pub use reducing::reduce;
