//! The network of a circuit, written as it is made.
//!
//! An [`Expansion`] or [`Toffolis`] holds the circuit alone: of its network there is never more than one operation.
#![tactic(auto)]

mod expansion;
mod swaps;
mod toffoli;
mod toffolis;
mod write;

pub use expansion::Expansion;
pub use toffolis::Toffolis;
