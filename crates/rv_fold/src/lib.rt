//! Phase folding of Clifford+T networks, also called rotation merging.
//!
//! The bit of each line is followed as an affine parity of the values that lines had when they were last restarted.
//! Phase gates on one parity are terms of a phase polynomial that are added, and are joined.
#![tactic(auto)]

mod classes;
mod firsts;
mod folding;
mod parities;
mod phase;
mod walk;

pub use folding::fold;
pub use parities::Parity;
pub use phase::PhaseGate;
