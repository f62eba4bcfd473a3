//! Circuits for logic networks: the inputs stand as they were, the outputs are added to lines of their own, and the
//! lines that were worked on hold 0 again.
//!
//! The search is free: in which order nodes are made, where they stand, which are taken back and made again. What is
//! proved is that each step does to its line what the network says, and that no step is left undone at the end.
#![tactic(auto)]

mod block;
mod certificate;
mod circuit;
mod controls;
mod cost;
mod found;
mod held;
mod lines;
mod options;
mod own;
mod place;
mod planned;
mod points;
mod run;
mod searched;
mod start;
mod step;
mod sum;
mod turns;

pub use circuit::{ComputeFault, compute};
pub use options::ComputeOptions;
pub use points::{Point, curve};
