//! From a permutation to a network of Clifford+T gates, in one call.
//!
//! A permutation is synthesised, by transformations or by single-target gates, simplified by the built-in templates if
//! that is wished, decomposed into flips with at most two controls, and expanded into the gates of OpenQASM. The
//! network carries the permutation exactly.
#![tactic(auto)]

mod flowing;
mod generator;
mod summary;
mod synthesis;

pub use flowing::{FlowFault, circuit_for, flow};
pub use rv_perm::MOST_DEMO_LINES;
pub use summary::{Summary, demo};
pub use synthesis::Synthesis;
