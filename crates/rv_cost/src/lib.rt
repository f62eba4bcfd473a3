//! What circuits and networks cost: counts, quantum cost, depth and T-depth.
//!
//! The level of a gate or an operation is one more than the greatest level of an earlier one that shares a line with
//! it, and the depth is the greatest level. The T-level counts only `T` and its inverse. Nothing here takes memory.
#![tactic(auto)]

mod circuit;
mod levels;
mod network;

pub use circuit::{CircuitCost, circuit_cost, quantum_cost};
pub use network::{NetCost, net_cost};
