//! Clifford+T networks: operations on lines, their exact amplitudes, and the networks of circuits.
//!
//! An amplitude is a cyclotomic integer, a sum over the eighth root of one: the root of two is never divided out, so
//! equality is exact and no phase is free. [`expand`] answers the network of a plain circuit, which denotes its run.
#![tactic(auto)]

mod expanding;
mod net;
mod op;
mod plain;

pub use expanding::{
    ExpandFault, add_flip, add_on_zero, add_toffoli, count_operations, expand, toffoli_ops,
};
pub use net::{MOST_OPS, Net, OpFault};
pub use op::Op;
pub use plain::is_plain;
