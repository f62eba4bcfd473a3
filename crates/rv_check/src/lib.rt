//! An exact check of a circuit against a network of operations.
//!
//! The network is followed from each word as a vector of exact coefficients, from which the root of two is divided out
//! as often as it can be. No phase is free: a network that is right only up to a phase differs.
#![tactic(auto)]

mod checking;
mod coefficient;
mod dense;
mod following;
mod member;
mod mixing;
mod short;
mod units;

pub use checking::{CheckFault, MOST_CHECKED_LINES, Verdict, check};
pub use coefficient::MOST_COEFFICIENT;
