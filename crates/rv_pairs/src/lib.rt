//! Cancelling of operations in Clifford+T networks.
//!
//! An operation and a later one that undoes it go where all operations between them commute with the later one, however
//! far they are from each other. Each pair of `H` that goes takes a factor of 2 from the amplitudes, since the root of
//! two is not divided out of an `H`; nothing else changes an amplitude.
#![tactic(auto)]

mod access;
mod cancelling;
mod chains;
mod walk;

pub use cancelling::cancel;
