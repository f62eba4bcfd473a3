//! Fewer `H` in Clifford+T networks.
//!
//! An `H` moves past operations after it that are others behind it, as a flip of its line is a controlled Z, and goes
//! with the next one on its line. Each pair that goes takes a factor of 2 from the amplitudes, since the root of two is
//! not divided out of an `H`; nothing else changes an amplitude.
#![tactic(auto)]

mod moving;
mod turning;

pub use moving::fewer_hadamards;
