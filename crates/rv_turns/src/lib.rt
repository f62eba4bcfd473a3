//! T gates of Clifford+T networks, joined past the Clifford operations between them.
//!
//! A T gate is an eighth of a turn about the Pauli product Z on its line. The Clifford operations that follow take this
//! to other Pauli products. Where such a product is Z on the line of a later T gate, the two are one: an S, or nothing.
#![tactic(auto)]

mod joining;
mod waiting;

pub use joining::{MOST_STEPS, join_turns};
