//! Circuits for permutations, by transformation-based synthesis (TBS, hence the name).
//!
//! The rules are those of D. M. Miller, D. Maslov and G. W. Dueck, "A transformation based algorithm for
//! reversible logic synthesis", DAC 2003. For each number `k` from 0 on, flips are found that turn the
//! image of `k` into `k` and leave the smaller numbers where they are; they are applied to the outputs.
//! Or flips are found that turn the word that goes to `k` into `k`; they are applied to the inputs. The
//! circuit is the list of the flips of the inputs, followed by those of the outputs, reversed.
#![tactic(auto)]

mod both;
mod method;
mod outward;
mod turn;

pub use method::{Method, synth};
