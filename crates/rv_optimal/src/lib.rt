//! Shortest circuits for permutations of few lines, and that no circuit is shorter.
#![tactic(auto)]

mod alike;
mod circuit;
mod key;
mod levels;
mod library;
mod optimum;
mod search;
mod way;

pub use circuit::{OptimalFault, optimal};
pub use library::{Library, MOST_OPTIMAL_LINES};
pub use optimum::shortest;
