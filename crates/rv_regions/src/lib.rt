//! A free search for networks with fewer `T` or fewer `Cx`.
//!
//! A network is regions between `H`, each with a linear map, and terms: parities that carry a phase. What is found has
//! the same `H` on each line in the same order, and promises nothing but that the search ends: who takes it has to
//! prove that it is the same network.
#![tactic(auto)]

mod absorb;
mod basis;
mod columns;
mod common;
mod complete;
mod echelon;
mod flow;
mod frame;
mod levels;
mod packed;
mod plan;
mod polish;
mod random;
mod searching;
mod table;
mod todd;
mod window;
mod writing;

pub use searching::{Goal, fewer};
