//! Circuits for exclusive sums of products: a cascade of flips, one for each cube and output, or one in which the cubes
//! of a set of outputs share their flips.
//!
//! The circuit keeps the inputs and adds the value of the list to the outputs, bit by bit.
#![tactic(auto)]

mod basis;
mod bends;
mod circuit;
mod cost;
mod count;
mod lines;
mod link;
mod parts;
mod shared;

pub use circuit::{EsopFault, cascade};
pub use cost::is_no_dearer;
pub use shared::shared_cascade;
