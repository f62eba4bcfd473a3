//! What a search of circuits is to make small, and what circuits cost by it.
#![tactic(auto)]

mod goal;
mod network;
mod pricing;

pub use goal::Goal;
pub use pricing::price;
