//! Shorter exclusive sums of products, by exorlinks.
//!
//! The search is free: which pairs of cubes are tried, in what order, and on which way one becomes the other. What is
//! proved is that each step keeps the value of the list at every word, but for free entries, and that the result weighs
//! no more.
#![tactic(auto)]

mod change;
mod cube;
mod finder;
mod found;
mod free;
mod goal;
mod joined;
mod list;
mod price;
mod prices;
mod search;
mod sparse;
mod table;
mod way;

pub use found::{are_cubes, found_list};
pub use free::Free;
pub use goal::{Goal, flip_cost};
pub use search::shorten;
