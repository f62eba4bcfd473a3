//! Lists of cubes, read as exclusive sums of products, and their reduction.
//!
//! A list of cubes has at each input word a value: the set of the outputs that an odd number of matching
//! cubes carry. Contracts see a [`CubeList`] as the record `Esop` of its sizes and cubes. [`CubeList::reduce`]
//! makes a list shorter by the distance steps of exorcism and keeps the value.
#![tactic(auto)]

mod carried;
mod distance;
mod due;
mod exorlink;
mod filter;
mod first;
mod flip;
mod idle;
mod list;
mod merge;
mod places;
mod reduce;
mod reduce_for;
mod reduction;
mod reed_muller;
mod slots;
mod step;
mod value;
mod watch;

pub use first::values_of;
pub use flip::flip_of;
pub use list::{CubeList, MOST_CUBES};
pub use step::Step;
