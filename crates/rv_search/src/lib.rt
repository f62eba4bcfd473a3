//! A free search for gates that do the same as others, or that have the same function by a circuit's marks.
//!
//! Tables, prices and random numbers decide what is tried, and what is found promises nothing but that the search ends:
//! who takes it compares it first. What is proved is what a [`Goal`] counts ([`measure`]) and which lines gates touch
//! ([`span`], [`list_lines`]).
#![tactic(auto)]

mod beam;
mod choices;
mod common;
mod completion;
mod finding;
mod goal;
mod lines;
mod lower;
mod marked;
mod measuring;
mod prices;
mod pruning;
mod random;
mod scale;
mod space;
mod table;
mod thin;

pub use beam::Plan;
pub use common::{Common, common_of};
pub use completion::COMPLETIONS;
pub use finding::find;
pub use goal::Goal;
pub use lines::{list_lines, span};
pub use marked::{find_completion, find_marked, free_plan};
pub use measuring::{lines_with, measure};
pub use prices::Prices;
pub use pruning::pruned;
pub use random::Random;
pub use scale::SCALES;
pub use table::PLACES;
pub use thin::thinned;
