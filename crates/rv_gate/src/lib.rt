//! Words, gates and circuits of reversible logic.
//!
//! A circuit has lines, each with one bit, and gates that act on them one after another. The gates are
//! those of RevLib: Toffoli, with positive and negative controls ([`Shape::Flip`]), Fredkin
//! ([`Shape::Swap`]) and Peres ([`Shape::Peres`]). Contracts see a [`Word`] as the list of its bits, line
//! 0 first, a [`Gate`] as its [`Shape`], [`Names`] as the list of the names, and a [`Circuit`] as the
//! record `Cascade` of all that it holds. What a gate does is `act`, and what a list of gates does is
//! `run`, its fold.
#![tactic(auto)]

mod circuit;
mod gate;
mod line_set;
mod mirror;
mod names;
mod word;

pub use circuit::{Circuit, LabelFault, MOST_GATES, Mark, PushFault};
pub use gate::{Gate, Shape};
pub use line_set::{LineSet, has};
pub use mirror::mirrored_u32;
pub use names::{NameFault, Names};
pub use word::{MOST_LINES, Word};
