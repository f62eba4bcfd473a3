//! A free search for circuits on few lines: a state is the span of what the lines hold, so that no step chooses lines.
//!
//! A step adds a product of forms to a direction of the span; spectra of the outputs over it tell which step brings
//! them nearest to forms. What is found promises nothing but that the search ends: who takes it runs it on all words.
#![tactic(auto)]

mod basis;
mod beam;
mod build;
mod carries;
mod cells;
mod count;
mod cover;
mod echelon;
mod end;
mod greedy;
mod lines;
mod pack;
mod random;
mod rating;
mod rows;
mod search;
mod spectrum;
mod state;
mod step;
mod task;
mod worth;

pub use build::Found;
pub use search::{Search, all_found, found};
pub use task::Task;
