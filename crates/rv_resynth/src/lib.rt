//! Circuits made smaller by a free search, each step of which is certified.
//!
//! Gates that stand together, or can be brought together, are replaced by others if both make the same of every word.
//! Where the others come from doesn't matter: [`agree`] compares both on all words of their lines, and what a gate does
//! depends on its own lines alone. [`resynth`] keeps what the circuit does to every word, and [`resynth_by_marks`] its
//! function by the marks; what a [`Goal`] counts never rises.
#![tactic(auto)]

mod agreement;
mod block;
mod by_marks;
mod dropped;
mod lines;
mod marked_search;
mod replacing;
mod resynthesis;
mod tries;
mod whole;
mod window;

pub use agreement::agree;
pub use by_marks::resynth_by_marks;
pub use lines::MOST_WINDOW_LINES;
pub use resynthesis::resynth;
pub use rv_search::Goal;
