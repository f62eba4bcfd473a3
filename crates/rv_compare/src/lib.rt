//! Circuits compared, on all words, with circuits, permutations, tables and logic networks.
//!
//! A circuit or a permutation with marks has a function: constants are put in among the bits of an input word,
//! the gates or the permutation act, and the garbage lines are left out. Two such functions are compared by
//! [`compare_circuits`] and [`compare_perm`], one with what a table allows by [`compare_table`], and one with what a
//! logic network computes by [`compare_logic`]; with `all`, on all lines, and no mark is looked at. Each answer is
//! exact. Words run side by side, 256 at once; circuits and networks of many inputs are drawn as decision diagrams.
#![tactic(auto)]

mod block;
mod circuits;
mod comparison;
mod drawn;
mod logic;
mod marks;
mod perm;
mod sides;
mod table;
mod ways;

pub use circuits::compare_circuits;
pub use comparison::{CompareFault, Comparison, MOST_INPUTS};
pub use logic::compare_logic;
pub use marks::input_count;
pub use perm::compare_perm;
pub use table::compare_table;
