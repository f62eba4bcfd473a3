//! A report of circuits on more and more lines: what each costs, and the call that gives it.
#![tactic(auto)]

mod report;
mod row;

pub use report::{Curve, Search, write_curve};
pub use row::{Counts, Row, row_of};
