//! The best circuit that is found for a table or a permutation on at most so many lines, by any way.
//!
//! Every way is tried that ends on few lines enough, and what is found is made shorter. The ways promise nothing: each
//! circuit is compared with the table or the permutation on all words, and the best of those that are right is taken.
#![tactic(auto)]

mod best;
mod cells;
mod first;
mod free;
mod joined;
mod options;
mod perm;
mod perm_ways;
mod placing;
mod points;
mod pool;
mod rank;
mod spans;
mod table;
mod ways;

pub use options::{RealizeFault, RealizeOptions};
pub use perm::realize_perm;
pub use points::{Point, curve};
pub use rv_price::Goal;
pub use table::realize;
