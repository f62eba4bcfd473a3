//! Whether two networks do the same, exactly: by their sums over paths side by side, or by one after the other's
//! inverse.
#![tactic(auto)]

mod comparing;
mod inverse;

pub use comparing::compare_networks;
