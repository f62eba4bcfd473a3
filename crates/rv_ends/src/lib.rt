//! The end of a sum over paths: its exact value, summed over the path bits that are left.
#![tactic(auto)]

mod amount;
mod constant;
mod end;

pub use amount::Amount;
pub use end::end_sum;
