//! A network checked against a circuit by sums over paths.
#![tactic(auto)]

mod apart;
mod beginning;
mod by_paths;
mod differs;
mod facts;
mod fault;
mod finding;
mod following;
mod free;
mod gates;
mod held;
mod left;
mod moving;
mod path_sum;
mod same;
mod shorter;
mod suspects;
mod taking;

pub use by_paths::{MOST_STEPS, MOST_TERMS, check_by_paths, check_from_constants};
pub use finding::Finding;
