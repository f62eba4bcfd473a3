//! A free search for the order in which the nodes of a logic network are made on few lines, and taken back.
//!
//! Prices and the shape of the network decide what is made where, and what is found promises nothing but that the
//! search ends, on no more lines than there may be: who takes a plan looks at each of its steps.
#![tactic(auto)]

mod engine;
mod lists;
mod net;
mod pass;
mod plan;
mod products;
mod search;

pub use net::{Net, net_of};
pub use pass::Pass;
pub use plan::{Plan, Step};
pub use search::{best_plan, fewest_plan};
