//! A free search for circuits of logic networks on few lines, by products of linear forms.
//!
//! A network is read as products of exclusive sums of inputs and of products before them. Products are added to lines and
//! taken back; they need no line of their own where some sum of what stands around them agrees with them wherever it is
//! needed. What is found promises nothing but that the search ends: who takes a plan follows its gates.
#![tactic(auto)]

mod anneal;
mod basis;
mod chains;
mod cover;
mod curve;
mod fewer;
mod flip;
mod form;
mod group;
mod layout;
mod lists;
mod load;
mod long_chains;
mod moves;
mod net;
mod network;
mod order;
mod plan;
mod random;
mod regroup;
mod rewrite;
mod rows;
mod search;
mod signs;
mod solver;
mod span;
mod tables;
mod taking;
mod telling;
mod writer;

pub use curve::Options;
pub use plan::{Plan, Plans};
pub use search::{fewer_plans, plans};
