//! Circuits as linked lists, in which gates are erased, changed and replaced without memory.
//!
//! A [`Linked`] is made from a circuit and gives one back. Contracts see it as the record `Linkage`: the names, labels
//! and marks of the lines, the list of its nodes in order, each with its gate, and a note for each, which is the
//! caller's. The numbers of the nodes rise along the order for ever, and a hash leads from a gate to the nodes that
//! have it.
#![tactic(auto)]

mod blocks;
mod chains;
mod index;
mod linked;
mod node;
mod ring;
mod sought;
mod used;

pub use chains::incidences;
pub use linked::Linked;
pub use node::NodeId;
pub use sought::Sought;
