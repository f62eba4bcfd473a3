//! Networks whose phases are joined over the whole circuit.
//!
//! A flip under two controls takes four T on its target. What is missing are three phases of parities of its controls'
//! values: those stand anywhere where a line has that value, and equal ones join. [`joined`] has exactly the amplitudes
//! of the circuit: the network is found, and then followed by forms.
#![tactic(auto)]

mod best;
mod block;
mod cancel;
mod certificate;
mod follow;
mod mapping;
mod phase;
mod plan;
mod planner;
mod setup;
mod shorter;
mod slots;
mod state;

pub use mapping::joined;
