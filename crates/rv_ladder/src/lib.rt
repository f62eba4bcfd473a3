//! Networks of circuits with gates of any size, without a circuit of Toffoli gates between.
//!
//! A large gate becomes a ladder of blocks that are Toffoli gates up to a phase, with 4 T each. The phases cancel
//! within the ladder: [`relative`] has exactly the amplitudes of the circuit, with 8n - 8 T for a gate with n controls
//! over borrowed lines.
#![tactic(auto)]

mod block;
mod flip;
mod mapping;
mod measuring;

pub use block::add_flip_net;
pub use mapping::{RelativeFault, relative};
