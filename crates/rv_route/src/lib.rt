//! Routing on a line of neighbours (linear nearest neighbour): a circuit whose gates touch neighbouring lines alone.
//!
//! [`route`] answers exactly the circuit of the written rules: before each gate the lines that it touches gather by
//! swaps of neighbours (SWAP insertion), and in the end all lines go home. It does what the given circuit does.
#![tactic(auto)]

mod fault;
mod gathering;
mod moves;
mod places;
mod routing;

pub use fault::RouteFault;
pub use routing::route;
