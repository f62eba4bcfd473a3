//! Why a run does not do what its arguments ask for: faults, each with its exit status and its line on the error
//! output.
#![tactic(auto)]

mod arguments;
mod fault;
mod message;

pub use arguments::{report_arguments, status_of_arguments};
pub use fault::{Fault, InputFault, Measure, Refusal, TextFormat, Unmade};
pub use message::{put_bits, report};
