//! What the program `rev` does for its arguments, over any files and sinks.
//!
//! Each command is a row of one table. A command that reads all its inputs first is a value
//! (`OneInput`, `TwoInputs`) that makes a product of what they denote, which is then written; the
//! product of `draw` is its input itself, `demo` has no input, and `simulate` answers as it reads.
//! How a run ends is known before its fault is reported, and [`run_unreported`] has no error output.
#![tactic(auto)]

mod commands;
mod making;
mod names;
mod output;
mod product;
mod refusals;
mod run_end;
mod safe;
mod steps;
mod top;

pub use run_end::RunEnd;
pub use rv_faults::{Fault, InputFault, TextFormat};
pub use rv_flow::{FlowFault, Summary, demo, flow};
pub use rv_simulate::{WordsEnd, simulate_words};
pub use rv_text::MOST_BYTES;
pub use safe::run_safely;
pub use top::{run, run_unreported};
