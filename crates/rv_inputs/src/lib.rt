//! The inputs of a run: what their texts denote, how they are read, and why one isn't.
#![tactic(auto)]

mod input;
mod texts;

pub use input::{read_input, read_one, read_two};
pub use texts::InputText;
