//! What a circuit makes of the words of a text.
#![tactic(auto)]

mod answers;
mod simulation;
mod waiting;
mod word_line;

pub use rv_text::MOST_BYTES;
pub use simulation::{WordsEnd, simulate_words};
