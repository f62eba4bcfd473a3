//! Embeddings of functions in permutations.
//!
//! A function of words that is not reversible becomes part of a permutation: further inputs hold
//! constants, and outputs that nobody asks for, the garbage, tell the inputs apart that share an output
//! word. Where an entry may take any value, it is filled so that few inputs share an output word. Without
//! such entries [`embed`] takes as few lines as any such permutation can have.
#![tactic(auto)]

mod classes;
mod complete;
mod cursors;
mod embedding;
mod fault;
mod filled;
mod greedy;
mod images;
mod least_used;
mod lines;
mod row;
mod zeros;

pub use embedding::{Embedded, embed};
pub use fault::EmbedFault;
