//! Circuits are simplified by pairs and templates.
//!
//! Two gates are a pair if the first one commutes with all between and both together come to nothing, or to one flip. A
//! template is a short list of flips that changes no word ([`Library`]). Gates side by side are a window if they are
//! more than half of it, with other lines and with further controls, and the rest of it touches only lines that they
//! touch, and no more lines in sum; the rest takes their place, in reverse. [`simplify_linked`] goes on until there is
//! neither. Contracts see a library as the list of its templates, and say that the gates end exactly as the written
//! rules have it (`simplified`).
#![tactic(auto)]

mod along;
mod built_in;
mod fault;
mod image;
mod joining;
mod library;
mod lookups;
mod loosening;
mod matching;
mod notes;
mod pairs;
mod passing;
mod replacement;
mod search;
mod simplify;
mod sizes;
mod stops;
mod varied;
mod windows;

pub use fault::LibFault;
pub use image::{TEMPLATE_GATES, TEMPLATE_LINES};
pub use library::Library;
pub use simplify::simplify_linked;
