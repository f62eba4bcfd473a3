//! Pictures of circuits and networks as SVG and as LaTeX (quantikz).
#![tactic(auto)]

mod label;
mod latex;
mod lines;
mod svg;
mod title;

pub use latex::{latex_circuit, latex_network};
pub use lines::network_lines;
pub use svg::{svg_circuit, svg_network};
