//! Circuits of large gates as circuits of NOT, CNOT and Toffoli gates, over helper lines that are clean (they hold 0)
//! or borrowed (they hold anything, and end as they began). The large gates are Toffoli gates of many controls
//! (multiple-control Toffoli, MCT, hence the name).
//!
//! The rules are in the manner of A. Barenco, C. H. Bennett, R. Cleve, D. P. DiVincenzo, N. Margolus, P. Shor,
//! T. Sleator, J. A. Smolin and H. Weinfurter, "Elementary gates for quantum computation", Physical Review A 52 (1995).
//!
//! [`decompose`] answers exactly the circuit of the written rules, which does what the circuit did and keeps what the
//! added lines hold, with an exact number of gates, or refuses exactly too many lines or gates.
#![tactic(auto)]

mod aux;
mod block;
mod control;
mod decomposing;
mod fault;
mod flips;
mod gate;
mod lines;
mod long;
mod measuring;
mod whole;
mod widening;

pub use aux::Aux;
pub use block::middle;
pub use control::Control;
pub use decomposing::{Decomposed, decompose};
pub use fault::MctFault;
pub use gate::flips_of;
pub use lines::{controls_of, count_lines, first_control, first_free, free_count, free_lines};
pub use measuring::added;
