//! Gates whose angles are multiples of pi/4, and the operations that have their exact amplitudes.
//!
//! A [`Gate`] is what a standard defines, by its [`Matrix`]. [`form_of`] gives the [`Form`] of a gate that Clifford
//! and T operations make exactly, no phase free, and [`ops_on`] these operations. [`gate_of`] knows the gates by their
//! names, and [`Angle`] reads the text of an angle.
#![tactic(auto)]

mod angle;
mod decimal;
mod form;
mod gate;
mod matrix;
mod named;
mod ops;

pub use angle::{Angle, Next};
pub use form::{Form, Middle, Phased, Turn, form_of};
pub use gate::Gate;
pub use matrix::{Entry, Matrix};
pub use named::{angle_count, gate_of};
pub use ops::{ops_on, push_ops};
