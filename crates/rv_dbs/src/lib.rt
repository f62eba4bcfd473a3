//! Circuits for permutations, by single-target gates: decomposition-based synthesis (DBS, hence the name).
//!
//! A single-target gate flips one line where a control function of the other lines is 1. In the manner of
//! A. De Vos and Y. Van Rentergem, "Young subgroups for reversible computers", Advances in Mathematics of
//! Communications 2 (2008), and of M. Soeken, L. Tague, G. W. Dueck and R. Drechsler, "Ancilla-free synthesis of
//! large reversible functions using binary decision diagrams", Journal of Symbolic Computation 73 (2016), two
//! control functions are found for each line but the last, those of a left gate before the rest of the circuit and
//! of a right gate after it, so that the rest keeps the line. What is left changes the last line alone. Many
//! functions would do; which are taken is this suite's own choice: each walk over the pairs of words that differ in
//! the line alone begins with 0 at its least word. Each gate becomes the flips of the reduced Reed-Muller list of
//! its control function.
#![tactic(auto)]

mod flips;
mod least;
mod singles;
mod synth;
mod values;
mod words;

pub use synth::synth_single;
