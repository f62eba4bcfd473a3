//! Products of the bits of two words, their sums, and phases.
//!
//! A product asks for lines of a word `x` and for path bits of a word `v`. A [`Sum`] of products is a bit: whether an odd
//! number of them are 1. [`Phases`] are a number modulo 8: the sum of the weights of the products that are 1, and of the
//! sums that are kept whole.
#![tactic(auto)]

mod fault;
mod kept;
mod phases;
mod product;
mod sum;
mod terms;

pub use fault::SumFault;
pub use phases::Phases;
pub use product::Product;
pub use sum::Sum;
pub use terms::Term;
