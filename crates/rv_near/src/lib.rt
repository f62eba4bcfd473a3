//! Networks of circuits whose gates touch neighbouring lines, in which each CNOT joins neighbours.
//!
//! The usual block of a Toffoli gate has six CNOTs, two of them between the outer lines where the three are a row. Here
//! such a gate has eight, between neighbours alone, and as many T and H.
#![tactic(auto)]

mod block;
mod mapping;

pub use mapping::near;
