// Sums of phases, each on a parity of variables, and whether they vanish.
ghost use Rattle.std.specs.Prelude.{◌≡◌, ◌≤◌, ◌+◌, ◌%◌, ℕ, Bool, List, [], drop, length, IfOk, IsTrue};
ghost use Rattle.rv_paths.specs.inside.Parity.{chosen, first_before, held, picked, value_from, weights, Eights, Evens, Fours};

use crate::masks::holds;
use std::alloc::{AllocError, Global};

/// A power of the eighth root of one where a parity of variables is 1: those variables are in it that the mask holds.
#[derive(Drop)]
pub(crate) struct Term {
    pub(crate) mask: Vec<bool>,
    pub(crate) weight: u8,
}

// Whether there is a term at a place, and it holds a variable.
fn has(terms: &[Term], place: usize, variable: usize) -> bool
    ensures { result ≡ held (drop place terms.now) variable }
{
    if place < terms.len() {
        holds(&terms[place].mask, variable)
    } else {
        false
    }
}

// The weight of a term that holds a variable, else nothing.
fn weight_at(terms: &[Term], place: usize, variable: usize) -> u8
    ensures { result ≡ weights (chosen variable (first_before (drop place terms.now) [])) }
{
    if place < terms.len() && holds(&terms[place].mask, variable) {
        terms[place].weight
    } else {
        0
    }
}

// Those of some terms that hold a variable.
fn chosen(
    alloc: Global,
    terms: &[Term],
    some: &[usize],
    variable: usize,
) -> Result<Vec<usize>, AllocError>
    ensures { IfOk result (λ list. picked terms.now list.items ≡ chosen variable (picked terms.now some.now)) }
{
    let mut list = Vec::new(alloc);
    for place in some {
        if has(terms, *place, variable) {
            list.push(*place)?;
        }
    }
    Ok(list)
}

pub(crate) fn joined(a: u8, b: u8) -> u8
    ensures { result ≡ (a + b) % 8 }
{
    ((u16::from(a) + u16::from(b)) % 8) as u8
}

// The weight of those of some terms that hold a variable.
fn weight_of(terms: &[Term], some: &[usize], variable: usize) -> u8
    ensures { result ≡ weights (chosen variable (picked terms.now some.now)) % 8 }
{
    let mut sum = 0;
    for place in some {
        sum = joined(sum, weight_at(terms, *place, variable));
    }
    sum
}

fn are_even(terms: &[Term], some: &[usize], from: usize, to: usize) -> bool
    ensures { IsTrue result → Evens from to (picked terms.now some.now) }
{
    if some.is_empty() {
        return true;
    }
    for variable in from..to {
        if weight_of(terms, some, variable) % 2 != 0 {
            return false;
        }
    }
    true
}

fn are_fours(
    alloc: Global,
    terms: &[Term],
    some: &[usize],
    from: usize,
    to: usize,
) -> Result<bool, AllocError>
    ensures { IfOk result (λ found. IsTrue found → Fours from to (picked terms.now some.now)) }
{
    if some.is_empty() {
        return Ok(true);
    }
    for variable in from..to {
        let list = chosen(alloc, terms, some, variable)?;
        if weight_of(terms, some, variable) % 4 != 0 || !are_even(terms, &list, variable + 1, to) {
            return Ok(false);
        }
    }
    Ok(true)
}

fn are_eights(
    alloc: Global,
    terms: &[Term],
    some: &[usize],
    from: usize,
    to: usize,
) -> Result<bool, AllocError>
    ensures { IfOk result (λ found. IsTrue found → Eights from to (picked terms.now some.now)) }
{
    for variable in from..to {
        let list = chosen(alloc, terms, some, variable)?;
        if weight_of(terms, some, variable) != 0
            || !are_fours(alloc, terms, &list, variable + 1, to)?
        {
            return Ok(false);
        }
    }
    Ok(true)
}

// The places of the terms that have a weight.
fn weighty(alloc: Global, terms: &[Term]) -> Result<Vec<usize>, AllocError>
    ensures { IfOk result (λ list. (from : ℕ) (v : List Bool)
        → value_from from (picked terms.now list.items) v ≡ value_from from terms.now v) }
{
    let mut list = Vec::new(alloc);
    for place in 0..terms.len() {
        if terms[place].weight != 0 {
            list.push(place)?;
        }
    }
    Ok(list)
}

/// Whether terms add a multiple of eight at all values of the variables from `from` up to `to`.
pub(crate) fn vanish(
    alloc: Global,
    terms: &[Term],
    from: usize,
    to: usize,
) -> Result<bool, AllocError>
    ensures { IfOk result (λ found. IsTrue found → (v : List Bool) → from + length v ≤ to → value_from from terms.now v % 8 ≡ 0) }
{
    let some = weighty(alloc, terms)?;
    are_eights(alloc, terms, &some, from, to)
}
