// A power of the eighth root of one for all values of the variables.
ghost use Rattle.std.specs.Prelude.{◌≡◌, ◌<◌, ◌≤◌, ◌+◌, ◌*◌, ◌%◌, ◌&&◌, ℕ, Bool, true, List, ◌∷◌, drop, length, OnOk, IfOk, IsTrue, if◌then◌else◌};

use crate::masks::{are_same, holds};
use crate::terms::{Term, joined, vanish};
use std::alloc::{AllocError, Global};

/// A constant, and what terms add, each with a number of its variables, by which it is found. Variable 0 has the value 1:
/// no term sees it.
#[derive(Drop)]
pub(crate) struct Phases {
    constant: u8,
    terms: Vec<Term>,
    codes: Vec<u64>,
}

// A number of a set of variables: the same sets have the same.
fn code_of(mask: &[bool]) -> u64 {
    let mut code = 0u64;
    for (variable, held) in mask.iter().enumerate() {
        if *held {
            code = (code ^ variable as u64)
                .wrapping_mul(0x9e37_79b9_7f4a_7c15)
                .rotate_left(23);
        }
    }
    code
}

// Leaves variable 0 out.
fn forget_constant(mask: &mut Vec<bool>)
    ensures { drop 1 mask.new.items ≡ drop 1 mask.old.items }
{
    if mask.len() > 0 {
        mask[0] = false;
    }
}

fn kept(flipped: bool, weight: u8) -> u8
    ensures { result ≡ (if flipped then weight else 0) }
{
    if flipped { weight } else { 0 }
}

fn turned(flipped: bool, weight: u8) -> u8
    requires { weight < 8 }
    ensures { result ≡ (if flipped then weight * 7 % 8 else weight) }
{
    if flipped { weight * 7 % 8 } else { weight }
}

impl Phases {
    ghost use Rattle.rv_paths.specs.inside.Parity.{parity};
    ghost use Rattle.rv_paths.specs.inside.Phases.{power};

    pub(crate) fn new(alloc: Global) -> Phases
        ensures { (u : List Bool) → power result u ≡ 0 }
    {
        Phases {
            constant: 0,
            terms: Vec::new(alloc),
            codes: Vec::new(alloc),
        }
    }

    /// Adds the same on all values.
    pub(crate) fn add_constant(&mut self, weight: u8)
        ensures { (u : List Bool) → power self.new u % 8 ≡ (power self.old u + weight) % 8 }
    {
        self.constant = joined(self.constant, weight);
    }

    // The place of a term that is likely to have these variables.
    fn find(&self, code: u64) -> usize {
        match self.codes.iter().position(|other| *other == code) {
            Some(place) => place,
            None => self.terms.len(),
        }
    }

    // Adds a weight to a term, if it has the same variables.
    fn join(&mut self, place: usize, mask: &[bool], weight: u8) -> bool
        ensures { (u : List Bool) → power self.new u % 8
            ≡ (power self.old u + (if result && parity (drop 1 mask.now) u then weight else 0)) % 8 }
    {
        if place < self.terms.len() && are_same(mask, &self.terms[place].mask) {
            self.terms[place].weight = joined(self.terms[place].weight, weight);
            true
        } else {
            false
        }
    }

    // Adds a weight where the parity of a mask without variable 0 is 1.
    fn push(&mut self, mask: Vec<bool>, weight: u8) -> Result<(), AllocError>
        ensures { OnOk result ((u : List Bool) → power self.new u % 8
            ≡ (power self.old u + (if parity (drop 1 mask.items) u then weight else 0)) % 8) }
    {
        let code = code_of(&mask);
        let place = self.find(code);
        if !self.join(place, &mask, weight) {
            self.terms.push(Term { mask, weight })?;
            self.codes.push(code)?;
        }
        Ok(())
    }

    /// Adds a weight where a parity is 1.
    pub(crate) fn add(&mut self, mut mask: Vec<bool>, weight: u8) -> Result<(), AllocError>
        requires { weight < 8 }
        ensures { OnOk result ((u : List Bool) → power self.new u % 8
            ≡ (power self.old u + (if parity mask.items (true ∷ u) then weight else 0)) % 8) }
    {
        let flipped = holds(&mask, 0);
        forget_constant(&mut mask);
        self.add_constant(kept(flipped, weight));
        self.push(mask, turned(flipped, weight))?;
        Ok(())
    }

    /// Whether nothing is added at any values of so many variables.
    pub(crate) fn vanish(&self, alloc: Global, variables: usize) -> Result<bool, AllocError>
        ensures { IfOk result (λ found. IsTrue found → (u : List Bool) → 1 + length u ≤ variables → power self.now u % 8 ≡ 0) }
    {
        if self.constant % 8 != 0 {
            return Ok(false);
        }
        vanish(alloc, &self.terms, 1, variables)
    }
}
