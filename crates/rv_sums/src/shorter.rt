// Rules by which a sum over paths becomes shorter: a path bit goes.
ghost use Rattle.std.specs.Prelude.{◌≡◌, ◌<◌, ◌+◌, ◌≤◌, List, Bool, [], ℕ, if◌then◌else◌, length, slice_set, IfOk, IfSome, IsTrue};
ghost use Rattle.rv_gate.specs.declared.word.TheConstants.{MOST_LINES};
ghost use Rattle.rv_terms.specs.Products.{odd};
ghost use Rattle.rv_sums.specs.inside.State.{ArePut, Brings, EndsLack, Leads};

use crate::fault::PathFault;
use crate::free::all_lack;
use crate::path_sum::PathSum;
use rv_gate::MOST_LINES;
use rv_terms::{Product, Sum, SumFault};
use std::alloc::Global;

// The most roots of two that the scale has: so many are never there.
const MOST_SCALE: u32 = 1 << 24;

// A sum in which another one stands for a path bit.
fn put(alloc: Global, sum: &Sum, path: u8, with: &Sum) -> Result<Sum, SumFault>
    requires { path < MOST_LINES }
    ensures { IfOk result (λ made. (x v : List Bool) → path < length v
        → odd made x v ≡ odd sum.now x (slice_set v path (odd with.now x v))) }
{
    if sum.has_path(path) {
        return sum.replaced_path(alloc, path, with);
    }
    let same = sum.copy(alloc)?;
    Ok(same)
}

fn put_all(alloc: Global, sums: &[Sum], path: u8, with: &Sum) -> Result<Vec<Sum>, PathFault>
    requires { path < MOST_LINES }
    ensures { IfOk result (λ made. ArePut path with.now sums.now made.items) }
{
    let mut made = Vec::new(alloc);
    for sum in sums {
        let next = put(alloc, sum, path, with)?;
        made.push(next)?;
    }
    Ok(made)
}

// How many products of a sum ask for a path bit.
fn count_path(sum: &Sum, path: u8) -> usize
    requires { path < MOST_LINES }
{
    let mut count: usize = 0;
    for product in sum.products() {
        if product.has_path(path) {
            count = count.saturating_add(1);
        }
    }
    count
}

// A path bit, other than this one, that stands in a sum by itself alone.
fn partner(sum: &Sum, path: u8) -> Option<u8>
    requires { path < MOST_LINES }
    ensures { IfSome result (λ other. other < MOST_LINES) }
{
    for other in 0..MOST_LINES {
        if other != path && sum.has(Product::of_path(other)) && count_path(sum, other) == 1 {
            return Some(other);
        }
    }
    None
}

impl PathSum {
    // HH: of a path bit that stands in no line's sum, and in the phases only in 4 y (z + q), with z another path bit and
    // q over further ones, the paths with z = q are left, twice.
    fn join(&mut self, alloc: Global, path: u8, signs: Sum) -> Result<bool, PathFault>
        requires path { path < MOST_LINES }
        requires ends { EndsLack path self.old.sums.items }
        requires part { Brings path (λ x v. if odd signs x v then 4 else 0) self.old.phases }
        ensures { IfOk result (λ _. Leads [] self.old self.new) }
    {
        let Some(other) = partner(&signs, path) else {
            return Ok(false);
        };
        let mut rest = signs;
        let product = Product::of_path(other);
        rest.add(product)?;
        if other == path {
            return Ok(false);
        }
        if rest.has_path(path) {
            return Ok(false);
        }
        if self.scale > MOST_SCALE {
            return Ok(false);
        }
        if rest.has_path(other) {
            return Ok(false);
        }
        let none = Sum::new(alloc);
        let left = self.phases.replaced_path(alloc, path, &none)?;
        let phases = left.replaced_path(alloc, other, &rest)?;
        let sums = put_all(alloc, &self.sums, other, &rest)?;
        self.sums = sums;
        self.phases = phases;
        self.scale += 2;
        Ok(true)
    }

    // Omega: a path bit that stands in no line's sum, and in the phases only in 2 y + 4 y q, brings the root of two, and
    // w^(1 - 2 q).
    fn turn_half(&mut self, alloc: Global, path: u8, signs: Sum) -> Result<bool, PathFault>
        requires path { path < MOST_LINES }
        requires ends { EndsLack path self.old.sums.items }
        requires part { Brings path (λ x v. if odd signs x v then 6 else 2) self.old.phases }
        ensures { IfOk result (λ _. Leads [] self.old self.new) }
    {
        if self.scale > MOST_SCALE {
            return Ok(false);
        }
        if signs.has_path(path) {
            return Ok(false);
        }
        let none = Sum::new(alloc);
        let mut phases = self.phases.replaced_path(alloc, path, &none)?;
        phases.add(Product::ONE, 1)?;
        phases.add_sum(&signs, 6)?;
        self.phases = phases;
        self.scale += 1;
        Ok(true)
    }

    // Takes a path bit away by one of the rules, if it can be.
    fn shorten_at(&mut self, alloc: Global, path: u8) -> Result<bool, PathFault>
        requires { path < MOST_LINES }
        ensures { IfOk result (λ _. Leads [] self.old self.new) }
    {
        if !self.phases.has_path(path) {
            return Ok(false);
        }
        if !all_lack(&self.sums, path) {
            return Ok(false);
        }
        let mut part = self.phases.part(alloc, path)?;
        let whole = part.signs(alloc)?;
        if let Some(signs) = whole {
            return self.join(alloc, path, signs);
        }
        part.add(Product::ONE, 6)?;
        let half = part.signs(alloc)?;
        if let Some(signs) = half {
            return self.turn_half(alloc, path, signs);
        }
        Ok(false)
    }

    // Takes path bits away, one after another: so many times at most as there can be any.
    pub(crate) fn shorten(&mut self, alloc: Global) -> Result<(), PathFault>
        ensures { IfOk result (λ _. Leads [] self.old self.new) }
    {
        'rounds: for _ in 0..MOST_LINES {
            let again = self.shorten_once(alloc)?;
            if !again {
                return Ok(());
            }
        }
        Ok(())
    }

    // Tries each path bit. Whether one went.
    fn shorten_once(&mut self, alloc: Global) -> Result<bool, PathFault>
        ensures { IfOk result (λ _. Leads [] self.old self.new) }
    {
        let mut shorter = false;
        for path in 0..MOST_LINES {
            let gone = self.shorten_at(alloc, path)?;
            shorter = shorter | gone;
        }
        Ok(shorter)
    }
}
