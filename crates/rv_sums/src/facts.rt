// What is known of the circuit's word where it began with constants.
ghost use Rattle.std.specs.Prelude.{◌≡◌, ◌<◌, ◌≤◌, false, List, Bool, length, slice_set, IfOk, IsFalse, IsTrue};
ghost use Rattle.rv_gate.specs.Gate.{act, holds};
ghost use Rattle.rv_gate.specs.Word.{has};
ghost use Rattle.rv_gate.specs.declared.gate.Shape.TheVariants.{Flip};
ghost use Rattle.rv_gate.specs.declared.word.TheConstants.{MOST_LINES};
ghost use Rattle.rv_terms.specs.Products.{odd};
ghost use Rattle.rv_sums.specs.inside.State.{AreCopies, Holds, HoldsAfter, TurnsBack, word_at};

use crate::beginning::lines_with;
use crate::by_paths::LITTLE;
use crate::differs::is_nought;
use crate::fault::PathFault;
use crate::following::copy_all;
use crate::gates::{holding, turn_all};
use rv_gate::{Gate, LineSet, MOST_LINES, Mark, Shape, has};
use rv_terms::{Product, Sum};
use std::alloc::Global;

// For each line the sum that is its bit. Where none began with a constant, there are no sums. Those lines stand in no
// sum, and each of the others is its own.
#[derive(Drop)]
pub(crate) struct Facts {
    pub lines: LineSet,
    pub sums: Vec<Sum>,
}

// Whether a line stands in a sum.
pub(crate) fn asks_for(sum: &Sum, line: u8) -> bool
    requires { line < MOST_LINES }
{
    for product in sum.products() {
        if has(product.lines, line) {
            return true;
        }
    }
    false
}

// Whether a sum is the same for both bits of a line.
fn lacks_line(alloc: Global, sum: &Sum, line: u8) -> Result<bool, PathFault>
    requires { line < MOST_LINES }
    ensures { IfOk result (λ lacks. IsTrue lacks → (x v : List Bool) (bit : Bool) → line < length x
        → odd sum.now (slice_set x line bit) v ≡ odd sum.now x v) }
{
    let none = Sum::new(alloc);
    let without = sum.replaced_line(alloc, line, &none)?;
    let rest = sum.plus(alloc, &without)?;
    Ok(is_nought(&rest))
}

impl Facts {
    // Those of words that are what these sums are.
    pub(crate) fn start(alloc: Global, marks: &[Mark], sums: &[Sum]) -> Result<Facts, PathFault>
        ensures { IfOk result (λ facts. (x : List Bool) → length sums.now ≤ length x
            → ((v : List Bool) → word_at sums.now x v ≡ x) → Holds facts.sums.items x) }
    {
        let lines = lines_with(marks, Mark::Zero) | lines_with(marks, Mark::One);
        if lines == 0 {
            return Ok(Facts {
                lines,
                sums: Vec::new(alloc),
            });
        }
        let sums = copy_all(alloc, sums)?;
        Ok(Facts { lines, sums })
    }

    pub(crate) fn copy(&self, alloc: Global) -> Result<Facts, PathFault>
        ensures { IfOk result (λ facts. AreCopies self.now.sums.items facts.sums.items) }
    {
        let sums = copy_all(alloc, &self.sums)?;
        Ok(Facts {
            lines: self.lines,
            sums,
        })
    }

    // A sum in which that of a line stands for it.
    fn told_at(&self, alloc: Global, sum: Sum, line: u8) -> Result<Sum, PathFault>
        requires { line < MOST_LINES }
        ensures { IfOk result (λ made. (x v : List Bool) → Holds self.now.sums.items x → odd made x v ≡ odd sum x v) }
    {
        let at = usize::from(line);
        if at >= self.sums.len() {
            return Ok(sum);
        }
        let made = sum.replaced_line(alloc, line, &self.sums[at])?;
        Ok(made)
    }

    // A sum in which no line stands that began with a constant.
    fn told(&self, alloc: Global, sum: Sum) -> Result<Sum, PathFault>
        ensures { IfOk result (λ made. (x v : List Bool) → Holds self.now.sums.items x → odd made x v ≡ odd sum x v) }
    {
        let mut made = sum;
        for line in 0..MOST_LINES {
            if has(self.lines, line) && asks_for(&made, line) {
                made = self.told_at(alloc, made, line)?;
            }
        }
        Ok(made)
    }

    // Where controls hold, by the bits after the flip.
    fn holding(
        &self,
        alloc: Global,
        lines: u8,
        care: LineSet,
        want: LineSet,
        target: u8,
    ) -> Result<Sum, PathFault>
        requires few { lines ≤ MOST_LINES }
        requires target { target < lines }
        requires free { IsFalse (has care target) }
        ensures { IfOk result (λ sum. (u v : List Bool) → length u ≡ lines → Holds self.now.sums.items u
            → odd sum (act (Flip care want target) u) v ≡ holds care want u) }
    {
        let sum = holding(alloc, lines, care, want)?;
        if self.sums.is_empty() {
            return Ok(sum);
        }
        let told = self.told(alloc, sum)?;
        let lacks = lacks_line(alloc, &told, target)?;
        if !lacks {
            return Err(PathFault::Steps);
        }
        Ok(told)
    }

    // The bit of a flip's target before it, by the bits after it.
    pub(crate) fn back(
        &self,
        alloc: Global,
        lines: u8,
        care: LineSet,
        want: LineSet,
        target: u8,
    ) -> Result<Sum, PathFault>
        requires few { lines ≤ MOST_LINES }
        requires target { target < lines }
        requires free { IsFalse (has care target) }
        ensures { IfOk result (TurnsBack self.now.sums.items lines (Flip care want target) target) }
    {
        let mut with = self.holding(alloc, lines, care, want, target)?;
        let product = Product::of_line(target);
        with.add(product)?;
        Ok(with)
    }

    // What is known of a word of which another one is made where this sum stands for a line.
    fn turned(&self, alloc: Global, line: u8, with: &Sum) -> Result<Facts, PathFault>
        requires { line < MOST_LINES }
        ensures { IfOk result (λ facts. (u y : List Bool) → line < length y
            → ((v : List Bool) → slice_set y line (odd with.now y v) ≡ u)
            → Holds self.now.sums.items u → Holds facts.sums.items y) }
    {
        let at = usize::from(line);
        let mut sums = turn_all(alloc, &self.sums, line, with)?;
        if at >= sums.len() {
            return Ok(Facts {
                lines: self.lines,
                sums,
            });
        }
        let mut own = sums[at].plus(alloc, with)?;
        let product = Product::of_line(line);
        own.add(product)?;
        sums[at] = own;
        Ok(Facts {
            lines: self.lines,
            sums,
        })
    }

    fn past_flip(
        &self,
        alloc: Global,
        lines: u8,
        care: LineSet,
        want: LineSet,
        target: u8,
    ) -> Result<Facts, PathFault>
        requires few { lines ≤ MOST_LINES }
        requires target { target < lines }
        requires free { IsFalse (has care target) }
        ensures { IfOk result (λ facts.
            HoldsAfter lines (Flip care want target) self.now.sums.items facts.sums.items) }
    {
        let with = self.back(alloc, lines, care, want, target)?;
        let facts = self.turned(alloc, target, &with)?;
        Ok(facts)
    }

    // What is known after one flip of the circuit more.
    pub(crate) fn past(&self, alloc: Global, lines: usize, gate: Gate) -> Result<Facts, PathFault>
        ensures { IfOk result (λ facts. HoldsAfter lines gate self.now.sums.items facts.sums.items) }
    {
        if self.sums.is_empty() {
            return Ok(Facts {
                lines: self.lines,
                sums: Vec::new(alloc),
            });
        }
        if lines > usize::from(MOST_LINES) || !gate.fits(lines as u8) {
            return Err(PathFault::Steps);
        }
        match gate.shape() {
            Shape::Flip { care, want, target } => {
                self.past_flip(alloc, lines as u8, care, want, target)
            }
            Shape::Swap { .. } | Shape::Peres { .. } => Err(PathFault::Steps),
        }
    }

    // Nothing more is known of a line.
    pub(crate) fn lose(&mut self, alloc: Global, line: u8) -> Result<(), PathFault>
        requires { line < MOST_LINES }
        ensures { IfOk result (λ _. (x : List Bool) → Holds self.old.sums.items x → Holds self.new.sums.items x) }
    {
        let at = usize::from(line);
        if at >= self.sums.len() {
            return Ok(());
        }
        let bit = Sum::of(alloc, Product::of_line(line))?;
        self.sums[at] = bit;
        self.lines &= !(1 << line);
        Ok(())
    }

    // The sum of a line and what is known of it: 0.
    pub(crate) fn nought_of(&self, alloc: Global, line: u8) -> Result<Sum, PathFault>
        requires { line < MOST_LINES }
        ensures { IfOk result (λ sum. (x v : List Bool) → Holds self.now.sums.items x → odd sum x v ≡ false) }
    {
        let at = usize::from(line);
        if at >= self.sums.len() {
            return Ok(Sum::new(alloc));
        }
        let own = Sum::of(alloc, Product::of_line(line))?;
        let both = self.sums[at].plus(alloc, &own)?;
        Ok(both)
    }

    pub(crate) fn is_large(&self, line: u8) -> bool {
        match self.sums.get(usize::from(line)) {
            Some(sum) => sum.len() > LITTLE,
            None => false,
        }
    }

    // How many products there are.
    pub(crate) fn size(&self) -> usize {
        let mut size: usize = 0;
        for sum in &self.sums {
            size = size.saturating_add(sum.len());
        }
        size
    }

    // How many products of the lines' sums are others than those of the facts.
    pub(crate) fn away(&self, sums: &[Sum]) -> usize {
        let mut away: usize = 0;
        for line in 0..sums.len() {
            if let Some(fact) = self.sums.get(line) {
                away = away.saturating_add(apart(&sums[line], fact));
            }
        }
        away
    }

    // A product of those of a flip's positive controls, where each fact stands for its line.
    fn lead_of(&self, want: LineSet) -> Option<Product> {
        let mut lead = Product {
            lines: want & !self.lines,
            paths: 0,
        };
        for line in 0..MOST_LINES {
            if has(want & self.lines, line) {
                if let Some(fact) = self.sums.get(usize::from(line)) {
                    let last = fact.products().last()?;
                    lead = lead.times(*last);
                }
            }
        }
        Some(lead)
    }

    // Whether such a product is in the sum of a flip's target, or the flip does nothing.
    pub(crate) fn lead(&self, sums: &[Sum], gate: Gate) -> bool {
        match gate.shape() {
            Shape::Flip { want, target, .. } => {
                let Some(lead) = self.lead_of(want) else {
                    return true;
                };
                let at = usize::from(target);
                match (sums.get(at), self.sums.get(at)) {
                    (Some(sum), Some(fact)) => sum.has(lead) != fact.has(lead),
                    _ => false,
                }
            }
            Shape::Swap { .. } | Shape::Peres { .. } => false,
        }
    }

    // The lines of a word that are 1, as those sums make them of the others.
    pub(crate) fn completed(&self, set: LineSet) -> LineSet {
        let others = set & !self.lines;
        let mut whole = others;
        for line in 0..MOST_LINES {
            if has(self.lines, line) {
                if let Some(sum) = self.sums.get(usize::from(line)) {
                    if is_one(sum, others) {
                        whole |= 1 << line;
                    }
                }
            }
        }
        whole
    }
}

// How many products are in one of two sums alone.
fn apart(sum: &Sum, fact: &Sum) -> usize {
    let mut apart = sum.len();
    for product in fact.products() {
        if sum.has(*product) {
            apart = apart.saturating_sub(1);
        } else {
            apart = apart.saturating_add(1);
        }
    }
    apart
}

// Whether a sum is 1 where these lines are, and no other, and no path bit.
fn is_one(sum: &Sum, ones: LineSet) -> bool {
    let mut one = false;
    for product in sum.products() {
        if product.paths == 0 && product.lines & !ones == 0 {
            one = !one;
        }
    }
    one
}
