// Operations and flips, followed one after another.
ghost use Rattle.std.specs.Prelude.{◌≡◌, ◌<◌, ◌≤◌, ◌∷◌, [], List, Bool, All, length, IfOk, IfSome};
ghost use Rattle.rv_gate.specs.Every.{Every};
ghost use Rattle.rv_gate.specs.Gate.{IsFlipOn};
ghost use Rattle.rv_gate.specs.declared.word.TheConstants.{MOST_LINES};
ghost use Rattle.rv_net.specs.Op.{OpFitsIn};
ghost use Rattle.rv_sums.specs.inside.State.{AreCopies, Leads, Reached, ReachedFrom};

use crate::by_paths::{MOST_STEPS, MOST_TERMS};
use crate::fault::PathFault;
use crate::path_sum::PathSum;
use crate::taking::{Following, Reach};
use rv_gate::{Gate, MOST_LINES, Mark, Shape, Word};
use rv_net::Op;
use rv_terms::{Product, Sum};
use std::alloc::Global;

pub(crate) fn copy_all(alloc: Global, sums: &[Sum]) -> Result<Vec<Sum>, PathFault>
    ensures { IfOk result (λ made. AreCopies sums.now made.items) }
{
    let mut made = Vec::new(alloc);
    for sum in sums {
        let next = sum.copy(alloc)?;
        made.push(next)?;
    }
    Ok(made)
}

// How far a line's sum is from the bit of the line.
fn distance(sum: &Sum, line: u8) -> usize
    requires { line < MOST_LINES }
{
    if sum.has(Product::of_line(line)) {
        sum.len().saturating_sub(1)
    } else {
        sum.len().saturating_add(1)
    }
}

impl PathSum {
    pub(crate) fn copy(&self, alloc: Global) -> Result<PathSum, PathFault>
        ensures { IfOk result (Leads [] self.now) }
    {
        let sums = copy_all(alloc, &self.sums)?;
        let phases = self.phases.copy(alloc)?;
        Ok(PathSum {
            sums,
            phases,
            scale: self.scale,
        })
    }

    // How many products of the lines' sums are others than the lines.
    fn away(&self) -> usize {
        let mut away: usize = 0;
        for line in 0..MOST_LINES {
            if let Some(sum) = self.sums.get(usize::from(line)) {
                away = away.saturating_add(distance(sum, line));
            }
        }
        away
    }

    // How far the sum is from that of each word to itself. A product of a line's sum weighs as much as so many of the
    // phases.
    pub(crate) fn weight(&self, share: usize) -> usize {
        let away = self.away();
        self.phases.len().saturating_add(away.saturating_mul(share))
    }

    // How many products there are.
    pub(crate) fn size(&self) -> usize {
        self.weight(1)
    }

    // Whether the product of a flip's positive controls stands in the sum of its target.
    pub(crate) fn leads(&self, gate: Gate) -> bool {
        match gate.shape() {
            Shape::Flip { want, target, .. } => match self.sums.get(usize::from(target)) {
                Some(sum) => sum.has(Product {
                    lines: want,
                    paths: 0,
                }),
                None => false,
            },
            Shape::Swap { .. } | Shape::Peres { .. } => false,
        }
    }

    // One operation more, and after H without the path bits that can be taken away.
    pub(crate) fn operate(&mut self, alloc: Global, op: Op) -> Result<(), PathFault>
        requires { OpFitsIn op (length self.old.sums.items) }
        ensures { IfOk result (λ _. Leads (op ∷ []) self.old self.new) }
    {
        self.step(alloc, op)?;
        match op {
            Op::H(_) => {
                self.shorten(alloc)?;
                Ok(())
            }
            _ => Ok(()),
        }
    }

    // The sums that phases kept are lifted.
    fn open(&mut self) -> Result<(), PathFault>
        ensures { IfOk result (λ _. Leads [] self.old self.new) }
    {
        self.phases.open()?;
        Ok(())
    }

    // The steps so far, if there may be so many, and so many terms.
    fn within(&self, steps: u64) -> Result<u64, PathFault> {
        let size = self.size();
        if size > MOST_TERMS {
            return Err(PathFault::Terms);
        }
        let steps = steps.saturating_add(size as u64);
        if steps > MOST_STEPS {
            return Err(PathFault::Steps);
        }
        Ok(steps)
    }
}

// The sum after all operations, and after all flips, from each word that holds the constants.
pub(crate) fn through(
    alloc: Global,
    lines: u8,
    ops: &[Op],
    flips: &[Gate],
    marks: &[Mark],
    reach: Reach,
) -> Result<Following, PathFault>
    requires few { lines ≤ MOST_LINES }
    requires fits { All (λ op. OpFitsIn op lines) ops.now }
    requires each { Every (IsFlipOn lines) flips.now }
    ensures { IfOk result (λ state.
        Reached marks.now state.facts.sums.items lines ops.now [] flips.now [] state.sum) }
{
    let mut state = Following::start(alloc, lines, marks, reach)?;
    'places: for place in 0..ops.len() {
        state.operate(alloc, flips, ops[place])?;
    }
    state.finish(alloc, flips)?;
    state.sum.open()?;
    state.sum.shorten(alloc)?;
    Ok(state)
}

// The sum from one word, after all operations.
pub(crate) fn through_from(alloc: Global, word: Word, ops: &[Op]) -> Result<PathSum, PathFault>
    requires { All (λ op. OpFitsIn op (length word)) ops.now }
    ensures { IfOk result (ReachedFrom word ops.now []) }
{
    let mut state = PathSum::start_at(alloc, word)?;
    let mut steps = 0u64;
    'places: for place in 0..ops.len() {
        state.operate(alloc, ops[place])?;
        steps = state.within(steps)?;
    }
    state.open()?;
    state.shorten(alloc)?;
    Ok(state)
}
