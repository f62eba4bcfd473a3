// The state of a sum over paths.
ghost use Rattle.std.specs.Prelude.{◌≡◌, Bool, List, true, ◌<◌, ◌≤◌, ◌∷◌, [], length, IfOk};
ghost use Rattle.rv_gate.specs.declared.word.TheConstants.{MOST_LINES};
ghost use Rattle.rv_terms.specs.Products.{odd};
ghost use Rattle.rv_sums.specs.inside.State.{IsStart, IsStartAt, IsFlipped, IsTurned, Leads};

use crate::beginning::beginning;
use rv_gate::{MOST_LINES, Mark, Word};
use rv_terms::{Phases, Product, Sum, SumFault};
use std::alloc::{AllocError, Global};

// The roots of two of as many equal terms as there are paths, and as many to spare as a network may have operations.
pub(crate) const ALL_PATHS: u32 = 128 + (1 << 20);

// What the network has made of the circuit's word so far: for each line the sum of products that is its bit at the end
// of a path, and the phases of a path. The amplitude is the sum over all paths, but for so many roots of two.
#[derive(Drop)]
pub(crate) struct PathSum {
    pub sums: Vec<Sum>,
    pub phases: Phases,
    pub scale: u32,
}

// The sum that is always 1.
pub(crate) fn always(alloc: Global) -> Result<Sum, AllocError>
    ensures { IfOk result (λ sum. (x v : List Bool) → odd sum x v ≡ true) }
{
    let sum = Sum::of(alloc, Product::ONE)?;
    Ok(sum)
}

// The sum that is always this bit.
pub(crate) fn constant(alloc: Global, bit: bool) -> Result<Sum, AllocError>
    ensures { IfOk result (λ sum. (x v : List Bool) → odd sum x v ≡ bit) }
{
    if bit {
        return always(alloc);
    }
    Ok(Sum::new(alloc))
}

impl PathSum {
    // From each word that holds the constants to itself.
    pub(crate) fn start(alloc: Global, lines: u8, marks: &[Mark]) -> Result<PathSum, AllocError>
        requires { lines ≤ MOST_LINES }
        ensures { IfOk result (IsStart marks.now lines) }
    {
        let mut sums = Vec::new(alloc);
        for line in 0..lines {
            let sum = beginning(alloc, marks, line)?;
            sums.push(sum)?;
        }
        Ok(PathSum {
            sums,
            phases: Phases::new(alloc),
            scale: ALL_PATHS,
        })
    }

    // From one word alone.
    pub(crate) fn start_at(alloc: Global, word: Word) -> Result<PathSum, AllocError>
        ensures { IfOk result (IsStartAt word) }
    {
        let mut sums = Vec::new(alloc);
        for line in 0..word.len() {
            let sum = constant(alloc, word.bit(line))?;
            sums.push(sum)?;
        }
        Ok(PathSum {
            sums,
            phases: Phases::new(alloc),
            scale: ALL_PATHS,
        })
    }

    // Adds a sum to that of a line.
    pub(crate) fn flip(&mut self, alloc: Global, line: u8, with: &Sum) -> Result<(), AllocError>
        requires { line < length self.old.sums.items }
        ensures { IfOk result (λ _. IsFlipped line with.now self.old self.new) }
    {
        let at = usize::from(line);
        let next = self.sums[at].plus(alloc, with)?;
        self.sums[at] = next;
        Ok(())
    }

    // A power of w where a sum is 1.
    pub(crate) fn turn(&mut self, with: &Sum, weight: u8) -> Result<(), SumFault>
        ensures { IfOk result (λ _. IsTurned weight with.now self.old self.new) }
    {
        self.phases.add_sum(with, weight)?;
        Ok(())
    }
}
