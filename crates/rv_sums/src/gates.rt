// Flips of the circuit, taken into the sums: they are over the circuit's word after them.
ghost use Rattle.std.specs.Prelude.{◌≡◌, ◌<◌, ◌≤◌, ◌∷◌, ◌&&◌, List, Bool, [], length, IfOk, IsFalse};
ghost use Rattle.rv_gate.specs.Gate.{IsFlipOn, holds, same};
ghost use Rattle.rv_gate.specs.Word.{bit_of, has};
ghost use Rattle.rv_gate.specs.declared.gate.Shape.TheVariants.{Flip};
ghost use Rattle.rv_gate.specs.declared.word.TheConstants.{MOST_LINES};
ghost use Rattle.rv_terms.specs.Products.{odd};
ghost use Rattle.rv_sums.specs.inside.State.{AreTurned, Takes};

use crate::facts::Facts;
use crate::fault::PathFault;
use crate::path_sum::{PathSum, always};
use rv_gate::{Gate, LineSet, MOST_LINES, Shape, has};
use rv_terms::{Product, Sum};
use std::alloc::Global;

// A sum where a line has the wanted bit, else 0.
fn under(alloc: Global, sum: &Sum, line: u8, wanted: bool) -> Result<Sum, PathFault>
    requires { line < MOST_LINES }
    ensures { IfOk result (λ made. (x v : List Bool)
        → odd made x v ≡ (same (bit_of x line) wanted && odd sum.now x v)) }
{
    let product = Product::of_line(line);
    if wanted {
        let made = sum.scaled(alloc, product)?;
        return Ok(made);
    }
    let mut factor = always(alloc)?;
    factor.add(product)?;
    let made = factor.times(alloc, sum)?;
    Ok(made)
}

// Where controls hold.
pub(crate) fn holding(
    alloc: Global,
    lines: u8,
    care: LineSet,
    want: LineSet,
) -> Result<Sum, PathFault>
    requires { lines ≤ MOST_LINES }
    ensures { IfOk result (λ sum. (x v : List Bool) → length x ≡ lines → odd sum x v ≡ holds care want x) }
{
    let mut sum = always(alloc)?;
    for line in 0..lines {
        if has(care, line) {
            sum = under(alloc, &sum, line, has(want, line))?;
        }
    }
    Ok(sum)
}

// Sums in which another one stands for a line.
pub(crate) fn turn_all(
    alloc: Global,
    sums: &[Sum],
    line: u8,
    with: &Sum,
) -> Result<Vec<Sum>, PathFault>
    requires { line < MOST_LINES }
    ensures { IfOk result (λ made. AreTurned line with.now sums.now made.items) }
{
    let mut made = Vec::new(alloc);
    for sum in sums {
        let next = sum.replaced_line(alloc, line, with)?;
        made.push(next)?;
    }
    Ok(made)
}

impl PathSum {
    fn put_flip(
        &self,
        alloc: Global,
        facts: &Facts,
        care: LineSet,
        want: LineSet,
        target: u8,
    ) -> Result<PathSum, PathFault>
        requires few { length self.now.sums.items ≤ MOST_LINES }
        requires target { target < length self.now.sums.items }
        requires free { IsFalse (has care target) }
        ensures { IfOk result (Takes facts.now.sums.items (Flip care want target) self.now) }
    {
        let lines = self.sums.len() as u8;
        let with = facts.back(alloc, lines, care, want, target)?;
        let sums = turn_all(alloc, &self.sums, target, &with)?;
        let phases = self.phases.replaced_line(alloc, target, &with)?;
        Ok(PathSum {
            sums,
            phases,
            scale: self.scale,
        })
    }

    // The sum after one flip of the circuit more, where these facts hold. What is no flip on its lines isn't taken.
    pub(crate) fn with_flip(
        &self,
        alloc: Global,
        facts: &Facts,
        gate: Gate,
    ) -> Result<PathSum, PathFault>
        ensures { IfOk result (Takes facts.now.sums.items gate self.now) }
    {
        let lines = self.sums.len();
        if lines > usize::from(MOST_LINES) || !gate.fits(lines as u8) {
            return Err(PathFault::Steps);
        }
        match gate.shape() {
            Shape::Flip { care, want, target } => {
                self.put_flip(alloc, facts, care, want, target)
            },
            Shape::Swap { .. } | Shape::Peres { .. } => Err(PathFault::Steps),
        }
    }
}
