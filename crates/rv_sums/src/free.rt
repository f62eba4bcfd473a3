// H, with a path bit that stands nowhere.
ghost use Rattle.std.specs.Prelude.{◌≡◌, ◌<◌, ◌∷◌, [], length, IfOk, IfSome, IsTrue};
ghost use Rattle.rv_gate.specs.declared.word.TheConstants.{MOST_LINES};
ghost use Rattle.rv_net.specs.declared.op.Op.TheVariants.{H};
ghost use Rattle.rv_sums.specs.inside.State.{EndsLack, IsFree, Leads};

use crate::fault::PathFault;
use crate::path_sum::PathSum;
use rv_gate::MOST_LINES;
use rv_terms::{Product, Sum};
use std::alloc::Global;

// Whether the path bit stands in no sum.
pub(crate) fn all_lack(sums: &[Sum], path: u8) -> bool
    requires { path < MOST_LINES }
    ensures { IsTrue result → EndsLack path sums.now }
{
    for sum in sums {
        if sum.has_path(path) {
            return false;
        }
    }
    true
}

impl PathSum {
    // Whether the path bit stands nowhere.
    fn is_free(&self, path: u8) -> bool
        requires { path < MOST_LINES }
        ensures { IsTrue result → IsFree self.now path }
    {
        if self.phases.has_path(path) {
            return false;
        }
        all_lack(&self.sums, path)
    }

    fn free_path(&self) -> Option<u8>
        ensures { IfSome result (IsFree self.now) }
    {
        for path in 0..MOST_LINES {
            if self.is_free(path) {
                return Some(path);
            }
        }
        None
    }

    pub(crate) fn h(&mut self, alloc: Global, line: u8) -> Result<(), PathFault>
        requires { line < length self.old.sums.items }
        ensures { IfOk result (λ _. Leads (H line ∷ []) self.old self.new) }
    {
        let Some(path) = self.free_path() else {
            return Err(PathFault::Paths);
        };
        if self.scale < 2 {
            return Err(PathFault::Paths);
        }
        let at = usize::from(line);
        let product = Product::of_path(path);
        let turned = self.sums[at].scaled(alloc, product)?;
        let bit = Sum::of(alloc, product)?;
        self.phases.add_sum(&turned, 4)?;
        self.sums[at] = bit;
        self.scale -= 2;
        Ok(())
    }
}
