// The flips of the circuit that aren't taken yet.
ghost use Rattle.std.specs.Prelude.{◌≡◌, ◌≤◌, List, [], All, length, take, IfOk, IsTrue};
ghost use Rattle.rv_gate.specs.Commuting.{Commutes};
ghost use Rattle.rv_gate.specs.declared.gate.Shape.{Shape};
ghost use Rattle.rv_sums.specs.inside.State.{left_of};

use rv_gate::Gate;
use std::alloc::{AllocError, Global};

// The flips of a window, and then all from a place on.
#[derive(Drop)]
pub(crate) struct Left {
    pub window: Vec<Gate>,
    pub next: usize,
}

// Whether each of some gates commutes with this one.
fn all_commute(passed: &[Gate], gate: Gate) -> bool
    ensures { IsTrue result → All (λ other. Commutes other gate) passed.now }
{
    for other in passed {
        if !other.commutes(gate) {
            return false;
        }
    }
    true
}

impl Left {
    pub(crate) fn all(alloc: Global) -> Left
        ensures { (flips : List Shape) → left_of flips result ≡ flips }
    {
        Left {
            window: Vec::new(alloc),
            next: 0,
        }
    }

    pub(crate) fn copy(&self, alloc: Global) -> Result<Left, AllocError>
        ensures { IfOk result (λ left. (flips : List Shape) → left_of flips left ≡ left_of flips self.now) }
    {
        let window = Vec::from_slice(alloc, &self.window)?;
        Ok(Left {
            window,
            next: self.next,
        })
    }

    // One flip more in the window.
    fn grow(&mut self, flips: &[Gate]) -> Result<(), AllocError>
        ensures { IfOk result (λ _. left_of flips.now self.new ≡ left_of flips.now self.old) }
    {
        if self.next < flips.len() {
            self.window.push(flips[self.next])?;
            self.next += 1;
        }
        Ok(())
    }

    // So many flips in the window, if as many are left.
    pub(crate) fn fill(&mut self, flips: &[Gate], count: usize) -> Result<(), AllocError>
        ensures { IfOk result (λ _. left_of flips.now self.new ≡ left_of flips.now self.old) }
    {
        'more: for _ in self.window.len()..count {
            self.grow(flips)?;
        }
        Ok(())
    }

    // Whether none is left.
    pub(crate) fn is_none(&self, flips: &[Gate]) -> bool
        ensures { IsTrue result → left_of flips.now self.now ≡ [] }
    {
        self.window.is_empty() && self.next >= flips.len()
    }

    // Whether a flip may be taken before all that stand in front of this place.
    pub(crate) fn may_pass(&self, at: usize, gate: Gate) -> bool
        requires { at ≤ length self.now.window.items }
        ensures { IsTrue result → All (λ other. Commutes other gate) (take at self.now.window.items) }
    {
        all_commute(&self.window[..at], gate)
    }
}
