ghost use Rattle.std.specs.Prelude.{◌≡◌, ℕ, ◌+◌, ◌≤◌, ◌++◌, List, length, take, drop, All, IsTrue, OnOk};
ghost use Rattle.rv_gate.specs.declared.circuit.TheConstants.{MOST_GATES};
ghost use Rattle.rv_resynth.specs.inside.Windows.{AreGates, CanReplace};

use crate::agreement::agree;
use rv_gate::{Gate, MOST_GATES};
use std::alloc::AllocError;

// Whether each gate fits so many lines.
pub(crate) fn all_fit(gates: &[Gate], lines: u8) -> bool
    ensures { IsTrue result → AreGates lines gates.now }
{
    for gate in gates {
        gate.recall_invariant();
        if !gate.fits(lines) {
            return false;
        }
    }
    true
}

// Whether new gates on so many lines can stand in the place of others: they make the same of every word.
pub(crate) fn can_replace(old: &[Gate], new: &[Gate], lines: u8) -> bool
    ensures { IsTrue result → CanReplace lines old.now new.now }
{
    all_fit(new, lines) && agree(old, new)
}

// Whether there are few enough gates where so many, in the place of others, stand beside those that were passed over.
pub(crate) fn have_room(gates: usize, count: usize, new: usize, passed: usize) -> bool
    requires few { gates ≤ MOST_GATES }
    requires count { count ≤ gates }
    ensures { IsTrue result → gates + new + passed ≤ MOST_GATES + count }
{
    let more = new.saturating_add(passed);
    more <= MOST_GATES && gates - count + more <= MOST_GATES
}

// Puts other gates in the place of a window that was collected from a place on, from so many gates. No second list is
// made: the window is turned to the end and goes.
#[tactic(auto, using(crate::proofs::inside::Splitting::in_place))]
pub(crate) fn replace(
    gates: &mut Vec<Gate>,
    from: usize,
    count: usize,
    new: &[Gate],
    passed: &[Gate],
) -> Result<(), AllocError>
    requires from { from ≤ length gates.old.items }
    requires count { count ≤ length (drop from gates.old.items) }
    ensures { OnOk result (gates.new.items
        ≡ take from gates.old.items ++ (new.now ++ (passed.now ++ drop count (drop from gates.old.items)))) }
{
    let end = from + count;
    let after = gates.len() - end;
    gates.rotate_left(end);
    gates.truncate(after + from);
    gates.extend_from_slice(new)?;
    gates.extend_from_slice(passed)?;
    gates.rotate_left(after);
    Ok(())
}
