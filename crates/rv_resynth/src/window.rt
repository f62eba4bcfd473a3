ghost use Rattle.std.specs.Prelude.{◌≡◌, ℕ, ◌+◌, ◌<◌, ◌≤◌, ◌++◌, [], ◌∷◌, List, length, take, drop, All, IsTrue, IfOk};
ghost use Rattle.std.specs.Prelude.{OnOk};
ghost use Rattle.rv_gate.specs.declared.gate.Shape.{Shape};
ghost use Rattle.rv_gate.specs.Commuting.{Commutes};
ghost use Rattle.rv_gate.specs.Gate.{FitsIn};
ghost use Rattle.rv_resynth.specs.inside.Windows.{AreGates, Splits};

use rv_gate::{Gate, LineSet};
use rv_search::{Common, Prices, Random};
use std::alloc::{AllocError, Global};

// So many gates are looked at, at most.
const REACH: usize = 120;
// So many of them are passed over, at most.
const MOST_PASSED: usize = 60;

// Gates that are brought together, and those that they were brought past.
#[derive(Drop)]
pub(crate) struct Window {
    pub(crate) gates: Vec<Gate>,
    pub(crate) passed: Vec<Gate>,
}

// Whether each of some gates commutes with this one.
fn all_commute(passed: &[Gate], gate: Gate) -> bool
    ensures { IsTrue result → All (λ other. Commutes other gate) passed.now }
{
    for other in passed {
        if !other.commutes(gate) {
            return false;
        }
    }
    true
}

// Takes the next gate into the window if it is wanted and can be brought there, and passes over it if not.
fn add(window: &mut Window, gate: Gate, wanted: bool) -> Result<(), AllocError>
    ensures { OnOk result ((n : ℕ) (before : List Shape) → FitsIn gate n
        → Splits n before window.old.gates.items window.old.passed.items
        → Splits n (before ++ gate ∷ []) window.new.gates.items window.new.passed.items) }
{
    gate.recall_invariant();
    if wanted && all_commute(&window.passed, gate) {
        window.gates.push(gate)?;
    } else {
        window.passed.push(gate)?;
    }
    Ok(())
}

// How large a window may be: on how many lines beside the common controls, and of which cost.
#[derive(Clone, Copy)]
pub(crate) struct Choice {
    pub(crate) lines: u32,
    pub(crate) limit: u32,
    pub(crate) common: Common,
    pub(crate) prices: Prices,
}

// Whether a gate is wanted in a window of which some lines are taken. One that needs a new line is wanted three times
// of four.
fn is_wanted(gate: Gate, taken: LineSet, choice: &Choice, random: &mut Random) -> bool {
    let all = taken | gate.touched() & !choice.common.care;
    choice.common.suit(gate)
        && all.count_ones() <= choice.lines
        && (all == taken || taken == 0 || random.next() % 4 != 0)
}

// Collects a window from the first gate on. Says how many gates are in it or passed over.
pub(crate) fn collect(
    alloc: Global,
    gates: &[Gate],
    choice: &Choice,
    random: &mut Random,
) -> Result<(Window, usize), AllocError>
    ensures within { IfOk result (λ found. found.1 ≤ length gates.now) }
    ensures splits { IfOk result (λ found. (n : ℕ) → AreGates n gates.now
        → Splits n (take found.1 gates.now) found.0.gates.items found.0.passed.items) }
{
    let mut window = Window {
        gates: Vec::new(alloc),
        passed: Vec::new(alloc),
    };
    let mut taken = 0;
    let mut left = choice.limit;
    for place in 0..gates.len().min(REACH) {
        if window.passed.len() == MOST_PASSED {
            return Ok((window, place));
        }
        let gate = gates[place];
        let cost = choice.prices.gate(gate);
        let wanted = cost <= left && is_wanted(gate, taken, choice, random);
        let size = window.gates.len();
        add(&mut window, gate, wanted)?;
        if wanted && window.gates.len() > size {
            taken |= gate.touched() & !choice.common.care;
            left -= cost;
        }
    }
    Ok((window, gates.len().min(REACH)))
}
