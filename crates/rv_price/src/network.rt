// The operations of a network over lines that hold 0.
ghost use Rattle.std.specs.Prelude.{◌≡◌, ◌≤◌, length};
ghost use Rattle.std.specs.List.{sum_by};
ghost use Rattle.rv_gate.specs.declared.circuit.TheConstants.{MOST_GATES};
ghost use Rattle.rv_gate.specs.declared.word.TheConstants.{MOST_LINES};
ghost use Rattle.rv_price.specs.Price.{controls_count, flip_count, gate_count};

use crate::Goal;
use rv_gate::{Gate, MOST_GATES, MOST_LINES, Shape};
use rv_mct::{count_lines, flips_of};

// With so many controls.
fn controls_count(goal: Goal, controls: u8) -> u64
    requires { controls ≤ MOST_LINES }
    ensures value { result ≡ controls_count goal controls }
    ensures few { result ≤ 512 }
{
    let count = u64::from(controls);
    match goal {
        Goal::Cx => {
            if controls < 2 {
                return count;
            }
            6 * count - 6
        }
        Goal::Lines | Goal::T | Goal::Quantum | Goal::Gates => {
            if controls < 2 {
                return 0;
            }
            8 * count - 9
        }
    }
}

fn flip_count(goal: Goal, flip: Gate) -> u64
    ensures value { result ≡ flip_count goal flip }
    ensures few { result ≤ 512 }
{
    match flip.shape() {
        Shape::Flip { care, .. } => controls_count(goal, count_lines(care)),
        _ => 0,
    }
}

fn flips_count(goal: Goal, flips: &[Gate]) -> u64
    requires { length flips.now ≤ 3 }
    ensures value { result ≡ sum_by (flip_count goal) flips.now }
    ensures few { result ≤ 1536 }
{
    let mut count = 0;
    for flip in flips {
        count += flip_count(goal, *flip);
    }
    count
}

fn gate_count(goal: Goal, gate: Gate) -> u64
    ensures value { result ≡ gate_count goal gate }
    ensures few { result ≤ 1536 }
{
    let (flips, count) = flips_of(gate);
    flips_count(goal, &flips[..count])
}

/// How many of the operations that a goal counts the network of gates has: CNOT, else T.
pub(crate) fn gates_count(goal: Goal, gates: &[Gate]) -> u64
    requires { length gates.now ≤ MOST_GATES }
    ensures { result ≡ sum_by (gate_count goal) gates.now }
{
    let mut count = 0;
    for gate in gates {
        count += gate_count(goal, *gate);
    }
    count
}
