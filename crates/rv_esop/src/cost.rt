// What circuits cost by a goal.
ghost use Rattle.std.specs.Prelude.{◌≡◌, ◌<◌, ◌≤◌, length, All, IfSome, IsFalse, IsTrue, is_some};
ghost use Rattle.rv_gate.specs.Gate.{IsFlip};
ghost use Rattle.rv_gate.specs.declared.circuit.TheConstants.{MOST_GATES};
ghost use Rattle.rv_pla.specs.declared.cube.TheConstants.{MOST_OUTPUTS};
ghost use Rattle.rv_cube.specs.declared.list.TheConstants.{MOST_CUBES};
ghost use Rattle.rv_esop.specs.Cascade.{cascade_of, flips_of_cubes};
ghost use Rattle.rv_esop.specs.Shared.{AreShort, cost_of};

use super::count::count_of;
use rv_cube::{CubeList, MOST_CUBES};
use rv_exorlink::{Goal, flip_cost};
use rv_gate::{Circuit, Gate, MOST_GATES};
use rv_pla::{Cube, MOST_OUTPUTS};

// What gates cost together, if all are flips with at most 16 controls.
fn cost_of(gates: &[Gate], goal: Goal) -> Option<u64>
    requires { length gates.now ≤ MOST_GATES }
    ensures cost { IfSome result (λ cost. cost ≡ cost_of goal gates.now) }
    ensures flips { IfSome result (λ cost. All IsFlip gates.now) }
    ensures some { AreShort gates.now → IsTrue (is_some result) }
{
    if !are_flips(gates) {
        return None;
    }
    let mut cost = 0u64;
    for gate in gates {
        let controls = gate.controls().count_ones();
        if controls > 16 {
            return None;
        }
        cost += flip_cost(goal, controls);
    }
    Some(cost)
}

// Whether all gates are flips.
fn are_flips(gates: &[Gate]) -> bool
    ensures flips { IsTrue result → All IsFlip gates.now }
    ensures others { All IsFlip gates.now → IsTrue result }
{
    for gate in gates {
        if !gate.is_flip() {
            return false;
        }
    }
    true
}

// What the flips of cubes cost.
fn plain_cost(cubes: &[Cube], inputs: u8, outputs: u8, goal: Goal) -> u64
    requires few { length cubes.now ≤ MOST_CUBES }
    requires few_outputs { outputs ≤ MOST_OUTPUTS }
    ensures { result ≡ cost_of goal (flips_of_cubes inputs outputs cubes.now) }
{
    let mut cost = 0u64;
    for cube in cubes {
        let count = u64::from(count_of(*cube, inputs, outputs));
        cost += count * flip_cost(goal, cube.care.count_ones());
    }
    cost
}

/// Whether a circuit costs no more than the cascade of a list; false where a gate is no flip, or has more than 16
/// controls.
pub fn is_no_dearer(circuit: &Circuit, cubes: &CubeList, goal: Goal) -> bool
    ensures no_dearer { IsTrue result → cost_of goal circuit.now.gates ≤ cost_of goal (cascade_of cubes.now).gates }
    ensures flips { IsTrue result → All IsFlip circuit.now.gates }
    ensures dearer { AreShort circuit.now.gates → IsFalse result
        → cost_of goal (cascade_of cubes.now).gates < cost_of goal circuit.now.gates }
{
    circuit.recall_invariant();
    match cost_of(circuit.gates(), goal) {
        Some(cost) => cost <= plain_cost(cubes.cubes(), cubes.inputs(), cubes.outputs(), goal),
        None => false,
    }
}

/// Whether a circuit of flips is cheaper than another one.
pub fn is_cheaper(new: &Circuit, old: &Circuit, goal: Goal) -> bool
    ensures flips { IsTrue result → All IsFlip new.now.gates }
    ensures cheaper { IsTrue result → cost_of goal new.now.gates ≤ cost_of goal old.now.gates }
{
    new.recall_invariant();
    old.recall_invariant();
    match (cost_of(new.gates(), goal), cost_of(old.gates(), goal)) {
        (Some(cost), Some(other)) => cost < other,
        _ => false,
    }
}
