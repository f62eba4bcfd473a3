ghost use Rattle.std.specs.Prelude.{◌≡◌, ℕ, [], Bool, List, length, IfOk, IsTrue};
ghost use Rattle.rv_gate.specs.Marks.{input_count};
ghost use Rattle.rv_compare.specs.Compare.{AreSame};
ghost use Rattle.rv_resynth.specs.Resynthesis.{IsResynthesisByMarks};
ghost use Rattle.rv_resynth.specs.inside.Windows.{AreGates};

use crate::marked_search::found_by_marks;
use crate::replacing::all_fit;
use crate::resynthesis::{frame_of, is_no_dearer, with_gates};
use rv_compare::{Comparison, compare_circuits};
use rv_diagram::MOST_NODES;
use rv_gate::{Circuit, Gate, MOST_GATES};
use rv_search::Goal;
use std::alloc::{AllocError, Global};

// Whether both circuits have the same function by their marks; of many inputs it may remain undecided.
fn has_function(alloc: Global, circuit: &Circuit, new: &Circuit) -> bool
    ensures { IsTrue result → (x : List Bool) → length x ≡ input_count circuit.now.constants
        → AreSame circuit.now new.now x }
{
    match compare_circuits(alloc, circuit, new, false, MOST_NODES as u32) {
        Ok(Comparison::Same) => true,
        _ => false,
    }
}

// The circuit with other gates, if these have the same function by the marks and the goal counts no more of them; else
// the circuit as it is.
fn taken(
    alloc: Global,
    circuit: &Circuit,
    frame: Circuit,
    goal: Goal,
    gates: Vec<Gate>,
) -> Result<Circuit, AllocError>
    requires { frame ≡ record circuit.now { gates = [] } }
    ensures { IfOk result (λ new. IsResynthesisByMarks goal circuit.now new) }
{
    if gates.len() > MOST_GATES
        || !all_fit(&gates, circuit.line_count())
        || !is_no_dearer(goal, circuit, &gates)
    {
        return circuit.copy();
    }
    let new = with_gates(circuit, frame, gates);
    if has_function(alloc, circuit, &new) {
        return Ok(new);
    }
    circuit.copy()
}

/// The circuit with gates that have the same function by its marks, and of which the goal counts no more: constants are
/// what they are, and what garbage lines hold at the end may change.
///
/// Effort and seed are as in [`resynth`](crate::resynth).
pub fn resynth_by_marks(
    alloc: Global,
    circuit: &Circuit,
    goal: Goal,
    effort: u16,
    seed: u16,
) -> Result<Circuit, AllocError>
    ensures found { IfOk result (λ new. IsResynthesisByMarks goal circuit.now new) }
    ensures idle { effort ≡ 0 → IfOk result (λ new. new ≡ circuit.now) }
{
    if effort == 0 {
        return circuit.copy();
    }
    let frame = frame_of(alloc, circuit)?;
    let gates = found_by_marks(alloc, circuit, goal, effort, seed)?;
    taken(alloc, circuit, frame, goal, gates)
}
