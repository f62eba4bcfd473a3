ghost use Rattle.std.specs.Prelude.{◌≡◌, ◌≤◌, [], length, IfOk, IfSome, IsTrue};
ghost use Rattle.rv_gate.specs.declared.circuit.TheConstants.{MOST_GATES};
ghost use Rattle.rv_search.specs.Measure.{measure};
ghost use Rattle.rv_resynth.specs.Resynthesis.{IsResynthesis};
ghost use Rattle.rv_resynth.specs.inside.Windows.{AreGates, Replaces};

use crate::whole::searched;
use rv_gate::{Circuit, Gate};
use rv_search::{Goal, Prices, Random, lines_with, measure};
use std::alloc::{AllocError, Global};

// Whether other gates count no more than those of a circuit.
pub(crate) fn is_no_dearer(goal: Goal, circuit: &Circuit, gates: &[Gate]) -> bool
    requires { length gates.now ≤ MOST_GATES }
    ensures { IsTrue result → measure goal (length circuit.now.names) gates.now
        ≤ measure goal (length circuit.now.names) circuit.now.gates }
{
    circuit.recall_invariant();
    let lines = circuit.line_count();
    measure(goal, lines, gates) <= measure(goal, lines, circuit.gates())
}

// The circuit's lines, without gates.
pub(crate) fn frame_of(alloc: Global, circuit: &Circuit) -> Result<Circuit, AllocError>
    ensures { IfOk result (λ frame. frame ≡ record circuit.now { gates = [] }) }
{
    let mut frame = circuit.copy()?;
    frame.set_gates(Vec::new(alloc));
    Ok(frame)
}

// The circuit with other gates, on a frame of its own.
pub(crate) fn with_gates(circuit: &Circuit, frame: Circuit, gates: Vec<Gate>) -> Circuit
    requires frame { frame ≡ record circuit.now { gates = [] } }
    requires gates { AreGates (length circuit.now.names) gates.items }
    requires few { length gates.items ≤ MOST_GATES }
    ensures { result ≡ record circuit.now { gates = gates.items } }
{
    circuit.recall_invariant();
    let mut new = frame;
    new.set_gates(gates);
    new
}

// What a search makes of the gates of a circuit.
fn found(
    alloc: Global,
    circuit: &Circuit,
    goal: Goal,
    effort: u16,
    seed: u16,
) -> Result<Vec<Gate>, AllocError>
    ensures { IfOk result (λ gates. Replaces (length circuit.now.names) circuit.now.gates gates.items) }
{
    circuit.recall_invariant();
    let lines = circuit.line_count();
    let prices = Prices {
        goal,
        lines: lines_with(lines, circuit.gates()),
        bounded: true,
    };
    let mut random = Random::new(seed);
    let gates = Vec::from_slice(alloc, circuit.gates())?;
    searched(alloc, gates, lines, &prices, effort, &mut random)
}

// What is found, if the goal counts no more of it.
fn found_no_dearer(
    alloc: Global,
    circuit: &Circuit,
    goal: Goal,
    effort: u16,
    seed: u16,
) -> Result<Option<Vec<Gate>>, AllocError>
    ensures gates { IfOk result (λ found. IfSome found (λ gates.
        Replaces (length circuit.now.names) circuit.now.gates gates.items)) }
    ensures no_dearer { IfOk result (λ found. IfSome found (λ gates. measure goal (length circuit.now.names) gates.items
        ≤ measure goal (length circuit.now.names) circuit.now.gates)) }
{
    let gates = found(alloc, circuit, goal, effort, seed)?;
    if is_no_dearer(goal, circuit, &gates) {
        return Ok(Some(gates));
    }
    Ok(None)
}

/// The circuit with gates that make the same of every word, and of which the goal counts no more.
///
/// An effort of 0 hands the circuit on. Each step looks at 25 windows more, and makes a search wider. What comes out
/// depends on the arguments alone; another seed takes another way. Fails only for want of memory.
pub fn resynth(
    alloc: Global,
    circuit: &Circuit,
    goal: Goal,
    effort: u16,
    seed: u16,
) -> Result<Circuit, AllocError>
    ensures found { IfOk result (λ new. IsResynthesis goal circuit.now new) }
    ensures idle { effort ≡ 0 → IfOk result (λ new. new ≡ circuit.now) }
{
    if effort == 0 {
        return circuit.copy();
    }
    let frame = frame_of(alloc, circuit)?;
    match found_no_dearer(alloc, circuit, goal, effort, seed)? {
        Some(gates) => Ok(with_gates(circuit, frame, gates)),
        None => circuit.copy(),
    }
}
