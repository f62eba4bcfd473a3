// Flips of many controls in parts, over lines that they don't touch, which are given back whatever they hold.
ghost use Rattle.std.specs.Prelude.{◌≡◌, ◌≤◌, ◌++◌, ◌∷◌, [], length, All, OnOk, IfOk};
ghost use Rattle.rv_gate.specs.Gate.{FitsIn, IsFlip};
ghost use Rattle.rv_esop.specs.Parts.{ActSame, AppendsSame, Rewrites};
ghost use Rattle.rv_esop.specs.Shared.{cost_of};

use super::cost::is_cheaper;
use rv_exorlink::Goal;
use rv_gate::{Circuit, Gate, PushFault};
use rv_mct::{Aux, Decomposed, MctFault, decompose};
use std::alloc::{AllocError, Global};

// Flips of fewer controls are cheaper whole.
const LEAST_CONTROLS: u32 = 5;

// The circuit on lines of these names that has this gate alone.
fn alone(circuit: &Circuit, gate: Gate) -> Result<Circuit, AllocError>
    requires fits { FitsIn gate (length circuit.now.names) }
    ensures names { IfOk result (λ c. c.names ≡ circuit.now.names) }
    ensures gates { IfOk result (λ c. c.gates ≡ gate ∷ []) }
{
    circuit.recall_invariant();
    let mut one = Circuit::new(circuit.names().copy()?)?;
    match one.push(gate) {
        Ok(()) => Ok(one),
        Err(_) => Err(AllocError),
    }
}

// A circuit on as many lines that acts as this gate: its parts, where they take no more lines and are cheaper.
fn parts_of(alloc: Global, circuit: &Circuit, gate: Gate, goal: Goal) -> Result<Circuit, AllocError>
    requires fits { FitsIn gate (length circuit.now.names) }
    ensures lines { IfOk result (λ c. length c.names ≡ length circuit.now.names) }
    ensures same { IfOk result (λ c. ActSame (length circuit.now.names) (gate ∷ []) c.gates) }
{
    let whole = alone(circuit, gate)?;
    let Decomposed {
        circuit: parts,
        added,
    } = match decompose(alloc, &whole, Aux::Borrowed) {
        Ok(parts) => parts,
        Err(MctFault::Mem) => return Err(AllocError),
        Err(_) => return Ok(whole),
    };
    if added == 0 && is_cheaper(&parts, &whole, goal) {
        Ok(parts)
    } else {
        Ok(whole)
    }
}

fn push_all(circuit: &mut Circuit, gates: &[Gate]) -> Result<(), PushFault>
    requires { All (λ gate. FitsIn gate (length circuit.old.names)) gates.now }
    ensures { OnOk result (circuit.new ≡ record circuit.old { gates = circuit.old.gates ++ gates.now }) }
{
    for gate in gates {
        circuit.push(*gate)?;
    }
    Ok(())
}

// Adds a gate, in parts where that is cheaper.
fn push_parts(alloc: Global, circuit: &mut Circuit, gate: Gate, goal: Goal) -> Result<(), PushFault>
    requires { FitsIn gate (length circuit.old.names) }
    ensures { OnOk result (AppendsSame (gate ∷ []) circuit.old circuit.new) }
{
    if gate.controls().count_ones() < LEAST_CONTROLS {
        return circuit.push(gate);
    }
    let Ok(parts) = parts_of(alloc, circuit, gate, goal) else {
        return Err(PushFault::Mem);
    };
    parts.recall_invariant();
    push_all(circuit, parts.gates())
}

// Adds gates, each in parts where that is cheaper.
fn push_each(
    alloc: Global,
    circuit: &mut Circuit,
    gates: &[Gate],
    goal: Goal,
) -> Result<(), PushFault>
    requires { All (λ gate. FitsIn gate (length circuit.old.names)) gates.now }
    ensures { OnOk result (AppendsSame gates.now circuit.old circuit.new) }
{
    for gate in gates {
        push_parts(alloc, circuit, *gate, goal)?;
    }
    Ok(())
}

// The circuit with its flips in parts where that is cheaper.
fn in_parts(alloc: Global, circuit: &Circuit, goal: Goal) -> Result<Circuit, PushFault>
    ensures { IfOk result (Rewrites circuit.now) }
{
    let Ok(mut made) = circuit.copy() else {
        return Err(PushFault::Mem);
    };
    made.set_gates(Vec::new(alloc));
    circuit.recall_invariant();
    push_each(alloc, &mut made, circuit.gates(), goal)?;
    Ok(made)
}

/// The circuit with its flips in parts where that is cheaper by the goal. The parts of a flip are flips over lines that
/// it doesn't touch, and these end as they began, whatever they hold. It is the circuit itself where there would be
/// more than `MOST_GATES` gates.
pub fn with_parts(alloc: Global, circuit: Circuit, goal: Goal) -> Result<Circuit, AllocError>
    requires { All IsFlip circuit.gates }
    ensures same { IfOk result (Rewrites circuit) }
    ensures flips { IfOk result (λ c. All IsFlip c.gates) }
    ensures no_dearer { IfOk result (λ c. cost_of goal c.gates ≤ cost_of goal circuit.gates) }
{
    if !matches!(goal, Goal::Quantum) {
        return Ok(circuit);
    }
    match in_parts(alloc, &circuit, goal) {
        Ok(parts) => {
            if is_cheaper(&parts, &circuit, goal) {
                Ok(parts)
            } else {
                Ok(circuit)
            }
        }
        Err(PushFault::TooManyGates) => Ok(circuit),
        Err(PushFault::Mem) => Err(AllocError),
    }
}
