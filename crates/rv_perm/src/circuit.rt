// Circuits on the lines of a permutation.
ghost use Rattle.std.specs.Prelude.{◌≡◌, ◌≤◌, length, IfOk, All};
ghost use Rattle.rv_gate.specs.Gate.{FitsIn, IsGate};
ghost use Rattle.rv_gate.specs.declared.circuit.TheConstants.{MOST_GATES};
ghost use Rattle.rv_perm.specs.Lines.{circuit_on};

use super::spec::PermSpec;
use rv_gate::{Circuit, Gate, MOST_GATES, Names};
use std::alloc::{AllocError, Global};

// Gives the lines of the circuit the marks of the permutation.
fn mark_lines(circuit: &mut Circuit, spec: &PermSpec)
    requires { length circuit.old.names ≡ spec.now.table.lines }
    ensures { circuit.new ≡ record circuit.old { constants = spec.now.constants; garbage = spec.now.garbage } }
{
    // There are as many marks as lines.
    spec.recall_invariant();
    for line in 0..circuit.line_count() {
        circuit.set_constant(line, spec.constant(line));
        circuit.set_garbage(line, spec.garbage(line));
    }
}

/// The circuit of these gates on the lines of the permutation, named `x0`, `x1`, and so on, with its marks.
///
/// Fails only for want of memory.
pub fn circuit_on(alloc: Global, spec: &PermSpec, gates: Vec<Gate>) -> Result<Circuit, AllocError>
    requires valid { All IsGate gates.items }
    requires fits { All (λ g. FitsIn g spec.now.table.lines) gates.items }
    requires room { length gates.items ≤ MOST_GATES }
    ensures { IfOk result (λ c. c ≡ circuit_on spec.now gates.items) }
{
    let names = Names::numbered(alloc, b'x', spec.perm().lines())?;
    let mut circuit = Circuit::new(names)?;
    circuit.set_gates(gates);
    mark_lines(&mut circuit, spec);
    Ok(circuit)
}
