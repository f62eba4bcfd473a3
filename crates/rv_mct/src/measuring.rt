ghost use Rattle.std.specs.Prelude.{◌≡◌, ◌+◌, ◌*◌, ◌<◌, ◌≤◌, ◌↔◌, ℕ, length, IfOk};
ghost use Rattle.rv_gate.specs.declared.circuit.TheConstants.{MOST_GATES};
ghost use Rattle.rv_mct.specs.Blocks.{added, cost_of};

use crate::gate::{gate_cost, wish};
use crate::{Aux, MctFault};
use rv_gate::{Circuit, Gate, MOST_GATES, MOST_LINES};

/// How many lines the gates of a circuit on so many lines want beside them: the most that one of their flips wants.
pub fn added(gates: &[Gate], aux: Aux, lines: u8) -> u8
    requires { lines ≤ MOST_LINES }
    ensures value { result ≡ added aux lines gates.now }
    ensures few { result ≤ MOST_LINES }
{
    let mut most = 0;
    for gate in gates {
        let wanted = wish(aux, lines, *gate);
        if most < wanted {
            most = wanted;
        }
    }
    most
}

fn cost_of(gates: &[Gate], aux: Aux, lines: u8) -> u32
    requires few_lines { lines ≤ MOST_LINES }
    requires few_gates { length gates.now ≤ MOST_GATES }
    ensures { result ≡ cost_of aux lines gates.now }
{
    let mut cost = 0;
    for gate in gates {
        cost += gate_cost(aux, lines, *gate);
    }
    cost
}

/// How many lines a decomposition adds.
///
/// First the lines are counted, then the gates.
pub(crate) fn measure(circuit: &Circuit, aux: Aux) -> Result<u8, MctFault>
    ensures ok { IfOk result (λ extra. (extra ≡ added aux (length circuit.now.names) circuit.now.gates)
        × (length circuit.now.names + extra ≤ MOST_LINES)
        × (cost_of aux (length circuit.now.names + extra) circuit.now.gates ≤ MOST_GATES)) }
    ensures too_many_lines { (n : ℕ) → (result ≡ Err (MctFault.TooManyLines n))
        ↔ ((length circuit.now.names + added aux (length circuit.now.names) circuit.now.gates ≡ n) × (MOST_LINES < n)) }
    ensures too_many_gates { (n : ℕ) → (result ≡ Err (MctFault.TooManyGates n))
        ↔ ((length circuit.now.names + added aux (length circuit.now.names) circuit.now.gates ≤ MOST_LINES)
        × (cost_of aux (length circuit.now.names + added aux (length circuit.now.names) circuit.now.gates) circuit.now.gates ≡ n)
        × (MOST_GATES < n)) }
{
    let lines = circuit.line_count();
    let extra = added(circuit.gates(), aux, lines);
    if lines + extra > MOST_LINES {
        return Err(MctFault::TooManyLines(lines + extra));
    }
    let cost = cost_of(circuit.gates(), aux, lines + extra);
    if cost as usize > MOST_GATES {
        return Err(MctFault::TooManyGates(cost));
    }
    Ok(extra)
}
