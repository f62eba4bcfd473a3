ghost use Rattle.std.specs.Prelude.{◌≡◌, ◌+◌, ◌^◌, ◌<◌, ◌≤◌, length};
ghost use Rattle.rv_gate.specs.declared.circuit.TheConstants.{MOST_GATES};
ghost use Rattle.rv_gate.specs.Greatest.{greatest};
ghost use Rattle.std.specs.List.{sum_by};
ghost use Rattle.rv_cost.specs.CircuitCost.{circuit_cost, counted_controls, gate_depth, quantum_cost};
ghost use Rattle.rv_cost.specs.CircuitCost.{quantum_flip_cost};

use crate::levels::Levels;
use rv_gate::{Circuit, Gate, MOST_GATES, Shape};
use rv_mct::count_lines;

/// What a circuit costs: counts, the quantum cost, and how many gates wait for one another.
#[derive(Clone, Copy, Debug, PartialEq, Eq)]
pub struct CircuitCost {
    /// How many lines there are, 1 to [`MOST_LINES`](rv_gate::MOST_LINES).
    pub lines: u8,
    /// How many gates there are, at most [`MOST_GATES`].
    pub gates: u32,
    /// The greatest number of controls of a gate, 0 without gates. A Peres gate counts two.
    pub controls: u8,
    /// The quantum cost, exact: how many elementary gates on one or two qubits are counted for the gates.
    ///
    /// A Toffoli gate with m controls costs 1 for m up to 1, else 2^(m+1) - 3: its number without a helper line
    /// (Barenco et al., Elementary gates for quantum computation, 1995). A Peres gate costs 4. The number for a Fredkin
    /// gate with m controls is this crate's own: 2 more than for a Toffoli gate with m + 1, for the CNOT gates at its
    /// ends.
    pub quantum: u128,
    /// The greatest level of a gate, 0 without gates. A gate's level is one more than the greatest level of an earlier
    /// one that shares a line with it.
    pub depth: u32,
}

// How many controls a gate counts.
fn counted_controls(gate: Gate) -> u8
    ensures { result ≡ counted_controls gate }
{
    match gate.shape() {
        Shape::Flip { care, .. } | Shape::Swap { care, .. } => count_lines(care),
        Shape::Peres { .. } => 2,
    }
}

fn quantum_flip_cost(controls: u8) -> u128
    requires { controls ≤ 65 }
    ensures value { result ≡ quantum_flip_cost controls }
    ensures few { result < 2 ^ 66 }
{
    if controls < 2 {
        return 1;
    }
    (1 << (controls + 1)) - 3
}

/// The quantum cost of a gate.
pub fn quantum_cost(gate: Gate) -> u128
    ensures value { result ≡ quantum_cost gate }
    ensures few { result < 2 ^ 67 }
{
    match gate.shape() {
        Shape::Flip { care, .. } => quantum_flip_cost(count_lines(care)),
        Shape::Swap { care, .. } => quantum_flip_cost(count_lines(care) + 1) + 2,
        Shape::Peres { .. } => 4,
    }
}

// The greatest number of controls, the quantum cost and the depth of gates, in one pass.
fn counted(gates: &[Gate]) -> (u8, u128, u32)
    requires { length gates.now ≤ MOST_GATES }
    ensures controls { result.0 ≡ greatest counted_controls gates.now }
    ensures quantum { result.1 ≡ sum_by quantum_cost gates.now }
    ensures depth { result.2 ≡ gate_depth gates.now }
{
    let mut most = 0u8;
    let mut quantum = 0;
    let mut levels = Levels::new();
    for gate in gates {
        most = most.max(counted_controls(*gate));
        quantum += quantum_cost(*gate);
        levels.add(gate.touched(), 1);
    }
    (most, quantum, levels.depth())
}

/// What a circuit costs. Takes no memory, and time linear in the gates.
pub fn circuit_cost(circuit: &Circuit) -> CircuitCost
    ensures { result ≡ circuit_cost circuit.now }
{
    let lines = circuit.line_count();
    let gates = circuit.gates();
    let (controls, quantum, depth) = counted(gates);
    CircuitCost {
        lines,
        gates: gates.len() as u32,
        controls,
        quantum,
        depth,
    }
}
