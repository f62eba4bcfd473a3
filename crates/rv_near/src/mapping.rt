ghost use Rattle.std.specs.Prelude.{◌≡◌, ◌<◌, ◌≤◌, ◌↔◌, ◌++◌, ℕ, length, All, Err, IfOk};
ghost use Rattle.rv_gate.specs.Gate.{run};
ghost use Rattle.rv_mct.specs.Extends.{IsPlain};
ghost use Rattle.rv_route.specs.Placement.{IsNear};
ghost use Rattle.rv_net.specs.Denotes.{CarriesExtended, Denotes};
ghost use Rattle.rv_near.specs.Near.{IsOnNeighbours, near_gate, near_net, near_ops};

use crate::block::{add_near_flip, flip_count};
use rv_gate::{Circuit, Gate, MOST_GATES, Shape};
use rv_net::{ExpandFault, MOST_OPS, Net, Op};
use std::alloc::{AllocError, Global};

fn gate_count(gate: Gate) -> u32
    ensures value { result ≡ length (near_gate gate) }
    ensures few { result ≤ 21 }
{
    match gate.shape() {
        Shape::Flip { care, want, target } => flip_count(care, want, target),
        Shape::Swap { .. } => 0,
        Shape::Peres { .. } => 0,
    }
}

fn count_operations(gates: &[Gate]) -> u32
    requires { length gates.now ≤ MOST_GATES }
    ensures { result ≡ length (near_ops gates.now) }
{
    let mut count = 0;
    for gate in gates {
        count += gate_count(*gate);
    }
    count
}

fn add_gate(ops: &mut Vec<Op>, gate: Gate) -> Result<(), AllocError>
    ensures { IfOk result (λ _. ops.new.items ≡ ops.old.items ++ near_gate gate) }
{
    if let Shape::Flip { care, want, target } = gate.shape() {
        add_near_flip(ops, care, want, target)?;
    }
    Ok(())
}

// The network of gates with so many operations.
fn ops_of(alloc: Global, gates: &[Gate], count: usize) -> Result<Vec<Op>, AllocError>
    ensures { IfOk result (λ ops. ops.items ≡ near_ops gates.now) }
{
    let mut ops = Vec::with_capacity(alloc, count)?;
    for gate in gates {
        add_gate(&mut ops, *gate)?;
    }
    Ok(ops)
}

// The network, or why there is none.
fn net_of(alloc: Global, circuit: &Circuit) -> Result<Net, ExpandFault>
    requires { All IsPlain circuit.now.gates }
    ensures net { IfOk result (λ net. net ≡ near_net circuit.now) }
    ensures too_many { (n : ℕ) → (result ≡ Err (ExpandFault.TooManyOps n))
        ↔ ((length (near_ops circuit.now.gates) ≡ n) × (MOST_OPS < n)) }
{
    circuit.recall_invariant();
    let lines = circuit.line_count();
    let count = count_operations(circuit.gates());
    if count as usize > MOST_OPS {
        return Err(ExpandFault::TooManyOps(count));
    }
    match ops_of(alloc, circuit.gates(), count as usize) {
        Ok(ops) => Ok(Net::of_ops(lines, ops)),
        Err(_) => Err(ExpandFault::Mem),
    }
}

/// The network of a circuit of flips with at most two controls, over {x, h, t, tdg, cx}: its amplitudes are those of
/// the circuit's permutation times the root of two for each `H`, exactly. If each gate touches consecutive lines, each
/// operation is on one line or on two neighbours.
///
/// The operations are counted before memory is taken for them. What is said of the network holds also where it has too
/// many operations to be made.
pub fn near(alloc: Global, circuit: &Circuit) -> Result<Net, ExpandFault>
    requires { All IsPlain circuit.now.gates }
    ensures net { IfOk result (λ net. net ≡ near_net circuit.now) }
    ensures too_many { (n : ℕ) → (result ≡ Err (ExpandFault.TooManyOps n))
        ↔ ((length (near_ops circuit.now.gates) ≡ n) × (MOST_OPS < n)) }
    ensures near { All IsNear circuit.now.gates → All IsOnNeighbours (near_ops circuit.now.gates) }
    ensures denotes { Denotes (length circuit.now.names) (near_ops circuit.now.gates) (run circuit.now.gates) }

    // The network of a decomposition carries the circuit that was decomposed, with whatever its helper lines may hold.
    ensures carries { CarriesExtended (length circuit.now.names) (near_ops circuit.now.gates) circuit.now.gates }
{
    circuit.recall_invariant();
    net_of(alloc, circuit)
}
