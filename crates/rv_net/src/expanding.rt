ghost use Rattle.std.specs.Prelude.{◌≡◌, ◌+◌, ◌*◌, ◌<◌, ◌≤◌, ◌↔◌, [], ◌∷◌, ◌++◌, ◌==◌, ◌&&◌, if◌then◌else◌, not, ℕ};
ghost use Rattle.std.specs.Prelude.{length, All, IfOk, Err};
ghost use Rattle.rv_gate.specs.Gate.{run};
ghost use Rattle.rv_gate.specs.Word.{has};
ghost use Rattle.rv_mct.specs.Blocks.{controls_of, count, count_lines};
ghost use Rattle.rv_mct.specs.Extends.{IsPlain};
ghost use Rattle.rv_net.specs.Denotes.{CarriesExtended, Denotes, IsProduct};
ghost use Rattle.rv_net.specs.Network.{expanded, flip_ops, gate_op_count, gate_ops, network_of, on_zero};
ghost use Rattle.rv_net.specs.Network.{operation_count, toffoli};
ghost use Rattle.rv_net.specs.declared.expanding.ExpandFault.TheVariants.{Mem};

use crate::{MOST_OPS, Net, Op};
use rv_gate::{Circuit, Gate, LineSet, MOST_GATES, MOST_LINES, Shape};
use rv_mct::{Control, count_lines, first_control};
use std::alloc::{AllocError, Global};

/// Why there is no network.
#[derive(Clone, Copy)]
pub enum ExpandFault {
    /// There would be so many operations, more than [`MOST_OPS`].
    TooManyOps(u32),
    /// Memory was wanting.
    Mem,
}

impl From<AllocError> for ExpandFault {
    ghost from_gives = { λ _ fault. fault ≡ Mem };

    fn from(_: AllocError) -> Self {
        ExpandFault::Mem
    }
}

/// X if the control wants 0.
pub fn add_on_zero(ops: &mut Vec<Op>, control: Control) -> Result<(), AllocError>
    ensures { IfOk result (λ _. ops.new.items ≡ ops.old.items ++ on_zero control) }
{
    if !control.wanted {
        ops.push(Op::X(control.line))?;
    }
    Ok(())
}

/// The operations of a flip of `c` under `a` and `b`.
#[tactic(auto, unfolding(crate::specs::Network::toffoli))]
pub fn toffoli_ops(a: u8, b: u8, c: u8) -> [Op; 15]
    ensures { result ≡ toffoli a b c }
{
    [
        Op::H(c),
        Op::Cx(b, c),
        Op::Tdg(c),
        Op::Cx(a, c),
        Op::T(c),
        Op::Cx(b, c),
        Op::Tdg(c),
        Op::Cx(a, c),
        Op::T(b),
        Op::T(c),
        Op::H(c),
        Op::Cx(a, b),
        Op::T(a),
        Op::Tdg(b),
        Op::Cx(a, b),
    ]
}

/// A flip of `c` under `a` and `b`.
pub fn add_toffoli(ops: &mut Vec<Op>, a: u8, b: u8, c: u8) -> Result<(), AllocError>
    ensures { IfOk result (λ _. ops.new.items ≡ ops.old.items ++ toffoli a b c) }
{
    ops.extend_from_slice(&toffoli_ops(a, b, c))?;
    Ok(())
}

// A flip under one control.
#[tactic(auto, unfolding(crate::specs::Network::flip_ops))]
fn add_cnot(ops: &mut Vec<Op>, a: Control, target: u8) -> Result<(), AllocError>
    ensures { IfOk result (λ _. ops.new.items ≡ ops.old.items ++ flip_ops (a ∷ []) target) }
{
    add_on_zero(ops, a)?;
    ops.push(Op::Cx(a.line, target))?;
    add_on_zero(ops, a)?;
    Ok(())
}

// A flip under two controls.
#[tactic(auto, unfolding(crate::specs::Network::flip_ops))]
fn add_two_controls(ops: &mut Vec<Op>, a: Control, b: Control, target: u8) -> Result<(), AllocError>
    ensures { IfOk result (λ _. ops.new.items ≡ ops.old.items ++ flip_ops (a ∷ b ∷ []) target) }
{
    add_on_zero(ops, a)?;
    add_on_zero(ops, b)?;
    add_toffoli(ops, a.line, b.line, target)?;
    add_on_zero(ops, a)?;
    add_on_zero(ops, b)?;
    Ok(())
}

/// A flip under none, one or two controls.
#[tactic(auto, unfolding(crate::specs::Network::flip_ops))]
pub fn add_flip(
    ops: &mut Vec<Op>,
    care: LineSet,
    want: LineSet,
    target: u8,
) -> Result<(), AllocError>
    ensures { IfOk result (λ _. ops.new.items ≡ ops.old.items ++ flip_ops (controls_of care want) target) }
{
    let Some((a, others)) = first_control(care, want) else {
        ops.push(Op::X(target))?;
        return Ok(());
    };
    let Some((b, more)) = first_control(others, want) else {
        add_cnot(ops, a, target)?;
        return Ok(());
    };
    match first_control(more, want) {
        None => add_two_controls(ops, a, b, target)?,
        Some(_) => {}
    }
    Ok(())
}

fn add_gate(ops: &mut Vec<Op>, gate: Gate) -> Result<(), AllocError>
    ensures { IfOk result (λ _. ops.new.items ≡ ops.old.items ++ gate_ops gate) }
{
    if let Shape::Flip { care, want, target } = gate.shape() {
        add_flip(ops, care, want, target)?;
    }
    Ok(())
}

// The network of gates with so many operations.
fn ops_of(alloc: Global, gates: &[Gate], count: usize) -> Result<Vec<Op>, AllocError>
    ensures { IfOk result (λ ops. ops.items ≡ network_of gates.now) }
{
    let mut ops = Vec::with_capacity(alloc, count)?;
    for gate in gates {
        add_gate(&mut ops, *gate)?;
    }
    Ok(ops)
}

// How many controls want 0.
fn zero_count(care: LineSet, want: LineSet) -> u8
    ensures value { result ≡ count (λ line. has care line && not (has want line)) MOST_LINES }
    ensures few { result ≤ MOST_LINES }
{
    count_lines(care ^ (care & want))
}

// How many operations stand between the `X` of the controls.
fn inner_count(controls: u8) -> u32
    ensures value { result ≡ (if controls == 2 then 15 else 1) }
    ensures few { result ≤ 15 }
{
    if controls == 2 { 15 } else { 1 }
}

fn gate_op_count(gate: Gate) -> u32
    ensures value { result ≡ gate_op_count gate }
    ensures few { result ≤ 143 }
{
    match gate.shape() {
        Shape::Flip { care, want, .. } => inner_count(count_lines(care))
            + 2 * u32::from(zero_count(care, want)),
        Shape::Swap { .. } => 0,
        Shape::Peres { .. } => 0,
    }
}

fn operation_count(gates: &[Gate]) -> u32
    requires { length gates.now ≤ MOST_GATES }
    ensures { result ≡ operation_count gates.now }
{
    let mut count = 0;
    for gate in gates {
        count += gate_op_count(*gate);
    }
    count
}

/// How many operations the network of a circuit of flips with at most two controls has.
pub fn count_operations(circuit: &Circuit) -> u32
    requires { All IsPlain circuit.now.gates }
    ensures value { result ≡ operation_count circuit.now.gates }
    ensures count { length (network_of circuit.now.gates) ≡ operation_count circuit.now.gates }
{
    circuit.recall_invariant();
    operation_count(circuit.gates())
}

/// The network of a circuit of flips with at most two controls, over {x, h, t, tdg, cx}: its amplitudes are those of
/// the circuit's permutation times the root of two for each `H`, exactly.
///
/// The operations are counted before memory is taken for them. What is said of the network holds also where it has too
/// many operations to be made.
pub fn expand(alloc: Global, circuit: &Circuit) -> Result<Net, ExpandFault>
    requires { All IsPlain circuit.now.gates }
    ensures net { IfOk result (λ net. net ≡ expanded circuit.now) }
    ensures too_many { (n : ℕ)
        → (result ≡ Err (ExpandFault.TooManyOps n)) ↔ ((operation_count circuit.now.gates ≡ n) × (MOST_OPS < n)) }
    ensures denotes { Denotes (length circuit.now.names) (network_of circuit.now.gates) (run circuit.now.gates) }

    // The network of a decomposition carries the circuit that was decomposed, with whatever its helper lines may hold.
    ensures carries { CarriesExtended (length circuit.now.names) (network_of circuit.now.gates) circuit.now.gates }
    ensures product { IsProduct (network_of circuit.now.gates) }
    ensures count { length (network_of circuit.now.gates) ≡ operation_count circuit.now.gates }
{
    circuit.recall_invariant();
    expanded(alloc, circuit)
}

fn expanded(alloc: Global, circuit: &Circuit) -> Result<Net, ExpandFault>
    requires { All IsPlain circuit.now.gates }
    ensures net { IfOk result (λ net. net ≡ expanded circuit.now) }
    ensures too_many { (n : ℕ)
        → (result ≡ Err (ExpandFault.TooManyOps n)) ↔ ((operation_count circuit.now.gates ≡ n) × (MOST_OPS < n)) }
{
    let lines = circuit.line_count();
    let count = count_operations(circuit);
    if count as usize > MOST_OPS {
        return Err(ExpandFault::TooManyOps(count));
    }
    match ops_of(alloc, circuit.gates(), count as usize) {
        Ok(ops) => Ok(Net::of_ops(lines, ops)),
        Err(_) => Err(ExpandFault::Mem),
    }
}
