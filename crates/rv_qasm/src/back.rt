ghost use Rattle.std.specs.Prelude.{◌≡◌, ◌↔◌, ◌≤◌, ◌<◌, ◌^◌, ◌++◌, ℕ, [], Err, IfOk, OnOk, All, Some, length};
ghost use Rattle.std.specs.Prelude.{option_to_list};
ghost use Rattle.rv_gate.specs.Circuit.{fresh};
ghost use Rattle.rv_gate.specs.Gate.{FitsIn, run};
ghost use Rattle.rv_gate.specs.Names.{numbered};
ghost use Rattle.rv_gate.specs.declared.word.TheConstants.{MOST_LINES};
ghost use Rattle.rv_net.specs.Denotes.{Denotes};
ghost use Rattle.rv_net.specs.Op.{OpFitsIn};
ghost use Rattle.rv_qasm.specs.Back.{back_fault, classical_length, classical_gate, classical_gates, is_classical};
ghost use Rattle.rv_qasm.specs.declared.back.BackFault.TheVariants.{Mem};

use rv_gate::{Circuit, Gate, LineSet, MOST_GATES, Names};
use rv_net::{Net, Op};
use std::alloc::{AllocError, Global};

/// Why a network is no circuit.
#[derive(Clone, Copy)]
pub enum BackFault {
    /// The operation of this number, counted from 1, does not only move words. It is the first one.
    NotClassical(u32),
    /// There would be so many gates, more than [`MOST_GATES`](rv_gate::MOST_GATES).
    TooManyGates(u32),
    /// No memory was left.
    Mem,
}

impl From<AllocError> for BackFault {
    ghost from_gives = { λ _ fault. fault ≡ Mem };

    fn from(_: AllocError) -> Self {
        BackFault::Mem
    }
}

fn set_of(line: u8) -> LineSet
    requires { line < MOST_LINES }
    ensures { result ≡ 2 ^ line }
{
    1 << line
}

// The gate that moves words as an operation does.
fn classical_gate(op: Op, lines: u8) -> Option<Gate>
    requires fits { OpFitsIn op lines }
    requires few { lines ≤ MOST_LINES }
    ensures { result ≡ classical_gate op }
{
    match op {
        Op::X(a) => Gate::flip(0, 0, a),
        Op::Cx(a, b) => Gate::flip(set_of(a), set_of(a), b),
        Op::Ccx(a, b, c) => Gate::flip(set_of(a) | set_of(b), set_of(a) | set_of(b), c),
        Op::Swap(a, b) => Gate::swap(0, 0, a, b),
        Op::Cswap(c, a, b) => Gate::swap(set_of(c), set_of(c), a, b),
        _ => None,
    }
}

fn is_classical(op: Op) -> bool
    ensures { result ≡ is_classical op }
{
    match op {
        Op::X(_) => true,
        Op::Cx(_, _) => true,
        Op::Ccx(_, _, _) => true,
        Op::Swap(_, _) => true,
        Op::Cswap(_, _, _) => true,
        _ => false,
    }
}

// How many operations stand before the first that is not classical.
fn classical_length(ops: &[Op]) -> usize
    ensures { result ≡ classical_length ops.now }
{
    let mut place = 0;
    while place < ops.len() && is_classical(ops[place]) {
        place += 1;
    }
    place
}

fn add_gate(circuit: &mut Circuit, op: Op) -> Result<(), AllocError>
    requires fits { OpFitsIn op (length circuit.old.names) }
    requires room { length circuit.old.gates < MOST_GATES }
    ensures { OnOk result
        (circuit.new ≡ record circuit.old { gates = circuit.old.gates ++ option_to_list (classical_gate op) }) }
{
    if let Some(gate) = classical_gate(op, circuit.line_count()) {
        if circuit.push(gate).is_err() {
            return Err(AllocError);
        }
    }
    Ok(())
}

// The circuit of operations, one gate each.
fn circuit_of(alloc: Global, lines: u8, ops: &[Op]) -> Result<Circuit, AllocError>
    requires some { 1 ≤ lines }
    requires most { lines ≤ MOST_LINES }
    requires few { length ops.now ≤ MOST_GATES }
    requires fits { All (λ op. OpFitsIn op lines) ops.now }
    ensures { IfOk result (λ c. c ≡ record (fresh (numbered 120 lines)) { gates = classical_gates ops.now }) }
{
    let mut circuit = empty_circuit(alloc, lines)?;
    add_gates(&mut circuit, ops)?;
    Ok(circuit)
}

fn empty_circuit(alloc: Global, lines: u8) -> Result<Circuit, AllocError>
    requires some { 1 ≤ lines }
    requires most { lines ≤ MOST_LINES }
    ensures { IfOk result (λ c. c ≡ fresh (numbered 120 lines)) }
{
    let names = Names::numbered(alloc, b'x', lines)?;
    Circuit::new(names)
}

fn add_gates(circuit: &mut Circuit, ops: &[Op]) -> Result<(), AllocError>
    requires none { circuit.old.gates ≡ [] }
    requires few { length ops.now ≤ MOST_GATES }
    requires fits { All (λ op. OpFitsIn op (length circuit.old.names)) ops.now }
    ensures { OnOk result (circuit.new ≡ record circuit.old { gates = classical_gates ops.now }) }
{
    for op in ops {
        add_gate(circuit, *op)?;
    }
    Ok(())
}

/// The circuit of a network whose operations are X, CNOT, Toffoli, SWAP and Fredkin gates alone, one gate each, on
/// lines `x0`, `x1` and so on. The network denotes its run: the amplitudes are those of the circuit's permutation,
/// exactly.
pub fn to_circuit(alloc: Global, net: &Net) -> Result<Circuit, BackFault>
    ensures circuit { IfOk result (λ c.
        c ≡ record (fresh (numbered 120 net.now.lines)) { gates = classical_gates net.now.ops }) }
    ensures denotes { IfOk result (λ c. Denotes net.now.lines net.now.ops (run c.gates)) }
    ensures count { IfOk result (λ c. length c.gates ≡ length net.now.ops) }
    ensures not_classical { (place : ℕ)
        → (result ≡ Err (BackFault.NotClassical place)) ↔
        (back_fault net.now.ops ≡ Some (BackFault.NotClassical place)) }
    ensures too_many { (n : ℕ)
        → (result ≡ Err (BackFault.TooManyGates n)) ↔ (back_fault net.now.ops ≡ Some (BackFault.TooManyGates n)) }
{
    let ops = net.ops();
    let lines = net.lines();
    let place = classical_length(ops);
    if place < ops.len() {
        return Err(BackFault::NotClassical(place as u32 + 1));
    }
    if ops.len() > MOST_GATES {
        return Err(BackFault::TooManyGates(ops.len() as u32));
    }
    match circuit_of(alloc, lines, ops) {
        Ok(circuit) => Ok(circuit),
        Err(_) => Err(BackFault::Mem),
    }
}
