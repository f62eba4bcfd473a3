// The network of gates over {x, cx, ccx, swap, cswap}, one operation after another.
ghost use Rattle.std.specs.Prelude.{◌≡◌, ◌+◌, ◌<◌, ◌≤◌, ◌∷◌, ◌++◌, [], List, Some, All, drop, flat_map, length};
ghost use Rattle.rv_gate.specs.declared.circuit.TheConstants.{MOST_GATES};
ghost use Rattle.rv_gate.specs.declared.word.TheConstants.{MOST_LINES};
ghost use Rattle.rv_io.specs.Writer.{Adds};
ghost use Rattle.rv_mct.specs.Blocks.{controls_of};
ghost use Rattle.rv_net.specs.Network.{on_zero};
ghost use Rattle.rv_net.specs.Op.{OpFitsIn};
ghost use Rattle.rv_net.specs.declared.op.Op.{Op};
ghost use Rattle.rv_qasm.specs.ReadyTexts.{AreOpTexts};
ghost use Rattle.rv_qasm.specs.Text.{statement};
ghost use Rattle.rv_expand.specs.Toffoli.{flip_op, gate_op, swap_op, toffoli_ops};

use crate::swaps::{Exchange, swap_at};
use crate::write::{put_cnot, put_on_zero};
use rv_gate::{Gate, LineSet, MOST_GATES, Shape};
use rv_io::{Sink, Writer};
use rv_mct::{Control, first_control};
use rv_net::Op;
use rv_qasm::{OpTexts, put_statement};

// ---- how many operations

fn on_zero_count(control: Control) -> u32
    ensures value { result ≡ length (on_zero control) }
    ensures few { result ≤ 1 }
{
    if control.wanted { 0 } else { 1 }
}

#[tactic(auto, unfolding(crate::specs::Toffoli::flip_op))]
fn flip_count(care: LineSet, want: LineSet, target: u8) -> u32
    ensures value { result ≡ length (flip_op (controls_of care want) target) }
    ensures few { result ≤ 5 }
{
    let Some((a, others)) = first_control(care, want) else {
        return 1;
    };
    let Some((b, more)) = first_control(others, want) else {
        return 1 + 2 * on_zero_count(a);
    };
    match first_control(more, want) {
        None => 1 + 2 * (on_zero_count(a) + on_zero_count(b)),
        Some(_) => 0,
    }
}

fn gate_count(gate: Gate) -> u32
    ensures value { result ≡ length (gate_op gate) }
    ensures few { result ≤ 5 }
{
    match gate.shape() {
        Shape::Flip { care, want, target } => flip_count(care, want, target),
        Shape::Swap { .. } => 0,
        Shape::Peres { .. } => 0,
    }
}

fn swap_count(swap: Exchange) -> u32
    ensures value { result ≡ length (swap_op swap.control swap.a swap.b) }
    ensures few { result ≤ 3 }
{
    match swap.control {
        None => 1,
        Some(control) => 1 + 2 * on_zero_count(control),
    }
}

// How many operations the gates from a place on begin with, and how many gates these are.
fn count_at(gates: &[Gate], place: usize) -> (u32, usize)
    requires { place < length gates.now }
    ensures value { length (toffoli_ops (drop place gates.now))
        ≡ result.0 + length (toffoli_ops (drop (place + result.1) gates.now)) }
    ensures few { result.0 ≤ 5 }
    ensures some { 1 ≤ result.1 }
    ensures within { place + result.1 ≤ length gates.now }
{
    match swap_at(gates, place) {
        Some(swap) => (swap_count(swap), 3),
        None => (gate_count(gates[place]), 1),
    }
}

/// How many operations there are.
pub(crate) fn toffoli_count(gates: &[Gate]) -> u32
    requires { length gates.now ≤ MOST_GATES }
    ensures { result ≡ length (toffoli_ops gates.now) }
{
    let mut count = 0;
    let mut place = 0;
    while place < gates.len() {
        let (more, taken) = count_at(gates, place);
        count += more;
        place += taken;
    }
    count
}

// ---- their statements

/// Sends a statement for each operation of the network of gates.
pub(crate) fn put_toffolis<O: Sink>(
    writer: &mut Writer,
    sink: &mut O,
    texts: &OpTexts,
    lines: u8,
    gates: &[Gate],
)
    requires few { lines ≤ MOST_LINES }
    requires fit { All (λ op. OpFitsIn op lines) (toffoli_ops gates.now) }
    requires texts { AreOpTexts lines texts.now }
    ensures { Adds writer.old (O.view sink.old) (flat_map statement (toffoli_ops gates.now))
        writer.new (O.view sink.new) }
{
    let mut place = 0;
    while place < gates.len() {
        place += put_at(writer, sink, texts, lines, gates, place);
    }
}

// Sends the operations that the gates from a place on begin with, and answers how many gates these are.
fn put_at<O: Sink>(
    writer: &mut Writer,
    sink: &mut O,
    texts: &OpTexts,
    lines: u8,
    gates: &[Gate],
    place: usize,
) -> usize
    requires few { lines ≤ MOST_LINES }
    requires place { place < length gates.now }
    requires fit { All (λ op. OpFitsIn op lines) (toffoli_ops (drop place gates.now)) }
    requires texts { AreOpTexts lines texts.now }
    ensures some { 1 ≤ result }
    ensures within { place + result ≤ length gates.now }
    ensures sent { (ops : List Op)
        × (toffoli_ops (drop place gates.now) ≡ ops ++ toffoli_ops (drop (place + result) gates.now))
        × Adds writer.old (O.view sink.old) (flat_map statement ops) writer.new (O.view sink.new) }
{
    match swap_at(gates, place) {
        Some(swap) => {
            put_swap(writer, sink, texts, lines, swap);
            3
        }
        None => {
            put_gate(writer, sink, texts, lines, gates[place]);
            1
        }
    }
}

fn put_swap<O: Sink>(writer: &mut Writer, sink: &mut O, texts: &OpTexts, lines: u8, swap: Exchange)
    requires few { lines ≤ MOST_LINES }
    requires fit { All (λ op. OpFitsIn op lines) (swap_op swap.control swap.a swap.b) }
    requires texts { AreOpTexts lines texts.now }
    ensures { Adds writer.old (O.view sink.old) (flat_map statement (swap_op swap.control swap.a swap.b))
        writer.new (O.view sink.new) }
{
    match swap.control {
        None => put_statement(writer, sink, texts, lines, Op::Swap(swap.a, swap.b)),
        Some(control) => put_cswap(writer, sink, texts, lines, control, swap.a, swap.b),
    }
}

fn put_cswap<O: Sink>(
    writer: &mut Writer,
    sink: &mut O,
    texts: &OpTexts,
    lines: u8,
    control: Control,
    a: u8,
    b: u8,
)
    requires few { lines ≤ MOST_LINES }
    requires fit { All (λ op. OpFitsIn op lines) (swap_op (Some control) a b) }
    requires texts { AreOpTexts lines texts.now }
    ensures { Adds writer.old (O.view sink.old) (flat_map statement (swap_op (Some control) a b))
        writer.new (O.view sink.new) }
{
    put_on_zero(writer, sink, texts, lines, control);
    put_statement(writer, sink, texts, lines, Op::Cswap(control.line, a, b));
    put_on_zero(writer, sink, texts, lines, control);
}

fn put_gate<O: Sink>(writer: &mut Writer, sink: &mut O, texts: &OpTexts, lines: u8, gate: Gate)
    requires few { lines ≤ MOST_LINES }
    requires fit { All (λ op. OpFitsIn op lines) (gate_op gate) }
    requires texts { AreOpTexts lines texts.now }
    ensures { Adds writer.old (O.view sink.old) (flat_map statement (gate_op gate)) writer.new (O.view sink.new) }
{
    if let Shape::Flip { care, want, target } = gate.shape() {
        put_flip(writer, sink, texts, lines, care, want, target);
    }
}

fn put_flip<O: Sink>(
    writer: &mut Writer,
    sink: &mut O,
    texts: &OpTexts,
    lines: u8,
    care: LineSet,
    want: LineSet,
    target: u8,
)
    requires few { lines ≤ MOST_LINES }
    requires fit { All (λ op. OpFitsIn op lines) (flip_op (controls_of care want) target) }
    requires texts { AreOpTexts lines texts.now }
    ensures { Adds writer.old (O.view sink.old) (flat_map statement (flip_op (controls_of care want) target))
        writer.new (O.view sink.new) }
{
    let Some((a, others)) = first_control(care, want) else {
        put_statement(writer, sink, texts, lines, Op::X(target));
        return;
    };
    let Some((b, more)) = first_control(others, want) else {
        put_cnot(writer, sink, texts, lines, a, target);
        return;
    };
    match first_control(more, want) {
        None => put_ccx(writer, sink, texts, lines, a, b, target),
        Some(_) => {}
    }
}

fn put_ccx<O: Sink>(
    writer: &mut Writer,
    sink: &mut O,
    texts: &OpTexts,
    lines: u8,
    a: Control,
    b: Control,
    target: u8,
)
    requires few { lines ≤ MOST_LINES }
    requires fit { All (λ op. OpFitsIn op lines) (flip_op (a ∷ b ∷ []) target) }
    requires texts { AreOpTexts lines texts.now }
    ensures { Adds writer.old (O.view sink.old) (flat_map statement (flip_op (a ∷ b ∷ []) target))
        writer.new (O.view sink.new) }
{
    put_on_zero(writer, sink, texts, lines, a);
    put_on_zero(writer, sink, texts, lines, b);
    put_statement(writer, sink, texts, lines, Op::Ccx(a.line, b.line, target));
    put_on_zero(writer, sink, texts, lines, a);
    put_on_zero(writer, sink, texts, lines, b);
}
