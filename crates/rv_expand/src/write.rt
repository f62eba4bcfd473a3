// The network of gates, one operation after another.
ghost use Rattle.std.specs.Prelude.{◌≤◌, ◌∷◌, [], All, flat_map};
ghost use Rattle.rv_gate.specs.declared.word.TheConstants.{MOST_LINES};
ghost use Rattle.rv_io.specs.Writer.{Adds};
ghost use Rattle.rv_mct.specs.Blocks.{controls_of};
ghost use Rattle.rv_net.specs.Network.{flip_ops, gate_ops, network_of, on_zero};
ghost use Rattle.rv_net.specs.Op.{OpFitsIn};
ghost use Rattle.rv_qasm.specs.ReadyTexts.{AreOpTexts};
ghost use Rattle.rv_qasm.specs.Text.{statement};

use rv_gate::{Gate, LineSet, Shape};
use rv_io::{Sink, Writer};
use rv_mct::{Control, first_control};
use rv_net::{Op, toffoli_ops};
use rv_qasm::{OpTexts, put_ops, put_statement};

/// Sends a statement for each operation of the network of gates.
pub(crate) fn put_gates<O: Sink>(
    writer: &mut Writer,
    sink: &mut O,
    texts: &OpTexts,
    lines: u8,
    gates: &[Gate],
)
    requires few { lines ≤ MOST_LINES }
    requires fit { All (λ op. OpFitsIn op lines) (network_of gates.now) }
    requires texts { AreOpTexts lines texts.now }
    ensures { Adds writer.old (O.view sink.old) (flat_map statement (network_of gates.now))
        writer.new (O.view sink.new) }
{
    for gate in gates {
        put_gate(writer, sink, texts, lines, *gate);
    }
}

fn put_gate<O: Sink>(writer: &mut Writer, sink: &mut O, texts: &OpTexts, lines: u8, gate: Gate)
    requires few { lines ≤ MOST_LINES }
    requires fit { All (λ op. OpFitsIn op lines) (gate_ops gate) }
    requires texts { AreOpTexts lines texts.now }
    ensures { Adds writer.old (O.view sink.old) (flat_map statement (gate_ops gate)) writer.new (O.view sink.new) }
{
    if let Shape::Flip { care, want, target } = gate.shape() {
        put_flip(writer, sink, texts, lines, care, want, target);
    }
}

fn put_flip<O: Sink>(
    writer: &mut Writer,
    sink: &mut O,
    texts: &OpTexts,
    lines: u8,
    care: LineSet,
    want: LineSet,
    target: u8,
)
    requires few { lines ≤ MOST_LINES }
    requires fit { All (λ op. OpFitsIn op lines) (flip_ops (controls_of care want) target) }
    requires texts { AreOpTexts lines texts.now }
    ensures { Adds writer.old (O.view sink.old) (flat_map statement (flip_ops (controls_of care want) target))
        writer.new (O.view sink.new) }
{
    let Some((a, others)) = first_control(care, want) else {
        put_statement(writer, sink, texts, lines, Op::X(target));
        return;
    };
    let Some((b, more)) = first_control(others, want) else {
        put_cnot(writer, sink, texts, lines, a, target);
        return;
    };
    match first_control(more, want) {
        None => put_two_controls(writer, sink, texts, lines, a, b, target),
        Some(_) => {}
    }
}

// X if the control wants 0.
pub(crate) fn put_on_zero<O: Sink>(
    writer: &mut Writer,
    sink: &mut O,
    texts: &OpTexts,
    lines: u8,
    control: Control,
)
    requires few { lines ≤ MOST_LINES }
    requires fit { All (λ op. OpFitsIn op lines) (on_zero control) }
    requires texts { AreOpTexts lines texts.now }
    ensures { Adds writer.old (O.view sink.old) (flat_map statement (on_zero control)) writer.new (O.view sink.new) }
{
    if !control.wanted {
        put_statement(writer, sink, texts, lines, Op::X(control.line));
    }
}

// A flip under one control.
pub(crate) fn put_cnot<O: Sink>(
    writer: &mut Writer,
    sink: &mut O,
    texts: &OpTexts,
    lines: u8,
    a: Control,
    target: u8,
)
    requires few { lines ≤ MOST_LINES }
    requires fit { All (λ op. OpFitsIn op lines) (flip_ops (a ∷ []) target) }
    requires texts { AreOpTexts lines texts.now }
    ensures { Adds writer.old (O.view sink.old) (flat_map statement (flip_ops (a ∷ []) target))
        writer.new (O.view sink.new) }
{
    put_on_zero(writer, sink, texts, lines, a);
    put_statement(writer, sink, texts, lines, Op::Cx(a.line, target));
    put_on_zero(writer, sink, texts, lines, a);
}

// A flip under two controls.
fn put_two_controls<O: Sink>(
    writer: &mut Writer,
    sink: &mut O,
    texts: &OpTexts,
    lines: u8,
    a: Control,
    b: Control,
    target: u8,
)
    requires few { lines ≤ MOST_LINES }
    requires fit { All (λ op. OpFitsIn op lines) (flip_ops (a ∷ b ∷ []) target) }
    requires texts { AreOpTexts lines texts.now }
    ensures { Adds writer.old (O.view sink.old) (flat_map statement (flip_ops (a ∷ b ∷ []) target))
        writer.new (O.view sink.new) }
{
    put_on_zero(writer, sink, texts, lines, a);
    put_on_zero(writer, sink, texts, lines, b);
    let block = toffoli_ops(a.line, b.line, target);
    put_ops(writer, sink, texts, lines, &block);
    put_on_zero(writer, sink, texts, lines, a);
    put_on_zero(writer, sink, texts, lines, b);
}
