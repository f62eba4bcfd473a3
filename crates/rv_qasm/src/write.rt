ghost use Rattle.std.specs.Prelude.{◌≡◌, ℕ, ◌<◌, ◌≤◌, ◌∷◌, ◌++◌, [], List, All, codes, flat_map, Ok};
ghost use Rattle.rv_gate.specs.declared.word.TheConstants.{MOST_LINES};
ghost use Rattle.rv_io.specs.Sink.{Sends};
ghost use Rattle.rv_io.specs.Writer.{Adds};
ghost use Rattle.rv_net.specs.Op.{OpFitsIn};
ghost use Rattle.rv_qasm.specs.Reading.{in_register_q, qasm_of};
ghost use Rattle.rv_qasm.specs.Text.{gate_on, header, statement, text_of};
ghost use Rattle.rv_qasm.specs.ReadyTexts.{AreBegun, AreBetween, AreOpTexts, AreStatements};

use crate::texts::{OpTexts, Texts};
use rv_io::{Sink, WriteFault, Writer};
use rv_net::{Net, Op};

/// Sends the text of a network: `OPENQASM 2.0;`, `include "qelib1.inc";`, `qreg q[N];` with the number of lines, and
/// one operation on each line, as `cx q[0],q[1];`.
///
/// The gates of `qelib1.inc` agree with the operations up to a phase of each gate. Takes no memory.
pub fn write_qasm<O: Sink>(net: &Net, sink: &mut O) -> Result<(), WriteFault>
    ensures sent { Sends (O.view sink.old) (text_of net.now) result (O.view sink.new) }

    // The text denotes the network.
    ensures read_back { qasm_of (text_of net.now) ≡ Ok (in_register_q net.now) }
{
    let mut writer = Writer::new();
    put_header(&mut writer, sink, net.lines());
    let texts = OpTexts::new(net.lines());
    put_ops(&mut writer, sink, &texts, net.lines(), net.ops());
    writer.finish(sink)
}

/// Sends the head of the text of a network on so many lines.
pub fn put_header<O: Sink>(writer: &mut Writer, sink: &mut O, lines: u8)
    ensures { Adds writer.old (O.view sink.old) (header lines) writer.new (O.view sink.new) }
{
    writer.put(sink, b"OPENQASM 2.0;\ninclude \"qelib1.inc\";\nqreg q[");
    writer.put_number(sink, u128::from(lines));
    writer.put(sink, b"];\n");
}

/// Sends a statement for each operation, by the ready texts.
pub fn put_ops<O: Sink>(writer: &mut Writer, sink: &mut O, texts: &OpTexts, lines: u8, ops: &[Op])
    requires few { lines ≤ MOST_LINES }
    requires fit { All (λ op. OpFitsIn op lines) ops.now }
    requires texts { AreOpTexts lines texts.now }
    ensures { Adds writer.old (O.view sink.old) (flat_map statement ops.now) writer.new (O.view sink.new) }
{
    for op in ops {
        put_statement(writer, sink, texts, lines, *op);
    }
}

/// Sends the statement of an operation.
pub fn put_statement<O: Sink>(writer: &mut Writer, sink: &mut O, texts: &OpTexts, lines: u8, op: Op)
    requires few { lines ≤ MOST_LINES }
    requires fits { OpFitsIn op lines }
    requires texts { AreOpTexts lines texts.now }
    ensures { Adds writer.old (O.view sink.old) (statement op) writer.new (O.view sink.new) }
{
    match op {
        Op::X(q) => put_one(writer, sink, &texts.x, lines, q),
        Op::Y(q) => put_named_one(writer, sink, b"y ", texts, lines, q),
        Op::Z(q) => put_named_one(writer, sink, b"z ", texts, lines, q),
        Op::H(q) => put_one(writer, sink, &texts.h, lines, q),
        Op::S(q) => put_named_one(writer, sink, b"s ", texts, lines, q),
        Op::Sdg(q) => put_named_one(writer, sink, b"sdg ", texts, lines, q),
        Op::T(q) => put_one(writer, sink, &texts.t, lines, q),
        Op::Tdg(q) => put_one(writer, sink, &texts.tdg, lines, q),
        Op::Cx(a, b) => put_two(writer, sink, &texts.cx, &texts.last, lines, a, b),
        Op::Cz(a, b) => put_named_two(writer, sink, b"cz ", texts, lines, a, b),
        Op::Ccx(a, b, c) => put_named_three(writer, sink, b"ccx ", texts, lines, a, b, c),
        Op::Swap(a, b) => put_named_two(writer, sink, b"swap ", texts, lines, a, b),
        Op::Cswap(c, a, b) => put_named_three(writer, sink, b"cswap ", texts, lines, c, a, b),
    }
}

// A gate on one line.
#[inline(always)]
fn put_one<O: Sink>(writer: &mut Writer, sink: &mut O, texts: &Texts, lines: u8, line: u8)
    requires few { lines ≤ MOST_LINES }
    requires line { line < lines }
    ensures { (gate : List ℕ) → AreStatements lines gate texts.now
        → Adds writer.old (O.view sink.old) (gate_on gate (line ∷ []) ++ codes ";\n") writer.new (O.view sink.new) }
{
    writer.put_short(sink, texts.text(line));
}

// A gate on two lines.
#[inline(always)]
fn put_two<O: Sink>(
    writer: &mut Writer,
    sink: &mut O,
    texts: &Texts,
    last: &Texts,
    lines: u8,
    a: u8,
    b: u8,
)
    requires few { lines ≤ MOST_LINES }
    requires first { a < lines }
    requires second { b < lines }
    requires last { AreBetween lines [] (codes ";\n") last.now }
    ensures { (gate : List ℕ) → AreBegun lines gate texts.now
        → Adds writer.old (O.view sink.old) (gate_on gate (a ∷ b ∷ []) ++ codes ";\n") writer.new (O.view sink.new) }
{
    writer.put_short(sink, texts.text(a));
    writer.put_short(sink, last.text(b));
}

// A gate on one line, by its name and a blank.
fn put_named_one<O: Sink>(
    writer: &mut Writer,
    sink: &mut O,
    name: &[u8],
    texts: &OpTexts,
    lines: u8,
    line: u8,
)
    requires few { lines ≤ MOST_LINES }
    requires line { line < lines }
    requires texts { AreOpTexts lines texts.now }
    ensures { (gate : List ℕ) → name.now ≡ gate ++ codes " "
        → Adds writer.old (O.view sink.old) (gate_on gate (line ∷ []) ++ codes ";\n") writer.new (O.view sink.new) }
{
    writer.put(sink, name);
    writer.put_short(sink, texts.last.text(line));
}

// A gate on two lines, by its name and a blank.
fn put_named_two<O: Sink>(
    writer: &mut Writer,
    sink: &mut O,
    name: &[u8],
    texts: &OpTexts,
    lines: u8,
    a: u8,
    b: u8,
)
    requires few { lines ≤ MOST_LINES }
    requires first { a < lines }
    requires second { b < lines }
    requires texts { AreOpTexts lines texts.now }
    ensures { (gate : List ℕ) → name.now ≡ gate ++ codes " "
        → Adds writer.old (O.view sink.old) (gate_on gate (a ∷ b ∷ []) ++ codes ";\n") writer.new (O.view sink.new) }
{
    writer.put(sink, name);
    writer.put_short(sink, texts.listed.text(a));
    writer.put_short(sink, texts.last.text(b));
}

// A gate on three lines, by its name and a blank.
fn put_named_three<O: Sink>(
    writer: &mut Writer,
    sink: &mut O,
    name: &[u8],
    texts: &OpTexts,
    lines: u8,
    a: u8,
    b: u8,
    c: u8,
)
    requires few { lines ≤ MOST_LINES }
    requires first { a < lines }
    requires second { b < lines }
    requires third { c < lines }
    requires texts { AreOpTexts lines texts.now }
    ensures { (gate : List ℕ) → name.now ≡ gate ++ codes " "
        → Adds writer.old (O.view sink.old) (gate_on gate (a ∷ b ∷ c ∷ []) ++ codes ";\n") writer.new
        (O.view sink.new) }
{
    writer.put(sink, name);
    writer.put_short(sink, texts.listed.text(a));
    writer.put_short(sink, texts.listed.text(b));
    writer.put_short(sink, texts.last.text(c));
}
