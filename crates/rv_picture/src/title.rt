ghost use Rattle.std.specs.Prelude.{◌≡◌, ◌<◌, ◌≤◌, ◌∷◌, ◌++◌, ℕ, List, decimal, length};
ghost use Rattle.rv_io.specs.Writer.{Adds};
ghost use Rattle.rv_text.specs.Spelled.{more_words};
ghost use Rattle.rv_gate.specs.Gate.{FitsIn, Within};
ghost use Rattle.rv_gate.specs.declared.gate.Shape.{Shape};
ghost use Rattle.rv_gate.specs.declared.word.TheConstants.{MOST_LINES};
ghost use Rattle.rv_real.specs.Text.{control_word, controls_from, name_at};
ghost use Rattle.rv_picture.specs.Titles.{gate_title, op_title, written_names};

use crate::label::{Markup, put_label};
use rv_draw::Drawn;
use rv_gate::{Gate, LineSet, Names, Shape, has};
use rv_io::{Sink, Writer};
use rv_net::Op;

/// What is named in a picture by the text of its format.
pub(crate) trait Titled: Drawn {
    /// The text, on lines of such names.
    ghost title: { List (List ℕ) → Self → List ℕ };

    /// Whether it stands on so many lines.
    ghost Fits: { Self → ℕ → Type 0 };

    fn put_title<O: Sink>(self, writer: &mut Writer, sink: &mut O, names: &Names)
        requires { Fits self (length names.now) }
        ensures { Adds writer.old (O.view sink.old) (title names.now self) writer.new (O.view sink.new) };
}

impl Titled for Gate {
    ghost title = { gate_title };

    ghost Fits = { FitsIn };

    fn put_title<O: Sink>(self, writer: &mut Writer, sink: &mut O, names: &Names) {
        names.recall_invariant();
        put_gate_words(writer, sink, names, self);
    }
}

impl Titled for Op {
    ghost title = { op_title };

    ghost Fits = { λ op lines. Unit {0} };

    fn put_title<O: Sink>(self, writer: &mut Writer, sink: &mut O, names: &Names) {
        put_op(writer, sink, names, self);
    }
}

// ---- gates

fn put_gate_words<O: Sink>(writer: &mut Writer, sink: &mut O, names: &Names, gate: Gate)
    requires fits { FitsIn gate (length names.now) }
    requires few { length names.now ≤ MOST_LINES }
    ensures { Adds writer.old (O.view sink.old) (gate_title names.now gate) writer.new (O.view sink.new) }
{
    match gate.shape() {
        Shape::Flip { care, want, target } => put_flip(writer, sink, names, care, want, target),
        Shape::Swap { care, want, a, b } => put_swap(writer, sink, names, (care, want), a, b),
        Shape::Peres { a, b, c } => put_peres(writer, sink, names, a, b, c),
    }
}

fn put_flip<O: Sink>(
    writer: &mut Writer,
    sink: &mut O,
    names: &Names,
    care: LineSet,
    want: LineSet,
    target: u8,
)
    requires care_in { Within care (length names.now) }
    requires target_in { target < length names.now }
    requires few { length names.now ≤ MOST_LINES }
    ensures { Adds writer.old (O.view sink.old)
        (gate_title names.now (Shape.Flip care want target))
        writer.new (O.view sink.new) }
{
    put_kind(writer, sink, b't', control_count(names, care) + 1);
    put_controls(writer, sink, names, care, want);
    put_operand(writer, sink, names, target, true);
}

fn put_swap<O: Sink>(
    writer: &mut Writer,
    sink: &mut O,
    names: &Names,
    controls: (LineSet, LineSet),
    a: u8,
    b: u8,
)
    requires care_in { Within controls.0 (length names.now) }
    requires a_in { a < length names.now }
    requires b_in { b < length names.now }
    requires few { length names.now ≤ MOST_LINES }
    ensures { Adds writer.old (O.view sink.old)
        (gate_title names.now (Shape.Swap controls.0 controls.1 a b))
        writer.new (O.view sink.new) }
{
    let (care, want) = controls;
    put_kind(writer, sink, b'f', control_count(names, care) + 2);
    put_controls(writer, sink, names, care, want);
    put_operand(writer, sink, names, a, true);
    put_operand(writer, sink, names, b, true);
}

fn put_peres<O: Sink>(writer: &mut Writer, sink: &mut O, names: &Names, a: u8, b: u8, c: u8)
    requires a_in { a < length names.now }
    requires b_in { b < length names.now }
    requires c_in { c < length names.now }
    ensures { Adds writer.old (O.view sink.old)
        (gate_title names.now (Shape.Peres a b c))
        writer.new (O.view sink.new) }
{
    put_kind(writer, sink, b'p', 3);
    put_operand(writer, sink, names, a, true);
    put_operand(writer, sink, names, b, true);
    put_operand(writer, sink, names, c, true);
}

// A gate's letter and how many operands follow.
fn put_kind<O: Sink>(writer: &mut Writer, sink: &mut O, letter: u8, operands: u8)
    ensures { Adds writer.old (O.view sink.old) (letter ∷ decimal operands) writer.new (O.view sink.new) }
{
    writer.put_byte(sink, letter);
    writer.put_number(sink, u128::from(operands));
}

// How many lines are controls.
fn control_count(names: &Names, care: LineSet) -> u8
    requires { Within care (length names.now) }
    ensures count { (want : ℕ) → result ≡ length (controls_from 0 (written_names names.now) care want) }
    ensures bound { result ≤ MOST_LINES }
{
    care.count_ones() as u8
}

// The controls, each after a space.
fn put_controls<O: Sink>(
    writer: &mut Writer,
    sink: &mut O,
    names: &Names,
    care: LineSet,
    want: LineSet,
)
    requires care_in { Within care (length names.now) }
    requires few { length names.now ≤ MOST_LINES }
    ensures { Adds writer.old (O.view sink.old)
        (more_words (controls_from 0 (written_names names.now) care want))
        writer.new (O.view sink.new) }
{
    let mut left = care;
    while left != 0 {
        let line = left.trailing_zeros() as u8;
        put_operand(writer, sink, names, line, has(want, line));
        left &= !(1 << line);
    }
}

// A space and the name of a line, after `-` where a control wants 0.
fn put_operand<O: Sink>(writer: &mut Writer, sink: &mut O, names: &Names, line: u8, wanted: bool)
    requires { line < length names.now }
    ensures { Adds writer.old (O.view sink.old)
        (32 ∷ control_word (name_at (written_names names.now) line) wanted)
        writer.new (O.view sink.new) }
{
    writer.put(sink, lead(wanted));
    put_label(writer, sink, Markup::Svg, names.name(line));
}

// What stands before the name of a control.
fn lead(wanted: bool) -> &'static [u8]
    ensures { (name : List ℕ) → result.now ++ name ≡ 32 ∷ control_word name wanted }
{
    if wanted { b" " } else { b" -" }
}

// ---- operations

fn put_op<O: Sink>(writer: &mut Writer, sink: &mut O, names: &Names, op: Op)
    ensures { Adds writer.old (O.view sink.old) (op_title names.now op) writer.new (O.view sink.new) }
{
    match op {
        Op::X(q) => put_one(writer, sink, b"x ", names, q),
        Op::Y(q) => put_one(writer, sink, b"y ", names, q),
        Op::Z(q) => put_one(writer, sink, b"z ", names, q),
        Op::H(q) => put_one(writer, sink, b"h ", names, q),
        Op::S(q) => put_one(writer, sink, b"s ", names, q),
        Op::Sdg(q) => put_one(writer, sink, b"sdg ", names, q),
        Op::T(q) => put_one(writer, sink, b"t ", names, q),
        Op::Tdg(q) => put_one(writer, sink, b"tdg ", names, q),
        Op::Cx(a, b) => put_two(writer, sink, b"cx ", names, a, b),
        Op::Cz(a, b) => put_two(writer, sink, b"cz ", names, a, b),
        Op::Ccx(a, b, c) => put_three(writer, sink, b"ccx ", names, a, b, c),
        Op::Swap(a, b) => put_two(writer, sink, b"swap ", names, a, b),
        Op::Cswap(c, a, b) => put_three(writer, sink, b"cswap ", names, c, a, b),
    }
}

// A gate on one line, by its name and a blank.
fn put_one<O: Sink>(writer: &mut Writer, sink: &mut O, gate: &[u8], names: &Names, line: u8)
    ensures { Adds writer.old (O.view sink.old)
        (gate.now ++ name_at (written_names names.now) line)
        writer.new (O.view sink.new) }
{
    writer.put(sink, gate);
    put_name(writer, sink, names, line);
}

// A gate on two lines.
fn put_two<O: Sink>(writer: &mut Writer, sink: &mut O, gate: &[u8], names: &Names, a: u8, b: u8)
    ensures { Adds writer.old (O.view sink.old)
        (gate.now ++ (name_at (written_names names.now) a ++ (44 ∷ name_at (written_names names.now) b)))
        writer.new (O.view sink.new) }
{
    writer.put(sink, gate);
    put_name(writer, sink, names, a);
    writer.put(sink, b",");
    put_name(writer, sink, names, b);
}

// A gate on three lines.
fn put_three<O: Sink>(
    writer: &mut Writer,
    sink: &mut O,
    gate: &[u8],
    names: &Names,
    a: u8,
    b: u8,
    c: u8,
)
    ensures { Adds writer.old (O.view sink.old)
        (gate.now ++ (name_at (written_names names.now) a ++ (44
        ∷ (name_at (written_names names.now) b ++ (44 ∷ name_at (written_names names.now) c)))))
        writer.new (O.view sink.new) }
{
    writer.put(sink, gate);
    put_name(writer, sink, names, a);
    writer.put(sink, b",");
    put_name(writer, sink, names, b);
    writer.put(sink, b",");
    put_name(writer, sink, names, c);
}

// The name of a line, if there is one.
fn put_name<O: Sink>(writer: &mut Writer, sink: &mut O, names: &Names, line: u8)
    ensures { Adds writer.old (O.view sink.old)
        (name_at (written_names names.now) line)
        writer.new (O.view sink.new) }
{
    if line < names.len() {
        put_label(writer, sink, Markup::Svg, names.name(line));
    }
}
