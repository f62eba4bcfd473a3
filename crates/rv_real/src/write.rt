ghost use Rattle.std.specs.Prelude.{◌≡◌, ℕ, List, ◌==◌, ◌||◌, ◌+◌, ◌<◌, ◌≤◌, [], ◌∷◌, ◌++◌, length, map, decimal};
ghost use Rattle.std.specs.Prelude.{slice_get, slice_index, Some};
ghost use Rattle.rv_io.specs.Sink.{Sends};
ghost use Rattle.rv_io.specs.Writer.{Adds};
ghost use Rattle.rv_text.specs.Spelled.{more_words, spelled, words_line};
ghost use Rattle.rv_gate.specs.Gate.{FitsIn, Within};
ghost use Rattle.rv_gate.specs.declared.word.TheConstants.{MOST_LINES};
ghost use Rattle.rv_real.specs.Reading.{real_of};
ghost use Rattle.rv_real.specs.Text.{control_word, controls_from, gate_words, header_lines, label_lines, label_word};
ghost use Rattle.rv_real.specs.Text.{name_at, size_lines, text_of, variables_line};
ghost use Rattle.rv_real.specs.inside.LabelRows.{labels_of};
ghost use Rattle.rv_real.specs.inside.Texts.{AreTexts};

use crate::label::put_label;
use crate::texts::Texts;
use rv_gate::{Circuit, Gate, LineSet, Names, Shape, has};
use rv_io::{Sink, WriteFault, Writer};
use rv_marks::put_marks;

/// Sends the text of a circuit: the header with all of its lines, one line for each gate, and `.end`.
///
/// A control stands in the order of the lines, with `-` before one that wants 0. A label stands in
/// quotes exactly where it is empty or holds a blank or `#`. Takes no memory.
pub fn write_real<O: Sink>(circuit: &Circuit, sink: &mut O) -> Result<(), WriteFault>
    ensures sends { Sends (O.view sink.old) (text_of circuit.now) result (O.view sink.new) }

    // What was sent denotes the circuit.
    ensures back { real_of (text_of circuit.now) ≡ Ok circuit.now }
{
    circuit.recall_invariant();
    let mut writer = Writer::new();
    put_header(&mut writer, sink, circuit);
    put_gates(&mut writer, sink, circuit);
    writer.put(sink, b".end\n");
    writer.finish(sink)
}

fn put_header<O: Sink>(writer: &mut Writer, sink: &mut O, circuit: &Circuit)
    ensures { Adds writer.old (O.view sink.old) (spelled (header_lines circuit.now)) writer.new (O.view sink.new) }
{
    put_size(writer, sink, circuit.line_count());
    put_variables(writer, sink, circuit.names());
    put_labels(writer, sink, circuit);
    put_marks(writer, sink, circuit.constant_row(), circuit.garbage_row());
    writer.put(sink, b".begin\n");
}

// `.version` and `.numvars`.
fn put_size<O: Sink>(writer: &mut Writer, sink: &mut O, lines: u8)
    ensures { Adds writer.old (O.view sink.old) (spelled (size_lines lines)) writer.new (O.view sink.new) }
{
    writer.put(sink, b".version 2.0\n.numvars ");
    writer.put_number(sink, u128::from(lines));
    writer.put(sink, b"\n");
}

// `.variables`.
fn put_variables<O: Sink>(writer: &mut Writer, sink: &mut O, names: &Names)
    ensures { Adds writer.old (O.view sink.old) (spelled (variables_line names.now ∷ [])) writer.new (O.view sink.new) }
{
    writer.put(sink, b".variables");
    put_names(writer, sink, names);
    writer.put(sink, b"\n");
}

// The names, each after a space.
fn put_names<O: Sink>(writer: &mut Writer, sink: &mut O, names: &Names)
    ensures { Adds writer.old (O.view sink.old) (more_words names.now) writer.new (O.view sink.new) }
{
    for line in 0..names.len() {
        put_name(writer, sink, names.name(line));
    }
}

// A space and a name.
fn put_name<O: Sink>(writer: &mut Writer, sink: &mut O, name: &[u8])
    ensures { Adds writer.old (O.view sink.old) (32 ∷ name.now) writer.new (O.view sink.new) }
{
    writer.put(sink, b" ");
    writer.put(sink, name);
}

// `.inputs` and `.outputs`.
fn put_labels<O: Sink>(writer: &mut Writer, sink: &mut O, circuit: &Circuit)
    ensures { Adds writer.old (O.view sink.old) (spelled (label_lines circuit.now)) writer.new (O.view sink.new) }
{
    writer.put(sink, b".inputs");
    put_label_row(writer, sink, circuit, false);
    writer.put(sink, b"\n.outputs");
    put_label_row(writer, sink, circuit, true);
    writer.put(sink, b"\n");
}

// The label of a line at its output, or at its input.
fn label_at(circuit: &Circuit, line: u8, ends: bool) -> &[u8]
    requires { line < length circuit.now.names }
    ensures { slice_get (labels_of circuit.now ends) line ≡ Some result.now }
{
    if ends {
        circuit.output_label(line)
    } else {
        circuit.input_label(line)
    }
}

// The labels of the outputs, or of the inputs, each after a space.
fn put_label_row<O: Sink>(writer: &mut Writer, sink: &mut O, circuit: &Circuit, ends: bool)
    ensures { Adds writer.old (O.view sink.old) (more_words (map label_word (labels_of circuit.now ends))) writer.new
        (O.view sink.new) }
{
    for line in 0..circuit.line_count() {
        put_next_label(writer, sink, label_at(circuit, line, ends));
    }
}

// A space and a label.
fn put_next_label<O: Sink>(writer: &mut Writer, sink: &mut O, label: &[u8])
    ensures { Adds writer.old (O.view sink.old) (32 ∷ label_word label.now) writer.new (O.view sink.new) }
{
    writer.put(sink, b" ");
    put_label(writer, sink, label);
}

// One line for each gate.
fn put_gates<O: Sink>(writer: &mut Writer, sink: &mut O, circuit: &Circuit)
    ensures { Adds writer.old (O.view sink.old) (spelled (map (gate_words circuit.now.names) circuit.now.gates))
        writer.new (O.view sink.new) }
{
    circuit.recall_invariant();
    let names = circuit.names();
    let texts = Texts::of(names);
    for gate in circuit.gates() {
        put_gate(writer, sink, names, &texts, *gate);
    }
}

// A gate's line.
fn put_gate<O: Sink>(writer: &mut Writer, sink: &mut O, names: &Names, texts: &Texts, gate: Gate)
    requires fits { FitsIn gate (length names.now) }
    requires few { length names.now ≤ MOST_LINES }
    requires texts { AreTexts names.now texts.now }
    ensures { Adds writer.old (O.view sink.old) (spelled (gate_words names.now gate ∷ [])) writer.new
        (O.view sink.new) }
{
    put_gate_words(writer, sink, names, texts, gate);
    writer.put_byte(sink, b'\n');
}

fn put_gate_words<O: Sink>(
    writer: &mut Writer,
    sink: &mut O,
    names: &Names,
    texts: &Texts,
    gate: Gate,
)
    requires fits { FitsIn gate (length names.now) }
    requires few { length names.now ≤ MOST_LINES }
    requires texts { AreTexts names.now texts.now }
    ensures { Adds writer.old (O.view sink.old) (words_line (gate_words names.now gate)) writer.new (O.view sink.new) }
{
    match gate.shape() {
        Shape::Flip { care, want, target } => {
            put_flip(writer, sink, names, texts, care, want, target);
        }
        Shape::Swap { care, want, a, b } => {
            put_swap(writer, sink, names, texts, care, want, a, b);
        }
        Shape::Peres { a, b, c } => put_peres(writer, sink, names, texts, a, b, c),
    }
}

fn put_flip<O: Sink>(
    writer: &mut Writer,
    sink: &mut O,
    names: &Names,
    texts: &Texts,
    care: LineSet,
    want: LineSet,
    target: u8,
)
    requires care_in { Within care (length names.now) }
    requires target_in { target < length names.now }
    requires few { length names.now ≤ MOST_LINES }
    requires texts { AreTexts names.now texts.now }
    ensures { Adds writer.old (O.view sink.old) (words_line (gate_words names.now (Shape.Flip care want target)))
        writer.new (O.view sink.new) }
{
    put_kind(writer, sink, b't', control_count(names, care) + 1);
    put_controls(writer, sink, names, texts, care, want);
    put_operand(writer, sink, names, texts, target, true);
}

fn put_swap<O: Sink>(
    writer: &mut Writer,
    sink: &mut O,
    names: &Names,
    texts: &Texts,
    care: LineSet,
    want: LineSet,
    a: u8,
    b: u8,
)
    requires care_in { Within care (length names.now) }
    requires a_in { a < length names.now }
    requires b_in { b < length names.now }
    requires few { length names.now ≤ MOST_LINES }
    requires texts { AreTexts names.now texts.now }
    ensures { Adds writer.old (O.view sink.old) (words_line (gate_words names.now (Shape.Swap care want a b)))
        writer.new (O.view sink.new) }
{
    put_kind(writer, sink, b'f', control_count(names, care) + 2);
    put_controls(writer, sink, names, texts, care, want);
    put_operand(writer, sink, names, texts, a, true);
    put_operand(writer, sink, names, texts, b, true);
}

fn put_peres<O: Sink>(
    writer: &mut Writer,
    sink: &mut O,
    names: &Names,
    texts: &Texts,
    a: u8,
    b: u8,
    c: u8,
)
    requires a_in { a < length names.now }
    requires b_in { b < length names.now }
    requires c_in { c < length names.now }
    requires few { length names.now ≤ MOST_LINES }
    requires texts { AreTexts names.now texts.now }
    ensures { Adds writer.old (O.view sink.old) (words_line (gate_words names.now (Shape.Peres a b c))) writer.new
        (O.view sink.new) }
{
    put_kind(writer, sink, b'p', 3);
    put_operand(writer, sink, names, texts, a, true);
    put_operand(writer, sink, names, texts, b, true);
    put_operand(writer, sink, names, texts, c, true);
}

// A gate's letter and how many operands follow.
fn put_kind<O: Sink>(writer: &mut Writer, sink: &mut O, letter: u8, operands: u8)
    ensures { Adds writer.old (O.view sink.old) (letter ∷ decimal operands) writer.new (O.view sink.new) }
{
    writer.put_byte(sink, letter);
    writer.put_number(sink, u128::from(operands));
}

// How many lines are controls.
fn control_count(names: &Names, care: LineSet) -> u8
    requires { Within care (length names.now) }
    ensures count { (want : ℕ) → result ≡ length (controls_from 0 names.now care want) }
    ensures bound { result ≤ MOST_LINES }
{
    care.count_ones() as u8
}

// The controls, each after a space.
fn put_controls<O: Sink>(
    writer: &mut Writer,
    sink: &mut O,
    names: &Names,
    texts: &Texts,
    care: LineSet,
    want: LineSet,
)
    requires care_in { Within care (length names.now) }
    requires few { length names.now ≤ MOST_LINES }
    requires texts { AreTexts names.now texts.now }
    ensures { Adds writer.old (O.view sink.old) (more_words (controls_from 0 names.now care want)) writer.new
        (O.view sink.new) }
{
    let mut left = care;
    while left != 0 {
        let line = left.trailing_zeros() as u8;
        put_operand(writer, sink, names, texts, line, has(want, line));
        left &= !(1 << line);
    }
}

// A space and the name of a line, after `-` where a control wants 0.
fn put_operand<O: Sink>(
    writer: &mut Writer,
    sink: &mut O,
    names: &Names,
    texts: &Texts,
    line: u8,
    wanted: bool,
)
    requires line_in { line < length names.now }
    requires few { length names.now ≤ MOST_LINES }
    requires texts { AreTexts names.now texts.now }
    ensures { Adds writer.old (O.view sink.old) (32 ∷ control_word (name_at names.now line) wanted) writer.new
        (O.view sink.new) }
{
    match texts.text(line, wanted) {
        Some(text) => writer.put_short(sink, text),
        None => put_control(writer, sink, names.name(line), wanted),
    }
}

// The same for a name of any length.
#[inline(never)]
fn put_control<O: Sink>(writer: &mut Writer, sink: &mut O, name: &[u8], wanted: bool)
    ensures { Adds writer.old (O.view sink.old) (32 ∷ control_word name.now wanted) writer.new (O.view sink.new) }
{
    writer.put(sink, lead(wanted));
    writer.put(sink, name);
}

// What stands before the name of a control.
fn lead(wanted: bool) -> &'static [u8]
    ensures { (name : List ℕ) → result.now ++ name ≡ 32 ∷ control_word name wanted }
{
    if wanted { b" " } else { b" -" }
}
