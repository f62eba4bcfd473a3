ghost use Rattle.std.specs.Prelude.{◌≡◌, ◌*◌, ◌+◌, ◌<◌, ◌≤◌, [], ◌∷◌, ◌++◌, Bool, List, Some, length, map};
ghost use Rattle.std.specs.List.{flat_map, range_with_len};
ghost use Rattle.rv_io.specs.Sink.{Sends};
ghost use Rattle.rv_io.specs.Writer.{Adds};
ghost use Rattle.rv_gate.specs.declared.word.TheConstants.{MOST_LINES};
ghost use Rattle.rv_gate.specs.Gate.{run};
ghost use Rattle.rv_draw.specs.Drawing.{block_count};
ghost use Rattle.rv_draw.specs.Networks.{network_picture, op_of};
ghost use Rattle.rv_draw.specs.Reading.{gate_of, picture_of};
ghost use Rattle.rv_draw.specs.Symbols.{op_symbol_on, symbol_on};
ghost use Rattle.rv_picture.specs.Cut.{text_of_lines};
ghost use Rattle.rv_picture.specs.Latex.{block_lines, cell_on, cell_text, cells_text, empty_line, input_end};
ghost use Rattle.rv_picture.specs.Latex.{input_text, is_joined_on, is_on, joined_text, latex_shown_by, latex_with};
ghost use Rattle.rv_picture.specs.Latex.{output_text, row_text, symbol_text, wire_end};

use crate::label::{Markup, put_label};
use rv_draw::{Drawn, Symbol, block_count, gates_of_block};
use rv_gate::{Circuit, Mark};
use rv_io::{Sink, WriteFault, Writer};
use rv_net::Net;

/// Sends a circuit in LaTeX: an environment `quantikz` with a row for each line and a cell for each gate.
///
/// After each `per_block` gates a new environment begins. Takes no memory.
pub fn latex_circuit<O: Sink>(
    circuit: &Circuit,
    per_block: usize,
    sink: &mut O,
) -> Result<(), WriteFault>
    requires some { 1 ≤ per_block }
    ensures sends { Sends (O.view sink.old)
        (latex_with symbol_on per_block circuit.now circuit.now.gates)
        result (O.view sink.new) }

    // What was sent shows the circuit.
    ensures back { latex_shown_by gate_of (latex_with symbol_on per_block circuit.now circuit.now.gates)
        ≡ Some (picture_of circuit.now) }
{
    circuit.recall_invariant();
    write_latex(circuit, circuit.gates(), per_block, sink)
}

/// Sends a network in LaTeX, on the lines of a circuit, whose gates are not drawn. Takes no memory.
pub fn latex_network<O: Sink>(
    lines: &Circuit,
    net: &Net,
    per_block: usize,
    sink: &mut O,
) -> Result<(), WriteFault>
    requires some { 1 ≤ per_block }
    ensures sends { Sends (O.view sink.old)
        (latex_with op_symbol_on per_block lines.now net.now.ops)
        result (O.view sink.new) }

    // What was sent shows the network, if it has as many lines.
    ensures back { length lines.now.names ≡ net.now.lines
        → latex_shown_by op_of (latex_with op_symbol_on per_block lines.now net.now.ops)
        ≡ Some (network_picture lines.now net.now.ops) }
{
    lines.recall_invariant();
    net.recall_invariant();
    write_latex(lines, net.ops(), per_block, sink)
}

// Sends such gates on a circuit's lines.
fn write_latex<O: Sink, G: Drawn>(
    lines: &Circuit,
    gates: &[G],
    per_block: usize,
    sink: &mut O,
) -> Result<(), WriteFault>
    requires some { 1 ≤ per_block }
    ensures { Sends (O.view sink.old) (latex_with G.draws per_block lines.now gates.now) result (O.view sink.new) }
{
    let mut writer = Writer::new();
    put_blocks(&mut writer, sink, lines, gates, per_block);
    writer.finish(sink)
}

fn put_blocks<O: Sink, G: Drawn>(
    writer: &mut Writer,
    sink: &mut O,
    lines: &Circuit,
    gates: &[G],
    per_block: usize,
)
    requires { 1 ≤ per_block }
    ensures { Adds writer.old (O.view sink.old)
        (text_of_lines (flat_map (block_lines G.draws per_block lines.now gates.now)
        (range_with_len 0 (block_count per_block (length gates.now)))))
        writer.new (O.view sink.new) }
{
    for block in 0..block_count(per_block, gates.len()) {
        put_block(writer, sink, lines, gates, per_block, block);
    }
}

// One environment.
fn put_block<O: Sink, G: Drawn>(
    writer: &mut Writer,
    sink: &mut O,
    lines: &Circuit,
    gates: &[G],
    per_block: usize,
    block: usize,
)
    requires { block * per_block ≤ length gates.now }
    ensures { Adds writer.old (O.view sink.old)
        (text_of_lines (block_lines G.draws per_block lines.now gates.now block))
        writer.new (O.view sink.new) }
{
    put_gap(writer, sink, block);
    writer.put(sink, b"\\begin{quantikz}\n");
    let chunk = gates_of_block(gates, per_block, block);
    put_rows(writer, sink, lines, chunk);
    writer.put(sink, b"\\end{quantikz}\n");
}

// The empty line before each block but the first.
fn put_gap<O: Sink>(writer: &mut Writer, sink: &mut O, block: usize)
    ensures { Adds writer.old (O.view sink.old) (text_of_lines (empty_line block)) writer.new (O.view sink.new) }
{
    if block != 0 {
        writer.put(sink, b"\n");
    }
}

// A row for each line.
fn put_rows<O: Sink, G: Drawn>(writer: &mut Writer, sink: &mut O, lines: &Circuit, gates: &[G])
    ensures { Adds writer.old (O.view sink.old)
        (text_of_lines (map (row_text G.draws lines.now gates.now) (range_with_len 0 (length lines.now.names))))
        writer.new (O.view sink.new) }
{
    for line in 0..lines.line_count() {
        put_row(writer, sink, lines, gates, line);
    }
}

// One row.
fn put_row<O: Sink, G: Drawn>(
    writer: &mut Writer,
    sink: &mut O,
    lines: &Circuit,
    gates: &[G],
    line: u8,
)
    requires { line < length lines.now.names }
    ensures { Adds writer.old (O.view sink.old)
        (text_of_lines (row_text G.draws lines.now gates.now line ∷ []))
        writer.new (O.view sink.new) }
{
    let count = lines.line_count();
    put_input(writer, sink, lines.input_label(line), lines.constant(line));
    put_cells(writer, sink, gates, count, line);
    writer.put(sink, b"&");
    put_output(writer, sink, lines.output_label(line), lines.garbage(line));
    writer.put(sink, b"\n");
}

// The label of an input, with its constant.
fn put_input<O: Sink>(writer: &mut Writer, sink: &mut O, label: &[u8], mark: Mark)
    ensures { Adds writer.old (O.view sink.old) (input_text label.now mark) writer.new (O.view sink.new) }
{
    writer.put(sink, b"\\lstick{");
    put_label(writer, sink, Markup::Latex, label);
    writer.put(sink, input_end(mark));
}

fn input_end(mark: Mark) -> &'static [u8]
    ensures { result.now ≡ input_end mark }
{
    match mark {
        Mark::Input => b"} ",
        Mark::Zero => b" $\\ket{0}$} ",
        Mark::One => b" $\\ket{1}$} ",
    }
}

// The end of a wire, with the label of its output.
fn put_output<O: Sink>(writer: &mut Writer, sink: &mut O, label: &[u8], garbage: bool)
    ensures { Adds writer.old (O.view sink.old) (output_text label.now garbage) writer.new (O.view sink.new) }
{
    writer.put(sink, wire_end(garbage));
    put_label(writer, sink, Markup::Latex, label);
    writer.put(sink, b"} \\\\");
}

fn wire_end(garbage: bool) -> &'static [u8]
    ensures { result.now ≡ wire_end garbage }
{
    if garbage {
        b" \\trash{} \\rstick{"
    } else {
        b" \\qw \\rstick{"
    }
}

// The cells of the gates, each after `&`.
fn put_cells<O: Sink, G: Drawn>(writer: &mut Writer, sink: &mut O, gates: &[G], lines: u8, line: u8)
    requires line { line < lines }
    requires few { lines ≤ MOST_LINES }
    ensures { Adds writer.old (O.view sink.old) (cells_text G.draws lines gates.now line) writer.new (O.view sink.new) }
{
    for gate in gates {
        put_cell(writer, sink, *gate, lines, line);
    }
}

fn put_cell<O: Sink, G: Drawn>(writer: &mut Writer, sink: &mut O, gate: G, lines: u8, line: u8)
    requires line { line < lines }
    requires few { lines ≤ MOST_LINES }
    ensures { Adds writer.old (O.view sink.old)
        (38 ∷ cell_text (cell_on (G.draws gate) lines line))
        writer.new (O.view sink.new) }
{
    writer.put(sink, b"&");
    let symbol = gate.symbol_on(line);
    if is_joined(gate, lines, line) {
        writer.put(sink, joined_text(symbol));
    } else {
        writer.put(sink, symbol_text(symbol));
    }
    writer.put(sink, b" ");
}

/// Whether a vertical leads from a line to the next.
pub(crate) fn is_joined<G: Drawn>(gate: G, lines: u8, line: u8) -> bool
    requires line { line < lines }
    requires few { lines ≤ MOST_LINES }
    ensures { result ≡ is_joined_on (G.draws gate) lines line }
{
    line + 1 < lines && is_on(gate.symbol_on(line)) && is_on(gate.symbol_on(line + 1))
}

/// Whether a vertical may stand on a symbol.
pub(crate) fn is_on(symbol: Symbol) -> bool
    ensures { result ≡ is_on symbol }
{
    !matches!(symbol, Symbol::Wire)
}

fn symbol_text(symbol: Symbol) -> &'static [u8]
    ensures { result.now ≡ symbol_text symbol }
{
    match symbol {
        Symbol::Wire => b" \\qw",
        Symbol::Crossing => b" \\qw{}",
        Symbol::Positive => b" \\control{}",
        Symbol::Negative => b" \\ocontrol{}",
        Symbol::Target => b" \\targ{}",
        Symbol::Exchanged => b" \\targX[outer sep=-.5em]{}",
        Symbol::Middle => b" \\gate[style={circle,inner sep=-2pt}]{\\bullet}",
        Symbol::Zero => b" \\push{0}",
        Symbol::One => b" \\push{1}",
        Symbol::Wall => b" \\trash{}",
        Symbol::H => b" \\gate{H}",
        Symbol::T => b" \\gate{T}",
        Symbol::Tdg => b" \\gate{T^\\dagger}",
        Symbol::S => b" \\gate{S}",
        Symbol::Sdg => b" \\gate{S^\\dagger}",
        Symbol::Z => b" \\gate{Z}",
        Symbol::Y => b" \\gate{Y}",
    }
}

// A symbol from which a vertical leads to the next line.
fn joined_text(symbol: Symbol) -> &'static [u8]
    ensures { result.now ≡ joined_text symbol }
{
    match symbol {
        Symbol::Wire => b" \\qw\\vqw{1}",
        Symbol::Crossing => b" \\qw{}\\vqw{1}",
        Symbol::Positive => b" \\ctrl{1}",
        Symbol::Negative => b" \\octrl{1}",
        Symbol::Target => b" \\targ{}\\vqw{1}",
        Symbol::Exchanged => b" \\targX[outer sep=-.5em]{}\\vqw{1}",
        Symbol::Middle => b" \\gate[style={circle,inner sep=-2pt}]{\\bullet}\\vqw{1}",
        Symbol::Zero => b" \\push{0}\\vqw{1}",
        Symbol::One => b" \\push{1}\\vqw{1}",
        Symbol::Wall => b" \\trash{}\\vqw{1}",
        Symbol::H => b" \\gate{H}\\vqw{1}",
        Symbol::T => b" \\gate{T}\\vqw{1}",
        Symbol::Tdg => b" \\gate{T^\\dagger}\\vqw{1}",
        Symbol::S => b" \\gate{S}\\vqw{1}",
        Symbol::Sdg => b" \\gate{S^\\dagger}\\vqw{1}",
        Symbol::Z => b" \\gate{Z}\\vqw{1}",
        Symbol::Y => b" \\gate{Y}\\vqw{1}",
    }
}
