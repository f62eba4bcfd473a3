ghost use Rattle.std.specs.Prelude.{◌≡◌, ◌*◌, ◌+◌, ◌<◌, ◌≤◌, ◌^◌, ◌&&◌, [], ◌∷◌, All, Some, true, length, max};
ghost use Rattle.std.specs.List.{count_by, flat_map, range_with_len};
ghost use Rattle.rv_io.specs.Sink.{Sends};
ghost use Rattle.rv_io.specs.Writer.{Adds};
ghost use Rattle.rv_gate.specs.declared.word.TheConstants.{MOST_LINES};
ghost use Rattle.rv_draw.specs.Drawing.{begins_character, block_count};
ghost use Rattle.rv_draw.specs.Networks.{network_picture, op_of};
ghost use Rattle.rv_draw.specs.Reading.{gate_of, picture_of};
ghost use Rattle.rv_draw.specs.Symbols.{op_symbol_on, symbol_on};
ghost use Rattle.rv_picture.specs.Cut.{text_of_lines};
ghost use Rattle.rv_picture.specs.Latex.{is_on};
ghost use Rattle.rv_picture.specs.SvgReading.{svg_shown_by};
ghost use Rattle.rv_picture.specs.Svg.{all_gate_lines, block_lines, break_at, breaks, down_if, gate_lines, head};
ghost use Rattle.rv_picture.specs.Svg.{input_body, input_end, line_lines, margin, mark_lines, middle_of, output_body};
ghost use Rattle.rv_picture.specs.Svg.{output_end, placed, reach, shape, size, stroke, stroke_lines, svg_with, up_if};
ghost use Rattle.rv_picture.specs.Svg.{begins_wide, widest, width, wire};
ghost use Rattle.rv_picture.specs.Titles.{gate_title, op_title};
ghost use Rattle.rv_picture.specs.inside.Within.{symbol_within};

use crate::label::{Markup, is_printable, put_label};
use crate::latex::is_on;
use crate::title::Titled;
use rv_draw::{Drawn, Symbol, block_count, gates_of_block};
use rv_gate::{Circuit, Mark, Names};
use rv_io::{Sink, WriteFault, Writer};
use rv_net::Net;

/// Sends a circuit in SVG: a group for each gate, of plain elements, in the colour of the page's text.
///
/// After each `per_block` gates a new block begins below. Takes no memory.
pub fn svg_circuit<O: Sink>(
    circuit: &Circuit,
    per_block: usize,
    sink: &mut O,
) -> Result<(), WriteFault>
    requires some { 1 ≤ per_block }
    ensures sends { Sends (O.view sink.old)
        (svg_with symbol_on gate_title per_block circuit.now circuit.now.gates)
        result (O.view sink.new) }

    // What was sent shows the circuit.
    ensures back { svg_shown_by gate_of (svg_with symbol_on gate_title per_block circuit.now circuit.now.gates)
        ≡ Some (picture_of circuit.now) }
{
    circuit.recall_invariant();
    write_svg(circuit, circuit.gates(), per_block, sink)
}

/// Sends a network in SVG, on the lines of a circuit, whose gates are not drawn. Takes no memory.
pub fn svg_network<O: Sink>(
    lines: &Circuit,
    net: &Net,
    per_block: usize,
    sink: &mut O,
) -> Result<(), WriteFault>
    requires some { 1 ≤ per_block }
    ensures sends { Sends (O.view sink.old)
        (svg_with op_symbol_on op_title per_block lines.now net.now.ops)
        result (O.view sink.new) }

    // What was sent shows the network, if it has as many lines.
    ensures back { length lines.now.names ≡ net.now.lines
        → svg_shown_by op_of (svg_with op_symbol_on op_title per_block lines.now net.now.ops)
        ≡ Some (network_picture lines.now net.now.ops) }
{
    lines.recall_invariant();
    net.recall_invariant();
    write_svg(lines, net.ops(), per_block, sink)
}

fn write_svg<O: Sink, G: Titled>(
    lines: &Circuit,
    gates: &[G],
    per_block: usize,
    sink: &mut O,
) -> Result<(), WriteFault>
    requires some { 1 ≤ per_block }
    requires fit { All (λ gate. G.Fits gate (length lines.now.names)) gates.now }
    ensures { Sends (O.view sink.old) (svg_with G.draws G.title per_block lines.now gates.now) result
        (O.view sink.new) }
{
    let blocks = block_count(per_block, gates.len());
    let columns = per_block.min(gates.len());
    let mut writer = Writer::new();
    put_head(&mut writer, sink, lines, columns, blocks);
    put_blocks(&mut writer, sink, lines, gates, per_block, blocks);
    writer.put(sink, b"</svg>\n");
    writer.finish(sink)
}

// The first line, with the size of the picture.
fn put_head<O: Sink>(
    writer: &mut Writer,
    sink: &mut O,
    lines: &Circuit,
    columns: usize,
    blocks: usize,
)
    ensures { Adds writer.old (O.view sink.old)
        (text_of_lines (head lines.now columns blocks ∷ []))
        writer.new (O.view sink.new) }
{
    let margin = margin(lines);
    let width = 2 * margin + 30 * columns as u128;
    let height = height(lines.line_count(), blocks);
    writer.put(
        sink,
        b"<svg xmlns=\"http://www.w3.org/2000/svg\" viewBox=\"-",
    );
    writer.put_number(sink, margin);
    writer.put(sink, b" 0 ");
    put_size(writer, sink, width, height);
    writer.put(
        sink,
        b" font-family=\"monospace\" font-size=\"13\" fill=\"none\" stroke=\"currentColor\">\n",
    );
}

// The size twice: that of the view, and that of the picture.
fn put_size<O: Sink>(writer: &mut Writer, sink: &mut O, width: u128, height: u128)
    ensures { Adds writer.old (O.view sink.old) (size width height) writer.new (O.view sink.new) }
{
    writer.put_number(sink, width);
    writer.put(sink, b" ");
    writer.put_number(sink, height);
    writer.put(sink, b"\" width=\"");
    writer.put_number(sink, width);
    writer.put(sink, b"\" height=\"");
    writer.put_number(sink, height);
    writer.put(sink, b"\"");
}

// How high so many blocks are.
fn height(lines: u8, blocks: usize) -> u128
    ensures { result ≡ 30 * (lines + 1) * blocks }
{
    30 * (u128::from(lines) + 1) * blocks as u128
}

// The room beside the wires.
fn margin(lines: &Circuit) -> u128
    ensures value { result ≡ margin lines.now }
    ensures few { result < 2 ^ 80 }
{
    8 * widest_label(lines) + 56
}

// How wide the widest label is.
fn widest_label(lines: &Circuit) -> u128
    ensures value { result ≡ max (widest lines.now.input_labels) (widest lines.now.output_labels) }
    ensures few { result < 2 ^ 70 }
{
    let mut inputs = 0;
    let mut outputs = 0;
    for line in 0..lines.line_count() {
        inputs = wider(inputs, lines.input_label(line));
        outputs = wider(outputs, lines.output_label(line));
    }
    inputs.max(outputs)
}

fn wider(most: u128, label: &[u8]) -> u128
    requires { most < 2 ^ 70 }
    ensures value { result ≡ max most (width label.now) }
    ensures few { result < 2 ^ 70 }
{
    most.max(width(label))
}

// How wide a label is, as it is shown.
fn width(label: &[u8]) -> u128
    ensures value { result ≡ width label.now }
    ensures few { result < 2 ^ 70 }
{
    if is_printable(label) {
        character_count(label) as u128 + wide_count(label) as u128
    } else {
        2 * label.len() as u128 + 2
    }
}

// How many bytes begin a character of UTF-8.
fn character_count(label: &[u8]) -> usize
    ensures { result ≡ count_by begins_character label.now }
{
    label.iter().filter(|&byte| byte / 64 != 2).count()
}

// How many bytes begin a character of three or four.
fn wide_count(label: &[u8]) -> usize
    ensures { result ≡ count_by begins_wide label.now }
{
    label.iter().filter(|&byte| *byte >= 224).count()
}

fn put_blocks<O: Sink, G: Titled>(
    writer: &mut Writer,
    sink: &mut O,
    lines: &Circuit,
    gates: &[G],
    per_block: usize,
    blocks: usize,
)
    requires some { 1 ≤ per_block }
    requires fit { All (λ gate. G.Fits gate (length lines.now.names)) gates.now }
    requires blocks { blocks ≡ block_count per_block (length gates.now) }
    ensures { Adds writer.old (O.view sink.old)
        (text_of_lines (flat_map (block_lines G.draws G.title per_block lines.now gates.now) (range_with_len 0 blocks)))
        writer.new (O.view sink.new) }
{
    for block in 0..blocks {
        put_block(writer, sink, lines, gates, per_block, block);
    }
}

// One block.
fn put_block<O: Sink, G: Titled>(
    writer: &mut Writer,
    sink: &mut O,
    lines: &Circuit,
    gates: &[G],
    per_block: usize,
    block: usize,
)
    requires within { block * per_block ≤ length gates.now }
    requires fit { All (λ gate. G.Fits gate (length lines.now.names)) gates.now }
    ensures { Adds writer.old (O.view sink.old)
        (text_of_lines (block_lines G.draws G.title per_block lines.now gates.now block))
        writer.new (O.view sink.new) }
{
    let y = height(lines.line_count(), block);
    put_place(writer, sink, 0, y);
    writer.put(sink, b"\n");
    let chunk = gates_of_block(gates, per_block, block);
    put_lines(writer, sink, lines, chunk);
    put_gates(writer, sink, lines.names(), chunk);
    writer.put(sink, b"</g>\n");
}

// The beginning of a group at a place.
fn put_place<O: Sink>(writer: &mut Writer, sink: &mut O, x: u128, y: u128)
    ensures { Adds writer.old (O.view sink.old) (placed x y []) writer.new (O.view sink.new) }
{
    writer.put(sink, b"<g transform=\"translate(");
    writer.put_number(sink, x);
    writer.put(sink, b" ");
    writer.put_number(sink, y);
    writer.put(sink, b")\">");
}

// The middle of a gate of a block.
fn middle_of(place: usize) -> u128
    ensures { result ≡ middle_of place }
{
    30 * place as u128 + 15
}

// The middle of a line of a block.
fn middle_of_line(line: u8) -> u128
    ensures { result ≡ middle_of line }
{
    30 * u128::from(line) + 15
}

// The end of the wires under so many gates.
fn end_of(gates: usize) -> u128
    ensures { result ≡ 30 * gates }
{
    30 * gates as u128
}

// The labels and the wire of each line.
fn put_lines<O: Sink, G: Drawn>(writer: &mut Writer, sink: &mut O, lines: &Circuit, gates: &[G])
    ensures { Adds writer.old (O.view sink.old)
        (text_of_lines (flat_map (line_lines G.draws lines.now gates.now) (range_with_len 0 (length lines.now.names))))
        writer.new (O.view sink.new) }
{
    for line in 0..lines.line_count() {
        put_line(writer, sink, lines, gates, line);
    }
}

fn put_line<O: Sink, G: Drawn>(
    writer: &mut Writer,
    sink: &mut O,
    lines: &Circuit,
    gates: &[G],
    line: u8,
)
    requires { line < length lines.now.names }
    ensures { Adds writer.old (O.view sink.old)
        (text_of_lines (line_lines G.draws lines.now gates.now line))
        writer.new (O.view sink.new) }
{
    lines.recall_invariant();
    let y = middle_of_line(line);
    put_place(writer, sink, 0, y);
    put_input(writer, sink, lines.input_label(line), lines.constant(line));
    writer.put(sink, b"\n");
    put_wire(writer, sink, gates, line);
    writer.put(sink, b"\n");
    put_place(writer, sink, end_of(gates.len()), y);
    put_output(writer, sink, lines.output_label(line), lines.garbage(line));
    writer.put(sink, b"\n");
}

// The label of an input, with its constant.
fn put_input<O: Sink>(writer: &mut Writer, sink: &mut O, label: &[u8], mark: Mark)
    ensures { Adds writer.old (O.view sink.old) (input_body label.now mark) writer.new (O.view sink.new) }
{
    writer.put(
        sink,
        b"<text x=\"-8\" y=\"4\" text-anchor=\"end\" fill=\"currentColor\" stroke=\"none\" xml:space=\"preserve\">",
    );
    put_label(writer, sink, Markup::Svg, label);
    writer.put(sink, input_end(mark));
}

fn input_end(mark: Mark) -> &'static [u8]
    ensures { result.now ≡ input_end mark }
{
    match mark {
        Mark::Input => b"</text></g>",
        Mark::Zero => b"<tspan> |0\xe2\x9f\xa9</tspan></text></g>",
        Mark::One => b"<tspan> |1\xe2\x9f\xa9</tspan></text></g>",
    }
}

// The label of an output, with a bar where it is garbage.
fn put_output<O: Sink>(writer: &mut Writer, sink: &mut O, label: &[u8], garbage: bool)
    ensures { Adds writer.old (O.view sink.old) (output_body label.now garbage) writer.new (O.view sink.new) }
{
    writer.put(
        sink,
        b"<text x=\"8\" y=\"4\" fill=\"currentColor\" stroke=\"none\" xml:space=\"preserve\">",
    );
    put_label(writer, sink, Markup::Svg, label);
    writer.put(sink, output_end(garbage));
}

fn output_end(garbage: bool) -> &'static [u8]
    ensures { result.now ≡ output_end garbage }
{
    if garbage {
        b"</text><line y1=\"-6\" y2=\"6\"/></g>"
    } else {
        b"</text></g>"
    }
}

// A wire, which is not drawn under a symbol that the lines to it don't reach.
fn put_wire<O: Sink, G: Drawn>(writer: &mut Writer, sink: &mut O, gates: &[G], line: u8)
    requires { line < MOST_LINES }
    ensures { Adds writer.old (O.view sink.old) (wire G.draws line gates.now) writer.new (O.view sink.new) }
{
    writer.put(sink, b"<path d=\"M0 ");
    writer.put_number(sink, middle_of_line(line));
    put_breaks(writer, sink, gates, line);
    writer.put(sink, b"H");
    writer.put_number(sink, end_of(gates.len()));
    writer.put(sink, b"\"/>");
}

fn put_breaks<O: Sink, G: Drawn>(writer: &mut Writer, sink: &mut O, gates: &[G], line: u8)
    requires { line < MOST_LINES }
    ensures { Adds writer.old (O.view sink.old) (breaks G.draws line 0 gates.now) writer.new (O.view sink.new) }
{
    for place in 0..gates.len() {
        put_break(writer, sink, gates[place].symbol_on(line), place, line);
    }
}

fn put_break<O: Sink>(writer: &mut Writer, sink: &mut O, symbol: Symbol, place: usize, line: u8)
    ensures { Adds writer.old (O.view sink.old)
        (break_at symbol (middle_of place) (middle_of line))
        writer.new (O.view sink.new) }
{
    let reach = reach(symbol);
    if reach != 0 {
        let x = 30 * place as u128 + 15;
        writer.put(sink, b"H");
        writer.put_number(sink, x - reach);
        writer.put(sink, b"M");
        writer.put_number(sink, x + reach);
        writer.put(sink, b" ");
        writer.put_number(sink, 30 * u128::from(line) + 15);
    }
}

// How far from the middle of a symbol the lines to it end.
fn reach(symbol: Symbol) -> u128
    ensures value { result ≡ reach symbol }
    ensures few { result ≤ 11 }
{
    match symbol {
        Symbol::Negative => 5,
        Symbol::Middle => 8,
        Symbol::H | Symbol::T | Symbol::Tdg | Symbol::S | Symbol::Sdg | Symbol::Z | Symbol::Y => 11,
        _ => 0,
    }
}

// The groups of the gates.
fn put_gates<O: Sink, G: Titled>(writer: &mut Writer, sink: &mut O, names: &Names, gates: &[G])
    requires { All (λ gate. G.Fits gate (length names.now)) gates.now }
    ensures { Adds writer.old (O.view sink.old)
        (text_of_lines (all_gate_lines G.draws (G.title names.now) (length names.now) 0 gates.now))
        writer.new (O.view sink.new) }
{
    for place in 0..gates.len() {
        put_gate(writer, sink, names, gates[place], place);
    }
}

fn put_gate<O: Sink, G: Titled>(
    writer: &mut Writer,
    sink: &mut O,
    names: &Names,
    gate: G,
    place: usize,
)
    requires { G.Fits gate (length names.now) }
    ensures { Adds writer.old (O.view sink.old)
        (text_of_lines (gate_lines (G.draws gate) (G.title names.now gate) (length names.now) place))
        writer.new (O.view sink.new) }
{
    put_place(writer, sink, middle_of(place), 0);
    writer.put(sink, b"<title>");
    gate.put_title(writer, sink, names);
    writer.put(sink, b"</title>\n");
    put_marks(writer, sink, gate, names.len());
    writer.put(sink, b"</g>\n");
}

// The symbols of a gate from the top, each with the line to it from the one before and the one from it down.
fn put_marks<O: Sink, G: Drawn>(writer: &mut Writer, sink: &mut O, gate: G, lines: u8)
    requires { lines ≤ MOST_LINES }
    ensures { Adds writer.old (O.view sink.old)
        (text_of_lines (flat_map (mark_lines (G.draws gate) lines) (range_with_len 0 lines)))
        writer.new (O.view sink.new) }
{
    let mut symbol = symbol_within(gate, lines, 0);
    let mut from_above = false;
    for line in 0..lines {
        let below = symbol_within(gate, lines, line + 1);
        let is_joined = are_joined(symbol, below);
        put_mark(writer, sink, line, symbol, from_above, is_joined);
        symbol = below;
        from_above = is_joined;
    }
}

// Whether a vertical leads from a symbol to the one below.
fn are_joined(symbol: Symbol, below: Symbol) -> bool
    ensures { result ≡ (is_on symbol && is_on below) }
{
    is_on(symbol) && is_on(below)
}

// The symbol on a line, if it is one of so many.
fn symbol_within<G: Drawn>(gate: G, lines: u8, line: u8) -> Symbol
    requires { lines ≤ MOST_LINES }
    ensures { result ≡ symbol_within (G.draws gate) lines line }
{
    if line < lines {
        gate.symbol_on(line)
    } else {
        Symbol::Wire
    }
}

fn put_mark<O: Sink>(
    writer: &mut Writer,
    sink: &mut O,
    line: u8,
    symbol: Symbol,
    from_above: bool,
    is_joined: bool,
)
    ensures { Adds writer.old (O.view sink.old)
        (text_of_lines (stroke_lines (stroke symbol from_above is_joined) line))
        writer.new (O.view sink.new) }
{
    if is_on(symbol) {
        writer.put(sink, b"<g transform=\"translate(0 ");
        writer.put_number(sink, middle_of_line(line));
        writer.put(sink, b")\">");
        put_up(writer, sink, symbol, from_above);
        put_down(writer, sink, symbol, is_joined);
        writer.put(sink, shape(symbol));
        writer.put(sink, b"</g>\n");
    }
}

fn put_up<O: Sink>(writer: &mut Writer, sink: &mut O, symbol: Symbol, on: bool)
    ensures { Adds writer.old (O.view sink.old) (up_if on symbol) writer.new (O.view sink.new) }
{
    if on {
        writer.put(sink, up(symbol));
    }
}

fn put_down<O: Sink>(writer: &mut Writer, sink: &mut O, symbol: Symbol, on: bool)
    ensures { Adds writer.old (O.view sink.old) (down_if on symbol) writer.new (O.view sink.new) }
{
    if on {
        writer.put(sink, down(symbol));
    }
}

// The line to a symbol from above.
fn up(symbol: Symbol) -> &'static [u8]
    ensures { result.now ≡ up_if true symbol }
{
    match symbol {
        Symbol::Negative => b"<line y1=\"-15\" y2=\"-5\"/>",
        Symbol::Middle => b"<line y1=\"-15\" y2=\"-8\"/>",
        Symbol::H | Symbol::T | Symbol::Tdg | Symbol::S | Symbol::Sdg | Symbol::Z | Symbol::Y =>
            b"<line y1=\"-15\" y2=\"-11\"/>",
        _ => b"<line y1=\"-15\" y2=\"0\"/>",
    }
}

// The line from a symbol down.
fn down(symbol: Symbol) -> &'static [u8]
    ensures { result.now ≡ down_if true symbol }
{
    match symbol {
        Symbol::Negative => b"<line y1=\"5\" y2=\"15\"/>",
        Symbol::Middle => b"<line y1=\"8\" y2=\"15\"/>",
        Symbol::H | Symbol::T | Symbol::Tdg | Symbol::S | Symbol::Sdg | Symbol::Z | Symbol::Y =>
            b"<line y1=\"11\" y2=\"15\"/>",
        _ => b"<line y1=\"0\" y2=\"15\"/>",
    }
}

fn shape(symbol: Symbol) -> &'static [u8]
    ensures { result.now ≡ shape symbol }
{
    match symbol {
        Symbol::Wire => b"",
        Symbol::Crossing => b"<line/>",
        Symbol::Positive => b"<circle r=\"4\" fill=\"currentColor\"/>",
        Symbol::Negative => b"<circle r=\"5\"/>",
        Symbol::Target => b"<circle r=\"10\"/><line y1=\"-10\" y2=\"10\"/>",
        Symbol::Exchanged => b"<path d=\"M-6-6L6 6M-6 6L6-6\"/>",
        Symbol::Middle => b"<circle r=\"8\"/><circle r=\"4\" fill=\"currentColor\"/>",
        Symbol::Zero =>
            b"<rect x=\"-11\" y=\"-11\" width=\"22\" height=\"22\"/><text y=\"5\" text-anchor=\"middle\" fill=\"currentColor\" stroke=\"none\">0</text>",
        Symbol::One =>
            b"<rect x=\"-11\" y=\"-11\" width=\"22\" height=\"22\"/><text y=\"5\" text-anchor=\"middle\" fill=\"currentColor\" stroke=\"none\">1</text>",
        Symbol::Wall => b"<line y1=\"-6\" y2=\"6\"/>",
        Symbol::H =>
            b"<rect x=\"-11\" y=\"-11\" width=\"22\" height=\"22\"/><text y=\"5\" text-anchor=\"middle\" fill=\"currentColor\" stroke=\"none\">H</text>",
        Symbol::T =>
            b"<rect x=\"-11\" y=\"-11\" width=\"22\" height=\"22\"/><text y=\"5\" text-anchor=\"middle\" fill=\"currentColor\" stroke=\"none\">T</text>",
        Symbol::Tdg =>
            b"<rect x=\"-11\" y=\"-11\" width=\"22\" height=\"22\"/><text y=\"5\" text-anchor=\"middle\" fill=\"currentColor\" stroke=\"none\">T\xe2\x80\xa0</text>",
        Symbol::S =>
            b"<rect x=\"-11\" y=\"-11\" width=\"22\" height=\"22\"/><text y=\"5\" text-anchor=\"middle\" fill=\"currentColor\" stroke=\"none\">S</text>",
        Symbol::Sdg =>
            b"<rect x=\"-11\" y=\"-11\" width=\"22\" height=\"22\"/><text y=\"5\" text-anchor=\"middle\" fill=\"currentColor\" stroke=\"none\">S\xe2\x80\xa0</text>",
        Symbol::Z =>
            b"<rect x=\"-11\" y=\"-11\" width=\"22\" height=\"22\"/><text y=\"5\" text-anchor=\"middle\" fill=\"currentColor\" stroke=\"none\">Z</text>",
        Symbol::Y =>
            b"<rect x=\"-11\" y=\"-11\" width=\"22\" height=\"22\"/><text y=\"5\" text-anchor=\"middle\" fill=\"currentColor\" stroke=\"none\">Y</text>",
    }
}
