ghost use Rattle.std.specs.Prelude.{◌≡◌, ℕ, Bool, List, ◌+◌, ◌-◌, ◌*◌, ◌<◌, ◌≤◌, [], ◌∷◌, ◌++◌, length, map, replicate};
ghost use Rattle.std.specs.Prelude.{slice_index_or};
ghost use Rattle.std.specs.List.{flat_map, count_by, range_with_len};
ghost use Rattle.std.specs.Fork.{slice_chunk};
ghost use Rattle.rv_io.specs.Sink.{Sends};
ghost use Rattle.rv_io.specs.Writer.{Adds};
ghost use Rattle.rv_text.specs.Spelled.{spelled};
ghost use Rattle.rv_gate.specs.declared.word.TheConstants.{MOST_LINES};
ghost use Rattle.rv_gate.specs.Gate.{run};
ghost use Rattle.rv_draw.specs.Symbols.{glyph};
ghost use Rattle.rv_draw.specs.Drawing.{begins_character, block_count, block_rows, cell, cells_on, drawing_of};
ghost use Rattle.rv_draw.specs.Drawing.{first_symbol, gap, last_symbol, pad_after, network_text, row_words, sheet_rows};
ghost use Rattle.rv_draw.specs.Drawing.{text_with, widest, width, wire_on};
ghost use Rattle.rv_draw.specs.Layout.{IsLaidOut};
ghost use Rattle.rv_draw.specs.Networks.{network_picture, network_shown};
ghost use Rattle.rv_draw.specs.Reading.{picture_of, shown};
ghost use Rattle.rv_draw.specs.declared.symbol.Symbol.TheVariants.{Wire};

use crate::symbol::cell;
use crate::{Drawn, Symbol};
use rv_gate::{Circuit, Mark};
use rv_io::{Sink, WriteFault, Writer};
use rv_net::Net;
use rv_real::{needs_quotes, put_label};

/// Sends the drawing of a circuit: a row for each line, and three characters for each gate.
///
/// A row has the label of the line's input, its wire, and the label of its output. Labels are written
/// as in the `.real` format. After each `per_block` gates a new block of rows begins, after an empty
/// line. Takes no memory.
pub fn write_drawing<O: Sink>(
    circuit: &Circuit,
    per_block: usize,
    sink: &mut O,
) -> Result<(), WriteFault>
    requires some { 1 ≤ per_block }
    ensures sends { Sends (O.view sink.old) (drawing_of per_block circuit.now) result (O.view sink.new) }

    // What was sent shows the circuit.
    ensures back { shown (drawing_of per_block circuit.now) ≡ Some (picture_of circuit.now) }

    // Its rows stand below one another, in blocks of so many gates at most.
    ensures laid_out { IsLaidOut per_block (drawing_of per_block circuit.now) }

    // The gates that it shows do what the circuit's do.
    ensures means { (word : List Bool) → run (picture_of circuit.now).gates word ≡ run circuit.now.gates word }
{
    circuit.recall_invariant();
    write_text(circuit, circuit.gates(), per_block, sink)
}

/// Sends the drawing of a network on the lines of a circuit, whose gates are not drawn. Takes no memory.
pub fn write_network<O: Sink>(
    lines: &Circuit,
    net: &Net,
    per_block: usize,
    sink: &mut O,
) -> Result<(), WriteFault>
    requires some { 1 ≤ per_block }
    ensures sends { Sends (O.view sink.old) (network_text per_block lines.now net.now.ops) result (O.view sink.new) }

    // What was sent shows the network, if it has as many lines.
    ensures back { length lines.now.names ≡ net.now.lines
        → network_shown (network_text per_block lines.now net.now.ops)
        ≡ Some (network_picture lines.now net.now.ops) }

    // Its rows stand below one another, in blocks of so many operations at most.
    ensures laid_out { IsLaidOut per_block (network_text per_block lines.now net.now.ops) }
{
    lines.recall_invariant();
    net.recall_invariant();
    write_text(lines, net.ops(), per_block, sink)
}

// Sends the drawing of such gates on a circuit's lines.
fn write_text<O: Sink, G: Drawn>(
    circuit: &Circuit,
    gates: &[G],
    per_block: usize,
    sink: &mut O,
) -> Result<(), WriteFault>
    requires some { 1 ≤ per_block }
    ensures { Sends (O.view sink.old) (text_with G.draws per_block circuit.now gates.now) result (O.view sink.new) }
{
    let most = widest_label(circuit);
    let mut writer = Writer::new();
    put_blocks(&mut writer, sink, circuit, gates, per_block, most);
    writer.finish(sink)
}

// All blocks.
fn put_blocks<O: Sink, G: Drawn>(
    writer: &mut Writer,
    sink: &mut O,
    circuit: &Circuit,
    gates: &[G],
    per_block: usize,
    most: usize,
)
    requires some { 1 ≤ per_block }
    requires most { most ≡ widest circuit.now.input_labels }
    ensures { Adds writer.old (O.view sink.old)
        (spelled (flat_map (block_rows G.draws per_block circuit.now gates.now)
        (range_with_len 0 (block_count per_block (length gates.now)))))
        writer.new (O.view sink.new) }
{
    for block in 0..block_count(per_block, gates.len()) {
        put_block(writer, sink, circuit, gates, per_block, block, most);
    }
}

/// How many blocks there are for so many gates.
pub fn block_count(per_block: usize, gates: usize) -> usize
    requires { 1 ≤ per_block }
    ensures { result ≡ block_count per_block gates }
{
    match gates.checked_sub(1) {
        Some(before) => before / per_block + 1,
        None => 1,
    }
}

// One block.
fn put_block<O: Sink, G: Drawn>(
    writer: &mut Writer,
    sink: &mut O,
    circuit: &Circuit,
    gates: &[G],
    per_block: usize,
    block: usize,
    most: usize,
)
    requires within { block * per_block ≤ length gates.now }
    requires most { most ≡ widest circuit.now.input_labels }
    ensures { Adds writer.old (O.view sink.old)
        (spelled (block_rows G.draws per_block circuit.now gates.now block))
        writer.new (O.view sink.new) }
{
    put_gap(writer, sink, block);
    let chunk = gates_of_block(gates, per_block, block);
    put_rows(writer, sink, circuit, chunk, most);
}

// The empty line before each block but the first.
fn put_gap<O: Sink>(writer: &mut Writer, sink: &mut O, block: usize)
    ensures { Adds writer.old (O.view sink.old) (spelled (gap block)) writer.new (O.view sink.new) }
{
    if block != 0 {
        writer.put(sink, b"\n");
    }
}

/// The gates of a block.
pub fn gates_of_block<G: Drawn>(gates: &[G], per_block: usize, block: usize) -> &[G]
    requires { block * per_block ≤ length gates.now }
    ensures { result.now ≡ slice_chunk gates.now per_block block }
{
    let from = block * per_block;
    let count = per_block.min(gates.len() - from);
    &gates[from..from + count]
}

// A row for each line.
fn put_rows<O: Sink, G: Drawn>(
    writer: &mut Writer,
    sink: &mut O,
    circuit: &Circuit,
    gates: &[G],
    most: usize,
)
    requires { most ≡ widest circuit.now.input_labels }
    ensures { Adds writer.old (O.view sink.old)
        (spelled (sheet_rows G.draws circuit.now gates.now))
        writer.new (O.view sink.new) }
{
    for line in 0..circuit.line_count() {
        put_row(writer, sink, circuit, gates, most, line);
    }
}

// How many characters the widest label of an input has, as it is written.
fn widest_label(circuit: &Circuit) -> usize
    ensures { result ≡ widest circuit.now.input_labels }
{
    let mut widest = 0;
    for line in 0..circuit.line_count() {
        let width = width(circuit.input_label(line));
        if width > widest {
            widest = width;
        }
    }
    widest
}

// How many characters a label has, as it is written.
fn width(label: &[u8]) -> usize
    ensures { result ≡ width label.now }
{
    let characters = character_count(label);
    if needs_quotes(label) {
        characters.saturating_add(2)
    } else {
        characters
    }
}

// How many bytes begin a character of UTF-8.
fn character_count(label: &[u8]) -> usize
    ensures { result ≡ count_by begins_character label.now }
{
    label.iter().filter(|&byte| byte / 64 != 2).count()
}

// One row.
fn put_row<O: Sink, G: Drawn>(
    writer: &mut Writer,
    sink: &mut O,
    circuit: &Circuit,
    gates: &[G],
    most: usize,
    line: u8,
)
    requires line { line < length circuit.now.names }
    requires most { most ≡ widest circuit.now.input_labels }
    ensures { Adds writer.old (O.view sink.old)
        (spelled (row_words G.draws circuit.now gates.now line ∷ []))
        writer.new (O.view sink.new) }
{
    let label = circuit.input_label(line);
    put_label(writer, sink, label);
    writer.put(sink, b" ");
    let pad = most.saturating_sub(width(label));
    put_wire(writer, sink, circuit, gates, pad, line);
    writer.put(sink, b" ");
    put_label(writer, sink, circuit.output_label(line));
    writer.put(sink, b"\n");
}

// The wire of a line, with so many symbols more at its beginning.
fn put_wire<O: Sink, G: Drawn>(
    writer: &mut Writer,
    sink: &mut O,
    circuit: &Circuit,
    gates: &[G],
    pad: usize,
    line: u8,
)
    requires line { line < length circuit.now.names }
    requires pad { pad ≡ pad_after circuit.now.input_labels (slice_index_or circuit.now.input_labels line []) }
    ensures { Adds writer.old (O.view sink.old)
        (flat_map glyph (wire_on G.draws circuit.now gates.now line))
        writer.new (O.view sink.new) }
{
    circuit.recall_invariant();
    put_symbol(writer, sink, first_symbol(circuit.constant(line)));
    put_pad(writer, sink, pad);
    put_cells(writer, sink, gates, line);
    put_symbol(writer, sink, last_symbol(circuit.garbage(line)));
}

fn put_symbol<O: Sink>(writer: &mut Writer, sink: &mut O, symbol: Symbol)
    ensures { Adds writer.old (O.view sink.old) (glyph symbol) writer.new (O.view sink.new) }
{
    writer.put(sink, symbol.glyph());
}

// So many symbols of the wire.
fn put_pad<O: Sink>(writer: &mut Writer, sink: &mut O, pad: usize)
    ensures { Adds writer.old (O.view sink.old) (flat_map glyph (replicate pad Wire)) writer.new (O.view sink.new) }
{
    for _ in 0..pad {
        put_symbol(writer, sink, Symbol::Wire);
    }
}

// What the gates draw on a line.
fn put_cells<O: Sink, G: Drawn>(writer: &mut Writer, sink: &mut O, gates: &[G], line: u8)
    requires { line < MOST_LINES }
    ensures { Adds writer.old (O.view sink.old)
        (flat_map glyph (cells_on G.draws line gates.now))
        writer.new (O.view sink.new) }
{
    for gate in gates {
        put_cell(writer, sink, *gate, line);
    }
}

// What a gate draws on a line.
fn put_cell<O: Sink, G: Drawn>(writer: &mut Writer, sink: &mut O, gate: G, line: u8)
    requires { line < MOST_LINES }
    ensures { Adds writer.old (O.view sink.old)
        (flat_map glyph (cell (G.draws gate line)))
        writer.new (O.view sink.new) }
{
    writer.put(sink, cell(gate.symbol_on(line)));
}

// How a wire begins.
fn first_symbol(constant: Mark) -> Symbol
    ensures { result ≡ first_symbol constant }
{
    match constant {
        Mark::Input => Symbol::Wire,
        Mark::Zero => Symbol::Zero,
        Mark::One => Symbol::One,
    }
}

// How a wire ends.
fn last_symbol(garbage: bool) -> Symbol
    ensures { result ≡ last_symbol garbage }
{
    if garbage { Symbol::Wall } else { Symbol::Wire }
}
