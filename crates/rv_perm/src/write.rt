ghost use Rattle.std.specs.Prelude.{◌≡◌, ◌≤◌, ◌<◌, ◌++◌, Ok};
ghost use Rattle.rv_io.specs.Sink.{Sends};
ghost use Rattle.rv_io.specs.Writer.{Adds};
ghost use Rattle.rv_text.specs.Spelled.{spelled};
ghost use Rattle.rv_perm.specs.Text.{number_lines, text_of};
ghost use Rattle.rv_perm.specs.inside.Cells.{cell, next_column, row_end};
ghost use Rattle.rv_perm.specs.Reading.{permutation_of};
ghost use Rattle.rv_perm.specs.declared.write.TheConstants.{COLUMNS};

use crate::perm::Perm;
use crate::spec::PermSpec;
use rv_io::{Sink, WriteFault, Writer};
use rv_marks::put_marks;

// How many numbers stand on a line.
const COLUMNS: u8 = 16;

/// Sends the text of a permutation: `.constants` and `.garbage` with their rows, and then the
/// numbers, sixteen to a line. Takes no memory.
pub fn write_perm<O: Sink>(spec: &PermSpec, sink: &mut O) -> Result<(), WriteFault>
    ensures sends { Sends (O.view sink.old) (text_of spec.now) result (O.view sink.new) }

    // What was sent denotes the permutation.
    ensures back { permutation_of (text_of spec.now) ≡ Ok spec.now }
{
    let perm = spec.perm();
    let mut writer = Writer::new();
    put_marks(&mut writer, sink, spec.constants(), spec.garbage_marks());
    put_numbers(&mut writer, sink, perm);
    writer.finish(sink)
}

// The numbers, sixteen to a line.
fn put_numbers<O: Sink>(writer: &mut Writer, sink: &mut O, perm: &Perm)
    ensures { Adds writer.old (O.view sink.old) (spelled (number_lines perm.now.images)) writer.new (O.view sink.new) }
{
    let mut column = 0;
    for x in 0..1u32 << perm.lines() {
        put_cell(writer, sink, column, perm.get(x));
        column = next_column(column);
    }
    put_row_end(writer, sink, column);
}

// A number at its column.
fn put_cell<O: Sink>(writer: &mut Writer, sink: &mut O, column: u8, number: u32)
    requires { column < COLUMNS }
    ensures { Adds writer.old (O.view sink.old) (cell column number) writer.new (O.view sink.new) }
{
    if column > 0 {
        writer.put(sink, b" ");
    }
    writer.put_number(sink, u128::from(number));
    if column + 1 == COLUMNS {
        writer.put(sink, b"\n");
    }
}

fn next_column(column: u8) -> u8
    requires { column < COLUMNS }
    ensures next { result ≡ next_column column }
    ensures bound { result < COLUMNS }
{
    if column + 1 == COLUMNS { 0 } else { column + 1 }
}

// The end of a line that was begun.
fn put_row_end<O: Sink>(writer: &mut Writer, sink: &mut O, column: u8)
    ensures { Adds writer.old (O.view sink.old) (row_end column) writer.new (O.view sink.new) }
{
    if column > 0 {
        writer.put(sink, b"\n");
    }
}
