ghost use Rattle.std.specs.Prelude.{◌≡◌, ◌==◌, length, map, Some};
ghost use Rattle.rv_io.specs.Writer.{Adds};
ghost use Rattle.rv_text.specs.Spelled.{spelled};
ghost use Rattle.rv_marks.specs.Row.{mark_lines, row_of_marks};

use crate::RowMark;
use rv_gate::Mark;
use rv_io::{Sink, Writer};

/// Adds a row of marks to a text.
pub fn put_row<M: RowMark, O: Sink>(writer: &mut Writer, sink: &mut O, marks: &[M])
    ensures adds { Adds writer.old (O.view sink.old) (map M.byte_of marks.now) writer.new (O.view sink.new) }

    // What was added is that row.
    ensures back { row_of_marks M.mark_of (length marks.now) (map M.byte_of marks.now) ≡ Some marks.now }
{
    for mark in marks {
        writer.put(sink, &[mark.byte()]);
    }
}

/// Adds `.constants` and `.garbage`, each with its row.
pub fn put_marks<O: Sink>(writer: &mut Writer, sink: &mut O, constants: &[Mark], garbage: &[bool])
    ensures { Adds writer.old (O.view sink.old) (spelled (mark_lines constants.now garbage.now)) writer.new
        (O.view sink.new) }
{
    writer.put(sink, b".constants ");
    put_row(writer, sink, constants);
    writer.put(sink, b"\n.garbage ");
    put_row(writer, sink, garbage);
    writer.put(sink, b"\n");
}
