// A label, as it is written.
ghost use Rattle.std.specs.Prelude.{◌≡◌, ◌==◌, ◌||◌, []};
ghost use Rattle.std.specs.List.{list_any};
ghost use Rattle.rv_io.specs.Writer.{Adds};
ghost use Rattle.rv_text.specs.Tokens.{is_blank};
ghost use Rattle.rv_real.specs.Text.{label_word, needs_quotes};

use rv_io::{Sink, Writer};

/// Adds a label to the text, in quotes if it needs them.
pub fn put_label<O: Sink>(writer: &mut Writer, sink: &mut O, label: &[u8])
    ensures { Adds writer.old (O.view sink.old) (label_word label.now) writer.new (O.view sink.new) }
{
    if needs_quotes(label) {
        writer.put(sink, b"\"");
        writer.put(sink, label);
        writer.put(sink, b"\"");
    } else {
        writer.put(sink, label);
    }
}

/// Whether a label stands in quotes: it is empty, or holds a blank or `#`.
pub fn needs_quotes(label: &[u8]) -> bool
    ensures { result ≡ needs_quotes label.now }
{
    label.is_empty() || has_gap(label)
}

fn has_gap(label: &[u8]) -> bool
    ensures { result ≡ list_any (λ c. is_blank [] c || c == 35) label.now }
{
    label
        .iter()
        .any(|&c| c == b' ' || c == b'\t' || c == b'\r' || c == b'#')
}
