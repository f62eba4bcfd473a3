ghost use Rattle.std.specs.Prelude.{◌≡◌, ◌<◌, ◌^◌, bit_or};
ghost use Rattle.rv_gate.specs.declared.word.TheConstants.{MOST_LINES};

use rv_gate::LineSet;

// The set with the line.
pub(crate) fn with_line(set: LineSet, line: u8) -> LineSet
    requires { line < MOST_LINES }
    ensures { result ≡ bit_or set (2 ^ line) }
{
    set | 1 << line
}
