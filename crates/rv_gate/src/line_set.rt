ghost use Rattle.std.specs.Prelude.{◌≡◌, ◌<◌};
ghost use Rattle.rv_gate.specs.Word.{has};

use crate::MOST_LINES;

/// A set of lines: line `i` is in it where its bit of value 2^`i` is 1.
pub type LineSet = u64;

/// Whether a set has the line.
pub fn has(lines: LineSet, line: u8) -> bool
    requires { line < MOST_LINES }
    ensures { result ≡ has lines line }
{
    lines >> line & 1 == 1
}
