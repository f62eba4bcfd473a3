ghost use Rattle.std.specs.Prelude.{◌≡◌, ◌≤◌, length, take};
ghost use Rattle.rv_gate.specs.declared.word.TheConstants.{MOST_LINES};
ghost use Rattle.rv_mct.specs.Blocks.{count_lines};
ghost use Rattle.rv_search.specs.Lines.{ListsTo, span};

use rv_gate::{Gate, LineSet, MOST_LINES, has};

/// The lines that the gates touch.
pub fn span(gates: &[Gate]) -> LineSet
    ensures { result ≡ span gates.now }
{
    let mut lines = 0;
    for gate in gates {
        lines |= gate.touched();
    }
    lines
}

/// Lists the lines of a set, and says how many these are.
pub fn list_lines(set: LineSet, room: &mut [u8]) -> usize
    requires { length room.old ≡ MOST_LINES }
    ensures count { result ≡ count_lines set }
    ensures within { result ≤ MOST_LINES }
    ensures room { length room.new ≡ length room.old }
    ensures lists { ListsTo set MOST_LINES (take result room.new) }
{
    let mut count = 0;
    for line in 0..MOST_LINES {
        if has(set, line) {
            room[count] = line;
            count += 1;
        }
    }
    count
}
