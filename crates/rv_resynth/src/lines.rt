ghost use Rattle.std.specs.Prelude.{◌^◌, ◌*◌, ◌≤◌};
ghost use Rattle.rv_resynth.specs.declared.lines.TheConstants.{MOST_WINDOW_LINES};
ghost use Rattle.rv_many.specs.declared.words.TheConstants.{MOST_WORDS};

/// The most lines of gates that are compared.
pub const MOST_WINDOW_LINES: usize = 16;

// In how many blocks all words of so many lines are.
pub(crate) fn block_count(lines: usize) -> u32
    requires { lines ≤ MOST_WINDOW_LINES }
    ensures { 2 ^ lines ≤ MOST_WORDS * result }
{
    if lines <= 8 { 1 } else { 1 << (lines - 8) }
}
