// A block: the words of 256 numbers in a row, side by side.
ghost use Rattle.std.specs.Prelude.{◌≡◌, ℕ, ◌+◌, ◌*◌, ◌<◌, ◌≤◌, Bool, List, length, All, IsTrue, IsFalse, ◌≢◌};
ghost use Rattle.rv_gate.specs.Word.{has, bit_of};
ghost use Rattle.rv_many.specs.Column.{column, row_bit};
ghost use Rattle.rv_many.specs.declared.words.TheConstants.{MOST_WORDS};
ghost use Rattle.rv_resynth.specs.declared.lines.TheConstants.{MOST_WINDOW_LINES};
ghost use Rattle.rv_resynth.specs.inside.Lines.{AlikeOn, number_on};

use rv_many::{Row, number_row};

// Sets the rows of some lines to the words of a block.
pub(crate) fn put_in(lines: &[u8], block: u32, rows: &mut [Row])
    requires few { length lines.now ≤ MOST_WINDOW_LINES }
    requires within { All (λ line. line < length rows.old) lines.now }
    ensures lines { length rows.new ≡ length rows.old }
    ensures words { (word : List Bool) (j : ℕ) → j < MOST_WORDS → number_on lines.now word ≡ MOST_WORDS * block + j
        → AlikeOn lines.now (column rows.new j) word }
{
    for bit in 0..lines.len() {
        rows[usize::from(lines[bit])] = number_row(block, bit as u8);
    }
}

// Whether both sides have the same words.
pub(crate) fn same_rows(a: &[Row], b: &[Row]) -> bool
    requires { length a.now ≡ length b.now }
    ensures same { IsTrue result → (j : ℕ) → j < MOST_WORDS → column a.now j ≡ column b.now j }
    ensures differ { IsFalse result → (j : ℕ) × (j < MOST_WORDS) × (column a.now j ≢ column b.now j) }
{
    for line in 0..a.len() {
        if !same_parts(a[line], b[line]) {
            return false;
        }
    }
    true
}

// Whether two rows have the same bits.
fn same_parts(a: Row, b: Row) -> bool
    ensures same { IsTrue result → (j : ℕ) → j < MOST_WORDS → row_bit a j ≡ row_bit b j }
    ensures differ { IsFalse result → (j : ℕ) × (j < MOST_WORDS) × (row_bit a j ≢ row_bit b j) }
{
    for part in 0..4 {
        if a.parts[part] != b.parts[part] {
            return false;
        }
    }
    true
}
