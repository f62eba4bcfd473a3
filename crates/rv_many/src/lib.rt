//! Gates that act on 256 words at once.
//!
//! The words stand side by side: a row for each line, whose bit `j` is the bit that word `j` has on that
//! line. Contracts see word `j` as `column rows j`. A gate then takes a few steps for all words together.
#![tactic(auto)]

ghost use Rattle.std.specs.Prelude.{◌≡◌, ℕ, ◌<◌, length, All};
ghost use Rattle.rv_gate.specs.Gate.{act, holds, run, FitsIn, Within};
ghost use Rattle.rv_gate.specs.declared.gate.Shape.TheVariants.{Flip, Swap, Peres};
ghost use Rattle.rv_many.specs.Column.{column, row_bit};
ghost use Rattle.rv_many.specs.declared.words.TheConstants.{MOST_WORDS};

use rv_gate::{Gate, LineSet, Shape, has};

mod block;
mod row;
mod square;
mod words;

pub use block::{constant_row, number_row};
pub use row::{PART_WORDS, Row};
pub use words::{MOST_WORDS, run_words, set_rows, word_of};

/// What the gates make of each of [`MOST_WORDS`] words, one gate after another.
pub fn run_many(gates: &[Gate], rows: &mut [Row])
    requires { All (λ gate. FitsIn gate (length rows.old)) gates.now }
    ensures lines { length rows.new ≡ length rows.old }
    ensures words { (j : ℕ) → j < MOST_WORDS → column rows.new j ≡ run gates.now (column rows.old j) }
{
    for gate in gates {
        act_on_all(*gate, rows);
    }
}

/// What a gate makes of each of [`MOST_WORDS`] words.
pub fn act_on_all(gate: Gate, rows: &mut [Row])
    requires { FitsIn gate (length rows.old) }
    ensures lines { length rows.new ≡ length rows.old }
    ensures words { (j : ℕ) → j < MOST_WORDS → column rows.new j ≡ act gate (column rows.old j) }
{
    match gate.shape() {
        Shape::Flip { care, want, target } => flip_all(rows, care, want, target),
        Shape::Swap { care, want, a, b } => swap_all(rows, care, want, a, b),
        Shape::Peres { a, b, c } => peres_all(rows, a, b, c),
    }
}

fn flip_all(rows: &mut [Row], care: LineSet, want: LineSet, target: u8)
    requires { FitsIn (Flip care want target) (length rows.old) }
    ensures lines { length rows.new ≡ length rows.old }
    ensures words { (j : ℕ) → j < MOST_WORDS → column rows.new j ≡ act (Flip care want target) (column rows.old j) }
{
    let on = held(rows, care, want);
    let target = usize::from(target);
    rows[target] = rows[target].xor(on);
}

fn swap_all(rows: &mut [Row], care: LineSet, want: LineSet, a: u8, b: u8)
    requires { FitsIn (Swap care want a b) (length rows.old) }
    ensures lines { length rows.new ≡ length rows.old }
    ensures words { (j : ℕ) → j < MOST_WORDS → column rows.new j ≡ act (Swap care want a b) (column rows.old j) }
{
    let on = held(rows, care, want);
    let (a, b) = (usize::from(a), usize::from(b));
    let (x, y) = (rows[a], rows[b]);
    let differ = x.xor(y).and(on);
    rows[a] = x.xor(differ);
    rows[b] = y.xor(differ);
}

fn peres_all(rows: &mut [Row], a: u8, b: u8, c: u8)
    requires { FitsIn (Peres a b c) (length rows.old) }
    ensures lines { length rows.new ≡ length rows.old }
    ensures words { (j : ℕ) → j < MOST_WORDS → column rows.new j ≡ act (Peres a b c) (column rows.old j) }
{
    let (a, b, c) = (usize::from(a), usize::from(b), usize::from(c));
    let (x, y, z) = (rows[a], rows[b], rows[c]);
    rows[b] = y.xor(x);
    rows[c] = z.xor(x.and(y));
}

// The words in which each line of `care` has the bit that `want` gives.
fn held(rows: &[Row], care: LineSet, want: LineSet) -> Row
    requires { Within care (length rows.now) }
    ensures { (j : ℕ) → j < MOST_WORDS → row_bit result j ≡ holds care want (column rows.now j) }
{
    let mut on = Row::ones();
    let mut left = care;
    while left != 0 {
        let line = left.trailing_zeros();
        on = on.and(rows[line as usize].matching(has(want, line as u8)));
        left &= !(1 << line);
    }
    on
}
