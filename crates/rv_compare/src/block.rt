// A block: the words of 256 numbers in a row, side by side.
ghost use Rattle.std.specs.Prelude.{ℕ, ◌≡◌, ◌+◌, ◌*◌, ◌^◌, ◌<◌, ◌≤◌, length, take, IsTrue};
ghost use Rattle.std.specs.Bool.{Decides};
ghost use Rattle.rv_gate.specs.Marks.{input_count, output_count, with_constants, without_garbage};
ghost use Rattle.rv_gate.specs.Word.{has, word_of};
ghost use Rattle.rv_gate.specs.declared.word.TheConstants.{MOST_LINES};
ghost use Rattle.rv_many.specs.Column.{column, row_bit};
ghost use Rattle.rv_many.specs.declared.words.TheConstants.{MOST_WORDS};
ghost use Rattle.rv_compare.specs.Compare.{asked, function_of, size_of};
ghost use Rattle.rv_compare.specs.declared.comparison.TheConstants.{MOST_INPUTS};
ghost use Rattle.rv_compare.specs.inside.Least.{IsFirstFailing};
ghost use Rattle.rv_compare.specs.inside.Rows.{put_bit};

use crate::marks::{constants_of, garbage_of, takes_input};
use rv_gate::{Circuit, MOST_LINES, Mark};
use rv_many::{MOST_WORDS, Row, constant_row, number_row, run_many};

/// How many words a block has.
pub(crate) const BLOCK: u32 = MOST_WORDS as u32;

// How many words there are of so many bits.
pub(crate) fn word_count(bits: u8) -> u32
    requires { bits ≤ MOST_INPUTS }
    ensures { result ≡ 2 ^ bits }
{
    1 << bits
}

// The row of a line, where a bit of each number of a block is put in.
fn line_row(mark: Mark, block: u32, bit: u8) -> Row
    requires { bit < MOST_LINES }
    ensures { (j : ℕ) → j < MOST_WORDS → row_bit result j ≡ put_bit mark (has (MOST_WORDS * block + j) bit) }
{
    match mark {
        Mark::Input => number_row(block, bit),
        Mark::Zero => constant_row(false),
        Mark::One => constant_row(true),
    }
}

// Puts in the words of a block, among the constants.
pub(crate) fn put_in(marks: &[Mark], block: u32, rows: &mut [Row])
    requires lines { length rows.old ≡ length marks.now }
    requires few { length marks.now ≤ MOST_LINES }
    ensures lines { length rows.new ≡ length rows.old }
    ensures words { (j : ℕ) → j < MOST_WORDS
        → column rows.new j ≡ with_constants marks.now (word_of (input_count marks.now) (MOST_WORDS * block + j)) }
{
    let mut bit = 0;
    for line in (0..rows.len()).rev() {
        let mark = marks[line];
        rows[line] = line_row(mark, block, bit);
        bit += u8::from(takes_input(mark));
    }
}

// Moves the rows of the lines that aren't garbage to the front, in order. Says how many these are.
pub(crate) fn keep_outputs(garbage: &[bool], rows: &mut [Row]) -> usize
    requires { length garbage.now ≡ length rows.old }
    ensures lines { length rows.new ≡ length rows.old }
    ensures count { result ≡ output_count garbage.now }
    ensures within { result ≤ length rows.old }
    ensures words { (j : ℕ) → column (take result rows.new) j ≡ without_garbage garbage.now (column rows.old j) }
{
    let mut kept = 0;
    for line in 0..rows.len() {
        if !garbage[line] {
            rows[kept] = rows[line];
            kept += 1;
        }
    }
    kept
}

// Sets the first rows to what the function of a circuit gives at the words of a block. Says how many these are.
pub(crate) fn give_outputs(circuit: &Circuit, all: bool, block: u32, rows: &mut [Row]) -> usize
    requires { length rows.old ≡ length circuit.now.names }
    ensures lines { length rows.new ≡ length rows.old }
    ensures count { result ≡ (size_of (asked all circuit.now)).outputs }
    ensures within { result ≤ length rows.old }
    ensures words { (j : ℕ) → j < MOST_WORDS → column (take result rows.new) j
        ≡ function_of (asked all circuit.now)
        (word_of (size_of (asked all circuit.now)).inputs (MOST_WORDS * block + j)) }
{
    circuit.recall_invariant();
    put_in(constants_of(circuit, all), block, rows);
    run_many(circuit.gates(), rows);
    keep_outputs(garbage_of(circuit, all), rows)
}

// The places at which both sides have the same word.
pub(crate) fn agreement(a: &[Row], b: &[Row]) -> Row
    requires { length a.now ≡ length b.now }
    ensures { (j : ℕ) → j < MOST_WORDS → Decides (row_bit result j) (column a.now j ≡ column b.now j) }
{
    let mut same = Row::ones();
    for line in 0..a.len() {
        same = same.and(a[line].xor(b[line]).matching(false));
    }
    same
}

// The first of so many places that has the bit 0.
pub(crate) fn first_zero(row: Row, count: u32) -> Option<u32>
    requires { count ≤ MOST_WORDS }
    ensures { IsFirstFailing count (λ j. IsTrue (row_bit row j)) result }
{
    for place in 0..count {
        if !row.bit(place as usize) {
            return Some(place);
        }
    }
    None
}
