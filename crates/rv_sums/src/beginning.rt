// How words begin: a line that is marked as constant holds its constant.
ghost use Rattle.std.specs.Prelude.{◌≡◌, ◌<◌, List, Bool, length, slice_index_or, IfOk, IsTrue};
ghost use Rattle.rv_gate.specs.Word.{bit_of};
ghost use Rattle.rv_gate.specs.declared.circuit.Mark.TheVariants.{Input};
ghost use Rattle.rv_gate.specs.declared.word.TheConstants.{MOST_LINES};
ghost use Rattle.rv_terms.specs.Products.{odd};
ghost use Rattle.rv_sums.specs.Finding.{HasConstants, may_begin};

use crate::path_sum::constant;
use rv_gate::{LineSet, MOST_LINES, Mark, Word};
use rv_terms::{Product, Sum};
use std::alloc::{AllocError, Global};

// A line that isn't marked begins with any bit.
pub(crate) fn mark_of(marks: &[Mark], line: u8) -> Mark
    ensures { result ≡ slice_index_or marks.now line Input }
{
    let at = usize::from(line);
    if at >= marks.len() {
        return Mark::Input;
    }
    marks[at]
}

fn may_begin(mark: Mark, bit: bool) -> bool
    ensures { result ≡ may_begin mark bit }
{
    match mark {
        Mark::Input => true,
        Mark::Zero => !bit,
        Mark::One => bit,
    }
}

// The bit that a line begins with, as a sum.
fn sum_of(alloc: Global, mark: Mark, line: u8) -> Result<Sum, AllocError>
    requires { line < MOST_LINES }
    ensures { IfOk result (λ sum. (x v : List Bool) → IsTrue (may_begin mark (bit_of x line))
        → odd sum x v ≡ bit_of x line) }
{
    match mark {
        Mark::Input => Sum::of(alloc, Product::of_line(line)),
        Mark::Zero => constant(alloc, false),
        Mark::One => constant(alloc, true),
    }
}

pub(crate) fn beginning(alloc: Global, marks: &[Mark], line: u8) -> Result<Sum, AllocError>
    requires { line < MOST_LINES }
    ensures { IfOk result (λ sum. (x v : List Bool) → HasConstants marks.now x → odd sum x v ≡ bit_of x line) }
{
    let mark = mark_of(marks, line);
    let sum = sum_of(alloc, mark, line)?;
    Ok(sum)
}

pub(crate) fn has_constants(marks: &[Mark], word: Word) -> bool
    ensures { IsTrue result → HasConstants marks.now word }
{
    if marks.len() > usize::from(word.len()) {
        return false;
    }
    for line in 0..word.len() {
        let mark = mark_of(marks, line);
        let bit = word.bit(line);
        if !may_begin(mark, bit) {
            return false;
        }
    }
    true
}

// The lines with this mark.
pub(crate) fn lines_with(marks: &[Mark], mark: Mark) -> LineSet {
    let mut lines: LineSet = 0;
    for line in 0..MOST_LINES {
        if mark_of(marks, line) == mark {
            lines |= 1 << line;
        }
    }
    lines
}

fn number_of_lines(len: u8, lines: LineSet) -> u64 {
    match Word::of_lines(len, lines) {
        Some(word) => word.number(),
        None => 0,
    }
}

// The number of a word that holds the constants, and has the bits of this one elsewhere.
pub(crate) fn begun(len: u8, marks: &[Mark], number: u64) -> u64 {
    let ones = number_of_lines(len, lines_with(marks, Mark::One));
    let zeros = number_of_lines(len, lines_with(marks, Mark::Zero));
    (number | ones) & !zeros
}
