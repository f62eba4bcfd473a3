// Operations followed one after the other: where they take the lines' parities, and which phases they bring.
ghost use Rattle.std.specs.Prelude.{◌≡◌, ◌<◌, ◌≤◌, ◌+◌, ℕ, Bool, true, List, ◌∷◌, length, IfOk, IsTrue};
ghost use Rattle.rv_gate.specs.Word.{bit_of};
ghost use Rattle.rv_net.specs.Amplitude.{count_h};
ghost use Rattle.rv_paths.specs.Paths.{AreSame, next_after};
ghost use Rattle.rv_paths.specs.inside.Parity.{parity};
ghost use Rattle.rv_paths.specs.inside.Phases.{part, path_at, power, word_at};
ghost use Rattle.rv_paths.specs.inside.Follows.{Follows, IsRegion};

use crate::arranging::{arranged, places};
use crate::masks::{alone, are_same};
use crate::phases::Phases;
use crate::rows::{Row, is_linear, pass, turn};
use rv_net::Op;
use std::alloc::{AllocError, Global};

// The variable that the next H takes.
fn fresh_at(alloc: Global, columns: &[usize], next: usize) -> Result<Vec<bool>, AllocError>
    ensures { IfOk result (λ mask. (u : List Bool) → parity mask.items (true ∷ u) ≡ bit_of (path_at columns.now u) next) }
{
    if next < columns.len() {
        alone(alloc, columns[next])
    } else {
        Ok(Vec::new(alloc))
    }
}

// Each line by itself.
fn start(alloc: Global, lines: u8) -> Result<Vec<Row>, AllocError>
    ensures count { IfOk result (λ rows. length rows.items ≡ lines) }
    ensures words { IfOk result (λ rows. (u : List Bool) → word_at rows.items u ≡ part 0 lines u) }
{
    let mut rows = Vec::new(alloc);
    for line in 0..lines {
        let mask = alone(alloc, usize::from(line) + 1)?;
        rows.push(Row { mask })?;
    }
    Ok(rows)
}

fn next_after(op: Op, next: usize) -> usize
    requires { next < 9223372036854775808 }
    ensures next { result ≡ next_after op next }
    ensures few { result ≤ next + 1 }
{
    match op {
        Op::H(_) => next + 1,
        _ => next,
    }
}

// Adds a multiple of the power of w that the operations bring, and answers the parities after them.
fn follow(
    alloc: Global,
    phases: &mut Phases,
    lines: u8,
    ops: &[Op],
    columns: &[usize],
    factor: u8,
) -> Result<Vec<Row>, AllocError>
    requires region { IsRegion lines ops.now }
    requires factor { factor < 8 }
    ensures { IfOk result (λ rows. Follows phases.old phases.new lines ops.now columns.now factor rows.items) }
{
    let mut rows = start(alloc, lines)?;
    let mut next = 0;
    let mut fresh = fresh_at(alloc, columns, 0)?;
    for op in ops {
        turn(alloc, phases, &rows, *op, &fresh, factor)?;
        pass(alloc, &mut rows, *op, &fresh)?;
        next = next_after(*op, next);
        fresh = fresh_at(alloc, columns, next)?;
    }
    Ok(rows)
}

// Whether all operations fit and are linear.
fn is_region(lines: u8, ops: &[Op]) -> bool
    ensures { IsTrue result → IsRegion lines ops.now }
{
    ops.iter().all(|op| op.fits(lines) && is_linear(*op))
}

fn count_h(ops: &[Op]) -> usize
    ensures { result ≡ count_h ops.now }
{
    let mut count = 0;
    for op in ops {
        count = next_after(*op, count);
    }
    count
}

// So many columns after those of the lines.
fn columns(alloc: Global, first: usize, count: usize) -> Result<Vec<usize>, AllocError>
    requires { first + count < 9223372036854775808 }
    ensures { IfOk result (λ list. (u : List Bool) → path_at list.items u ≡ part first count (true ∷ u)) }
{
    let mut list = Vec::new(alloc);
    for place in 0..count {
        list.push(first + place)?;
    }
    Ok(list)
}

fn same_rows(first: &[Row], second: &[Row]) -> bool
    ensures { IsTrue result → (u : List Bool) → word_at first.now u ≡ word_at second.now u }
{
    if first.len() != second.len() {
        return false;
    }
    for line in 0..first.len() {
        if !are_same(&first[line].mask, &second[line].mask) {
            return false;
        }
    }
    true
}

// More H are never compared.
const MOST_H: usize = 1 << 20;

/// Whether two networks are seen to have the same amplitudes, as the same sum over paths: both have as many H, each of
/// them takes the same bit of a path in both (the k-th on a line that of the k-th on this line), and then both end in the same words and bring the same phases.
///
/// They are not if an operation of one doesn't fit or has two controls.
pub fn have_same_sums(
    alloc: Global,
    lines: u8,
    first: &[Op],
    second: &[Op],
) -> Result<bool, AllocError>
    ensures { IfOk result (λ same. IsTrue same → AreSame lines first.now second.now) }
{
    if !is_region(lines, first) || !is_region(lines, second) {
        return Ok(false);
    }
    let count = count_h(first);
    let other = count_h(second);
    if count != other || count > MOST_H {
        return Ok(false);
    }
    let taken = columns(alloc, usize::from(lines) + 1, count)?;
    let order = places(alloc, first, second)?;
    let permuted = match arranged(alloc, &order, &taken)? {
        Some(permuted) => permuted,
        None => return Ok(false),
    };
    let mut phases = Phases::new(alloc);
    let one = follow(alloc, &mut phases, lines, first, &taken, 1)?;
    let two = follow(alloc, &mut phases, lines, second, &permuted, 7)?;
    if !same_rows(&one, &two) {
        return Ok(false);
    }
    phases.vanish(alloc, usize::from(lines) + 1 + count)
}
