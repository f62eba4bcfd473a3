// The parities of variables that lines hold, and what operations make of them.
ghost use Rattle.std.specs.Prelude.{◌≡◌, ◌<◌, ◌+◌, ◌*◌, ◌%◌, ◌&&◌, ℕ, Bool, true, not, List, ◌∷◌, length, slice_set, OnOk, IfOk, IsTrue, if◌then◌else◌};
ghost use Rattle.rv_gate.specs.Word.{bit_of};
ghost use Rattle.rv_net.specs.Op.{OpFitsIn};
ghost use Rattle.rv_paths.specs.Paths.{goes_by, turn_by};
ghost use Rattle.rv_paths.specs.inside.Parity.{parity};
ghost use Rattle.rv_paths.specs.inside.Phases.{is_linear, path_at, power, word_at};

use crate::masks::{alone, combined, copied};
use crate::phases::Phases;
use rv_net::Op;
use std::alloc::{AllocError, Global};

/// The variables whose parity is on a line.
#[derive(Drop)]
pub(crate) struct Row {
    pub(crate) mask: Vec<bool>,
}

pub(crate) fn is_linear(op: Op) -> bool
    ensures { result ≡ is_linear op }
{
    match op {
        Op::Ccx(_, _, _) | Op::Cswap(_, _, _) => false,
        _ => true,
    }
}

// The variables of a line.
fn mask_of(rows: &[Row], line: u8) -> &[bool]
    requires { line < length rows.now }
    ensures { (u : List Bool) → parity result.now (true ∷ u) ≡ bit_of (word_at rows.now u) line }
{
    &rows[usize::from(line)].mask
}

fn set_row(rows: &mut Vec<Row>, line: u8, mask: Vec<bool>)
    requires { line < length rows.old.items }
    ensures count { length rows.new.items ≡ length rows.old.items }
    ensures words { (u : List Bool) → word_at rows.new.items u ≡ slice_set (word_at rows.old.items u) line (parity mask.items (true ∷ u)) }
{
    rows[usize::from(line)] = Row { mask };
}

// Adds a multiple of a weight where a parity is 1.
fn add_at(
    alloc: Global,
    phases: &mut Phases,
    mask: &[bool],
    factor: u8,
    weight: u8,
) -> Result<(), AllocError>
    requires factor { factor < 8 }
    requires weight { weight < 8 }
    ensures { OnOk result ((u : List Bool) → power phases.new u % 8
        ≡ (power phases.old u + factor * (if parity mask.now (true ∷ u) then weight else 0)) % 8) }
{
    phases.add(copied(alloc, mask)?, factor * weight % 8)?;
    Ok(())
}

// Adds a multiple of 4 where two parities are 1.
fn add_product(
    alloc: Global,
    phases: &mut Phases,
    first: &[bool],
    second: &[bool],
    factor: u8,
) -> Result<(), AllocError>
    requires factor { factor < 8 }
    ensures { OnOk result ((u : List Bool) → power phases.new u % 8
        ≡ (power phases.old u + factor * (if parity first.now (true ∷ u) && parity second.now (true ∷ u) then 4 else 0)) % 8) }
{
    add_at(alloc, phases, first, factor, 2)?;
    add_at(alloc, phases, second, factor, 2)?;
    let both = combined(alloc, first, second)?;
    add_at(alloc, phases, &both, factor, 6)?;
    Ok(())
}

fn add_y(alloc: Global, phases: &mut Phases, mask: &[bool], factor: u8) -> Result<(), AllocError>
    requires factor { factor < 8 }
    ensures { OnOk result ((u : List Bool) → power phases.new u % 8
        ≡ (power phases.old u + factor * (if parity mask.now (true ∷ u) then 6 else 2)) % 8) }
{
    phases.add_constant(factor * 2 % 8);
    add_at(alloc, phases, mask, factor, 4)?;
    Ok(())
}

// Adds a multiple of the power of w that an operation brings.
pub(crate) fn turn(
    alloc: Global,
    phases: &mut Phases,
    rows: &[Row],
    op: Op,
    fresh: &[bool],
    factor: u8,
) -> Result<(), AllocError>
    requires fits { OpFitsIn op (length rows.now) }
    requires linear { IsTrue (is_linear op) }
    requires factor { factor < 8 }
    ensures { OnOk result ((u : List Bool) → power phases.new u % 8
        ≡ (power phases.old u + factor * turn_by op (parity fresh.now (true ∷ u)) (word_at rows.now u)) % 8) }
{
    match op {
        Op::T(q) => add_at(alloc, phases, mask_of(rows, q), factor, 1),
        Op::S(q) => add_at(alloc, phases, mask_of(rows, q), factor, 2),
        Op::Z(q) => add_at(alloc, phases, mask_of(rows, q), factor, 4),
        Op::Sdg(q) => add_at(alloc, phases, mask_of(rows, q), factor, 6),
        Op::Tdg(q) => add_at(alloc, phases, mask_of(rows, q), factor, 7),
        Op::Y(q) => add_y(alloc, phases, mask_of(rows, q), factor),
        Op::Cz(a, b) => add_product(alloc, phases, mask_of(rows, a), mask_of(rows, b), factor),
        Op::H(q) => add_product(alloc, phases, mask_of(rows, q), fresh, factor),
        _ => Ok(()),
    }
}

// Complements a line.
fn complement(alloc: Global, rows: &mut Vec<Row>, line: u8) -> Result<(), AllocError>
    requires { line < length rows.old.items }
    ensures { OnOk result ((length rows.new.items ≡ length rows.old.items)
        × ((u : List Bool) → word_at rows.new.items u ≡ slice_set (word_at rows.old.items u) line (not (bit_of (word_at rows.old.items u) line)))) }
{
    let one = alone(alloc, 0)?;
    let mask = combined(alloc, &one, mask_of(rows, line))?;
    set_row(rows, line, mask);
    Ok(())
}

// What an operation makes of the parities on lines.
pub(crate) fn pass(
    alloc: Global,
    rows: &mut Vec<Row>,
    op: Op,
    fresh: &[bool],
) -> Result<(), AllocError>
    requires fits { OpFitsIn op (length rows.old.items) }
    requires linear { IsTrue (is_linear op) }
    ensures { OnOk result ((length rows.new.items ≡ length rows.old.items)
        × ((u : List Bool) → word_at rows.new.items u ≡ goes_by op (parity fresh.now (true ∷ u)) (word_at rows.old.items u))) }
{
    match op {
        Op::X(q) | Op::Y(q) => complement(alloc, rows, q),
        Op::Cx(a, b) => {
            let mask = combined(alloc, mask_of(rows, a), mask_of(rows, b))?;
            set_row(rows, b, mask);
            Ok(())
        }
        Op::Swap(a, b) => {
            let first = copied(alloc, mask_of(rows, a))?;
            let second = copied(alloc, mask_of(rows, b))?;
            set_row(rows, a, second);
            set_row(rows, b, first);
            Ok(())
        }
        Op::H(q) => {
            let mask = copied(alloc, fresh)?;
            set_row(rows, q, mask);
            Ok(())
        }
        _ => Ok(()),
    }
}
