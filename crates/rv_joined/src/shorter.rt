// Fewer flips that do the same, as forms show.
ghost use Rattle.std.specs.Prelude.{◌≡◌, ◌+◌, ◌≤◌, ◌^◌, length, IfOk, IfSome, IsTrue};
ghost use Rattle.rv_gate.specs.Every.{Every};
ghost use Rattle.rv_gate.specs.Gate.{IsFlipOn};
ghost use Rattle.rv_gate.specs.Greatest.{greatest};
ghost use Rattle.rv_gate.specs.declared.word.TheConstants.{MOST_LINES};
ghost use Rattle.rv_mct.specs.Blocks.{flip_wish};
ghost use Rattle.rv_joined.specs.inside.Brings.{columns};
ghost use Rattle.rv_joined.specs.inside.Shorter.{AreFlips, EndsAs, HoldSame, IsShorter};

use crate::cancel::cancelled;
use crate::certificate::{MOST_TERMS, start_held};
use crate::setup::Setup;
use rv_forms::{Form, Term, are_terms, follow_gate, is_same};
use rv_gate::{Gate, MOST_LINES};
use rv_mct::Aux;
use std::alloc::{AllocError, Global};

// What the lines hold after flips. `None` where they can't be followed.
fn held_after(
    alloc: Global,
    setup: Setup,
    terms: &[Term],
    flips: &[Gate],
    claims: &[Option<u32>],
) -> Result<Option<Vec<Form>>, AllocError>
    requires few { setup.lines + setup.extra ≤ MOST_LINES }
    requires columns { columns setup + length terms.now ≤ 2 ^ 32 }
    ensures { IfOk result (λ o. IfSome o (λ held. EndsAs setup terms.now flips.now held.items)) }
{
    let first = usize::from(setup.lines + setup.extra);
    let mut held = start_held(alloc, setup)?;
    for k in 0..flips.len() {
        if k >= claims.len() {
            return Ok(None);
        }
        if !follow_gate(alloc, terms, first, &mut held, flips[k], claims[k])? {
            return Ok(None);
        }
    }
    Ok(Some(held))
}

// Whether all lines hold the same.
fn hold_same(a: &[Form], b: &[Form]) -> bool
    ensures { IsTrue result → HoldSame a.now b.now }
{
    if a.len() != b.len() {
        return false;
    }
    for line in 0..a.len() {
        if !is_same(&a[line], &b[line]) {
            return false;
        }
    }
    true
}

// The flips that stay.
fn staying(
    alloc: Global,
    setup: Setup,
    flips: &[Gate],
    gone: &[bool],
) -> Result<Vec<Gate>, AllocError>
    requires { AreFlips setup flips.now }
    ensures { IfOk result (λ left. AreFlips setup left.items) }
{
    let mut left = Vec::new(alloc);
    for k in 0..flips.len() {
        if k < gone.len() && !gone[k] {
            left.push(flips[k])?;
        }
    }
    Ok(left)
}

/// Fewer flips that do the same, if some cancel.
pub(crate) fn shorter(
    alloc: Global,
    setup: Setup,
    flips: &[Gate],
) -> Result<Option<Vec<Gate>>, AllocError>
    requires few { setup.lines + setup.extra ≤ MOST_LINES }
    requires flips { AreFlips setup flips.now }
    ensures { IfOk result (λ o. IfSome o (λ left. IsShorter setup flips.now left.items)) }
{
    let Some(found) = cancelled(alloc, setup, flips)? else {
        return Ok(None);
    };
    let first = usize::from(setup.lines + setup.extra);
    if found.terms.len() > MOST_TERMS || !are_terms(&found.terms, first) {
        return Ok(None);
    }
    let left = staying(alloc, setup, flips, &found.gone)?;
    let Some(before) = held_after(alloc, setup, &found.terms, flips, &found.claims)? else {
        return Ok(None);
    };
    let Some(after) = held_after(alloc, setup, &found.terms, &left, &found.left)? else {
        return Ok(None);
    };
    if !hold_same(&before, &after) {
        return Ok(None);
    }
    Ok(Some(left))
}
