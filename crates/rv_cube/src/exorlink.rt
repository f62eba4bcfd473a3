// How the cubes of two slots are exorlinked, their partners found by keys.
ghost use Rattle.std.specs.Prelude.{◌≡◌, ◌<◌, ◌≤◌, length, IfOk};
ghost use Rattle.rv_pla.specs.Cube.{IsCube};
ghost use Rattle.rv_pla.specs.declared.cube.TheConstants.{MOST_INPUTS, MOST_OUTPUTS};
ghost use Rattle.rv_cube.specs.Distance.{with_third};
ghost use Rattle.rv_cube.specs.inside.Slots.{partner_in, form_in, exorlink_in};
ghost use Rattle.rv_cube.specs.inside.Reducing.{ExorlinksFirst};

use super::distance::{Apart, differing, with_third};
use super::slots::Slots;
use super::step::Step;
use rv_pla::Cube;
use std::alloc::AllocError;

#[tactic(auto, using(crate::proofs::inside::PartnerSearches::searched))]
fn partner(
    slots: &Slots,
    a: usize,
    b: usize,
    first: Cube,
    second: Cube,
    place: usize,
    cube: Cube,
) -> Option<Step>
    requires { IsCube slots.now.inputs MOST_OUTPUTS cube }
    ensures { result ≡ partner_in slots.now.inputs slots.now.cubes a b first second place cube }
{
    let Some(partner) = slots.partner(cube, a, b) else {
        return None;
    };
    Some(Step::Exorlink {
        a,
        b,
        first,
        second,
        place,
        partner,
    })
}

fn form(slots: &Slots, a: usize, b: usize, first: Cube, second: Cube) -> Option<Step>
    requires first { IsCube slots.now.inputs MOST_OUTPUTS first }
    requires second { IsCube slots.now.inputs MOST_OUTPUTS second }
    ensures { result ≡ form_in slots.now.inputs slots.now.cubes a b first second }
{
    match partner(slots, a, b, first, second, a, first) {
        Some(step) => Some(step),
        None => partner(slots, a, b, first, second, b, second),
    }
}

// The cube `a` with the third of both symbols at one input.
#[inline(always)]
fn third(slots: &Slots, a: Cube, b: Cube, input: u8) -> Cube
    requires few { slots.now.inputs ≤ MOST_INPUTS }
    requires within { input < slots.now.inputs }
    requires valid { IsCube slots.now.inputs MOST_OUTPUTS a }
    ensures value { result ≡ with_third a b input }
    ensures valid { IsCube slots.now.inputs MOST_OUTPUTS result }
{
    with_third(a, b, input)
}

/// How slots a and b are exorlinked.
pub fn exorlink_in(slots: &Slots, a: usize, b: usize) -> Option<Step>
    requires a_in { a < length slots.now.cubes }
    requires b_in { b < length slots.now.cubes }
    ensures { result ≡ exorlink_in slots.now.inputs slots.now.cubes a b }
{
    let (x, y) = (slots.cube(a), slots.cube(b));
    if x.outs != y.outs {
        return None;
    }
    let Apart::TwoInputs(p, q) = differing(x, y, slots.inputs()) else {
        return None;
    };
    match form(slots, a, b, third(slots, x, y, p), third(slots, y, x, q)) {
        Some(step) => Some(step),
        None => form(slots, a, b, third(slots, y, x, p), third(slots, x, y, q)),
    }
}

/// How slot a makes an exorlink with the first later slot that allows it; an empty one makes none. What is in `near`
/// does not matter, nor what stays in it. Fails only for want of memory.
pub fn first_exorlink_in(
    slots: &Slots,
    a: usize,
    near: &mut Vec<usize>,
) -> Result<Option<Step>, AllocError>
    requires { a < length slots.now.cubes }
    ensures { IfOk result (ExorlinksFirst slots.now.inputs slots.now.cubes a) }
{
    let cube = slots.cube(a);
    if cube.outs == 0 {
        return Ok(None);
    }
    slots.two_apart(cube, near)?;
    let mut end = slots.len();
    let mut found = None;
    for i in 0..near.len() {
        let b = near[i];
        if a < b && b < end {
            match exorlink_in(slots, a, b) {
                Some(step) => {
                    found = Some(step);
                    end = b;
                }
                None => {}
            }
        }
    }
    Ok(found)
}
