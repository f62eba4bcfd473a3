// The rows that are due after a cube came in: those of the pairs that it may bring a step to.
ghost use Rattle.std.specs.Prelude.{◌≡◌, ◌<◌, ◌≤◌, ◌⊎◌, ℕ, true, false, length, All, OnOk, slice_set, nat_lt};
ghost use Rattle.std.specs.Prelude.{if◌then◌else◌};
ghost use Rattle.rv_pla.specs.Cube.{IsCube};
ghost use Rattle.rv_pla.specs.declared.cube.TheConstants.{MOST_INPUTS, MOST_OUTPUTS};
ghost use Rattle.rv_cube.specs.Reduction.{at};
ghost use Rattle.rv_cube.specs.inside.Filter.{filter_place};
ghost use Rattle.rv_cube.specs.inside.Slots.{is_due, key_of};
ghost use Rattle.rv_cube.specs.inside.Watching.{lower, Marks, IsLink, IsLinkAt, IsLinkBeside, IsLinkAcross, IsLinkFrom};
ghost use Rattle.rv_cube.specs.inside.Watching.{IsThird, IsNear, IsMerging, IsExorlinking, IsListed, IsListedNear};

use super::distance::{Apart, differing, turned, turned_twice, with_third};
use super::due::Due;
use super::filter::{PLACES, filter_place, place_from};
use super::slots::Slots;
use rv_pla::{Cube, MOST_INPUTS};
use std::alloc::AllocError;

fn lower(a: usize, b: usize) -> usize
    ensures { result ≡ lower a b }
{
    if a < b { a } else { b }
}

// The lower of two slots is due, if they have the same outputs.
fn link(slots: &Slots, e: usize, g: usize, rows: &mut Due)
    requires e_in { e < length slots.now.cubes }
    requires g_in { g < length slots.now.cubes }
    requires as_many { length rows.old ≡ length slots.now.cubes }
    ensures { Marks (IsLink slots.now.cubes e g) rows.old rows.new }
{
    if slots.cube(e).outs == slots.cube(g).outs {
        rows.put(lower(e, g));
    }
}

// Links slot e with the one that has the inputs of the cube, which have this place.
#[inline(always)]
fn link_at(slots: &Slots, e: usize, cube: Cube, place: u32, rows: &mut Due)
    requires e_in { e < length slots.now.cubes }
    requires as_many { length rows.old ≡ length slots.now.cubes }
    requires place { place ≡ filter_place (key_of cube) }
    requires within { place < PLACES }
    ensures { Marks (IsLinkAt slots.now.cubes e cube) rows.old rows.new }
{
    match slots.find_at(cube, place) {
        Some(g) => link(slots, e, g, rows),
        None => {}
    }
}

// Links slot e with those that differ from the cube in q; its inputs have this place.
#[inline(always)]
fn link_beside(slots: &Slots, e: usize, cube: Cube, place: u32, q: u8, rows: &mut Due)
    requires few { slots.now.inputs ≤ MOST_INPUTS }
    requires within { q < slots.now.inputs }
    requires e_in { e < length slots.now.cubes }
    requires as_many { length rows.old ≡ length slots.now.cubes }
    requires place { place ≡ filter_place (key_of cube) }
    requires place_within { place < PLACES }
    ensures { Marks (IsLinkBeside slots.now.cubes e cube q) rows.old rows.new }
{
    let one = turned(cube, q);
    let other = turned_twice(cube, one, q);
    link_at(slots, e, one, place_from(place, cube, one), rows);
    link_at(slots, e, other, place_from(place, cube, other), rows);
}

// Links slot e with those that differ from the cube in one input.
fn link_across(slots: &Slots, e: usize, cube: Cube, rows: &mut Due)
    requires e_in { e < length slots.now.cubes }
    requires as_many { length rows.old ≡ length slots.now.cubes }
    ensures { Marks (IsLinkAcross slots.now.cubes e cube slots.now.inputs) rows.old rows.new }
{
    let place = filter_place(cube);
    for q in 0..slots.inputs() {
        link_beside(slots, e, cube, place, q, rows);
    }
}

// Links slot e with those that differ from it in p and another input.
fn link_from(slots: &Slots, e: usize, p: u8, rows: &mut Due)
    requires few { slots.now.inputs ≤ MOST_INPUTS }
    requires within { p < slots.now.inputs }
    requires e_in { e < length slots.now.cubes }
    requires as_many { length rows.old ≡ length slots.now.cubes }
    ensures { Marks (IsLinkFrom slots.now.cubes e p slots.now.inputs) rows.old rows.new }
{
    let cube = slots.cube(e);
    let one = turned(cube, p);
    let other = turned_twice(cube, one, p);
    link_across(slots, e, one, rows);
    link_across(slots, e, other, rows);
}

// Links slot e with those with which it makes a form that may meet the cube of slot k.
#[tactic(auto, using(crate::proofs::inside::Watching::third_two))]
fn link_third(slots: &Slots, k: usize, e: usize, rows: &mut Due)
    requires k_in { k < length slots.now.cubes }
    requires e_in { e < length slots.now.cubes }
    requires as_many { length rows.old ≡ length slots.now.cubes }
    ensures { Marks (IsThird slots.now.inputs slots.now.cubes k e) rows.old rows.new }
{
    let (x, y) = (slots.cube(k), slots.cube(e));
    match differing(x, y, slots.inputs()) {
        Apart::OneInput(p) => link_from(slots, e, p, rows),
        Apart::TwoInputs(p, q) => {
            if x.outs == y.outs {
                link_across(slots, e, with_third(y, x, p), rows);
                link_across(slots, e, with_third(y, x, q), rows);
            }
        }
        _ => {}
    }
}

// The pairs of slots k and e, and of e and a third.
fn watch_near(slots: &Slots, k: usize, e: usize, rows: &mut Due)
    requires k_in { k < length slots.now.cubes }
    requires e_in { e < length slots.now.cubes }
    requires as_many { length rows.old ≡ length slots.now.cubes }
    ensures { Marks (IsNear slots.now.inputs slots.now.cubes k e) rows.old rows.new }
{
    link(slots, k, e, rows);
    link_third(slots, k, e, rows);
}

// The same for each slot that is listed.
#[tactic(auto, using(crate::proofs::inside::DueRows::marks_more))]
fn watch_list(slots: &Slots, k: usize, near: &[usize], rows: &mut Due)
    requires k_in { k < length slots.now.cubes }
    requires within { All (λ b. b < length slots.now.cubes) near.now }
    requires as_many { length rows.old ≡ length slots.now.cubes }
    ensures { Marks (IsListed slots.now.inputs slots.now.cubes k near.now (length near.now)) rows.old rows.new }
{
    for i in 0..near.len() {
        watch_near(slots, k, near[i], rows);
    }
}

/// Makes the rows due whose steps the cube that came in can bring, from a list of the slots near it.
pub fn watch(slots: &Slots, cube: Cube, near: &[usize], merges: &mut Due, exorlinks: &mut Due)
    requires within { All (λ b. b < length slots.now.cubes) near.now }
    requires as_many_merges { length merges.old ≡ length slots.now.cubes }
    requires as_many_exorlinks { length exorlinks.old ≡ length slots.now.cubes }
    ensures merges { Marks (IsMerging slots.now.inputs slots.now.cubes cube) merges.old merges.new }
    ensures exorlinks { Marks (IsExorlinking slots.now.inputs slots.now.cubes cube near.now)
        exorlinks.old exorlinks.new }
{
    match slots.find(cube) {
        Some(k) => {
            link_across(slots, k, slots.cube(k), merges);
            watch_list(slots, k, near, exorlinks);
        }
        None => {}
    }
}

/// Lists the full slots near a cube, unless all rows are due. Fails only for want of memory.
pub fn list_near(
    slots: &Slots,
    cube: Cube,
    rows: &Due,
    near: &mut Vec<usize>,
) -> Result<(), AllocError>
    requires { IsCube slots.now.inputs MOST_OUTPUTS cube }
    ensures { OnOk result (IsListedNear slots.now.inputs slots.now.cubes cube rows.now near.new.items) }
{
    if rows.is_fresh() {
        near.clear();
        return Ok(());
    }
    slots.near(cube, near)
}
