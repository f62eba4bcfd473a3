// A cube takes another symbol, or loses outputs, where only free entries change.
ghost use Rattle.std.specs.Prelude.{◌≡◌, ◌<◌, ◌≤◌, ℕ, length, OnOk};
ghost use Rattle.rv_pla.specs.Cube.{IsCube};
ghost use Rattle.rv_pla.specs.declared.cube.TheConstants.{MOST_INPUTS};
ghost use Rattle.rv_exorlink.specs.Lists.{IsSameBut};

use super::cube::sum_of;
use super::finder::Finder;
use super::free::Free;
use super::goal::weight;
use super::list::add;
use super::price::price;
use super::prices::Prices;
use super::table::{with_one, with_zero};
use rv_pla::{Cube, MOST_INPUTS, has};
use std::alloc::AllocError;

// What goes or comes if a cube takes another symbol at an input; past the inputs, if it loses these outputs.
fn difference(cube: Cube, input: u8, inputs: u8, outs: u16) -> Cube
    requires { inputs ≤ MOST_INPUTS }
    ensures { (outputs : ℕ) → IsCube inputs outputs cube → IsCube inputs outputs result }
{
    if input >= inputs {
        return Cube {
            care: cube.care,
            want: cube.want,
            outs: cube.outs & outs,
        };
    }
    if has(cube.want, input) {
        with_zero(cube, input)
    } else {
        with_one(cube, input)
    }
}

// Changes the cube in a slot, if only free entries change.
fn change(
    cubes: &mut Vec<Cube>,
    finder: &mut Finder,
    slot: usize,
    input: u8,
    outs: u16,
    inputs: u8,
    free: &Free,
) -> Result<(), AllocError>
    requires few { inputs ≤ MOST_INPUTS }
    requires within { slot < length cubes.old.items }
    ensures { OnOk result (IsSameBut inputs free.now cubes.old.items cubes.new.items) }
{
    let gone = difference(cubes[slot], input, inputs, outs);
    let Some(sum) = sum_of(cubes[slot], gone, inputs) else {
        return Ok(());
    };
    if !free.has(gone, inputs) {
        return Ok(());
    }
    let cube = cubes.swap_remove(slot);
    finder.taken(cubes, cube, slot);
    add(cubes, finder, sum, inputs)
}

// The place of the change of the cube in a slot whose price is least, if the list gets no heavier.
fn best_change(
    cubes: &[Cube],
    finder: &Finder,
    slot: usize,
    inputs: u8,
    free: &Free,
    prices: &mut Prices,
) -> Option<u8>
    requires few { inputs ≤ MOST_INPUTS }
    requires within { slot < length cubes.now }
{
    let cube = cubes[slot];
    let mut best = None;
    let mut least = prices.limit();
    for input in 0..inputs {
        let gone = difference(cube, input, inputs, 0);
        if let Some(sum) = sum_of(cube, gone, inputs) {
            if free.has(gone, inputs) {
                let own = price(finder, cubes, sum, slot, slot, inputs, prices.goal);
                let change = prices.shaken(own.wrapping_sub(weight(prices.goal, cube) as i64));
                if change < least {
                    least = change;
                    best = Some(input);
                }
            }
        }
    }
    best
}

// Changes the cube in a slot, if it may lose outputs, or take another symbol and make the list no heavier.
fn change_at(
    cubes: &mut Vec<Cube>,
    finder: &mut Finder,
    slot: usize,
    inputs: u8,
    free: &Free,
    prices: &mut Prices,
) -> Result<(), AllocError>
    requires { inputs ≤ MOST_INPUTS }
    ensures { OnOk result (IsSameBut inputs free.now cubes.old.items cubes.new.items) }
{
    if slot >= cubes.len() {
        return Ok(());
    }
    let outs = free.outs_of(cubes[slot], inputs);
    if outs != 0 {
        return change(cubes, finder, slot, inputs, outs, inputs, free);
    }
    match best_change(cubes, finder, slot, inputs, free, prices) {
        Some(input) => change(cubes, finder, slot, input, 0, inputs, free),
        None => Ok(()),
    }
}

/// Changes each cube of the list that may lose outputs, or take another symbol and make the list no heavier, if only
/// free entries change.
pub fn change_all(
    cubes: &mut Vec<Cube>,
    finder: &mut Finder,
    inputs: u8,
    free: &Free,
    prices: &mut Prices,
) -> Result<(), AllocError>
    requires { inputs ≤ MOST_INPUTS }
    ensures { OnOk result (IsSameBut inputs free.now cubes.old.items cubes.new.items) }
{
    if free.is_none() {
        return Ok(());
    }
    for slot in 0..cubes.len() {
        change_at(cubes, finder, slot, inputs, free, prices)?;
    }
    Ok(())
}
