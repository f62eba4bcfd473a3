// Two cubes are exchanged for the steps of a way from one to the other.
ghost use Rattle.std.specs.Prelude.{◌≡◌, ◌<◌, ◌≤◌, length, OnOk};
ghost use Rattle.rv_pla.specs.declared.cube.TheConstants.{MOST_INPUTS};
ghost use Rattle.rv_exorlink.specs.Lists.{IsSameBut, AddsBoth};

use super::cube::{are_same, step_of};
use super::finder::Finder;
use super::free::Free;
use super::list::{add, add_but};
use rv_pla::{Cube, MOST_INPUTS};
use std::alloc::AllocError;

// Adds the sums of the steps by which `from` takes the symbols of `to`, a place after another. Where this does not end
// at `to`, what is left of the way is added as two cubes: so any places are right.
fn add_way(
    cubes: &mut Vec<Cube>,
    finder: &mut Finder,
    from: Cube,
    to: Cube,
    places: &[u8],
    inputs: u8,
    free: &Free,
) -> Result<(), AllocError>
    requires { inputs ≤ MOST_INPUTS }
    ensures { OnOk result (AddsBoth inputs free.now from to cubes.old.items cubes.new.items) }
{
    let mut at = from;
    for place in places {
        if let Some(step) = step_of(at, to, *place, inputs) {
            add_but(cubes, finder, step.sum, inputs, free)?;
            at = step.next;
        }
    }
    if are_same(at, to) {
        return Ok(());
    }
    add(cubes, finder, at, inputs)?;
    add(cubes, finder, to, inputs)
}

/// Exchanges the cubes at i > j for the sums of the steps of a way from one to the other, but for those that concern
/// free entries alone. Where no entry is free the value at each word stays, whatever the places are. Fails only for
/// want of memory.
pub fn exorlink(
    cubes: &mut Vec<Cube>,
    finder: &mut Finder,
    i: usize,
    j: usize,
    places: &[u8],
    inputs: u8,
    free: &Free,
) -> Result<(), AllocError>
    requires few { inputs ≤ MOST_INPUTS }
    requires first { i < length cubes.old.items }
    requires second { j < i }
    ensures { OnOk result (IsSameBut inputs free.now cubes.old.items cubes.new.items) }
{
    let x = cubes.swap_remove(i);
    finder.taken(cubes, x, i);
    let y = cubes.swap_remove(j);
    finder.taken(cubes, y, j);
    add_way(cubes, finder, x, y, places, inputs, free)
}
