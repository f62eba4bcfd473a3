// A cube comes into a list.
ghost use Rattle.std.specs.Prelude.{◌≡◌, ◌<◌, ◌≤◌, length, MatchOption, OnOk};
ghost use Rattle.rv_pla.specs.declared.cube.TheConstants.{MOST_INPUTS};
ghost use Rattle.rv_exorlink.specs.Lists.{Joins, Adds, AddsBut};

use super::cube::sum_of;
use super::finder::Finder;
use super::free::Free;
use rv_pla::{Cube, MOST_INPUTS};
use std::alloc::AllocError;

/// No slot.
pub const NONE: usize = usize::MAX;

// A slot but a and b with a cube of these inputs and outputs.
#[inline(always)]
fn find_beside(
    finder: &Finder,
    cubes: &[Cube],
    care: u16,
    want: u16,
    outs: u16,
    a: usize,
    b: usize,
) -> Option<usize> {
    let slot = finder.find(care, want)?;
    if slot < cubes.len() && cubes[slot].outs == outs && slot != a && slot != b {
        Some(slot)
    } else {
        None
    }
}

/// A slot with this cube.
#[inline(always)]
pub fn slot_of(finder: &Finder, cubes: &[Cube], cube: Cube) -> Option<usize> {
    find_beside(finder, cubes, cube.care, cube.want, cube.outs, NONE, NONE)
}

/// A slot but a and b whose cube may become one with this one. Nothing rests on the answer.
pub fn neighbour(
    finder: &Finder,
    cubes: &[Cube],
    cube: Cube,
    a: usize,
    b: usize,
    inputs: u8,
) -> Option<usize>
    requires { inputs ≤ MOST_INPUTS }
{
    let (care, want, outs) = (cube.care, cube.want, cube.outs);
    if let Some(slot) = finder.find(care, want) {
        if slot != a && slot != b {
            return Some(slot);
        }
    }
    for input in 0..inputs {
        let bit = 1u16 << input;
        // the two other symbols
        let (cares, first, second) = if care & bit == 0 {
            (care | bit, want | bit, want)
        } else {
            (care ^ bit, want & !bit, want ^ bit)
        };
        if let Some(slot) = find_beside(finder, cubes, cares, first, outs, a, b) {
            return Some(slot);
        }
        if let Some(slot) = find_beside(finder, cubes, care | bit, second, outs, a, b) {
            return Some(slot);
        }
    }
    None
}

// Takes out a cube that becomes one with this one, and answers their sum.
fn join(cubes: &mut Vec<Cube>, finder: &mut Finder, cube: Cube, inputs: u8) -> Option<Cube>
    requires { inputs ≤ MOST_INPUTS }
    ensures { MatchOption result (cubes.new.items ≡ cubes.old.items)
        (λ sum. Joins inputs cube cubes.old.items sum cubes.new.items) }
{
    let Some(slot) = neighbour(finder, cubes, cube, NONE, NONE, inputs) else {
        return None;
    };
    if slot >= cubes.len() {
        return None;
    }
    let Some(sum) = sum_of(cube, cubes[slot], inputs) else {
        return None;
    };
    let gone = cubes.swap_remove(slot);
    finder.taken(cubes, gone, slot);
    Some(sum)
}

/// Adds a cube, made one with others as long as there are such. So the value at each word changes by that of the cube.
/// Fails only for want of memory.
pub fn add(
    cubes: &mut Vec<Cube>,
    finder: &mut Finder,
    cube: Cube,
    inputs: u8,
) -> Result<(), AllocError>
    requires { inputs ≤ MOST_INPUTS }
    ensures { OnOk result (Adds inputs cube cubes.old.items cubes.new.items) }
{
    let mut sum = cube;
    while let Some(more) = join(cubes, finder, sum, inputs) {
        sum = more;
    }
    if sum.outs == 0 {
        return Ok(());
    }
    cubes.push(sum)?;
    finder.put(cubes, sum);
    Ok(())
}

/// The same, but that a cube is left out that concerns free entries alone.
pub fn add_but(
    cubes: &mut Vec<Cube>,
    finder: &mut Finder,
    cube: Cube,
    inputs: u8,
    free: &Free,
) -> Result<(), AllocError>
    requires few { inputs ≤ MOST_INPUTS }
    ensures { OnOk result (AddsBut inputs free.now cube cubes.old.items cubes.new.items) }
{
    if free.has(cube, inputs) {
        return Ok(());
    }
    add(cubes, finder, cube, inputs)
}
