// Lists found for a PLA.
ghost use Rattle.std.specs.Prelude.{◌≡◌, ◌≤◌, ◌<◌, ◌^◌, length, All, IfOk, IsTrue};
ghost use Rattle.rv_gate.specs.Word.{has, word_of};
ghost use Rattle.rv_pla.specs.Cube.{IsCube};
ghost use Rattle.rv_pla.specs.FreeEntries.{IsAllowed};
ghost use Rattle.rv_cube.specs.Esop.{IsTerm};
ghost use Rattle.rv_cube.specs.First.{first_of, values_of};
ghost use Rattle.rv_cube.specs.ReductionFor.{IsRight, reduced_for};
ghost use Rattle.rv_cube.specs.declared.list.TheConstants.{MOST_CUBES};
ghost use Rattle.rv_exorlink.specs.Found.{IsFound, MayReplace};
ghost use Rattle.rv_exorlink.specs.Weight.{IsNoWorse};

use super::free::Free;
use super::goal::{Goal, most_of, total};
use super::joined::joined;
use super::search::shorten;
use super::sparse::sparse;
use super::table::kronecker;
use rv_cube::{CubeList, MOST_CUBES, values_of};
use rv_pla::{Cube, Entry, Kind, MOST_INPUTS, MOST_OUTPUTS, Pla, has};
use std::alloc::{AllocError, Global};

// A list with a cube for so many words is short.
const SHARE: usize = 64;

// Whether a list is no worse than another.
fn is_no_worse(goal: Goal, old: &[Cube], new: &[Cube]) -> bool
    requires { length old.now ≤ MOST_CUBES }
    ensures { IsTrue result → IsNoWorse goal old.now new.now }
{
    new.len() <= most_of(goal, old.len()) && total(goal, new) <= total(goal, old)
}

/// Whether these are cubes of so many inputs and outputs.
pub fn are_cubes(cubes: &[Cube], inputs: u8, outputs: u8) -> bool
    requires few_inputs { inputs ≤ MOST_INPUTS }
    requires few_outputs { outputs ≤ MOST_OUTPUTS }
    ensures { IsTrue result → All (IsCube inputs outputs) cubes.now }
{
    for cube in cubes {
        if u32::from(cube.care) >> inputs != 0
            || cube.want & cube.care != cube.want
            || u32::from(cube.outs) >> outputs != 0
        {
            return false;
        }
    }
    true
}

// Whether a set of outputs may stand at a word.
fn is_allowed(pla: &Pla, number: u32, outs: u16) -> bool
    requires { number < 2 ^ pla.now.inputs }
    ensures { IsTrue result → IsAllowed pla.now (word_of pla.now.inputs number) (has outs) }
{
    for output in 0..pla.outputs() {
        let bit = has(outs, output);
        let allowed = match pla.value(number, output) {
            Entry::One => bit,
            Entry::Zero => !bit,
            Entry::Free => true,
        };
        if !allowed {
            return false;
        }
    }
    true
}

// Whether a list is right at each word.
fn is_right(pla: &Pla, list: &CubeList) -> bool
    requires { list.now.inputs ≡ pla.now.inputs }
    ensures { IsTrue result → IsRight pla.now list.now.cubes }
{
    for number in 0..1u32 << pla.inputs() {
        if !is_allowed(pla, number, list.value(number)) {
            return false;
        }
    }
    true
}

// Another list in place of the best one, if it is right and no worse.
fn better_of(
    alloc: Global,
    pla: &Pla,
    goal: Goal,
    best: Vec<Cube>,
    other: Vec<Cube>,
) -> Result<Vec<Cube>, AllocError>
    requires right { IsRight pla.now best.items }
    requires terms { All (IsTerm pla.now.inputs pla.now.outputs) best.items }
    requires few { length best.items ≤ MOST_CUBES }
    ensures { IfOk result (λ v. MayReplace goal pla.now best.items v.items) }
{
    let (inputs, outputs) = (pla.inputs(), pla.outputs());
    if !is_no_worse(goal, &best, &other) || !are_cubes(&other, inputs, outputs) {
        return Ok(best);
    }
    let list = CubeList::from_terms(inputs, outputs, other);
    if is_no_worse(goal, &best, list.cubes()) && is_right(pla, &list) {
        return Vec::from_slice(alloc, list.cubes());
    }
    Ok(best)
}

// The lighter one of a list and that from the terms.
fn with_terms(
    alloc: Global,
    pla: &Pla,
    goal: Goal,
    best: Vec<Cube>,
) -> Result<Vec<Cube>, AllocError>
    requires right { IsRight pla.now best.items }
    requires terms { All (IsTerm pla.now.inputs pla.now.outputs) best.items }
    requires few { length best.items ≤ MOST_CUBES }
    ensures { IfOk result (λ v. MayReplace goal pla.now best.items v.items) }
{
    if pla.kind() == Kind::Esop {
        return Ok(best);
    }
    match joined(alloc, pla, goal, best.len())? {
        Some(other) => better_of(alloc, pla, goal, best, other),
        None => Ok(best),
    }
}

// The lighter one of a list and that for the words that matter, if these are few.
fn with_words(
    alloc: Global,
    pla: &Pla,
    free: &Free,
    values: &[u16],
    goal: Goal,
    best: Vec<Cube>,
) -> Result<Vec<Cube>, AllocError>
    requires right { IsRight pla.now best.items }
    requires terms { All (IsTerm pla.now.inputs pla.now.outputs) best.items }
    requires few { length best.items ≤ MOST_CUBES }
    ensures { IfOk result (λ v. MayReplace goal pla.now best.items v.items) }
{
    match sparse(alloc, values, free, pla.inputs(), pla.outputs())? {
        Some(other) => better_of(alloc, pla, goal, best, other),
        None => Ok(best),
    }
}

// The lighter one of a list and that from the table. If the list is short, the table is not looked at.
fn with_table(
    alloc: Global,
    pla: &Pla,
    values: &[u16],
    goal: Goal,
    best: Vec<Cube>,
) -> Result<Vec<Cube>, AllocError>
    requires table { values.now ≡ values_of pla.now }
    requires right { IsRight pla.now best.items }
    requires terms { All (IsTerm pla.now.inputs pla.now.outputs) best.items }
    requires few { length best.items ≤ MOST_CUBES }
    ensures { IfOk result (λ v. MayReplace goal pla.now best.items v.items) }
{
    if best.len() < values.len() / SHARE {
        return Ok(best);
    }
    let table = kronecker(alloc, pla.inputs(), values, goal)?;
    if is_no_worse(goal, &best, &table) {
        return Ok(table);
    }
    Ok(best)
}

// The lightest of the first lists.
fn first_list(
    alloc: Global,
    pla: &Pla,
    free: &Free,
    cubes: &[Cube],
    goal: Goal,
) -> Result<Vec<Cube>, AllocError>
    requires right { IsRight pla.now cubes.now }
    requires terms { All (IsTerm pla.now.inputs pla.now.outputs) cubes.now }
    requires few { length cubes.now ≤ MOST_CUBES }
    ensures { IfOk result (λ v. MayReplace goal pla.now cubes.now v.items) }
{
    let values = values_of(alloc, pla)?;
    let best = with_terms(alloc, pla, goal, Vec::from_slice(alloc, cubes)?)?;
    let best = with_words(alloc, pla, free, &values, goal, best)?;
    with_table(alloc, pla, &values, goal, best)
}

/// A list of cubes for a PLA, found by a search for one that weighs little by the goal. The value has the bit of each
/// entry that isn't free. It is no worse than the reduced list, which is given, and with which the search begins.
///
/// The search ends after `effort` rounds without gain, and with it its work is bounded; 0 is no search. `seed` chooses
/// the random numbers. Fails only for want of memory.
pub fn found_list(
    alloc: Global,
    pla: &Pla,
    reduced: &CubeList,
    goal: Goal,
    effort: u16,
    seed: u16,
) -> Result<CubeList, AllocError>
    requires list { reduced.now ≡ record (first_of pla.now) { cubes = reduced_for pla.now (first_of pla.now).cubes } }
    requires right { IsRight pla.now reduced.now.cubes }
    ensures { IfOk result (IsFound goal pla.now) }
{
    reduced.recall_invariant();
    let free = Free::of(alloc, pla)?;
    let mut cubes = first_list(alloc, pla, &free, reduced.cubes(), goal)?;
    shorten(alloc, &mut cubes, pla.inputs(), &free, goal, effort, seed)?;
    Ok(CubeList::from_terms(pla.inputs(), pla.outputs(), cubes))
}
