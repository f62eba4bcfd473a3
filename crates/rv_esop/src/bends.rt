// Inputs made of inputs: where the cubes get cheaper if an input is replaced by its exclusive or with another one, a
// CNOT before all flips makes it that, and the same CNOT after all flips brings it back.
ghost use Rattle.std.specs.Prelude.{◌≡◌, ◌≢◌, ◌<◌, ◌≤◌, length, IfOk, IfSome, IsTrue};
ghost use Rattle.rv_pla.specs.declared.cube.TheConstants.{MOST_INPUTS};
ghost use Rattle.rv_cube.specs.declared.list.TheConstants.{MOST_CUBES};
ghost use Rattle.rv_esop.specs.inside.Bends.{GivesBent, IsBend};

use super::basis::cost_of_sets;
use super::link::link_of;
use rv_cube::{CubeList, MOST_CUBES};
use rv_exorlink::{Free, Goal, are_cubes, flip_cost, shorten};
use rv_gate::Word;
use rv_pla::{Cube, MOST_INPUTS, has};
use std::alloc::{AllocError, Global};

// Adds what a cube becomes: a literal of the input `to` is one of its exclusive or with the input `from`, and where
// that has none, two cubes take its place. Nothing rests on the answer.
fn push_bent(all: &mut Vec<Cube>, cube: Cube, from: u8, to: u8) -> Result<(), AllocError>
    requires from { from < MOST_INPUTS }
    requires to { to < MOST_INPUTS }
{
    let (bit, other) = (1u16 << from, 1u16 << to);
    let outs = cube.outs;
    if has(cube.care, from) && has(cube.care, to) {
        let care = cube.care;
        let turn = if has(cube.want, from) { other } else { 0 };
        let want = cube.want ^ turn;
        all.push(Cube { care, want, outs })?;
        return Ok(());
    }
    all.push(cube)?;
    if has(cube.care, to) {
        let care = cube.care & !other | bit;
        let want = cube.want & !other | bit;
        all.push(Cube { care, want, outs })?;
    }
    Ok(())
}

// Such cubes of a list, shortened. Nothing rests on the answer but that they are not too many.
fn bent_cubes(
    alloc: Global,
    list: &CubeList,
    from: u8,
    to: u8,
    goal: Goal,
    effort: u16,
    seed: u16,
) -> Result<Vec<Cube>, AllocError>
    requires from { from < MOST_INPUTS }
    requires to { to < MOST_INPUTS }
    ensures { IfOk result (λ v. length v.items ≤ MOST_CUBES) }
{
    let mut all = Vec::new(alloc);
    for cube in list.cubes() {
        push_bent(&mut all, *cube, from, to)?;
    }
    if all.len() > MOST_CUBES {
        return Vec::from_slice(alloc, list.cubes());
    }
    let free = Free::none(alloc);
    shorten(alloc, &mut all, list.inputs(), &free, goal, effort, seed)?;
    Ok(all)
}

// Whether a list gives to each word with the line `to` changed where `from` has a 1 what another gives to the word.
fn gives_bent(old: &CubeList, new: &CubeList, from: u8, to: u8) -> bool
    requires inputs { new.now.inputs ≡ old.now.inputs }
    requires from { from < old.now.inputs }
    requires to { to < old.now.inputs }
    requires apart { from ≢ to }
    ensures { IsTrue result → GivesBent from to old.now new.now }
{
    let inputs = old.inputs();
    let link = link_of(from, to);
    for number in 0..1u32 << inputs {
        let Some(word) = Word::new(inputs, u64::from(number)) else {
            return false;
        };
        let bent = link.act(word).number() as u32;
        if new.value(bent) != old.value(number) {
            return false;
        }
    }
    true
}

/// A list with the input `to` made of itself and the input `from`.
#[derive(Drop)]
pub struct Bend {
    pub from: u8,
    pub to: u8,
    pub list: CubeList,
}

// A list with the input `to` made of itself and the input `from`, if it is right.
fn bent(
    alloc: Global,
    list: &CubeList,
    from: u8,
    to: u8,
    goal: Goal,
    effort: u16,
    seed: u16,
) -> Result<Option<Bend>, AllocError>
    requires from { from < list.now.inputs }
    requires to { to < list.now.inputs }
    requires apart { from ≢ to }
    ensures { IfOk result (λ next. IfSome next (λ b. IsBend list.now b.from b.to b.list)) }
{
    let (inputs, outputs) = (list.inputs(), list.outputs());
    let cubes = bent_cubes(alloc, list, from, to, goal, effort, seed)?;
    if !are_cubes(&cubes, inputs, outputs) {
        return Ok(None);
    }
    let other = CubeList::from_terms(inputs, outputs, cubes);
    if gives_bent(list, &other, from, to) {
        Ok(Some(Bend {
            from,
            to,
            list: other,
        }))
    } else {
        Ok(None)
    }
}

// So many cubes are shortened at most, of all pairs of inputs together, to find the next one.
const MOST_TRIED: usize = 1 << 15;

// Two inputs.
#[derive(Clone, Copy)]
struct Pair {
    from: u8,
    to: u8,
}

// The inputs by which the cubes get cheapest, if they get cheaper. Nothing rests on the answer.
fn best_pair(
    alloc: Global,
    list: &CubeList,
    goal: Goal,
    effort: u16,
    seed: u16,
) -> Result<Option<Pair>, AllocError> {
    let inputs = list.inputs();
    let mut best = None;
    let pairs = usize::from(inputs) * usize::from(inputs);
    if list.cubes().len().saturating_mul(pairs) > MOST_TRIED {
        return Ok(None);
    }
    let mut least = cost_of_sets(alloc, list.cubes(), goal)?;
    let links = flip_cost(goal, 1).saturating_mul(2);
    for from in 0..inputs {
        for to in 0..inputs {
            if from != to {
                let other = bent_cubes(alloc, list, from, to, goal, effort, seed)?;
                let cost = cost_of_sets(alloc, &other, goal)?.saturating_add(links);
                if cost < least {
                    least = cost;
                    best = Some(Pair { from, to });
                }
            }
        }
    }
    Ok(best)
}

/// The list with an input made of inputs that is cheapest, if one is cheaper.
pub fn next_bend(
    alloc: Global,
    list: &CubeList,
    goal: Goal,
    effort: u16,
    seed: u16,
) -> Result<Option<Bend>, AllocError>
    ensures { IfOk result (λ next. IfSome next (λ b. IsBend list.now b.from b.to b.list)) }
{
    let inputs = list.inputs();
    match best_pair(alloc, list, goal, effort, seed)? {
        Some(Pair { from, to }) if from < inputs && to < inputs && from != to => bent(
            alloc, list, from, to, goal, effort, seed,
        ),
        _ => Ok(None),
    }
}
