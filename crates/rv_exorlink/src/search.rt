// A walk over lists of the same value.
ghost use Rattle.std.specs.Prelude.{◌≡◌, ◌<◌, ◌≤◌, length, IfOk, IfSome, OnOk, OnErr};
ghost use Rattle.rv_pla.specs.declared.cube.TheConstants.{MOST_INPUTS};
ghost use Rattle.rv_cube.specs.declared.list.TheConstants.{MOST_CUBES};
ghost use Rattle.rv_exorlink.specs.Lists.{IsSameBut};
ghost use Rattle.rv_exorlink.specs.Weight.{IsNoWorse};

use super::change::change_all;
use super::finder::Finder;
use super::free::Free;
use super::goal::{Goal, most_of, total};
use super::list::slot_of;
use super::price::{are_near, cheapest};
use super::prices::Prices;
use super::way::exorlink;
use rv_cube::MOST_CUBES;
use rv_pla::{Cube, MOST_INPUTS};
use std::alloc::{AllocError, Global};

// From so many cubes on only pairs that agree in some inputs are tried, of about so many cubes each.
const GROUP: usize = 1024;

/// What a sweep looks for.
#[derive(Clone, Copy)]
pub struct Plan {
    pub with_three: bool,
    /// A row in four may grow by a cube.
    pub is_hot: bool,
}

#[derive(Clone, Copy)]
struct Pair {
    i: usize,
    j: usize,
    places: [u8; 3],
}

// A pair of a cube and one of these, both of which stand in the list, and a way whose price is below the limit.
fn find_pair(
    finder: &Finder,
    cubes: &[Cube],
    cube: Cube,
    others: &[Cube],
    inputs: u8,
    with_three: bool,
    free: &Free,
    limit: i64,
    prices: &mut Prices,
) -> Option<Pair>
    requires { inputs ≤ MOST_INPUTS }
    ensures within { IfSome result (λ p. p.i < length cubes.now) }
    ensures order { IfSome result (λ p. p.j < p.i) }
{
    for other in others {
        if are_near(cube, *other, with_three) {
            let a = slot_of(finder, cubes, cube)?;
            if let Some(b) = slot_of(finder, cubes, *other) {
                let (i, j) = if a < b { (b, a) } else { (a, b) };
                if j < i && i < cubes.len() {
                    if let Some(way) = cheapest(finder, cubes, i, j, inputs, free, prices) {
                        if way.price < limit {
                            let places = way.places;
                            return Some(Pair { i, j, places });
                        }
                    }
                }
            }
        }
    }
    None
}

// Makes the first exorlink of a cube and one of these whose price is below the limit.
fn try_row(
    cubes: &mut Vec<Cube>,
    finder: &mut Finder,
    cube: Cube,
    others: &[Cube],
    inputs: u8,
    with_three: bool,
    free: &Free,
    limit: i64,
    prices: &mut Prices,
) -> Result<(), AllocError>
    requires { inputs ≤ MOST_INPUTS }
    ensures { OnOk result (IsSameBut inputs free.now cubes.old.items cubes.new.items) }
{
    match find_pair(
        finder, cubes, cube, others, inputs, with_three, free, limit, prices,
    ) {
        Some(pair) => exorlink(cubes, finder, pair.i, pair.j, &pair.places, inputs, free),
        None => Ok(()),
    }
}

// Some inputs, so that about GROUP cubes agree in them.
fn grouping(count: usize, inputs: u8, prices: &mut Prices) -> u16 {
    let mut groups = count / GROUP;
    let mut set = 0u16;
    for _turn in 0..64u8 {
        if groups > 1 && set.count_ones() < u32::from(inputs) {
            let input = prices.next_number() % u32::from(inputs).max(1);
            set |= 1u16 << (input & 15);
            groups /= 2;
        }
    }
    set
}

#[inline(always)]
fn group_of(cube: Cube, set: u16) -> u32 {
    u32::from(cube.care & set) << 16 | u32::from(cube.want & set)
}

// The cubes of a list; those that agree in these inputs stand together.
fn rows_of(alloc: Global, cubes: &[Cube], set: u16) -> Result<Vec<Cube>, AllocError> {
    let mut rows = Vec::from_slice(alloc, cubes)?;
    if set != 0 {
        rows.sort_unstable_by_key(|cube| group_of(*cube, set));
    }
    Ok(rows)
}

// Where the group of the cube at i begins, if that of the one before begins at `start`.
#[inline(always)]
fn start_of(rows: &[Cube], start: usize, i: usize, set: u16) -> usize
    requires ordered { start ≤ i }
    requires within { i < length rows.now }
    ensures { result ≤ i }
{
    if group_of(rows[start], set) == group_of(rows[i], set) {
        start
    } else {
        i
    }
}

/// Tries the pairs of cubes once, those of a long list that agree in some inputs. Fails only for want of memory.
pub fn sweep(
    alloc: Global,
    cubes: &mut Vec<Cube>,
    finder: &mut Finder,
    inputs: u8,
    plan: Plan,
    free: &Free,
    prices: &mut Prices,
) -> Result<(), AllocError>
    requires { inputs ≤ MOST_INPUTS }
    ensures { OnOk result (IsSameBut inputs free.now cubes.old.items cubes.new.items) }
{
    finder.fit(alloc, cubes)?;
    let set = grouping(cubes.len(), inputs, prices);
    let rows = rows_of(alloc, cubes, set)?;
    let mut start = 0usize;
    for i in 0..rows.len() {
        start = start_of(&rows, start, i, set);
        let limit = prices.row_limit(plan.is_hot);
        let others = &rows[start..i];
        prices.ask(others.len() as u64 / 128);
        try_row(
            cubes,
            finder,
            rows[i],
            others,
            inputs,
            plan.with_three,
            free,
            limit,
            prices,
        )?;
    }
    change_all(cubes, finder, inputs, free, prices)
}

// How a walk goes on: with random prices, or else by weight alone.
#[derive(Clone, Copy)]
struct Course {
    is_random: bool,
    // the sweeps in all, and those in turn without gain
    rounds: u32,
    idle: u16,
    // the prices that are asked for
    work: u64,
}

// The best list of a walk.
fn walk(
    alloc: Global,
    cubes: &[Cube],
    inputs: u8,
    free: &Free,
    goal: Goal,
    course: Course,
    prices: &mut Prices,
) -> Result<Vec<Cube>, AllocError>
    requires few { inputs ≤ MOST_INPUTS }
    requires few_cubes { length cubes.now ≤ MOST_CUBES }
    ensures same { IfOk result (λ v. IsSameBut inputs free.now cubes.now v.items) }
    ensures better { IfOk result (λ v. IsNoWorse goal cubes.now v.items) }
{
    let most = most_of(goal, cubes.len());
    let mut now = Vec::from_slice(alloc, cubes)?;
    let mut finder = Finder::new(alloc, cubes)?;
    let mut best = Vec::from_slice(alloc, cubes)?;
    let mut best_weight = total(goal, cubes);
    let mut since = 0u16;
    for round in 0..course.rounds {
        if since >= course.idle || prices.asked > course.work {
            break;
        }
        since += 1;
        prices.heat = if course.is_random {
            i64::from(49 - round % 50) * 10
        } else {
            -1
        };
        let plan = Plan {
            with_three: course.is_random || since > 1,
            is_hot: course.is_random && since % 10 == 0,
        };
        sweep(alloc, &mut now, &mut finder, inputs, plan, free, prices)?;
        if now.len() <= most {
            let weight = total(goal, &now);
            if weight < best_weight {
                if !course.is_random || prices.is_gain(best_weight - weight) {
                    since = 0;
                }
                best_weight = weight;
                best = Vec::from_slice(alloc, &now)?;
            }
        }
    }
    Ok(best)
}

/// Makes the list lighter by exorlinks, until `effort` sweeps in turn have not found a lighter one. But for free
/// entries the value stays at every word. Fails only for want of memory.
pub fn shorten(
    alloc: Global,
    cubes: &mut Vec<Cube>,
    inputs: u8,
    free: &Free,
    goal: Goal,
    effort: u16,
    seed: u16,
) -> Result<(), AllocError>
    requires few { inputs ≤ MOST_INPUTS }
    requires few_cubes { length cubes.old.items ≤ MOST_CUBES }
    ensures same { IsSameBut inputs free.now cubes.old.items cubes.new.items }
    ensures better { IsNoWorse goal cubes.old.items cubes.new.items }
    ensures err { OnErr result (cubes.new.items ≡ cubes.old.items) }
{
    let mut prices = Prices::new(goal, seed);
    let random = Course {
        is_random: true,
        rounds: u32::from(effort) * 16,
        idle: effort,
        work: u64::from(effort) * 100_000,
    };
    let walked = walk(alloc, cubes, inputs, free, goal, random, &mut prices)?;
    prices.asked = 0;
    let descent = Course {
        is_random: false,
        rounds: u32::from(effort),
        idle: 2,
        work: u64::from(effort) * 10_000,
    };
    *cubes = walk(alloc, &walked, inputs, free, goal, descent, &mut prices)?;
    Ok(())
}
