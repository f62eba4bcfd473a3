// Which way leads from one cube to another. Any way is right, so nothing is proved of it.
ghost use Rattle.std.specs.Prelude.{◌≡◌, ◌<◌, ◌≤◌, length};
ghost use Rattle.rv_pla.specs.declared.cube.TheConstants.{MOST_INPUTS};

use super::cube::{differing_set, step_of, sum_of};
use super::finder::Finder;
use super::free::Free;
use super::goal::{Goal, weight};
use super::list::neighbour;
use super::prices::Prices;
use rv_pla::{Cube, MOST_INPUTS};

/// What adding a cube changes in weight, with the cubes at a and b gone, if it becomes one with no more than one other.
pub fn price(
    finder: &Finder,
    cubes: &[Cube],
    cube: Cube,
    a: usize,
    b: usize,
    inputs: u8,
    goal: Goal,
) -> i64
    requires { inputs ≤ MOST_INPUTS }
{
    let own = weight(goal, cube) as i64;
    let Some(slot) = neighbour(finder, cubes, cube, a, b, inputs) else {
        return own;
    };
    if slot >= cubes.len() {
        return own;
    }
    match sum_of(cube, cubes[slot], inputs) {
        Some(sum) => (weight(goal, sum) as i64).wrapping_sub(weight(goal, cubes[slot]) as i64),
        None => own,
    }
}

/// Whether two cubes differ at two or three places, the outputs being one.
#[inline(always)]
pub fn are_near(x: Cube, y: Cube, with_three: bool) -> bool {
    let first = differing_set(x, y);
    let second = first & first.wrapping_sub(1);
    let third = second & second.wrapping_sub(1);
    if third & third.wrapping_sub(1) != 0 {
        return false;
    }
    let count = u8::from(first != 0)
        + u8::from(second != 0)
        + u8::from(third != 0)
        + u8::from(x.outs != y.outs);
    count == 2 || count == 3 && with_three
}

/// Places at which two cubes differ, in some order, and what an exorlink by them changes in weight.
#[derive(Clone, Copy)]
pub struct Way {
    pub places: [u8; 3],
    pub price: i64,
}

// The two or three places at which two cubes differ, and how many they are. Of two the last stands twice.
fn places_of(x: Cube, y: Cube, inputs: u8) -> Option<([u8; 3], usize)> {
    let mut apart = differing_set(x, y);
    let mut places = [inputs; 3];
    let mut count = 0usize;
    for _turn in 0..4u8 {
        if apart != 0 {
            if count >= 3 {
                return None;
            }
            places[count] = (apart.trailing_zeros() & 15) as u8;
            count += 1;
            apart &= apart.wrapping_sub(1);
        }
    }
    if x.outs != y.outs {
        count = count.wrapping_add(1);
    }
    if count == 2 || count == 3 {
        Some((places, count))
    } else {
        None
    }
}

// The order by which the full set was reached.
fn order_of(places: &[u8; 3], last: &[usize; 8], count: usize) -> [u8; 3] {
    let mut order = [places[0]; 3];
    let mut set = if count == 2 { 3usize } else { 7usize };
    for i in 0..3usize {
        let place = last[set % 8] % 3;
        order[2 - i] = places[place];
        if set % 8 != 0 {
            set &= !(1usize << place);
        }
    }
    if count == 2 {
        order[0] = order[1];
    }
    order
}

/// The cheapest way from the cube at a to that at b, by prices that are shaken, where they differ at two or three
/// places.
pub fn cheapest(
    finder: &Finder,
    cubes: &[Cube],
    a: usize,
    b: usize,
    inputs: u8,
    free: &Free,
    prices: &mut Prices,
) -> Option<Way>
    requires few { inputs ≤ MOST_INPUTS }
    requires first { a < length cubes.now }
    requires second { b < length cubes.now }
{
    let (x, y) = (cubes[a], cubes[b]);
    let (places, count) = places_of(x, y, inputs)?;
    let goal = prices.goal;
    let mut at = [x; 8];
    let mut best = [i64::MAX; 8];
    let mut last = [0usize; 8];
    let full = if count == 2 { 3usize } else { 7usize };
    let gone = (weight(goal, x) as i64).wrapping_add(weight(goal, y) as i64);
    best[0] = 0i64.wrapping_sub(prices.shaken(gone));
    prices.ask(if count == 2 { 4 } else { 12 });
    for from in 0..full {
        for k in 0..3usize {
            let to = (from | 1usize << k) % 8;
            if k < count && to != from {
                if let Some(step) = step_of(at[from], y, places[k], inputs) {
                    let cost = if free.has(step.sum, inputs) {
                        0
                    } else {
                        let own = price(finder, cubes, step.sum, a, b, inputs, goal);
                        prices.shaken(own)
                    };
                    let total = best[from].wrapping_add(cost);
                    if total < best[to] {
                        best[to] = total;
                        last[to] = k;
                        at[to] = step.next;
                    }
                }
            }
        }
    }
    Some(Way {
        places: order_of(&places, &last, count),
        price: best[full],
    })
}
