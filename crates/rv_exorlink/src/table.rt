// A first list from a table of values: at each input the table is written by two of its half with a 0 there, its half
// with a 1, and the exclusive or of both.
ghost use Rattle.std.specs.Prelude.{◌≡◌, ◌<◌, ◌≤◌, ◌+◌, ◌-◌, ◌^◌, ℕ, Bool, List, length, slice_index, All, IfOk, OnOk};
ghost use Rattle.rv_gate.specs.Word.{number_of};
ghost use Rattle.rv_pla.specs.Cube.{One, Zero};
ghost use Rattle.rv_pla.specs.declared.cube.TheConstants.{MOST_INPUTS};
ghost use Rattle.rv_cube.specs.Esop.{esop_value, IsTerm};
ghost use Rattle.rv_cube.specs.Distance.{with_symbol};
ghost use Rattle.rv_exorlink.specs.Tables.{AreSums, Fills};

use super::cube::put;
use super::goal::Goal;
use rv_pla::{Cube, MOST_INPUTS};
use std::alloc::{AllocError, Global};

fn sums_of(alloc: Global, xs: &[u16], ys: &[u16]) -> Result<Vec<u16>, AllocError>
    requires { length xs.now ≡ length ys.now }
    ensures { IfOk result (λ v. AreSums xs.now ys.now v.items) }
{
    let mut sums = Vec::new(alloc);
    for i in 0..ys.len() {
        sums.push(xs[i] ^ ys[i])?;
    }
    Ok(sums)
}

pub fn with_one(cube: Cube, input: u8) -> Cube
    requires { input < MOST_INPUTS }
    ensures { result ≡ with_symbol cube input One }
{
    Cube {
        care: put(cube.care, input, true),
        want: put(cube.want, input, true),
        outs: cube.outs,
    }
}

pub fn with_zero(cube: Cube, input: u8) -> Cube
    requires { input < MOST_INPUTS }
    ensures { result ≡ with_symbol cube input Zero }
{
    Cube {
        care: put(cube.care, input, true),
        want: put(cube.want, input, false),
        outs: cube.outs,
    }
}

/// Which two parts a table is written by.
#[derive(Clone, Copy)]
enum Split {
    /// Both halves.
    Halves,
    /// The half with a 0, and the exclusive or where there is a 1.
    Lower,
    /// The half with a 1, and the exclusive or where there is a 0.
    Upper,
}

// From what a table costs on, it is not looked at any deeper.
const LARGE: usize = 1024;

// How many cubes a table needs, about. Nothing rests on the answer.
fn cost(alloc: Global, values: &[u16], goal: Goal) -> Result<u64, AllocError> {
    let mut count = 0u64;
    for value in values {
        if *value != 0 {
            count = count.saturating_add(1);
        }
    }
    if count == 0 || values.len() < 2 || values.len() > LARGE {
        return Ok(count);
    }
    let half = values.len() / 2;
    let mut sums = Vec::new(alloc);
    for i in 0..half {
        sums.push(values[i] ^ values[half + i])?;
    }
    let lower = cost(alloc, &values[..half], goal)?;
    let upper = cost(alloc, &values[half..], goal)?;
    let both = cost(alloc, &sums, goal)?;
    let literal = match goal {
        Goal::Quantum | Goal::T => 2u64,
        Goal::Cubes | Goal::Gates => 1,
    };
    let halves = lower.saturating_add(upper).saturating_mul(literal);
    let low = lower.saturating_add(both.saturating_mul(literal));
    let high = upper.saturating_add(both.saturating_mul(literal));
    Ok(halves.min(low).min(high))
}

// The parts that cost least. Nothing rests on the answer.
fn cheapest_split(
    alloc: Global,
    lower: &[u16],
    upper: &[u16],
    both: &[u16],
    goal: Goal,
) -> Result<Split, AllocError> {
    let low = cost(alloc, lower, goal)?;
    let high = cost(alloc, upper, goal)?;
    let sum = cost(alloc, both, goal)?;
    let literal = match goal {
        Goal::Quantum | Goal::T => 2u64,
        Goal::Cubes | Goal::Gates => 1,
    };
    let halves = low.saturating_add(high).saturating_mul(literal);
    let by_lower = low.saturating_add(sum.saturating_mul(literal));
    let by_upper = high.saturating_add(sum.saturating_mul(literal));
    if halves <= by_lower && halves <= by_upper {
        Ok(Split::Halves)
    } else if by_lower <= by_upper {
        Ok(Split::Lower)
    } else {
        Ok(Split::Upper)
    }
}

// Puts in the cube of a prefix with the only value of a table.
fn put_value(
    cubes: &mut Vec<Cube>,
    prefix: Cube,
    outs: u16,
    inputs: u8,
    values: &[u16],
) -> Result<(), AllocError>
    requires one { length values.now ≡ 1 }
    requires value { outs ≡ slice_index values.now 0 }
    ensures { OnOk result (Fills inputs prefix inputs values.now cubes.old.items cubes.new.items) }
{
    if outs == 0 {
        return Ok(());
    }
    cubes.push(Cube {
        care: prefix.care,
        want: prefix.want,
        outs,
    })?;
    Ok(())
}

// Puts in cubes that have the table's values where the prefix matches.
fn fill(
    alloc: Global,
    cubes: &mut Vec<Cube>,
    prefix: Cube,
    from: u8,
    inputs: u8,
    values: &[u16],
    goal: Goal,
) -> Result<(), AllocError>
    requires few { inputs ≤ MOST_INPUTS }
    requires within { from ≤ inputs }
    requires full { length values.now ≡ 2 ^ (inputs - from) }
    requires free { prefix.care < 2 ^ from }
    ensures { OnOk result (Fills inputs prefix from values.now cubes.old.items cubes.new.items) }
{
    if from == inputs {
        return put_value(cubes, prefix, values[0], inputs, values);
    }
    let half = values.len() / 2;
    let (lower, upper) = (&values[..half], &values[half..]);
    let both = sums_of(alloc, lower, upper)?;
    let (zero, one) = (with_zero(prefix, from), with_one(prefix, from));
    match cheapest_split(alloc, lower, upper, &both, goal)? {
        Split::Halves => {
            fill(alloc, cubes, zero, from + 1, inputs, lower, goal)?;
            fill(alloc, cubes, one, from + 1, inputs, upper, goal)
        }
        Split::Lower => {
            fill(alloc, cubes, prefix, from + 1, inputs, lower, goal)?;
            fill(alloc, cubes, one, from + 1, inputs, &both, goal)
        }
        Split::Upper => {
            fill(alloc, cubes, prefix, from + 1, inputs, upper, goal)?;
            fill(alloc, cubes, zero, from + 1, inputs, &both, goal)
        }
    }
}

/// A list with the value of a table at each word, the first input of a word being the highest digit of its number.
/// Fails only for want of memory.
pub fn kronecker(
    alloc: Global,
    inputs: u8,
    values: &[u16],
    goal: Goal,
) -> Result<Vec<Cube>, AllocError>
    requires few { inputs ≤ MOST_INPUTS }
    requires full { length values.now ≡ 2 ^ inputs }
    ensures value { IfOk result (λ v. (word : List Bool) → length word ≡ inputs
        → esop_value v.items word ≡ slice_index values.now (number_of word)) }
    ensures terms { IfOk result (λ v. (outputs : ℕ) → All (λ x. x < 2 ^ outputs) values.now
        → All (IsTerm inputs outputs) v.items) }
    ensures few { IfOk result (λ v. length v.items ≤ 2 ^ inputs) }
{
    let mut cubes = Vec::new(alloc);
    let prefix = Cube {
        care: 0,
        want: 0,
        outs: 0,
    };
    fill(alloc, &mut cubes, prefix, 0, inputs, values, goal)?;
    Ok(cubes)
}
