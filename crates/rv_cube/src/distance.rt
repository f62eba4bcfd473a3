// In which inputs two cubes differ, and the third of two symbols.
ghost use Rattle.std.specs.Prelude.{◌≡◌, ◌<◌, ◌≤◌, ◌^◌, ℕ, bit_xor, if◌then◌else◌};
ghost use Rattle.rv_gate.specs.Word.{has};
ghost use Rattle.rv_pla.specs.Cube.{symbol, symbol_of, IsCube};
ghost use Rattle.rv_pla.specs.declared.cube.TheConstants.{MOST_INPUTS, MOST_OUTPUTS};
ghost use Rattle.rv_cube.specs.Distance.{differs, differing, distance, third, cares, wants_one, with_third, put};
ghost use Rattle.rv_cube.specs.Distance.{with_symbol};
ghost use Rattle.rv_cube.specs.inside.Apart.{further, Tells};
ghost use Rattle.rv_cube.specs.inside.Slotted.{turn};
ghost use Rattle.rv_cube.specs.inside.Moved.{turned_by};

use rv_pla::{Cube, MOST_INPUTS, MOST_OUTPUTS, has};

/// In which inputs two cubes differ, where these are at most two.
#[derive(Clone, Copy)]
pub enum Apart {
    Same,
    OneInput(u8),
    TwoInputs(u8, u8),
    More,
}

fn put(set: u16, line: u8, on: bool) -> u16
    requires { line < MOST_INPUTS }
    ensures { result ≡ put set line on }
{
    if has(set, line) == on {
        set
    } else {
        set ^ 1 << line
    }
}

// The set of the inputs in which two cubes differ.
#[inline(always)]
#[tactic(auto, using(crate::proofs::inside::Differing::apart_has))]
fn differing_set(a: Cube, b: Cube) -> u16
    ensures { (input : ℕ) → has result input ≡ differs a b input }
{
    (a.care ^ b.care) | a.care & (a.want ^ b.want)
}

fn further(found: Apart, input: u8) -> Apart
    ensures { result ≡ further found input }
{
    match found {
        Apart::Same => Apart::OneInput(input),
        Apart::OneInput(p) => Apart::TwoInputs(p, input),
        _ => Apart::More,
    }
}

/// The inputs in which two cubes differ, where they are at most two.
#[tactic(auto, using(crate::proofs::inside::Differing::told))]
pub fn differing(a: Cube, b: Cube, inputs: u8) -> Apart
    requires { inputs ≤ MOST_INPUTS }
    ensures { Tells inputs (differing inputs a b) result }
{
    let apart = differing_set(a, b);
    let mut found = Apart::Same;
    for input in 0..inputs {
        if has(apart, input) {
            found = further(found, input);
        }
    }
    found
}

fn third_care(a: bool, a_want: bool, b: bool, b_want: bool) -> bool
    ensures { result ≡ cares (third (symbol_of a a_want) (symbol_of b b_want)) }
{
    if a != b {
        return true;
    }
    a && a_want == b_want
}

fn third_want(a: bool, a_want: bool, b: bool, b_want: bool) -> bool
    ensures { result ≡ wants_one (third (symbol_of a a_want) (symbol_of b b_want)) }
{
    match (a, b) {
        (true, true) => a_want && b_want,
        (true, false) => !a_want,
        (false, true) => !b_want,
        (false, false) => false,
    }
}

/// The cube `a` with the third of both symbols at one input.
#[tactic(auto, unfolding(crate::specs::Distance::with_third))]
pub fn with_third(a: Cube, b: Cube, input: u8) -> Cube
    requires { input < MOST_INPUTS }
    ensures { result ≡ with_third a b input }
{
    let (a_care, a_want) = (has(a.care, input), has(a.want, input));
    let (b_care, b_want) = (has(b.care, input), has(b.want, input));
    Cube {
        care: put(a.care, input, third_care(a_care, a_want, b_care, b_want)),
        want: put(a.want, input, third_want(a_care, a_want, b_care, b_want)),
        outs: a.outs,
    }
}

// The set with a line put in or out, where another set has it.
#[inline(always)]
fn flipped(set: u16, by: u16, line: u8) -> u16
    requires { line < MOST_INPUTS }
    ensures { result ≡ (if has by line then bit_xor set (2 ^ line) else set) }
{
    set ^ by & 1 << line
}

/// The cube with another symbol at one input.
#[inline(always)]
#[tactic(auto, using(crate::proofs::inside::Turned::turned_care, crate::proofs::inside::Turned::turned_want))]
pub fn turned(cube: Cube, input: u8) -> Cube
    requires { input < MOST_INPUTS }
    ensures { result ≡ with_symbol cube input (turn (symbol cube input)) }
{
    let (care, want) = (cube.care, cube.want);
    Cube {
        care: flipped(care, !(care & want), input),
        want: flipped(want, !(care ^ want), input),
        outs: cube.outs,
    }
}

/// The cube with the third symbol at an input, of which `one` has the second.
#[inline(always)]
#[tactic(auto, using(crate::proofs::inside::Turned::turned_twice))]
pub fn turned_twice(cube: Cube, one: Cube, input: u8) -> Cube
    requires within { input < MOST_INPUTS }
    requires one { one ≡ with_symbol cube input (turn (symbol cube input)) }
    ensures { result ≡ with_third cube one input }
{
    let (care, want) = (cube.care, cube.want);
    Cube {
        care: flipped(care, !care | want, input),
        want: flipped(want, care | want, input),
        outs: cube.outs,
    }
}

/// How often a symbol is turned.
#[derive(Clone, Copy)]
pub enum Turns {
    Once,
    Twice,
}

/// The cube with its symbol at one input turned so often.
#[inline(always)]
pub fn turned_by(cube: Cube, input: u8, turns: Turns) -> Cube
    requires { input < MOST_INPUTS }
    ensures { result ≡ turned_by cube input turns }
{
    let one = turned(cube, input);
    match turns {
        Turns::Once => one,
        Turns::Twice => turned_twice(cube, one, input),
    }
}
