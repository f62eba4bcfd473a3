// Sums of two cubes.
ghost use Rattle.std.specs.Prelude.{◌≡◌, ◌<◌, ◌≤◌, ◌^◌, ℕ, IfSome, IsTrue};
ghost use Rattle.rv_gate.specs.Word.{has};
ghost use Rattle.rv_pla.specs.Cube.{symbol, symbol_of};
ghost use Rattle.rv_pla.specs.declared.cube.TheConstants.{MOST_INPUTS};
ghost use Rattle.rv_cube.specs.Distance.{differs, third, cares, wants_one, with_third, with_symbol, put};
ghost use Rattle.rv_exorlink.specs.Sums.{IsSum, IsStep};

use rv_pla::{Cube, MOST_INPUTS, has};

pub fn put(set: u16, line: u8, on: bool) -> u16
    requires { line < MOST_INPUTS }
    ensures { result ≡ put set line on }
{
    if has(set, line) == on {
        set
    } else {
        set ^ 1 << line
    }
}

// The set of the inputs in which two cubes differ.
#[inline(always)]
pub fn differing_set(a: Cube, b: Cube) -> u16
    ensures { (input : ℕ) → has result input ≡ differs a b input }
{
    (a.care ^ b.care) | a.care & (a.want ^ b.want)
}

fn third_care(a: bool, a_want: bool, b: bool, b_want: bool) -> bool
    ensures { result ≡ cares (third (symbol_of a a_want) (symbol_of b b_want)) }
{
    if a != b {
        return true;
    }
    a && a_want == b_want
}

fn third_want(a: bool, a_want: bool, b: bool, b_want: bool) -> bool
    ensures { result ≡ wants_one (third (symbol_of a a_want) (symbol_of b b_want)) }
{
    match (a, b) {
        (true, true) => a_want && b_want,
        (true, false) => !a_want,
        (false, true) => !b_want,
        (false, false) => false,
    }
}

// The cube `a` with the third of both symbols at one input.
#[tactic(auto, unfolding(rv_cube::specs::Distance::with_third))]
fn with_third(a: Cube, b: Cube, input: u8) -> Cube
    requires { input < MOST_INPUTS }
    ensures { result ≡ with_third a b input }
{
    let (a_care, a_want) = (has(a.care, input), has(a.want, input));
    let (b_care, b_want) = (has(b.care, input), has(b.want, input));
    Cube {
        care: put(a.care, input, third_care(a_care, a_want, b_care, b_want)),
        want: put(a.want, input, third_want(a_care, a_want, b_care, b_want)),
        outs: a.outs,
    }
}

fn care_of(care: bool, want: bool) -> bool
    ensures { result ≡ cares (symbol_of care want) }
{
    match (care, want) {
        (true, _) => true,
        (false, _) => false,
    }
}

fn want_of(care: bool, want: bool) -> bool
    ensures { result ≡ wants_one (symbol_of care want) }
{
    match (care, want) {
        (true, true) => true,
        (true, false) => false,
        (false, _) => false,
    }
}

// The cube `a` with b's symbol at one input.
fn with_symbol_of(a: Cube, b: Cube, input: u8) -> Cube
    requires { input < MOST_INPUTS }
    ensures { result ≡ with_symbol a input (symbol b input) }
{
    let (care, want) = (has(b.care, input), has(b.want, input));
    Cube {
        care: put(a.care, input, care_of(care, want)),
        want: put(a.want, input, want_of(care, want)),
        outs: a.outs,
    }
}

/// The one cube whose value is the sum of those of two, where they differ at no more than one place: an input, or the
/// outputs.
pub fn sum_of(a: Cube, b: Cube, inputs: u8) -> Option<Cube>
    requires { inputs ≤ MOST_INPUTS }
    ensures { IfSome result (IsSum inputs a b) }
{
    let apart = differing_set(a, b);
    if apart == 0 {
        return Some(Cube {
            care: a.care,
            want: a.want,
            outs: a.outs ^ b.outs,
        });
    }
    let place = apart.trailing_zeros();
    if a.outs != b.outs || place >= u32::from(inputs) {
        return None;
    }
    let input = place as u8;
    if apart == 1 << input {
        Some(with_third(a, b, input))
    } else {
        None
    }
}

/// A step of the way from one cube to another.
#[derive(Clone, Copy)]
pub struct Step {
    /// The sum of the cubes before and after the step.
    pub sum: Cube,
    /// The cube after it.
    pub next: Cube,
}

/// The step by which x takes y's symbol at a place, where they differ there: an input, or, past the inputs, the
/// outputs.
pub fn step_of(x: Cube, y: Cube, place: u8, inputs: u8) -> Option<Step>
    requires { inputs ≤ MOST_INPUTS }
    ensures { IfSome result (λ s. IsStep inputs x y s.sum s.next) }
{
    if place < inputs {
        if has(differing_set(x, y), place) {
            return Some(Step {
                sum: with_third(x, y, place),
                next: with_symbol_of(x, y, place),
            });
        }
        return None;
    }
    if x.outs == y.outs {
        return None;
    }
    Some(Step {
        sum: Cube {
            care: x.care,
            want: x.want,
            outs: x.outs ^ y.outs,
        },
        next: Cube {
            care: x.care,
            want: x.want,
            outs: y.outs,
        },
    })
}

pub fn are_same(x: Cube, y: Cube) -> bool
    ensures { IsTrue result → x ≡ y }
{
    x.care == y.care && x.want == y.want && x.outs == y.outs
}
