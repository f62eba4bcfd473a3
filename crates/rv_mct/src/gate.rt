ghost use Rattle.std.specs.Prelude.{◌≡◌, ◌+◌, ◌*◌, ◌<◌, ◌≤◌, length, take};
ghost use Rattle.rv_gate.specs.Gate.{FitsIn, IsGate};
ghost use Rattle.rv_gate.specs.Greatest.{greatest};
ghost use Rattle.rv_mct.specs.Blocks.{flips_of, flip_wish, wish, flip_cost, borrowed_ladder_cost, gate_cost};
ghost use Rattle.std.specs.List.{sum_by};

use crate::Aux;
use crate::flips::place;
use crate::lines::{count_lines, free_count};
use rv_gate::{Gate, LineSet, MOST_LINES, Shape};

fn flip(care: LineSet, want: LineSet, target: u8) -> Gate
    requires { IsGate (Shape.Flip care want target) }
    ensures { result ≡ Shape.Flip care want target }
{
    match Gate::flip(care, want, target) {
        Some(gate) => gate,
        None => unreachable!(),
    }
}

/// The flips that a gate stands for: the first so many of three.
pub fn flips_of(gate: Gate) -> ([Gate; 3], usize)
    ensures flips { take result.1 result.0 ≡ flips_of gate }
    ensures three { length result.0 ≡ 3 }
    ensures few { result.1 ≤ 3 }
    ensures valid { IsGate gate }
{
    match gate.shape() {
        Shape::Flip { .. } => ([gate, gate, gate], 1),
        Shape::Swap { care, want, a, b } => {
            let (first, second) = (place(a), place(b));
            let outer = flip(second, second, a);
            let middle = flip(care | first, want | first, b);
            ([outer, middle, outer], 3)
        }
        Shape::Peres { a, b, c } => {
            let (first, second) = (place(a), place(b));
            let double = flip(first | second, first | second, c);
            let single = flip(first, first, b);
            ([double, single, single], 2)
        }
    }
}

/// How many lines a flip wants.
pub(crate) fn flip_wish(aux: Aux, lines: u8, flip: Gate) -> u8
    requires { lines ≤ MOST_LINES }
    ensures value { result ≡ flip_wish aux lines flip }
    ensures few { result ≤ MOST_LINES }
{
    if let Shape::Flip { care, target, .. } = flip.shape() {
        let controls = count_lines(care);
        if controls < 3 {
            return 0;
        }
        match aux {
            Aux::Clean => return controls - 2,
            Aux::Borrowed => {
                if free_count(care, target, lines) == 0 {
                    return 1;
                }
            }
        }
    }
    0
}

fn borrowed_ladder_cost(controls: u8) -> u32
    requires { controls ≤ MOST_LINES }
    ensures value { result ≡ borrowed_ladder_cost controls }
    ensures few { result ≤ 256 }
{
    if controls < 3 {
        1
    } else {
        4 * (u32::from(controls) - 2)
    }
}

/// How many flips replace a flip.
pub(crate) fn flip_cost(aux: Aux, lines: u8, flip: Gate) -> u32
    requires { lines ≤ MOST_LINES }
    ensures value { result ≡ flip_cost aux lines flip }
    ensures few { result ≤ 1024 }
{
    if let Shape::Flip { care, target, .. } = flip.shape() {
        let controls = count_lines(care);
        if controls < 3 {
            return 1;
        }
        match aux {
            Aux::Clean => return 2 * u32::from(controls) - 3,
            Aux::Borrowed => {
                if free_count(care, target, lines) + 2 < controls {
                    return 2 * borrowed_ladder_cost((controls + 1) / 2)
                        + 2 * borrowed_ladder_cost(controls / 2 + 1);
                }
                return borrowed_ladder_cost(controls);
            }
        }
    }
    0
}

fn most_wished(flips: &[Gate], aux: Aux, lines: u8) -> u8
    requires { lines ≤ MOST_LINES }
    ensures value { result ≡ greatest (flip_wish aux lines) flips.now }
    ensures few { result ≤ MOST_LINES }
{
    let mut most = 0;
    for flip in flips {
        let wanted = flip_wish(aux, lines, *flip);
        if most < wanted {
            most = wanted;
        }
    }
    most
}

fn cost_together(flips: &[Gate], aux: Aux, lines: u8) -> u32
    requires few_lines { lines ≤ MOST_LINES }
    requires few_flips { length flips.now ≤ 3 }
    ensures value { result ≡ sum_by (flip_cost aux lines) flips.now }
    ensures few { result ≤ 3072 }
{
    let mut cost = 0;
    for flip in flips {
        cost += flip_cost(aux, lines, *flip);
    }
    cost
}

/// How many lines a gate wants.
pub(crate) fn wish(aux: Aux, lines: u8, gate: Gate) -> u8
    requires { lines ≤ MOST_LINES }
    ensures value { result ≡ wish aux lines gate }
    ensures few { result ≤ MOST_LINES }
{
    if let Shape::Flip { .. } = gate.shape() {
        return flip_wish(aux, lines, gate);
    }
    let (flips, count) = flips_of(gate);
    most_wished(&flips[..count], aux, lines)
}

/// How many flips replace a gate.
pub(crate) fn gate_cost(aux: Aux, lines: u8, gate: Gate) -> u32
    requires { lines ≤ MOST_LINES }
    ensures value { result ≡ gate_cost aux lines gate }
    ensures few { result ≤ 3072 }
{
    if let Shape::Flip { .. } = gate.shape() {
        return flip_cost(aux, lines, gate);
    }
    let (flips, count) = flips_of(gate);
    cost_together(&flips[..count], aux, lines)
}
