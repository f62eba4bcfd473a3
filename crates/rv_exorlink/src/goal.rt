// What a list should have little of.
ghost use Rattle.std.specs.Prelude.{◌≡◌, ◌<◌, ◌≤◌, ◌^◌, length};
ghost use Rattle.std.specs.List.{sum_by};
ghost use Rattle.rv_cube.specs.declared.list.TheConstants.{MOST_CUBES};
ghost use Rattle.rv_exorlink.specs.Weight.{weight, most_of, flip_cost, quantum_cost, quantum_weight, t_count};

use rv_cube::MOST_CUBES;
use rv_pla::Cube;

/// What a list should have little of.
#[derive(Clone, Copy, Debug, PartialEq, Eq)]
pub enum Goal {
    /// Cubes, and then literals.
    Cubes,
    /// Gates of the cascade, one for each cube and output, and then literals.
    Gates,
    /// Quantum cost of the cascade, where the outputs of a cube may share its gate.
    Quantum,
    /// T gates of the cascade, where the outputs of a cube share its gate, and then gates.
    T,
}

/// What a cube weighs beside its literals.
pub const CUBE_WEIGHT: u64 = 4294967296;

/// What a T gate weighs beside the gates of the cascade.
pub const T_WEIGHT: u64 = 64;

// The quantum cost of a flip with so many controls.
#[tactic(auto, using(std::proofs::lemmas::Nat::one_shl))]
fn quantum_cost(controls: u32) -> u64
    requires { controls ≤ 16 }
    ensures value { result ≡ quantum_cost controls }
    ensures bound { result < 2 ^ 18 }
{
    if controls < 2 {
        1
    } else {
        (1u64 << (controls + 1)) - 3
    }
}

// The T gates of a flip with so many controls, where helper lines hold 0.
fn t_count(controls: u32) -> u64
    requires { controls ≤ 16 }
    ensures value { result ≡ t_count controls }
    ensures bound { result < 2 ^ 7 }
{
    if controls < 2 {
        0
    } else {
        u64::from(8 * controls - 9)
    }
}

// What a cube with so many literals and outputs, more than 0, adds to the quantum cost.
fn quantum_weight(literals: u32, outs: u64) -> u64
    requires few { literals ≤ 16 }
    requires some { 0 < outs }
    requires few_outs { outs ≤ 16 }
    ensures value { result ≡ quantum_weight literals outs }
    ensures bound { result < 2 ^ 19 }
{
    if literals < 2 {
        outs
    } else {
        quantum_cost(literals) + 2 * (outs - 1)
    }
}

/// What a flip with so many controls costs a cascade.
pub fn flip_cost(goal: Goal, controls: u32) -> u64
    requires { controls ≤ 16 }
    ensures value { result ≡ flip_cost goal controls }
    ensures bound { result < 2 ^ 18 }
{
    match goal {
        Goal::Cubes | Goal::Gates => 1,
        Goal::Quantum => quantum_cost(controls),
        Goal::T => T_WEIGHT * t_count(controls) + 1,
    }
}

/// What a cube adds to the weight of a list.
pub fn weight(goal: Goal, cube: Cube) -> u64
    ensures value { result ≡ weight goal cube }
    ensures bound { result < 2 ^ 37 }
{
    let literals = cube.care.count_ones();
    let outs = u64::from(cube.outs.count_ones());
    if outs == 0 {
        return 0;
    }
    match goal {
        Goal::Cubes => CUBE_WEIGHT + u64::from(literals),
        Goal::Gates => outs * (CUBE_WEIGHT + u64::from(literals)),
        Goal::Quantum => quantum_weight(literals, outs),
        Goal::T => T_WEIGHT * t_count(literals) + 2 * outs - 1,
    }
}

/// The weight of a list.
pub fn total(goal: Goal, cubes: &[Cube]) -> u64
    requires { length cubes.now ≤ MOST_CUBES }
    ensures { result ≡ sum_by (weight goal) cubes.now }
{
    let mut sum = 0u64;
    for cube in cubes {
        sum += weight(goal, *cube);
    }
    sum
}

/// How many cubes a list may have that is to be better than one of so many.
pub fn most_of(goal: Goal, cubes: usize) -> usize
    requires { cubes ≤ MOST_CUBES }
    ensures value { result ≡ most_of goal cubes }
    ensures few { result ≤ MOST_CUBES }
{
    match goal {
        Goal::Cubes => cubes,
        Goal::Gates | Goal::Quantum | Goal::T => MOST_CUBES,
    }
}
