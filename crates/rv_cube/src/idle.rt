// Outputs of cubes that only concern free entries.
ghost use Rattle.std.specs.Prelude.{◌≡◌, ◌<◌, ◌≤◌, ◌+◌, ◌-◌, ◌*◌, ◌/◌, ◌^◌, ℕ, false, length, All, IfOk, IsTrue};
ghost use Rattle.std.specs.Prelude.{MatchOption};
ghost use Rattle.rv_gate.specs.Word.{has, ones_of, word_of};
ghost use Rattle.rv_pla.specs.Cube.{matches};
ghost use Rattle.rv_pla.specs.declared.cube.TheConstants.{MOST_INPUTS};
ghost use Rattle.rv_cube.specs.Reduction.{at};
ghost use Rattle.rv_cube.specs.ReductionFor.{is_idle};
ghost use Rattle.rv_cube.specs.inside.Idle.{free_at, free_sets, HasNoIdle, IsLeastIdle, IsFirstIdle};

use super::slots::Slots;
use super::value::{matches, ones_of};
use rv_pla::{Cube, Pla, has};
use std::alloc::{AllocError, Global};

#[tactic(auto, using(crate::proofs::inside::Entries::fronts), unfolding(rv_gate::specs::Word::ones_of))]
fn free_at(pla: &Pla, input: u32) -> u16
    requires { input < 2 ^ pla.now.inputs }
    ensures { result ≡ free_at pla.now input }
{
    let mut outs = 0;
    for output in 0..pla.outputs() {
        if pla.value(input, output).is_dont_care() {
            outs |= 1 << output;
        }
    }
    outs
}

/// The outputs that are free at each input word.
pub fn free_sets(alloc: Global, pla: &Pla) -> Result<Vec<u16>, AllocError>
    ensures { IfOk result (λ v. v.items ≡ free_sets pla.now) }
{
    let mut sets = Vec::new(alloc);
    for input in 0..1u32 << pla.inputs() {
        sets.push(free_at(pla, input))?;
    }
    Ok(sets)
}

// The first word with another bit than this one at an input.
fn past(inputs: u8, number: u32, input: u8) -> u32
    requires few { inputs ≤ MOST_INPUTS }
    requires input { input < inputs }
    requires word { number < 2 ^ inputs }
    ensures { result ≡ (number / 2 ^ (inputs - 1 - input) + 1) * 2 ^ (inputs - 1 - input) }
{
    let place = inputs - 1 - input;
    ((number >> place) + 1) * (1 << place)
}

// A later word, with none before it that the cube matches, for a word with these inputs that it doesn't.
#[tactic(auto, using(crate::proofs::inside::IdleSets::passing))]
fn next_word(cube: Cube, inputs: u8, number: u32, set: u16) -> u32
    requires few { inputs ≤ MOST_INPUTS }
    requires word { number < 2 ^ inputs }
    requires set { set ≡ ones_of (word_of inputs number) }
    ensures later { number < result }
    ensures within { result ≤ 2 ^ inputs }
    ensures none { (y : ℕ) → number < y → y < result → matches cube (word_of inputs y) ≡ false }
{
    let apart = (set ^ cube.want) & cube.care;
    for input in 0..inputs {
        if has(apart, input) {
            return past(inputs, number, input);
        }
    }
    number + 1
}

// The outputs of the cube that are free wherever it matches.
#[tactic(auto, using(crate::proofs::inside::IdleSets::counted))]
fn idle_outputs(pla: &Pla, free: &[u16], cube: Cube) -> u16
    requires free { free.now ≡ free_sets pla.now }
    requires asked { cube.care < 2 ^ pla.now.inputs }
    ensures { (j : ℕ) → j < pla.now.outputs → has result j ≡ is_idle pla.now cube j }
{
    let inputs = pla.inputs();
    let mut idle = cube.outs;
    let mut number = 0u32;
    while number < 1 << inputs {
        let set = ones_of(inputs, number);
        if matches(cube, inputs, number, set) {
            idle &= free[number as usize];
            if idle == 0 {
                return 0;
            }
            number += 1;
        } else {
            number = next_word(cube, inputs, number, set);
        }
    }
    idle
}

fn least_idle(pla: &Pla, free: &[u16], cube: Cube) -> Option<u8>
    requires free { free.now ≡ free_sets pla.now }
    requires asked { cube.care < 2 ^ pla.now.inputs }
    ensures { MatchOption result (HasNoIdle pla.now cube) (IsLeastIdle pla.now cube) }
{
    let idle = idle_outputs(pla, free, cube);
    for output in 0..pla.outputs() {
        if has(idle, output) {
            return Some(output);
        }
    }
    None
}

fn are_same(x: Cube, y: Cube) -> bool
    ensures { IsTrue result → x ≡ y }
{
    x.care == y.care && x.want == y.want && x.outs == y.outs
}

/// The first slot with such an output, and the least one. Cubes that were looked at in vain are kept by their
/// slots, as many as there is room for, and not looked at again.
pub fn first_idle(
    slots: &Slots,
    pla: &Pla,
    free: &[u16],
    vain: &mut Vec<Cube>,
) -> Option<(usize, u8)>
    requires inputs { slots.now.inputs ≡ pla.now.inputs }
    requires free { free.now ≡ free_sets pla.now }
    requires vain { All (HasNoIdle pla.now) vain.old.items }
    ensures vain { All (HasNoIdle pla.now) vain.new.items }
    ensures found { MatchOption result ((a : ℕ) → a < length slots.now.cubes
        → HasNoIdle pla.now (at slots.now.cubes a)) (λ r. IsFirstIdle pla.now slots.now.cubes r.0 r.1) }
{
    for a in 0..slots.len() {
        let cube = slots.cube(a);
        if a < vain.len() && are_same(vain[a], cube) {
            continue;
        }
        if let Some(output) = least_idle(pla, free, cube) {
            return Some((a, output));
        }
        if a < vain.len() {
            vain[a] = cube;
        }
    }
    None
}
