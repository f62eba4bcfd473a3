// The reduced list.
ghost use Rattle.std.specs.Prelude.{◌≡◌, ◌≤◌, [], All, IfOk, OnOk};
ghost use Rattle.rv_pla.specs.declared.cube.TheConstants.{MOST_INPUTS, MOST_OUTPUTS};
ghost use Rattle.rv_cube.specs.Esop.{terms_of, IsTerm};
ghost use Rattle.rv_cube.specs.Reduction.{reduced};
ghost use Rattle.rv_cube.specs.inside.Meaning.{AreReduced};

use super::reduction::Reduction;
use super::slots::Slots;
use rv_pla::{Cube, MOST_INPUTS};
use std::alloc::{AllocError, Global};

// Puts cubes into slots, in their order. Those with the same inputs become one.
#[tactic(auto, using(crate::proofs::inside::SettledList::fills_none, crate::proofs::inside::SettledList::fills_all))]
fn fill(slots: &mut Slots, cubes: &[Cube]) -> Result<(), AllocError>
    requires empty { slots.old.cubes ≡ [] }
    requires valid { All (IsTerm slots.old.inputs MOST_OUTPUTS) cubes.now }
    ensures inputs { OnOk result (slots.new.inputs ≡ slots.old.inputs) }
    ensures kept { OnOk result (reduced slots.old.inputs (terms_of slots.new.cubes)
        ≡ reduced slots.old.inputs cubes.now) }
{
    for i in 0..cubes.len() {
        let slot = slots.len();
        slots.open()?;
        slots.settle(slot, cubes[i])?;
    }
    Ok(())
}

// The cubes in slots. Those with the same inputs become one.
pub fn slots_of(alloc: Global, cubes: &[Cube], inputs: u8) -> Result<Slots, AllocError>
    requires some { 1 ≤ inputs }
    requires few { inputs ≤ MOST_INPUTS }
    requires valid { All (IsTerm inputs MOST_OUTPUTS) cubes.now }
    ensures inputs { IfOk result (λ s. s.inputs ≡ inputs) }
    ensures kept { IfOk result (λ s. reduced inputs (terms_of s.cubes) ≡ reduced inputs cubes.now) }
{
    let mut slots = Slots::new(alloc, inputs)?;
    match fill(&mut slots, cubes) {
        Ok(()) => Ok(slots),
        Err(error) => Err(error),
    }
}

/// The list after the first step that applies was made, again and again until none did. Fails only for want
/// of memory.
pub fn reduce(alloc: Global, cubes: &[Cube], inputs: u8) -> Result<Vec<Cube>, AllocError>
    requires some { 1 ≤ inputs }
    requires few { inputs ≤ MOST_INPUTS }
    requires valid { All (IsTerm inputs MOST_OUTPUTS) cubes.now }
    ensures list { IfOk result (λ v. v.items ≡ reduced inputs cubes.now) }
    ensures means { IfOk result (λ v. AreReduced inputs cubes.now v.items) }
{
    let slots = slots_of(alloc, cubes, inputs)?;
    let reduction = Reduction::new(alloc, slots)?.run()?;
    Ok(reduction.into_cubes())
}
