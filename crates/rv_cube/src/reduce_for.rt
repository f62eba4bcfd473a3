// The list reduced for a PLA.
ghost use Rattle.std.specs.Prelude.{◌≡◌, All, IfOk};
ghost use Rattle.rv_pla.specs.declared.cube.TheConstants.{MOST_OUTPUTS};
ghost use Rattle.rv_cube.specs.Esop.{IsTerm};
ghost use Rattle.rv_cube.specs.ReductionFor.{reduced_for};
ghost use Rattle.rv_cube.specs.inside.Meaning.{AreReducedFor};

use super::idle::{first_idle, free_sets};
use super::reduce::slots_of;
use super::reduction::Reduction;
use rv_pla::{Cube, Pla};
use std::alloc::{AllocError, Global};

/// The list after the first step that applies was made, outputs that only concern free entries dropped too,
/// again and again until none did. Fails only for want of memory.
#[tactic(auto, using(crate::proofs::inside::IdleSlots::ended))]
pub fn reduce_for(alloc: Global, cubes: &[Cube], pla: &Pla) -> Result<Vec<Cube>, AllocError>
    requires { All (IsTerm pla.now.inputs MOST_OUTPUTS) cubes.now }
    ensures list { IfOk result (λ v. v.items ≡ reduced_for pla.now cubes.now) }
    ensures means { IfOk result (λ v. AreReducedFor pla.now cubes.now v.items) }
{
    let free = free_sets(alloc, pla)?;
    let slots = slots_of(alloc, cubes, pla.inputs())?;
    let no_cube = Cube {
        care: 0,
        want: 0,
        outs: 0,
    };
    let mut vain = vec![in alloc; no_cube; slots.len()]?;
    let mut reduction = Reduction::new(alloc, slots)?.run()?;
    'drops: loop {
        match first_idle(reduction.slots(), pla, &free, &mut vain) {
            Some((slot, output)) => reduction = reduction.drop_output(slot, output)?.run()?,
            None => return Ok(reduction.into_cubes()),
        }
    }
}
