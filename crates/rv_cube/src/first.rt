// What a PLA gives for its first list.
ghost use Rattle.std.specs.Prelude.{◌≡◌, ◌<◌, ◌^◌, IfOk};
ghost use Rattle.rv_gate.specs.Word.{word_of};
ghost use Rattle.rv_cube.specs.First.{outputs_at, values_of, term_cubes};

use rv_pla::{Cube, Pla};
use std::alloc::{AllocError, Global};

#[tactic(auto, using(crate::proofs::inside::Entries::fronts), unfolding(rv_gate::specs::Word::ones_of))]
fn outputs_at(pla: &Pla, input: u32) -> u16
    requires { input < 2 ^ pla.now.inputs }
    ensures { result ≡ outputs_at pla.now (word_of pla.now.inputs input) }
{
    let mut outs = 0;
    for output in 0..pla.outputs() {
        if pla.value(input, output).bit() {
            outs |= 1 << output;
        }
    }
    outs
}

/// The outputs that are 1 at each input word.
pub fn values_of(alloc: Global, pla: &Pla) -> Result<Vec<u16>, AllocError>
    ensures { IfOk result (λ v. v.items ≡ values_of pla.now) }
{
    let mut values = Vec::new(alloc);
    for input in 0..1u32 << pla.inputs() {
        values.push(outputs_at(pla, input))?;
    }
    Ok(values)
}

/// The terms.
pub fn term_cubes(alloc: Global, pla: &Pla) -> Result<Vec<Cube>, AllocError>
    ensures { IfOk result (λ v. v.items ≡ term_cubes pla.now) }
{
    let mut cubes = Vec::new(alloc);
    for term in 0..pla.term_count() {
        cubes.push(pla.ones(term))?;
    }
    Ok(cubes)
}
