// A circuit for a table by a way that ends wherever there are lines enough.
ghost use Rattle.std.specs.Prelude.{◌≡◌, ℕ, Err, IfOk};
ghost use Rattle.rv_cube.specs.ReductionFor.{IsRight};
ghost use Rattle.rv_embed.specs.Embedding.{least_lines};
ghost use Rattle.rv_embed.specs.Least.{IsEmbedding, NoCircuitHasFewer};
ghost use Rattle.rv_pla.specs.FreeEntries.{HasNoFree};
ghost use Rattle.rv_realize.specs.Realized.{IsEmbeddable, IsRealized, IsTooFew, IsTooLong, reduced_list};
ghost use Rattle.rv_realize.specs.declared.options.RealizeFault.TheVariants.{TooManyGates, TooManyLines};

use crate::RealizeFault;
use rv_cube::CubeList;
use rv_dbs::synth_single;
use rv_embed::{EmbedFault, embed};
use rv_esop::{EsopFault, cascade};
use rv_gate::Circuit;
use rv_perm::PermSpec;
use rv_pla::Pla;
use std::alloc::{AllocError, Global};

// By single-target gates for the embedding.
fn by_embedding(
    alloc: Global,
    pla: &Pla,
    spec: &PermSpec,
    most: u8,
) -> Result<Circuit, RealizeFault>
    requires embeds { IsEmbedding pla.now spec.now }
    requires lines { spec.now.table.lines ≡ least_lines pla.now }
    requires embeddable { IsEmbeddable pla.now }
    requires least { HasNoFree pla.now → NoCircuitHasFewer pla.now spec.now.table.lines }
    ensures realized { IfOk result (IsRealized pla.now most) }
    ensures too_many_lines { (n : ℕ) → result ≡ Err (TooManyLines n) → IsTooFew pla.now most n }
    ensures few_gates { ¬ (result ≡ Err TooManyGates) }
{
    let lines = spec.perm().lines();
    if lines > most {
        return Err(RealizeFault::TooManyLines(lines));
    }
    Ok(synth_single(alloc, spec)?)
}

/// The first list of cubes of a table, reduced.
pub(crate) fn reduced_list(alloc: Global, pla: &Pla) -> Result<CubeList, AllocError>
    ensures inputs { IfOk result (λ list. list.inputs ≡ pla.now.inputs) }
    ensures outputs { IfOk result (λ list. list.outputs ≡ pla.now.outputs) }
    ensures right { IfOk result (λ list. IsRight pla.now list.cubes) }
    ensures list { IfOk result (λ list. list ≡ reduced_list pla.now) }
{
    let mut list = CubeList::from_pla(alloc, pla)?;
    list.reduce_for(pla)?;
    Ok(list)
}

// By the cascade of the reduced exclusive sum.
fn by_cascade(alloc: Global, pla: &Pla, most: u8) -> Result<Circuit, RealizeFault>
    requires { ¬ IsEmbeddable pla.now }
    ensures realized { IfOk result (IsRealized pla.now most) }
    ensures too_many_lines { (n : ℕ) → result ≡ Err (TooManyLines n) → IsTooFew pla.now most n }
    ensures too_many_gates { result ≡ Err TooManyGates → IsTooLong pla.now most }
{
    let lines = pla.inputs() + pla.outputs();
    if lines > most {
        return Err(RealizeFault::TooManyLines(lines));
    }
    let list = reduced_list(alloc, pla)?;
    match cascade(alloc, &list) {
        Ok(circuit) => Ok(circuit),
        Err(EsopFault::TooManyGates(_)) => Err(RealizeFault::TooManyGates),
        Err(EsopFault::Mem) => Err(RealizeFault::Mem),
    }
}

/// A circuit on few lines enough for the embedding, or for the inputs and outputs side by side where there is none.
pub(crate) fn first_circuit(alloc: Global, pla: &Pla, most: u8) -> Result<Circuit, RealizeFault>
    ensures realized { IfOk result (IsRealized pla.now most) }
    ensures too_many_lines { (n : ℕ) → result ≡ Err (TooManyLines n) → IsTooFew pla.now most n }
    ensures too_many_gates { result ≡ Err TooManyGates → IsTooLong pla.now most }
{
    match embed(alloc, pla) {
        Ok(embedded) => by_embedding(alloc, pla, &embedded.spec, most),
        Err(EmbedFault::TooManyLines(_)) => by_cascade(alloc, pla, most),
        Err(EmbedFault::Mem) => Err(RealizeFault::Mem),
    }
}
