ghost use Rattle.std.specs.Prelude.{◌≡◌, ◌<◌, ◌≤◌, ℕ, Err, IfErr, IfOk, IfSome};
ghost use Rattle.rv_gate.specs.declared.word.TheConstants.{MOST_LINES};
ghost use Rattle.rv_realize.specs.Realized.{IsInPlace};
ghost use Rattle.rv_realize.specs.declared.options.RealizeFault.TheVariants.{Mem, TooManyGates, TooManyLines};

use crate::perm_ways::circuits_in_place;
use crate::rank::is_better;
use crate::{RealizeFault, RealizeOptions};
use rv_compare::{Comparison, compare_perm};
use rv_dbs::synth_single;
use rv_gate::{Circuit, MOST_LINES};
use rv_perm::{PermSpec, circuit_on};
use std::alloc::{AllocError, Global};

// A circuit's gates on the lines of the permutation, if they compute it.
fn in_place(
    alloc: Global,
    spec: &PermSpec,
    circuit: &Circuit,
) -> Result<Option<Circuit>, AllocError>
    ensures { IfOk result (λ found. IfSome found (IsInPlace spec.now)) }
{
    spec.recall_invariant();
    circuit.recall_invariant();
    if circuit.line_count() != spec.perm().lines() {
        return Ok(None);
    }
    let gates = Vec::from_slice(alloc, circuit.gates())?;
    let new = circuit_on(alloc, spec, gates)?;
    if compare_perm(&new, spec, true) == Comparison::Same {
        return Ok(Some(new));
    }
    Ok(None)
}

// The better of a circuit that is right and one that may be.
fn better(
    alloc: Global,
    spec: &PermSpec,
    best: Circuit,
    new: &Circuit,
    options: RealizeOptions,
) -> Result<Circuit, AllocError>
    requires { IsInPlace spec.now best }
    ensures { IfOk result (IsInPlace spec.now) }
{
    if !is_better(alloc, options.goal, new, &best) {
        return Ok(best);
    }
    match in_place(alloc, spec, new)? {
        Some(circuit) => Ok(circuit),
        None => Ok(best),
    }
}

// The best of a circuit that is right and others that may be.
fn best_of(
    alloc: Global,
    spec: &PermSpec,
    first: Circuit,
    others: &[Circuit],
    options: RealizeOptions,
) -> Result<Circuit, AllocError>
    requires { IsInPlace spec.now first }
    ensures { IfOk result (IsInPlace spec.now) }
{
    let mut best = first;
    for circuit in others {
        best = better(alloc, spec, best, circuit, options)?;
    }
    Ok(best)
}

/// The best circuit that is found for a permutation, in place: on its lines, named `x0`, `x1`, and so on, with its
/// marks.
///
/// What comes out depends on the arguments alone.
pub fn realize_perm(
    alloc: Global,
    spec: &PermSpec,
    options: RealizeOptions,
) -> Result<Circuit, RealizeFault>
    requires { options.lines ≤ MOST_LINES }
    ensures in_place { IfOk result (IsInPlace spec.now) }
    ensures lines { IfOk result (λ c. spec.now.table.lines ≤ options.lines) }
    ensures too_many_lines { (n : ℕ) → result ≡ Err (TooManyLines n)
        → (n ≡ spec.now.table.lines) × (options.lines < n) }
    ensures few_gates { ¬ (result ≡ Err TooManyGates) }
{
    let lines = spec.perm().lines();
    if lines > options.lines {
        return Err(RealizeFault::TooManyLines(lines));
    }
    let first = synth_single(alloc, spec)?;
    let found = circuits_in_place(alloc, spec, &first, options)?;
    Ok(best_of(alloc, spec, first, &found, options)?)
}
