ghost use Rattle.std.specs.Prelude.{◌≡◌, ◌-◌, ◌*◌, ◌^◌, ◌≤◌, length, All, IfOk};
ghost use Rattle.rv_gate.specs.Gate.{IsFlip};
ghost use Rattle.rv_perm.specs.Perm.{Computes};
ghost use Rattle.rv_dbs.specs.Runs.{run_count};
ghost use Rattle.rv_dbs.specs.Singles.{single_synthesis_of};
ghost use Rattle.rv_dbs.specs.Steps.{AreStepped};

use super::singles::gates_for;
use rv_gate::Circuit;
use rv_perm::{PermSpec, circuit_on};
use std::alloc::{AllocError, Global};

/// A circuit of flips that computes the permutation, on lines named `x0`, `x1`, and so on, with its marks.
///
/// On `n` lines there are 2`n` - 1 single-target gates, each with at most 2^(`n` - 1) flips of its target. So there
/// are at most 2`n` - 1 runs of flips with one target. Fails only for want of memory.
#[tactic(auto, using(crate::proofs::inside::Computes::most_gates))]
pub fn synth_single(alloc: Global, spec: &PermSpec) -> Result<Circuit, AllocError>
    ensures circuit { IfOk result (λ c. c ≡ single_synthesis_of spec.now) }
    ensures steps { IfOk result (λ c.
        AreStepped spec.now.table.lines (spec.now.table.lines - 1) spec.now.table.images c.gates) }
    ensures computes { IfOk result (λ c. Computes spec.now.table.lines c.gates spec.now.table.images) }
    ensures flips { IfOk result (λ c. All IsFlip c.gates) }
    ensures runs { IfOk result (λ c. run_count c.gates ≤ 2 * spec.now.table.lines - 1) }
    ensures bound { IfOk result (λ c. length c.gates
        ≤ (2 * spec.now.table.lines - 1) * 2 ^ (spec.now.table.lines - 1)) }
{
    let gates = gates_for(alloc, spec.perm())?;
    circuit_on(alloc, spec, gates)
}
