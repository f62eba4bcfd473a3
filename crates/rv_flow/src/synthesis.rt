// How a permutation gets its first circuit.
ghost use Rattle.std.specs.Prelude.{◌≡◌, IfOk};
ghost use Rattle.rv_flow.specs.Flow.{synthesized};

use rv_dbs::synth_single;
use rv_gate::Circuit;
use rv_perm::PermSpec;
use rv_tbs::{Method, synth};
use std::alloc::{AllocError, Global};

/// How the circuit of a permutation is made.
#[derive(Clone, Copy, Debug, PartialEq, Eq)]
pub enum Synthesis {
    /// By transformations, row by row, by this method.
    Rows(Method),
    /// By single-target gates.
    SingleTargets,
}

/// The circuit of a permutation by this synthesis. Fails only for want of memory.
pub fn synthesized(
    alloc: Global,
    spec: &PermSpec,
    synthesis: Synthesis,
) -> Result<Circuit, AllocError>
    ensures { IfOk result (λ c. c ≡ synthesized synthesis spec.now) }
{
    match synthesis {
        Synthesis::Rows(method) => synth(alloc, spec, method),
        Synthesis::SingleTargets => synth_single(alloc, spec),
    }
}
