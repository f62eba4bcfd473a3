//! The steps from a permutation to a network.
ghost use Rattle.std.specs.Prelude.{◌≡◌, ◌⊎◌, ◌+◌, ◌≤◌, true, length, List, Bool, IfOk, MatchResult, Ok, Err};
ghost use Rattle.rv_gate.specs.Gate.{run};
ghost use Rattle.rv_gate.specs.declared.word.TheConstants.{MOST_LINES};
ghost use Rattle.rv_mct.specs.Widened.{helper_count, lines_with_helpers};
ghost use Rattle.rv_mct.specs.declared.aux.Aux.{Aux};
ghost use Rattle.rv_net.specs.Denotes.{Carries};
ghost use Rattle.rv_perm.specs.declared.perm.TheConstants.{MOST_PERM_LINES};
ghost use Rattle.rv_perm.specs.Perm.{permuted};
ghost use Rattle.rv_flow.specs.Flow.{circuit_for, flow_of, network_by, simplified_if};
ghost use Rattle.rv_flow.specs.declared.flowing.FlowFault.TheVariants.{Mem};

use super::synthesis::{Synthesis, synthesized};
use rv_gate::Circuit;
use rv_links::Linked;
use rv_mct::{Aux, MctFault, decompose};
use rv_net::{ExpandFault, Net, expand};
use rv_perm::PermSpec;
use rv_templ::{Library, simplify_linked};
use std::alloc::{AllocError, Global};
use thiserror::Error;

/// Why there is no network.
#[derive(Clone, Copy, Debug, PartialEq, Eq, Error)]
pub enum FlowFault {
    /// The decomposition would have so many gates, more than [`MOST_GATES`](rv_gate::MOST_GATES).
    #[error("{0} gates are too many")]
    Gates(u32),
    /// The network would have so many operations, more than [`MOST_OPS`](rv_net::MOST_OPS).
    #[error("{0} operations are too many")]
    Ops(u32),
    #[error("out of memory")]
    Mem,
}

/// The circuit, simplified by the built-in templates. Fails only for want of memory.
pub(crate) fn simplified(alloc: Global, circuit: &Circuit) -> Result<Circuit, AllocError>
    ensures { IfOk result (λ c. c ≡ simplified_if true circuit.now) }
{
    let library = Library::built_in(alloc)?;
    let mut linked = Linked::from_circuit(alloc, circuit)?;
    simplify_linked(&mut linked, &library);
    linked.to_circuit(alloc)
}

/// The circuit of a permutation: it is synthesised, and simplified by the built-in templates if that is wished. Fails
/// only for want of memory.
///
/// Line i of the circuit is line i of the permutation. The lines are so few that its decomposition, with at most 13
/// helper lines, never has too many.
pub fn circuit_for(
    alloc: Global,
    spec: &PermSpec,
    synthesis: Synthesis,
    simplify: bool,
) -> Result<Circuit, AllocError>
    ensures circuit { IfOk result (λ c. c ≡ circuit_for synthesis simplify spec.now) }
    ensures lines { IfOk result (λ c. length c.names ≡ spec.now.table.lines) }
    ensures computes { IfOk result (λ c. (word : List Bool) → length word ≡ spec.now.table.lines
        → run c.gates word ≡ permuted spec.now.table word) }
    ensures helpers { IfOk result (λ c. (aux : Aux) → helper_count aux c ≤ 13) }
    ensures few { IfOk result (λ c. (aux : Aux) → lines_with_helpers aux c ≤ MOST_LINES) }
{
    spec.recall_invariant();
    let circuit = found_for(alloc, spec, synthesis, simplify)?;
    circuit.recall_invariant();
    Ok(circuit)
}

fn found_for(
    alloc: Global,
    spec: &PermSpec,
    synthesis: Synthesis,
    simplify: bool,
) -> Result<Circuit, AllocError>
    ensures { IfOk result (λ c. c ≡ circuit_for synthesis simplify spec.now) }
{
    let circuit = synthesized(alloc, spec, synthesis)?;
    if simplify {
        simplified(alloc, &circuit)
    } else {
        Ok(circuit)
    }
}

// The network of the circuit's decomposition. A permutation's lines are so few that the decomposition never has too
// many.
fn network_by(alloc: Global, circuit: &Circuit, aux: Aux) -> Result<Net, FlowFault>
    requires { length circuit.now.names ≤ MOST_PERM_LINES }
    ensures answer { MatchResult result (λ net. network_by aux circuit.now ≡ Ok net) (λ fault.
        (fault ≡ Mem) ⊎ (network_by aux circuit.now ≡ Err fault)) }
    ensures carries { IfOk result (λ net.
        Carries aux (length circuit.now.names) (helper_count aux circuit.now) net.ops (run circuit.now.gates)) }
    ensures lines { IfOk result (λ net. net.lines ≡ lines_with_helpers aux circuit.now) }
    ensures few { IfOk result (λ net. net.lines ≤ length circuit.now.names + 13) }
{
    circuit.recall_invariant();
    let decomposed = match decompose(alloc, circuit, aux) {
        Ok(decomposed) => decomposed.circuit,
        Err(MctFault::TooManyLines(_)) => unreachable!(),
        Err(MctFault::TooManyGates(count)) => return Err(FlowFault::Gates(count)),
        Err(MctFault::Mem) => return Err(FlowFault::Mem),
    };
    match expand(alloc, &decomposed) {
        Ok(net) => Ok(net),
        Err(ExpandFault::TooManyOps(count)) => Err(FlowFault::Ops(count)),
        Err(ExpandFault::Mem) => Err(FlowFault::Mem),
    }
}

/// The network of a permutation: it is synthesised, simplified by the built-in templates if that is wished, decomposed
/// and expanded.
///
/// Line i of the network is line i of the permutation, and the helper lines of the decomposition come after them, at
/// most 13. For each word, and whatever the helper lines may hold, the network's exact amplitudes are those of the
/// permutation, which gives the helper lines back; no phase is free.
pub fn flow(
    alloc: Global,
    spec: &PermSpec,
    synthesis: Synthesis,
    simplify: bool,
    aux: Aux,
) -> Result<Net, FlowFault>
    ensures answer { MatchResult result (λ net. flow_of synthesis simplify aux spec.now ≡ Ok net) (λ fault.
        (fault ≡ Mem) ⊎ (flow_of synthesis simplify aux spec.now ≡ Err fault)) }
    ensures carries { IfOk result (λ net.
        Carries aux spec.now.table.lines (helper_count aux (circuit_for synthesis simplify spec.now)) net.ops
        (permuted spec.now.table)) }
    ensures lines { IfOk result (λ net.
        net.lines ≡ spec.now.table.lines + helper_count aux (circuit_for synthesis simplify spec.now)) }
    ensures few { IfOk result (λ net. net.lines ≤ spec.now.table.lines + 13) }
{
    spec.recall_invariant();
    match found_for(alloc, spec, synthesis, simplify) {
        Ok(circuit) => network_by(alloc, &circuit, aux),
        Err(_) => Err(FlowFault::Mem),
    }
}
