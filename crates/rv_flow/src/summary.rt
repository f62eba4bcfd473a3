//! What each step from a permutation to a network makes of a generated one.
ghost use Rattle.std.specs.Prelude.{◌≡◌, ◌≤◌, true, length, All, IfOk};
ghost use Rattle.rv_perm.specs.Marked.{unmarked};
ghost use Rattle.rv_tbs.specs.Synthesis.{synthesis_of};
ghost use Rattle.rv_tbs.specs.declared.method.Method.TheVariants.{Best};
ghost use Rattle.rv_mct.specs.Extends.{IsPlain};
ghost use Rattle.rv_gate.specs.declared.circuit.TheConstants.{MOST_GATES};
ghost use Rattle.rv_gate.specs.declared.word.TheConstants.{MOST_LINES};
ghost use Rattle.rv_mct.specs.Widened.{decomposed, gate_count, helper_count, lines_with_helpers};
ghost use Rattle.rv_mct.specs.declared.aux.Aux.TheVariants.{Borrowed};
ghost use Rattle.rv_net.specs.Network.{expanded, operation_count};
ghost use Rattle.rv_net.specs.declared.net.TheConstants.{MOST_OPS};
ghost use Rattle.rv_flow.specs.Flow.{simplified_if};
ghost use Rattle.rv_flow.specs.Generator.{generated};
ghost use Rattle.rv_cost.specs.NetCost.{net_cost};
ghost use Rattle.rv_flow.specs.Summary.{IsSmall, summary_by, summary_of};
ghost use Rattle.rv_flow.specs.inside.Few.{AreFew};

use crate::flowing::simplified;
use crate::generator::generate;
use rv_cost::{NetCost, net_cost};
use rv_gate::Circuit;
use rv_mct::{Aux, Decomposed, MctFault, decompose};
use rv_net::{ExpandFault, Net, expand};
use rv_perm::{MOST_DEMO_LINES, PermSpec};
use rv_tbs::{Method, synth};
use std::alloc::{AllocError, Global};

/// What each step makes of a generated permutation.
#[derive(Clone, Copy, Debug, PartialEq, Eq)]
pub struct Summary {
    /// How many lines the permutation has, 1 to [`MOST_DEMO_LINES`].
    pub lines: u8,
    /// The seed of the permutation.
    pub seed: u16,
    /// How many gates were synthesised.
    pub synthesised: u32,
    /// How many of them are left when they are simplified.
    pub simplified: u32,
    /// How many gates with at most two controls these are decomposed into.
    pub decomposed: u32,
    /// How many helper lines were added.
    pub added: u8,
    /// How many operations the network has.
    pub operations: u32,
    /// The T-count of the network.
    pub t: u32,
    /// The depth of the network.
    pub depth: u32,
}

/// Generates a permutation from a seed, and makes a network of it: it is synthesised, simplified by the built-in
/// templates, decomposed over borrowed lines and expanded. Answers the numbers that each step came to.
///
/// The permutation of `lines` lines, 1 to [`MOST_DEMO_LINES`], is the list of the numbers from 0 on, shuffled: for each
/// place i from the last one down to 1, the state s, which begins as the seed, becomes (75 s + 74) mod 65537, and the
/// places i and s mod (i + 1) are exchanged. No limit can be met, and it fails only for want of memory.
pub fn demo(alloc: Global, lines: u8, seed: u16) -> Result<Summary, AllocError>
    requires some { 1 ≤ lines }
    requires few { lines ≤ MOST_DEMO_LINES }
    ensures summary { IfOk result (λ s. s ≡ summary_of lines seed) }
    ensures small { IfOk result IsSmall }
{
    match circuits(alloc, lines, seed) {
        Ok((found, simpler)) => summed_up(alloc, lines, seed, &found, &simpler),
        Err(error) => Err(error),
    }
}

// The numbers of a circuit and of the simplified one.
fn summed_up(
    alloc: Global,
    lines: u8,
    seed: u16,
    found: &Circuit,
    simpler: &Circuit,
) -> Result<Summary, AllocError>
    requires { AreFew found.now simpler.now }
    ensures summary { IfOk result (λ s. s ≡ summary_by lines seed found.now simpler.now
        (net_cost (expanded (decomposed Borrowed simpler.now)))) }
    ensures small { IfOk result IsSmall }
{
    let made = made_of(alloc, simpler)?;
    Ok(Summary {
        lines,
        seed,
        synthesised: found.gates().len() as u32,
        simplified: simpler.gates().len() as u32,
        decomposed: made.gates,
        added: made.added,
        operations: made.cost.operations,
        t: made.cost.t,
        depth: made.cost.depth,
    })
}

// What a circuit's decomposition and its network come to.
#[derive(Clone, Copy)]
struct Made {
    gates: u32,
    added: u8,
    cost: NetCost,
}

// Decomposes a circuit of few gates and lines, and expands it.
fn made_of(alloc: Global, circuit: &Circuit) -> Result<Made, AllocError>
    requires lines { lines_with_helpers Borrowed circuit.now ≤ MOST_LINES }
    requires gates { gate_count Borrowed circuit.now ≤ 65536 }
    ensures gates { IfOk result (λ m. m.gates ≡ length (decomposed Borrowed circuit.now).gates) }
    ensures few { IfOk result (λ m. m.gates ≡ gate_count Borrowed circuit.now) }
    ensures added { IfOk result (λ m. m.added ≡ helper_count Borrowed circuit.now) }
    ensures cost { IfOk result (λ m. m.cost ≡ net_cost (expanded (decomposed Borrowed circuit.now))) }
    ensures operations { IfOk result (λ m. m.cost.operations ≤ 1245184) }
{
    let decomposed = decomposed(alloc, circuit)?;
    match cost_of(alloc, &decomposed.circuit) {
        Ok(cost) => Ok(Made {
            gates: decomposed.circuit.gates().len() as u32,
            added: decomposed.added,
            cost,
        }),
        Err(error) => Err(error),
    }
}

// The cost of a circuit's network.
fn cost_of(alloc: Global, circuit: &Circuit) -> Result<NetCost, AllocError>
    requires plain { All IsPlain circuit.now.gates }
    requires few { operation_count circuit.now.gates ≤ MOST_OPS }
    ensures cost { IfOk result (λ cost. cost ≡ net_cost (expanded circuit.now)) }
    ensures operations { IfOk result (λ cost. cost.operations ≡ operation_count circuit.now.gates) }
{
    match expanded(alloc, circuit) {
        Ok(net) => Ok(net_cost(&net)),
        Err(error) => Err(error),
    }
}

// The circuit of a generated permutation, and the simplified one.
fn circuits(alloc: Global, lines: u8, seed: u16) -> Result<(Circuit, Circuit), AllocError>
    requires some { 1 ≤ lines }
    requires few { lines ≤ MOST_DEMO_LINES }
    ensures found { IfOk result (λ r. r.0 ≡ synthesis_of Best (unmarked (generated lines seed))) }
    ensures simpler { IfOk result (λ r. r.1 ≡ simplified_if true r.0) }
    ensures few { IfOk result (λ r. AreFew r.0 r.1) }
{
    let spec = PermSpec::new(generate(alloc, lines, seed)?);
    let found = synth(alloc, &spec, Method::Best)?;
    let simpler = simplified(alloc, &found)?;
    Ok((found, simpler))
}

// The limits are not met.
fn decomposed(alloc: Global, circuit: &Circuit) -> Result<Decomposed, AllocError>
    requires lines { lines_with_helpers Borrowed circuit.now ≤ MOST_LINES }
    requires gates { gate_count Borrowed circuit.now ≤ MOST_GATES }
    ensures circuit { IfOk result (λ d. d.circuit ≡ decomposed Borrowed circuit.now) }
    ensures added { IfOk result (λ d. d.added ≡ helper_count Borrowed circuit.now) }
    ensures plain { IfOk result (λ d. All IsPlain d.circuit.gates) }
    ensures count { IfOk result (λ d. length d.circuit.gates ≡ gate_count Borrowed circuit.now) }
{
    match decompose(alloc, circuit, Aux::Borrowed) {
        Ok(decomposed) => Ok(decomposed),
        Err(MctFault::Mem) => Err(AllocError),
        Err(MctFault::TooManyLines(_)) => unreachable!(),
        Err(MctFault::TooManyGates(_)) => unreachable!(),
    }
}

fn expanded(alloc: Global, circuit: &Circuit) -> Result<Net, AllocError>
    requires plain { All IsPlain circuit.now.gates }
    requires few { operation_count circuit.now.gates ≤ MOST_OPS }
    ensures net { IfOk result (λ net. net ≡ expanded circuit.now) }
    ensures count { IfOk result (λ net. length net.ops ≡ operation_count circuit.now.gates) }
{
    match expand(alloc, circuit) {
        Ok(net) => Ok(net),
        Err(ExpandFault::Mem) => Err(AllocError),
        Err(ExpandFault::TooManyOps(_)) => unreachable!(),
    }
}
