// The circuit of a logic network.
ghost use Rattle.std.specs.Prelude.{◌≡◌, ◌<◌, ◌≤◌, ◌+◌, ◌↔◌, ℕ, length, IfOk, IfSome, IsTrue};
ghost use Rattle.rv_gate.specs.declared.circuit.TheConstants.{MOST_GATES};
ghost use Rattle.rv_gate.specs.declared.word.TheConstants.{MOST_LINES};
ghost use Rattle.rv_compute.specs.Bounds.{line_bound, node_bound, gate_bound};
ghost use Rattle.rv_compute.specs.Computed.{IsComputed, IsComputedWithin, Gives};
ghost use Rattle.rv_compute.specs.inside.Held.{line_count};
ghost use Rattle.rv_compute.specs.declared.circuit.ComputeFault.TheVariants.{Mem};

use crate::found::{best_circuit, fewer};
use crate::options::ComputeOptions;
use crate::own::on_own_lines;
use crate::searched::{MOST_NODES, Searched, look_for_plans};
use rv_blif::{Logic, Node};
use rv_gate::{Circuit, MOST_GATES, MOST_LINES};
use rv_schedule::{best_plan, net_of};
use std::alloc::{AllocError, Global};
use thiserror::Error;

/// Why there is no circuit.
#[derive(Clone, Copy, Debug, PartialEq, Eq, Error)]
pub enum ComputeFault {
    /// The best order of steps that was found takes so many lines, more than there may be.
    #[error("{0} lines are too many")]
    TooManyLines(u32),
    /// The order of steps that was found takes more than [`MOST_GATES`] gates.
    #[error("too many gates")]
    TooManyGates,
    #[error("out of memory")]
    Mem,
}

impl From<AllocError> for ComputeFault {
    ghost from_gives = { λ _ fault. fault ≡ Mem };

    fn from(_: AllocError) -> Self {
        ComputeFault::Mem
    }
}

// By how many more work lines an order is looked for that doesn't fit.
static MORE_LINES: [u8; 8] = [1, 2, 4, 8, 16, 32, 64, 128];

// A plan has at most so many.
const MOST_WORK: u8 = 190;

// So many gates are enough for a node.
fn gates_for(node: &Node) -> u64
    ensures { result ≡ node_bound node.now }
{
    2 * (1u64 << node.operands().len())
}

// Whether a circuit has room for the words of all nodes' operands, and the outputs.
fn gates_fit(logic: &Logic) -> bool
    ensures { IsTrue result ↔ (gate_bound logic.now ≤ MOST_GATES) }
{
    let most = MOST_GATES as u64;
    let mut gates = 0u64;
    for node in logic.nodes() {
        gates = gates.saturating_add(gates_for(node));
        if gates > most {
            return false;
        }
    }
    gates.saturating_add(u64::from(logic.output_count())) <= most
}

// How many work lines the best order takes that is found on more than so many.
fn wanted(alloc: Global, logic: &Logic, extra: u8) -> Result<Option<u8>, AllocError> {
    let net = net_of(alloc, logic)?;
    for step in MORE_LINES {
        if let Some(plan) = best_plan(alloc, &net, extra.saturating_add(step).min(MOST_WORK))? {
            return Ok(Some(plan.extra));
        }
    }
    Ok(None)
}

// How many lines a network takes that has no circuit on so many: those of the best order or plan, else one for each node.
fn too_many_lines(
    alloc: Global,
    logic: &Logic,
    most_lines: u8,
    lines: u32,
    least: Option<u8>,
) -> Result<u32, AllocError>
    requires few { lines ≤ most_lines }
    requires lines { lines ≡ length logic.now.inputs + length logic.now.outputs }
    requires many { most_lines < lines + length logic.now.nodes }
    ensures { IfOk result (λ found. (most_lines < found) × (found ≤ line_bound logic.now)) }
{
    let nodes = logic.nodes().len();
    let all = lines + nodes as u32;
    if nodes > MOST_NODES {
        return Ok(all);
    }
    match fewer(least, wanted(alloc, logic, most_lines - lines as u8)?) {
        Some(work) => {
            let found = lines + u32::from(work);
            if found > u32::from(most_lines) && found <= all {
                Ok(found)
            } else {
                Ok(all)
            }
        }
        None => Ok(all),
    }
}

// The fewest work lines of a plan.
fn least(searched: &Option<Searched>) -> Option<u8> {
    match searched {
        Some(searched) => searched.least(),
        None => None,
    }
}

/// A circuit for a logic network on at most so many lines, by what was searched.
pub(crate) fn on_lines(
    alloc: Global,
    logic: &Logic,
    options: ComputeOptions,
    searched: &Option<Searched>,
) -> Result<Circuit, ComputeFault>
    requires { options.lines ≤ MOST_LINES }
    ensures computed { IfOk result (IsComputed logic.now) }
    ensures gives { IfOk result (Gives logic.now) }
    ensures lines { IfOk result (λ c. length c.names ≤ options.lines) }
    ensures too_many_lines { (found : ℕ) → result ≡ Err (ComputeFault.TooManyLines found)
        → (options.lines < found) × (found ≤ line_bound logic.now) }
    ensures too_many_gates { result ≡ Err ComputeFault.TooManyGates → MOST_GATES < gate_bound logic.now }
{
    let lines = logic.input_count() + logic.output_count();
    if lines > u32::from(options.lines) {
        return Err(ComputeFault::TooManyLines(lines));
    }
    let nodes = logic.nodes().len();
    if nodes <= MOST_NODES {
        let extra = options.lines - lines as u8;
        if let Some(circuit) = best_circuit(alloc, logic, extra, options.goal, searched)? {
            return Ok(circuit);
        }
    }
    if lines + nodes as u32 > u32::from(options.lines) {
        return Err(ComputeFault::TooManyLines(too_many_lines(
            alloc,
            logic,
            options.lines,
            lines,
            least(searched),
        )?));
    }
    if !gates_fit(logic) {
        return Err(ComputeFault::TooManyGates);
    }
    let circuit = on_own_lines(alloc, logic)?;
    Ok(circuit)
}

/// A circuit for a logic network, on at most so many lines.
///
/// Lines `x0`, `x1`, .. are the inputs, which stand as they were at the end and are garbage. Lines `y0`, `y1`, .. are
/// the outputs, and lines `w0`, `w1`, .. are worked on; all these hold 0, and the work lines are garbage. Whatever the
/// lines of the outputs hold, the circuit adds the outputs to them. Inputs are labelled by the network's names at the
/// beginning, and outputs at the end; a name that no label can be labels no line.
///
/// Where no order is found that fits, the lines of the best one are told, or one for each input, output and node. Where
/// each of these can have a line, and the gates for their words are few enough, there is a circuit.
pub fn compute(
    alloc: Global,
    logic: &Logic,
    options: ComputeOptions,
) -> Result<Circuit, ComputeFault>
    requires { options.lines ≤ MOST_LINES }
    ensures computed { IfOk result (IsComputed logic.now) }
    ensures gives { IfOk result (Gives logic.now) }
    ensures lines { IfOk result (λ c. length c.names ≤ options.lines) }
    ensures too_many_lines { (found : ℕ) → result ≡ Err (ComputeFault.TooManyLines found)
        → (options.lines < found) × (found ≤ line_bound logic.now) }
    ensures too_many_gates { result ≡ Err ComputeFault.TooManyGates → MOST_GATES < gate_bound logic.now }
{
    let searched = look_for_plans(alloc, logic, options)?;
    on_lines(alloc, logic, options, &searched)
}
