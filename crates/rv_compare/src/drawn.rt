// The functions of circuits and networks on a diagram.
ghost use Rattle.std.specs.Prelude.{◌≡◌, ◌+◌, ◌<◌, ◌≤◌, Bool, List, All, length, map, not, take, IfOk, OnOk};
ghost use Rattle.rv_gate.specs.Marks.{output_count};
ghost use Rattle.rv_gate.specs.Word.{bit_of};
ghost use Rattle.rv_gate.specs.declared.word.TheConstants.{MOST_LINES};
ghost use Rattle.rv_blif.specs.Logic.{IsNode, any_holds, node_value, outputs_of, values};
ghost use Rattle.rv_diagram.specs.Diagram.{AreStill, IsEdge, Keeps, value, word_at};
ghost use Rattle.rv_compare.specs.Compare.{asked, function_of, size_of};

use crate::marks::{constants_of, garbage_of};
use rv_blif::{Logic, MOST_OPERANDS, Node, Output, Product};
use rv_diagram::{Diagram, DiagramFault, Edge, blank_lines};
use rv_gate::Circuit;
use std::alloc::Global;

/// The outputs of a circuit. What is kept stands for the same afterwards.
pub(crate) fn circuit_edges(
    alloc: Global,
    diagram: &mut Diagram,
    circuit: &Circuit,
    all: bool,
    kept: &mut Vec<Edge>,
) -> Result<Vec<Edge>, DiagramFault>
    requires kept { All (IsEdge diagram.old) kept.old.items }
    ensures kept { OnOk result (AreStill diagram.old diagram.new kept.old.items kept.new.items) }
    ensures count { IfOk result (λ edges. length edges.items ≡ (size_of (asked all circuit.now)).outputs) }
    ensures edges { IfOk result (λ edges. All (IsEdge diagram.new) edges.items) }
    ensures words { IfOk result (λ edges. (x : List Bool)
        → word_at diagram.new edges.items x ≡ function_of (asked all circuit.now) x) }
{
    circuit.recall_invariant();
    let mut lines = blank_lines(alloc, usize::from(circuit.line_count()))?;
    let count = diagram.give_outputs(
        alloc,
        constants_of(circuit, all),
        circuit.gates(),
        garbage_of(circuit, all),
        &mut lines,
        kept,
    )?;
    lines.truncate(count);
    Ok(lines)
}

// Where no product holds.
fn none_holds(
    diagram: &mut Diagram,
    products: &[Product],
    own: &[Edge],
) -> Result<Edge, DiagramFault>
    requires few { length own.now ≤ MOST_LINES }
    requires edges { All (IsEdge diagram.old) own.now }
    ensures keeps { Keeps diagram.old diagram.new }
    ensures edge { IfOk result (IsEdge diagram.new) }
    ensures value { IfOk result (λ e. (x : List Bool)
        → value diagram.new e x ≡ not (any_holds products.now (word_at diagram.old own.now x))) }
{
    let mut none = Edge::ONE;
    for product in products {
        let on = diagram.held(own, u64::from(product.care), u64::from(product.want))?;
        none = diagram.and(none, on.turn(true))?;
    }
    Ok(none)
}

// A node, by the signals before it.
fn node_edge(diagram: &mut Diagram, node: &Node, signals: &[Edge]) -> Result<Edge, DiagramFault>
    requires node { IsNode (length signals.now) node.now }
    requires edges { All (IsEdge diagram.old) signals.now }
    ensures keeps { Keeps diagram.old diagram.new }
    ensures edge { IfOk result (IsEdge diagram.new) }
    ensures value { IfOk result (λ e. (x : List Bool)
        → value diagram.new e x ≡ node_value node.now (word_at diagram.old signals.now x)) }
{
    let mut room = [Edge::ZERO; MOST_OPERANDS as usize];
    let operands = node.operands();
    let own = &mut room[..operands.len()];
    for i in 0..operands.len() {
        own[i] = signals[operands[i] as usize];
    }
    let none = none_holds(diagram, node.products(), own)?;
    Ok(none.turn(node.on()))
}

// So many bits of the input word.
fn input_edges(alloc: Global, diagram: &mut Diagram, count: u8) -> Result<Vec<Edge>, DiagramFault>
    requires few { count ≤ MOST_LINES }
    ensures keeps { Keeps diagram.old diagram.new }
    ensures count { IfOk result (λ signals. length signals.items ≡ count) }
    ensures edges { IfOk result (λ signals. All (IsEdge diagram.new) signals.items) }
    ensures words { IfOk result (λ signals. (x : List Bool) → length x ≡ count
        → word_at diagram.new signals.items x ≡ x) }
{
    let mut signals = Vec::new(alloc);
    for input in 0..count {
        let edge = diagram.literal(input)?;
        if signals.push(edge).is_err() {
            return Err(DiagramFault::Mem);
        }
    }
    Ok(signals)
}

// Leaves out what these signals don't need, if there is much of it.
fn make_room(
    alloc: Global,
    diagram: &mut Diagram,
    signals: &mut Vec<Edge>,
) -> Result<(), DiagramFault>
    requires { All (IsEdge diagram.old) signals.old.items }
    ensures { OnOk result (AreStill diagram.old diagram.new signals.old.items signals.new.items) }
{
    diagram.make_room(alloc, signals, &mut [])
}

// The functions of all signals, and little besides.
fn signal_edges(
    alloc: Global,
    diagram: &mut Diagram,
    logic: &Logic,
    inputs: u8,
) -> Result<Vec<Edge>, DiagramFault>
    requires inputs { inputs ≡ length logic.now.inputs }
    requires few { inputs ≤ MOST_LINES }
    ensures count { IfOk result (λ signals. length signals.items ≡ length logic.now.inputs + length logic.now.nodes) }
    ensures edges { IfOk result (λ signals. All (IsEdge diagram.new) signals.items) }
    ensures words { IfOk result (λ signals. (x : List Bool) → length x ≡ inputs
        → word_at diagram.new signals.items x ≡ values logic.now x) }
{
    let mut signals = input_edges(alloc, diagram, inputs)?;
    let nodes = logic.nodes();
    for k in 0..nodes.len() {
        make_room(alloc, diagram, &mut signals)?;
        let edge = node_edge(diagram, &nodes[k], &signals)?;
        if signals.push(edge).is_err() {
            return Err(DiagramFault::Mem);
        }
    }
    Ok(signals)
}

// The functions of outputs, by those of all signals.
fn picked(
    alloc: Global,
    diagram: &Diagram,
    outputs: &[Output],
    signals: &[Edge],
) -> Result<Vec<Edge>, DiagramFault>
    requires signals { All (λ output. output.signal < length signals.now) outputs.now }
    requires edges { All (IsEdge diagram.now) signals.now }
    ensures count { IfOk result (λ edges. length edges.items ≡ length outputs.now) }
    ensures edges { IfOk result (λ edges. All (IsEdge diagram.now) edges.items) }
    ensures words { IfOk result (λ edges. (x : List Bool) → word_at diagram.now edges.items x
        ≡ map (λ output. bit_of (word_at diagram.now signals.now x) output.signal) outputs.now) }
{
    let _ = diagram.len();
    let mut edges = Vec::new(alloc);
    for output in outputs {
        if edges.push(signals[output.signal() as usize]).is_err() {
            return Err(DiagramFault::Mem);
        }
    }
    Ok(edges)
}

/// The outputs of a logic network.
pub(crate) fn logic_edges(
    alloc: Global,
    diagram: &mut Diagram,
    logic: &Logic,
    inputs: u8,
) -> Result<Vec<Edge>, DiagramFault>
    requires inputs { inputs ≡ length logic.now.inputs }
    requires few { inputs ≤ MOST_LINES }
    ensures count { IfOk result (λ edges. length edges.items ≡ length logic.now.outputs) }
    ensures edges { IfOk result (λ edges. All (IsEdge diagram.new) edges.items) }
    ensures words { IfOk result (λ edges. (x : List Bool) → length x ≡ inputs
        → word_at diagram.new edges.items x ≡ outputs_of logic.now x) }
{
    logic.recall_invariant();
    let signals = signal_edges(alloc, diagram, logic, inputs)?;
    let edges = picked(alloc, diagram, logic.outputs(), &signals)?;
    Ok(edges)
}
