// The circuit in which each input, output and node has a line of its own.
ghost use Rattle.std.specs.Prelude.{◌≡◌, ◌≢◌, ℕ, ◌+◌, ◌<◌, ◌≤◌, length, All, IfOk, OnOk};
ghost use Rattle.rv_gate.specs.declared.circuit.TheConstants.{MOST_GATES};
ghost use Rattle.rv_gate.specs.declared.word.TheConstants.{MOST_LINES};
ghost use Rattle.rv_blif.specs.Logic.{signal_count};
ghost use Rattle.rv_blif.specs.declared.product.TheConstants.{MOST_OPERANDS};
ghost use Rattle.rv_compute.specs.Bounds.{gate_bound, line_bound};
ghost use Rattle.rv_compute.specs.Computed.{IsComputedWithin};
ghost use Rattle.rv_compute.specs.inside.Own.{AddsNode, AddsOutput, AddsOwn, Own, own_line, own_places, word_bound};

use crate::block::block_of;
use crate::place::Place;
use crate::run::circuit_of;
use crate::sum::words_of;
use rv_blif::{Logic, MOST_OPERANDS, Product};
use rv_gate::{Circuit, Gate, MOST_GATES, MOST_LINES};
use std::alloc::{AllocError, Global};

// The line of a signal.
fn own_line(logic: &Logic, signal: u32) -> u8
    requires few { line_bound logic.now ≤ MOST_LINES }
    requires there { signal < signal_count logic.now }
    ensures { result ≡ own_line logic.now signal }
{
    if signal < logic.input_count() {
        signal as u8
    } else {
        (signal + logic.output_count()) as u8
    }
}

// Where signals are read.
fn own_places(
    alloc: Global,
    logic: &Logic,
    signals: &[u32],
) -> Result<Vec<Option<Place>>, AllocError>
    requires few { line_bound logic.now ≤ MOST_LINES }
    requires there { All (λ signal. signal < signal_count logic.now) signals.now }
    ensures { IfOk result (λ places. places.items ≡ own_places logic.now signals.now) }
{
    let mut places = Vec::new(alloc);
    for signal in signals {
        let line = own_line(logic, *signal);
        places.push(Some(Place::Line { line, on: true }))?;
    }
    Ok(places)
}

// Adds products of signals to a line.
fn put(
    alloc: Global,
    logic: &Logic,
    gates: &mut Vec<Gate>,
    signals: &[u32],
    line: u8,
    products: &[Product],
) -> Result<(), AllocError>
    requires few { line_bound logic.now ≤ MOST_LINES }
    requires signals { length signals.now ≤ MOST_OPERANDS }
    requires there { All (λ signal. signal < signal_count logic.now) signals.now }
    requires line { line < line_bound logic.now }
    requires apart { All (λ signal. own_line logic.now signal ≢ line) signals.now }
    ensures { OnOk result (AddsOwn logic.now signals.now line products.now gates.old.items gates.new.items) }
{
    let lines = logic.input_count() as u8 + logic.output_count() as u8 + logic.nodes().len() as u8;
    let places = own_places(alloc, logic, signals)?;
    let Some(block) = block_of(alloc, lines, &places, line, products)? else {
        unreachable!()
    };
    gates.extend_from_slice(&block)?;
    Ok(())
}

// Adds a node to its line, or takes it back.
fn toggle(alloc: Global, logic: &Logic, gates: &mut Vec<Gate>, k: usize) -> Result<(), AllocError>
    requires few { line_bound logic.now ≤ MOST_LINES }
    requires there { k < length logic.now.nodes }
    ensures { OnOk result (AddsNode logic.now k gates.old.items gates.new.items) }
{
    let node = &logic.nodes()[k];
    let products = words_of(alloc, node)?;
    let line = own_line(logic, logic.input_count() + k as u32);
    put(alloc, logic, gates, node.operands(), line, &products)
}

// Adds the signal of an output to its line.
fn copy(alloc: Global, logic: &Logic, gates: &mut Vec<Gate>, p: usize) -> Result<(), AllocError>
    requires few { line_bound logic.now ≤ MOST_LINES }
    requires there { p < length logic.now.outputs }
    ensures { OnOk result (AddsOutput logic.now p gates.old.items gates.new.items) }
{
    let signal = logic.outputs()[p].signal();
    let line = logic.input_count() as u8 + p as u8;
    let all = Product { care: 1, want: 1 };
    put(alloc, logic, gates, &[signal], line, &[all])
}

// Adds all nodes to their lines.
fn add_nodes(alloc: Global, logic: &Logic) -> Result<Vec<Gate>, AllocError>
    requires { line_bound logic.now ≤ MOST_LINES }
    ensures { IfOk result (λ gates.
        Own logic.now 0 (length logic.now.nodes) (word_bound logic.now (length logic.now.nodes)) gates.items) }
{
    let mut gates = Vec::new(alloc);
    for k in 0..logic.nodes().len() {
        toggle(alloc, logic, &mut gates, k)?;
    }
    Ok(gates)
}

// Adds all outputs to theirs.
fn add_outputs(alloc: Global, logic: &Logic, gates: &mut Vec<Gate>) -> Result<(), AllocError>
    requires few { line_bound logic.now ≤ MOST_LINES }
    requires stands { Own logic.now 0 (length logic.now.nodes) (word_bound logic.now (length logic.now.nodes))
        gates.old.items }
    ensures { OnOk result (Own logic.now (length logic.now.outputs) (length logic.now.nodes)
        (word_bound logic.now (length logic.now.nodes) + length logic.now.outputs) gates.new.items) }
{
    for p in 0..logic.outputs().len() {
        copy(alloc, logic, gates, p)?;
    }
    Ok(())
}

// Takes back all nodes, the last one first.
fn take_back(alloc: Global, logic: &Logic, gates: &mut Vec<Gate>) -> Result<(), AllocError>
    requires few { line_bound logic.now ≤ MOST_LINES }
    requires stands { Own logic.now (length logic.now.outputs) (length logic.now.nodes)
        (word_bound logic.now (length logic.now.nodes) + length logic.now.outputs) gates.old.items }
    ensures { OnOk result (Own logic.now (length logic.now.outputs) 0 (gate_bound logic.now) gates.new.items) }
{
    let nodes = logic.nodes().len();
    for i in 0..nodes {
        toggle(alloc, logic, gates, nodes - 1 - i)?;
    }
    Ok(())
}

/// The circuit in which each input, output and node has a line of its own: all nodes are added, the first one first,
/// then the outputs, and then the nodes are taken back.
pub(crate) fn on_own_lines(alloc: Global, logic: &Logic) -> Result<Circuit, AllocError>
    requires lines { line_bound logic.now ≤ MOST_LINES }
    requires gates { gate_bound logic.now ≤ MOST_GATES }
    ensures { IfOk result (IsComputedWithin logic.now (line_bound logic.now)) }
{
    let mut gates = add_nodes(alloc, logic)?;
    add_outputs(alloc, logic, &mut gates)?;
    take_back(alloc, logic, &mut gates)?;
    circuit_of(alloc, logic, logic.nodes().len() as u8, gates)
}
