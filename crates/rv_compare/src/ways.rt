// In which orders of the bits, and in how large diagrams, sides are compared: hints alone.
ghost use Rattle.std.specs.Prelude.{◌≡◌, [], IfOk};

use crate::comparison::MOST_INPUTS;
use crate::marks::{constants_of, garbage_of};
use rv_blif::Logic;
use rv_diagram::{Diagram, MOST_NODES, Order, Signals, network_order, order_of};
use rv_gate::{Circuit, MOST_LINES};
use std::alloc::{AllocError, Global};

/// From so many inputs on a small diagram is tried before all words.
pub(crate) const LEAST_DRAWN: u8 = 18;

/// An order of the bits by one of two sides, and how large a diagram may become.
#[derive(Clone, Copy)]
pub(crate) struct Way {
    pub(crate) by_second: bool,
    pub(crate) order: Order,
    nodes: usize,
    steps: u64,
}

// Steps for each node.
const STEPS: u64 = 16;

// So many places are for the nodes of the largest diagram.
const MOST_PLACE_BITS: u32 = 23;

// How many ways go with small diagrams.
const SMALL: u8 = 6;

/// How many ways there are for so many inputs.
pub(crate) fn way_count(inputs: u8) -> u8 {
    if inputs <= MOST_INPUTS { 1 } else { 8 }
}

/// The way of a number, by diagrams of at most so many nodes.
pub(crate) fn way_of(inputs: u8, number: u8, most: u32) -> Way {
    let (by_second, order) = match number {
        0 | 6 => (false, Order::DepthFirst),
        1 | 7 => (false, Order::DeepestFirst),
        2 => (true, Order::DepthFirst),
        3 => (true, Order::DeepestFirst),
        4 => (false, Order::FirstUse),
        _ => (true, Order::FirstUse),
    };
    let usual = if inputs <= MOST_INPUTS {
        1 << 12
    } else if number < SMALL {
        1 << 16
    } else {
        MOST_NODES
    };
    let nodes = usual.min(most as usize);
    Way {
        by_second,
        order,
        nodes,
        steps: STEPS * nodes as u64,
    }
}

/// The order of bits that a circuit gives.
pub(crate) fn circuit_order(
    alloc: Global,
    order: Order,
    circuit: &Circuit,
    all: bool,
) -> Result<[u8; MOST_LINES as usize], AllocError> {
    order_of(
        alloc,
        order,
        constants_of(circuit, all),
        circuit.gates(),
        garbage_of(circuit, all),
    )
}

/// The order of bits that a circuit or a network gives.
pub(crate) fn order_beside(
    alloc: Global,
    way: Way,
    circuit: &Circuit,
    logic: &Logic,
    all: bool,
) -> Result<[u8; MOST_LINES as usize], AllocError> {
    if way.by_second {
        logic_order(alloc, way.order, logic)
    } else {
        circuit_order(alloc, way.order, circuit, all)
    }
}

// The order of bits that a network gives.
fn logic_order(
    alloc: Global,
    order: Order,
    logic: &Logic,
) -> Result<[u8; MOST_LINES as usize], AllocError> {
    let mut signals = Signals::of_network(alloc, logic.input_count() as usize);
    for node in logic.nodes() {
        signals.add_node(node.operands())?;
    }
    for output in logic.outputs() {
        signals.add_output(output.signal())?;
    }
    network_order(alloc, order, &signals)
}

// How many places there are for nodes: the least power of two above their number.
fn places_for(nodes: usize) -> usize {
    let bits = usize::BITS - nodes.leading_zeros();
    1 << bits.min(MOST_PLACE_BITS)
}

/// A diagram without nodes, with an order of bits.
pub(crate) fn diagram_for(
    alloc: Global,
    way: Way,
    order: [u8; MOST_LINES as usize],
) -> Result<Diagram, AllocError>
    ensures { IfOk result (λ diagram. diagram ≡ []) }
{
    let places = places_for(way.nodes);
    let answers = (places / 4).max(1);
    let diagram = Diagram::new(alloc, order, way.nodes, places, answers, way.steps)?;
    Ok(diagram)
}
