// Hints: the order in which bits of the input word are asked for.
use crate::diagram::{at, put_at};
use crate::signals::{Signals, signals_of};
use rv_gate::{Gate, MOST_LINES, Mark, has};
use std::alloc::{AllocError, Global};

const LINES: usize = MOST_LINES as usize;

/// How the bits of an input word are put into an order. How large a diagram becomes goes by it, and nothing else.
#[derive(Clone, Copy, Debug, PartialEq, Eq)]
pub enum Order {
    /// As the gates come to their lines, or the nodes to their operands.
    FirstUse,
    /// As a walk from the outputs comes to them, which goes through all that an output depends on before it goes on to
    /// the next, and through the controls of a gate before its targets, through the operands of a node as they stand.
    DepthFirst,
    /// As this walk comes to them if it takes the deepest way first.
    DeepestFirst,
}

// The places of bits, and how many have one.
#[derive(Clone, Copy)]
struct Places {
    order: [u8; LINES],
    count: u8,
}

impl Places {
    fn new() -> Places {
        Places {
            order: [u8::MAX; LINES],
            count: 0,
        }
    }

    // Gives a bit the next place, unless it has one.
    fn put(&mut self, bit: usize) {
        if at(&self.order, bit, 0) == u8::MAX {
            put_at(&mut self.order, bit, self.count);
            self.count = self.count.saturating_add(1);
        }
    }
}

/// An order of the bits that a circuit with marks takes: of each its place.
pub fn order_of(
    alloc: Global,
    how: Order,
    constants: &[Mark],
    gates: &[Gate],
    garbage: &[bool],
) -> Result<[u8; MOST_LINES as usize], AllocError> {
    match how {
        Order::FirstUse => Ok(first_use(constants, gates)),
        Order::DepthFirst => walked(alloc, constants, gates, garbage, false),
        Order::DeepestFirst => walked(alloc, constants, gates, garbage, true),
    }
}

/// An order of the inputs of a network: of each its place.
pub fn network_order(
    alloc: Global,
    how: Order,
    network: &Signals,
) -> Result<[u8; MOST_LINES as usize], AllocError> {
    match how {
        Order::FirstUse => Ok(first_named(network)),
        Order::DepthFirst => network_walked(alloc, network, false),
        Order::DeepestFirst => network_walked(alloc, network, true),
    }
}

// The order in which nodes come to their inputs.
fn first_named(network: &Signals) -> [u8; LINES] {
    let mut places = Places::new();
    for operand in network.operands() {
        if *operand < LINES {
            places.put(*operand);
        }
    }
    places.order
}

// The order in which a walk from the outputs comes to the inputs.
fn network_walked(
    alloc: Global,
    network: &Signals,
    deepest: bool,
) -> Result<[u8; LINES], AllocError> {
    let mut stack = network.outputs(alloc)?;
    if deepest {
        network.sort_from(&mut stack, 0);
    }
    walk(alloc, &[Mark::Input; LINES], network, &mut stack, deepest)
}

// The order in which gates come to their lines.
fn first_use(constants: &[Mark], gates: &[Gate]) -> [u8; LINES] {
    let mut places = Places::new();
    for gate in gates {
        let lines = gate.controls() | gate.targets();
        for line in 0..MOST_LINES {
            if has(lines, line) {
                places.put(input_bit(constants, usize::from(line)));
            }
        }
    }
    places.order
}

// The order in which a walk from the outputs comes to the bits.
fn walked(
    alloc: Global,
    constants: &[Mark],
    gates: &[Gate],
    garbage: &[bool],
    deepest: bool,
) -> Result<[u8; LINES], AllocError> {
    let signals = signals_of(alloc, gates)?;
    let mut stack: Vec<usize> = Vec::new(alloc);
    for line in (0..garbage.len()).rev() {
        if !garbage[line] {
            stack.push(signals.at_end(line))?;
        }
    }
    if deepest {
        signals.sort_from(&mut stack, 0);
    }
    walk(alloc, constants, &signals, &mut stack, deepest)
}

// Walks from the signals of a stack, the last one first.
fn walk(
    alloc: Global,
    constants: &[Mark],
    signals: &Signals,
    stack: &mut Vec<usize>,
    deepest: bool,
) -> Result<[u8; LINES], AllocError> {
    let mut seen = vec![in alloc; false; signals.len()]?;
    let mut places = Places::new();
    for _ in 0..u32::MAX {
        let Some(signal) = stack.pop() else {
            break;
        };
        if signal < LINES {
            places.put(input_bit(constants, signal));
        } else if !at(&seen, signal - LINES, true) {
            put_at(&mut seen, signal - LINES, true);
            signals.push_operands(signal - LINES, stack, deepest)?;
        }
    }
    Ok(places.order)
}

// The bit of the input word that a line takes, or none of them.
fn input_bit(constants: &[Mark], line: usize) -> usize {
    if !matches!(at(constants, line, Mark::Zero), Mark::Input) {
        return usize::MAX;
    }
    let mut bit = 0usize;
    for before in 0..line.min(constants.len()) {
        if matches!(constants[before], Mark::Input) {
            bit = bit.saturating_add(1);
        }
    }
    bit
}
