// The network of what the lines of a text say.
ghost use Rattle.std.specs.Prelude.{◌≡◌, ◌≤◌, ◌<◌, ◌+◌, ℕ, [], length, map, IfOk, IfSome, All};
ghost use Rattle.std.specs.List.{range_with_len};
ghost use Rattle.rv_reader.specs.Feeding.{Answers, faulted};
ghost use Rattle.rv_blif.specs.declared.fault.BlifFault.TheVariants.{Mem as OutOfMemory, Text as Faulty};
ghost use Rattle.rv_blif.specs.declared.logic.TheConstants.{MOST_SIGNALS};
ghost use Rattle.rv_blif.specs.Given.{netlist_of};
ghost use Rattle.rv_blif.specs.Netlist.{name_at};
ghost use Rattle.rv_blif.specs.inside.State.{Gathered};
ghost use Rattle.rv_blif.specs.Placing.{first_left, first_undriven, has_driven, ordered, outputs_by, placed};
ghost use Rattle.rv_blif.specs.Placing.{placed_network, signal_of, started};

use crate::code::{CYCLE, NEVER_DRIVEN, NO_OUTPUTS};
use crate::cover::{Cover, cover_at};
use crate::fault::BlifFault;
use crate::line::State;
use crate::logic::Logic;
use crate::marks::{is_set, signal_of};
use crate::names::Names;
use crate::output::Output;
use crate::placing::{Placing, input_signals};
use crate::port::Port;
use rv_text::TextFault;
use std::alloc::{AllocError, Global};

fn has_driven(driven: &[bool], cover: &Cover) -> bool
    ensures { result ≡ has_driven driven.now cover.now }
{
    cover.operands().iter().all(|name| is_set(driven, *name))
}

// The line of the first cover with an operand that nothing drives.
fn first_undriven(driven: &[bool], covers: &[Cover]) -> Option<u32>
    ensures { result ≡ first_undriven driven.now covers.now }
{
    for cover in covers {
        if !has_driven(driven, cover) {
            return Some(cover.line());
        }
    }
    None
}

// The line of the first cover that is left.
fn first_left(covers: &[Cover], left: &[usize]) -> Option<u32>
    ensures { result ≡ first_left covers.now left.now }
{
    if left.is_empty() {
        return None;
    }
    match cover_at(covers, left[0]) {
        Some(cover) => Some(cover.line()),
        None => Some(0),
    }
}

// The names of the inputs.
fn input_names(alloc: Global, names: &Names, inputs: &[usize]) -> Result<Vec<Vec<u8>>, AllocError>
    ensures { IfOk result (λ v. map (λ name. name.items) v.items ≡ map (name_at names.now) inputs.now) }
{
    let mut own = Vec::new(alloc);
    for input in inputs {
        own.push(Vec::from_slice(alloc, names.name(*input))?)?;
    }
    Ok(own)
}

// The outputs, by the signals of their names, or the first that has none.
fn outputs_by(
    alloc: Global,
    names: &Names,
    signals: &[Option<u32>],
    ports: &[Port],
) -> Result<Vec<Output>, BlifFault>
    ensures gives { Gathered result (outputs_by names.now signals.now [] ports.now) }
    ensures count { IfOk result (λ v. length v.items ≡ length ports.now) }
    ensures below { IfOk result (λ v. (most : ℕ)
        → ((name : ℕ) → IfSome (signal_of signals.now name) (λ signal. signal < most))
        → All (λ output. output.signal < most) v.items) }
{
    let mut outputs = Vec::new(alloc);
    for port in ports {
        let Some(signal) = signal_of(signals, port.name) else {
            return Err(BlifFault::Text(TextFault {
                line: port.line,
                code: NEVER_DRIVEN,
            }));
        };
        let Ok(name) = Vec::from_slice(alloc, names.name(port.name)) else {
            return Err(BlifFault::Mem);
        };
        let Ok(()) = outputs.push(Output::new(name, signal)) else {
            return Err(BlifFault::Mem);
        };
    }
    Ok(outputs)
}

// The numbers below a count.
fn numbers(alloc: Global, count: usize) -> Result<Vec<usize>, AllocError>
    ensures value { IfOk result (λ v. v.items ≡ range_with_len 0 count) }
    ensures len { IfOk result (λ v. length v.items ≡ count) }
{
    let mut numbers = Vec::new(alloc);
    for k in 0..count {
        numbers.push(k)?;
    }
    Ok(numbers)
}

// Before the first cover is placed.
fn started(
    alloc: Global,
    names: usize,
    inputs: &[usize],
    covers: usize,
) -> Result<Placing, AllocError>
    requires { length inputs.now + covers ≤ MOST_SIGNALS }
    ensures value { IfOk result (λ p. p ≡ started names inputs.now covers) }
    ensures room { IfOk result (λ p. p.inputs + length p.nodes + length p.left ≤ MOST_SIGNALS) }
{
    let signals = input_signals(alloc, names, inputs)?;
    let left = numbers(alloc, covers)?;
    Ok(Placing {
        inputs: inputs.len() as u32,
        signals,
        nodes: Vec::new(alloc),
        left,
    })
}

// The covers in their order.
fn placed(
    alloc: Global,
    names: usize,
    inputs: &[usize],
    covers: &[Cover],
) -> Result<Placing, AllocError>
    requires { length inputs.now + length covers.now ≤ MOST_SIGNALS }
    ensures value { IfOk result (λ p. p ≡ placed names inputs.now covers.now) }
    ensures room { IfOk result (λ p. p.inputs + length p.nodes + length p.left ≤ MOST_SIGNALS) }
    ensures inputs { IfOk result (λ p. p.inputs ≡ length inputs.now) }
{
    let mut placing = started(alloc, names, inputs, covers.len())?;
    placing.rounds(alloc, covers, covers.len() + 1)?;
    Ok(placing)
}

// The network of what is placed, where nothing is left.
fn placed_network(
    alloc: Global,
    names: &Names,
    inputs: &[usize],
    outputs: &[Port],
    covers: &[Cover],
    placing: Placing,
) -> Result<Logic, BlifFault>
    requires inputs { placing.inputs ≡ length inputs.now }
    requires some { 1 ≤ length outputs.now }
    requires few { length outputs.now ≤ MOST_SIGNALS }
    requires room { placing.inputs + length placing.nodes + length placing.left ≤ MOST_SIGNALS }
    ensures { Answers OutOfMemory result (faulted Faulty (placed_network
        (record { names = names.now; inputs = inputs.now; outputs = outputs.now; covers = covers.now }) placing)) }
{
    if let Some(line) = first_left(covers, &placing.left) {
        return Err(BlifFault::Text(TextFault { line, code: CYCLE }));
    }
    let outputs = outputs_by(alloc, names, &placing.signals, outputs)?;
    let Ok(inputs) = input_names(alloc, names, inputs) else {
        return Err(BlifFault::Mem);
    };
    Ok(Logic::new(inputs, placing.nodes, outputs))
}

// The network of what the lines say, in a text of so many, or the first fault.
fn ordered(
    alloc: Global,
    lines: u32,
    driven: &[bool],
    names: &Names,
    inputs: &[usize],
    outputs: &[Port],
    covers: &[Cover],
) -> Result<Logic, BlifFault>
    requires signals { length inputs.now + length covers.now ≤ MOST_SIGNALS }
    requires outputs { length outputs.now ≤ MOST_SIGNALS }
    ensures { Answers OutOfMemory result (faulted Faulty (ordered lines driven.now
        (record { names = names.now; inputs = inputs.now; outputs = outputs.now; covers = covers.now }))) }
{
    if outputs.is_empty() {
        return Err(BlifFault::Text(TextFault {
            line: lines,
            code: NO_OUTPUTS,
        }));
    }
    if let Some(line) = first_undriven(driven, covers) {
        return Err(BlifFault::Text(TextFault {
            line,
            code: NEVER_DRIVEN,
        }));
    }
    match placed(alloc, names.len(), inputs, covers) {
        Ok(placing) => placed_network(alloc, names, inputs, outputs, covers, placing),
        Err(_) => Err(BlifFault::Mem),
    }
}

/// The network of what the lines of a text say, which are so many, or the first fault.
pub(crate) fn network_of(state: &State, lines: u32) -> Result<Logic, BlifFault>
    ensures { Answers OutOfMemory result (faulted Faulty (ordered lines state.now.driven (netlist_of state.now))) }
{
    ordered(
        state.alloc,
        lines,
        &state.driven,
        &state.names,
        &state.inputs,
        &state.outputs,
        &state.covers,
    )
}
