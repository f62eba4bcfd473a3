ghost use Rattle.std.specs.Prelude.{◌≡◌, ◌<◌, All, IfOk, IsTrue, false, true};
ghost use Rattle.rv_hadamards.specs.Becomes.{Becomes};
ghost use Rattle.rv_hadamards.specs.inside.Steps.{IsStep};
ghost use Rattle.rv_net.specs.Op.{OpFitsIn};
ghost use Rattle.rv_net.specs.declared.op.Op.TheVariants.{H};
ghost use Rattle.rv_pairs.specs.Cancelled.{Keeps};

use crate::turning::turned;
use rv_net::{Net, Op};
use std::alloc::{AllocError, Global};

// How often all lines are gone through at the most.
const MOST_ROUNDS: u8 = 16;

fn is_h(line: u8, op: Op) -> bool
    ensures { IsTrue result → op ≡ H line }
{
    match op {
        Op::H(q) => q == line,
        _ => false,
    }
}

// From which places an H on a line moves as far as another one there.
fn starts(alloc: Global, ops: &[Op], line: u8) -> Result<Vec<bool>, AllocError> {
    let mut starts = vec![in alloc; false; ops.len()]?;
    let mut closes = false;
    for step in 0..ops.len() {
        let place = ops.len() - 1 - step;
        if is_h(line, ops[place]) {
            starts[place] = closes;
            closes = true;
        } else {
            closes = closes && turned(line, ops[place]).is_some();
        }
    }
    Ok(starts)
}

// Goes on to an operation before which no H waits. Answers whether one waits after it.
fn stand(made: &mut Vec<Op>, line: u8, op: Op, starts: bool) -> Result<bool, AllocError>
    ensures { IfOk result (λ then. IsStep line false op then made.old.items made.new.items) }
{
    if starts && is_h(line, op) {
        return Ok(true);
    }
    made.push(op)?;
    Ok(false)
}

// Goes on to an operation before which an H waits.
fn pass(made: &mut Vec<Op>, line: u8, op: Op) -> Result<bool, AllocError>
    ensures { IfOk result (λ then. IsStep line true op then made.old.items made.new.items) }
{
    if is_h(line, op) {
        return Ok(false);
    }
    match turned(line, op) {
        Some(other) => {
            made.push(other)?;
            Ok(true)
        }
        None => {
            made.push(Op::H(line))?;
            made.push(op)?;
            Ok(false)
        }
    }
}

// Goes on to an operation.
fn step(made: &mut Vec<Op>, line: u8, waits: bool, op: Op, starts: bool) -> Result<bool, AllocError>
    ensures { IfOk result (λ then. IsStep line waits op then made.old.items made.new.items) }
{
    if !waits {
        stand(made, line, op, starts)
    } else {
        pass(made, line, op)
    }
}

fn is_start(starts: &[bool], place: usize) -> bool {
    match starts.get(place) {
        Some(start) => *start,
        None => false,
    }
}

// Moves H on a line from the places that are marked, each as far as the next one there.
fn moved(
    alloc: Global,
    ops: &[Op],
    lines: u8,
    line: u8,
    starts: &[bool],
) -> Result<Vec<Op>, AllocError>
    requires line { line < lines }
    requires fits { All (λ op. OpFitsIn op lines) ops.now }
    ensures { IfOk result (λ made. Becomes lines ops.now made.items) }
{
    let mut made = Vec::with_capacity(alloc, ops.len())?;
    let mut waits = false;
    for place in 0..ops.len() {
        waits = step(&mut made, line, waits, ops[place], is_start(starts, place))?;
    }
    if waits {
        made.push(Op::H(line))?;
    }
    Ok(made)
}

// Takes H from one line.
fn on_line(alloc: Global, ops: Vec<Op>, lines: u8, line: u8) -> Result<Vec<Op>, AllocError>
    requires line { line < lines }
    requires fits { All (λ op. OpFitsIn op lines) ops.items }
    ensures { IfOk result (λ made. Becomes lines ops.items made.items) }
{
    let starts = starts(alloc, &ops, line)?;
    if starts.iter().any(|start| *start) {
        moved(alloc, &ops, lines, line, &starts)
    } else {
        Ok(ops)
    }
}

// Takes H from each line.
fn round(alloc: Global, ops: Vec<Op>, lines: u8) -> Result<Vec<Op>, AllocError>
    requires { All (λ op. OpFitsIn op lines) ops.items }
    ensures { IfOk result (λ made. Becomes lines ops.items made.items) }
{
    let mut made = ops;
    for line in 0..lines {
        made = on_line(alloc, made, lines, line)?;
    }
    Ok(made)
}

// Takes H from all lines, as long as this takes any.
fn rounds(alloc: Global, ops: Vec<Op>, lines: u8) -> Result<Vec<Op>, AllocError>
    requires { All (λ op. OpFitsIn op lines) ops.items }
    ensures { IfOk result (λ made. Becomes lines ops.items made.items) }
{
    let mut made = ops;
    let mut goes_on = true;
    for _ in 0..MOST_ROUNDS {
        if goes_on {
            let before = made.len();
            made = round(alloc, made, lines)?;
            goes_on = made.len() < before;
        }
    }
    Ok(made)
}

/// A network with the amplitudes of this one, but for a factor of two for each pair of `H` less, with no more
/// operations of any kind.
///
/// The only refusal is want of memory.
pub fn fewer_hadamards(alloc: Global, net: &Net) -> Result<Net, AllocError>
    ensures { IfOk result (Keeps net.now) }
{
    net.recall_invariant();
    let mut ops = Vec::with_capacity(alloc, net.ops().len())?;
    ops.extend_from_slice(net.ops())?;
    let made = rounds(alloc, ops, net.lines())?;
    Ok(Net::of_ops(net.lines(), made))
}
