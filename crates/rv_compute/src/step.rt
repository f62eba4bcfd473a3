// Steps of a plan, each certified.
ghost use Rattle.std.specs.Prelude.{◌≡◌, ◌<◌, ◌≤◌, length, IfOk, IfSome};
ghost use Rattle.rv_gate.specs.declared.word.TheConstants.{MOST_LINES};
ghost use Rattle.rv_blif.specs.declared.product.TheConstants.{MOST_OPERANDS};
ghost use Rattle.rv_compute.specs.inside.Held.{Stands, IsExchanged, IsPut, IsPutFor, line_count};
ghost use Rattle.rv_compute.specs.inside.Places.{AreBeside};

use crate::block::block_of;
use crate::held::{places_of, start_of};
use crate::place::Place;
use crate::sum::is_sum;
use rv_blif::{Logic, MOST_OPERANDS, Product};
use rv_gate::{Gate, MOST_LINES};
use rv_schedule::Pass;
use std::alloc::{AllocError, Global};

/// What stands on the lines, and the gates that put it there.
#[derive(Drop)]
pub(crate) struct Work {
    pub(crate) held: Vec<Option<u32>>,
    pub(crate) gates: Vec<Gate>,
}

// What a line holds in place of what it held, if that is one of two.
fn exchanged(held: Option<u32>, one: Option<u32>, other: Option<u32>) -> Option<Option<u32>>
    ensures { IfSome result (IsExchanged held one other) }
{
    if held == one {
        Some(other)
    } else if held == other {
        Some(one)
    } else {
        None
    }
}

// The operands that products ask for.
fn asked_of(products: &[Product]) -> u16 {
    let mut asked = 0;
    for product in products {
        asked |= product.care;
    }
    asked
}

// Adds products of what is read at places to a line, which then holds something else.
fn put(
    alloc: Global,
    work: &mut Work,
    places: &[Option<Place>],
    line: u8,
    products: &[Product],
    next: Option<u32>,
) -> Result<bool, AllocError>
    requires lines { length work.old.held.items ≤ MOST_LINES }
    requires few { length places.now ≤ MOST_OPERANDS }
    requires line { line < length work.old.held.items }
    requires beside { AreBeside (length work.old.held.items) line places.now }
    ensures { IfOk result (IsPut places.now line products.now next work.old.held.items
        work.old.gates.items
        work.new.held.items work.new.gates.items) }
{
    let lines = work.held.len() as u8;
    let Some(block) = block_of(alloc, lines, places, line, products)? else {
        return Ok(false);
    };
    work.gates.extend_from_slice(&block)?;
    work.held[usize::from(line)] = next;
    Ok(true)
}

// Adds products of operands to a line, which then holds something else. `false` where the operands don't stand.
fn put_operands(
    alloc: Global,
    logic: &Logic,
    passes: &[Option<Pass>],
    work: &mut Work,
    operands: &[u32],
    line: u8,
    products: &[Product],
    next: Option<u32>,
) -> Result<bool, AllocError>
    requires lines { length work.old.held.items ≤ MOST_LINES }
    requires few { length operands.now ≤ MOST_OPERANDS }
    requires line { line < length work.old.held.items }
    ensures { IfOk result (IsPutFor logic.now operands.now line products.now next work.old.held.items
        work.old.gates.items
        work.new.held.items work.new.gates.items) }
{
    let asked = asked_of(products);
    let Some(places) = places_of(alloc, logic, &work.held, passes, operands, asked, line)? else {
        return Ok(false);
    };
    put(alloc, work, &places, line, products, next)
}

/// Adds a node to a line, which then holds it in place of the operand `start`, or of nothing; or that operand, or
/// nothing, in place of the node. `false` where that can't be.
pub(crate) fn add(
    alloc: Global,
    logic: &Logic,
    extra: u8,
    passes: &[Option<Pass>],
    work: &mut Work,
    signal: u32,
    start: Option<u8>,
    products: &[Product],
    line: u8,
) -> Result<bool, AllocError>
    requires lines { line_count logic.now extra ≤ MOST_LINES }
    requires stands { Stands logic.now extra work.old.held.items work.old.gates.items }
    ensures { IfOk result (λ _. Stands logic.now extra work.new.held.items work.new.gates.items) }
{
    let inputs = logic.input_count();
    let nodes = logic.nodes();
    if signal < inputs || (signal - inputs) as usize >= nodes.len() {
        return Ok(false);
    }
    let node = &nodes[(signal - inputs) as usize];
    if usize::from(line) >= work.held.len() || !is_sum(node, start, products) {
        return Ok(false);
    }
    let operands = node.operands();
    let Some(old) = start_of(operands, start) else {
        return Ok(false);
    };
    let Some(next) = exchanged(work.held[usize::from(line)], old, Some(signal)) else {
        return Ok(false);
    };
    put_operands(alloc, logic, passes, work, operands, line, products, next)
}

/// Copies a signal to a line that holds nothing. `false` where that can't be.
pub(crate) fn copy(
    alloc: Global,
    logic: &Logic,
    extra: u8,
    passes: &[Option<Pass>],
    work: &mut Work,
    signal: u32,
    line: u8,
) -> Result<bool, AllocError>
    requires lines { line_count logic.now extra ≤ MOST_LINES }
    requires stands { Stands logic.now extra work.old.held.items work.old.gates.items }
    ensures { IfOk result (λ _. Stands logic.now extra work.new.held.items work.new.gates.items) }
{
    if usize::from(line) >= work.held.len() {
        return Ok(false);
    }
    if work.held[usize::from(line)].is_some() {
        return Ok(false);
    }
    let all = Product { care: 1, want: 1 };
    put_operands(
        alloc,
        logic,
        passes,
        work,
        &[signal],
        line,
        &[all],
        Some(signal),
    )
}
