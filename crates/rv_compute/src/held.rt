// Where the operands of nodes stand.
ghost use Rattle.std.specs.Prelude.{◌≡◌, ℕ, ◌+◌, ◌<◌, ◌≤◌, ◌⊎◌, ◌≢◌, length, IfOk, IfSome, IsTrue, Some};
ghost use Rattle.rv_gate.specs.declared.word.TheConstants.{MOST_LINES};
ghost use Rattle.rv_blif.specs.declared.product.TheConstants.{MOST_OPERANDS};
ghost use Rattle.rv_compute.specs.inside.Sums.{PassesOn, IsStart};
ghost use Rattle.rv_compute.specs.inside.Held.{StandsFree, IsSource, IsPlaceFor, IsPlaceIf, ArePlacesFor};

use crate::place::Place;
use crate::sum::is_sum;
use rv_blif::{Logic, MOST_OPERANDS, Node, Product};
use rv_gate::{MOST_LINES, has};
use rv_schedule::Pass;
use std::alloc::{AllocError, Global};

// So many nodes in turn that only pass on an operand are seen through.
const MOST_PASSING: usize = 64;

// A line that isn't an output's and on which the signal stands.
fn find_line(logic: &Logic, held: &[Option<u32>], signal: u32) -> Option<u8>
    requires { length held.now ≤ MOST_LINES }
    ensures { IfSome result (StandsFree logic.now held.now signal) }
{
    let inputs = logic.input_count() as usize;
    let outputs = logic.output_count() as usize;
    for line in 0..held.len() {
        if line < inputs || inputs + outputs <= line {
            if let Some(other) = held[line] {
                if other == signal {
                    return Some(line as u8);
                }
            }
        }
    }
    None
}

// Whether a node passes this on.
fn passes_on(node: &Node, pass: Pass) -> bool
    ensures { IsTrue result → PassesOn node.now pass.operand pass.changed }
{
    if pass.changed {
        is_sum(node, pass.operand, &[Product { care: 0, want: 0 }])
    } else {
        is_sum(node, pass.operand, &[])
    }
}

// What a node passes on: a signal, or nothing.
fn source_of(logic: &Logic, signal: u32, pass: Pass) -> Option<Option<u32>>
    ensures { IfSome result (IsSource logic.now signal pass.changed) }
{
    let inputs = logic.input_count();
    if signal < inputs {
        return None;
    }
    let nodes = logic.nodes();
    let k = (signal - inputs) as usize;
    if k >= nodes.len() {
        return None;
    }
    let node = &nodes[k];
    if !passes_on(node, pass) {
        return None;
    }
    start_of(node.operands(), pass.operand)
}

// The operand of this number, or none.
pub(crate) fn start_of(operands: &[u32], start: Option<u8>) -> Option<Option<u32>>
    ensures { IfSome result (IsStart operands.now start) }
{
    match start {
        None => Some(None),
        Some(operand) => {
            if usize::from(operand) < operands.len() {
                Some(Some(operands[usize::from(operand)]))
            } else {
                None
            }
        }
    }
}

// Where a signal is read, beside a line.
fn place_of(
    logic: &Logic,
    held: &[Option<u32>],
    passes: &[Option<Pass>],
    signal: u32,
    target: u8,
) -> Option<Place>
    requires { length held.now ≤ MOST_LINES }
    ensures { IfSome result (IsPlaceFor logic.now held.now target signal) }
{
    let (mut at, mut on) = (signal, true);
    for _ in 0..MOST_PASSING {
        if let Some(line) = find_line(logic, held, at) {
            return if line == target {
                None
            } else {
                Some(Place::Line { line, on })
            };
        }
        let pass = match passes.get(at as usize) {
            Some(Some(pass)) => *pass,
            Some(None) | None => return None,
        };
        match source_of(logic, at, pass)? {
            None => return Some(Place::Constant(on == pass.changed)),
            Some(source) => {
                at = source;
                on = on != pass.changed;
            }
        }
    }
    None
}

// Where a signal is read, if it is asked for.
fn place_if(
    asked: bool,
    logic: &Logic,
    held: &[Option<u32>],
    passes: &[Option<Pass>],
    signal: u32,
    target: u8,
) -> Option<Option<Place>>
    requires { length held.now ≤ MOST_LINES }
    ensures { IfSome result (IsPlaceIf logic.now held.now target signal) }
{
    if asked {
        let place = place_of(logic, held, passes, signal, target)?;
        Some(Some(place))
    } else {
        Some(None)
    }
}

/// Where those of the operands are read that are asked for, beside a line; if they stand.
pub(crate) fn places_of(
    alloc: Global,
    logic: &Logic,
    held: &[Option<u32>],
    passes: &[Option<Pass>],
    operands: &[u32],
    asked: u16,
    target: u8,
) -> Result<Option<Vec<Option<Place>>>, AllocError>
    requires few { length held.now ≤ MOST_LINES }
    requires operands { length operands.now ≤ MOST_OPERANDS }
    ensures { IfOk result (λ places. IfSome places
        (λ v. ArePlacesFor logic.now held.now target operands.now v.items)) }
{
    let mut places = Vec::new(alloc);
    for i in 0..operands.len() {
        let is_asked = has(u64::from(asked), i as u8);
        let Some(place) = place_if(is_asked, logic, held, passes, operands[i], target) else {
            return Ok(None);
        };
        places.push(place)?;
    }
    Ok(Some(places))
}
