// The certificate: what is planned is followed by forms, and all powers of w are none at the end.
ghost use Rattle.std.specs.Prelude.{◌≡◌, ◌+◌, ◌<◌, ◌≤◌, ◌^◌, [], length, IfOk, IfSome, IsTrue};
ghost use Rattle.rv_gate.specs.Every.{Every};
ghost use Rattle.rv_gate.specs.Gate.{IsFlipOn, run};
ghost use Rattle.rv_gate.specs.Greatest.{greatest};
ghost use Rattle.rv_gate.specs.declared.word.TheConstants.{MOST_LINES};
ghost use Rattle.rv_mct.specs.Blocks.{flip_wish};
ghost use Rattle.rv_joined.specs.declared.state.State.{State as AState};
ghost use Rattle.rv_joined.specs.inside.Brings.{AreStart, FollowedSoFar, Grows, RunsAs, StartsAs, columns};

use crate::follow::{follow_flip, follow_phase};
use crate::plan::{Item, Plan};
use crate::setup::Setup;
use crate::slots::{Slots, are_none};
use crate::state::State;
use rv_forms::{Form, Term, are_terms, column, constant};
use rv_gate::{Gate, MOST_LINES};
use rv_mct::Aux;
use rv_net::Op;
use std::alloc::{AllocError, Global};
use std::collections::HashMap;

/// More terms than this are not followed.
pub(crate) const MOST_TERMS: usize = 1 << 24;

// What a line holds at the beginning.
fn start_form(alloc: Global, setup: Setup, line: u8) -> Result<Form, AllocError>
    requires { line < columns setup }
    ensures { IfOk result (StartsAs setup line) }
{
    match setup.aux {
        Aux::Clean if line >= setup.lines => Ok(constant(alloc, false)),
        _ => column(alloc, u32::from(line)),
    }
}

/// What the lines hold at the beginning.
pub(crate) fn start_held(alloc: Global, setup: Setup) -> Result<Vec<Form>, AllocError>
    requires few { setup.lines + setup.extra ≤ MOST_LINES }
    ensures { IfOk result (λ held. AreStart setup (columns setup) held.items) }
{
    let mut held = Vec::new(alloc);
    for line in 0..setup.lines + setup.extra {
        let form = start_form(alloc, setup, line)?;
        held.push(form)?;
    }
    Ok(held)
}

fn start(alloc: Global, setup: Setup) -> Result<State, AllocError>
    requires few { setup.lines + setup.extra ≤ MOST_LINES }
    ensures start { IfOk result (λ state. AreStart setup (columns setup) state.held.items) }
    ensures ops { IfOk result (λ state. state.ops.items ≡ []) }
    ensures slots { IfOk result (λ state. state.slots.list.items ≡ []) }
{
    let held = start_held(alloc, setup)?;
    Ok(State {
        ops: Vec::new(alloc),
        held,
        slots: Slots {
            list: Vec::new(alloc),
            places: HashMap::new(alloc),
        },
    })
}

// What is written next, where so many flips have been written: how many then. `None` where it can't be followed.
fn follow_item(
    alloc: Global,
    setup: Setup,
    terms: &[Term],
    state: &mut State,
    flips: &[Gate],
    next: usize,
    item: Item,
) -> Result<Option<usize>, AllocError>
    requires few { setup.lines + setup.extra ≤ MOST_LINES }
    requires columns { columns setup + length terms.now ≤ 2 ^ 32 }
    requires own { Every (IsFlipOn setup.lines) flips.now }
    requires enough { greatest (flip_wish setup.aux setup.lines) flips.now ≤ setup.extra }
    ensures { IfOk result (λ o. IfSome o (λ after. (begin : AState)
        → FollowedSoFar setup terms.now begin flips.now next state.old
        → FollowedSoFar setup terms.now begin flips.now after state.new)) }
{
    if state.held.len() > usize::from(MOST_LINES) {
        return Ok(None);
    }
    match item {
        Item::Phase(phase) => {
            if !follow_phase(alloc, setup, terms, state, phase)? {
                return Ok(None);
            }
            Ok(Some(next))
        }
        Item::Flip { block, claim } => {
            if next >= flips.len() {
                return Ok(None);
            }
            if !follow_flip(alloc, setup, terms, state, flips[next], block, claim)? {
                return Ok(None);
            }
            Ok(Some(next + 1))
        }
    }
}

// What is planned, with all flips. `false` where it can't be followed.
fn follow(
    alloc: Global,
    setup: Setup,
    terms: &[Term],
    state: &mut State,
    flips: &[Gate],
    items: &[Item],
) -> Result<bool, AllocError>
    requires few { setup.lines + setup.extra ≤ MOST_LINES }
    requires columns { columns setup + length terms.now ≤ 2 ^ 32 }
    requires own { Every (IsFlipOn setup.lines) flips.now }
    requires enough { greatest (flip_wish setup.aux setup.lines) flips.now ≤ setup.extra }
    ensures { IfOk result (λ done. IsTrue done → Grows setup terms.now state.old flips.now state.new) }
{
    let mut next = 0;
    for item in items {
        next = match follow_item(alloc, setup, terms, state, flips, next, *item)? {
            Some(after) => after,
            None => return Ok(false),
        };
    }
    Ok(next == flips.len())
}

/// The operations of a plan, if they move words as flips do.
pub(crate) fn certified(
    alloc: Global,
    setup: Setup,
    flips: &[Gate],
    plan: &Plan,
) -> Result<Option<Vec<Op>>, AllocError>
    requires few { setup.lines + setup.extra ≤ MOST_LINES }
    requires own { Every (IsFlipOn setup.lines) flips.now }
    requires enough { greatest (flip_wish setup.aux setup.lines) flips.now ≤ setup.extra }
    ensures { IfOk result (λ o. IfSome o (λ ops. RunsAs setup ops.items flips.now)) }
{
    let first = usize::from(setup.lines + setup.extra);
    if plan.terms.len() > MOST_TERMS || !are_terms(&plan.terms, first) {
        return Ok(None);
    }
    let mut state = start(alloc, setup)?;
    if !follow(alloc, setup, &plan.terms, &mut state, flips, &plan.items)? {
        return Ok(None);
    }
    if !are_none(alloc, &state.slots.list)? {
        return Ok(None);
    }
    Ok(Some(state.ops))
}
