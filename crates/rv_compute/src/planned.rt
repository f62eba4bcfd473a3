// The best circuit of plans by products of linear forms.
ghost use Rattle.std.specs.Prelude.{◌≤◌, IfOk, IfSome};
ghost use Rattle.rv_gate.specs.declared.word.TheConstants.{MOST_LINES};
ghost use Rattle.rv_compute.specs.Computed.{IsComputedWithin};
ghost use Rattle.rv_compute.specs.inside.Held.{line_count};

use crate::certificate::certified;
use crate::cost::is_better;
use crate::searched::{Ranked, Searched};
use rv_blif::Logic;
use rv_gate::{Circuit, MOST_LINES};
use rv_planner::Plans;
use rv_price::Goal;
use std::alloc::{AllocError, Global};

// So many of the best plans of a kind are tried.
const MOST_TRIED: usize = 3;

// The places of the best plans that fit, that of the best one first.
fn choices(alloc: Global, ranked: &Ranked, extra: u8) -> Result<Vec<usize>, AllocError> {
    let plans = &ranked.plans.plans;
    let mut choices = Vec::new(alloc);
    for place in &ranked.places {
        if *place < plans.len() && plans[*place].work <= extra {
            choices.push(*place)?;
        }
    }
    choices.truncate(MOST_TRIED);
    Ok(choices)
}

// The first circuit of some plans.
fn first_certified(
    alloc: Global,
    logic: &Logic,
    extra: u8,
    plans: &Plans,
    choices: &[usize],
) -> Result<Option<Circuit>, AllocError>
    requires { line_count logic.now extra ≤ MOST_LINES }
    ensures { IfOk result (λ o. IfSome o (IsComputedWithin logic.now (line_count logic.now extra))) }
{
    for place in choices {
        if *place < plans.plans.len() {
            let plan = &plans.plans[*place];
            if let Some(circuit) = certified(alloc, logic, extra, plans, plan)? {
                return Ok(Some(circuit));
            }
        }
    }
    Ok(None)
}

// The best circuit of plans of a kind.
fn best_of(
    alloc: Global,
    logic: &Logic,
    extra: u8,
    ranked: &Ranked,
) -> Result<Option<Circuit>, AllocError>
    requires { line_count logic.now extra ≤ MOST_LINES }
    ensures { IfOk result (λ o. IfSome o (IsComputedWithin logic.now (line_count logic.now extra))) }
{
    let choices = choices(alloc, ranked, extra)?;
    first_certified(alloc, logic, extra, &ranked.plans, &choices)
}

// The better of two circuits, as far as there are any.
fn better(
    alloc: Global,
    logic: &Logic,
    extra: u8,
    goal: Goal,
    one: Option<Circuit>,
    other: Option<Circuit>,
) -> Result<Option<Circuit>, AllocError>
    requires one { IfSome one (IsComputedWithin logic.now (line_count logic.now extra)) }
    requires other { IfSome other (IsComputedWithin logic.now (line_count logic.now extra)) }
    ensures { IfOk result (λ o. IfSome o (IsComputedWithin logic.now (line_count logic.now extra))) }
{
    let is_other = is_better(alloc, goal, &other, &one)?;
    Ok(if is_other { other } else { one })
}

/// The best circuit of a plan on at most so many work lines, if there is one.
pub(crate) fn planned(
    alloc: Global,
    logic: &Logic,
    extra: u8,
    searched: &Searched,
    goal: Goal,
) -> Result<Option<Circuit>, AllocError>
    requires { line_count logic.now extra ≤ MOST_LINES }
    ensures { IfOk result (λ o. IfSome o (IsComputedWithin logic.now (line_count logic.now extra))) }
{
    let mut best = None;
    for ranked in &searched.ranked {
        let other = best_of(alloc, logic, extra, ranked)?;
        best = better(alloc, logic, extra, goal, best, other)?;
    }
    Ok(best)
}
