// The best circuit that is found.
ghost use Rattle.std.specs.Prelude.{◌≤◌, IfOk, IfSome};
ghost use Rattle.rv_gate.specs.declared.word.TheConstants.{MOST_LINES};
ghost use Rattle.rv_compute.specs.Computed.{IsComputedWithin};
ghost use Rattle.rv_compute.specs.inside.Held.{line_count};

use crate::cost::is_better;
use crate::planned::planned;
use crate::run::certified;
use crate::searched::Searched;
use rv_blif::Logic;
use rv_gate::{Circuit, MOST_LINES};
use rv_price::Goal;
use rv_schedule::{best_plan, fewest_plan, net_of};
use std::alloc::{AllocError, Global};

/// The lesser one.
pub(crate) fn fewer(one: Option<u8>, other: Option<u8>) -> Option<u8> {
    match (one, other) {
        (Some(one), Some(other)) => Some(one.min(other)),
        (None, other) => other,
        (one, None) => one,
    }
}

// The circuit of the best order of nodes, if there is one.
fn ordered(
    alloc: Global,
    logic: &Logic,
    extra: u8,
    goal: Goal,
) -> Result<Option<Circuit>, AllocError>
    requires { line_count logic.now extra ≤ MOST_LINES }
    ensures { IfOk result (λ o. IfSome o (IsComputedWithin logic.now (line_count logic.now extra))) }
{
    let net = net_of(alloc, logic)?;
    let plan = match goal {
        Goal::Lines => fewest_plan(alloc, &net, extra)?,
        _ => best_plan(alloc, &net, extra)?,
    };
    match plan {
        Some(plan) => certified(alloc, logic, &net, &plan),
        None => Ok(None),
    }
}

/// The best circuit that is found on at most so many work lines, if there is one.
pub(crate) fn best_circuit(
    alloc: Global,
    logic: &Logic,
    extra: u8,
    goal: Goal,
    searched: &Option<Searched>,
) -> Result<Option<Circuit>, AllocError>
    requires { line_count logic.now extra ≤ MOST_LINES }
    ensures { IfOk result (λ o. IfSome o (IsComputedWithin logic.now (line_count logic.now extra))) }
{
    let one = ordered(alloc, logic, extra, goal)?;
    match searched {
        Some(searched) => {
            let other = planned(alloc, logic, extra, searched, goal)?;
            let is_other = is_better(alloc, goal, &other, &one)?;
            Ok(if is_other { other } else { one })
        }
        None => Ok(one),
    }
}
