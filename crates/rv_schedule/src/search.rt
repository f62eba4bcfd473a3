// The cheapest of some plans.
ghost use Rattle.std.specs.Prelude.{◌≤◌, IfOk, IfSome};

use crate::engine::{Order, Way, plan_of};
use crate::net::Net;
use crate::plan::Plan;
use std::alloc::{AllocError, Global};

// For each order, a node may stand on an input's line or not, and be added to an output's line at once or not.
const WAYS: usize = 16;

const ORDERS: [Order; 4] = [Order::First, Order::Last, Order::Light, Order::Heavy];

// The cheaper of two plans; of two that cost the same, that on fewer lines.
fn cheaper(best: Plan, other: Plan) -> Plan {
    if other.price < best.price || other.price == best.price && other.extra < best.extra {
        other
    } else {
        best
    }
}

fn better(best: Option<Plan>, other: Option<Plan>) -> Option<Plan> {
    match (best, other) {
        (Some(best), Some(other)) => Some(cheaper(best, other)),
        (None, other) => other,
        (best, None) => best,
    }
}

// The ways in turn.
fn way_of(number: usize) -> Way {
    Way {
        on_inputs: number & 2 == 0,
        direct: number & 1 == 0,
        order: ORDERS[number / 4 % 4],
    }
}

// A plan, if it has at most so many work lines.
fn within(plan: Option<Plan>, extra: u8) -> Option<Plan>
    ensures { IfSome result (λ plan. plan.extra ≤ extra) }
{
    let plan = plan?;
    if plan.extra <= extra {
        Some(plan)
    } else {
        None
    }
}

/// The cheapest plan that is found on at most so many work lines.
pub fn best_plan(alloc: Global, net: &Net, extra: u8) -> Result<Option<Plan>, AllocError>
    ensures { IfOk result (λ o. IfSome o (λ plan. plan.extra ≤ extra)) }
{
    let mut best: Option<Plan> = None;
    for number in 0..WAYS {
        let found = plan_of(alloc, net, extra, way_of(number))?;
        best = better(best, found);
    }
    Ok(within(best, extra))
}

// The cheapest plan that is found on fewer work lines than another has.
fn on_fewer(alloc: Global, net: &Net, plan: &Option<Plan>) -> Result<Option<Plan>, AllocError> {
    match plan {
        Some(plan) if plan.extra > 0 => best_plan(alloc, net, plan.extra - 1),
        _ => Ok(None),
    }
}

/// The cheapest plan that is found on as few work lines as any is, and on at most so many.
pub fn fewest_plan(alloc: Global, net: &Net, extra: u8) -> Result<Option<Plan>, AllocError>
    ensures { IfOk result (λ o. IfSome o (λ plan. plan.extra ≤ extra)) }
{
    let mut best = best_plan(alloc, net, extra)?;
    for _ in 0..extra {
        let next = on_fewer(alloc, net, &best)?;
        if next.is_none() {
            break;
        }
        best = next;
    }
    Ok(within(best, extra))
}
