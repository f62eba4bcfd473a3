// The plans of a network.
use crate::curve::{Options, push_plans};
use crate::net::Net;
use crate::network::{fewer_of, net_of};
use crate::plan::{Plan, Plans};
use crate::telling::{outs_of, recipes_of, terms_of};
use rv_blif::Logic;
use rv_gate::MOST_LINES;
use std::alloc::{AllocError, Global};

// The plans that no other beats on as many lines or fewer, on fewer lines first.
fn best_of(alloc: Global, plans: Vec<Plan>) -> Result<Vec<Plan>, AllocError> {
    let mut plans = plans;
    plans.sort_by_key(|plan| (plan.work, plan.price, plan.gates.len()))?;
    let mut best = Vec::new(alloc);
    let mut least = u64::MAX;
    for plan in plans {
        if plan.price < least {
            least = plan.price;
            best.push(plan)?;
        }
    }
    Ok(best)
}

// The best plans for a network.
fn plans_of(alloc: Global, net: &Net, options: Options) -> Result<Vec<Plan>, AllocError> {
    let lines = net.inputs.saturating_add(net.outs.len());
    let mut plans = Vec::new(alloc);
    if !net.is_full && lines <= usize::from(MOST_LINES) {
        push_plans(alloc, net, false, options, &mut plans)?;
        push_plans(alloc, net, true, options, &mut plans)?;
    }
    best_of(alloc, plans)
}

/// Plans for a network on as few lines as are found, and on more lines as far as that takes fewer T gates.
pub fn plans(alloc: Global, logic: &Logic, options: Options) -> Result<Plans, AllocError> {
    let net = net_of(alloc, logic)?;
    Ok(Plans {
        terms: terms_of(alloc, &net)?,
        recipes: recipes_of(alloc, &net, logic)?,
        outs: outs_of(alloc, &net)?,
        plans: plans_of(alloc, &net, options)?,
    })
}

/// Plans for the outputs of a network by fewer products, without recipes for its nodes.
pub fn fewer_plans(alloc: Global, logic: &Logic, options: Options) -> Result<Plans, AllocError> {
    let net = fewer_of(alloc, logic, options.seed, options.effort)?;
    Ok(Plans {
        terms: terms_of(alloc, &net)?,
        recipes: Vec::new(alloc),
        outs: outs_of(alloc, &net)?,
        plans: plans_of(alloc, &net, options)?,
    })
}
