ghost use Rattle.std.specs.Prelude.{IfOk, IfSome};
ghost use Rattle.rv_reduce.specs.ByGoal.{Improves, IsReductionBy, KeepsAmplitudes};

use crate::Goal;
use crate::expanding::begun;
use crate::measures::is_no_worse;
use crate::pieces::found_for;
use crate::reducing::shortened;
use rv_hadamards::fewer_hadamards;
use rv_net::{MOST_OPS, Net};
use std::alloc::{AllocError, Global};

// How often a better network is searched for.
const ROUNDS: u16 = 3;

// The second network, unless it is worse.
fn no_worse(goal: Goal, before: Net, after: Net) -> Net
    requires { KeepsAmplitudes before after }
    ensures { Improves goal before result }
{
    before.recall_invariant();
    if is_no_worse(goal, &before, &after) {
        after
    } else {
        before
    }
}

// With what cancels and what is joined left out.
fn tidied(alloc: Global, goal: Goal, net: Net) -> Result<Net, AllocError>
    ensures { IfOk result (Improves goal net) }
{
    let reduced = shortened(alloc, &net)?;
    Ok(no_worse(goal, net, reduced))
}

// With fewer H.
fn opened(alloc: Global, goal: Goal, net: Net) -> Result<Net, AllocError>
    ensures { IfOk result (Improves goal net) }
{
    let fewer = fewer_hadamards(alloc, &net)?;
    Ok(no_worse(goal, net, fewer))
}

// Another network with the same amplitudes, if it is not too long.
fn found(
    alloc: Global,
    goal: Goal,
    net: &Net,
    effort: u16,
    seed: u16,
) -> Result<Option<Net>, AllocError>
    ensures { IfOk result (λ found. IfSome found (KeepsAmplitudes net.now)) }
{
    net.recall_invariant();
    let ops = found_for(alloc, goal, net.lines(), net.ops(), effort, seed)?;
    if ops.len() <= MOST_OPS {
        Ok(Some(Net::of_ops(net.lines(), ops)))
    } else {
        Ok(None)
    }
}

// What a search finds, where it is the same and no worse.
fn searched(alloc: Global, goal: Goal, net: Net, effort: u16, seed: u16) -> Result<Net, AllocError>
    ensures { IfOk result (Improves goal net) }
{
    net.recall_invariant();
    match found(alloc, goal, &net, effort, seed)? {
        Some(other) => Ok(no_worse(goal, net, other)),
        None => Ok(net),
    }
}

// What is found in rounds, each from the best so far.
fn improved(
    alloc: Global,
    goal: Goal,
    begun: Net,
    effort: u16,
    seed: u16,
) -> Result<Net, AllocError>
    ensures { IfOk result (Improves goal begun) }
{
    let reduced = tidied(alloc, goal, begun)?;
    let opened = opened(alloc, goal, reduced)?;
    let mut best = tidied(alloc, goal, opened)?;
    for round in 0..ROUNDS {
        let other = searched(alloc, goal, best, effort, seed.wrapping_add(round))?;
        best = tidied(alloc, goal, other)?;
    }
    Ok(best)
}

/// A network with the amplitudes of this one, where the root of two is divided out of each `H`. It has no more of what
/// the goal names, no more T, no more Toffoli and Fredkin gates, and no more CNOT, unless T is the goal and there are
/// fewer. Where a goal counts more than operations, Toffoli and Fredkin gates are counted as their exact blocks of
/// Clifford and T operations, and none is left, unless the blocks were too many.
///
/// More effort and another seed may find a better one. The only refusal is want of memory.
pub fn reduce_for(
    alloc: Global,
    net: &Net,
    goal: Goal,
    effort: u16,
    seed: u16,
) -> Result<Net, AllocError>
    ensures { IfOk result (IsReductionBy goal net.now) }
{
    net.recall_invariant();
    let begun = begun(alloc, goal, net)?;
    let best = improved(alloc, goal, begun, effort, seed)?;
    Ok(best)
}
