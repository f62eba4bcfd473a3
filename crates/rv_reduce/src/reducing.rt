ghost use Rattle.std.specs.Prelude.{IfOk};
ghost use Rattle.rv_fold.specs.Folded.{IsFoldingOf};
ghost use Rattle.rv_pairs.specs.Cancelled.{IsPair};
ghost use Rattle.rv_reduce.specs.Reduced.{IsReductionOf};
ghost use Rattle.rv_turns.specs.Joined.{IsJoiningOf};

use crate::Goal;
use crate::measures::is_no_worse;
use rv_fold::fold;
use rv_hadamards::fewer_hadamards;
use rv_net::Net;
use rv_pairs::cancel;
use rv_turns::join_turns;
use std::alloc::{AllocError, Global};

// How many rounds are taken at the most.
const MOST_ROUNDS: u8 = 3;

// Networks of fewer operations are short.
const SHORT: usize = 1 << 16;

// These take their network by value, so that it is free before the next step.
fn folded(alloc: Global, net: Net) -> Result<Net, AllocError>
    ensures { IfOk result (IsFoldingOf net) }
{
    fold(alloc, &net)
}

fn joined(alloc: Global, net: Net) -> Result<Net, AllocError>
    ensures { IfOk result (IsJoiningOf net) }
{
    join_turns(alloc, &net)
}

// Joins phase gates, then T gates, and then cancels. Also how many operations that cancelled.
fn round(alloc: Global, net: Net) -> Result<(Net, usize), AllocError>
    ensures { IfOk result (λ r. IsReductionOf net r.0) }
{
    let folded = folded(alloc, net)?;
    let joined = joined(alloc, folded)?;
    let next = cancel(alloc, &joined)?;
    let gone = joined.ops().len().saturating_sub(next.ops().len());
    Ok((next, gone))
}

// Whether a further round is worth its time, after one from so many operations to so many that cancelled these: that is
// where the next one finds more.
fn is_worth(before: usize, after: usize, cancelled: usize) -> bool {
    after < before && (before < SHORT || cancelled > before / 100)
}

// In rounds, with nothing left to cancel.
pub(crate) fn shortened(alloc: Global, net: &Net) -> Result<Net, AllocError>
    ensures { IfOk result (IsReductionOf net.now) }
{
    let mut reduced = cancel(alloc, net)?;
    let mut goes_on = true;
    for _ in 0..MOST_ROUNDS {
        if goes_on {
            let before = reduced.ops().len();
            let (next, cancelled) = round(alloc, reduced)?;
            goes_on = is_worth(before, next.ops().len(), cancelled);
            reduced = next;
        }
    }
    Ok(reduced)
}

// The same from a network with fewer `H`, unless there is none or it leads to a worse one.
fn opened(alloc: Global, net: Net) -> Result<Net, AllocError>
    requires { ¬ IsPair net.ops }
    ensures { IfOk result (IsReductionOf net) }
{
    net.recall_invariant();
    let fewer = fewer_hadamards(alloc, &net)?;
    if fewer.ops().len() == net.ops().len() {
        return Ok(net);
    }
    let other = shortened(alloc, &fewer)?;
    if is_no_worse(Goal::Ops, &net, &other) {
        Ok(other)
    } else {
        Ok(net)
    }
}

/// A network with the amplitudes of this one, but for a factor of two for each pair of `H` less, with no more
/// operations and no more T, and with nothing left to cancel.
///
/// The only refusal is want of memory.
pub fn reduce(alloc: Global, net: &Net) -> Result<Net, AllocError>
    ensures { IfOk result (IsReductionOf net.now) }
{
    let reduced = shortened(alloc, net)?;
    let opened = opened(alloc, reduced)?;
    Ok(opened)
}
