// The operations that are taken, of those that are found.
ghost use Rattle.std.specs.Prelude.{◌≡◌, ◌+◌, ◌≤◌, count_by, IfOk, IfSome};
ghost use Rattle.rv_gate.specs.declared.word.TheConstants.{MOST_LINES};
ghost use Rattle.rv_net.specs.Op.{is_t};
ghost use Rattle.rv_joined.specs.inside.Brings.{RunsAs};
ghost use Rattle.rv_joined.specs.inside.Shorter.{AreFlips};

use crate::certificate::certified;
use crate::planner::planned;
use crate::setup::Setup;
use crate::shorter::shorter;
use rv_gate::Gate;
use rv_mct::Aux;
use rv_net::Op;
use std::alloc::{AllocError, Global};

/// How many operations are T or its inverse.
pub(crate) fn t_count(ops: &[Op]) -> usize
    ensures { result ≡ count_by is_t ops.now }
{
    ops.iter()
        .filter(|op| matches!(op, Op::T(_) | Op::Tdg(_)))
        .count()
}

// T, CNOTs and operations.
fn price(ops: &[Op]) -> (usize, usize, usize) {
    let cnots = ops.iter().filter(|op| matches!(op, Op::Cx(..))).count();
    (t_count(ops), cnots, ops.len())
}

fn is_cheaper(ops: &[Op], others: &[Op]) -> bool {
    price(ops) < price(others)
}

// Flips as blocks and phases.
fn written(alloc: Global, setup: Setup, flips: &[Gate]) -> Result<Option<Vec<Op>>, AllocError>
    requires few { setup.lines + setup.extra ≤ MOST_LINES }
    requires flips { AreFlips setup flips.now }
    ensures { IfOk result (λ o. IfSome o (λ ops. RunsAs setup ops.items flips.now)) }
{
    let Some(plan) = planned(alloc, setup, flips)? else {
        return Ok(None);
    };
    let ops = certified(alloc, setup, flips, &plan)?;
    Ok(ops)
}

// The same of fewer flips that do the same.
fn shortened(alloc: Global, setup: Setup, flips: &[Gate]) -> Result<Option<Vec<Op>>, AllocError>
    requires few { setup.lines + setup.extra ≤ MOST_LINES }
    requires flips { AreFlips setup flips.now }
    ensures { IfOk result (λ o. IfSome o (λ ops. RunsAs setup ops.items flips.now)) }
{
    let Some(left) = shorter(alloc, setup, flips)? else {
        return Ok(None);
    };
    let ops = written(alloc, setup, &left)?;
    Ok(ops)
}

/// The operations of flips, if some are found: of fewer flips where that is cheaper.
pub(crate) fn best(
    alloc: Global,
    setup: Setup,
    flips: &[Gate],
) -> Result<Option<Vec<Op>>, AllocError>
    requires few { setup.lines + setup.extra ≤ MOST_LINES }
    requires flips { AreFlips setup flips.now }
    ensures { IfOk result (λ o. IfSome o (λ ops. RunsAs setup ops.items flips.now)) }
{
    let Some(other) = shortened(alloc, setup, flips)? else {
        let ops = written(alloc, setup, flips)?;
        return Ok(ops);
    };
    let Some(ops) = written(alloc, setup, flips)? else {
        return Ok(Some(other));
    };
    if is_cheaper(&ops, &other) {
        return Ok(Some(ops));
    }
    Ok(Some(other))
}
