// What is counted of networks, and which of two is better.
ghost use Rattle.std.specs.Prelude.{◌≡◌, ◌≤◌, count_by, length, IsTrue};
ghost use Rattle.std.specs.List.{sum_by};
ghost use Rattle.rv_net.specs.Op.{has_three_lines};
ghost use Rattle.rv_net.specs.declared.net.TheConstants.{MOST_OPS};
ghost use Rattle.rv_reduce.specs.Cnots.{cnot_count, cnots_of};
ghost use Rattle.rv_reduce.specs.ByGoal.{HasFewCnots, IsNoWorse, measure};

use crate::Goal;
use rv_cost::net_cost;
use rv_net::{Net, Op};

fn cnots_of(op: Op) -> u32
    ensures value { result ≡ cnots_of op }
    ensures few { result ≤ 3 }
{
    match op {
        Op::Cx(..) | Op::Cz(..) => 1,
        Op::Swap(..) => 3,
        _ => 0,
    }
}

fn cnot_count(ops: &[Op]) -> u32
    requires { length ops.now ≤ MOST_OPS }
    ensures { result ≡ cnot_count ops.now }
{
    let mut count = 0;
    for op in ops {
        count += cnots_of(*op);
    }
    count
}

fn has_three_lines(op: Op) -> bool
    ensures { result ≡ has_three_lines op }
{
    matches!(op, Op::Ccx(..) | Op::Cswap(..))
}

fn three_lines_count(ops: &[Op]) -> usize
    ensures { result ≡ count_by has_three_lines ops.now }
{
    ops.iter().filter(|op| has_three_lines(**op)).count()
}

fn measure(goal: Goal, net: &Net) -> u32
    ensures { result ≡ measure goal net.now.ops }
{
    net.recall_invariant();
    let cost = net_cost(net);
    match goal {
        Goal::Ops => cost.operations,
        Goal::T => cost.t,
        Goal::Cx => cnot_count(net.ops()),
        Goal::Depth => cost.depth,
    }
}

// Whether one has no more CNOT gates than the other, or may have more, since T is what counts and it has fewer.
fn has_few_cnots(goal: Goal, before: &Net, after: &Net) -> bool
    ensures { IsTrue result → HasFewCnots goal before.now.ops after.now.ops }
{
    measure(Goal::Cx, after) <= measure(Goal::Cx, before)
        || matches!(goal, Goal::T) && measure(Goal::T, after) < measure(Goal::T, before)
}

/// Whether a network is no worse than another one.
pub(crate) fn is_no_worse(goal: Goal, before: &Net, after: &Net) -> bool
    ensures { IsTrue result → IsNoWorse goal before.now.ops after.now.ops }
{
    measure(goal, after) <= measure(goal, before)
        && measure(Goal::T, after) <= measure(Goal::T, before)
        && three_lines_count(after.ops()) <= three_lines_count(before.ops())
        && has_few_cnots(goal, before, after)
}
