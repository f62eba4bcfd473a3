// Toffoli and Fredkin gates by their exact blocks.
ghost use Rattle.std.specs.Prelude.{◌≡◌, ◌≤◌, ◌++◌, length, IfOk};
ghost use Rattle.rv_net.specs.declared.net.TheConstants.{MOST_OPS};
ghost use Rattle.rv_reduce.specs.Blocks.{begun, block_of, in_blocks, takes_blocks};

use crate::Goal;
use rv_net::{MOST_OPS, Net, Op, add_toffoli};
use std::alloc::{AllocError, Global};

fn add_block(ops: &mut Vec<Op>, op: Op) -> Result<(), AllocError>
    ensures { IfOk result (λ _. ops.new.items ≡ ops.old.items ++ block_of op) }
{
    match op {
        Op::Ccx(a, b, c) => add_toffoli(ops, a, b, c)?,
        Op::Cswap(c, a, b) => {
            ops.push(Op::Cx(b, a))?;
            add_toffoli(ops, c, a, b)?;
            ops.push(Op::Cx(b, a))?;
        }
        _ => ops.push(op)?,
    }
    Ok(())
}

fn block_length(op: Op) -> usize
    ensures value { result ≡ length (block_of op) }
    ensures few { result ≤ 17 }
{
    match op {
        Op::Ccx(..) => 15,
        Op::Cswap(..) => 17,
        _ => 1,
    }
}

fn length_in_blocks(ops: &[Op]) -> usize
    requires { length ops.now ≤ MOST_OPS }
    ensures { result ≡ length (in_blocks ops.now) }
{
    let mut count = 0;
    for op in ops {
        count += block_length(*op);
    }
    count
}

fn in_blocks(alloc: Global, ops: &[Op], count: usize) -> Result<Vec<Op>, AllocError>
    ensures { IfOk result (λ made. made.items ≡ in_blocks ops.now) }
{
    let mut made = Vec::with_capacity(alloc, count)?;
    for op in ops {
        add_block(&mut made, *op)?;
    }
    Ok(made)
}

fn copy(alloc: Global, net: &Net) -> Result<Net, AllocError>
    ensures { IfOk result (λ copy. copy ≡ net.now) }
{
    net.recall_invariant();
    let mut ops = Vec::with_capacity(alloc, net.ops().len())?;
    ops.extend_from_slice(net.ops())?;
    Ok(Net::of_ops(net.lines(), ops))
}

/// The network that a goal begins with: by blocks, unless operations count or there would be too many.
pub(crate) fn begun(alloc: Global, goal: Goal, net: &Net) -> Result<Net, AllocError>
    ensures { IfOk result (λ made. made ≡ begun goal net.now) }
{
    net.recall_invariant();
    let count = length_in_blocks(net.ops());
    if matches!(goal, Goal::Ops) || count > MOST_OPS {
        return copy(alloc, net);
    }
    let ops = in_blocks(alloc, net.ops(), count)?;
    Ok(Net::of_ops(net.lines(), ops))
}
