ghost use Rattle.std.specs.Prelude.{◌≡◌, ◌<◌, ◌≤◌, ◌++◌, ◌∷◌, [], ℕ, Some, length, slice_get, IfOk, OnOk};
ghost use Rattle.rv_net.specs.Op.{OpFitsIn};
ghost use Rattle.rv_net.specs.declared.net.TheConstants.{MOST_OPS};
ghost use Rattle.rv_net.specs.declared.op.Op.{Op};
ghost use Rattle.rv_pairs.specs.Cancelled.{IsCancellingOf, IsTable};
ghost use Rattle.rv_pairs.specs.inside.Cells.{present};

use crate::walk::Walk;
use rv_net::{Net, Op, OpFault};
use std::alloc::{AllocError, Global};

fn push(net: &mut Net, op: Op) -> Result<(), AllocError>
    requires fits { OpFitsIn op net.old.lines }
    requires room { length net.old.ops < MOST_OPS }
    ensures { OnOk result (net.new ≡ record net.old { ops = net.old.ops ++ op ∷ [] }) }
{
    match net.push(op) {
        Ok(()) => Ok(()),
        Err(OpFault::Mem) => Err(AllocError),
        Err(OpFault::TooManyOps) => unreachable!(),
    }
}

// The network of the operations that stand, with the lines of another one, which has no less.
fn network(alloc: Global, net: &Net, cells: &[Option<Op>]) -> Result<Net, AllocError>
    requires fits { (place : ℕ) (op : Op) → slice_get cells.now place ≡ Some (Some op) → OpFitsIn op net.now.lines }
    requires room { length (present cells.now) ≤ length net.now.ops }
    ensures { IfOk result (λ made. made ≡ record { lines = net.now.lines; ops = present cells.now }) }
{
    let mut result = Net::new(alloc, net.lines());
    for cell in cells {
        match *cell {
            Some(op) => push(&mut result, op)?,
            None => {}
        }
    }
    Ok(result)
}

/// Leaves out each operation that a later one undoes, with that one, where all operations between them commute with the
/// later one. No such pair is left.
///
/// The only refusal is want of memory.
pub fn cancel(alloc: Global, net: &Net) -> Result<Net, AllocError>
    ensures table { OnOk result (IsTable net.now.lines) }
    ensures cancelled { IfOk result (IsCancellingOf net.now) }
{
    let lines = net.lines();
    let mut walk = Walk::new(alloc, lines, net.ops().len())?;
    for op in net.ops() {
        walk.step(*op, lines)?;
    }
    let cells = walk.into_cells();
    let result = network(alloc, net, &cells)?;
    Ok(result)
}
