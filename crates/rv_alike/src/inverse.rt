ghost use Rattle.std.specs.Prelude.{◌≡◌, ◌++◌, IfOk};
ghost use Rattle.rv_pairs.specs.Cancelled.{inverse};
ghost use Rattle.rv_alike.specs.inside.Inverted.{inverted};

use rv_net::Op;
use std::alloc::AllocError;

fn inverse(op: Op) -> Op
    ensures { result ≡ inverse op }
{
    match op {
        Op::S(q) => Op::Sdg(q),
        Op::Sdg(q) => Op::S(q),
        Op::T(q) => Op::Tdg(q),
        Op::Tdg(q) => Op::T(q),
        _ => op,
    }
}

/// Adds the operations that take back what these do.
pub(crate) fn add_inverted(ops: &mut Vec<Op>, others: &[Op]) -> Result<(), AllocError>
    ensures { IfOk result (λ _. ops.new.items ≡ ops.old.items ++ inverted others.now) }
{
    for done in 0..others.len() {
        let last = others[others.len() - 1 - done];
        ops.push(inverse(last))?;
    }
    Ok(())
}
