ghost use Rattle.std.specs.Prelude.{◌≡◌, ◌+◌, ◌<◌, ◌≤◌, ◌++◌, ◌∷◌, [], length, IfOk, OnOk};
ghost use Rattle.rv_net.specs.Op.{OpFitsIn};
ghost use Rattle.rv_net.specs.declared.net.TheConstants.{MOST_OPS};
ghost use Rattle.rv_fold.specs.Folded.{phase_ops, IsEquivalence, IsFoldingOf, RestartsLeast};
ghost use Rattle.rv_fold.specs.inside.Standing.{sent};

use crate::phase::phase_gate;
use crate::walk::Walk;
use rv_net::{Net, Op, OpFault};
use std::alloc::{AllocError, Global};

fn push(net: &mut Net, op: Op) -> Result<(), AllocError>
    requires fits { OpFitsIn op net.old.lines }
    requires room { length net.old.ops < MOST_OPS }
    ensures { OnOk result (net.new ≡ record net.old { ops = net.old.ops ++ op ∷ [] }) }
{
    match net.push(op) {
        Ok(()) => Ok(()),
        Err(OpFault::Mem) => Err(AllocError),
        Err(OpFault::TooManyOps) => unreachable!(),
    }
}

fn push_phase(net: &mut Net, line: u8, exponent: u8) -> Result<(), AllocError>
    requires fits { line < net.old.lines }
    requires room { length net.old.ops + length (phase_ops line exponent) ≤ MOST_OPS }
    ensures { OnOk result (net.new ≡ record net.old { ops = net.old.ops ++ phase_ops line exponent }) }
{
    match exponent {
        1 => push(net, Op::T(line))?,
        2 => push(net, Op::S(line))?,
        3 => {
            push(net, Op::S(line))?;
            push(net, Op::T(line))?
        }
        4 => push(net, Op::Z(line))?,
        5 => {
            push(net, Op::Z(line))?;
            push(net, Op::T(line))?
        }
        6 => push(net, Op::Sdg(line))?,
        7 => push(net, Op::Tdg(line))?,
        _ => {}
    }
    Ok(())
}

// Adds what stands in the place of an operation: itself, or the phase gates of an exponent.
fn push_part(net: &mut Net, op: Op, exponent: u8) -> Result<(), AllocError>
    requires fits { OpFitsIn op net.old.lines }
    requires room { length net.old.ops + length (sent op exponent) ≤ MOST_OPS }
    ensures { OnOk result (net.new ≡ record net.old { ops = net.old.ops ++ sent op exponent }) }
{
    match phase_gate(op) {
        Some(phase) => push_phase(net, phase.line, exponent)?,
        None => push(net, op)?,
    }
    Ok(())
}

/// Joins phase gates that stand on one parity, each class at its first one, and keeps all amplitudes.
///
/// The only refusal is want of memory.
pub fn fold(alloc: Global, net: &Net) -> Result<Net, AllocError>
    ensures restarts { OnOk result (RestartsLeast net.now.lines net.now.ops) }
    ensures classes { OnOk result (IsEquivalence net.now.lines net.now.ops) }
    ensures folded { IfOk result (IsFoldingOf net.now) }
{
    let sums = Walk::sums_of(alloc, net)?;
    let mut folded = Net::new(alloc, net.lines());
    for (place, op) in net.ops().iter().enumerate() {
        push_part(&mut folded, *op, sums[place])?;
    }
    Ok(folded)
}
