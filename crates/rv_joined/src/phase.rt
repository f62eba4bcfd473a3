// The operations of a power of w where a parity is 1.
ghost use Rattle.std.specs.Prelude.{◌≡◌, ◌≤◌, ◌++◌, IfOk};
ghost use Rattle.rv_joined.specs.Blocks.{digits, is_summed, maybe, phase_ops, phase_power};

use rv_net::Op;
use std::alloc::AllocError;

/// A power of w where the sum of a line and another one is 1, or 0 if turned. Where both are one line, its own bit.
#[derive(Clone, Copy)]
pub(crate) struct Phase {
    pub(crate) line: u8,
    pub(crate) other: u8,
    pub(crate) turned: bool,
    pub(crate) four: bool,
    pub(crate) two: bool,
    pub(crate) one: bool,
}

/// Whether two lines are added.
pub(crate) fn is_summed(phase: Phase) -> bool
    ensures { result ≡ is_summed phase }
{
    phase.line != phase.other
}

/// The power.
pub(crate) fn power_of(phase: Phase) -> u8
    ensures value { result ≡ phase_power phase }
    ensures few { result ≤ 7 }
{
    u8::from(phase.four) * 4 + (u8::from(phase.two) * 2 + u8::from(phase.one))
}

fn add_if(ops: &mut Vec<Op>, on: bool, op: Op) -> Result<(), AllocError>
    ensures { IfOk result (λ _. ops.new.items ≡ ops.old.items ++ maybe on op) }
{
    if on {
        ops.push(op)?;
    }
    Ok(())
}

fn add_digits(ops: &mut Vec<Op>, phase: Phase) -> Result<(), AllocError>
    ensures { IfOk result (λ _.
        ops.new.items ≡ ops.old.items ++ digits phase.four phase.two phase.one phase.line) }
{
    add_if(ops, phase.four, Op::Z(phase.line))?;
    add_if(ops, phase.two, Op::S(phase.line))?;
    add_if(ops, phase.one, Op::T(phase.line))?;
    Ok(())
}

/// Adds its operations.
pub(crate) fn add_phase(ops: &mut Vec<Op>, phase: Phase) -> Result<(), AllocError>
    ensures { IfOk result (λ _. ops.new.items ≡ ops.old.items ++ phase_ops phase) }
{
    let summed = is_summed(phase);
    add_if(ops, summed, Op::Cx(phase.other, phase.line))?;
    add_if(ops, phase.turned, Op::X(phase.line))?;
    add_digits(ops, phase)?;
    add_if(ops, phase.turned, Op::X(phase.line))?;
    add_if(ops, summed, Op::Cx(phase.other, phase.line))?;
    Ok(())
}
