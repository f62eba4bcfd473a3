// The operations of a Toffoli gate up to a power of w.
ghost use Rattle.std.specs.Prelude.{◌≡◌, ◌++◌, IfOk};
ghost use Rattle.rv_joined.specs.Blocks.{block_ops, core};

use rv_mct::Control;
use rv_net::{Op, add_on_zero};
use std::alloc::AllocError;

/// A Toffoli gate with four T, up to a power of w.
#[derive(Clone, Copy, PartialEq, Eq)]
pub(crate) enum Block {
    /// Times w^-2 where both controls hold.
    Plus,
    /// Times w^2 where both controls hold.
    Minus,
    /// With a CNOT less: also times w^4 where the first control holds and the target is 1, before it.
    Before,
    /// The same, told by the target after it.
    After,
}

#[tactic(auto, unfolding(crate::specs::Blocks::core))]
fn add_core(ops: &mut Vec<Op>, block: Block, a: u8, c: u8, t: u8) -> Result<(), AllocError>
    ensures { IfOk result (λ _. ops.new.items ≡ ops.old.items ++ core block a c t) }
{
    match block {
        Block::Plus => ops.extend_from_slice(&[
            Op::H(t),
            Op::T(t),
            Op::Cx(c, t),
            Op::Tdg(t),
            Op::Cx(a, t),
            Op::T(t),
            Op::Cx(c, t),
            Op::Tdg(t),
            Op::Cx(a, t),
            Op::H(t),
        ])?,
        Block::Minus => ops.extend_from_slice(&[
            Op::H(t),
            Op::Tdg(t),
            Op::Cx(c, t),
            Op::T(t),
            Op::Cx(a, t),
            Op::Tdg(t),
            Op::Cx(c, t),
            Op::T(t),
            Op::Cx(a, t),
            Op::H(t),
        ])?,
        Block::Before | Block::After => ops.extend_from_slice(&[
            Op::H(t),
            Op::T(t),
            Op::Cx(c, t),
            Op::Tdg(t),
            Op::Cx(a, t),
            Op::T(t),
            Op::Cx(c, t),
            Op::Tdg(t),
            Op::H(t),
        ])?,
    }
    Ok(())
}

/// Adds a block.
pub(crate) fn add_block(
    ops: &mut Vec<Op>,
    block: Block,
    a: Control,
    c: Control,
    t: u8,
) -> Result<(), AllocError>
    ensures { IfOk result (λ _. ops.new.items ≡ ops.old.items ++ block_ops block a c t) }
{
    add_on_zero(ops, a)?;
    add_on_zero(ops, c)?;
    add_core(ops, block, a.line, c.line, t)?;
    add_on_zero(ops, a)?;
    add_on_zero(ops, c)?;
    Ok(())
}
