// The operations of one flip.
ghost use Rattle.std.specs.Prelude.{◌≡◌, ◌+◌, ◌≤◌, ◌∷◌, ◌++◌, ◌==◌, [], length, IfOk};
ghost use Rattle.rv_mct.specs.Blocks.{controls_of};
ghost use Rattle.rv_net.specs.Network.{on_zero};
ghost use Rattle.rv_near.specs.Near.{is_row, near_block, near_flip, row_block};

use rv_gate::LineSet;
use rv_mct::{Control, first_control};
use rv_net::{Op, add_flip, add_on_zero, add_toffoli};
use std::alloc::AllocError;

// Whether a line is the next after another.
fn is_next(line: u8, next: u8) -> bool
    ensures { result ≡ (line + 1 == next) }
{
    u16::from(line) + 1 == u16::from(next)
}

// Whether the second line stands between the others, next to both.
fn is_row(a: u8, b: u8, c: u8) -> bool
    ensures { result ≡ is_row a b c }
{
    (is_next(a, b) && is_next(b, c)) || (is_next(c, b) && is_next(b, a))
}

#[tactic(auto, unfolding(crate::specs::Near::row_block))]
fn row_block(p: u8, q: u8, r: u8, t: u8) -> [Op; 17]
    ensures { result ≡ row_block p q r t }
{
    [
        Op::H(t),
        Op::T(p),
        Op::T(q),
        Op::T(r),
        Op::Cx(p, q),
        Op::Tdg(q),
        Op::Cx(q, r),
        Op::T(r),
        Op::Cx(p, q),
        Op::Cx(q, r),
        Op::Tdg(r),
        Op::Cx(p, q),
        Op::Cx(q, r),
        Op::Tdg(r),
        Op::Cx(p, q),
        Op::Cx(q, r),
        Op::H(t),
    ]
}

// A flip of `c` under `a` and `b`.
fn add_block(ops: &mut Vec<Op>, a: u8, b: u8, c: u8) -> Result<(), AllocError>
    ensures { IfOk result (λ _. ops.new.items ≡ ops.old.items ++ near_block a b c) }
{
    if is_row(a, b, c) {
        ops.extend_from_slice(&row_block(a, b, c, c))?;
    } else if is_row(a, c, b) {
        ops.extend_from_slice(&row_block(a, c, b, c))?;
    } else if is_row(b, a, c) {
        ops.extend_from_slice(&row_block(b, a, c, c))?;
    } else {
        add_toffoli(ops, a, b, c)?;
    }
    Ok(())
}

#[tactic(auto, unfolding(crate::specs::Near::row_block, rv_net::specs::Network::toffoli))]
fn block_count(a: u8, b: u8, c: u8) -> u32
    ensures value { result ≡ length (near_block a b c) }
    ensures few { result ≤ 17 }
{
    if is_row(a, b, c) || is_row(a, c, b) || is_row(b, a, c) {
        17
    } else {
        15
    }
}

fn zero_count(control: Control) -> u32
    ensures value { result ≡ length (on_zero control) }
    ensures few { result ≤ 1 }
{
    if control.wanted { 0 } else { 1 }
}

/// How many operations a flip has.
pub(crate) fn flip_count(care: LineSet, want: LineSet, target: u8) -> u32
    ensures value { result ≡ length (near_flip (controls_of care want) target) }
    ensures few { result ≤ 21 }
{
    let Some((a, others)) = first_control(care, want) else {
        return 1;
    };
    let Some((b, more)) = first_control(others, want) else {
        return 1 + 2 * zero_count(a);
    };
    match first_control(more, want) {
        None => block_count(a.line, b.line, target) + 2 * (zero_count(a) + zero_count(b)),
        Some(_) => 0,
    }
}

#[tactic(auto, unfolding(crate::specs::Near::near_flip))]
fn add_two_controls(ops: &mut Vec<Op>, a: Control, b: Control, target: u8) -> Result<(), AllocError>
    ensures { IfOk result (λ _. ops.new.items ≡ ops.old.items ++ near_flip (a ∷ b ∷ []) target) }
{
    add_on_zero(ops, a)?;
    add_on_zero(ops, b)?;
    add_block(ops, a.line, b.line, target)?;
    add_on_zero(ops, a)?;
    add_on_zero(ops, b)?;
    Ok(())
}

/// Adds the operations of a flip.
#[tactic(auto, unfolding(crate::specs::Near::near_flip))]
pub(crate) fn add_near_flip(
    ops: &mut Vec<Op>,
    care: LineSet,
    want: LineSet,
    target: u8,
) -> Result<(), AllocError>
    ensures { IfOk result (λ _. ops.new.items ≡ ops.old.items ++ near_flip (controls_of care want) target) }
{
    let Some((a, others)) = first_control(care, want) else {
        return add_flip(ops, care, want, target);
    };
    let Some((b, more)) = first_control(others, want) else {
        return add_flip(ops, care, want, target);
    };
    match first_control(more, want) {
        None => add_two_controls(ops, a, b, target),
        Some(_) => add_flip(ops, care, want, target),
    }
}
