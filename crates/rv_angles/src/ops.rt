ghost use Rattle.std.specs.Prelude.{◌≡◌, ◌++◌, [], ◌∷◌, IfOk, OnOk};
ghost use Rattle.rv_angles.specs.Ops.{middle_ops, ops_on, phase_ops, phased_ops, turn_ops, zero_ops};

use crate::form::{Form, Middle, Phased, Turn};
use rv_net::Op;
use std::alloc::{AllocError, Global};

fn push_all(ops: &mut Vec<Op>, more: &[Op]) -> Result<(), AllocError>
    ensures { OnOk result (ops.new.items ≡ ops.old.items ++ more.now) }
{
    for op in more {
        ops.push(*op)?;
    }
    Ok(())
}

// A power of w where a qubit is 1.
fn push_phase(ops: &mut Vec<Op>, power: u8, q: u8) -> Result<(), AllocError>
    ensures { OnOk result (ops.new.items ≡ ops.old.items ++ phase_ops power q) }
{
    match power % 8 {
        0 => Ok(()),
        1 => push_all(ops, &[Op::T(q)]),
        2 => push_all(ops, &[Op::S(q)]),
        3 => push_all(ops, &[Op::S(q), Op::T(q)]),
        4 => push_all(ops, &[Op::Z(q)]),
        5 => push_all(ops, &[Op::Z(q), Op::T(q)]),
        6 => push_all(ops, &[Op::Sdg(q)]),
        _ => push_all(ops, &[Op::Tdg(q)]),
    }
}

// A power of w where a qubit is 0.
fn push_zero(ops: &mut Vec<Op>, power: u8, q: u8) -> Result<(), AllocError>
    ensures { OnOk result (ops.new.items ≡ ops.old.items ++ zero_ops power q) }
{
    if power % 8 == 0 {
        return Ok(());
    }
    ops.push(Op::X(q))?;
    push_phase(ops, power, q)?;
    ops.push(Op::X(q))?;
    Ok(())
}

fn push_middle(ops: &mut Vec<Op>, middle: Middle, q: u8) -> Result<(), AllocError>
    ensures { OnOk result (ops.new.items ≡ ops.old.items ++ middle_ops middle q) }
{
    match middle {
        Middle::Nothing => Ok(()),
        Middle::X => push_all(ops, &[Op::X(q)]),
        Middle::H => push_all(ops, &[Op::H(q)]),
    }
}

fn push_turn(ops: &mut Vec<Op>, turn: Turn, q: u8) -> Result<(), AllocError>
    ensures { OnOk result (ops.new.items ≡ ops.old.items ++ turn_ops turn q) }
{
    push_phase(ops, turn.one, q)?;
    push_zero(ops, turn.zero, q)?;
    push_middle(ops, turn.middle, q)?;
    push_phase(ops, turn.after, q)
}

fn push_phased(ops: &mut Vec<Op>, phased: Phased, a: u8, b: u8) -> Result<(), AllocError>
    ensures { OnOk result (ops.new.items ≡ ops.old.items ++ phased_ops phased a b) }
{
    push_phase(ops, phased.control, a)?;
    push_phase(ops, phased.target, b)?;
    ops.push(Op::Cx(a, b))?;
    push_phase(ops, 7 * (phased.target % 8), b)?;
    ops.push(Op::Cx(a, b))?;
    Ok(())
}

fn push_ch(ops: &mut Vec<Op>, a: u8, b: u8) -> Result<(), AllocError>
    ensures { OnOk result (ops.new.items ≡ ops.old.items ++ ops_on Form.Ch (a ∷ b ∷ [])) }
{
    let all = [
        Op::S(b),
        Op::H(b),
        Op::T(b),
        Op::Cx(a, b),
        Op::Tdg(b),
        Op::H(b),
        Op::Sdg(b),
    ];
    push_all(ops, &all)
}

fn push_on_one(ops: &mut Vec<Op>, form: Form, q: u8) -> Result<(), AllocError>
    ensures { OnOk result (ops.new.items ≡ ops.old.items ++ ops_on form (q ∷ [])) }
{
    match form {
        Form::Turned(turn) => push_turn(ops, turn, q),
        Form::Sx => push_all(ops, &[Op::H(q), Op::S(q), Op::H(q)]),
        Form::Sxdg => push_all(ops, &[Op::H(q), Op::Sdg(q), Op::H(q)]),
        _ => Ok(()),
    }
}

fn push_on_two(ops: &mut Vec<Op>, form: Form, a: u8, b: u8) -> Result<(), AllocError>
    ensures { OnOk result (ops.new.items ≡ ops.old.items ++ ops_on form (a ∷ b ∷ [])) }
{
    match form {
        Form::Phased(phased) => push_phased(ops, phased, a, b),
        Form::Cy => push_all(ops, &[Op::Sdg(b), Op::Cx(a, b), Op::S(b)]),
        Form::Ch => push_ch(ops, a, b),
        _ => Ok(()),
    }
}

fn push_on_three(ops: &mut Vec<Op>, form: Form, a: u8, b: u8, c: u8) -> Result<(), AllocError>
    ensures { OnOk result (ops.new.items ≡ ops.old.items ++ ops_on form (a ∷ b ∷ c ∷ [])) }
{
    match form {
        Form::Ccz => push_all(ops, &[Op::H(c), Op::Ccx(a, b, c), Op::H(c)]),
        _ => Ok(()),
    }
}

/// Adds the operations of a form on as many qubits as it has, controls first; none on any others.
pub fn push_ops(ops: &mut Vec<Op>, form: Form, qubits: &[u8]) -> Result<(), AllocError>
    ensures { OnOk result (ops.new.items ≡ ops.old.items ++ ops_on form qubits.now) }
{
    match qubits {
        [q] => push_on_one(ops, form, *q),
        [a, b] => push_on_two(ops, form, *a, *b),
        [a, b, c] => push_on_three(ops, form, *a, *b, *c),
        _ => Ok(()),
    }
}

/// The operations of a form on as many qubits as it has, controls first; none on any others.
pub fn ops_on(alloc: Global, form: Form, qubits: &[u8]) -> Result<Vec<Op>, AllocError>
    ensures { IfOk result (λ ops. ops.items ≡ ops_on form qubits.now) }
{
    let mut ops = Vec::new(alloc);
    push_ops(&mut ops, form, qubits)?;
    Ok(ops)
}
