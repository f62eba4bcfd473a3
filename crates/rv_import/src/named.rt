// Gates by their names.
ghost use Rattle.std.specs.Prelude.{◌≡◌, []};
ghost use Rattle.rv_import.specs.Named.{call_of, op_of, op_on_one, op_on_three, op_on_two, standard_call, standard_of};

use crate::call::{Call, Qubits};
use rv_angles::{Gate, Matrix, gate_of};
use rv_net::Op;

fn op_on_one(name: &[u8], a: u8) -> Option<Op>
    ensures { result ≡ op_on_one name.now a }
{
    match name {
        b"x" => Some(Op::X(a)),
        b"y" => Some(Op::Y(a)),
        b"z" => Some(Op::Z(a)),
        b"h" => Some(Op::H(a)),
        b"s" => Some(Op::S(a)),
        b"sdg" => Some(Op::Sdg(a)),
        b"t" => Some(Op::T(a)),
        b"tdg" => Some(Op::Tdg(a)),
        _ => None,
    }
}

fn op_on_two(name: &[u8], a: u8, b: u8) -> Option<Op>
    ensures { result ≡ op_on_two name.now a b }
{
    match name {
        b"cx" => Some(Op::Cx(a, b)),
        b"CX" => Some(Op::Cx(a, b)),
        b"cz" => Some(Op::Cz(a, b)),
        b"swap" => Some(Op::Swap(a, b)),
        _ => None,
    }
}

fn op_on_three(name: &[u8], a: u8, b: u8, c: u8) -> Option<Op>
    ensures { result ≡ op_on_three name.now a b c }
{
    match name {
        b"ccx" => Some(Op::Ccx(a, b, c)),
        b"cswap" => Some(Op::Cswap(a, b, c)),
        _ => None,
    }
}

// One that a network has.
fn op_of(name: &[u8], qubits: Qubits) -> Option<Op>
    ensures { result ≡ op_of name.now qubits }
{
    match qubits {
        Qubits::One(a) => op_on_one(name, a),
        Qubits::Two(a, b) => op_on_two(name, a, b),
        Qubits::Three(a, b, c) => op_on_three(name, a, b, c),
    }
}

fn standard_of(name: &[u8], angles: &[u8]) -> Option<Gate>
    ensures { result ≡ standard_of name.now angles.now }
{
    if angles.is_empty() && name == b"id".as_slice() {
        return Some(Gate::One(Matrix::u(0, 0, 0)));
    }
    gate_of(name, angles)
}

// One by a matrix.
fn standard_call(name: &[u8], angles: &[u8], qubits: Qubits) -> Option<Call>
    ensures { result ≡ standard_call name.now angles.now qubits }
{
    match standard_of(name, angles) {
        Some(gate) => Some(Call::Standard(gate, qubits)),
        None => None,
    }
}

fn call_without_angle(name: &[u8], qubits: Qubits) -> Option<Call>
    ensures { result ≡ call_of name.now [] qubits }
{
    match op_of(name, qubits) {
        Some(op) => Some(Call::Plain(op)),
        None => standard_call(name, &[], qubits),
    }
}

/// The gate of a name with angles in multiples of pi/4, on qubits, controls first.
pub fn call_of(name: &[u8], angles: &[u8], qubits: Qubits) -> Option<Call>
    ensures { result ≡ call_of name.now angles.now qubits }
{
    match angles {
        [] => call_without_angle(name, qubits),
        _ => standard_call(name, angles, qubits),
    }
}
