ghost use Rattle.std.specs.Prelude.{◌≡◌, ◌≤◌, ◌∷◌, [], IfSome, codes};
ghost use Rattle.rv_qasm.specs.Gates.{gate_size, is_on_one, is_on_three, is_on_two, begins_unsupported, is_one_of};
ghost use Rattle.rv_qasm.specs.Gates.{is_unsupported_gate, op_on};

use rv_net::Op;

// How many operands a gate has.
pub(crate) fn gate_size(name: &[u8]) -> Option<usize>
    ensures exact { result ≡ gate_size name.now }
    ensures few { IfSome result (λ size. (1 ≤ size) × (size ≤ 3)) }
{
    if is_on_one(name) {
        Some(1)
    } else if is_on_two(name) {
        Some(2)
    } else if is_on_three(name) {
        Some(3)
    } else {
        None
    }
}

pub(crate) fn is_on_one(name: &[u8]) -> bool
    ensures { result ≡ is_on_one name.now }
{
    matches!(
        name,
        b"x" | b"y" | b"z" | b"h" | b"s" | b"sdg" | b"t" | b"tdg"
    )
}

pub(crate) fn is_on_two(name: &[u8]) -> bool
    ensures { result ≡ is_on_two name.now }
{
    matches!(name, b"cx" | b"CX" | b"cz" | b"swap")
}

pub(crate) fn is_on_three(name: &[u8]) -> bool
    ensures { result ≡ is_on_three name.now }
{
    name == b"ccx".as_slice() || name == b"cswap".as_slice()
}

// A gate on one qubit, by its name.
pub(crate) fn op_on_one(name: &[u8], a: u8) -> Op
    ensures { op_on name.now (a ∷ []) ≡ result ∷ [] }
{
    match name {
        b"x" => Op::X(a),
        b"y" => Op::Y(a),
        b"z" => Op::Z(a),
        b"h" => Op::H(a),
        b"s" => Op::S(a),
        b"sdg" => Op::Sdg(a),
        b"t" => Op::T(a),
        _ => Op::Tdg(a),
    }
}

// A gate on two qubits.
pub(crate) fn op_on_two(name: &[u8], a: u8, b: u8) -> Op
    ensures { op_on name.now (a ∷ b ∷ []) ≡ result ∷ [] }
{
    match name {
        b"cz" => Op::Cz(a, b),
        b"swap" => Op::Swap(a, b),
        _ => Op::Cx(a, b),
    }
}

// A gate on three qubits.
pub(crate) fn op_on_three(name: &[u8], a: u8, b: u8, c: u8) -> Op
    ensures { op_on name.now (a ∷ b ∷ c ∷ []) ≡ result ∷ [] }
{
    match name {
        b"ccx" => Op::Ccx(a, b, c),
        _ => Op::Cswap(a, b, c),
    }
}

fn is_unsupported_gate(name: &[u8]) -> bool
    ensures { result ≡ is_unsupported_gate name.now }
{
    name == b"U".as_slice()
        || name == b"u1".as_slice()
        || name == b"u2".as_slice()
        || name == b"u3".as_slice()
        || name == b"rx".as_slice()
        || name == b"ry".as_slice()
        || name == b"rz".as_slice()
        || is_unsupported_with_control(name)
}

fn is_unsupported_with_control(name: &[u8]) -> bool
    ensures { result ≡ is_one_of (codes "crz" ∷ codes "cu1" ∷ codes "cu3" ∷ codes "ch" ∷ codes "cy" ∷ []) name.now }
{
    name == b"crz".as_slice()
        || name == b"cu1".as_slice()
        || name == b"cu3".as_slice()
        || name == b"ch".as_slice()
        || name == b"cy".as_slice()
}

// Statements and gates that are not supported.
pub(crate) fn begins_unsupported(name: &[u8]) -> bool
    ensures { result ≡ begins_unsupported name.now }
{
    name == b"gate".as_slice()
        || name == b"opaque".as_slice()
        || name == b"if".as_slice()
        || name == b"reset".as_slice()
        || is_unsupported_gate(name)
}
