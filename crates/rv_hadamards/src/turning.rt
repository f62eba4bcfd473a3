// What operations are behind an H that stands before them.
ghost use Rattle.std.specs.Prelude.{◌≡◌};
ghost use Rattle.rv_hadamards.specs.Turned.{exchanged, is_on, turned};

use rv_net::Op;

// Whether an operation has to do with a line.
fn is_on(line: u8, op: Op) -> bool
    ensures { result ≡ is_on line op }
{
    match op {
        Op::X(q) | Op::Y(q) | Op::Z(q) | Op::H(q) | Op::S(q) | Op::Sdg(q) | Op::T(q) | Op::Tdg(q) =>
            line == q,
        Op::Cx(a, b) | Op::Cz(a, b) | Op::Swap(a, b) => line == a || line == b,
        Op::Ccx(a, b, c) => line == a || line == b || line == c,
        Op::Cswap(c, a, b) => line == a || line == b || line == c,
    }
}

fn exchanged(line: u8, op: Op) -> Option<Op>
    ensures { result ≡ exchanged line op }
{
    match op {
        Op::X(q) if line == q => Some(Op::Z(q)),
        Op::Z(q) if line == q => Some(Op::X(q)),
        Op::Cx(a, b) if line == b => Some(Op::Cz(a, b)),
        Op::Cz(a, b) if line == b => Some(Op::Cx(a, b)),
        Op::Cz(a, b) if line == a => Some(Op::Cx(b, a)),
        _ => None,
    }
}

/// The operation that does behind an `H` on a line what this one does after it, if there is one.
pub(crate) fn turned(line: u8, op: Op) -> Option<Op>
    ensures { result ≡ turned line op }
{
    if is_on(line, op) {
        exchanged(line, op)
    } else {
        Some(op)
    }
}
