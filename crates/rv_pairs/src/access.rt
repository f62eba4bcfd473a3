// Which lines an operation reads and writes, and what undoes it.
ghost use Rattle.std.specs.Prelude.{◌≡◌, ◌<◌};
ghost use Rattle.rv_gate.specs.declared.word.TheConstants.{MOST_LINES};
ghost use Rattle.rv_net.specs.Op.{OpFitsIn};
ghost use Rattle.rv_pairs.specs.Cancelled.{inverse};
ghost use Rattle.rv_pairs.specs.Commuting.{reads, writes};
ghost use Rattle.rv_pairs.specs.inside.Codes.{code, number, parts_of};

use rv_gate::LineSet;
use rv_net::Op;

/// The lines whose bits decide what the operation does.
pub(crate) fn reads(op: Op) -> LineSet
    requires { OpFitsIn op MOST_LINES }
    ensures { result ≡ reads op }
{
    match op {
        Op::X(_) => 0,
        Op::Y(q) => 1 << q,
        Op::Z(q) => 1 << q,
        Op::H(q) => 1 << q,
        Op::S(q) => 1 << q,
        Op::Sdg(q) => 1 << q,
        Op::T(q) => 1 << q,
        Op::Tdg(q) => 1 << q,
        Op::Cx(a, _) => 1 << a,
        Op::Cz(a, b) => 1 << a | 1 << b,
        Op::Ccx(a, b, _) => 1 << a | 1 << b,
        Op::Swap(a, b) => 1 << a | 1 << b,
        Op::Cswap(c, a, b) => 1 << a | 1 << b | 1 << c,
    }
}

/// The lines whose bits it may change.
pub(crate) fn writes(op: Op) -> LineSet
    requires { OpFitsIn op MOST_LINES }
    ensures { result ≡ writes op }
{
    match op {
        Op::X(q) => 1 << q,
        Op::Y(q) => 1 << q,
        Op::H(q) => 1 << q,
        Op::Cx(_, b) => 1 << b,
        Op::Ccx(_, _, c) => 1 << c,
        Op::Swap(a, b) => 1 << a | 1 << b,
        Op::Cswap(_, a, b) => 1 << a | 1 << b,
        Op::Z(_) => 0,
        Op::S(_) => 0,
        Op::Sdg(_) => 0,
        Op::T(_) => 0,
        Op::Tdg(_) => 0,
        Op::Cz(_, _) => 0,
    }
}

pub(crate) fn inverse(op: Op) -> Op
    ensures { result ≡ inverse op }
{
    match op {
        Op::S(q) => Op::Sdg(q),
        Op::Sdg(q) => Op::S(q),
        Op::T(q) => Op::Tdg(q),
        Op::Tdg(q) => Op::T(q),
        Op::X(q) => Op::X(q),
        Op::Y(q) => Op::Y(q),
        Op::Z(q) => Op::Z(q),
        Op::H(q) => Op::H(q),
        Op::Cx(a, b) => Op::Cx(a, b),
        Op::Cz(a, b) => Op::Cz(a, b),
        Op::Ccx(a, b, c) => Op::Ccx(a, b, c),
        Op::Swap(a, b) => Op::Swap(a, b),
        Op::Cswap(c, a, b) => Op::Cswap(c, a, b),
    }
}

// A number for a kind and up to three lines, the third one of the last two kinds alone. So those of one and two lines
// stand close together.
fn number(kind: usize, a: u8, b: u8, c: u8) -> usize
    requires { kind < 14 }
    ensures { result ≡ number (parts_of kind a b c) }
{
    ((kind + 2 * usize::from(c)) * 64 + usize::from(a)) * 64 + usize::from(b)
}

/// The number of an operation.
#[tactic(auto, unfolding(crate::specs::inside::Codes::code))]
pub(crate) fn code(op: Op) -> usize
    ensures { result ≡ code op }
{
    match op {
        Op::X(q) => number(0, q, 0, 0),
        Op::Y(q) => number(1, q, 0, 0),
        Op::Z(q) => number(2, q, 0, 0),
        Op::H(q) => number(3, q, 0, 0),
        Op::S(q) => number(4, q, 0, 0),
        Op::Sdg(q) => number(5, q, 0, 0),
        Op::T(q) => number(6, q, 0, 0),
        Op::Tdg(q) => number(7, q, 0, 0),
        Op::Cx(a, b) => number(8, a, b, 0),
        Op::Cz(a, b) => number(9, a.min(b), a.max(b), 0),
        Op::Swap(a, b) => number(10, a.min(b), a.max(b), 0),
        Op::Ccx(a, b, c) => number(12, a.min(b), a.max(b), c),
        Op::Cswap(c, a, b) => number(13, a.min(b), a.max(b), c),
    }
}
