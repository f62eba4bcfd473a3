ghost use Rattle.std.specs.Prelude.{◌≡◌, ◌≤◌, All, length, count_by, if◌then◌else◌};
ghost use Rattle.rv_net.specs.Amplitude.{count_h};
ghost use Rattle.rv_net.specs.Op.{OpFitsIn, is_t};
ghost use Rattle.rv_net.specs.declared.net.TheConstants.{MOST_OPS};
ghost use Rattle.rv_gate.specs.declared.word.TheConstants.{MOST_LINES};
ghost use Rattle.rv_cost.specs.inside.Counting.{is_h};
ghost use Rattle.rv_cost.specs.NetCost.{is_cnot, op_lines, op_depth, op_t_depth, net_cost};

use crate::levels::Levels;
use rv_gate::{LineSet, MOST_LINES};
use rv_net::{MOST_OPS, Net, Op};

/// What a network costs: counts, and how many operations wait for one another.
#[derive(Clone, Copy)]
pub struct NetCost {
    /// How many lines there are, 1 to [`MOST_LINES`].
    pub lines: u8,
    /// How many operations there are, at most [`MOST_OPS`].
    pub operations: u32,
    /// The T-count: how many of them are `T` or its inverse.
    pub t: u32,
    /// How many of them are `H`.
    pub h: u32,
    /// How many of them are `Cx`.
    pub cnot: u32,
    /// The greatest level of an operation, 0 without operations. An operation's level is one more than the greatest
    /// level of an earlier one that shares a line with it.
    pub depth: u32,
    /// The greatest T-level of an operation, 0 without operations. An operation's T-level is the greatest T-level of an
    /// earlier one that shares a line with it, and one more than that for a `T` or its inverse.
    pub t_depth: u32,
}

fn is_t(op: Op) -> bool
    ensures { result ≡ is_t op }
{
    matches!(op, Op::T(_) | Op::Tdg(_))
}

fn is_cnot(op: Op) -> bool
    ensures { result ≡ is_cnot op }
{
    matches!(op, Op::Cx(..))
}

fn is_h(op: Op) -> bool
    ensures { result ≡ is_h op }
{
    matches!(op, Op::H(_))
}

// The lines on which an operation acts.
fn op_lines(op: Op) -> LineSet
    requires { OpFitsIn op MOST_LINES }
    ensures { result ≡ op_lines op }
{
    match op {
        Op::X(q) | Op::Y(q) | Op::Z(q) | Op::H(q) | Op::S(q) | Op::Sdg(q) | Op::T(q) | Op::Tdg(q) =>
            1 << q,
        Op::Cx(a, b) | Op::Cz(a, b) | Op::Swap(a, b) => 1 << a | 1 << b,
        Op::Ccx(a, b, c) | Op::Cswap(a, b, c) => 1 << a | 1 << b | 1 << c,
    }
}

// By how much an operation is above the T-levels that it finds.
fn t_steps(op: Op) -> u32
    ensures value { result ≡ (if is_t op then 1 else 0) }
    ensures few { result ≤ 1 }
{
    if is_t(op) { 1 } else { 0 }
}

fn t_count(ops: &[Op]) -> u32
    requires { length ops.now ≤ MOST_OPS }
    ensures { result ≡ count_by is_t ops.now }
{
    ops.iter().filter(|op| is_t(**op)).count() as u32
}

fn h_count(ops: &[Op]) -> u32
    requires { length ops.now ≤ MOST_OPS }
    ensures { result ≡ count_h ops.now }
{
    ops.iter().filter(|op| is_h(**op)).count() as u32
}

fn cnot_count(ops: &[Op]) -> u32
    requires { length ops.now ≤ MOST_OPS }
    ensures { result ≡ count_by is_cnot ops.now }
{
    ops.iter().filter(|op| is_cnot(**op)).count() as u32
}

fn op_depth(ops: &[Op]) -> u32
    requires few { length ops.now ≤ MOST_OPS }
    requires fitting { All (λ op. OpFitsIn op MOST_LINES) ops.now }
    ensures { result ≡ op_depth ops.now }
{
    let mut levels = Levels::new();
    for op in ops {
        levels.add(op_lines(*op), 1);
    }
    levels.depth()
}

fn op_t_depth(ops: &[Op]) -> u32
    requires few { length ops.now ≤ MOST_OPS }
    requires fitting { All (λ op. OpFitsIn op MOST_LINES) ops.now }
    ensures { result ≡ op_t_depth ops.now }
{
    let mut levels = Levels::new();
    for op in ops {
        levels.add(op_lines(*op), t_steps(*op));
    }
    levels.depth()
}

/// What a network costs. Takes no memory, and time linear in the operations.
pub fn net_cost(net: &Net) -> NetCost
    ensures { result ≡ net_cost net.now }
{
    let lines = net.lines();
    let ops = net.ops();
    NetCost {
        lines,
        operations: ops.len() as u32,
        t: t_count(ops),
        h: h_count(ops),
        cnot: cnot_count(ops),
        depth: op_depth(ops),
        t_depth: op_t_depth(ops),
    }
}
