ghost use Rattle.std.specs.Prelude.{◌≡◌, ◌*◌, ◌<◌, ◌≤◌, ◌++◌, ℕ, length, map, OnOk};
ghost use Rattle.rv_gate.specs.declared.word.TheConstants.{MOST_LINES};
ghost use Rattle.rv_route.specs.Moves.{gathering, neighbours};
ghost use Rattle.rv_route.specs.inside.Standing.{AreAscending, AreMoves, IsSwap, swaps_by, swaps_of};

use arrayvec::ArrayVec;
use rv_gate::{Gate, MOST_LINES};
use std::alloc::AllocError;

/// The line at a position moves to another, by swaps of neighbours.
#[derive(Clone, Copy, Default)]
pub(crate) struct Move {
    pub(crate) from: u8,
    pub(crate) to: u8,
}

/// Each line moves once at the most.
pub(crate) type Moves = ArrayVec<Move, 64>;

/// The moves by which the lines at ascending positions gather around the middle one.
pub(crate) fn gathering(positions: &[u8]) -> Moves
    requires some { 0 < length positions.now }
    requires ascending { AreAscending 0 MOST_LINES positions.now }
    requires few { length positions.now ≤ MOST_LINES }
    ensures moves { swaps_by result.items ≡ gathering positions.now }
    ensures within { (n : ℕ) → AreAscending 0 n positions.now → AreMoves n result.items }
    ensures few_swaps { length (swaps_by result.items) ≤ 2016 }
{
    let middle = (positions.len() - 1) / 2;
    let centre = positions[middle];
    let mut moves = Moves::new();
    for j in (0..middle).rev() {
        let to = centre - (middle - j) as u8;
        moves.push(Move {
            from: positions[j],
            to,
        });
    }
    for j in middle + 1..positions.len() {
        let to = centre + (j - middle) as u8;
        moves.push(Move {
            from: positions[j],
            to,
        });
    }
    moves
}

/// How many swaps of neighbours the moves are.
pub(crate) fn swap_count(moves: &[Move]) -> u32
    requires few { length moves.now ≤ 64 }
    requires within { AreMoves MOST_LINES moves.now }
    ensures value { result ≡ length (swaps_by moves.now) }
    ensures few { result ≤ 64 * length moves.now }
{
    let mut count = 0;
    for a in moves {
        count += u32::from(a.from.abs_diff(a.to));
    }
    count
}

// The gate that swaps the lines at a position and at the next.
fn neighbours(p: u8) -> Gate
    requires { IsSwap MOST_LINES p }
    ensures { result ≡ neighbours p }
{
    match Gate::swap(0, 0, p, p + 1) {
        Some(gate) => gate,
        None => unreachable!(),
    }
}

// Adds the gates of one move.
fn push_move(gates: &mut Vec<Gate>, from: u8, to: u8) -> Result<(), AllocError>
    requires from_in { from < MOST_LINES }
    requires to_in { to < MOST_LINES }
    ensures { OnOk result (gates.new.items ≡ gates.old.items ++ map neighbours (swaps_of from to)) }
{
    for p in from..to {
        gates.push(neighbours(p))?;
    }
    for p in (to..from).rev() {
        gates.push(neighbours(p))?;
    }
    Ok(())
}

/// Adds the gates that swap neighbours.
pub(crate) fn push_moves(gates: &mut Vec<Gate>, moves: &[Move]) -> Result<(), AllocError>
    requires { AreMoves MOST_LINES moves.now }
    ensures { OnOk result (gates.new.items ≡ gates.old.items ++ map neighbours (swaps_by moves.now)) }
{
    for a in moves {
        push_move(gates, a.from, a.to)?;
    }
    Ok(())
}
