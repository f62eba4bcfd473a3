ghost use Rattle.std.specs.Prelude.{◌≡◌, ◌<◌, ◌≤◌, ℕ, List, length};
ghost use Rattle.rv_gate.specs.Gate.{FitsIn};
ghost use Rattle.rv_gate.specs.declared.word.TheConstants.{MOST_LINES};
ghost use Rattle.rv_route.specs.Placement.{home};
ghost use Rattle.rv_route.specs.Moves.{gathering, swapped, touched_positions, way_home};
ghost use Rattle.rv_route.specs.inside.Standing.{AreMoves, IsTable, Stands, swaps_by};

use crate::moves::{Move, Moves, gathering};
use crate::places::{shift, touched_positions};
use rv_gate::Gate;

// The lines move.
fn follow(places: &mut [u8], moves: &[Move])
    requires table { IsTable places.old }
    requires few { length places.old ≤ MOST_LINES }
    requires within { AreMoves (length places.old) moves.now }
    ensures { (row : List ℕ) → Stands row places.old → Stands (swapped (swaps_by moves.now) row) places.new }
{
    for a in moves {
        shift(places, a.from, a.to);
    }
}

/// The lines that a gate touches gather around the middle one of them: says by which moves.
pub(crate) fn gather(places: &mut [u8], gate: Gate) -> Moves
    requires table { IsTable places.old }
    requires few { length places.old ≤ MOST_LINES }
    requires fits { FitsIn gate (length places.old) }
    ensures moves { (row : List ℕ) → Stands row places.old
        → swaps_by result.items ≡ gathering (touched_positions row gate) }
    ensures stands { (row : List ℕ) → Stands row places.old → Stands (swapped (swaps_by result.items) row) places.new }
    ensures within { AreMoves MOST_LINES result.items }
    ensures few_swaps { length (swaps_by result.items) ≤ 2016 }
{
    let positions = touched_positions(places, gate);
    let moves = gathering(&positions);
    follow(places, &moves);
    moves
}

/// Each line moves to the position of its number: says by which moves.
pub(crate) fn go_home(places: &mut [u8]) -> Moves
    requires table { IsTable places.old }
    requires few { length places.old ≤ MOST_LINES }
    ensures moves { (row : List ℕ) → Stands row places.old
        → swaps_by result.items ≡ way_home (home (length places.old)) row }
    ensures within { AreMoves MOST_LINES result.items }
{
    let mut moves = Moves::new();
    for line in 0..places.len() {
        let from = places[line];
        let to = line as u8;
        moves.push(Move { from, to });
        shift(places, from, to);
    }
    moves
}
