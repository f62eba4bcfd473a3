ghost use Rattle.std.specs.Prelude.{◌≡◌, ◌<◌, ◌≤◌, ℕ, List, Some, length, slice_index};
ghost use Rattle.std.specs.List.{filter, range_with_len};
ghost use Rattle.rv_gate.specs.Word.{has};
ghost use Rattle.rv_gate.specs.Gate.{FitsIn, Within};
ghost use Rattle.rv_gate.specs.declared.word.TheConstants.{MOST_LINES};
ghost use Rattle.rv_route.specs.Placement.{home, positions_of, gate_on};
ghost use Rattle.rv_route.specs.Moves.{touched_positions};
ghost use Rattle.rv_route.specs.inside.Standing.{AreAscending, IsTable, Stands, shifted};

use arrayvec::ArrayVec;
use rv_gate::{Gate, LineSet, MOST_LINES, Shape, has};

/// Each line at the position of its number.
pub(crate) fn home() -> [u8; 64]
    ensures { result ≡ home MOST_LINES }
{
    let mut places = [0; 64];
    for line in 0..64 {
        places[line] = line as u8;
    }
    places
}

// Where a line stands after a move of the line at `from`, for which those between give way.
fn shifted(from: u8, to: u8, place: u8) -> u8
    requires { place < MOST_LINES }
    ensures { result ≡ shifted from to place }
{
    if place == from {
        to
    } else if from < place && place <= to {
        place - 1
    } else if to <= place && place < from {
        place + 1
    } else {
        place
    }
}

/// The line at a position moves to another.
pub(crate) fn shift(places: &mut [u8], from: u8, to: u8)
    requires { (line : ℕ) → line < length places.old → slice_index places.old line < MOST_LINES }
    ensures { (line : ℕ) → line < length places.old
        → slice_index places.new line ≡ shifted from to (slice_index places.old line) }
{
    for line in 0..places.len() {
        places[line] = shifted(from, to, places[line]);
    }
}

// The positions of a set of lines.
fn positions_of(places: &[u8], set: LineSet) -> LineSet
    requires table { IsTable places.now }
    requires few { length places.now ≤ MOST_LINES }
    requires within { Within set (length places.now) }
    ensures { (row : List ℕ) → Stands row places.now → result ≡ positions_of row set }
{
    let mut positions = 0;
    let mut left = set;
    while left != 0 {
        let line = left.trailing_zeros();
        positions |= 1 << places[line as usize];
        left &= !(1 << line);
    }
    positions
}

// The members of a set below a number, in ascending order.
fn members_of(set: LineSet, count: usize) -> ArrayVec<u8, 64>
    requires { count ≤ MOST_LINES }
    ensures { result.items ≡ filter (has set) (range_with_len 0 count) }
{
    let mut members = ArrayVec::new();
    for line in 0..count {
        if has(set, line as u8) {
            members.push(line as u8);
        }
    }
    members
}

/// The positions of the lines that a gate touches, in ascending order.
pub(crate) fn touched_positions(places: &[u8], gate: Gate) -> ArrayVec<u8, 64>
    requires table { IsTable places.now }
    requires few { length places.now ≤ MOST_LINES }
    requires fits { FitsIn gate (length places.now) }
    ensures positions { (row : List ℕ) → Stands row places.now → result.items ≡ touched_positions row gate }
    ensures some { 0 < length result.items }
    ensures ascending { AreAscending 0 (length places.now) result.items }
{
    members_of(positions_of(places, gate.touched()), places.len())
}

// The gate with each line replaced by its position, which is one.
fn placed_on(places: &[u8], gate: Gate) -> Option<Gate>
    requires table { IsTable places.now }
    requires few { length places.now ≤ MOST_LINES }
    requires fits { FitsIn gate (length places.now) }
    ensures { (row : List ℕ) → Stands row places.now → result ≡ Some (gate_on row gate) }
{
    match gate.shape() {
        Shape::Flip { care, want, target } => Gate::flip(
            positions_of(places, care),
            positions_of(places, want),
            places[target as usize],
        ),
        Shape::Swap { care, want, a, b } => Gate::swap(
            positions_of(places, care),
            positions_of(places, want),
            places[a as usize],
            places[b as usize],
        ),
        Shape::Peres { a, b, c } => {
            Gate::peres(places[a as usize], places[b as usize], places[c as usize])
        }
    }
}

/// The gate with each line replaced by its position.
pub(crate) fn gate_on(places: &[u8], gate: Gate) -> Gate
    requires table { IsTable places.now }
    requires few { length places.now ≤ MOST_LINES }
    requires fits { FitsIn gate (length places.now) }
    ensures { (row : List ℕ) → Stands row places.now → result ≡ gate_on row gate }
{
    match placed_on(places, gate) {
        Some(gate) => gate,
        None => unreachable!(),
    }
}
