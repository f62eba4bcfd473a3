//! The search for gates that do the same as some others. Nothing is proved of what it finds.
ghost use Rattle.std.specs.Prelude.{◌<◌, length};

use crate::beam::{Plan, search};
use crate::common::Common;
use crate::lines::{list_lines, span};
use crate::prices::Prices;
use crate::space::{Bundle, Move, NONE, Space};
use crate::table::{Eightfold, PLACES, Sevenfold, Sixfold, Table};
use rv_gate::{Gate, LineSet, MOST_LINES, Shape};
use std::alloc::{AllocError, Global};

// The places, among some lines, of those of a set.
fn small_set(lines: &[u8], set: LineSet) -> u8 {
    let mut small = 0u8;
    for place in 0..lines.len().min(PLACES) {
        if set >> (lines[place] % 64) & 1 == 1 {
            small |= 1 << place;
        }
    }
    small
}

// The lines at some places.
fn large_set(lines: &[u8], small: u8) -> LineSet {
    let mut set = 0u64;
    for place in 0..lines.len().min(PLACES) {
        if small >> place & 1 == 1 {
            set |= 1 << (lines[place] % 64);
        }
    }
    set
}

// The place of a line among some lines.
fn place_of(lines: &[u8], line: u8) -> u8 {
    let mut found = 0;
    for place in 0..lines.len().min(PLACES) {
        if lines[place] == line {
            found = place as u8;
        }
    }
    found
}

// The line at a place.
fn line_at(lines: &[u8], place: u8) -> u8 {
    match lines.get(usize::from(place)) {
        Some(line) => *line,
        None => 0,
    }
}

// The line that stands for the common controls, as a set of it alone: the one after the lines.
fn bundle_line(lines: &[u8], common: &Common) -> u8 {
    if common.is_none() || lines.len() >= PLACES {
        return 0;
    }
    1 << lines.len()
}

// The same, if it is among the controls of a gate.
fn bundled(lines: &[u8], common: &Common, gate: Gate) -> u8 {
    if common.are_in(gate) {
        bundle_line(lines, common)
    } else {
        0
    }
}

// Takes a gate to a permutation that stands before it.
pub(crate) fn follow<T: Table>(
    space: &Space<T>,
    tables: &mut [T],
    lines: &[u8],
    common: &Common,
    gate: Gate,
) {
    match gate.shape() {
        Shape::Flip { care, want, target } => {
            let bundle = bundled(lines, common, gate);
            let care = small_set(lines, care) | bundle;
            let want = small_set(lines, want) | bundle;
            space.flip_off(tables, care, want, place_of(lines, target), false);
        }
        Shape::Swap { care, want, a, b } => {
            let (first, second) = (place_of(lines, a), place_of(lines, b));
            let own = small_set(lines, 1 << (a % 64));
            let other = small_set(lines, 1 << (b % 64));
            let care = small_set(lines, care) | own;
            let want = small_set(lines, want) | own;
            space.flip_off(tables, other, other, first, false);
            space.flip_off(tables, care, want, second, false);
            space.flip_off(tables, other, other, first, false);
        }
        Shape::Peres { a, b, c } => {
            let one = small_set(lines, 1 << (a % 64));
            let both = one | small_set(lines, 1 << (b % 64));
            space.flip_off(tables, both, both, place_of(lines, c), false);
            space.flip_off(tables, one, one, place_of(lines, b), false);
        }
    }
}

// The gate of a move.
pub(crate) fn gate_of(lines: &[u8], common: &Common, by: &Move) -> Option<Gate> {
    if by.second != NONE {
        let first = by.care & !(1 << (by.second % 8));
        return Gate::peres(
            line_at(lines, first.trailing_zeros().min(7) as u8),
            line_at(lines, by.second),
            line_at(lines, by.target),
        );
    }
    let (mut care, mut want) = (0, 0);
    if by.care & bundle_line(lines, common) != 0 {
        care = common.care;
        want = common.want;
    }
    Gate::flip(
        large_set(lines, by.care) | care,
        large_set(lines, by.want) | want,
        line_at(lines, by.target),
    )
}

// Adds the gates of the moves at one side.
fn push_side(
    found: &mut Vec<Gate>,
    lines: &[u8],
    common: &Common,
    moves: &[Move],
    front: bool,
) -> Result<(), AllocError> {
    let count = moves.len();
    for k in 0..count {
        let by = if front {
            moves[count - 1 - k]
        } else {
            moves[k]
        };
        if by.front == front {
            if let Some(gate) = gate_of(lines, common, &by) {
                found.push(gate)?;
            }
        }
    }
    Ok(())
}

// Gates on these lines that may make a permutation of the words.
pub(crate) fn solve<T: Table>(
    space: &Space<T>,
    alloc: Global,
    tables: &[T],
    lines: &[u8],
    common: &Common,
    plan: &Plan,
) -> Result<Option<Vec<Gate>>, AllocError> {
    let end = space.end(alloc)?;
    let Some(moves) = search(alloc, space, tables, &end, plan)? else {
        return Ok(None);
    };
    let mut found = Vec::new(alloc);
    push_side(&mut found, lines, common, &moves, true)?;
    push_side(&mut found, lines, common, &moves, false)?;
    Ok(Some(found))
}

// Gates on these lines that may do the same as some others.
fn find_on<T: Table>(
    space: &Space<T>,
    alloc: Global,
    gates: &[Gate],
    lines: &[u8],
    common: &Common,
    plan: &Plan,
) -> Result<Option<Vec<Gate>>, AllocError> {
    let mut tables = space.start(alloc)?;
    for gate in gates {
        follow(space, &mut tables, lines, common, *gate);
    }
    solve(space, alloc, &tables, lines, common, plan)
}

/// Gates that may do the same as these, for less than the bound. Nothing is promised of them but that the search ends.
///
/// The common controls count as one line. If there are more than eight, none are found.
pub fn find(
    alloc: Global,
    gates: &[Gate],
    common: &Common,
    prices: &Prices,
    plan: &Plan,
) -> Result<Option<Vec<Gate>>, AllocError> {
    let mut room = [0u8; MOST_LINES as usize];
    let count = list_lines(span(gates) & !common.care, &mut room);
    let lines = &room[..count];
    let bundle = Bundle {
        line: if common.is_none() { PLACES } else { count },
        size: common.size(),
    };
    let count = if common.is_none() { count } else { count + 1 };
    match count {
        0..=6 => {
            let space: Space<Sixfold> = Space::new(alloc, count, bundle, prices)?;
            find_on(&space, alloc, gates, lines, common, plan)
        }
        7 => {
            let space: Space<Sevenfold> = Space::new(alloc, count, bundle, prices)?;
            find_on(&space, alloc, gates, lines, common, plan)
        }
        8 => {
            let space: Space<Eightfold> = Space::new(alloc, count, bundle, prices)?;
            find_on(&space, alloc, gates, lines, common, plan)
        }
        _ => Ok(None),
    }
}
