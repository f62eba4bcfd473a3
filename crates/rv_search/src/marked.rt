// The search for gates that have the same function by a circuit's marks. Nothing is proved of what it finds.
use crate::beam::{Plan, Target, search};
use crate::common::Common;
use crate::completion::{Marked, completion};
use crate::finding::{follow, gate_of, solve};
use crate::prices::Prices;
use crate::random::Random;
use crate::scale::SCALES;
use crate::space::{Bundle, Move, Space};
use crate::table::{Eightfold, PLACES, Sevenfold, Sixfold, Table, at, put_at};
use rv_gate::{Circuit, Gate, Mark};
use std::alloc::{AllocError, Global};

const NO_BUNDLE: Bundle = Bundle {
    line: PLACES,
    size: 0,
};

// What is found costs no more than this.
const MOST_PRICE: u64 = 600;

// How much more a line counts than another, at most; and of a line on which anything may stand the part that counts.
const NOISE: usize = 16;

const PARTS: [u32; 3] = [8, 30, 1 << 20];

// The most controls of a gate that is looked for.
const CONTROLS: u32 = 3;

// A beam that came no nearer for so much cost is given up.
const PATIENCE: usize = 40;

// How many lines take a bit of the input.
fn input_lines(circuit: &Circuit) -> usize {
    circuit
        .constant_row()
        .iter()
        .filter(|mark| matches!(**mark, Mark::Input))
        .count()
}

// What stands on each line at the beginning, as a function of the input's bits.
fn start_of<T: Table>(alloc: Global, circuit: &Circuit) -> Result<Vec<T>, AllocError> {
    let mut tables = Vec::new(alloc);
    let mut bit = 0usize;
    for mark in circuit.constant_row() {
        let table = match mark {
            Mark::Input => T::variable(bit),
            Mark::Zero => T::zero(),
            Mark::One => T::zero().not(),
        };
        if matches!(mark, Mark::Input) {
            bit = bit.wrapping_add(1);
        }
        tables.push(table)?;
    }
    Ok(tables)
}

// What is wanted at the end: the forms of what the circuit's gates make, and the lines on which anything may stand.
fn target_of<T: Table>(
    alloc: Global,
    circuit: &Circuit,
    tables: &[T],
    salt: u64,
) -> Result<Target<T>, AllocError> {
    let mut forms = Vec::new(alloc);
    for table in tables {
        forms.push(table.form())?;
    }
    let mut free = 0u8;
    let mut factors = Vec::new(alloc);
    let mut random = Random::new((salt & 0xFFFF) as u16);
    for _ in 0..tables.len() {
        factors.push(4 + (random.below(NOISE) % 64) as u32)?;
    }
    let garbage = circuit.garbage_row();
    for line in 0..garbage.len().min(PLACES) {
        if garbage[line] {
            free |= 1 << line;
        }
    }
    Ok(Target {
        forms,
        free,
        part: PARTS[random.below(PARTS.len())],
        factors,
    })
}

// The gates of moves of which the first is the last.
fn gates_of(alloc: Global, lines: &[u8], moves: &[Move]) -> Result<Vec<Gate>, AllocError> {
    let mut found = Vec::new(alloc);
    let count = moves.len();
    for k in 0..count {
        if let Some(gate) = gate_of(lines, &Common::none(), &moves[count - 1 - k]) {
            found.push(gate)?;
        }
    }
    Ok(found)
}

fn all_lines(alloc: Global, circuit: &Circuit) -> Result<Vec<u8>, AllocError> {
    let mut lines = Vec::new(alloc);
    for line in 0..circuit.line_count() {
        lines.push(line)?;
    }
    Ok(lines)
}

// Gates that a beam finds that has free choice on garbage lines.
fn find_free<T: Table>(
    space: &Space<T>,
    alloc: Global,
    circuit: &Circuit,
    plan: &Plan,
) -> Result<Option<Vec<Gate>>, AllocError> {
    let lines = all_lines(alloc, circuit)?;
    let start = start_of(alloc, circuit)?;
    let mut tables = Vec::from_slice(alloc, &start)?;
    for gate in circuit.gates() {
        follow(space, &mut tables, &lines, &Common::none(), *gate);
    }
    let target = target_of(alloc, circuit, &tables, plan.salt)?;
    let Some(moves) = search(alloc, space, &start, &target, plan)? else {
        return Ok(None);
    };
    let gates = gates_of(alloc, &lines, &moves)?;
    Ok(Some(gates))
}

// The lines by their marks, and what the gates make of each word, in which the constants are put in.
fn marked_of<T: Table>(
    space: &Space<T>,
    alloc: Global,
    circuit: &Circuit,
) -> Result<Marked, AllocError> {
    let lines = all_lines(alloc, circuit)?;
    let mut tables: Vec<T> = Vec::new(alloc);
    let (mut inputs, mut ones, mut garbage) = (0u8, 0u8, 0u8);
    let marks = circuit.constant_row();
    let free = circuit.garbage_row();
    for line in 0..marks.len().min(PLACES) {
        tables.push(match marks[line] {
            Mark::Input => T::variable(line),
            Mark::Zero => T::zero(),
            Mark::One => T::zero().not(),
        })?;
        match marks[line] {
            Mark::Input => inputs |= 1 << line,
            Mark::Zero => {}
            Mark::One => ones |= 1 << line,
        }
        if line < free.len() && free[line] {
            garbage |= 1 << line;
        }
    }
    for gate in circuit.gates() {
        follow(space, &mut tables, &lines, &Common::none(), *gate);
    }
    let mut images = Vec::new(alloc);
    for word in 0..1usize << space.lines.min(PLACES) {
        let mut image = 0u8;
        for line in 0..tables.len().min(PLACES) {
            if tables[line].bit(word) {
                image |= 1 << line;
            }
        }
        images.push(image)?;
    }
    Ok(Marked {
        lines: space.lines.min(PLACES) as u32,
        inputs,
        ones,
        garbage,
        images,
    })
}

// The tables of a permutation, and of its inverse.
fn tables_of<T: Table>(
    space: &Space<T>,
    alloc: Global,
    permutation: &[u8],
) -> Result<Vec<T>, AllocError> {
    let mut tables = vec![in alloc; T::zero(); space.lines.min(PLACES) * 2]?;
    for word in 0..permutation.len() {
        let image = usize::from(permutation[word]);
        for line in 0..space.lines.min(PLACES) {
            if image >> line & 1 == 1 {
                let table = at(&tables, line).with(word);
                put_at(&mut tables, line, table);
            }
            let back = space.lines.wrapping_add(line);
            if word >> line & 1 == 1 {
                let table = at(&tables, back).with(image);
                put_at(&mut tables, back, table);
            }
        }
    }
    Ok(tables)
}

// Gates that a beam finds for one of the permutations that have the function.
fn find_completed<T: Table>(
    space: &Space<T>,
    alloc: Global,
    circuit: &Circuit,
    number: usize,
    plan: &Plan,
) -> Result<Option<Vec<Gate>>, AllocError> {
    let lines = all_lines(alloc, circuit)?;
    let marked = marked_of(space, alloc, circuit)?;
    let Some(permutation) = completion(alloc, &marked, number)? else {
        return Ok(None);
    };
    let tables = tables_of(space, alloc, &permutation)?;
    solve(space, alloc, &tables, &lines, &Common::none(), plan)
}

/// Gates that may make one of the permutations with the circuit's function by its marks, by its number. Nothing is
/// promised of them but that the search ends. On fewer than six lines or more than eight none are found.
pub fn find_completion(
    alloc: Global,
    circuit: &Circuit,
    prices: &Prices,
    number: usize,
    plan: &Plan,
) -> Result<Option<Vec<Gate>>, AllocError> {
    let lines = usize::from(circuit.line_count());
    match lines {
        0..=5 => Ok(None),
        6 => {
            let space: Space<Sixfold> = Space::new(alloc, lines, NO_BUNDLE, prices)?;
            find_completed(&space, alloc, circuit, number, plan)
        }
        7 => {
            let space: Space<Sevenfold> = Space::new(alloc, lines, NO_BUNDLE, prices)?;
            find_completed(&space, alloc, circuit, number, plan)
        }
        8 => {
            let space: Space<Eightfold> = Space::new(alloc, lines, NO_BUNDLE, prices)?;
            find_completed(&space, alloc, circuit, number, plan)
        }
        _ => Ok(None),
    }
}

/// How a beam with free choice on garbage lines goes, by its number and the effort.
pub fn free_plan(number: usize, bound: u64, effort: u16) -> Plan {
    Plan {
        bound: bound.min(MOST_PRICE) as usize,
        width: 3 + number % 3,
        moves: 0,
        nodes: usize::from(effort).saturating_mul(200),
        scale: number % SCALES,
        salt: number as u64,
        peres: false,
        controls: CONTROLS,
        patience: PATIENCE,
    }
}

/// Gates that may have the circuit's function by its marks, for less than the bound. Nothing is promised of them but
/// that the search ends. On more than eight lines none are found.
pub fn find_marked(
    alloc: Global,
    circuit: &Circuit,
    prices: &Prices,
    plan: &Plan,
) -> Result<Option<Vec<Gate>>, AllocError> {
    let lines = usize::from(circuit.line_count());
    if lines > PLACES {
        return Ok(None);
    }
    match input_lines(circuit) {
        0..=6 => {
            let space: Space<Sixfold> = Space::new(alloc, lines, NO_BUNDLE, prices)?;
            find_free(&space, alloc, circuit, plan)
        }
        7 => {
            let space: Space<Sevenfold> = Space::new(alloc, lines, NO_BUNDLE, prices)?;
            find_free(&space, alloc, circuit, plan)
        }
        _ => {
            let space: Space<Eightfold> = Space::new(alloc, lines, NO_BUNDLE, prices)?;
            find_free(&space, alloc, circuit, plan)
        }
    }
}
