// The circuit of gates that a search over spans finds.
use crate::cells::at;
use crate::placing::Placing;
use crate::rank::is_better;
use rv_gate::{Circuit, Gate, MOST_LINES, Mark, Names};
use rv_price::Goal;
use rv_spans::{Found, Search, Task, all_found};
use std::alloc::{AllocError, Global};

// So many searches find more than one that is as long.
const TURNS: u16 = 2;

// What a line is: an input, an output on no input's line, or one to work on.
fn name_kind(placing: &Placing, inputs: u8, line: u8) -> u8 {
    if line < inputs {
        b'x'
    } else if placing.output_on(line).is_some() {
        b'y'
    } else {
        b'w'
    }
}

// The number of a line among those of its kind, as a name.
fn push_name(alloc: Global, names: &mut Names, kind: u8, number: usize) -> Result<(), AllocError> {
    let number = number.min(63) as u8;
    let prefix = match kind {
        b'x' => b'x',
        b'y' => b'y',
        _ => b'w',
    };
    let all = Names::numbered(alloc, prefix, number + 1)?;
    if number >= all.len() {
        return Err(AllocError);
    }
    match names.push(all.name(number)) {
        Ok(()) => Ok(()),
        Err(_) => Err(AllocError),
    }
}

// x0, x1, .. for inputs, y0, .. for outputs, and w0, .. for others.
fn names_of(alloc: Global, placing: &Placing, inputs: u8) -> Result<Names, AllocError> {
    let mut names = Names::new(alloc);
    let mut works = 0usize;
    for line in &placing.lines {
        let kind = name_kind(placing, inputs, *line);
        let number = match kind {
            b'x' => usize::from(*line),
            b'y' => placing.output_on(*line).unwrap_or(0),
            _ => works,
        };
        if kind == b'w' {
            works = works.saturating_add(1);
        }
        push_name(alloc, &mut names, kind, number)?;
    }
    Ok(names)
}

// Labels a line by its output, and else says that it is garbage.
fn mark_end(
    circuit: &mut Circuit,
    place: u8,
    output: Option<usize>,
    labels: &Names,
) -> Result<(), AllocError> {
    if place >= circuit.line_count() {
        return Ok(());
    }
    let Some(output) = output else {
        circuit.set_garbage(place, true);
        return Ok(());
    };
    let number = output.min(63) as u8;
    if number >= labels.len() {
        return Ok(());
    }
    match circuit.set_output_label(place, labels.name(number)) {
        Ok(()) => Ok(()),
        Err(_) => Err(AllocError),
    }
}

// Marks lines, and labels outputs.
fn mark(
    alloc: Global,
    circuit: &mut Circuit,
    placing: &Placing,
    inputs: u8,
) -> Result<(), AllocError> {
    let labels = Names::numbered(alloc, b'y', 16)?;
    for place in 0..MOST_LINES {
        let line = at(&placing.lines, usize::from(place), 0);
        if place < circuit.line_count() && line >= inputs {
            circuit.set_constant(place, Mark::Zero);
        }
        mark_end(circuit, place, placing.output_on(line), &labels)?;
    }
    Ok(())
}

fn push_all(circuit: &mut Circuit, placing: &Placing, gates: &[Gate]) -> Result<bool, AllocError> {
    for gate in gates {
        let Some(own) = placing.placed(*gate) else {
            return Ok(false);
        };
        if !own.fits(circuit.line_count()) || circuit.push(own).is_err() {
            return Ok(false);
        }
    }
    Ok(true)
}

// The circuit on the lines that are used, inputs and outputs in their order.
fn circuit_of(alloc: Global, inputs: u8, found: &Found) -> Result<Option<Circuit>, AllocError> {
    let mut placing = Placing::new(alloc, inputs, &found.outputs)?;
    placing.run()?;
    let mut used = 0;
    for gate in &found.gates {
        used |= gate.touched();
    }
    placing.place_rest(used)?;
    let names = names_of(alloc, &placing, inputs)?;
    if names.len() == 0 {
        return Ok(None);
    }
    let mut circuit = Circuit::new(names)?;
    mark(alloc, &mut circuit, &placing, inputs)?;
    if push_all(&mut circuit, &placing, &found.gates)?
        && push_all(&mut circuit, &placing, &placing.swaps)?
    {
        return Ok(Some(circuit));
    }
    Ok(None)
}

// The better of two circuits, as far as there are any.
fn better(
    alloc: Global,
    goal: Goal,
    one: Option<Circuit>,
    other: Option<Circuit>,
) -> Option<Circuit> {
    let Some(old) = one else {
        return other;
    };
    match other {
        Some(new) => {
            if is_better(alloc, goal, &new, &old) {
                Some(new)
            } else {
                Some(old)
            }
        }
        None => Some(old),
    }
}

/// The best circuit that searches over spans find on so many lines: several with other numbers, each with a part of the
/// effort.
pub(crate) fn by_spans(
    alloc: Global,
    task: &Task,
    inputs: u8,
    search: Search,
    goal: Goal,
) -> Result<Option<Circuit>, AllocError> {
    let mut best = None;
    for turn in 0..TURNS {
        let own = Search {
            effort: search.effort.div_ceil(TURNS),
            seed: search.seed.wrapping_mul(TURNS).wrapping_add(turn),
            ..search
        };
        for found in all_found(alloc, task, own)? {
            let circuit = circuit_of(alloc, inputs, &found)?;
            best = better(alloc, goal, best, circuit);
        }
    }
    Ok(best)
}
