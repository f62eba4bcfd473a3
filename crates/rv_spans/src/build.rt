// From steps over spans to gates on lines.
use crate::basis::{Basis, ONES};
use crate::cells::{at, bit, column_of, first_one, has, is_odd, put_at, top_place};
use crate::lines::{Lines, NO_SUM, Sum, is_on, line_bit, lowest};
use crate::state::State;
use crate::step::{MOST_FORMS, Step, t_of};
use crate::task::Task;
use rv_gate::Gate;
use std::alloc::{AllocError, Global};

/// Gates that were found, and the line on which each output is.
#[derive(Drop)]
pub struct Found {
    pub gates: Vec<Gate>,
    pub outputs: Vec<u8>,
    /// T gates, about
    pub price: u64,
}

// An output as a form of the coordinates, and a constant.
#[derive(Clone, Copy)]
struct Output {
    form: u32,
    constant: bool,
}

const NO_OUTPUT: Output = Output {
    form: 0,
    constant: false,
};

// The controls of a product: its forms, each brought on a line of its own.
fn controls(lines: &mut Lines, step: &Step) -> Result<Option<(u64, u64)>, AllocError> {
    let mut taken = 0u64;
    for i in 0..step.count.min(MOST_FORMS) {
        let Some(line) = lines.gather(step.form(i), taken)? else {
            return Ok(None);
        };
        taken |= line_bit(line);
    }
    let (mut care, mut want) = (0u64, 0u64);
    for i in 0..step.count.min(MOST_FORMS) {
        let sum = lines.form(step.form(i));
        care |= sum.lines;
        if has(step.want, i) != sum.constant {
            want |= sum.lines;
        }
    }
    if care != taken {
        return Ok(None);
    }
    Ok(Some((care, want)))
}

// The line that a product is added to, from which the other lines of the direction are to follow.
fn target(lines: &mut Lines, step: &Step) -> Result<Option<u8>, AllocError> {
    if step.lambda == 0 {
        let Some(line) = lines.free.pop() else {
            return Ok(None);
        };
        lines.sums.push(Sum {
            lines: line_bit(line),
            constant: false,
        })?;
        return Ok(Some(line));
    }
    let direction = lines.direction(step.lambda);
    if direction == 0 {
        return Ok(None);
    }
    let target = lowest(direction);
    for line in 0..64u8 {
        if line != target && is_on(direction, line) {
            lines.cnot(target, line)?;
        }
    }
    Ok(Some(target))
}

// Frees the line of a sum of coordinates that is constant.
fn give_back(lines: &mut Lines, step: &Step, is_one: bool) -> Result<bool, AllocError> {
    let Some(line) = lines.gather(step.drop, 0)? else {
        return Ok(false);
    };
    if is_one != lines.form(step.drop).constant {
        lines.not(line)?;
    }
    let place = top_place(step.drop);
    if place >= lines.sums.len() {
        return Ok(false);
    }
    let _ = lines.sums.remove(place);
    for k in 0..lines.sums.len() {
        let sum = at(&lines.sums, k, NO_SUM);
        let own = Sum {
            lines: sum.lines & !line_bit(line),
            ..sum
        };
        put_at(&mut lines.sums, k, own);
    }
    lines.free.push(line)?;
    Ok(true)
}

// One step.
fn put_step(
    lines: &mut Lines,
    step: &Step,
    first: u32,
    dimension: usize,
) -> Result<bool, AllocError> {
    let Some((care, want)) = controls(lines, step)? else {
        return Ok(false);
    };
    let Some(target) = target(lines, step)? else {
        return Ok(false);
    };
    lines.flip(care, want, target)?;
    if step.drop == 0 {
        return Ok(true);
    }
    let lambda = if step.lambda == 0 {
        bit(dimension)
    } else {
        step.lambda
    };
    let word = if step.holds(first) {
        first ^ lambda
    } else {
        first
    };
    give_back(lines, step, is_odd(word & step.drop))
}

// Leaves of a column the words at which an output isn't free.
fn cared(task: &Task, output: usize, column: Vec<bool>) -> Vec<bool> {
    let mut column = column;
    for k in 0..column.len() {
        if task.sign(k, output) == 0 {
            put_at(&mut column, k, false);
        }
    }
    column
}

// An output as a form of the coordinates, if it is one.
fn output_form(
    alloc: Global,
    task: &Task,
    words: &[u32],
    dimension: usize,
    output: usize,
) -> Result<Option<Output>, AllocError> {
    let mut basis = Basis::new(alloc, words.len());
    let ones = vec![in alloc; true; words.len()]?;
    let _ = basis.add(cared(task, output, ones), ONES)?;
    for place in 0..dimension {
        let own = cared(task, output, column_of(alloc, words, place)?);
        let _ = basis.add(own, u64::from(bit(place)))?;
    }
    let mut rest = cared(task, output, task.column(alloc, output)?);
    let names = basis.reduce(&mut rest);
    if first_one(&rest).is_some() {
        return Ok(None);
    }
    Ok(Some(Output {
        form: (names & 0xFFFF_FFFF) as u32,
        constant: names & ONES != 0,
    }))
}

// The forms of all outputs.
fn output_forms(
    alloc: Global,
    task: &Task,
    words: &[u32],
    dimension: usize,
) -> Result<Option<Vec<Output>>, AllocError> {
    let mut forms = Vec::new(alloc);
    for output in 0..task.outputs {
        let Some(form) = output_form(alloc, task, words, dimension, output)? else {
            return Ok(None);
        };
        forms.push(form)?;
    }
    Ok(Some(forms))
}

// Copies an output to a line that is free.
fn copied(lines: &mut Lines, output: Output) -> Result<Option<u8>, AllocError> {
    let Some(line) = lines.free.pop() else {
        return Ok(None);
    };
    let sum = lines.form(output.form);
    for control in 0..64u8 {
        if is_on(sum.lines, control) {
            lines.flip(line_bit(control), line_bit(control), line)?;
        }
    }
    if sum.constant != output.constant {
        lines.flip(0, 0, line)?;
    }
    Ok(Some(line))
}

// Puts each output on a line of its own.
fn put_outputs(
    alloc: Global,
    lines: &mut Lines,
    forms: &[Output],
) -> Result<Option<Vec<u8>>, AllocError> {
    let mut places = vec![in alloc; 64u8; forms.len()]?;
    let mut taken = 0u64;
    for k in 0..forms.len() {
        if let Some(line) = lines.gather(at(forms, k, NO_OUTPUT).form, taken)? {
            taken |= line_bit(line);
            put_at(&mut places, k, line);
        }
    }
    for k in 0..forms.len() {
        if at(&places, k, 64) == 64 {
            let Some(line) = copied(lines, at(forms, k, NO_OUTPUT))? else {
                return Ok(None);
            };
            put_at(&mut places, k, line);
        }
    }
    for k in 0..forms.len() {
        let output = at(forms, k, NO_OUTPUT);
        let (line, sum) = (at(&places, k, 0), lines.form(output.form));
        if sum.lines == line_bit(line) && is_on(taken, line) && sum.constant != output.constant {
            lines.not(line)?;
        }
    }
    Ok(Some(places))
}

// The lines of all outputs, if they are forms.
fn outputs_on(
    alloc: Global,
    task: &Task,
    lines: &mut Lines,
    state: &State,
) -> Result<Option<Vec<u8>>, AllocError> {
    match output_forms(alloc, task, &state.words, state.dimension)? {
        Some(forms) => put_outputs(alloc, lines, &forms),
        None => Ok(None),
    }
}

// T gates of gates, about.
fn price_of(gates: &[Gate]) -> u64 {
    let mut price = 0u64;
    for gate in gates {
        let t = t_of(gate.controls().count_ones() as usize);
        price = price.saturating_add(t.unsigned_abs());
    }
    price
}

/// The gates of steps on so many lines, if they make all outputs.
pub(crate) fn built(
    alloc: Global,
    task: &Task,
    most_lines: u8,
    steps: &[Step],
) -> Result<Option<Found>, AllocError> {
    let mut lines = Lines::new(alloc, task.inputs.min(64) as u8, most_lines)?;
    let mut state = State::first(alloc, task)?;
    for step in steps {
        let first = at(&state.words, 0, 0);
        if !put_step(&mut lines, step, first, state.dimension)? {
            return Ok(None);
        }
        state.go(step);
    }
    match outputs_on(alloc, task, &mut lines, &state)? {
        Some(outputs) => Ok(Some(Found {
            price: price_of(&lines.gates),
            gates: lines.gates,
            outputs,
        })),
        None => Ok(None),
    }
}
