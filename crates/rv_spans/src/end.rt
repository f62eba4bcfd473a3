// Ends a state whatever it costs: one output after another, by products that are added to one direction.
use crate::cells::{at, bit, has, is_odd, number_of, put_at, size_of, top_place, widened, without};
use crate::cover::{Wanted, cover, price_of};
use crate::greedy::{NO_TOP, Top, keep_top};
use crate::random::Random;
use crate::state::State;
use crate::step::{MOST_FORMS, NO_STEP, Step};
use crate::task::Task;
use std::alloc::{AllocError, Global};

// So many steps are made at the end, about.
const MOST_STEPS: usize = 400;

// So many directions are tried for an output.
const MOST_WAYS: usize = 8;

// So many of an output's greatest coefficients are looked at.
const MOST_TOPS: usize = 12;

// A form to which an output comes nearest, and at how many words it is as that says, less the others.
#[derive(Clone, Copy)]
struct Nearest {
    output: usize,
    form: u32,
    size: u64,
}

// Steps for an output, and their price.
#[derive(Drop)]
struct Ending {
    price: i64,
    steps: Vec<Step>,
}

fn wanted_of(
    alloc: Global,
    task: &Task,
    state: &State,
    output: usize,
) -> Result<Wanted, AllocError> {
    let mut signs = vec![in alloc; 0i64; state.words.len()]?;
    for k in 0..signs.len() {
        put_at(&mut signs, k, task.sign(k, output));
    }
    Ok(Wanted {
        words: Vec::from_slice(alloc, &state.words)?,
        signs,
        dimension: state.dimension,
    })
}

fn nearest_form(
    alloc: Global,
    task: &Task,
    state: &State,
    output: usize,
) -> Result<Nearest, AllocError> {
    let spectrum = wanted_of(alloc, task, state, output)?.spectrum(alloc)?;
    let mut best = Nearest {
        output,
        form: 0,
        size: 0,
    };
    for form in 0..spectrum.len() {
        let size = at(&spectrum, form, 0).unsigned_abs();
        if size > best.size {
            best = Nearest {
                output,
                form: number_of(form),
                size,
            };
        }
    }
    Ok(best)
}

// Whether a direction changes one of some forms.
fn has_odd(forms: &[u32], direction: u32) -> bool {
    for form in forms {
        if is_odd(*form & direction) {
            return true;
        }
    }
    false
}

// The directions in which two words lie apart that are to have the same bit, or that change a solved output.
fn barred(
    alloc: Global,
    state: &State,
    wanted: &Wanted,
    solved: &[u32],
) -> Result<Vec<bool>, AllocError> {
    let mut barred = vec![in alloc; false; size_of(state.dimension)]?;
    put_at(&mut barred, 0, true);
    for lambda in 1..barred.len() {
        let direction = number_of(lambda);
        if has_odd(solved, direction) {
            put_at(&mut barred, lambda, true);
        }
    }
    for k in 0..state.words.len() {
        let sign = wanted.sign(k);
        for j in 0..k {
            if sign != 0 && sign == wanted.sign(j) {
                let lambda = wanted.word(k) ^ wanted.word(j);
                put_at(&mut barred, lambda as usize, true);
            }
        }
    }
    Ok(barred)
}

// The size of the first form that a direction changes.
fn first_size(tops: &[Top], direction: u32) -> u64 {
    for top in tops {
        if is_odd(top.form & direction) {
            return top.size;
        }
    }
    0
}

// The directions that are not barred which change the forms of the greatest coefficients.
fn directions(spectrum: &[i64], barred: &[bool]) -> [Top; MOST_WAYS] {
    let mut tops = [NO_TOP; MOST_TOPS];
    for form in 0..spectrum.len() {
        let size = at(spectrum, form, 0).unsigned_abs();
        keep_top(
            &mut tops,
            Top {
                size,
                form: number_of(form),
            },
        );
    }
    let mut ways = [NO_TOP; MOST_WAYS];
    for lambda in 1..barred.len() {
        if !at(barred, lambda, true) {
            let form = number_of(lambda);
            let size = first_size(&tops, form).wrapping_add(1);
            keep_top(&mut ways, Top { size, form });
        }
    }
    ways
}

// What is wanted of the words without a coordinate of a direction: nothing where two of them say other things.
fn folded(alloc: Global, wanted: &Wanted, lambda: u32) -> Result<Option<Wanted>, AllocError> {
    let place = top_place(lambda);
    let mut seen = vec![in alloc; 0i64; size_of(wanted.dimension)]?;
    let mut words = vec![in alloc; 0u32; wanted.words.len()]?;
    let mut signs = vec![in alloc; 0i64; wanted.words.len()]?;
    for k in 0..wanted.words.len() {
        let word = wanted.word(k);
        let is_on = has(word, place);
        let low = without(if is_on { word ^ lambda } else { word }, place);
        let sign = if is_on {
            wanted.sign(k).wrapping_neg()
        } else {
            wanted.sign(k)
        };
        let there = at(&seen, low as usize, 0);
        if sign != 0 && there == sign.wrapping_neg() {
            return Ok(None);
        }
        if sign != 0 {
            put_at(&mut seen, low as usize, sign);
        }
        put_at(&mut words, k, low);
        put_at(&mut signs, k, sign);
    }
    Ok(Some(Wanted {
        words,
        signs,
        dimension: wanted.dimension.saturating_sub(1),
    }))
}

// A product over the coordinates without one, as one over all, that a direction doesn't change.
fn unfolded(product: &Step, lambda: u32) -> Step {
    let place = top_place(lambda);
    let mut step = Step { lambda, ..*product };
    for i in 0..product.count.min(MOST_FORMS) {
        let wide = widened(product.form(i), place);
        let form = if is_odd(wide & lambda) {
            wide | bit(place)
        } else {
            wide
        };
        put_at(&mut step.forms, i, form);
    }
    step
}

impl Ending {
    fn none(alloc: Global) -> Ending {
        Ending {
            price: i64::MAX,
            steps: Vec::new(alloc),
        }
    }

    fn is_none(&self) -> bool {
        self.price == i64::MAX
    }

    // Takes products, if they are cheaper.
    fn take(&mut self, products: Option<Vec<Step>>) -> bool {
        match products {
            Some(products) => {
                let price = price_of(&products);
                if price >= self.price {
                    return false;
                }
                self.price = price;
                self.steps = products;
                true
            }
            None => false,
        }
    }

    // Takes products over the coordinates without that of a direction, which they are added to.
    fn take_in_place(&mut self, products: Option<Vec<Step>>, lambda: u32) {
        if self.take(products) {
            for k in 0..self.steps.len() {
                let step = unfolded(&at(&self.steps, k, NO_STEP), lambda);
                put_at(&mut self.steps, k, step);
            }
        }
    }

    // Takes products of which the first makes a new coordinate.
    fn take_beside(&mut self, products: Option<Vec<Step>>, place: usize) {
        if self.take(products) {
            for k in 0..self.steps.len() {
                let step = at(&self.steps, k, NO_STEP);
                let lambda = if k == 0 { 0 } else { bit(place) };
                put_at(&mut self.steps, k, Step { lambda, ..step });
            }
        }
    }
}

// Tries to add what an output lacks to a direction.
fn try_in_place(
    alloc: Global,
    wanted: &Wanted,
    lambda: u32,
    random: &mut Random,
    best: &mut Ending,
) -> Result<(), AllocError> {
    if let Some(mut low) = folded(alloc, wanted, lambda)? {
        best.take_in_place(cover(alloc, &mut low, random)?, lambda);
    }
    Ok(())
}

// The cheapest steps for an output.
fn ending_of(
    alloc: Global,
    task: &Task,
    state: &State,
    output: usize,
    solved: &[u32],
    most_dimension: usize,
    random: &mut Random,
) -> Result<Ending, AllocError> {
    let mut wanted = wanted_of(alloc, task, state, output)?;
    let barred = barred(alloc, state, &wanted, solved)?;
    let ways = directions(&wanted.spectrum(alloc)?, &barred);
    let mut best = Ending::none(alloc);
    for k in 0..MOST_WAYS {
        let lambda = at(&ways, k, NO_TOP).form;
        if lambda != 0 {
            try_in_place(alloc, &wanted, lambda, random, &mut best)?;
        }
    }
    if state.dimension < most_dimension {
        best.take_beside(cover(alloc, &mut wanted, random)?, state.dimension);
    }
    Ok(best)
}

// The outputs that are no forms, the nearest first, and the forms of the others.
fn open_outputs(
    alloc: Global,
    task: &Task,
    state: &State,
    solved: &mut Vec<u32>,
) -> Result<Vec<Nearest>, AllocError> {
    let mut open = Vec::new(alloc);
    for output in 0..task.outputs {
        let nearest = nearest_form(alloc, task, state, output)?;
        if nearest.size >= task.count(output).unsigned_abs() {
            solved.push(nearest.form)?;
        } else {
            open.push(nearest)?;
        }
    }
    open.sort_by_key(|nearest| u64::MAX - nearest.size)?;
    Ok(open)
}

// Steps for the first output that can be ended.
fn next_ending(
    alloc: Global,
    task: &Task,
    state: &State,
    open: &[Nearest],
    solved: &[u32],
    most_dimension: usize,
    random: &mut Random,
) -> Result<Ending, AllocError> {
    for nearest in open {
        let output = nearest.output;
        let found = ending_of(alloc, task, state, output, solved, most_dimension, random)?;
        if !found.is_none() {
            return Ok(found);
        }
    }
    Ok(Ending::none(alloc))
}

/// Steps after which all outputs are forms, if they are found.
pub(crate) fn finish(
    alloc: Global,
    task: &Task,
    state: State,
    most_dimension: usize,
    random: &mut Random,
) -> Result<Option<Vec<Step>>, AllocError> {
    let mut state = state;
    let mut steps = Vec::new(alloc);
    for _ in 0..task.outputs.saturating_add(1) {
        let mut solved = Vec::new(alloc);
        let open = open_outputs(alloc, task, &state, &mut solved)?;
        if open.is_empty() {
            return Ok(Some(steps));
        }
        let ending = next_ending(alloc, task, &state, &open, &solved, most_dimension, random)?;
        for step in &ending.steps {
            state.go(step);
        }
        steps.extend_from_slice(&ending.steps)?;
        if ending.is_none() || steps.len() > MOST_STEPS {
            return Ok(None);
        }
    }
    Ok(None)
}
