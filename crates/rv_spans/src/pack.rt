// The products of steps that were found, made again over fewer coordinates: at other times, and added to other
// directions.
use crate::basis::Basis;
use crate::cells::{
    at, bit, column_of, first_one, has, is_odd, number_of, numbers, put_at, size_of, top_place,
};
use crate::echelon::{Echelon, NONE};
use crate::random::Random;
use crate::state::State;
use crate::step::{MOST_FORMS, NO_STEP, Step};
use crate::task::Task;
use std::alloc::{AllocError, Global};

// The functions of steps are sums of so many at the most.
const MOST_FUNCTIONS: usize = 31;

// So many states are kept of each level, so many that come from one, and so many levels.
const BEAM: usize = 160;

const KEPT: usize = 24;

const LEVELS: usize = 24;

// More products than these take too long.
const MOST_MADE: usize = 11;

/// What counts in a state: an output that is a form, and a product whose forms all are.
#[derive(Clone, Copy)]
pub(crate) struct Weights {
    pub(crate) output: u64,
    pub(crate) product: u64,
}

const NOWHERE: usize = usize::MAX;

// A product: its forms and itself as sums of functions, and a word at which it holds.
#[derive(Clone, Copy)]
struct Made {
    count: usize,
    forms: [u32; MOST_FORMS],
    own: u32,
    word: usize,
}

const NO_MADE: Made = Made {
    count: 0,
    forms: [0; MOST_FORMS],
    own: 0,
    word: 0,
};

// The products of steps, and the outputs.
#[derive(Drop)]
pub(crate) struct Store {
    made: Vec<Made>,
    outputs: Vec<u32>,
}

// The functions that coordinates are, so far.
#[derive(Drop)]
struct Rows {
    basis: Basis,
    functions: usize,
    rows: Vec<u32>,
}

// The coordinates at the start, as sums of functions.
fn inputs_of(alloc: Global, task: &Task) -> Result<Vec<u32>, AllocError> {
    let mut rows = vec![in alloc; 0u32; task.inputs]?;
    for place in 0..task.inputs {
        put_at(&mut rows, place, bit(place));
    }
    Ok(rows)
}

// At which words a product holds.
fn held_at(alloc: Global, step: &Step, words: &[u32]) -> Result<Vec<bool>, AllocError> {
    let mut column = vec![in alloc; false; words.len()]?;
    for k in 0..words.len() {
        put_at(&mut column, k, step.holds(at(words, k, 0)));
    }
    Ok(column)
}

// The sum of the rows of a form.
fn sum_of(rows: &[u32], form: u32) -> u32 {
    let mut sum = 0u32;
    for k in 0..rows.len() {
        if has(form, k) {
            sum ^= at(rows, k, 0);
        }
    }
    sum
}

impl Rows {
    fn new(alloc: Global, task: &Task, words: &[u32]) -> Result<Rows, AllocError> {
        let mut basis = Basis::new(alloc, words.len());
        basis.add_ones(alloc)?;
        for place in 0..task.inputs {
            let column = column_of(alloc, words, place)?;
            let _ = basis.add(column, u64::from(bit(place)))?;
        }
        Ok(Rows {
            basis,
            functions: task.inputs,
            rows: inputs_of(alloc, task)?,
        })
    }

    // A column as a sum of functions, if it is one.
    fn sum(&self, column: &mut [bool]) -> Option<u32> {
        let names = self.basis.reduce(column);
        match first_one(column) {
            Some(_) => None,
            None => Some((names & 0xFFFF_FFFF) as u32),
        }
    }

    // The same of a column that becomes a function if it is no sum.
    fn own(&mut self, column: Vec<bool>) -> Result<Option<u32>, AllocError> {
        let own = bit(self.functions);
        let mut column = column;
        let names = self.basis.reduce(&mut column);
        if first_one(&column).is_none() {
            return Ok(Some((names & 0xFFFF_FFFF) as u32));
        }
        if self.functions >= MOST_FUNCTIONS {
            return Ok(None);
        }
        let _ = self.basis.add(column, names ^ u64::from(own))?;
        self.functions = self.functions.wrapping_add(1);
        Ok(Some(own))
    }

    // The outputs as sums of functions, if they are.
    fn outputs(&self, alloc: Global, task: &Task) -> Result<Option<Vec<u32>>, AllocError> {
        let mut outputs = vec![in alloc; 0u32; task.outputs]?;
        for output in 0..task.outputs {
            let mut column = task.column(alloc, output)?;
            match self.sum(&mut column) {
                Some(sum) => put_at(&mut outputs, output, sum),
                None => return Ok(None),
            }
        }
        Ok(Some(outputs))
    }

    fn made(&self, step: &Step, own: u32, word: usize) -> Made {
        let mut made = Made {
            count: step.count,
            own,
            word,
            ..NO_MADE
        };
        for i in 0..step.count.min(MOST_FORMS) {
            put_at(&mut made.forms, i, sum_of(&self.rows, step.form(i)));
        }
        made
    }
}

// Adds a product to the rows of a step's direction.
fn moved(alloc: Global, rows: &[u32], step: &Step, own: u32) -> Result<Vec<u32>, AllocError> {
    let mut next = Vec::new(alloc);
    for k in 0..rows.len() {
        let row = at(rows, k, 0);
        let is_gone = step.drop != 0 && k == top_place(step.drop);
        if !is_gone {
            next.push(if has(step.lambda, k) { row ^ own } else { row })?;
        }
    }
    if step.lambda == 0 {
        next.push(own)?;
    }
    Ok(next)
}

/// The products of steps, if they are few, and no output is free.
pub(crate) fn store_of(
    alloc: Global,
    task: &Task,
    steps: &[Step],
) -> Result<Option<Store>, AllocError> {
    let mut state = State::first(alloc, task)?;
    let mut rows = Rows::new(alloc, task, &state.words)?;
    let mut made = Vec::new(alloc);
    for step in steps {
        let column = held_at(alloc, step, &state.words)?;
        let first = first_one(&column).unwrap_or(0);
        let Some(own) = rows.own(column)? else {
            return Ok(None);
        };
        made.push(rows.made(step, own, first))?;
        rows.rows = moved(alloc, &rows.rows, step, own)?;
        state.go(step);
    }
    match rows.outputs(alloc, task)? {
        Some(outputs) => Ok(Some(Store { made, outputs })),
        None => Ok(None),
    }
}

// A state: rows of functions from a place on, and how it came about.
#[derive(Clone, Copy)]
struct Node {
    first: usize,
    dimension: usize,
    parent: usize,
    // the product, and its step but for what is wanted of the forms
    product: usize,
    step: Step,
}

const NO_NODE: Node = Node {
    first: 0,
    dimension: 0,
    parent: NOWHERE,
    product: NOWHERE,
    step: NO_STEP,
};

// A node that may be made.
#[derive(Clone, Copy)]
struct Next {
    score: u64,
    node: Node,
}

const NO_NEXT: Next = Next {
    score: 0,
    node: NO_NODE,
};

// The forms of what counts in a state, and of its sums with a product.
#[derive(Drop)]
struct Counted {
    now: Vec<u32>,
    then: Vec<u32>,
}

impl Counted {
    // Whether it is a form after a product is added to a direction.
    fn is_form(&self, place: usize, lambda: u32) -> bool {
        let (now, then) = (at(&self.now, place, NONE), at(&self.then, place, NONE));
        now != NONE && !is_odd(now & lambda) || then != NONE && is_odd(then & lambda)
    }
}

impl Store {
    fn made(&self, place: usize) -> Made {
        at(&self.made, place, NO_MADE)
    }

    // What counts, one after another: the outputs, and the forms of each product.
    fn counted(&self, alloc: Global, frame: &Echelon, own: u32) -> Result<Counted, AllocError> {
        let mut sums = Vec::from_slice(alloc, &self.outputs)?;
        for made in &self.made {
            for i in 0..made.count.min(MOST_FORMS) {
                sums.push(at(&made.forms, i, 0))?;
            }
        }
        let mut then = Vec::from_slice(alloc, &sums)?;
        for k in 0..sums.len() {
            let sum = at(&sums, k, 0);
            put_at(&mut sums, k, frame.form(sum));
            put_at(&mut then, k, frame.form(sum ^ own));
        }
        Ok(Counted { now: sums, then })
    }

    fn score(&self, counted: &Counted, lambda: u32, weights: Weights) -> u64 {
        let (mut score, mut place) = (0u64, 0usize);
        for _output in &self.outputs {
            if counted.is_form(place, lambda) {
                score = score.wrapping_add(weights.output);
            }
            place = place.wrapping_add(1);
        }
        for made in &self.made {
            let mut has_all = true;
            for _form in 0..made.count.min(MOST_FORMS) {
                has_all = has_all && counted.is_form(place, lambda);
                place = place.wrapping_add(1);
            }
            if has_all {
                score = score.wrapping_add(weights.product);
            }
        }
        score
    }

    // The step of a product but for its direction, if all its forms are there.
    fn step(&self, frame: &Echelon, product: usize) -> Option<Step> {
        let made = self.made(product);
        let mut step = Step {
            count: made.count,
            ..NO_STEP
        };
        for i in 0..made.count.min(MOST_FORMS) {
            let form = frame.form(at(&made.forms, i, 0));
            if form == NONE || form == 0 {
                return None;
            }
            put_at(&mut step.forms, i, form);
        }
        Some(step)
    }

    // The work of looking at all directions of all products.
    fn work(&self, dimension: usize) -> u64 {
        let counted = self
            .outputs
            .len()
            .saturating_add(self.made.len().saturating_mul(2));
        let all = self.made.len().saturating_mul(counted);
        (all as u64).saturating_mul(size_of(dimension) as u64) / 4
    }

    fn is_done(&self, frame: &Echelon) -> bool {
        for output in &self.outputs {
            if frame.form(*output) == NONE {
                return false;
            }
        }
        true
    }
}

fn keep(best: &mut [Next], next: Next) {
    let mut own = next;
    for k in 0..best.len() {
        let there = at(best, k, NO_NEXT);
        if own.score > there.score {
            put_at(best, k, own);
            own = there;
        }
    }
}

#[derive(Drop)]
struct Packing {
    most_dimension: usize,
    weights: Weights,
    nodes: Vec<Node>,
    rows: Vec<u32>,
    front: Vec<usize>,
    seen: Vec<u64>,
    // steps of work that were done
    work: u64,
}

impl Packing {
    fn node(&self, place: usize) -> Node {
        at(&self.nodes, place, NO_NODE)
    }

    fn rows_of(&self, node: &Node) -> &[u32] {
        match self
            .rows
            .get(node.first..node.first.saturating_add(node.dimension))
        {
            Some(rows) => rows,
            None => &[],
        }
    }

    // The best directions of a product.
    fn add_product(
        &self,
        alloc: Global,
        store: &Store,
        frame: &Echelon,
        from: Node,
        parent: usize,
        random: &mut Random,
        best: &mut [Next],
    ) -> Result<(), AllocError> {
        let Some(step) = store.step(frame, from.product) else {
            return Ok(());
        };
        let own = store.made(from.product).own;
        let line = frame.form(own);
        let counted = store.counted(alloc, frame, own)?;
        for direction in 0..size_of(from.dimension) {
            let lambda = number_of(direction);
            let is_fresh = lambda == 0;
            if is_fresh && (from.dimension >= self.most_dimension || line != NONE)
                || step.is_changed_by(lambda)
            {
                continue;
            }
            let score = store.score(&counted, lambda, self.weights);
            let drops = line != NONE && is_odd(line & lambda);
            let step = Step {
                lambda,
                drop: if drops { line } else { 0 },
                ..step
            };
            keep(
                best,
                Next {
                    score: score.wrapping_add(random.next() % 24),
                    node: Node {
                        parent,
                        step,
                        ..from
                    },
                },
            );
        }
        Ok(())
    }

    fn expand(
        &self,
        alloc: Global,
        store: &Store,
        parent: usize,
        random: &mut Random,
        nexts: &mut Vec<Next>,
    ) -> Result<(), AllocError> {
        let node = self.node(parent);
        let frame = Echelon::of(self.rows_of(&node));
        let mut best = [NO_NEXT; KEPT];
        for product in 0..store.made.len() {
            let from = Node { product, ..node };
            self.add_product(alloc, store, &frame, from, parent, random, &mut best)?;
        }
        for k in 0..KEPT {
            let next = at(&best, k, NO_NEXT);
            if next.score > 0 {
                nexts.push(next)?;
            }
        }
        Ok(())
    }

    // Makes a node, unless its span was seen.
    fn take(&mut self, alloc: Global, store: &Store, next: Next) -> Result<bool, AllocError> {
        let own = store.made(next.node.product).own;
        let rows = moved(alloc, self.rows_of(&next.node), &next.node.step, own)?;
        let key = Echelon::of(&rows).key();
        if self.seen.contains(&key) {
            return Ok(false);
        }
        self.seen.push(key)?;
        let first = self.rows.len();
        self.rows.extend_from_slice(&rows)?;
        self.nodes.push(Node {
            first,
            dimension: rows.len(),
            ..next.node
        })?;
        Ok(true)
    }

    // The nodes of the next level.
    fn advance(
        &mut self,
        alloc: Global,
        store: &Store,
        random: &mut Random,
    ) -> Result<(), AllocError> {
        let mut nexts = Vec::new(alloc);
        let front = Vec::from_slice(alloc, &self.front)?;
        for place in &front {
            self.expand(alloc, store, *place, random, &mut nexts)?;
            let dimension = self.node(*place).dimension;
            self.work = self.work.saturating_add(store.work(dimension));
        }
        nexts.sort_by_key(|next| u64::MAX - next.score)?;
        self.front.clear();
        for next in &nexts {
            if self.front.len() < BEAM && self.take(alloc, store, *next)? {
                self.front.push(self.nodes.len().saturating_sub(1))?;
            }
        }
        Ok(())
    }

    // A node of the front that has all outputs.
    fn done(&self, store: &Store) -> Option<usize> {
        for place in &self.front {
            let frame = Echelon::of(self.rows_of(&self.node(*place)));
            if store.is_done(&frame) {
                return Some(*place);
            }
        }
        None
    }

    // The nodes that lead to one, the last one first.
    fn path(&self, alloc: Global, place: usize) -> Result<Vec<Node>, AllocError> {
        let mut path = Vec::new(alloc);
        let mut next = place;
        for _ in 0..LEVELS {
            let node = self.node(next);
            if node.parent != NOWHERE {
                path.push(node)?;
                next = node.parent;
            }
        }
        Ok(path)
    }
}

// The steps of a path, with what is wanted of the forms.
fn steps_of(
    alloc: Global,
    task: &Task,
    store: &Store,
    path: &[Node],
) -> Result<Vec<Step>, AllocError> {
    let mut state = State::first(alloc, task)?;
    let mut steps = Vec::new(alloc);
    for k in 0..path.len() {
        let node = at(path, path.len() - 1 - k, NO_NODE);
        let word = at(&state.words, store.made(node.product).word, 0);
        let step = Step {
            want: node.step.values(word),
            ..node.step
        };
        state.go(&step);
        steps.push(step)?;
    }
    Ok(steps)
}

/// Steps that make all outputs by these products over at most so many coordinates, if they are found.
pub(crate) fn packed(
    alloc: Global,
    task: &Task,
    store: &Store,
    most_dimension: usize,
    weights: Weights,
    most_steps: usize,
    random: &mut Random,
    work: &mut u64,
) -> Result<Option<Vec<Step>>, AllocError> {
    if store.made.len() > MOST_MADE {
        return Ok(None);
    }
    let first = Node {
        dimension: task.inputs,
        ..NO_NODE
    };
    let mut packing = Packing {
        most_dimension,
        weights,
        nodes: vec![in alloc; first; 1]?,
        rows: inputs_of(alloc, task)?,
        front: vec![in alloc; 0usize; 1]?,
        seen: Vec::new(alloc),
        work: 0,
    };
    for _ in 0..LEVELS.min(most_steps) {
        packing.advance(alloc, store, random)?;
        *work = work.saturating_add(packing.work);
        packing.work = 0;
        if let Some(place) = packing.done(store) {
            let path = packing.path(alloc, place)?;
            return Ok(Some(steps_of(alloc, task, store, &path)?));
        }
    }
    Ok(None)
}
