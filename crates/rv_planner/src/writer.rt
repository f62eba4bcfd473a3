// The gates of an order of steps.
use crate::basis::Basis;
use crate::flip::{Flip, cancelled};
use crate::form::{FIRST, Form};
use crate::layout::{Layout, NO_LINE, is_in, set_of};
use crate::lists::{at, part, put_at};
use crate::order::{NONE, Order, Problem, Step};
use crate::taking::Taking;
use rv_gate::LineSet;
use std::alloc::{AllocError, Global};

// A product that is taken back other than it was added costs so many gates more.
const OTHERWISE: u32 = 20;

// How a product was added: by which two of its factors and their sum, and what stood on the target.
#[derive(Clone, Copy)]
struct Made {
    kind: u8,
    before: Form,
    from: usize,
    to: usize,
}

const NO_KIND: u8 = 0;

// A step as it is about to be made: the lines of its factors and of their sum, each with the bit that is wanted; the
// lines that it changes; and how it was made before, if it is taken back.
#[derive(Clone, Copy)]
struct Task {
    time: usize,
    step: Step,
    is_back: bool,
    sets: [LineSet; 2],
    wants: [bool; 3],
    changed: LineSet,
    made: Made,
}

// A way to make a step: the sum of the lines in `mask` is on the target, `before`, and the factors are on two hosts.
#[derive(Clone, Copy)]
struct Way {
    price: u32,
    target: u8,
    mask: LineSet,
    kind: u8,
    one: LineSet,
    other: LineSet,
    want_one: bool,
    want_other: bool,
    host: usize,
    before: Form,
}

/// Gates as they are written.
#[derive(Drop)]
pub(crate) struct Writer {
    inputs: usize,
    outputs: usize,
    keeps: bool,
    is_whole: bool,
    basis: Basis,
    flips: Vec<Flip>,
    // what is undone after a step, and what stands until a product is taken back
    around: Vec<Flip>,
    standing: Vec<Flip>,
    kept: Vec<Flip>,
    made: Vec<Made>,
}

fn no_way() -> Way {
    Way {
        price: u32::MAX,
        target: NO_LINE,
        mask: 0,
        kind: NO_KIND,
        one: 0,
        other: 0,
        want_one: false,
        want_other: false,
        host: 0,
        before: Form::zero(),
    }
}

fn not_made() -> Made {
    Made {
        kind: NO_KIND,
        before: Form::zero(),
        from: 0,
        to: 0,
    }
}

// The lines of another factor, where the lines of one are added to its host.
fn beside(one: LineSet, other: LineSet, host: usize) -> LineSet {
    if is_in(other, host) {
        other ^ (one & !set_of(host))
    } else {
        other
    }
}

// The first line of a set.
fn first_of(set: LineSet) -> usize {
    (set.trailing_zeros() % 64) as usize
}

fn size(set: LineSet) -> u32 {
    set.count_ones()
}

// The lines of a sum that don't name a target on which other lines stand too.
fn off_target(set: LineSet, target: u8, mask: LineSet) -> LineSet {
    if target == NO_LINE {
        return set;
    }
    let bit = set_of(usize::from(target));
    if set & bit == 0 {
        return set;
    }
    (set ^ (mask & !bit)) & !bit
}

impl Writer {
    fn new(
        alloc: Global,
        inputs: usize,
        outputs: usize,
        keeps: bool,
        steps: usize,
    ) -> Result<Writer, AllocError> {
        Ok(Writer {
            inputs,
            outputs,
            keeps,
            is_whole: true,
            basis: Basis::new(),
            flips: Vec::new(alloc),
            around: Vec::new(alloc),
            standing: Vec::new(alloc),
            kept: Vec::new(alloc),
            made: vec![in alloc; not_made(); steps]?,
        })
    }

    fn output(&self, output: usize) -> usize {
        self.inputs.saturating_add(output)
    }

    fn push(&mut self, flip: Flip) -> Result<(), AllocError> {
        self.flips.push(flip)?;
        Ok(())
    }

    // A CNOT that stands.
    fn push_standing(&mut self, flip: Flip) -> Result<(), AllocError> {
        self.basis
            .add(first_of(flip.care), usize::from(flip.target));
        self.push(flip)
    }

    // What outputs take between steps.
    fn push_taken(
        &mut self,
        layout: &Layout,
        taking: &Taking,
        time: usize,
    ) -> Result<(), AllocError> {
        for taken in taking.taken() {
            if taken.time == time {
                let to = self.output(taken.output);
                if taken.set == 0 {
                    self.push(Flip::not(to))?;
                }
                let lines = self.basis.read(taken.set);
                for line in 0..layout.lines {
                    if is_in(lines, line) {
                        self.push(Flip::cnot(line, to))?;
                    }
                }
            }
        }
        Ok(())
    }

    // A step as it is to be made; nothing where its factors don't stand.
    fn task_of(
        &self,
        problem: &Problem,
        layout: &Layout,
        order: &Order,
        time: usize,
    ) -> Option<Task> {
        let step = order.step(time);
        let factors = problem.factors(step.product);
        let mut sets = [0u64; 2];
        let forms = [factors.one, factors.other];
        for place in 0..2 {
            let form = forms[place].linear();
            let set = layout.lines_for(time, &form);
            let is_odd = size(set & layout.set(time)) % 2 == 1;
            if is_odd || !layout.sum(time, set).is(&form) {
                return None;
            }
            sets[place] = self.basis.read(set);
        }
        let (one, other) = (factors.one.constant, factors.other.constant);
        let is_back = step.partner != NONE && !order.is_make(time);
        let made = if is_back {
            at(&self.made, step.partner as usize, not_made())
        } else {
            not_made()
        };
        Some(Task {
            time,
            step,
            is_back,
            sets,
            wants: [!one, !other, one != other],
            changed: self.basis.odd(layout.set(time)),
            made,
        })
    }

    // The best host for one factor, if the other follows.
    fn offer_hosts(&self, way: Way, best: &mut Way) {
        for host in 0..64usize {
            if is_in(way.one, host) {
                let other = beside(way.one, way.other, host);
                if other & !set_of(host) != 0 {
                    let more = (size(way.one)
                        .saturating_add(size(other))
                        .saturating_sub(2)).saturating_mul(2);
                    let price = way.price.saturating_add(more);
                    if price < best.price {
                        *best = Way { price, host, ..way };
                    }
                }
            }
        }
    }

    // The best two of the factors and their sum.
    fn offer_pairs(&self, task: &Task, way: Way, best: &mut Way) {
        let one = off_target(task.sets[0], way.target, way.mask);
        let other = off_target(task.sets[1], way.target, way.mask);
        let sets = [one, other, one ^ other];
        let after = way.before.with(step_column(&task.step));
        for x in 0..3usize {
            for y in 0..3usize {
                if x != y {
                    let kind = 1u8 << x | 1u8 << y;
                    let same = task.made.kind == kind && task.made.before.is(&after);
                    let more = if task.made.kind == NO_KIND || same {
                        0
                    } else {
                        OTHERWISE
                    };
                    let next = Way {
                        price: way.price.saturating_add(more),
                        kind,
                        one: sets[x],
                        other: sets[y],
                        want_one: task.wants[x],
                        want_other: task.wants[y],
                        ..way
                    };
                    self.offer_hosts(next, best);
                }
            }
        }
    }

    // The sum of what lines hold.
    fn held(&self, layout: &Layout, time: usize, mask: LineSet) -> Form {
        let mut held = Form::zero();
        for line in 0..layout.lines {
            if is_in(mask, line) {
                held = held.plus(layout.sum(time, self.basis.sum(line)));
            }
        }
        held
    }

    // Ways with a target to which the other lines of a set are added.
    fn offer_target(
        &self,
        layout: &Layout,
        task: &Task,
        target: usize,
        mask: LineSet,
        best: &mut Way,
    ) {
        let cnots = (size(mask).saturating_add(size(task.changed))).saturating_sub(2);
        let way = Way {
            price: cnots.saturating_mul(2),
            target: (target % 64) as u8,
            mask,
            before: self.held(layout, task.time, mask),
            ..no_way()
        };
        self.offer_pairs(task, way, best);
    }

    // The lines whose sum is what the target of a product held when it was added, and the product.
    fn mask_back(&self, layout: &Layout, task: &Task) -> LineSet {
        if task.made.kind == NO_KIND {
            return 0;
        }
        let set = layout.lines_for(task.time, &task.made.before);
        let due = task.made.before.with(step_column(&task.step));
        let mask = self.basis.read(set);
        if layout.sum(task.time, set).is(&due) && size(mask & task.changed) % 2 == 1 {
            mask
        } else {
            0
        }
    }

    // The best way to make a step.
    fn way_of(&self, layout: &Layout, task: &Task) -> Way {
        let mut best = no_way();
        if task.changed == 0 {
            let way = Way {
                price: 0,
                ..no_way()
            };
            self.offer_pairs(task, way, &mut best);
            return best;
        }
        let back = self.mask_back(layout, task);
        for target in 0..layout.lines {
            if is_in(task.changed, target) {
                self.offer_target(layout, task, target, set_of(target), &mut best);
            }
        }
        for target in 0..layout.lines {
            if is_in(task.changed & back, target) {
                self.offer_target(layout, task, target, back, &mut best);
            }
        }
        best
    }

    // CNOTs from all lines of a set to one of them.
    fn gather(&mut self, set: LineSet, host: usize) -> Result<(), AllocError> {
        for line in 0..64usize {
            if is_in(set, line) && line != host {
                self.around.push(Flip::cnot(line, host))?;
            }
        }
        Ok(())
    }

    // CNOTs from the target to the other lines that are changed.
    fn spread(&mut self, task: &Task, way: &Way) -> Result<(), AllocError> {
        let target = usize::from(way.target);
        for line in 0..64usize {
            if is_in(task.changed, line) && line != target {
                let flip = Flip::cnot(target, line);
                if task.is_back || size(way.mask) > 1 {
                    self.around.push(flip)?;
                } else {
                    self.standing.push(flip)?;
                }
            }
        }
        Ok(())
    }

    // The CNOTs of a step, and its gate.
    fn prepare(&mut self, task: &Task, way: &Way) -> Result<Flip, AllocError> {
        self.around.clear();
        self.standing.clear();
        if way.target != NO_LINE {
            self.gather(way.mask, usize::from(way.target))?;
            self.spread(task, way)?;
        }
        let other = beside(way.one, way.other, way.host);
        let host = first_of(other & !set_of(way.host));
        self.gather(way.one, way.host)?;
        self.gather(other, host)?;
        let (one, two) = (set_of(way.host), set_of(host));
        let wanted = if way.want_one { one } else { 0 } | if way.want_other { two } else { 0 };
        Ok(Flip {
            care: one | two,
            want: wanted,
            target: way.target,
            number: task.step.product,
        })
    }

    // What stands until the product is taken back.
    fn keep(&mut self, task: &Task, way: &Way) -> Result<(), AllocError> {
        if self.keeps {
            self.standing.extend_from_slice(&self.around)?;
            self.around.clear();
        }
        let from = self.kept.len();
        self.kept.extend_from_slice(&self.standing)?;
        let made = Made {
            kind: way.kind,
            before: way.before,
            from,
            to: self.kept.len(),
        };
        put_at(&mut self.made, task.time, made);
        Ok(())
    }

    // The CNOTs that stand.
    fn push_all_standing(&mut self) -> Result<(), AllocError> {
        for place in 0..self.standing.len() {
            let flip = at(&self.standing, place, Flip::not(0));
            self.push_standing(flip)?;
        }
        Ok(())
    }

    // Takes back what stood.
    fn push_back(&mut self, made: Made) -> Result<(), AllocError> {
        let count = part(&self.kept, made.from, made.to).len();
        for place in (0..count).rev() {
            let flip = at(&self.kept, made.from.saturating_add(place), Flip::not(0));
            self.push_standing(flip)?;
        }
        Ok(())
    }

    // CNOTs from a line to outputs.
    fn copy(&mut self, from: usize, outputs: u64) -> Result<(), AllocError> {
        for output in 0..self.outputs.min(64) {
            if is_in(outputs, output) {
                let to = self.output(output);
                self.push(Flip::cnot(from, to))?;
            }
        }
        Ok(())
    }

    // The gate of a step, and the CNOTs to the outputs that take its product.
    fn push_gate(
        &mut self,
        task: &Task,
        way: &Way,
        gate: Flip,
        outputs: u64,
    ) -> Result<(), AllocError> {
        let (mut rest, mut target) = (outputs, usize::from(way.target));
        let (mut before, mut after) = (false, false);
        if way.target == NO_LINE {
            let first = first_of(outputs);
            rest = outputs & !set_of(first);
            target = self.output(first);
        } else {
            before = way.before.is(&Form::zero());
            after = way.before.with(step_column(&task.step)).is(&Form::zero());
        }
        if !before {
            self.copy(target, rest)?;
        }
        self.push(Flip {
            target: (target % 64) as u8,
            ..gate
        })?;
        if !after {
            self.copy(target, rest)?;
        }
        Ok(())
    }

    // A step in a way.
    fn push_way(&mut self, task: &Task, way: &Way, outputs: u64) -> Result<(), AllocError> {
        let gate = self.prepare(task, way)?;
        if task.step.partner != NONE && !task.is_back {
            self.keep(task, way)?;
        }
        self.push_all_standing()?;
        self.flips.extend_from_slice(&self.around)?;
        self.push_gate(task, way, gate, outputs)?;
        for place in (0..self.around.len()).rev() {
            let flip = at(&self.around, place, Flip::not(0));
            self.push(flip)?;
        }
        if task.is_back {
            self.push_back(task.made)?;
        }
        Ok(())
    }

    // A step.
    fn push_step(
        &mut self,
        problem: &Problem,
        layout: &Layout,
        order: &Order,
        taking: &Taking,
        time: usize,
    ) -> Result<(), AllocError> {
        let Some(task) = self.task_of(problem, layout, order, time) else {
            self.is_whole = false;
            return Ok(());
        };
        let outputs = taking.outputs(time);
        if layout.set(time) == 0 && outputs == 0 {
            return Ok(());
        }
        let way = self.way_of(layout, &task);
        if way.price == u32::MAX {
            self.is_whole = false;
            return Ok(());
        }
        self.push_way(&task, &way, outputs)
    }

    // A CNOT that brings a line back.
    fn push_last(&mut self, from: usize, to: usize) -> Result<(), AllocError> {
        self.push_standing(Flip::cnot(from, to))
    }

    // Each line is as it was in the plan.
    fn end(&mut self, lines: usize) -> Result<(), AllocError> {
        for line in 0..lines {
            for other in line.saturating_add(1)..lines {
                if !is_in(self.basis.sum(line), line) && is_in(self.basis.sum(other), line) {
                    self.push_last(other, line)?;
                }
            }
            for other in 0..lines {
                if other != line && is_in(self.basis.sum(other), line) {
                    self.push_last(line, other)?;
                }
            }
        }
        Ok(())
    }
}

// The column of a step's product.
fn step_column(step: &Step) -> usize {
    (step.product as usize).saturating_add(FIRST)
}

/// The gates of an order, if it can be made so. `keeps`: whether the factors stay on their hosts while a product stands.
pub(crate) fn write(
    alloc: Global,
    sizes: (usize, usize),
    problem: &Problem,
    layout: &Layout,
    order: &Order,
    taking: &Taking,
    keeps: bool,
) -> Result<Option<Vec<Flip>>, AllocError> {
    let (inputs, outputs) = sizes;
    let mut writer = Writer::new(alloc, inputs, outputs, keeps, order.len())?;
    for time in 0..order.len() {
        writer.push_taken(layout, taking, time)?;
        writer.push_step(problem, layout, order, taking, time)?;
    }
    writer.push_taken(layout, taking, order.len())?;
    writer.end(layout.lines)?;
    if !writer.is_whole {
        return Ok(None);
    }
    let flips = cancelled(alloc, writer.flips)?;
    Ok(Some(flips))
}
