// When outputs are added to their lines: by CNOTs from lines whose sum has much of them, or with a product as it is added.
use crate::form::{FIRST, Form, MOST_PRODUCTS};
use crate::layout::{Layout, set_of};
use crate::lists::{at, put_at};
use crate::net::Net;
use crate::order::{NONE, Order, Problem};
use rv_gate::LineSet;
use std::alloc::{AllocError, Global};

/// After so many steps lines are added to an output; or 1, if there are none.
#[derive(Clone, Copy)]
pub(crate) struct Taken {
    pub(crate) time: usize,
    pub(crate) set: LineSet,
    pub(crate) output: usize,
}

/// All that is taken between steps, and of each step the outputs that take its product.
#[derive(Drop)]
pub(crate) struct Taking {
    taken: Vec<Taken>,
    with_step: Vec<u64>,
}

// Lines after so many steps, and what they are worth.
#[derive(Clone, Copy)]
struct Choice {
    time: usize,
    set: LineSet,
    worth: i64,
}

fn inputs_of(form: &Form) -> i64 {
    i64::from(form.input_bits().count_ones())
}

fn products_of(form: &Form) -> i64 {
    i64::from(form.products().weight())
}

// The CNOTs that lines save: two for each product, one for each input.
fn worth_of(layout: &Layout, time: usize, set: LineSet, rest: &Form) -> i64 {
    let left = rest.plus(layout.sum(time, set));
    let gain = products_of(rest).saturating_sub(products_of(&left));
    if set == 0 || gain <= 0 {
        return 0;
    }
    let inputs = inputs_of(rest).saturating_sub(inputs_of(&left));
    (gain.saturating_mul(2))
        .saturating_add(inputs)
        .saturating_sub(i64::from(set.count_ones()))
}

fn offer(layout: &Layout, time: usize, set: LineSet, rest: &Form, best: &mut Choice) {
    let worth = worth_of(layout, time, set, rest);
    if worth > best.worth {
        *best = Choice { time, set, worth };
    }
}

// The products of a form that have a line for themselves.
fn alone(layout: &Layout, time: usize, rest: &Form) -> Form {
    let mut alone = Form::zero();
    for product in 0..MOST_PRODUCTS {
        let column = product + FIRST;
        if rest.has(column) && layout.is_alone(time, product) {
            alone = alone.with(column);
        }
    }
    alone
}

// The best lines after so many steps.
fn offer_at(layout: &Layout, time: usize, rest: &Form, best: &mut Choice) {
    offer(layout, time, layout.lines_for(time, rest), rest, best);
    for line in 0..layout.lines {
        let shared = layout.held(time, line).within(rest.products());
        if !shared.is_empty() {
            offer(layout, time, set_of(line), rest, best);
        }
    }
    let alone = alone(layout, time, rest);
    offer(layout, time, layout.lines_for(time, &alone), rest, best);
}

// The first step of a product.
fn first_step(order: &Order, product: usize) -> usize {
    for place in 0..order.len() {
        if order.step(place).product as usize == product {
            return place;
        }
    }
    NONE as usize
}

impl Taking {
    fn new(alloc: Global, order: &Order) -> Result<Taking, AllocError> {
        Ok(Taking {
            taken: Vec::new(alloc),
            with_step: vec![in alloc; 0; order.len()]?,
        })
    }

    /// What is taken between steps.
    pub(crate) fn taken(&self) -> &[Taken] {
        &self.taken
    }

    /// The outputs that take the product of a step.
    pub(crate) fn outputs(&self, place: usize) -> u64 {
        at(&self.with_step, place, 0)
    }

    // An output takes a product with its first step.
    fn take_product(&mut self, order: &Order, column: usize, output: usize) {
        let place = first_step(order, column.saturating_sub(FIRST));
        let outputs = self.outputs(place) ^ set_of(output);
        put_at(&mut self.with_step, place, outputs);
    }

    // The products that only outputs need.
    fn take_outer(&mut self, problem: &Problem, order: &Order, out: Form, output: usize) -> Form {
        let mut rest = out;
        for product in 0..MOST_PRODUCTS {
            let column = product + FIRST;
            if rest.has(column) && !problem.is_inner(product as u32) {
                self.take_product(order, column, output);
                rest = rest.with(column);
            }
        }
        rest
    }

    fn push(&mut self, time: usize, set: LineSet, output: usize) -> Result<(), AllocError> {
        self.taken.push(Taken { time, set, output })?;
        Ok(())
    }

    // One part more of an output; what is left.
    fn take_part(
        &mut self,
        layout: &Layout,
        order: &Order,
        rest: Form,
        output: usize,
    ) -> Result<Form, AllocError> {
        let mut best = Choice {
            time: 0,
            set: 0,
            worth: 0,
        };
        for time in 0..=order.len() {
            offer_at(layout, time, &rest, &mut best);
        }
        if best.worth > 0 {
            self.push(best.time, best.set, output)?;
            return Ok(rest.plus(layout.sum(best.time, best.set)));
        }
        let Some(column) = rest.products().first() else {
            return Ok(rest);
        };
        self.take_product(order, column, output);
        Ok(rest.with(column))
    }

    // All of an output.
    fn take(
        &mut self,
        problem: &Problem,
        layout: &Layout,
        order: &Order,
        out: Form,
        output: usize,
    ) -> Result<(), AllocError> {
        let mut rest = self.take_outer(problem, order, out.linear(), output);
        for _ in 0..MOST_PRODUCTS {
            if !rest.products().is_empty() {
                rest = self.take_part(layout, order, rest, output)?;
            }
        }
        if rest.input_bits() != 0 {
            self.push(0, rest.input_bits(), output)?;
        }
        if out.constant {
            self.push(0, 0, output)?;
        }
        Ok(())
    }
}

/// When the outputs of a network are taken.
pub(crate) fn taking_of(
    alloc: Global,
    net: &Net,
    problem: &Problem,
    layout: &Layout,
    order: &Order,
) -> Result<Taking, AllocError> {
    let mut taking = Taking::new(alloc, order)?;
    for output in 0..net.outs.len() {
        let out = at(&net.outs, output, Form::zero());
        taking.take(problem, layout, order, out, output)?;
    }
    Ok(taking)
}
