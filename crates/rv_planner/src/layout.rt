// On which lines products stand.
use crate::form::{FIRST, Form, MOST_PRODUCTS};
use crate::lists::{at, put_at};
use crate::net::Net;
use crate::order::{NONE, Order, Problem};
use crate::solver::Solver;
use rv_gate::{LineSet, MOST_LINES};
use std::alloc::{AllocError, Global};

/// No line.
pub(crate) const NO_LINE: u8 = u8::MAX;

/// For each step the lines whose sum it changes the product by, and its own line, if it takes one; the number of all
/// lines; and for each line what stands there after each number of steps, and for each product its own line.
#[derive(Drop)]
pub(crate) struct Layout {
    pub(crate) lines: usize,
    pub(crate) extra: usize,
    /// Whether there are lines enough.
    pub(crate) is_whole: bool,
    sets: Vec<LineSet>,
    own: Vec<u8>,
    held: Vec<Form>,
    standing: Vec<u8>,
}

/// The line of a set with a line.
pub(crate) fn set_of(line: usize) -> LineSet {
    1u64 << (line % 64)
}

/// Whether a line is in a set.
pub(crate) fn is_in(set: LineSet, line: usize) -> bool {
    set >> (line % 64) & 1 == 1
}

// What is known while steps are gone through: the lines of products, and the work lines that are in use.
#[derive(Drop)]
struct Placing {
    sets: [LineSet; MOST_PRODUCTS],
    busy: LineSet,
    first: usize,
}

impl Layout {
    fn new(alloc: Global, first: usize) -> Layout {
        Layout {
            lines: first,
            extra: 0,
            is_whole: first <= usize::from(MOST_LINES),
            sets: Vec::new(alloc),
            own: Vec::new(alloc),
            held: Vec::new(alloc),
            standing: Vec::new(alloc),
        }
    }

    /// The lines that a step changes.
    pub(crate) fn set(&self, place: usize) -> LineSet {
        at(&self.sets, place, 0)
    }

    /// The line that the product of a step has for itself.
    fn own_line(&self, place: usize) -> u8 {
        at(&self.own, place, NO_LINE)
    }

    /// What a line holds after so many steps.
    pub(crate) fn held(&self, time: usize, line: usize) -> Form {
        let place = time.saturating_mul(self.lines).saturating_add(line);
        at(&self.held, place, Form::zero())
    }

    /// The line that a product has for itself after so many steps.
    fn line_of(&self, time: usize, product: usize) -> u8 {
        let place = time.saturating_mul(MOST_PRODUCTS).saturating_add(product);
        at(&self.standing, place, NO_LINE)
    }

    /// Whether a product has a line for itself after so many steps.
    pub(crate) fn is_alone(&self, time: usize, product: usize) -> bool {
        self.line_of(time, product) != NO_LINE
    }

    /// The lines whose sum is a form after so many steps: those of inputs, and of products that have one.
    pub(crate) fn lines_for(&self, time: usize, form: &Form) -> LineSet {
        let mut set = form.input_bits();
        for product in 0..MOST_PRODUCTS {
            if form.has(product + FIRST) {
                let line = self.line_of(time, product);
                if line != NO_LINE {
                    set ^= set_of(usize::from(line));
                }
            }
        }
        set
    }

    /// The sum of what lines hold after so many steps.
    pub(crate) fn sum(&self, time: usize, set: LineSet) -> Form {
        let mut sum = Form::zero();
        for line in 0..self.lines {
            if is_in(set, line) {
                sum = sum.plus(self.held(time, line));
            }
        }
        sum
    }

    // A line that is not in use.
    fn free_line(&mut self, placing: &mut Placing) -> u8 {
        for extra in 0..usize::from(MOST_LINES).saturating_sub(placing.first) {
            if !is_in(placing.busy, extra) {
                placing.busy |= set_of(extra);
                self.extra = self.extra.max(extra.saturating_add(1));
                return (placing.first.saturating_add(extra)).min(63) as u8;
            }
        }
        self.is_whole = false;
        NO_LINE
    }

    fn push(&mut self, set: LineSet, line: u8) -> Result<(), AllocError> {
        self.sets.push(set)?;
        self.own.push(line)?;
        Ok(())
    }

    // A product is added.
    fn push_make(
        &mut self,
        placing: &mut Placing,
        product: usize,
        solution: Option<Form>,
    ) -> Result<(), AllocError> {
        let mut line = NO_LINE;
        let set = match solution {
            Some(columns) => {
                let mut set = columns.input_bits();
                for other in 0..MOST_PRODUCTS {
                    if columns.has(other + FIRST) {
                        set ^= placing.sets[other];
                    }
                }
                set
            }
            None => {
                line = self.free_line(placing);
                set_of(usize::from(line))
            }
        };
        put_at(&mut placing.sets, product, set);
        self.push(set, line)
    }

    // A product is taken back that was added at a place.
    fn push_back(&mut self, placing: &mut Placing, made: usize) -> Result<(), AllocError> {
        let line = self.own_line(made);
        if line != NO_LINE {
            let extra = usize::from(line).saturating_sub(placing.first);
            placing.busy &= !set_of(extra);
        }
        let set = self.set(made);
        self.push(set, line)
    }

    // The lines of all steps.
    fn place_all(
        &mut self,
        problem: &Problem,
        order: &Order,
        solver: &mut Solver,
    ) -> Result<(), AllocError> {
        let mut placing = Placing {
            sets: [0; MOST_PRODUCTS],
            busy: 0,
            first: self.lines,
        };
        for place in 0..order.len() {
            let step = order.step(place);
            if step.partner == NONE {
                self.push(0, NO_LINE)?;
            } else if order.is_make(place) {
                let solution = solver.solution(problem, order, place)?;
                self.push_make(&mut placing, step.product as usize, solution)?;
            } else {
                self.push_back(&mut placing, step.partner as usize)?;
            }
        }
        self.lines = self.lines.saturating_add(self.extra);
        Ok(())
    }

    // What stands at the beginning.
    fn push_first(&mut self, inputs: usize) -> Result<(), AllocError> {
        for line in 0..self.lines {
            self.held.push(if line < inputs {
                Form::of(line)
            } else {
                Form::zero()
            })?;
        }
        for _ in 0..MOST_PRODUCTS {
            self.standing.push(NO_LINE)?;
        }
        Ok(())
    }

    // What stands after a step more.
    fn push_next(&mut self, order: &Order, place: usize) -> Result<(), AllocError> {
        let step = order.step(place);
        let column = Form::of((step.product as usize).saturating_add(FIRST));
        let set = self.set(place);
        for line in 0..self.lines {
            let held = self.held(place, line);
            self.held.push(if is_in(set, line) {
                held.plus(column)
            } else {
                held
            })?;
        }
        let own = if order.is_make(place) {
            self.own_line(place)
        } else {
            NO_LINE
        };
        for product in 0..MOST_PRODUCTS {
            let before = self.line_of(place, product);
            let is_it = product == step.product as usize;
            self.standing.push(if is_it { own } else { before })?;
        }
        Ok(())
    }
}

/// Where the steps of an order stand.
pub(crate) fn layout_of(
    alloc: Global,
    net: &Net,
    problem: &Problem,
    order: &Order,
    solver: &mut Solver,
) -> Result<Layout, AllocError> {
    let first = net.inputs.saturating_add(net.outs.len());
    let mut layout = Layout::new(alloc, first);
    if !layout.is_whole {
        return Ok(layout);
    }
    layout.place_all(problem, order, solver)?;
    layout.push_first(net.inputs)?;
    for place in 0..order.len() {
        layout.push_next(order, place)?;
    }
    Ok(layout)
}
