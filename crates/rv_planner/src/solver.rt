// Which products need no line of their own: each stands where a sum of inputs and of products around it agrees with it in
// all factors that it meets.
use crate::form::{COLUMNS, Form, MOST_PRODUCTS};
use crate::lists::{at, put_at};
use crate::order::{NONE, Order, Problem, Step, column_of};
use std::alloc::{AllocError, Global};

// An equation: the sum of these columns is its constant. It tells its first column.
#[derive(Clone, Copy)]
struct Equation {
    row: Form,
    first: usize,
}

/// Equations that are being solved, and what is known of products at a time.
#[derive(Drop)]
pub(crate) struct Solver {
    equations: Vec<Equation>,
    // of each product when it was looked at last, and its last step
    seen: Vec<u32>,
    last: Vec<u32>,
    now: u32,
    /// How much was done, about.
    pub(crate) effort: u64,
}

impl Solver {
    pub(crate) fn new(alloc: Global) -> Result<Solver, AllocError> {
        Ok(Solver {
            equations: Vec::new(alloc),
            seen: vec![in alloc; 0; MOST_PRODUCTS]?,
            last: vec![in alloc; NONE; MOST_PRODUCTS]?,
            now: 0,
            effort: 0,
        })
    }

    fn spend(&mut self, steps: usize) {
        self.effort = self.effort.saturating_add(steps as u64);
    }

    /// Finds the partner of each step.
    pub(crate) fn match_steps(&mut self, problem: &Problem, order: &mut Order) {
        for product in 0..MOST_PRODUCTS {
            put_at(&mut self.last, product, NONE);
        }
        for place in 0..order.len().min(NONE as usize) {
            let step = order.step(place);
            let mut partner = NONE;
            if problem.is_inner(step.product) {
                let product = step.product as usize;
                partner = at(&self.last, product, NONE);
                if partner == NONE {
                    put_at(&mut self.last, product, place as u32);
                } else {
                    let other = order.step(partner as usize);
                    let made = Step {
                        partner: place as u32,
                        ..other
                    };
                    put_at(&mut order.steps, partner as usize, made);
                    put_at(&mut self.last, product, NONE);
                }
            }
            put_at(&mut order.steps, place, Step { partner, ..step });
        }
        self.spend(order.len());
    }

    // An equation without the first columns of others.
    #[inline(always)]
    fn reduced(&self, row: Form) -> Form {
        let mut row = row;
        for equation in &self.equations {
            if row.has(equation.first) {
                row = row.plus(equation.row);
            }
        }
        row
    }

    // An equation more. `false` where it contradicts the others.
    #[inline(always)]
    fn push_equation(&mut self, row: Form) -> Result<bool, AllocError> {
        let row = self.reduced(row);
        let count = self.equations.len();
        self.spend(count);
        let Some(first) = row.first() else {
            return Ok(!row.constant);
        };
        self.equations.push(Equation { row, first })?;
        Ok(true)
    }

    // The columns on whose lines the product that is added at a step may stand.
    fn around(&mut self, problem: &Problem, order: &Order, place: usize) -> Form {
        let mut columns = if problem.on_inputs {
            problem.inputs
        } else {
            Form::zero()
        };
        let end = order.step(place).partner;
        for before in 0..place.min(order.len()) {
            let step = order.step(before);
            if step.partner != NONE && step.partner > end {
                columns = columns.with(column_of(step.product));
            }
        }
        self.spend(place);
        columns
    }

    // Whether a product is looked at for the first time.
    fn is_new(&mut self, product: u32) -> bool {
        let is_new = at(&self.seen, product as usize, 0) != self.now;
        put_at(&mut self.seen, product as usize, self.now);
        is_new
    }

    /// Whether the product that is added at a step needs no line of its own.
    pub(crate) fn fits(
        &mut self,
        problem: &Problem,
        order: &Order,
        place: usize,
    ) -> Result<bool, AllocError> {
        let columns = self.around(problem, order, place);
        if columns.is_empty() {
            return Ok(false);
        }
        self.equations.clear();
        self.now = self.now.wrapping_add(1);
        let step = order.step(place);
        let own = column_of(step.product);
        let end = (step.partner as usize).saturating_add(1);
        for there in place..end.min(order.len()) {
            let product = order.step(there).product;
            if self.is_new(product) {
                let factors = problem.factors(product);
                for form in [factors.one, factors.other] {
                    let row = form.within(columns).linear().turned(form.has(own));
                    if !self.push_equation(row)? {
                        return Ok(false);
                    }
                }
            }
        }
        Ok(true)
    }

    // Takes the first column of each equation out of those before it.
    fn back_substitute(&mut self) {
        for later in (0..self.equations.len()).rev() {
            let none = Equation {
                row: Form::zero(),
                first: COLUMNS,
            };
            let known = at(&self.equations, later, none);
            for before in 0..later {
                let equation = at(&self.equations, before, none);
                if equation.row.has(known.first) {
                    let row = equation.row.plus(known.row);
                    put_at(&mut self.equations, before, Equation { row, ..equation });
                }
            }
        }
    }

    // Another solution, with one free column more or less.
    fn other_solution(&self, solution: Form, column: usize) -> Form {
        let mut other = solution.with(column);
        for equation in &self.equations {
            if equation.row.has(column) {
                other = other.with(equation.first);
            }
        }
        other
    }

    fn is_free(&self, column: usize) -> bool {
        self.equations
            .iter()
            .all(|equation| equation.first != column)
    }

    // One pass of exchanges of a free column that makes a solution lighter.
    fn lightened(&self, columns: Form, solution: Form) -> Form {
        let mut best = solution;
        for column in 0..COLUMNS {
            if columns.has(column) && self.is_free(column) {
                let other = self.other_solution(best, column);
                if weight_of(&other) < weight_of(&best) {
                    best = other;
                }
            }
        }
        best
    }

    // The solution without free columns.
    fn first_solution(&self) -> Form {
        let mut solution = Form::zero();
        for equation in &self.equations {
            if equation.row.constant {
                solution = solution.with(equation.first);
            }
        }
        solution
    }

    // A solution that no exchange of a free column makes lighter.
    fn lightest(&self, columns: Form) -> Form {
        let mut solution = self.first_solution();
        for _ in 0..COLUMNS {
            let lighter = self.lightened(columns, solution);
            if lighter.is(&solution) {
                return solution;
            }
            solution = lighter;
        }
        solution
    }

    /// The columns on whose lines the product stands, where it fits.
    pub(crate) fn solution(
        &mut self,
        problem: &Problem,
        order: &Order,
        place: usize,
    ) -> Result<Option<Form>, AllocError> {
        if !self.fits(problem, order, place)? {
            return Ok(None);
        }
        self.back_substitute();
        let columns = self.around(problem, order, place);
        Ok(Some(self.lightest(columns)))
    }

    /// Looks again which products need a line of their own, of those that begin or end from one place to another.
    pub(crate) fn refresh(
        &mut self,
        problem: &Problem,
        order: &mut Order,
        low: usize,
        high: usize,
    ) -> Result<(), AllocError> {
        for place in 0..order.len() {
            let step = order.step(place);
            let end = step.partner as usize;
            let is_near = low <= place && place <= high || low <= end && end <= high;
            if order.is_make(place) && is_near {
                let own = !self.fits(problem, order, place)?;
                put_at(&mut order.steps, place, Step { own, ..step });
            }
        }
        self.spend(order.len());
        Ok(())
    }
}

// What a solution weighs: an input's line is touched twice.
fn weight_of(columns: &Form) -> u32 {
    columns
        .weight()
        .saturating_add(columns.input_bits().count_ones())
}
