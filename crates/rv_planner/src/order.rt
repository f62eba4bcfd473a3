// The order in which products are added to lines and taken back.
use crate::form::{FIRST, Form};
use crate::lists::at;
use crate::net::{Factors, Net};
use std::alloc::{AllocError, Global};

/// No step, and no product.
pub(crate) const NONE: u32 = u32::MAX;

/// A product is added, or taken back: with its partner, the other of these two, as long as there is one. Where it is
/// added it takes a line of its own, or stands on those of others.
#[derive(Clone, Copy)]
pub(crate) struct Step {
    pub(crate) product: u32,
    pub(crate) partner: u32,
    pub(crate) own: bool,
}

/// No step at all.
pub(crate) const NO_STEP: Step = Step {
    product: NONE,
    partner: NONE,
    own: false,
};

/// The products that outputs need, by their factors; those that other products need; and whether products may stand on
/// the lines of inputs.
#[derive(Drop)]
pub(crate) struct Problem {
    pub(crate) inputs: Form,
    pub(crate) products: Vec<Factors>,
    pub(crate) needed: Form,
    pub(crate) inner: Form,
    pub(crate) on_inputs: bool,
}

impl Problem {
    /// The problem of a network.
    pub(crate) fn new(alloc: Global, net: &Net, on_inputs: bool) -> Result<Problem, AllocError> {
        let needed = net.needed();
        let mut inner = Form::zero();
        for number in 0..net.products.len() {
            if needed.has(number.saturating_add(FIRST)) {
                inner = inner.either(net.product(number).needs());
            }
        }
        Ok(Problem {
            inputs: Form::inputs(net.inputs),
            products: Vec::from_slice(alloc, &net.products)?,
            needed,
            inner,
            on_inputs,
        })
    }

    /// The factors of a product.
    #[inline(always)]
    pub(crate) fn factors(&self, product: u32) -> Factors {
        at(&self.products, product as usize, Factors::none())
    }

    /// Whether another product needs this one.
    #[inline(always)]
    pub(crate) fn is_inner(&self, product: u32) -> bool {
        self.inner.has((product as usize).saturating_add(FIRST))
    }

    /// Whether a product has another in a factor.
    pub(crate) fn needs(&self, product: u32, other: u32) -> bool {
        let column = (other as usize).saturating_add(FIRST);
        let factors = self.factors(product);
        factors.one.has(column) || factors.other.has(column)
    }
}

/// The column of a product.
#[inline(always)]
pub(crate) fn column_of(product: u32) -> usize {
    (product as usize).saturating_add(FIRST)
}

/// Steps, the first one first.
#[derive(Drop)]
pub(crate) struct Order {
    pub(crate) steps: Vec<Step>,
}

impl Order {
    pub(crate) fn new(alloc: Global) -> Order {
        Order {
            steps: Vec::new(alloc),
        }
    }

    /// The step at a place.
    #[inline(always)]
    pub(crate) fn step(&self, place: usize) -> Step {
        at(&self.steps, place, NO_STEP)
    }

    pub(crate) fn len(&self) -> usize {
        self.steps.len()
    }

    /// Adds steps of another order.
    pub(crate) fn extend(&mut self, steps: &[Step]) -> Result<(), AllocError> {
        self.steps.extend_from_slice(steps)
    }

    /// Adds a step.
    pub(crate) fn push(&mut self, product: u32) -> Result<(), AllocError> {
        self.steps.push(Step {
            product,
            partner: NONE,
            own: true,
        })?;
        Ok(())
    }

    /// The steps of another order.
    pub(crate) fn assign(&mut self, other: &Order) -> Result<(), AllocError> {
        self.steps.clear();
        self.steps.extend_from_slice(&other.steps)
    }

    /// Whether a product is added that is taken back.
    #[inline(always)]
    pub(crate) fn is_make(&self, place: usize) -> bool {
        let partner = self.step(place).partner;
        partner != NONE && partner as usize > place
    }

    /// What the steps cost, about, in T gates.
    pub(crate) fn price(&self) -> i64 {
        let mut price = 0i64;
        for place in 0..self.steps.len() {
            if self.step(place).partner == NONE {
                price = price.saturating_add(7);
            } else if self.is_make(place) {
                price = price.saturating_add(8);
            }
        }
        price
    }
}

/// All products that are needed are added, and those that others need are taken back.
pub(crate) fn first_order(alloc: Global, problem: &Problem) -> Result<Order, AllocError> {
    let mut order = Order::new(alloc);
    let count = problem.products.len().min(NONE as usize);
    for product in 0..count {
        if problem.needed.has(product.saturating_add(FIRST)) {
            order.push(product as u32)?;
        }
    }
    for product in (0..count).rev() {
        if problem.is_inner(product as u32) {
            order.push(product as u32)?;
        }
    }
    Ok(order)
}
