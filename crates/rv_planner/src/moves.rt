// Changes of an order of steps, by chance.
use crate::form::Form;
use crate::lists::part;
use crate::order::{NONE, Order, Problem, column_of};
use crate::random::Random;
use std::alloc::{AllocError, Global};

/// The places from one to another where an order is changed.
#[derive(Clone, Copy)]
pub(crate) struct Range {
    pub(crate) low: usize,
    pub(crate) high: usize,
}

/// Chance, and the order that it makes of another.
#[derive(Drop)]
pub(crate) struct Mover {
    random: Random,
    /// The order that a change gave.
    pub(crate) next: Order,
}

// Where a move's result is looked at.
fn looked_at(low: usize, high: usize) -> Option<Range> {
    Some(Range { low, high })
}

// Whether the factors of each step stand, from one place to another.
fn are_standing(problem: &Problem, order: &Order, low: usize, high: usize) -> bool {
    let mut standing = Form::zero();
    for place in 0..order.len().min(high.saturating_add(1)) {
        let product = order.step(place).product;
        if place >= low {
            if !problem.factors(product).needs().is_within(&standing) {
                return false;
            }
        }
        if problem.is_inner(product) {
            standing = standing.with(column_of(product));
        }
    }
    true
}

impl Mover {
    pub(crate) fn new(alloc: Global, seed: u16) -> Mover {
        Mover {
            random: Random::new(seed),
            next: Order::new(alloc),
        }
    }

    // A number below a bound, or 0.
    fn below(&mut self, bound: usize) -> usize {
        if bound == 0 {
            0
        } else {
            self.random.below(bound)
        }
    }

    /// Whether a change is taken that makes things worse by so much, at a temperature: both in the same unit.
    pub(crate) fn takes(&mut self, worse: i64, temperature: i64) -> bool {
        if worse <= 0 {
            return true;
        }
        let chance = self.random.next() << 11;
        let zeros = u64::from(chance.leading_zeros().min(63));
        let fraction = (chance << zeros >> 55) & 255;
        // the logarithm of the chance, in parts of 256
        let log = (zeros
            .saturating_mul(256)
            .saturating_add(255)
            .saturating_sub(fraction)) as i64;
        let most = temperature.saturating_mul(log).saturating_mul(177) / 65536;
        worse <= most
    }

    // A place at most so far from another, below an end.
    fn near(&mut self, place: usize, far: usize, end: usize) -> usize {
        let low = place.saturating_sub(far);
        let high = place.saturating_add(far).min(end.saturating_sub(1));
        let width = high.saturating_sub(low).saturating_add(1);
        low.saturating_add(self.below(width))
    }

    // The order with two parts exchanged: those from `a` to `b`, and from `b` to `c`.
    fn exchange(&mut self, order: &Order, a: usize, b: usize, c: usize) -> Result<(), AllocError> {
        self.next.steps.clear();
        self.next.extend(part(&order.steps, 0, a))?;
        self.next.extend(part(&order.steps, b, c))?;
        self.next.extend(part(&order.steps, a, b))?;
        self.next.extend(part(&order.steps, c, order.len()))
    }

    // Moves steps to another place.
    fn shift(
        &mut self,
        problem: &Problem,
        order: &Order,
        from: usize,
        to: usize,
        count: usize,
    ) -> Result<Option<Range>, AllocError> {
        if from == to {
            return Ok(None);
        }
        let (a, b, c) = if from < to {
            (from, from.saturating_add(count), to.saturating_add(count))
        } else {
            (to, from, from.saturating_add(count))
        };
        self.exchange(order, a, b, c)?;
        let high = c.saturating_sub(1);
        if !are_standing(problem, &self.next, a, high) {
            return Ok(None);
        }
        Ok(looked_at(a, high))
    }

    // Moves a step.
    fn shift_one(&mut self, problem: &Problem, order: &Order) -> Result<Option<Range>, AllocError> {
        let end = order.len();
        let from = self.below(end);
        let far = match self.below(4) {
            0 => 1,
            1 => 4,
            2 => 16,
            _ => end,
        };
        let to = self.near(from, far, end);
        let partner = order.step(from).partner;
        if partner != NONE {
            let partner = partner as usize;
            if (from < partner) != (to < partner) || to == partner {
                return Ok(None);
            }
        }
        self.shift(problem, order, from, to, 1)
    }

    // Moves some steps together.
    fn shift_some(
        &mut self,
        problem: &Problem,
        order: &Order,
    ) -> Result<Option<Range>, AllocError> {
        let count = self.below(6).saturating_add(2);
        let end = order.len().saturating_sub(count);
        if end < 2 {
            return Ok(None);
        }
        let from = self.below(end);
        let far = match self.below(3) {
            0 => 3,
            1 => 12,
            _ => end,
        };
        let to = self.near(from, far, end.saturating_add(1));
        self.shift(problem, order, from, to, count)
    }

    // A gap between uses of a product that is added at a place: it begins after the one and ends at the other.
    fn gap_of(&mut self, problem: &Problem, order: &Order, place: usize) -> Range {
        let step = order.step(place);
        let end = step.partner as usize;
        let mut uses = 1usize;
        for there in place.saturating_add(1)..end {
            if problem.needs(order.step(there).product, step.product) {
                uses = uses.saturating_add(1);
            }
        }
        let mut left = self.below(uses);
        let mut low = place;
        for there in place.saturating_add(1)..end {
            if problem.needs(order.step(there).product, step.product) {
                if left == 0 {
                    return Range { low, high: there };
                }
                left = left.saturating_sub(1);
                low = there;
            }
        }
        Range { low, high: end }
    }

    // Takes a product back in a gap between uses, and adds it again.
    fn open(&mut self, problem: &Problem, order: &Order) -> Result<Option<Range>, AllocError> {
        let place = self.below(order.len());
        if !order.is_make(place) {
            return Ok(None);
        }
        let step = order.step(place);
        let gap = self.gap_of(problem, order, place);
        let width = gap.high.saturating_sub(gap.low);
        if width < 2 {
            return Ok(None);
        }
        let (mut back, mut again) = (gap.low.saturating_add(1), gap.high);
        if self.below(2) == 0 {
            back = back.saturating_add(self.below(width));
        }
        if self.below(2) == 0 {
            let more = gap.high.saturating_sub(back).saturating_add(1);
            again = back.saturating_add(self.below(more));
        }
        if back >= again {
            return Ok(None);
        }
        self.next.steps.clear();
        self.next.extend(part(&order.steps, 0, back))?;
        self.next.push(step.product)?;
        self.next.extend(part(&order.steps, back, again))?;
        self.next.push(step.product)?;
        self.next.extend(part(&order.steps, again, order.len()))?;
        if !are_standing(problem, &self.next, back, again.saturating_add(1)) {
            return Ok(None);
        }
        Ok(looked_at(place, (step.partner as usize).saturating_add(2)))
    }

    // The order without two steps.
    fn drop_two(&mut self, order: &Order, one: usize, other: usize) -> Result<(), AllocError> {
        self.next.steps.clear();
        self.next.extend(part(&order.steps, 0, one))?;
        self.next
            .extend(part(&order.steps, one.saturating_add(1), other))?;
        let rest = other.saturating_add(1);
        self.next.extend(part(&order.steps, rest, order.len()))
    }

    // Keeps a product until it would be added again.
    fn keep(&mut self, order: &Order) -> Result<Option<Range>, AllocError> {
        let place = self.below(order.len());
        let step = order.step(place);
        if step.partner == NONE || order.is_make(place) {
            return Ok(None);
        }
        for again in place.saturating_add(1)..order.len() {
            let other = order.step(again);
            if other.product == step.product {
                self.drop_two(order, place, again)?;
                let end = (other.partner as usize).saturating_sub(2);
                return Ok(looked_at(step.partner as usize, end));
            }
        }
        Ok(None)
    }

    // Leaves out a product that is added for nothing.
    fn leave(&mut self, problem: &Problem, order: &Order) -> Result<Option<Range>, AllocError> {
        let place = self.below(order.len());
        if !order.is_make(place) {
            return Ok(None);
        }
        let step = order.step(place);
        let end = step.partner as usize;
        let mut others = 0usize;
        for there in 0..order.len() {
            let product = order.step(there).product;
            if place < there && there < end && problem.needs(product, step.product) {
                return Ok(None);
            }
            if product == step.product {
                others = others.saturating_add(1);
            }
        }
        if others < 4 {
            return Ok(None);
        }
        self.drop_two(order, place, end)?;
        Ok(looked_at(place.saturating_sub(1), end.saturating_sub(1)))
    }

    /// Changes an order, if it can be: `next` is the order, to be looked at again at these places.
    pub(crate) fn change(
        &mut self,
        problem: &Problem,
        order: &Order,
    ) -> Result<Option<Range>, AllocError> {
        match self.below(16) {
            0..=8 => self.shift_one(problem, order),
            9..=10 => self.shift_some(problem, order),
            11..=12 => self.open(problem, order),
            13..=14 => self.keep(order),
            _ => self.leave(problem, order),
        }
    }
}
