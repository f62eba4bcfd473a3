// Which directions a product is best added to: one transform rates all of them.
use crate::cells::{
    add_at, at, bit, has, is_odd, number_of, put_at, quotient, size_of, top_place, without,
};
use crate::spectrum::{SHARED, parted, planes_of, spectra, transform};
use crate::step::{MOST_FORMS, Step};
use crate::task::Task;
use crate::worth::{ONE, value_in};
use std::alloc::{AllocError, Global};

// What the greatest coefficient counts.
const FULL: i64 = 1 << 20;

// What counts for outputs is in the upper bits of a number, and what counts for 1 in as many lower ones.
const HALF: u32 = 32;

// So many directions of a product are kept at most.
const MOST_KEPT: usize = 4;

// No price.
const NEVER: i64 = 1 << 32;

// A step that may be made, and the less the better what it promises.
#[derive(Clone, Copy)]
pub(crate) struct Choice {
    pub(crate) price: i64,
    pub(crate) worth: i64,
    pub(crate) node: usize,
    pub(crate) level: usize,
    pub(crate) dimension: usize,
    pub(crate) step: Step,
}

// What all forms count after a product, and a form that is constant then, if there is one.
#[derive(Clone, Copy)]
struct Sums {
    counted: i64,
    line: u32,
}

// A direction and its price.
#[derive(Clone, Copy)]
struct Way {
    price: i64,
    lambda: u32,
}

const NO_WAY: Way = Way {
    price: NEVER,
    lambda: 0,
};

// The spectra of a state; of each form, what its coefficients count, and what they count less after a product.
#[derive(Drop)]
pub(crate) struct Rating {
    dimension: usize,
    inputs: usize,
    outputs: usize,
    words: i64,
    values: Vec<i64>,
    // of each function, what 1 of a coefficient counts
    scales: Vec<i64>,
    counted: Vec<i64>,
    sum: i64,
    less: Vec<i64>,
    // the sums of a product's forms, and their signs
    spans: Vec<usize>,
    signs: Vec<i64>,
    // steps of work that were done
    pub(crate) work: u64,
}

// What counts for outputs, and what counts for 1.
#[inline(always)]
fn halves(counted: i64) -> (i64, i64) {
    let one = counted << HALF >> HALF;
    (counted.wrapping_sub(one) >> HALF, one)
}

// A fourth power, or the amount.
#[inline(always)]
fn weight(value: i64, scale: i64, fourth: bool) -> i64 {
    let part = value.wrapping_mul(scale);
    if fourth {
        let square = (part >> 6).wrapping_mul(part >> 6) >> 8;
        square.wrapping_mul(square) >> 20
    } else {
        part.wrapping_abs()
    }
}

// Of 1 and each output, what 1 of a coefficient counts; nothing for what else shares their numbers.
fn scales_of(alloc: Global, task: &Task) -> Result<Vec<i64>, AllocError> {
    let mut scales = vec![in alloc; 0i64; planes_of(task.outputs).saturating_mul(SHARED)]?;
    put_at(
        &mut scales,
        0,
        FULL / (task.words().clamp(1, 1 << 20) as i64),
    );
    for output in 0..task.outputs {
        put_at(
            &mut scales,
            output.wrapping_add(1),
            quotient(FULL, task.count(output)),
        );
    }
    Ok(scales)
}

impl Rating {
    pub(crate) fn new(
        alloc: Global,
        task: &Task,
        words: &[u32],
        dimension: usize,
    ) -> Result<Rating, AllocError> {
        let size = size_of(dimension);
        let mut rating = Rating {
            dimension,
            inputs: task.inputs,
            outputs: task.outputs,
            words: task.words().min(1 << 20) as i64,
            values: spectra(alloc, task, words, dimension)?,
            scales: scales_of(alloc, task)?,
            counted: vec![in alloc; 0i64; size]?,
            sum: 0,
            less: vec![in alloc; 0i64; size]?,
            spans: vec![in alloc; 0usize; size_of(MOST_FORMS)]?,
            signs: vec![in alloc; 0i64; size_of(MOST_FORMS)]?,
            work: 0,
        };
        rating.count();
        Ok(rating)
    }

    fn size(&self) -> usize {
        size_of(self.dimension)
    }

    fn is_fourth(&self) -> bool {
        self.dimension > self.inputs
    }

    // The coefficient of an output at a form.
    pub(crate) fn value(&self, output: usize, form: usize) -> i64 {
        value_in(&self.values, self.size(), output.wrapping_add(1), form)
    }

    // How great it is, where the greatest is 2^12.
    pub(crate) fn amount(&self, output: usize, form: usize) -> u64 {
        let scale = at(&self.scales, output.wrapping_add(1), 0);
        (self.value(output, form).wrapping_mul(scale) >> 8).unsigned_abs()
    }

    // Whether an output is a form, but for a constant.
    pub(crate) fn is_solved(&self, output: usize, form: usize) -> bool {
        let scale = at(&self.scales, output.wrapping_add(1), 0);
        let most = self.value(output, form).wrapping_mul(scale).wrapping_abs();
        most > FULL.wrapping_sub(scale)
    }

    // What three coefficients count that share a number.
    #[inline(always)]
    fn weights(&self, plane: usize, shared: i64, fourth: bool) -> i64 {
        let [a, b, c] = parted(shared);
        let lane = plane.wrapping_mul(SHARED);
        let first = weight(a, at(&self.scales, lane, 0), fourth);
        let second = weight(b, at(&self.scales, lane.wrapping_add(1), 0), fourth);
        let third = weight(c, at(&self.scales, lane.wrapping_add(2), 0), fourth);
        let others = second.wrapping_add(third);
        if plane == 0 {
            (others << HALF).wrapping_add(first)
        } else {
            others.wrapping_add(first) << HALF
        }
    }

    fn count(&mut self) {
        let (size, fourth) = (self.size(), self.is_fourth());
        for plane in 0..planes_of(self.outputs) {
            for u in 0..size {
                let shared = at(&self.values, plane.wrapping_mul(size).wrapping_add(u), 0);
                let counted = self.weights(plane, shared, fourth);
                add_at(&mut self.counted, u, counted);
                self.sum = self.sum.wrapping_add(counted);
            }
        }
    }

    // A price of what is counted.
    fn rate(&self, counted: i64) -> i64 {
        let (outputs, one) = halves(counted);
        let all = (self.outputs.min(64) as i64).wrapping_mul(ONE);
        let part = quotient(outputs.wrapping_mul(ONE), one);
        if self.is_fourth() {
            all.wrapping_sub(part)
        } else {
            part.wrapping_sub(all)
        }
    }

    // Whether a price is less than another, without a division.
    #[inline(always)]
    fn is_less(&self, counted: i64, bound: i64) -> bool {
        let (outputs, one) = halves(counted);
        let all = (self.outputs.min(64) as i64).wrapping_mul(ONE);
        let sum = outputs.wrapping_mul(ONE);
        if self.is_fourth() {
            sum > all.wrapping_sub(bound).wrapping_mul(one)
        } else {
            sum < all.wrapping_add(bound).wrapping_mul(one)
        }
    }

    // The sums of the forms of a product, with their signs. Gives how many there are, and the places of the forms'
    // highest bits, each of which no other form has.
    fn set_spans(&mut self, step: &Step) -> (usize, u32) {
        let full = size_of(step.count.min(MOST_FORMS));
        for s in 0..full {
            let (mut span, mut wanted) = (0u32, false);
            for i in 0..step.count.min(MOST_FORMS) {
                if s >> i & 1 == 1 {
                    span ^= step.form(i);
                    wanted = wanted != has(step.want, i);
                }
            }
            put_at(&mut self.spans, s, span as usize);
            put_at(&mut self.signs, s, if wanted { -1 } else { 1 });
        }
        (full, leads_of(step))
    }

    // By how much a product changes shared coefficients, but for their signs, at its forms' sums and one form more.
    #[inline(always)]
    fn change(&self, place: usize, full: usize) -> i64 {
        let mut total = 0i64;
        for s in 0..full {
            let part = at(&self.values, place ^ at(&self.spans, s, 0), 0);
            total = total.wrapping_add(part.wrapping_mul(at(&self.signs, s, 0)));
        }
        total >> full.trailing_zeros().saturating_sub(1).min(63)
    }

    // What all forms count less after a product is added.
    fn product(&mut self, step: &Step) -> Sums {
        let (full, leads) = self.set_spans(step);
        let (size, fourth) = (self.size(), self.is_fourth());
        for u in 0..size {
            put_at(&mut self.less, u, at(&self.counted, u, 0));
        }
        let mut sums = Sums {
            counted: 0,
            line: 0,
        };
        for plane in 0..planes_of(self.outputs) {
            for u in 0..size {
                if number_of(u) & leads == 0 {
                    let first = plane.wrapping_mul(size);
                    let change = self.change(first | u, full);
                    for s in 0..full {
                        let cell = u ^ at(&self.spans, s, 0);
                        let own = change.wrapping_mul(at(&self.signs, s, 0));
                        let value = at(&self.values, first | cell, 0).wrapping_sub(own);
                        let counted = self.weights(plane, value, fourth);
                        sums.counted = sums.counted.wrapping_add(counted);
                        add_at(&mut self.less, cell, counted.wrapping_neg());
                        if plane == 0 && at(&parted(value), 0, 0).wrapping_abs() >= self.words {
                            sums.line = number_of(cell);
                        }
                    }
                }
            }
        }
        let steps = planes_of(self.outputs)
            .saturating_mul(4)
            .saturating_add(self.dimension);
        self.work = self.work.saturating_add(size.saturating_mul(steps) as u64);
        sums
    }

    // What all forms count after a step, for the product whose sums were made.
    #[inline(always)]
    fn counted_after(&self, lambda: usize, sums: &Sums) -> i64 {
        let all = self.sum.wrapping_add(sums.counted);
        let (outputs, one) = halves(all.wrapping_add(at(&self.less, lambda, 0)));
        let one = if self.is_fourth() { one / 2 } else { FULL };
        (outputs / 2 << HALF).wrapping_add(one)
    }

    // The steps that a product is best in, at most so many, and one by which a coordinate goes.
    pub(crate) fn add_steps(
        &mut self,
        product: &Step,
        most_dimension: usize,
        keep: usize,
        choices: &mut Vec<Choice>,
    ) -> Result<(), AllocError> {
        let sums = self.product(product);
        if self.dimension < most_dimension && sums.line == 0 {
            let price = self.rate(self.sum.wrapping_add(sums.counted));
            choices.push(choice_of(price, *product))?;
        }
        transform(&mut self.less, 0, self.dimension);
        let (ways, last) = self.ways(product, &sums, keep.min(MOST_KEPT));
        for k in 0..MOST_KEPT {
            add_way(product, at(&ways, k, NO_WAY), 0, choices)?;
        }
        add_way(product, last, sums.line, choices)
    }

    // The best directions, and the best one after which a form is constant.
    fn ways(&self, product: &Step, sums: &Sums, keep: usize) -> ([Way; MOST_KEPT], Way) {
        let mut ways = [NO_WAY; MOST_KEPT];
        let mut last = NO_WAY;
        for lambda in 1..self.size() {
            let direction = number_of(lambda);
            let drops = sums.line != 0 && is_odd(sums.line & direction);
            let bound = if drops {
                last.price
            } else {
                at(&ways, keep.saturating_sub(1), NO_WAY).price
            };
            let counted = self.counted_after(lambda, sums);
            if self.is_less(counted, bound) && !product.is_changed_by(direction) {
                let way = Way {
                    price: self.rate(counted),
                    lambda: direction,
                };
                if drops {
                    last = way;
                } else {
                    insert(&mut ways, keep, way);
                }
            }
        }
        (ways, last)
    }

    // The spectra after a step.
    pub(crate) fn after(&mut self, alloc: Global, step: &Step) -> Result<Vec<i64>, AllocError> {
        let (full, leads) = self.set_spans(step);
        let size = self.size();
        let next = size_of(step.dimension(self.dimension));
        let planes = planes_of(self.outputs);
        let mut after = vec![in alloc; 0i64; next.saturating_mul(planes)]?;
        for plane in 0..planes {
            for u in 0..size {
                if number_of(u) & leads == 0 {
                    let first = plane.wrapping_mul(size);
                    let change = self.change(first | u, full);
                    for s in 0..full {
                        let cell = u ^ at(&self.spans, s, 0);
                        let value = at(&self.values, first | cell, 0);
                        let own = change.wrapping_mul(at(&self.signs, s, 0));
                        let to = plane.wrapping_mul(next);
                        put_after(
                            &mut after,
                            to,
                            cell,
                            step,
                            size,
                            (value, value.wrapping_sub(own)),
                        );
                    }
                }
            }
        }
        self.work = self
            .work
            .saturating_add(size.saturating_mul(planes).saturating_mul(8) as u64);
        Ok(after)
    }
}

// Puts the coefficients at a form before and after a product where they are after the step.
#[inline(always)]
fn put_after(
    after: &mut [i64],
    to: usize,
    cell: usize,
    step: &Step,
    size: usize,
    values: (i64, i64),
) {
    let form = number_of(cell);
    if step.lambda == 0 {
        put_at(after, to.wrapping_add(cell), values.0);
        put_at(after, to.wrapping_add(cell).wrapping_add(size), values.1);
        return;
    }
    let value = if is_odd(form & step.lambda) {
        values.1
    } else {
        values.0
    };
    if step.drop == 0 {
        put_at(after, to.wrapping_add(cell), value);
    } else if !has(form, top_place(step.drop)) {
        let place = without(form, top_place(step.drop)) as usize;
        put_at(after, to.wrapping_add(place), value);
    }
}

fn choice_of(price: i64, step: Step) -> Choice {
    Choice {
        price,
        worth: price,
        node: 0,
        level: 0,
        dimension: 0,
        step,
    }
}

// The step of a product by a way, if there is one.
fn add_way(
    product: &Step,
    way: Way,
    drop: u32,
    choices: &mut Vec<Choice>,
) -> Result<(), AllocError> {
    if way.price < NEVER {
        let step = Step {
            lambda: way.lambda,
            drop,
            ..*product
        };
        choices.push(choice_of(way.price, step))?;
    }
    Ok(())
}

// Puts a way among the first so many, which are sorted; the last of them goes.
fn insert(ways: &mut [Way], keep: usize, way: Way) {
    let mut next = way;
    for k in 0..keep {
        let there = at(ways, k, NO_WAY);
        if next.price < there.price {
            put_at(ways, k, next);
            next = there;
        }
    }
}

// The highest bits of the forms of a product, each taken off the others.
fn leads_of(step: &Step) -> u32 {
    let mut forms = step.forms;
    let mut leads = 0u32;
    for i in 0..step.count.min(MOST_FORMS) {
        let form = at(&forms, i, 0);
        let lead = bit(top_place(form));
        if form != 0 {
            leads |= lead;
            for j in 0..step.count.min(MOST_FORMS) {
                let other = at(&forms, j, 0);
                if j != i && other & lead != 0 {
                    put_at(&mut forms, j, other ^ form);
                }
            }
        }
    }
    leads
}
