// A function of the coordinates as a form and a sum of products, one after another.
use crate::cells::{
    add_at, at, bit, is_odd, number_of, put_at, quotient, signed, size_of, top_place,
};
use crate::greedy::{NO_TOP, Top, keep_top};
use crate::random::Random;
use crate::spectrum::transform;
use crate::step::{MOST_FORMS, NO_STEP, Step, t_of};
use std::alloc::{AllocError, Global};

// A cover has at most so many products.
const MOST_PRODUCTS: usize = 120;

// So many products are tried for each that is taken.
const TRIES: usize = 24;

const MOST_TOPS: usize = 4;

// The words, what is wanted of each (1 for the bit 0, -1 for 1, 0 for either), and over how many coordinates.
#[derive(Drop)]
pub(crate) struct Wanted {
    pub(crate) words: Vec<u32>,
    pub(crate) signs: Vec<i64>,
    pub(crate) dimension: usize,
}

// A product, and the price that it saves.
#[derive(Clone, Copy)]
struct Gain {
    gain: i64,
    product: Step,
}

// The part of the words that a product holds of, so far.
#[derive(Drop)]
struct Part {
    inside: Vec<bool>,
    cells: Vec<i64>,
    product: Step,
    leads: u32,
}

impl Wanted {
    pub(crate) fn sign(&self, k: usize) -> i64 {
        at(&self.signs, k, 0)
    }

    pub(crate) fn word(&self, k: usize) -> u32 {
        at(&self.words, k, 0)
    }

    // At how many words a bit is wanted.
    fn count(&self) -> i64 {
        let mut count = 0i64;
        for sign in &self.signs {
            count = count.wrapping_add(sign.wrapping_abs());
        }
        count
    }

    // The sums of what is wanted over the cells, transformed.
    pub(crate) fn spectrum(&self, alloc: Global) -> Result<Vec<i64>, AllocError> {
        let mut cells = vec![in alloc; 0i64; size_of(self.dimension)]?;
        for k in 0..self.words.len() {
            let cell = self.word(k) as usize;
            add_at(&mut cells, cell, self.sign(k));
        }
        transform(&mut cells, 0, self.dimension);
        Ok(cells)
    }

    // What is wanted once a product is added.
    fn add(&mut self, product: &Step) {
        for k in 0..self.words.len() {
            if product.holds(self.word(k)) {
                let turned = self.sign(k).wrapping_neg();
                put_at(&mut self.signs, k, turned);
            }
        }
    }
}

// The greatest coefficients of a spectrum.
fn tops_in(spectrum: &[i64]) -> [Top; MOST_TOPS] {
    let mut tops = [NO_TOP; MOST_TOPS];
    for form in 0..spectrum.len() {
        let size = at(spectrum, form, 0).unsigned_abs();
        if size > at(&tops, MOST_TOPS - 1, NO_TOP).size {
            keep_top(
                &mut tops,
                Top {
                    size,
                    form: number_of(form),
                },
            );
        }
    }
    tops
}

impl Part {
    fn new(alloc: Global, wanted: &Wanted) -> Result<Part, AllocError> {
        Ok(Part {
            inside: vec![in alloc; true; wanted.words.len()]?,
            cells: vec![in alloc; 0i64; size_of(wanted.dimension)]?,
            product: NO_STEP,
            leads: 0,
        })
    }

    // The form by which the part is parted most, or the second or third.
    fn next_form(&mut self, wanted: &Wanted, form: u32, sign: i64, place: usize) -> u32 {
        self.cells.fill(0);
        let mut all = 0u64;
        for k in 0..wanted.words.len() {
            if at(&self.inside, k, false) {
                let cell = wanted.word(k) as usize;
                let agreement = agreement(wanted, k, form, sign);
                all = all.wrapping_add(agreement.unsigned_abs());
                add_at(&mut self.cells, cell, agreement);
            }
        }
        transform(&mut self.cells, 0, wanted.dimension);
        let mut tops = [NO_TOP; 3];
        for form in 1..self.cells.len() {
            let size = at(&self.cells, form, 0).unsigned_abs();
            let number = number_of(form);
            if number & self.leads == 0 && size <= all {
                keep_top(
                    &mut tops,
                    Top {
                        size: size.wrapping_add(1),
                        form: number,
                    },
                );
            }
        }
        let first = at(&tops, place % 3, NO_TOP).form;
        if first == 0 {
            at(&tops, 0, NO_TOP).form
        } else {
            first
        }
    }

    // Keeps the half of the part in which more is other than the form. Gives the sum of what is in it, and whether
    // something in it is as the form says.
    fn halve(&mut self, wanted: &Wanted, by: u32, form: u32, sign: i64) -> (i64, bool) {
        let one = at(&self.cells, by as usize, 0) > 0;
        let count = self.product.count.min(MOST_FORMS - 1);
        put_at(&mut self.product.forms, count, by);
        self.product.count = count.wrapping_add(1);
        if one {
            self.product.want |= bit(count);
        }
        self.leads |= bit(top_place(by));
        let (mut sum, mut has_right) = (0i64, false);
        for k in 0..wanted.words.len() {
            if is_odd(by & wanted.word(k)) != one {
                put_at(&mut self.inside, k, false);
            }
            if at(&self.inside, k, false) {
                let agreement = agreement(wanted, k, form, sign);
                sum = sum.wrapping_add(agreement);
                has_right = has_right || agreement > 0;
            }
        }
        (sum, has_right)
    }
}

// 1 where what is wanted is as a form says, and -1 where it isn't.
fn agreement(wanted: &Wanted, k: usize, form: u32, sign: i64) -> i64 {
    let own = wanted.sign(k).wrapping_mul(sign);
    if is_odd(form & wanted.word(k)) {
        own.wrapping_neg()
    } else {
        own
    }
}

// The best product that one part, halved again and again, goes through.
fn best_in_part(
    alloc: Global,
    wanted: &Wanted,
    top: Top,
    positive: bool,
    least: u64,
    first: bool,
    random: &mut Random,
) -> Result<Gain, AllocError> {
    let sign = if positive { 1 } else { -1 };
    let mut part = Part::new(alloc, wanted)?;
    let mut best = Gain {
        gain: 0,
        product: NO_STEP,
    };
    for k in 1..=MOST_FORMS.min(wanted.dimension) {
        let place = if first {
            0
        } else {
            random.below(4).saturating_sub(1)
        };
        let by = part.next_form(wanted, top.form, sign, place);
        if by == 0 {
            return Ok(best);
        }
        let (sum, has_right) = part.halve(wanted, by, top.form, sign);
        let won = signed(top.size)
            .wrapping_sub(sum.wrapping_mul(2))
            .wrapping_sub(signed(least));
        let gain = quotient(won.wrapping_mul(1024), t_of(k));
        if k >= 2 && sum < 0 && gain > best.gain {
            best = Gain {
                gain,
                product: part.product,
            };
        }
        if !has_right {
            return Ok(best);
        }
    }
    Ok(best)
}

// The best product for what is wanted.
fn best_product(
    alloc: Global,
    wanted: &Wanted,
    spectrum: &[i64],
    tops: &[Top],
    random: &mut Random,
) -> Result<Gain, AllocError> {
    let least = at(tops, 0, NO_TOP).size;
    let mut best = Gain {
        gain: 0,
        product: NO_STEP,
    };
    for k in 0..TRIES {
        let place = if k < TRIES / 2 { 0 } else { k % MOST_TOPS };
        let top = at(tops, place, NO_TOP);
        if top.size > 0 {
            let positive = at(spectrum, top.form as usize, 0) > 0;
            let found = best_in_part(alloc, wanted, top, positive, least, k == 0, random)?;
            if found.gain > best.gain {
                best = found;
            }
        }
    }
    Ok(best)
}

/// Products whose sum with a form is what is wanted, if they are found.
pub(crate) fn cover(
    alloc: Global,
    wanted: &mut Wanted,
    random: &mut Random,
) -> Result<Option<Vec<Step>>, AllocError> {
    let all = wanted.count().unsigned_abs();
    let mut products = Vec::new(alloc);
    for _ in 0..MOST_PRODUCTS {
        let spectrum = wanted.spectrum(alloc)?;
        let tops = tops_in(&spectrum);
        if at(&tops, 0, NO_TOP).size >= all {
            return Ok(Some(products));
        }
        let best = best_product(alloc, wanted, &spectrum, &tops, random)?;
        if best.gain <= 0 {
            return Ok(None);
        }
        wanted.add(&best.product);
        products.push(best.product)?;
    }
    Ok(None)
}

// What products cost.
pub(crate) fn price_of(products: &[Step]) -> i64 {
    let mut price = 0i64;
    for product in products {
        price = price.wrapping_add(t_of(product.count));
    }
    price
}
