// What a state is worth: for each output the sum of its greatest coefficients whose squares come to one, less one. It
// is 0 just where the output is a form.
use crate::cells::{add_at, at, quotient, size_of};
use crate::spectrum::{SHARED, parted, planes_of};
use crate::task::Task;
use std::alloc::{AllocError, Global};

// 1 in the numbers of a worth.
pub(crate) const ONE: i64 = 1 << 16;

// How a worth is made: its power in tenths, and what an output counts that is no form.
#[derive(Clone, Copy)]
pub(crate) struct Scale {
    pub(crate) tenths: u64,
    pub(crate) bonus: i64,
}

// Forms of solved outputs are looked at up to so many.
const MOST_SOLVED: usize = 256;

// How far a curve lies over its chord, in parts of 2^16.
fn bow(part: u64) -> u64 {
    let part = part & 0xFFFF;
    (part.wrapping_mul(65536 - part) >> 16).wrapping_mul(22645) >> 16
}

// The logarithm of a number to base 2, about, in parts of 2^16.
fn logarithm(number: u64) -> u64 {
    let number = number.max(1);
    let whole = 63u32.saturating_sub(number.leading_zeros());
    let part = (number << (63 - whole.min(63)) << 1) >> 48;
    (u64::from(whole) << 16)
        .wrapping_add(part)
        .wrapping_add(bow(part))
}

// A power of 2, about, of an exponent in parts of 2^16.
fn exponential(exponent: u64) -> i64 {
    let whole = (exponent >> 16).min(40);
    let part = exponent & 0xFFFF;
    let power = 65536u64.wrapping_add(part).wrapping_sub(bow(part));
    (power << whole >> 16) as i64
}

// A number to the power of so many tenths, both in parts of 2^16.
pub(crate) fn power(number: i64, tenths: u64) -> i64 {
    let tenths = tenths.min(10);
    if number <= 0 {
        return 0;
    }
    let log = logarithm(number.unsigned_abs());
    let rest = (16u64 << 16).wrapping_mul(10u64.saturating_sub(tenths));
    exponential(log.wrapping_mul(tenths).wrapping_add(rest) / 10)
}

// Of each output, how often each coefficient stands.
#[derive(Drop)]
struct Bins {
    room: usize,
    counts: Vec<i64>,
}

impl Bins {
    fn new(alloc: Global, task: &Task) -> Result<Bins, AllocError> {
        let room = task.words().saturating_add(1);
        let lanes = planes_of(task.outputs).saturating_mul(SHARED);
        Ok(Bins {
            room,
            counts: vec![in alloc; 0i64; room.saturating_mul(lanes)]?,
        })
    }

    fn count(&self, lane: usize, coefficient: u64) -> i64 {
        let place = lane.wrapping_mul(self.room);
        at(&self.counts, place.wrapping_add(coefficient as usize), 0)
    }

    #[inline(always)]
    fn add(&mut self, lane: usize, coefficient: u64, more: i64) {
        let place = lane.wrapping_mul(self.room);
        add_at(
            &mut self.counts,
            place.wrapping_add(coefficient as usize),
            more,
        );
    }

    fn add_all(&mut self, values: &[i64], size: usize, planes: usize) {
        for plane in 0..planes {
            let (first, lane) = (plane.wrapping_mul(size), plane.wrapping_mul(SHARED));
            for u in first..first.wrapping_add(size) {
                let [a, b, c] = parted(at(values, u, 0));
                self.add(lane, a.unsigned_abs(), 1);
                self.add(lane.wrapping_add(1), b.unsigned_abs(), 1);
                self.add(lane.wrapping_add(2), c.unsigned_abs(), 1);
            }
        }
    }

    // Coefficients at forms that are taken count as four of half the size.
    fn part(&mut self, lane: usize, values: &[i64], size: usize, taken: &[usize]) {
        for form in taken {
            let coefficient = value_in(values, size, lane, *form).unsigned_abs();
            if coefficient != 0 {
                self.add(lane, coefficient, -1);
                self.add(lane, coefficient / 2, 4);
            }
        }
    }

    // The sum of the greatest coefficients whose squares come to one.
    fn sum(&self, lane: usize, all: i64) -> i64 {
        let (mut left, mut sum) = (ONE << 8, 0i64);
        for k in 1..self.room {
            let coefficient = self.room - k;
            let count = self.count(lane, coefficient as u64);
            if count > 0 && left > 0 {
                let part = share(coefficient, all).max(1);
                let area = (part.wrapping_mul(part) >> 8).wrapping_mul(count);
                if area <= left {
                    sum = sum.wrapping_add(part.wrapping_mul(count));
                } else {
                    sum = sum.wrapping_add(quotient(left << 8, part));
                }
                left = left.wrapping_sub(area);
            }
        }
        sum
    }
}

// The coefficient at a form of a function that shares its numbers.
pub(crate) fn value_in(values: &[i64], size: usize, lane: usize, form: usize) -> i64 {
    let place = size.wrapping_mul(lane / SHARED).wrapping_add(form);
    at(&parted(at(values, place, 0)), lane % SHARED, 0)
}

// A coefficient, where the greatest is 1.
fn share(coefficient: usize, all: i64) -> i64 {
    let whole = (coefficient.min(1 << 30) as i64) << 16;
    quotient(whole, all)
}

// The first form at which a function has so great a coefficient; 0 if there is none.
fn first_form(values: &[i64], size: usize, lane: usize, all: u64) -> usize {
    for form in 0..size {
        if value_in(values, size, lane, form).unsigned_abs() == all {
            return form;
        }
    }
    0
}

// The forms that solved outputs hold, with their sums.
fn solved_forms(
    alloc: Global,
    task: &Task,
    values: &[i64],
    size: usize,
    bins: &Bins,
) -> Result<Vec<usize>, AllocError> {
    let mut forms = Vec::new(alloc);
    forms.push(0)?;
    for output in 0..task.outputs {
        let (lane, all) = (output.wrapping_add(1), task.count(output).unsigned_abs());
        if bins.count(lane, all) == 0 || forms.len() > MOST_SOLVED {
            continue;
        }
        let form = first_form(values, size, lane, all);
        if !forms.contains(&form) {
            for k in 0..forms.len() {
                forms.push(at(&forms, k, 0) ^ form)?;
            }
        }
    }
    Ok(forms)
}

// What words over so many coordinates are worth that have such spectra. No output may take a line more where `tight`
// is set.
pub(crate) fn worth(
    alloc: Global,
    task: &Task,
    values: &[i64],
    dimension: usize,
    tight: bool,
    scale: Scale,
) -> Result<i64, AllocError> {
    let size = size_of(dimension);
    let mut bins = Bins::new(alloc, task)?;
    bins.add_all(values, size, planes_of(task.outputs));
    let taken = if tight {
        solved_forms(alloc, task, values, size, &bins)?
    } else {
        Vec::new(alloc)
    };
    let mut total = 0i64;
    for output in 0..task.outputs {
        let (lane, all) = (output.wrapping_add(1), task.count(output));
        if bins.count(lane, all.unsigned_abs()) == 0 {
            bins.part(lane, values, size, &taken);
            let sum = bins.sum(lane, all);
            let more = power(sum.wrapping_sub(ONE), scale.tenths);
            total = total.wrapping_add(more.max(1)).wrapping_add(scale.bonus);
        }
    }
    Ok(total)
}
