// Walsh spectra: how many more words a function agrees with a form than it doesn't. Three functions share a number.
use crate::cells::{add_at, at, put_at, size_of};
use crate::task::Task;
use std::alloc::{AllocError, Global};

// So many functions share a number: a sum of such numbers holds their sums.
pub(crate) const SHARED: usize = 3;

// The bits of each of them.
const BITS: usize = 21;

// In how many numbers 1 and all outputs are.
pub(crate) fn planes_of(outputs: usize) -> usize {
    outputs.saturating_add(SHARED) / SHARED
}

// A number as a function's part of a shared one.
#[inline(always)]
fn shared(value: i64, lane: usize) -> i64 {
    value << ((lane % SHARED) * BITS)
}

// What three functions hold that share a number.
#[inline(always)]
pub(crate) fn parted(shared: i64) -> [i64; SHARED] {
    let low = shared << 43 >> 43;
    let rest = shared.wrapping_sub(low) >> 21;
    let middle = rest << 43 >> 43;
    [low, middle, rest.wrapping_sub(middle) >> 21]
}

// Sums and differences of the entries of `from..` that lie so far apart.
#[inline(always)]
fn butterfly(values: &mut [i64], from: usize, half: usize) {
    for i in from..from.saturating_add(half) {
        let j = i.wrapping_add(half);
        let (a, b) = (at(values, i, 0), at(values, j, 0));
        put_at(values, i, a.wrapping_add(b));
        put_at(values, j, a.wrapping_sub(b));
    }
}

// The transform of the values of a list from a place on, over so many coordinates.
pub(crate) fn transform(values: &mut [i64], first: usize, dimension: usize) {
    for k in 0..dimension.min(31) {
        let half = size_of(k);
        let blocks = size_of(dimension.min(31) - k - 1);
        for block in 0..blocks {
            let from = first.wrapping_add(block.wrapping_mul(half.wrapping_mul(2)));
            butterfly(values, from, half);
        }
    }
}

// The spectra of 1 and of each output for words over so many coordinates: three in each list of numbers, one list
// after another.
pub(crate) fn spectra(
    alloc: Global,
    task: &Task,
    words: &[u32],
    dimension: usize,
) -> Result<Vec<i64>, AllocError> {
    let size = size_of(dimension);
    let planes = planes_of(task.outputs);
    let mut values = vec![in alloc; 0i64; size.saturating_mul(planes)]?;
    for k in 0..words.len() {
        let cell = at(words, k, 0) as usize;
        add_at(&mut values, cell, 1);
        for output in 0..task.outputs {
            let lane = output.wrapping_add(1);
            let place = size.wrapping_mul(lane / SHARED).wrapping_add(cell);
            add_at(&mut values, place, shared(task.sign(k, output), lane));
        }
    }
    for plane in 0..planes {
        transform(&mut values, plane.wrapping_mul(size), dimension);
    }
    Ok(values)
}
