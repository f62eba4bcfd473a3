// Entries of lists at any place, and forms as bits of a word.
use std::alloc::{AllocError, Global};

// The entry at a place, or another where there is none.
#[inline(always)]
pub(crate) fn at<T: Copy>(list: &[T], place: usize, other: T) -> T {
    match list.get(place) {
        Some(entry) => *entry,
        None => other,
    }
}

// Puts an entry at a place, if there is one.
#[inline(always)]
pub(crate) fn put_at<T: Copy>(list: &mut [T], place: usize, entry: T) {
    if let Some(there) = list.get_mut(place) {
        *there = entry;
    }
}

// Adds to the entry at a place, if there is one.
#[inline(always)]
pub(crate) fn add_at(list: &mut [i64], place: usize, more: i64) {
    if let Some(there) = list.get_mut(place) {
        *there = there.wrapping_add(more);
    }
}

#[inline(always)]
pub(crate) fn is_odd(bits: u32) -> bool {
    bits.count_ones() % 2 == 1
}

// The bit of a place.
#[inline(always)]
pub(crate) fn bit(place: usize) -> u32 {
    1u32 << (place % 32)
}

#[inline(always)]
pub(crate) fn has(bits: u32, place: usize) -> bool {
    place < 32 && bits & bit(place) != 0
}

// The place of the highest bit; 0 of none.
pub(crate) fn top_place(bits: u32) -> usize {
    31u32.saturating_sub(bits.leading_zeros()) as usize
}

// The place of the first bit that is 1.
pub(crate) fn first_one(column: &[bool]) -> Option<usize> {
    for place in 0..column.len() {
        if at(column, place, false) {
            return Some(place);
        }
    }
    None
}

// The bits of words at a place.
pub(crate) fn column_of(
    alloc: Global,
    words: &[u32],
    place: usize,
) -> Result<Vec<bool>, AllocError> {
    let mut column = vec![in alloc; false; words.len()]?;
    for k in 0..words.len() {
        put_at(&mut column, k, has(at(words, k, 0), place));
    }
    Ok(column)
}

// The numbers below a bound.
pub(crate) fn numbers(alloc: Global, bound: usize) -> Result<Vec<u32>, AllocError> {
    let mut numbers = vec![in alloc; 0u32; bound]?;
    for k in 0..bound {
        put_at(&mut numbers, k, number_of(k));
    }
    Ok(numbers)
}

// How many words there are over so many coordinates.
pub(crate) fn size_of(dimension: usize) -> usize {
    1usize << (dimension % 32)
}

pub(crate) fn number_of(place: usize) -> u32 {
    place.min(u32::MAX as usize) as u32
}

// A count as a signed number.
pub(crate) fn signed(count: u64) -> i64 {
    i64::try_from(count).unwrap_or(i64::MAX)
}

// A number by another one, which counts as 1 where it isn't positive.
pub(crate) fn quotient(number: i64, by: i64) -> i64 {
    number / by.max(1)
}

// Bits without the one at a place; those above it go down.
pub(crate) fn without(bits: u32, place: usize) -> u32 {
    let low = bit(place).wrapping_sub(1);
    bits & low | bits >> 1 & !low
}

// Bits with a place more, at which there is 0.
pub(crate) fn widened(bits: u32, place: usize) -> u32 {
    let low = bit(place).wrapping_sub(1);
    bits & low | (bits & !low) << 1
}
