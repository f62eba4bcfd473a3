// Sets of lines, and lists that answer at any place.
use std::alloc::AllocError;

/// The entry at a place, or another one past the end.
pub(crate) fn at<T: Copy>(list: &[T], place: usize, other: T) -> T {
    match list.get(place) {
        Some(entry) => *entry,
        None => other,
    }
}

/// One entry more.
pub(crate) fn add<T: Copy>(list: &mut Vec<T>, entry: T) -> Result<(), AllocError> {
    list.push(entry)?;
    Ok(())
}

/// Other entries.
pub(crate) fn set<T: Copy>(list: &mut Vec<T>, entries: &[T]) -> Result<(), AllocError> {
    list.clear();
    list.extend_from_slice(entries)
}

/// Puts an entry at a place, if there is one.
pub(crate) fn put_at<T: Copy>(list: &mut [T], place: usize, entry: T) {
    if let Some(there) = list.get_mut(place) {
        *there = entry;
    }
}

/// Exchanges the entries at two places.
pub(crate) fn exchange<T: Copy>(list: &mut [T], a: usize, b: usize, other: T) {
    let (first, second) = (at(list, a, other), at(list, b, other));
    put_at(list, a, second);
    put_at(list, b, first);
}

/// The entries from one place to before another; none if there are not so many.
pub(crate) fn part<T>(list: &[T], from: usize, to: usize) -> &[T] {
    match list.get(from..to) {
        Some(part) => part,
        None => &[],
    }
}

/// The set of one line.
pub(crate) fn bit(line: usize) -> u64 {
    1u64 << (line % 64)
}

pub(crate) fn has(set: u64, line: usize) -> bool {
    set >> (line % 64) & 1 == 1
}

/// The least line of a set.
pub(crate) fn lowest(set: u64) -> usize {
    set.trailing_zeros() as usize
}

pub(crate) fn without_lowest(set: u64) -> u64 {
    set & set.wrapping_sub(1)
}

/// How many lines a set has.
pub(crate) fn size_of(set: u64) -> usize {
    set.count_ones() as usize
}

pub(crate) fn is_single(set: u64) -> bool {
    set.count_ones() == 1
}

/// The sum of the rows of a set.
pub(crate) fn sum_of(rows: &[u64], set: u64) -> u64 {
    let (mut sum, mut left) = (0, set);
    for _ in 0..set.count_ones() {
        sum ^= at(rows, lowest(left), 0);
        left = without_lowest(left);
    }
    sum
}

pub(crate) fn number_of(place: usize) -> u32 {
    place.min(u32::MAX as usize) as u32
}

pub(crate) fn line_of(place: usize) -> u8 {
    place.min(63) as u8
}
