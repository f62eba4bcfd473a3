// Lists, read and written at any place.

/// The entry at a place, or this one past the end.
#[inline(always)]
pub(crate) fn at<T: Copy>(list: &[T], place: usize, other: T) -> T {
    match list.get(place) {
        Some(entry) => *entry,
        None => other,
    }
}

/// Writes an entry at a place. Past the end nothing happens.
#[inline(always)]
pub(crate) fn put_at<T: Copy>(list: &mut [T], place: usize, entry: T) {
    if let Some(there) = list.get_mut(place) {
        *there = entry;
    }
}

/// The entries from one place to another, as far as there are.
pub(crate) fn part<T>(list: &[T], from: usize, to: usize) -> &[T] {
    match list.get(from..to) {
        Some(part) => part,
        None => &[],
    }
}
