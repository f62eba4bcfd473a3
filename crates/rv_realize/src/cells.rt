// Entries of lists at any place.

/// The entry at a place, or another where there is none.
pub(crate) fn at<T: Copy>(list: &[T], place: usize, other: T) -> T {
    match list.get(place) {
        Some(entry) => *entry,
        None => other,
    }
}

/// Puts an entry at a place, if there is one.
pub(crate) fn put_at<T: Copy>(list: &mut [T], place: usize, entry: T) {
    if let Some(there) = list.get_mut(place) {
        *there = entry;
    }
}
