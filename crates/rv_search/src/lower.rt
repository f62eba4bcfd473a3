// What the gates cost at least that are still to be taken off: each line that isn't as wanted is a target, and lines
// whose products are independent of one another take a gate with two controls each.
use crate::table::{PLACES, Table, at, put_at};

// What gates cost at least: one with two controls, and how many targets it has; and any gate.
#[derive(Clone, Copy)]
pub(crate) struct Least {
    pub(crate) product: usize,
    pub(crate) targets: usize,
    pub(crate) any: usize,
}

// How many of so many forms have independent products. Rows give the room.
fn rank<T: Table>(forms: &[T], from: usize, count: usize, rows: &mut [T]) -> usize {
    let mut rank = 0usize;
    for place in from..from.saturating_add(count.min(PLACES)) {
        let mut row = at(forms, place).products();
        for other in 0..rank {
            let lead = at(rows, other);
            if let Some(word) = lead.first() {
                if row.bit(word) {
                    row = row.xor(lead);
                }
            }
        }
        if row.first().is_some() {
            put_at(rows, rank, row);
            rank = rank.wrapping_add(1);
        }
    }
    rank
}

// How many of so many forms aren't as wanted.
fn wrong<T: Table>(forms: &[T], from: usize, count: usize) -> usize {
    let mut wrong = 0usize;
    for place in from..from.saturating_add(count.min(PLACES)) {
        if at(forms, place).first().is_some() {
            wrong = wrong.wrapping_add(1);
        }
    }
    wrong
}

// What is still to be paid, at least, for so many forms.
pub(crate) fn least_for<T: Table>(
    forms: &[T],
    from: usize,
    count: usize,
    least: &Least,
    rows: &mut [T],
) -> usize {
    let rank = rank(forms, from, count, rows);
    let others = wrong(forms, from, count).saturating_sub(rank.saturating_mul(least.targets));
    rank.saturating_mul(least.product)
        .saturating_add(others.saturating_mul(least.any))
}
