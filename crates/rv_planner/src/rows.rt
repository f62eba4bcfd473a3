// Few rows of bits, each of which alone has its lowest bit.
use crate::lists::put_at;

const MOST_ROWS: usize = 12;

/// Rows that span a space.
#[derive(Clone, Copy)]
pub(crate) struct Rows {
    rows: [u32; MOST_ROWS],
    count: u8,
}

impl Rows {
    pub(crate) fn none() -> Rows {
        Rows {
            rows: [0; MOST_ROWS],
            count: 0,
        }
    }

    /// How many rows there are.
    #[inline(always)]
    pub(crate) fn count(&self) -> usize {
        usize::from(self.count)
    }

    /// What is left of a word without the rows.
    #[inline(always)]
    pub(crate) fn reduced(&self, word: u32) -> u32 {
        let mut rest = word;
        for place in 0..self.count().min(MOST_ROWS) {
            let row = self.rows[place];
            if rest & row & row.wrapping_neg() != 0 {
                rest ^= row;
            }
        }
        rest
    }

    /// The rows and a word more.
    pub(crate) fn with(self, word: u32) -> Rows {
        let mut rows = self;
        let rest = self.reduced(word);
        if rest == 0 {
            return rows;
        }
        let first = rest & rest.wrapping_neg();
        for place in 0..MOST_ROWS {
            if rows.rows[place] & first != 0 {
                rows.rows[place] ^= rest;
            }
        }
        put_at(&mut rows.rows, self.count(), rest);
        rows.count = self.count.saturating_add(1).min(12);
        rows
    }

    /// What is left of the rows without others.
    pub(crate) fn without(&self, others: &Rows) -> Rows {
        let mut left = Rows::none();
        for place in 0..self.count().min(MOST_ROWS) {
            left = left.with(others.reduced(self.rows[place]));
        }
        left
    }

    /// A number by which the space is known, most likely.
    pub(crate) fn hash(&self) -> u64 {
        let mut hash = 0u64;
        for place in 0..MOST_ROWS {
            let row = u64::from(self.rows[place]).wrapping_mul(0x9E37_79B9_7F4A_7C15);
            hash = hash.wrapping_add((row ^ row >> 29).wrapping_mul(0xBF58_476D_1CE4_E5B9));
        }
        hash
    }
}
