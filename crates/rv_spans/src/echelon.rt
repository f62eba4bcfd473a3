// Rows of bits, each without the highest bits of the others, with the coordinates that they are sums of.
use crate::cells::{at, bit, has, put_at, top_place};

const ROWS: usize = 32;

// No form.
pub(crate) const NONE: u32 = u32::MAX;

// Each row stands at the place of its highest bit; 0 where there is none.
#[derive(Clone, Copy)]
pub(crate) struct Echelon {
    rows: [u32; ROWS],
    names: [u32; ROWS],
}

pub(crate) const NO_ROWS: Echelon = Echelon {
    rows: [0; ROWS],
    names: [0; ROWS],
};

impl Echelon {
    // The rows of a state: the name of each is its coordinate.
    pub(crate) fn of(rows: &[u32]) -> Echelon {
        let mut echelon = NO_ROWS;
        for k in 0..rows.len() {
            echelon.add(at(rows, k, 0), bit(k));
        }
        echelon
    }

    pub(crate) fn row(&self, place: usize) -> u32 {
        at(&self.rows, place, 0)
    }

    // What is left of a sum without the rows, and its names with theirs.
    pub(crate) fn reduced(&self, sum: u32, names: u32) -> (u32, u32) {
        let (mut rest, mut all) = (sum, names);
        for place in 0..ROWS {
            // no row has the highest bit of another
            if has(sum, place) && self.row(place) != 0 {
                rest ^= self.row(place);
                all ^= at(&self.names, place, 0);
            }
        }
        (rest, all)
    }

    // Takes a row off each that has its highest bit.
    fn clear(&mut self, lead: usize, row: u32, names: u32) {
        for place in 0..ROWS {
            let other = self.row(place);
            if has(other, lead) {
                let own = at(&self.names, place, 0);
                put_at(&mut self.rows, place, other ^ row);
                put_at(&mut self.names, place, own ^ names);
            }
        }
    }

    // Adds a row, unless it is a sum of those there.
    pub(crate) fn add(&mut self, sum: u32, names: u32) {
        let (rest, all) = self.reduced(sum, names);
        if rest != 0 {
            let lead = top_place(rest);
            self.clear(lead, rest, all);
            put_at(&mut self.rows, lead, rest);
            put_at(&mut self.names, lead, all);
        }
    }

    // The names of a sum of rows.
    pub(crate) fn form(&self, sum: u32) -> u32 {
        let (rest, names) = self.reduced(sum, 0);
        if rest == 0 { names } else { NONE }
    }

    pub(crate) fn is_empty(&self) -> bool {
        for place in 0..ROWS {
            if self.row(place) != 0 {
                return false;
            }
        }
        true
    }

    // A number by which spans are told apart.
    pub(crate) fn key(&self) -> u64 {
        let mut key = 0x1234_5678_9ABC_DEF1u64;
        for k in 0..ROWS {
            let row = self.row(ROWS - 1 - k);
            if row != 0 {
                key = (key ^ u64::from(row)).wrapping_mul(0x9E37_79B9_7F4A_7C15);
                key ^= key >> 29;
            }
        }
        key
    }
}
