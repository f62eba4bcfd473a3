// Rows of bits in echelon form.
use crate::common::{at, bit, has, lowest, part, put_at, size_of};
use std::alloc::{AllocError, Global};

/// Rows whose first bits are cleared by each other; the bits after these say of which rows each is the sum. One more
/// row is being made.
#[derive(Drop)]
pub(crate) struct Echelon {
    // so many words of a row hold its first bits, and so many all
    size: usize,
    words: usize,
    rows: Vec<u64>,
    // of each of the first bits one more than the number of the row that begins with it, or 0
    begun: Vec<u32>,
    count: u32,
    row: Vec<u64>,
}

/// How many words hold so many bits.
pub(crate) fn words_of(bits: usize) -> usize {
    bits.saturating_add(63) / 64
}

impl Echelon {
    /// No rows of so many first bits, and so many others.
    pub(crate) fn new(alloc: Global, first: usize, others: usize) -> Result<Echelon, AllocError> {
        let size = words_of(first);
        let words = size.saturating_add(words_of(others));
        let begun = vec![in alloc; 0; size.saturating_mul(64)]?;
        let row = vec![in alloc; 0; words]?;
        Ok(Echelon {
            size,
            words,
            rows: Vec::new(alloc),
            begun,
            count: 0,
            row,
        })
    }

    /// Leaves out all rows.
    pub(crate) fn clear(&mut self) {
        self.rows.clear();
        self.count = 0;
        for place in 0..self.begun.len() {
            put_at(&mut self.begun, place, 0);
        }
    }

    /// Begins a row.
    pub(crate) fn begin(&mut self) {
        for word in 0..self.words {
            put_at(&mut self.row, word, 0);
        }
    }

    /// Turns one of the first bits.
    pub(crate) fn turn(&mut self, place: usize) {
        let word = at(&self.row, place / 64, 0) ^ bit(place % 64);
        put_at(&mut self.row, place / 64, word);
    }

    /// Turns one of the others.
    pub(crate) fn turn_other(&mut self, place: usize) {
        self.turn(place.wrapping_add(self.size.wrapping_mul(64)));
    }

    /// Whether one of the first bits is 1.
    pub(crate) fn has(&self, place: usize) -> bool {
        has(at(&self.row, place / 64, 0), place % 64)
    }

    /// Whether one of the others is 1.
    pub(crate) fn has_other(&self, place: usize) -> bool {
        self.has(place.wrapping_add(self.size.wrapping_mul(64)))
    }

    // Adds a row from a word on.
    fn add(&mut self, number: u32, from: usize) {
        let start = (number as usize).wrapping_mul(self.words);
        for word in from..self.words {
            let sum = at(&self.row, word, 0) ^ at(&self.rows, start.wrapping_add(word), 0);
            put_at(&mut self.row, word, sum);
        }
    }

    // Clears what can be cleared in a word.
    fn reduce_word(&mut self, word: usize) {
        let mut seen = 0u64;
        for _ in 0..64 {
            let left = at(&self.row, word, 0) & !seen;
            if left == 0 {
                return;
            }
            let place = word.wrapping_mul(64).wrapping_add(lowest(left));
            let begun = at(&self.begun, place, 0);
            if begun == 0 {
                seen |= bit(lowest(left));
            } else {
                self.add(begun.wrapping_sub(1), word);
            }
        }
    }

    /// The first bit that is 1.
    pub(crate) fn first(&self) -> Option<usize> {
        for word in 0..self.size {
            let bits = at(&self.row, word, 0);
            if bits != 0 {
                return Some(word.wrapping_mul(64).wrapping_add(lowest(bits)));
            }
        }
        None
    }

    /// How many of the first bits are 1.
    pub(crate) fn weight(&self) -> usize {
        let mut weight = 0usize;
        for word in 0..self.size {
            weight = weight.wrapping_add(size_of(at(&self.row, word, 0)));
        }
        weight
    }

    /// Clears what can be cleared.
    pub(crate) fn reduce(&mut self) {
        for word in 0..self.size {
            self.reduce_word(word);
        }
    }

    /// Keeps the row, which is reduced, if one of its first bits is 1. Whether it is kept.
    pub(crate) fn keep(&mut self) -> Result<bool, AllocError> {
        let Some(place) = self.first() else {
            return Ok(false);
        };
        for word in 0..self.words {
            self.rows.push(at(&self.row, word, 0))?;
        }
        self.count = self.count.wrapping_add(1);
        put_at(&mut self.begun, place, self.count);
        Ok(true)
    }

    // The row of a number is the one that is being made.
    fn load(&mut self, number: u32) {
        self.begin();
        self.add(number, 0);
    }

    // The row that is being made takes the place of another one.
    fn store(&mut self, number: u32) {
        let start = (number as usize).wrapping_mul(self.words);
        for word in 0..self.words {
            let bits = at(&self.row, word, 0);
            put_at(&mut self.rows, start.wrapping_add(word), bits);
        }
    }

    /// Clears in each row the first bits of the others.
    pub(crate) fn settle(&mut self) {
        for number in 0..self.count {
            self.load(number);
            if let Some(place) = self.first() {
                self.turn(place);
                self.reduce();
                self.turn(place);
                self.store(number);
            }
        }
    }

    // How many of the first bits are 1 with a row added.
    fn weight_with(&self, number: u32) -> usize {
        let start = (number as usize).wrapping_mul(self.words);
        let mut weight = 0usize;
        for word in 0..self.size {
            let bits = at(&self.row, word, 0) ^ at(&self.rows, start.wrapping_add(word), 0);
            weight = weight.wrapping_add(size_of(bits));
        }
        weight
    }

    /// Adds rows as long as fewer of the first bits are 1 then.
    pub(crate) fn lighten(&mut self) {
        for _ in 0..self.count {
            let mut least = self.weight();
            let mut best = None;
            for number in 0..self.count {
                let weight = self.weight_with(number);
                if weight < least {
                    least = weight;
                    best = Some(number);
                }
            }
            match best {
                Some(number) => self.add(number, 0),
                None => return,
            }
        }
    }

    /// How many words a row has.
    pub(crate) fn words(&self) -> usize {
        self.words
    }

    /// Whether a row begins with this bit.
    pub(crate) fn is_begun(&self, place: usize) -> bool {
        at(&self.begun, place, 0) != 0
    }

    /// Adds words to the row that is being made.
    pub(crate) fn add_words(&mut self, list: &[u64]) {
        for word in 0..self.words {
            let sum = at(&self.row, word, 0) ^ at(list, word, 0);
            put_at(&mut self.row, word, sum);
        }
    }

    /// The words of the row that is being made that hold the other bits.
    pub(crate) fn others(&self) -> &[u64] {
        part(&self.row, self.size, self.words)
    }

    /// Adds the words of the others to a list.
    pub(crate) fn push_others(&mut self, list: &mut Vec<u64>) -> Result<(), AllocError> {
        for word in self.size..self.words {
            list.push(at(&self.row, word, 0))?;
        }
        Ok(())
    }

    /// The others of the row that is being made are those of another one.
    pub(crate) fn set_others(&mut self, list: &[u64]) {
        for word in self.size..self.words {
            put_at(
                &mut self.row,
                word,
                at(list, word.wrapping_sub(self.size), 0),
            );
        }
    }

    /// The row that is being made.
    pub(crate) fn row(&self) -> &[u64] {
        &self.row
    }
}
