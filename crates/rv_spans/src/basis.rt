// A basis of columns of bits, each without the first bits of the others.
use crate::cells::{at, first_one, put_at};
use std::alloc::{AllocError, Global};

// The name of the column of ones.
pub(crate) const ONES: u64 = 1 << 63;

#[derive(Clone, Copy)]
struct Row {
    // the place of its first bit
    lead: usize,
    // the names of the columns whose sum it is
    names: u64,
}

#[derive(Drop)]
pub(crate) struct Basis {
    words: usize,
    rows: Vec<Row>,
    // the bits of all rows, one after another
    bits: Vec<bool>,
}

impl Basis {
    pub(crate) fn new(alloc: Global, words: usize) -> Basis {
        Basis {
            words,
            rows: Vec::new(alloc),
            bits: Vec::new(alloc),
        }
    }

    fn row(&self, place: usize) -> Row {
        at(&self.rows, place, Row { lead: 0, names: 0 })
    }

    fn bit(&self, row: usize, word: usize) -> bool {
        let place = row.wrapping_mul(self.words).wrapping_add(word);
        at(&self.bits, place, false)
    }

    // Takes rows off a column as long as it has their first bits. Gives the names of what was taken.
    pub(crate) fn reduce(&self, column: &mut [bool]) -> u64 {
        let mut names = 0u64;
        for k in 0..self.rows.len() {
            let row = self.row(k);
            if at(column, row.lead, false) {
                names ^= row.names;
                for word in row.lead..self.words {
                    let bit = at(column, word, false) != self.bit(k, word);
                    put_at(column, word, bit);
                }
            }
        }
        names
    }

    // Takes a column off each row that has a bit at its place.
    fn clear(&mut self, lead: usize, column: &[bool], names: u64) {
        for k in 0..self.rows.len() {
            if self.bit(k, lead) {
                let row = self.row(k);
                put_at(
                    &mut self.rows,
                    k,
                    Row {
                        names: row.names ^ names,
                        ..row
                    },
                );
                for word in lead..self.words {
                    let bit = self.bit(k, word) != at(column, word, false);
                    let place = k.wrapping_mul(self.words).wrapping_add(word);
                    put_at(&mut self.bits, place, bit);
                }
            }
        }
    }

    // Adds a column. Answers whether it was no sum of those before.
    pub(crate) fn add(&mut self, column: Vec<bool>, name: u64) -> Result<bool, AllocError> {
        let mut rest = column;
        let names = self.reduce(&mut rest) ^ name;
        let Some(lead) = first_one(&rest) else {
            return Ok(false);
        };
        self.clear(lead, &rest, names);
        self.rows.push(Row { lead, names })?;
        self.bits.extend_from_slice(&rest)?;
        Ok(true)
    }

    // Adds the column of ones.
    pub(crate) fn add_ones(&mut self, alloc: Global) -> Result<(), AllocError> {
        let ones = vec![in alloc; true; self.words]?;
        let _ = self.add(ones, ONES)?;
        Ok(())
    }

    // A number by which spans are told apart: it doesn't depend on the order of the rows.
    pub(crate) fn key(&self) -> u64 {
        let mut sum = 0u64;
        for k in 0..self.rows.len() {
            let mut key = 0x1234_5678_9ABC_DEF1u64;
            for word in 0..self.words {
                let bit = u64::from(self.bit(k, word));
                key = (key << 1 ^ key >> 63 ^ bit).wrapping_mul(0x9E37_79B9_7F4A_7C15);
                key ^= key >> 29;
            }
            sum = sum.wrapping_add(key);
        }
        sum
    }
}
