// What lines hold, as sums of what they held, and the other way.
use crate::common::{at, bit, has, put_at, sum_of};
use std::alloc::{AllocError, Global};

/// Of each line the sum that it holds, and of each sum the lines that hold it now.
#[derive(Drop)]
pub(crate) struct Frame {
    pub(crate) rows: Vec<u64>,
    pub(crate) inverse: Vec<u64>,
    spare: Vec<u64>,
}

impl Frame {
    /// Each of so many lines holds itself.
    pub(crate) fn new(alloc: Global, lines: usize) -> Result<Frame, AllocError> {
        let rows = vec![in alloc; 0; lines]?;
        let inverse = vec![in alloc; 0; lines]?;
        let spare = vec![in alloc; 0; lines]?;
        let mut frame = Frame {
            rows,
            inverse,
            spare,
        };
        frame.begin();
        Ok(frame)
    }

    /// Each line holds itself.
    pub(crate) fn begin(&mut self) {
        for line in 0..self.rows.len() {
            put_at(&mut self.rows, line, bit(line));
            put_at(&mut self.inverse, line, bit(line));
        }
    }

    pub(crate) fn row(&self, line: usize) -> u64 {
        at(&self.rows, line, 0)
    }

    /// A line is added to another one.
    pub(crate) fn flip(&mut self, control: usize, target: usize) {
        let sum = self.row(control) ^ self.row(target);
        put_at(&mut self.rows, target, sum);
        for line in 0..self.inverse.len() {
            let set = at(&self.inverse, line, 0);
            if has(set, target) {
                put_at(&mut self.inverse, line, set ^ bit(control));
            }
        }
    }

    /// The lines that hold a sum.
    pub(crate) fn lines_of(&self, set: u64) -> u64 {
        sum_of(&self.inverse, set)
    }

    /// From sums of what lines held to sums of what they should hold, by the map to these and its inverse.
    pub(crate) fn pass(&mut self, map: &[u64], inverse: &[u64]) {
        for line in 0..self.rows.len() {
            let row = sum_of(inverse, self.row(line));
            put_at(&mut self.rows, line, row);
            let set = self.lines_of(at(map, line, 0));
            put_at(&mut self.spare, line, set);
        }
        for line in 0..self.inverse.len() {
            let set = at(&self.spare, line, 0);
            put_at(&mut self.inverse, line, set);
        }
    }
}
