// Lines that hold sums of coordinates, and the gates that were put on them.
use crate::cells::{at, has, put_at};
use rv_gate::Gate;
use std::alloc::{AllocError, Global};

// What a coordinate is: the sum of lines, and of 1 where `constant` is set.
#[derive(Clone, Copy)]
pub(crate) struct Sum {
    pub(crate) lines: u64,
    pub(crate) constant: bool,
}

pub(crate) const NO_SUM: Sum = Sum {
    lines: 0,
    constant: false,
};

pub(crate) fn line_bit(line: u8) -> u64 {
    1u64 << (line % 64)
}

pub(crate) fn is_on(lines: u64, line: u8) -> bool {
    lines & line_bit(line) != 0
}

// The lowest line of a set that isn't empty.
pub(crate) fn lowest(lines: u64) -> u8 {
    lines.trailing_zeros().min(63) as u8
}

#[derive(Drop)]
pub(crate) struct Lines {
    pub(crate) gates: Vec<Gate>,
    pub(crate) sums: Vec<Sum>,
    pub(crate) free: Vec<u8>,
}

impl Lines {
    // Input 0 is the highest coordinate.
    pub(crate) fn new(alloc: Global, inputs: u8, lines: u8) -> Result<Lines, AllocError> {
        let mut sums = Vec::new(alloc);
        for k in 0..inputs {
            let line = inputs - 1 - k;
            sums.push(Sum {
                lines: line_bit(line),
                constant: false,
            })?;
        }
        let mut free = Vec::new(alloc);
        for line in inputs..lines {
            free.push(line)?;
        }
        free.reverse();
        Ok(Lines {
            gates: Vec::new(alloc),
            sums,
            free,
        })
    }

    // A flip; none where its target is a control.
    pub(crate) fn flip(&mut self, care: u64, want: u64, target: u8) -> Result<(), AllocError> {
        if let Some(gate) = Gate::flip(care, want & care, target) {
            self.gates.push(gate)?;
        }
        Ok(())
    }

    pub(crate) fn not(&mut self, target: u8) -> Result<(), AllocError> {
        for k in 0..self.sums.len() {
            let sum = at(&self.sums, k, NO_SUM);
            if is_on(sum.lines, target) {
                put_at(
                    &mut self.sums,
                    k,
                    Sum {
                        constant: !sum.constant,
                        ..sum
                    },
                );
            }
        }
        self.flip(0, 0, target)
    }

    pub(crate) fn cnot(&mut self, control: u8, target: u8) -> Result<(), AllocError> {
        for k in 0..self.sums.len() {
            let sum = at(&self.sums, k, NO_SUM);
            if is_on(sum.lines, target) {
                put_at(
                    &mut self.sums,
                    k,
                    Sum {
                        lines: sum.lines ^ line_bit(control),
                        ..sum
                    },
                );
            }
        }
        self.flip(line_bit(control), line_bit(control), target)
    }

    // A form of the coordinates as a sum of lines.
    pub(crate) fn form(&self, form: u32) -> Sum {
        let mut sum = NO_SUM;
        for k in 0..self.sums.len() {
            if has(form, k) {
                let own = at(&self.sums, k, NO_SUM);
                sum.lines ^= own.lines;
                sum.constant = sum.constant != own.constant;
            }
        }
        sum
    }

    // Brings a form on one line, none of those taken.
    pub(crate) fn gather(&mut self, form: u32, taken: u64) -> Result<Option<u8>, AllocError> {
        let sum = self.form(form);
        let free = sum.lines & !taken;
        if free == 0 {
            return Ok(None);
        }
        let pivot = lowest(free);
        for line in 0..64u8 {
            if line != pivot && is_on(sum.lines, line) {
                self.cnot(line, pivot)?;
            }
        }
        Ok(Some(pivot))
    }

    // The lines whose change changes just the coordinates of a direction.
    pub(crate) fn direction(&self, lambda: u32) -> u64 {
        let mut rows = [NO_ROW; MOST_ROWS];
        for k in 0..self.sums.len() {
            let lines = at(&self.sums, k, NO_SUM).lines;
            put_at(&mut rows, k, (lines, has(lambda, k)));
        }
        let mut done = 0usize;
        for line in 0..64u8 {
            let place = pivot_of(&rows, done, line);
            if place < MOST_ROWS {
                exchange(&mut rows, done, place);
                clear(&mut rows, done, line);
                done = done.wrapping_add(1);
            }
        }
        let mut lines = 0u64;
        for row in &rows {
            if row.1 && row.0 != 0 {
                lines |= line_bit(lowest(row.0));
            }
        }
        lines
    }
}

// Lines, and whether their sum is to change.
type Row = (u64, bool);

const NO_ROW: Row = (0, false);

const MOST_ROWS: usize = 32;

// The first row from a place on that has a line.
fn pivot_of(rows: &[Row], from: usize, line: u8) -> usize {
    for place in from..rows.len() {
        if is_on(at(rows, place, NO_ROW).0, line) {
            return place;
        }
    }
    MOST_ROWS
}

fn exchange(rows: &mut [Row], one: usize, other: usize) {
    let (first, second) = (at(rows, one, NO_ROW), at(rows, other, NO_ROW));
    put_at(rows, other, first);
    put_at(rows, one, second);
}

// Takes a row off all others that have a line.
fn clear(rows: &mut [Row], place: usize, line: u8) {
    let row = at(rows, place, NO_ROW);
    for k in 0..rows.len() {
        let other = at(rows, k, NO_ROW);
        if k != place && is_on(other.0, line) {
            put_at(rows, k, (other.0 ^ row.0, other.1 != row.1));
        }
    }
}
