// Products for a table that multiplies two numbers: rows of the first one are added one after another.
use crate::cells::{at, bit, number_of};
use crate::step::Step;
use crate::task::Task;
use std::alloc::{AllocError, Global};

// The inputs are the bits of both numbers, the lowest first: those of a row, and then those that rows are added for.
// Coordinates of outputs follow, the lowest first.
#[derive(Drop)]
struct Rows {
    steps: Vec<Step>,
    inputs: usize,
    width: usize,
}

// A row that is added from a place on, to so many outputs.
#[derive(Clone, Copy)]
struct Row {
    place: usize,
    outputs: usize,
}

impl Rows {
    fn control(&self, row: Row) -> u32 {
        bit(self.width.saturating_add(row.place))
    }

    fn output(&self, row: Row, k: usize) -> u32 {
        bit(self.inputs.saturating_add(row.place).saturating_add(k))
    }

    // The place of the highest bit of a row.
    fn top(&self) -> usize {
        self.width.saturating_sub(1)
    }

    fn make(&mut self, forms: &[u32], lambda: u32) -> Result<(), AllocError> {
        self.steps.push(Step {
            lambda,
            ..Step::of(forms, u32::MAX)
        })?;
        Ok(())
    }

    // A bit of the row and what is carried to it, where all carries below were made: those are sums of neighbours.
    fn carried(&self, k: usize) -> u32 {
        if k == 0 {
            bit(0)
        } else {
            bit(k) ^ bit(k.saturating_sub(1))
        }
    }

    // What is carried from a bit on goes to the next one, or is taken off it.
    fn carry(&mut self, row: Row, k: usize) -> Result<(), AllocError> {
        let mut lambda = 0u32;
        for j in k.saturating_add(1)..self.width {
            lambda ^= bit(j);
            if row.place.saturating_add(j) < row.outputs {
                lambda ^= self.output(row, j);
            }
        }
        let forms = [self.output(row, k) ^ bit(k), self.carried(k)];
        self.make(&forms, lambda)
    }

    // Adds a bit and what is carried to it to an output.
    fn sum(&mut self, row: Row, k: usize) -> Result<(), AllocError> {
        let forms = [self.control(row), self.carried(k)];
        let output = self.output(row, k);
        self.make(&forms, output)
    }

    // The first row.
    fn begin(&mut self) -> Result<(), AllocError> {
        let control = bit(self.width);
        for k in 0..self.width {
            self.make(&[control, bit(k)], 0)?;
        }
        Ok(())
    }

    // What is carried from the highest bit, on a coordinate of its own: first the bit itself, and then what else it is
    // where all carries were made.
    fn add_last(&mut self, row: Row) -> Result<(), AllocError> {
        let top = self.top();
        let forms = [
            self.control(row),
            self.output(row, top) ^ bit(top),
            self.carried(top),
        ];
        let last = self.output(row, self.width);
        self.make(&forms, last)
    }

    // All carries of a row are made, and taken off again from the highest one on, as soon as its sum was made.
    fn add(&mut self, row: Row) -> Result<(), AllocError> {
        let (top, control) = (self.top(), self.control(row));
        let is_second = row.place == 1;
        if !is_second {
            self.make(&[control, bit(top)], 0)?;
        }
        for k in 0..top {
            self.carry(row, k)?;
        }
        if is_second {
            let carried = self.carried(top);
            self.make(&[control, carried], 0)?;
        } else {
            self.add_last(row)?;
            self.sum(row, top)?;
        }
        for j in 0..top {
            let k = top - 1 - j;
            self.carry(row, k)?;
            self.sum(row, k)?;
        }
        if is_second {
            let forms = [bit(top), self.output(row, top) ^ control];
            self.make(&forms, 0)?;
        }
        Ok(())
    }

    fn add_all(&mut self) -> Result<(), AllocError> {
        self.begin()?;
        for place in 1..self.inputs.saturating_sub(self.width) {
            let outputs = if place == 1 {
                self.width
            } else {
                self.width.saturating_add(place)
            };
            self.add(Row { place, outputs })?;
        }
        Ok(())
    }
}

// The number that the outputs are at a word: the first of them is its highest bit.
fn value(task: &Task, word: usize) -> u32 {
    let most = 32u32.saturating_sub(number_of(task.outputs).min(32));
    at(&task.ones, word, 0)
        .reverse_bits()
        .checked_shr(most)
        .unwrap_or(0)
}

// Whether the outputs are the product of the lower inputs, so many, and the others.
fn is_product(task: &Task, width: usize) -> bool {
    if task.outputs != task.inputs {
        return false;
    }
    for word in 0..task.ones.len() {
        let high = word.checked_shr(number_of(width)).unwrap_or(0);
        let low = word & (bit(width) as usize).wrapping_sub(1);
        if value(task, word) != number_of(high.wrapping_mul(low)) {
            return false;
        }
    }
    true
}

// How wide the first number is, if the outputs are a product.
fn width_of(task: &Task) -> Option<usize> {
    for width in 2..task.inputs.saturating_sub(1) {
        if is_product(task, width) {
            return Some(width);
        }
    }
    None
}

/// Steps after which all outputs are forms, if they are the product of two numbers.
pub(crate) fn multiplied(alloc: Global, task: &Task) -> Result<Option<Vec<Step>>, AllocError> {
    match width_of(task) {
        Some(width) => {
            let mut rows = Rows {
                steps: Vec::new(alloc),
                inputs: task.inputs,
                width,
            };
            rows.add_all()?;
            Ok(Some(rows.steps))
        }
        None => Ok(None),
    }
}
