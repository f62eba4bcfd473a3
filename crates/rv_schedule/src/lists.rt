// Lists of entries in one store: the last one is open, and takes entries.
use std::alloc::{AllocError, Global};

/// A list for each number from 0 on, made one after another; past the end they are empty.
#[derive(Drop)]
pub(crate) struct Lists<T> {
    entries: Vec<T>,
    // where each list ends
    ends: Vec<usize>,
}

impl<T: Copy> Lists<T> {
    pub(crate) fn new(alloc: Global) -> Lists<T> {
        Lists {
            entries: Vec::new(alloc),
            ends: Vec::new(alloc),
        }
    }

    // Where the list of this number ends; the open one has the next number.
    fn end_of(&self, number: usize) -> usize {
        match self.ends.get(number) {
            Some(end) => *end,
            None => self.entries.len(),
        }
    }

    /// The list of this number.
    pub(crate) fn get(&self, number: usize) -> &[T] {
        let from = if number == 0 {
            0
        } else {
            self.end_of(number - 1)
        };
        match self.entries.get(from..self.end_of(number)) {
            Some(list) => list,
            None => &[],
        }
    }

    /// The list that takes entries.
    pub(crate) fn open(&self) -> &[T] {
        self.get(self.ends.len())
    }

    pub(crate) fn push(&mut self, entry: T) -> Result<(), AllocError> {
        self.entries.push(entry)?;
        Ok(())
    }

    /// The open list is made, and the next one is open.
    pub(crate) fn close(&mut self) -> Result<(), AllocError> {
        self.ends.push(self.entries.len())?;
        Ok(())
    }
}
