// What a circuit is to give.
ghost use Rattle.std.specs.Prelude.{◌≡◌};

use crate::basis::Basis;
use crate::cells::{at, bit, column_of, has, put_at, size_of};
use rv_pla::{Entry, Pla};
use std::alloc::{AllocError, Global};

/// A table as a search sees it: of each word the outputs that are 1, and those that are not free.
///
/// Input 0 is the most significant bit of a word's number, and output `j` is bit `j`.
#[derive(Drop)]
pub struct Task {
    pub(crate) inputs: usize,
    pub(crate) outputs: usize,
    pub(crate) ones: Vec<u32>,
    pub(crate) cares: Vec<u32>,
    // of each output, at how many words it isn't free
    pub(crate) counts: Vec<i64>,
}

impl Task {
    /// The task of a table.
    pub fn new(alloc: Global, pla: &Pla) -> Result<Task, AllocError> {
        let (inputs, outputs) = (pla.inputs(), pla.outputs());
        let mut ones = vec![in alloc; 0u32; 1usize << inputs]?;
        let mut cares = vec![in alloc; 0u32; 1usize << inputs]?;
        for number in 0..1u32 << inputs {
            let (mut one, mut care) = (0u32, 0u32);
            for output in 0..outputs {
                let entry = pla.value(number, output);
                if entry.bit() {
                    one |= bit(usize::from(output));
                }
                if !entry.is_dont_care() {
                    care |= bit(usize::from(output));
                }
            }
            put_at(&mut ones, number as usize, one);
            put_at(&mut cares, number as usize, care);
        }
        Task::of(
            alloc,
            usize::from(inputs),
            usize::from(outputs),
            ones,
            cares,
        )
    }

    /// The task of so many inputs and outputs, by the outputs that are 1 at each word, and those that are not free.
    pub fn of(
        alloc: Global,
        inputs: usize,
        outputs: usize,
        ones: Vec<u32>,
        cares: Vec<u32>,
    ) -> Result<Task, AllocError> {
        let mut counts = vec![in alloc; 0i64; outputs]?;
        for output in 0..outputs {
            put_at(&mut counts, output, count_of(&cares, output));
        }
        Ok(Task {
            inputs,
            outputs,
            ones,
            cares,
            counts,
        })
    }

    pub(crate) fn words(&self) -> usize {
        size_of(self.inputs)
    }

    pub(crate) fn count(&self, output: usize) -> i64 {
        at(&self.counts, output, 0)
    }

    // What an output is to be at a word: 1 for the bit 0, -1 for the bit 1, and 0 where it is free.
    pub(crate) fn sign(&self, word: usize, output: usize) -> i64 {
        if !has(at(&self.cares, word, 0), output) {
            0
        } else if has(at(&self.ones, word, 0), output) {
            -1
        } else {
            1
        }
    }

    // Whether an output is free nowhere.
    fn is_whole(&self, output: usize) -> bool {
        for care in &self.cares {
            if !has(*care, output) {
                return false;
            }
        }
        true
    }

    // The bits of an output at all words.
    pub(crate) fn column(&self, alloc: Global, output: usize) -> Result<Vec<bool>, AllocError> {
        column_of(alloc, &self.ones, output)
    }

    // The outputs that are no sums of those before them, as bits.
    fn kept(&self, alloc: Global) -> Result<u32, AllocError> {
        let mut basis = Basis::new(alloc, self.words());
        basis.add_ones(alloc)?;
        let mut kept = 0u32;
        for output in 0..self.outputs.min(32) {
            let column = self.column(alloc, output)?;
            if !self.is_whole(output) || basis.add(column, 0)? {
                kept |= bit(output);
            }
        }
        Ok(kept)
    }

    // The task without outputs that are sums of others.
    pub(crate) fn independent(&self, alloc: Global) -> Result<Task, AllocError> {
        let kept = self.kept(alloc)?;
        let ones = picked(alloc, &self.ones, kept)?;
        let cares = picked(alloc, &self.cares, kept)?;
        Task::of(alloc, self.inputs, kept.count_ones() as usize, ones, cares)
    }
}

// At how many words an output isn't free.
fn count_of(cares: &[u32], output: usize) -> i64 {
    let mut count = 0i64;
    for care in cares {
        if has(*care, output) {
            count = count.wrapping_add(1);
        }
    }
    count
}

// The bits of a word that others have, side by side.
fn picked_of(word: u32, kept: u32) -> u32 {
    let (mut bits, mut next) = (0u32, 0usize);
    for place in 0..32usize {
        if has(kept, place) {
            if has(word, place) {
                bits |= bit(next);
            }
            next = next.wrapping_add(1);
        }
    }
    bits
}

fn picked(alloc: Global, words: &[u32], kept: u32) -> Result<Vec<u32>, AllocError> {
    let mut picked = vec![in alloc; 0u32; words.len()]?;
    for k in 0..words.len() {
        put_at(&mut picked, k, picked_of(at(words, k, 0), kept));
    }
    Ok(picked)
}
