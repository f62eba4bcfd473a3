// What lines hold by the lines of the plan, while CNOTs stand.
use crate::layout::{is_in, set_of};
use crate::lists::{at, put_at};
use rv_gate::LineSet;

const LINES: usize = 64;

/// Of each line the lines of the plan whose sum it holds; and of each line of the plan the lines whose sum is what it holds.
#[derive(Drop)]
pub(crate) struct Basis {
    sums: [LineSet; LINES],
    reads: [LineSet; LINES],
}

impl Basis {
    /// Each line holds what it does in the plan.
    pub(crate) fn new() -> Basis {
        let mut sets = [0u64; LINES];
        for line in 0..LINES {
            sets[line] = set_of(line);
        }
        Basis {
            sums: sets,
            reads: sets,
        }
    }

    /// The lines of the plan whose sum a line holds.
    pub(crate) fn sum(&self, line: usize) -> LineSet {
        at(&self.sums, line, 0)
    }

    /// A CNOT more.
    pub(crate) fn add(&mut self, from: usize, to: usize) {
        let sum = self.sum(to) ^ self.sum(from);
        put_at(&mut self.sums, to, sum);
        for line in 0..LINES {
            if is_in(self.reads[line], to) {
                self.reads[line] ^= set_of(from);
            }
        }
    }

    /// The lines whose sum is what lines of the plan hold together.
    pub(crate) fn read(&self, set: LineSet) -> LineSet {
        let mut lines = 0;
        for line in 0..LINES {
            if is_in(set, line) {
                lines ^= self.reads[line];
            }
        }
        lines
    }

    /// The lines whose sums have an odd number of these lines of the plan.
    pub(crate) fn odd(&self, set: LineSet) -> LineSet {
        let mut lines = 0;
        for line in 0..LINES {
            if (self.sums[line] & set).count_ones() % 2 == 1 {
                lines |= set_of(line);
            }
        }
        lines
    }
}
