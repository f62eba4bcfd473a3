// About how many T gates a circuit takes.
use rv_gate::{Gate, MOST_LINES, Shape, has};
use std::alloc::{AllocError, Global};

// What a line holds, as a number that stands for a sum: of its bits, or in the other basis.
#[derive(Clone, Copy)]
struct Line {
    sum: u64,
    is_turned: bool,
}

// The lines, the sums by which T gates turn, and the T gates of large gates.
#[derive(Drop)]
struct Turns {
    lines: [Line; 64],
    numbers: u64,
    sums: Vec<u64>,
    large: u64,
}

// The place of the first line of a set.
fn first_of(lines: u64) -> usize {
    lines.trailing_zeros() as usize % 64
}

impl Turns {
    fn new(alloc: Global) -> Turns {
        let line = Line {
            sum: 0,
            is_turned: false,
        };
        let mut turns = Turns {
            lines: [line; 64],
            numbers: 0,
            sums: Vec::new(alloc),
            large: 0,
        };
        for line in 0..64 {
            let sum = turns.next();
            turns.lines[line].sum = sum;
        }
        turns
    }

    // A number for what is new.
    fn next(&mut self) -> u64 {
        self.numbers = self.numbers.wrapping_add(0x9E37_79B9_7F4A_7C15);
        let x = (self.numbers ^ self.numbers >> 30).wrapping_mul(0xBF58_476D_1CE4_E5B9);
        let x = (x ^ x >> 27).wrapping_mul(0x94D0_49BB_1331_11EB);
        x ^ x >> 31
    }

    // The sum on a line in a basis.
    fn sum(&mut self, line: usize, is_turned: bool) -> u64 {
        let next = self.next();
        let there = &mut self.lines[line % 64];
        if there.is_turned != is_turned {
            there.sum = next;
            there.is_turned = is_turned;
        }
        there.sum
    }

    // A line is added to another.
    fn add(&mut self, control: usize, target: usize) {
        let (from, to) = (self.lines[control % 64], self.lines[target % 64]);
        if from.is_turned && to.is_turned {
            self.lines[control % 64].sum = from.sum ^ to.sum;
            return;
        }
        let sum = self.sum(control, false);
        if !to.is_turned {
            self.lines[target % 64].sum = to.sum ^ sum;
        }
    }

    // The product of two lines is added to another.
    fn multiply(&mut self, one: usize, other: usize, target: usize) -> Result<(), AllocError> {
        let (a, b) = (self.sum(one, false), self.sum(other, false));
        let c = self.sum(target, true);
        for sum in [a, b, c, a ^ b, a ^ c, b ^ c, a ^ b ^ c] {
            self.sums.push(sum)?;
        }
        Ok(())
    }

    // Any flip.
    fn flip(&mut self, care: u64, target: usize) -> Result<(), AllocError> {
        let first = first_of(care);
        match care.count_ones() {
            0 => {}
            1 => self.add(first, target),
            2 => return self.multiply(first, first_of(care & care.wrapping_sub(1)), target),
            controls => {
                for line in 0..MOST_LINES {
                    if has(care, line) {
                        self.sum(usize::from(line), false);
                    }
                }
                self.sum(target, true);
                let more = u64::from(controls).saturating_mul(8).saturating_sub(9);
                self.large = self.large.saturating_add(more);
            }
        }
        Ok(())
    }

    // Those of large gates, and one for each sum that is met an odd number of times.
    fn count(&mut self) -> Result<u64, AllocError> {
        self.sums.sort()?;
        let (mut count, mut last, mut is_odd) = (self.large, 0u64, false);
        for sum in &self.sums {
            if *sum != last {
                count = count.saturating_add(u64::from(is_odd));
                last = *sum;
                is_odd = false;
            }
            is_odd = !is_odd;
        }
        Ok(count.saturating_add(u64::from(is_odd)))
    }
}

/// About how many T gates are left of gates when those that turn by the same sums are joined.
pub(crate) fn turns_of(alloc: Global, gates: &[Gate]) -> Result<u64, AllocError> {
    let mut turns = Turns::new(alloc);
    for gate in gates {
        if let Shape::Flip { care, target, .. } = gate.shape() {
            turns.flip(care, usize::from(target))?;
        }
    }
    turns.count()
}
