// A search for few flips on few lines that make given sums on the way, and end with a given linear map.
use crate::common::{add, at, put_at, set};
use crate::packed::{UNIT, add_column, add_row, count, lacking, row, without, wrong};
use crate::random::Random;
use std::alloc::{AllocError, Global};

/// Windows have at most so many flips.
pub(crate) const MOST_FLIPS: usize = 12;

/// And at most so many lines.
pub(crate) const MOST_LINES: usize = 7;

// So many ways are gone on from.
const WIDTH: usize = 6;

// A step may raise the score by so much.
const SLACK: u32 = 60;

// What a sum of so many lines scores.
const PLAIN: [u32; 9] = [0, 0, 20, 40, 60, 80, 100, 120, 140];

const CURVED: [u32; 9] = [0, 0, 20, 30, 39, 46, 53, 59, 64];

/// What is to be made, as sums of the lines as they are: a line for each line that is wanted, and the other way; the
/// other sums; and the flips so far.
#[derive(Clone, Copy)]
pub(crate) struct State {
    pub(crate) wanted: u64,
    pub(crate) inverse: u64,
    pub(crate) sums: [u64; 2],
    pub(crate) flips: [u8; 16],
    pub(crate) count: usize,
    score: u32,
    tie: u64,
}

/// How a state is valued.
#[derive(Clone, Copy)]
pub(crate) struct Way {
    pub(crate) lines: u32,
    pub(crate) is_curved: bool,
    pub(crate) linear: u32,
}

fn score_of_rows(way: Way, rows: u64) -> u32 {
    let mut score = 0u32;
    for line in 0..8 {
        let weight = row(rows, line).count_ones() as usize;
        let part = if way.is_curved {
            at(&CURVED, weight, 0)
        } else {
            at(&PLAIN, weight, 0)
        };
        score = score.wrapping_add(part);
    }
    score
}

fn score_of(way: Way, state: &State) -> u32 {
    let weights = state
        .wanted
        .count_ones()
        .wrapping_add(state.inverse.count_ones());
    let extra = weights.saturating_sub(16).wrapping_mul(2);
    let linear = extra.wrapping_add(lacking(state.inverse));
    linear
        .wrapping_mul(way.linear)
        .wrapping_add(score_of_rows(way, state.sums[0]))
        .wrapping_add(score_of_rows(way, state.sums[1]))
}

fn left_of(state: &State) -> u32 {
    count(state.sums[0]).wrapping_add(count(state.sums[1]))
}

impl State {
    /// The lines as they are are wanted, and nothing else.
    pub(crate) fn new() -> State {
        State {
            wanted: UNIT,
            inverse: UNIT,
            sums: [0, 0],
            flips: [0; 16],
            count: 0,
            score: 0,
            tie: 0,
        }
    }

    fn is_done(&self) -> bool {
        self.wanted == UNIT && self.sums[0] == 0 && self.sums[1] == 0
    }

    // A state one flip on, and the number of it that is told.
    fn flipped(&self, control: u32, target: u32) -> State {
        let first = without(add_column(self.sums[0], control, target), target);
        let second = without(add_column(self.sums[1], control, target), target);
        let mut next = *self;
        next.wanted = add_row(self.wanted, control, target);
        next.inverse = add_column(self.inverse, control, target);
        next.sums = [first, second];
        next
    }

    fn note(&mut self, control: u32, target: u32) {
        let number = (control % 8 * 8).wrapping_add(target % 8) & 0xFF;
        put_at(&mut self.flips, self.count, number as u8);
        self.count = self.count.wrapping_add(1);
    }

    /// The control and the target of a flip.
    pub(crate) fn flip(&self, place: usize) -> (usize, usize) {
        let number = at(&self.flips, place, 0);
        (usize::from(number / 8), usize::from(number % 8))
    }

    fn weight(&self) -> u32 {
        self.wanted
            .count_ones()
            .wrapping_add(self.inverse.count_ones())
    }

    // One flip on, noted.
    fn after(&self, control: u32, target: u32) -> State {
        let mut next = self.flipped(control, target);
        next.note(control, target);
        next
    }

    // A flip after which the least is left to do, if that is less than now.
    fn lightened(&self, lines: u32, random: &mut Random) -> Option<State> {
        let mut least = self.weight();
        let mut ties = 0usize;
        let mut best = None;
        for target in 0..lines {
            for control in 0..lines {
                if control != target {
                    let weight = self.flipped(control, target).weight();
                    let is_tie = weight == least && best.is_some();
                    if weight < least {
                        ties = 1;
                    } else if is_tie {
                        ties = ties.wrapping_add(1);
                    }
                    if weight < least || is_tie && random.below(ties) == 0 {
                        least = weight;
                        best = Some(self.after(control, target));
                    }
                }
            }
        }
        best
    }

    // A flip that clears a column, line by line.
    fn eliminated(&self, lines: u32) -> State {
        for line in 0..lines {
            if row(self.wanted, line) >> line % 8 & 1 == 0 {
                for other in 0..lines {
                    if other > line && row(self.wanted, other) >> line % 8 & 1 == 1 {
                        return self.after(other, line);
                    }
                }
            }
            for other in 0..lines {
                if other != line && row(self.wanted, other) >> line % 8 & 1 == 1 {
                    return self.after(line, other);
                }
            }
        }
        *self
    }

    // Done within so many flips, where no sums are left.
    fn finish(&self, lines: u32, bound: usize, random: &mut Random) -> Option<State> {
        let mut state = *self;
        for _ in 0..bound.saturating_sub(self.count).saturating_add(1) {
            if state.is_done() {
                return Some(state);
            }
            if state.count >= bound {
                return None;
            }
            state = match state.lightened(lines, random) {
                Some(next) => next,
                None => state.eliminated(lines),
            };
        }
        None
    }

    fn is_same(&self, other: &State) -> bool {
        self.wanted == other.wanted
            && self.sums[0] == other.sums[0]
            && self.sums[1] == other.sums[1]
    }

    fn is_before(&self, other: &State) -> bool {
        self.score < other.score || self.score == other.score && self.tie < other.tie
    }
}

/// The states of a search, the best first.
#[derive(Drop)]
pub(crate) struct Search {
    now: Vec<State>,
    next: Vec<State>,
}

impl Search {
    pub(crate) fn new(alloc: Global) -> Search {
        Search {
            now: Vec::new(alloc),
            next: Vec::new(alloc),
        }
    }

    // Adds a state to the next ones, if it is new and good enough.
    fn offer(&mut self, state: State) -> Result<(), AllocError> {
        if self.next.iter().any(|other| other.is_same(&state)) {
            return Ok(());
        }
        if self.next.len() < WIDTH {
            add(&mut self.next, state)?;
        } else {
            let last = at(&self.next, WIDTH - 1, state);
            if !state.is_before(&last) {
                return Ok(());
            }
            put_at(&mut self.next, WIDTH - 1, state);
        }
        let count = self.next.len();
        for back in 1..count {
            let place = count.wrapping_sub(back);
            let before = at(&self.next, place.wrapping_sub(1), state);
            if state.is_before(&before) {
                put_at(&mut self.next, place, before);
                put_at(&mut self.next, place.wrapping_sub(1), state);
            }
        }
        Ok(())
    }

    // Offers a state one flip on from another, if it may still be done within so many flips.
    fn try_flip(
        &mut self,
        way: Way,
        from: &State,
        flip: (u32, u32),
        bound: usize,
        tie: u64,
    ) -> Result<(), AllocError> {
        let mut state = from.flipped(flip.0, flip.1);
        let left = wrong(state.wanted).max(left_of(&state)) as usize;
        if from.count.wrapping_add(1).wrapping_add(left) > bound {
            return Ok(());
        }
        state.score = score_of(way, &state);
        state.tie = tie;
        if state.score > from.score.wrapping_add(SLACK) {
            return Ok(());
        }
        state.note(flip.0, flip.1);
        self.offer(state)
    }

    fn go_on(
        &mut self,
        way: Way,
        from: &State,
        bound: usize,
        random: &mut Random,
    ) -> Result<(), AllocError> {
        for target in 0..way.lines {
            for control in 0..way.lines {
                if control != target {
                    let tie = random.next();
                    self.try_flip(way, from, (control, target), bound, tie)?;
                }
            }
        }
        Ok(())
    }

    // All states one flip on.
    fn advance(&mut self, way: Way, bound: usize, random: &mut Random) -> Result<(), AllocError> {
        self.next.clear();
        for place in 0..self.now.len() {
            if let Some(from) = self.now.get(place).copied() {
                self.go_on(way, &from, bound, random)?;
            }
        }
        set(&mut self.now, &self.next)
    }

    // Each state without sums is finished by itself. The shortest one, if it is shorter than the bound or as short.
    fn finished(&self, way: Way, bound: usize, random: &mut Random) -> Option<State> {
        let mut best: Option<State> = None;
        let mut most = bound;
        for state in &self.now {
            if state.sums[0] == 0 && state.sums[1] == 0 {
                if let Some(done) = state.finish(way.lines, most, random) {
                    most = done.count.saturating_sub(1);
                    best = Some(done);
                }
            }
        }
        best
    }

    /// A state that is done within so many flips, if one is found.
    pub(crate) fn run(
        &mut self,
        way: Way,
        start: State,
        bound: usize,
        random: &mut Random,
    ) -> Result<Option<State>, AllocError> {
        let mut start = start;
        start.score = score_of(way, &start);
        set(&mut self.now, &[start])?;
        let mut bound = bound.min(MOST_FLIPS);
        let mut best = None;
        for step in 0..MOST_FLIPS + 1 {
            if let Some(done) = self.finished(way, bound, random) {
                bound = done.count.saturating_sub(1);
                best = Some(done);
            }
            if step >= bound {
                break;
            }
            self.advance(way, bound, random)?;
        }
        Ok(best)
    }
}
