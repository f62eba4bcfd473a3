// One step to fewer columns with the same cubic form modulo two.
//
// The columns that y chooses change by z, and z joins them if these are odd in number. That keeps the form if the sum
// of the squares of the chosen ones is made of z and any other vector: so the squares are brought into echelon form
// once, and then, for each z, its products with each unit vector.
use crate::common::{at, has, lowest, number_of, part, put_at, without_lowest};
use crate::echelon::{Echelon, words_of};
use crate::random::Random;
use std::alloc::{AllocError, Global};

// With more columns the first good z is taken.
const MANY: usize = 300;

// With more pairs not each z is tried.
const MOST_PAIRS: usize = 1 << 20;

// So many sums of two y are tried for a z.
const SUMS: usize = 40;

/// Two columns, or one and no other, and their sum.
#[derive(Clone, Copy)]
struct Pair {
    z: u64,
    first: u32,
    second: u32,
}

const NO_PAIR: Pair = Pair {
    z: 0,
    first: 0,
    second: 0,
};

/// Where the pairs of a z are, and by how many columns it can make them fewer at the most.
#[derive(Clone, Copy)]
struct Group {
    z: u64,
    from: usize,
    to: usize,
    most: i32,
    tie: u64,
}

/// The best step so far.
#[derive(Drop)]
struct Best {
    score: i32,
    z: u64,
    y: Vec<u64>,
}

/// Columns over so many lines; the echelon form of their squares, and of each place there its number among those that
/// no row begins with; the choices whose squares are zero; what the products of two units are reduced to; and, for a
/// z, the rest of its products, the choices found, and the pairs of columns whose sum it is.
#[derive(Drop)]
pub(crate) struct Step {
    columns: Vec<u64>,
    lines: usize,
    squares: Echelon,
    rests: Echelon,
    free: Vec<u32>,
    nulls: Vec<u64>,
    units: Vec<u64>,
    choices: Vec<u64>,
    sum: Vec<u64>,
    pairs: Vec<Pair>,
    groups: Vec<Group>,
    best: Best,
    left: usize,
}

fn number(low: usize, high: usize) -> usize {
    (high.wrapping_mul(high.wrapping_add(1)) / 2).wrapping_add(low)
}

fn is_chosen(y: &[u64], column: usize) -> bool {
    has(at(y, column / 64, 0), column % 64)
}

fn is_odd(y: &[u64]) -> bool {
    let mut odd = 0u32;
    for word in y {
        odd ^= word.count_ones() & 1;
    }
    odd == 1
}

/// Sorts columns, and leaves out zeros and pairs of equal ones.
pub(crate) fn tidy(columns: &mut Vec<u64>) {
    columns.sort_unstable();
    let mut count = 0usize;
    for place in 0..columns.len() {
        let column = at(columns, place, 0);
        if count > 0 && at(columns, count.wrapping_sub(1), 0) == column {
            count = count.wrapping_sub(1);
        } else if column != 0 {
            put_at(columns, count, column);
            count = count.wrapping_add(1);
        }
    }
    columns.truncate(count);
}

impl Step {
    /// Tidy columns over so many lines, and how many words may be worked on.
    pub(crate) fn new(
        alloc: Global,
        columns: Vec<u64>,
        lines: usize,
        left: usize,
    ) -> Result<Step, AllocError> {
        let count = columns.len();
        let places = number(0, lines);
        let squares = Echelon::new(alloc, places, count)?;
        let rests = Echelon::new(alloc, 0, count)?;
        let free = vec![in alloc; 0; places]?;
        let sum = vec![in alloc; 0; words_of(count)]?;
        let y = vec![in alloc; 0; words_of(count)]?;
        let best = Best { score: 0, z: 0, y };
        Ok(Step {
            columns,
            lines,
            squares,
            rests,
            free,
            nulls: Vec::new(alloc),
            units: Vec::new(alloc),
            choices: Vec::new(alloc),
            sum,
            pairs: Vec::new(alloc),
            groups: Vec::new(alloc),
            best,
            left,
        })
    }

    fn width(&self) -> usize {
        self.sum.len()
    }

    fn turn_square(&mut self, column: u64) {
        let mut high_left = column;
        for _ in 0..column.count_ones() {
            let high = lowest(high_left);
            high_left = without_lowest(high_left);
            let mut low_left = column;
            for _ in 0..column.count_ones() {
                let low = lowest(low_left);
                if low <= high {
                    self.squares.turn(number(low, high));
                }
                low_left = without_lowest(low_left);
            }
        }
    }

    fn push_squares(&mut self) -> Result<(), AllocError> {
        for place in 0..self.columns.len() {
            self.squares.begin();
            let column = at(&self.columns, place, 0);
            self.turn_square(column);
            self.squares.turn_other(place);
            self.squares.reduce();
            if !self.squares.keep()? {
                self.squares.push_others(&mut self.nulls)?;
            }
        }
        Ok(())
    }

    // The places that no row begins with. How many.
    fn number_free(&mut self) -> usize {
        let mut count = 0u32;
        for place in 0..self.free.len() {
            put_at(&mut self.free, place, count);
            if !self.squares.is_begun(place) {
                count = count.wrapping_add(1);
            }
        }
        count as usize
    }

    fn push_unit(&mut self, low: usize, high: usize) -> Result<(), AllocError> {
        self.squares.begin();
        self.squares.turn(number(low, high));
        self.squares.reduce();
        self.rests.begin();
        for place in 0..self.free.len() {
            if self.squares.has(place) {
                self.rests.turn(at(&self.free, place, 0) as usize);
            }
        }
        self.rests.set_others(self.squares.others());
        self.units.extend_from_slice(self.rests.row())
    }

    fn begin(&mut self, alloc: Global) -> Result<(), AllocError> {
        self.push_squares()?;
        let free = self.number_free();
        self.rests = Echelon::new(alloc, free, self.columns.len())?;
        for high in 1..self.lines {
            for low in 0..high {
                self.push_unit(low, high)?;
            }
        }
        Ok(())
    }

    // The product of z and a unit vector, in the row that is being made.
    fn make_product(&mut self, z: u64, line: usize) {
        self.rests.begin();
        let size = self.rests.words();
        let mut left = z & !(1u64 << (line % 64));
        for _ in 0..left.count_ones() {
            let other = lowest(left);
            let high = line.max(other);
            let unit = number(line.min(other), high.wrapping_sub(1));
            let from = unit.wrapping_mul(size);
            self.rests
                .add_words(part(&self.units, from, from.wrapping_add(size)));
            left = without_lowest(left);
        }
    }

    fn find_choices(&mut self, z: u64) -> Result<(), AllocError> {
        self.rests.clear();
        self.choices.clear();
        for line in 0..self.lines {
            self.make_product(z, line);
            self.rests.reduce();
            if !self.rests.keep()? {
                self.rests.push_others(&mut self.choices)?;
            }
        }
        let steps = self.lines.wrapping_mul(self.lines);
        let steps = steps.wrapping_mul(self.rests.words());
        self.left = self.left.saturating_sub(steps);
        Ok(())
    }

    // All pairs, by their sum; a single one is a pair with itself.
    fn push_pairs(&mut self) -> Result<(), AllocError> {
        for second in 0..self.columns.len() {
            if self.pairs.len() > MOST_PAIRS {
                break;
            }
            let column = at(&self.columns, second, 0);
            for first in 0..second.wrapping_add(1) {
                let other = at(&self.columns, first, 0);
                let z = if first == second {
                    column
                } else {
                    column ^ other
                };
                let (first, second) = (number_of(first), number_of(second));
                self.pairs.push(Pair { z, first, second })?;
            }
        }
        self.pairs.sort_unstable_by_key(|pair| pair.z);
        Ok(())
    }

    // The pairs of each z, those first that can make the columns fewer by most.
    fn push_groups(&mut self, random: &mut Random) -> Result<(), AllocError> {
        let mut from = 0usize;
        let mut most = 0i32;
        for place in 0..self.pairs.len() {
            let pair = at(&self.pairs, place, NO_PAIR);
            let gain = if pair.first == pair.second { 1 } else { 2 };
            most = most.wrapping_add(gain);
            let to = place.wrapping_add(1);
            let is_last = to == self.pairs.len() || at(&self.pairs, to, pair).z != pair.z;
            if is_last {
                let (z, tie) = (pair.z, random.next());
                self.groups.push(Group {
                    z,
                    from,
                    to,
                    most,
                    tie,
                })?;
                from = to;
                most = 0;
            }
        }
        self.groups.sort_unstable_by_key(|group| (
            0i32.wrapping_sub(group.most),
            group.z.count_ones(),
            group.tie,
        ));
        Ok(())
    }

    // By how many columns the choice makes them fewer.
    fn score(&self, group: Group, y: &[u64]) -> i32 {
        let mut score = 0i32;
        let mut stays = false;
        for pair in part(&self.pairs, group.from, group.to) {
            let is_first = is_chosen(y, pair.first as usize);
            if pair.first == pair.second {
                score = score.wrapping_add(1);
                stays = !is_first;
            } else if is_first != is_chosen(y, pair.second as usize) {
                score = score.wrapping_add(2);
            }
        }
        let is_left = stays != is_odd(y);
        score.wrapping_sub(i32::from(is_left))
    }

    // A sum of two choices, or of one and itself if there is only that one.
    fn make_sum(&mut self, first: usize, second: usize) {
        for word in 0..self.width() {
            let one = self.word_of(first, word);
            let sum = if first == second {
                one
            } else {
                one ^ self.word_of(second, word)
            };
            put_at(&mut self.sum, word, sum);
        }
    }

    // A word of a choice: those for any z come first.
    fn word_of(&self, choice: usize, word: usize) -> u64 {
        let place = choice.wrapping_mul(self.width()).wrapping_add(word);
        if place < self.nulls.len() {
            at(&self.nulls, place, 0)
        } else {
            at(&self.choices, place.wrapping_sub(self.nulls.len()), 0)
        }
    }

    fn try_sum(&mut self, group: Group, first: usize, second: usize) {
        self.make_sum(first, second);
        let score = self.score(group, &self.sum);
        if score > self.best.score {
            self.best.score = score;
            self.best.z = group.z;
            for word in 0..self.width() {
                put_at(&mut self.best.y, word, at(&self.sum, word, 0));
            }
        }
    }

    fn try_group(&mut self, group: Group, random: &mut Random) -> Result<(), AllocError> {
        self.find_choices(group.z)?;
        let all = self.nulls.len().wrapping_add(self.choices.len());
        let count = all / self.width().max(1);
        for choice in 0..count {
            self.try_sum(group, choice, choice);
        }
        for _ in 0..count.wrapping_mul(2).min(SUMS) {
            let (first, second) = (random.below(count), random.below(count));
            self.try_sum(group, first, second);
        }
        Ok(())
    }

    fn look(&mut self, random: &mut Random) -> Result<(), AllocError> {
        let is_quick = self.columns.len() > MANY;
        for place in 0..self.groups.len() {
            let Some(group) = self.groups.get(place).copied() else {
                return Ok(());
            };
            if is_quick && self.best.score > 0 || self.left == 0 {
                return Ok(());
            }
            if group.most > self.best.score {
                self.try_group(group, random)?;
            }
        }
        Ok(())
    }

    // The groups in any order.
    fn shuffle(&mut self) {
        self.groups.sort_unstable_by_key(|group| group.tie);
    }

    /// Takes the best step, of those that are as good the first one in the usual order or in any. Whether there is
    /// one, and how much work is left.
    pub(crate) fn take(
        &mut self,
        alloc: Global,
        is_shuffled: bool,
        random: &mut Random,
    ) -> Result<(bool, usize), AllocError> {
        self.begin(alloc)?;
        self.push_pairs()?;
        self.push_groups(random)?;
        if is_shuffled {
            self.shuffle();
        }
        self.look(random)?;
        Ok((self.apply()?, self.left))
    }

    // On how many lines fewer the columns are, with a choice for a set.
    fn lightening(&self, sets: &[u64], set: u64, y: &[u64]) -> i32 {
        let (mut old, mut new) = (0u32, 0u32);
        for place in 0..self.columns.len() {
            if is_chosen(y, place) {
                let there = at(sets, place, 0);
                old = old.wrapping_add(there.count_ones());
                new = new.wrapping_add((there ^ set).count_ones());
            }
        }
        if is_odd(y) {
            new = new.wrapping_add(set.count_ones());
        }
        let old = i32::try_from(old).unwrap_or(i32::MAX);
        old.wrapping_sub(i32::try_from(new).unwrap_or(i32::MAX))
    }

    fn try_lighter(&mut self, group: Group, sets: &[u64], set: u64, first: usize, second: usize) {
        self.make_sum(first, second);
        let gain = self.lightening(sets, set, &self.sum);
        if gain > self.best.score && self.score(group, &self.sum) >= 0 {
            self.best.score = gain;
            self.best.z = group.z;
            for word in 0..self.width() {
                put_at(&mut self.best.y, word, at(&self.sum, word, 0));
            }
        }
    }

    // The best choice for a set that is on fewer lines.
    fn look_lighter(
        &mut self,
        group: Group,
        sets: &[u64],
        set: u64,
        random: &mut Random,
    ) -> Result<(), AllocError> {
        self.find_choices(group.z)?;
        let all = self.nulls.len().wrapping_add(self.choices.len());
        let count = all / self.width().max(1);
        for choice in 0..count {
            self.try_lighter(group, sets, set, choice, choice);
        }
        for _ in 0..count.wrapping_mul(2).min(SUMS) {
            let (first, second) = (random.below(count), random.below(count));
            self.try_lighter(group, sets, set, first, second);
        }
        Ok(())
    }

    // The set of a z that is the sum of two columns, or one of them.
    fn set_of(&self, group: Group, sets: &[u64]) -> u64 {
        let pair = at(&self.pairs, group.from, NO_PAIR);
        let first = at(sets, pair.first as usize, 0);
        if pair.first == pair.second {
            first
        } else {
            first ^ at(sets, pair.second as usize, 0)
        }
    }

    /// Takes a step to as many columns on fewer lines, of which these are the sets.
    pub(crate) fn take_lighter(
        &mut self,
        alloc: Global,
        sets: &[u64],
        random: &mut Random,
    ) -> Result<(bool, usize), AllocError> {
        self.begin(alloc)?;
        self.push_pairs()?;
        self.push_groups(random)?;
        self.shuffle();
        let pairs = self.columns.len().wrapping_mul(self.columns.len());
        let steps = pairs.wrapping_mul(self.squares.words());
        self.left = self.left.saturating_sub(steps);
        for place in 0..self.groups.len() {
            if self.best.score > 0 || self.left == 0 {
                break;
            }
            if let Some(group) = self.groups.get(place).copied() {
                let set = self.set_of(group, sets);
                self.look_lighter(group, sets, set, random)?;
            }
        }
        Ok((self.apply()?, self.left))
    }

    // Changes the columns by the best step. Whether there is one.
    fn apply(&mut self) -> Result<bool, AllocError> {
        if self.best.score <= 0 {
            return Ok(false);
        }
        for place in 0..self.columns.len() {
            if is_chosen(&self.best.y, place) {
                let column = at(&self.columns, place, 0) ^ self.best.z;
                put_at(&mut self.columns, place, column);
            }
        }
        if is_odd(&self.best.y) {
            self.columns.push(self.best.z)?;
        }
        Ok(true)
    }

    pub(crate) fn into_columns(self) -> Vec<u64> {
        self.columns
    }
}
