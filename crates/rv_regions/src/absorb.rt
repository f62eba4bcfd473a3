// Even terms as changes of odd ones: what can't be is written on few pairs of lines.
use crate::common::{add, at, bit, exchange, is_single, lowest, number_of, put_at, without_lowest};
use crate::echelon::Echelon;
use crate::flow::{Flow, Term, minus, plus};
use crate::random::Random;
use crate::table::{Entry, Table, table_of};
use std::alloc::{AllocError, Global};

// An order of the pairs is tried about so many steps long, and at most so often.
const STEPS: usize = 1 << 23;

const MOST_TRIES: usize = 40;

const NO_ENTRY: Entry = Entry { set: 0, term: 0 };

/// The odd and the even terms of a region, an order of all pairs of lines, and what was found best: the pairs that
/// are left, the odd terms that change, and what is added on single lines.
#[derive(Drop)]
struct Absorbing {
    odd: Vec<Entry>,
    even: Vec<Entry>,
    order: Vec<u32>,
    pairs: Vec<u64>,
    changed: Vec<bool>,
    single: Vec<u8>,
    fresh: Vec<Term>,
    random: Random,
}

// The number of a pair of lines, the lower one first.
fn pair(low: usize, high: usize) -> usize {
    (high.wrapping_mul(high.wrapping_sub(1)) / 2).wrapping_add(low)
}

fn pair_count(lines: usize) -> usize {
    pair(0, lines)
}

impl Absorbing {
    fn new(alloc: Global, lines: usize, seed: u64) -> Result<Absorbing, AllocError> {
        let order = vec![in alloc; 0; pair_count(lines)]?;
        let single = vec![in alloc; 0; lines]?;
        Ok(Absorbing {
            odd: Vec::new(alloc),
            even: Vec::new(alloc),
            order,
            pairs: Vec::new(alloc),
            changed: Vec::new(alloc),
            single,
            fresh: Vec::new(alloc),
            random: Random::new(seed),
        })
    }

    // The odd terms of a region, and the even ones on several lines that are no sign. Whether there may be more
    // to find than in the region before.
    fn gather(&mut self, flow: &Flow, table: &Table, region: usize) -> Result<bool, AllocError> {
        self.odd.clear();
        self.even.clear();
        let mut is_new = false;
        for entry in table.of_region(region) {
            let term = flow.term(entry.term as usize);
            if term.power & 1 == 1 {
                self.odd.push(*entry)?;
                is_new = is_new || term.home == region;
            } else if term.power & 3 == 2 && !is_single(entry.set) {
                self.even.push(*entry)?;
                is_new = is_new || term.home == region;
            }
        }
        Ok(is_new && !self.even.is_empty())
    }

    // The pairs in their own order.
    fn begin_order(&mut self) {
        for place in 0..self.order.len() {
            put_at(&mut self.order, place, number_of(place));
        }
    }

    fn shuffle(&mut self) {
        for place in 0..self.order.len() {
            let other = self.random.below(place.wrapping_add(1));
            exchange(&mut self.order, place, other, 0);
        }
    }

    // Turns all pairs of lines of a set in the row that is being made.
    fn turn_pairs(&self, echelon: &mut Echelon, set: u64) {
        let mut high_left = set;
        for _ in 0..set.count_ones() {
            let high = lowest(high_left);
            let mut low_left = set & bit(high).wrapping_sub(1);
            for _ in 0..low_left.count_ones() {
                let number = at(&self.order, pair(lowest(low_left), high), 0);
                echelon.turn(number as usize);
                low_left = without_lowest(low_left);
            }
            high_left = without_lowest(high_left);
        }
    }

    fn push_odd(&self, echelon: &mut Echelon) -> Result<(), AllocError> {
        for place in 0..self.odd.len() {
            echelon.begin();
            self.turn_pairs(echelon, at(&self.odd, place, NO_ENTRY).set);
            echelon.turn_other(place);
            echelon.reduce();
            let _ = echelon.keep()?;
        }
        echelon.settle();
        Ok(())
    }

    // What is left of all even terms.
    fn reduce_even(&self, echelon: &mut Echelon) -> usize {
        echelon.begin();
        for entry in &self.even {
            self.turn_pairs(echelon, entry.set);
        }
        echelon.reduce();
        echelon.lighten();
        echelon.weight()
    }

    // Keeps what is left, and the odd terms that change.
    fn note(&mut self, echelon: &Echelon, lines: usize) -> Result<(), AllocError> {
        self.pairs.clear();
        self.changed.clear();
        for high in 1..lines {
            for low in 0..high {
                let number = at(&self.order, pair(low, high), 0);
                if echelon.has(number as usize) {
                    self.pairs.push(bit(low) | bit(high))?;
                }
            }
        }
        for place in 0..self.odd.len() {
            self.changed.push(echelon.has_other(place))?;
        }
        Ok(())
    }

    fn tries(&self) -> usize {
        let count = self.odd.len();
        let words = (self.order.len() / 64).wrapping_add(count / 64);
        let steps = count
            .wrapping_mul(count)
            .wrapping_mul(words.wrapping_add(1));
        (STEPS / steps.max(1)).clamp(1, MOST_TRIES)
    }

    // Looks for few pairs. Whether they are fewer than the even terms.
    fn look(&mut self, alloc: Global, lines: usize) -> Result<bool, AllocError> {
        let mut echelon = Echelon::new(alloc, self.order.len(), self.odd.len())?;
        let mut least = self.even.len();
        let mut is_found = false;
        self.begin_order();
        for _ in 0..self.tries() {
            echelon.clear();
            self.push_odd(&mut echelon)?;
            let weight = self.reduce_even(&mut echelon);
            if weight < least {
                least = weight;
                is_found = true;
                self.note(&echelon, lines)?;
            }
            if least == 0 {
                break;
            }
            self.shuffle();
        }
        Ok(is_found)
    }

    // A power on each line of a set.
    fn add_singles(&mut self, set: u64, power: u8) {
        let mut left = set;
        for _ in 0..set.count_ones() {
            let line = lowest(left);
            let sum = plus(at(&self.single, line, 0), power);
            put_at(&mut self.single, line, sum);
            left = without_lowest(left);
        }
    }

    // The even terms go.
    fn drop_even(&mut self, flow: &mut Flow) {
        for place in 0..self.even.len() {
            let entry = at(&self.even, place, NO_ENTRY);
            let term = entry.term as usize;
            self.add_singles(entry.set, flow.term(term).power);
            flow.set_power(term, 0);
        }
    }

    // Odd terms change, to a power that is one operation.
    fn change_odd(&mut self, flow: &mut Flow) {
        for place in 0..self.odd.len() {
            if at(&self.changed, place, false) {
                let entry = at(&self.odd, place, NO_ENTRY);
                let term = entry.term as usize;
                let power = flow.term(term).power;
                let change = if power == 1 || power == 3 { 6 } else { 2 };
                flow.set_power(term, plus(power, change));
                self.add_singles(entry.set, minus(change));
            }
        }
    }

    fn push_fresh(&mut self, home: usize, set: u64, power: u8) -> Result<(), AllocError> {
        add(&mut self.fresh, Term { home, set, power })
    }

    // The pairs and the single lines are terms of the region.
    fn push_rest(&mut self, region: usize) -> Result<(), AllocError> {
        for place in 0..self.pairs.len() {
            let set = at(&self.pairs, place, 0);
            self.add_singles(set, 6);
            self.push_fresh(region, set, 2)?;
        }
        for line in 0..self.single.len() {
            let power = at(&self.single, line, 0);
            put_at(&mut self.single, line, 0);
            self.push_fresh(region, bit(line), power)?;
        }
        Ok(())
    }

    // Whether a region has other terms now. What is left there may go in a later one.
    fn region(
        &mut self,
        alloc: Global,
        flow: &mut Flow,
        table: &Table,
        region: usize,
    ) -> Result<bool, AllocError> {
        if !self.gather(flow, table, region)? || !self.look(alloc, flow.lines)? {
            return Ok(false);
        }
        self.drop_even(flow);
        self.change_odd(flow);
        self.push_rest(region)?;
        self.end(flow)?;
        Ok(true)
    }

    fn end(&mut self, flow: &mut Flow) -> Result<(), AllocError> {
        for term in &self.fresh {
            flow.push(term.home, term.set, term.power)?;
        }
        self.fresh.clear();
        spread_signs(flow)
    }
}

// A sign of a sum is signs of its lines.
fn spread_signs(flow: &mut Flow) -> Result<(), AllocError> {
    for place in 0..flow.terms.len() {
        let term = flow.term(place);
        if term.power == 4 && !is_single(term.set) {
            flow.set_power(place, 0);
            let mut left = term.set;
            for _ in 0..term.set.count_ones() {
                flow.push(term.home, bit(lowest(left)), 4)?;
                left = without_lowest(left);
            }
        }
    }
    flow.settle();
    Ok(())
}

/// Takes even terms into odd ones, as far as it can.
pub(crate) fn absorb(alloc: Global, flow: &mut Flow, seed: u64) -> Result<(), AllocError> {
    let mut absorbing = Absorbing::new(alloc, flow.lines, seed)?;
    spread_signs(flow)?;
    let mut table = table_of(alloc, flow)?;
    for region in 0..flow.count() {
        if absorbing.region(alloc, flow, &table, region)? {
            table = table_of(alloc, flow)?;
        }
    }
    Ok(())
}
