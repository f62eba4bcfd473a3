// A network as regions with linear maps, and terms.
use crate::common::{
    add, at, bit, has, lowest, part, put_at, set, size_of, sum_of, without_lowest,
};
use crate::frame::Frame;
use crate::levels::{Placed, place_all};
use crate::plan::Plan;
use rv_net::Op;
use std::alloc::{AllocError, Global};

/// A parity of the lines at the start of a region that carries a power of the eighth root of one.
#[derive(Clone, Copy)]
pub(crate) struct Term {
    pub(crate) home: usize,
    pub(crate) set: u64,
    pub(crate) power: u8,
}

/// Of each region the sums that its lines hold at its end, what these were made of, and the lines of the `H` that
/// follow; the terms, each in the first region that has it; the phase of the whole, and the lines turned at the end.
#[derive(Drop)]
pub(crate) struct Flow {
    pub(crate) lines: usize,
    maps: Vec<u64>,
    inverses: Vec<u64>,
    cuts: Vec<u64>,
    pub(crate) terms: Vec<Term>,
    pub(crate) constant: u8,
    pub(crate) turned: u64,
}

/// The sum of two powers.
pub(crate) fn plus(a: u8, b: u8) -> u8 {
    a.wrapping_add(b) & 7
}

/// The opposite power.
pub(crate) fn minus(a: u8) -> u8 {
    0u8.wrapping_sub(a) & 7
}

impl Flow {
    fn new(alloc: Global, lines: usize) -> Flow {
        Flow {
            lines,
            maps: Vec::new(alloc),
            inverses: Vec::new(alloc),
            cuts: Vec::new(alloc),
            terms: Vec::new(alloc),
            constant: 0,
            turned: 0,
        }
    }

    /// How many regions there are.
    pub(crate) fn count(&self) -> usize {
        self.cuts.len()
    }

    /// The lines of the `H` after a region.
    pub(crate) fn cut(&self, region: usize) -> u64 {
        at(&self.cuts, region, u64::MAX)
    }

    pub(crate) fn map(&self, region: usize) -> &[u64] {
        let from = region.wrapping_mul(self.lines);
        part(&self.maps, from, from.wrapping_add(self.lines))
    }

    pub(crate) fn inverse(&self, region: usize) -> &[u64] {
        let from = region.wrapping_mul(self.lines);
        part(&self.inverses, from, from.wrapping_add(self.lines))
    }

    /// A parity at the start of a region, at the start of the one before.
    fn earlier(&self, region: usize, set: u64) -> Option<u64> {
        let before = region.wrapping_sub(1);
        if region == 0 || set & self.cut(before) != 0 {
            None
        } else {
            Some(sum_of(self.map(before), set))
        }
    }

    /// A parity at the start of a region, at the start of the next one.
    pub(crate) fn later(&self, region: usize, set: u64) -> Option<u64> {
        let end = sum_of(self.inverse(region), set);
        if region.saturating_add(1) >= self.count() || end & self.cut(region) != 0 {
            None
        } else {
            Some(end)
        }
    }

    // A term in the first region that has it.
    fn at_home(&self, term: Term) -> Term {
        let mut first = term;
        for _ in 0..term.home {
            match self.earlier(first.home, first.set) {
                Some(set) => {
                    first.set = set;
                    first.home = first.home.wrapping_sub(1);
                }
                None => return first,
            }
        }
        first
    }

    /// One term more.
    pub(crate) fn push(&mut self, home: usize, set: u64, power: u8) -> Result<(), AllocError> {
        if set == 0 || power & 7 == 0 {
            return Ok(());
        }
        let term = self.at_home(Term {
            home,
            set,
            power: power & 7,
        });
        add(&mut self.terms, term)
    }

    /// Joins equal parities.
    pub(crate) fn settle(&mut self) {
        self.terms
            .sort_unstable_by_key(|term| (term.home, term.set));
        let mut count = 0usize;
        for place in 0..self.terms.len() {
            let term = self.term(place);
            let last = self.term(count.wrapping_sub(1));
            if count > 0 && last.home == term.home && last.set == term.set {
                let power = plus(last.power, term.power);
                put_at(
                    &mut self.terms,
                    count.wrapping_sub(1),
                    Term { power, ..term },
                );
            } else {
                put_at(&mut self.terms, count, term);
                count = count.wrapping_add(1);
            }
        }
        self.terms.truncate(count);
        self.drop_zeros();
    }

    fn drop_zeros(&mut self) {
        let mut count = 0usize;
        for place in 0..self.terms.len() {
            let term = self.term(place);
            if term.power & 7 != 0 {
                put_at(&mut self.terms, count, term);
                count = count.wrapping_add(1);
            }
        }
        self.terms.truncate(count);
    }

    pub(crate) fn term(&self, place: usize) -> Term {
        let none = Term {
            home: 0,
            set: 0,
            power: 0,
        };
        at(&self.terms, place, none)
    }

    pub(crate) fn set_power(&mut self, place: usize, power: u8) {
        let term = self.term(place);
        put_at(&mut self.terms, place, Term { power, ..term });
    }

    /// Other terms.
    pub(crate) fn set_terms(&mut self, terms: &[Term]) -> Result<(), AllocError> {
        set(&mut self.terms, terms)
    }

    /// How many terms have an odd power, and on how many lines they are.
    pub(crate) fn odd_weight(&self) -> (usize, usize) {
        let mut weight = 0usize;
        for term in &self.terms {
            if term.power & 1 == 1 {
                weight = weight.wrapping_add(size_of(term.set));
            }
        }
        (self.odd_count(), weight)
    }

    /// How many terms have an odd power.
    pub(crate) fn odd_count(&self) -> usize {
        let mut count = 0usize;
        for term in &self.terms {
            count = count.wrapping_add(usize::from(term.power & 1));
        }
        count
    }
}

// A flow that is made of operations, and the flips of their regions.
#[derive(Drop)]
struct Reading {
    flow: Flow,
    frame: Frame,
    plan: Plan,
    cut: u64,
}

impl Reading {
    fn new(alloc: Global, lines: usize) -> Result<Reading, AllocError> {
        Ok(Reading {
            frame: Frame::new(alloc, lines)?,
            flow: Flow::new(alloc, lines),
            plan: Plan::new(alloc),
            cut: 0,
        })
    }

    // A power where what a line holds is 1.
    fn phase(&mut self, set: u64, is_turned: bool, power: u8) -> Result<(), AllocError> {
        if is_turned {
            self.flow.constant = plus(self.flow.constant, power);
            return self.flow.push(self.flow.count(), set, minus(power));
        }
        self.flow.push(self.flow.count(), set, power)
    }

    fn is_turned(&self, line: u8) -> bool {
        has(self.flow.turned, usize::from(line))
    }

    fn held(&self, line: u8) -> u64 {
        self.frame.row(usize::from(line))
    }

    fn phase_on(&mut self, line: u8, power: u8) -> Result<(), AllocError> {
        self.phase(self.held(line), self.is_turned(line), power)
    }

    fn turn(&mut self, line: u8) {
        self.flow.turned ^= bit(usize::from(line));
    }

    fn cz(&mut self, a: u8, b: u8) -> Result<(), AllocError> {
        self.phase_on(a, 2)?;
        self.phase_on(b, 2)?;
        let is_turned = self.is_turned(a) != self.is_turned(b);
        self.phase(self.held(a) ^ self.held(b), is_turned, 6)
    }

    fn cx(&mut self, a: u8, b: u8) -> Result<(), AllocError> {
        if self.is_turned(a) {
            self.turn(b);
        }
        self.frame.flip(usize::from(a), usize::from(b));
        self.plan.push(a, b)
    }

    fn swap(&mut self, a: u8, b: u8) -> Result<(), AllocError> {
        self.cx(a, b)?;
        self.cx(b, a)?;
        self.cx(a, b)
    }

    fn y(&mut self, q: u8) -> Result<(), AllocError> {
        self.phase_on(q, 4)?;
        self.turn(q);
        self.flow.constant = plus(self.flow.constant, 2);
        Ok(())
    }

    fn step(&mut self, op: Op) -> Result<(), AllocError> {
        match op {
            Op::X(q) => self.turn(q),
            Op::Y(q) => return self.y(q),
            Op::Z(q) => return self.phase_on(q, 4),
            Op::S(q) => return self.phase_on(q, 2),
            Op::Sdg(q) => return self.phase_on(q, 6),
            Op::T(q) => return self.phase_on(q, 1),
            Op::Tdg(q) => return self.phase_on(q, 7),
            Op::H(q) => self.cut |= bit(usize::from(q)),
            Op::Cx(a, b) => return self.cx(a, b),
            Op::Cz(a, b) => return self.cz(a, b),
            Op::Swap(a, b) => return self.swap(a, b),
            Op::Ccx(_, _, _) | Op::Cswap(_, _, _) => {}
        }
        Ok(())
    }

    fn push_rows(&mut self) -> Result<(), AllocError> {
        self.flow.maps.extend_from_slice(&self.frame.rows)?;
        self.flow.inverses.extend_from_slice(&self.frame.inverse)
    }

    // Ends a region. A turned line before an H is a phase of 4 after it.
    fn close(&mut self) -> Result<(), AllocError> {
        let signs = self.flow.turned & self.cut;
        self.flow.turned &= !self.cut;
        self.push_rows()?;
        add(&mut self.flow.cuts, self.cut)?;
        self.plan.close()?;
        self.frame.begin();
        self.cut = 0;
        let mut left = signs;
        for _ in 0..signs.count_ones() {
            self.flow.push(self.flow.count(), bit(lowest(left)), 4)?;
            left = without_lowest(left);
        }
        Ok(())
    }

    fn read(&mut self, list: &[Placed]) -> Result<(), AllocError> {
        for placed in list {
            if placed.region > self.flow.count() {
                self.close()?;
            }
            self.step(placed.op)?;
        }
        if self.cut != 0 {
            self.close()?;
        }
        self.close()?;
        self.flow.settle();
        Ok(())
    }
}

/// The flow of operations, and their flips.
pub(crate) fn flow_of(alloc: Global, lines: usize, ops: &[Op]) -> Result<(Flow, Plan), AllocError> {
    let list = place_all(alloc, ops)?;
    let mut reading = Reading::new(alloc, lines)?;
    reading.read(&list)?;
    let Reading { flow, plan, .. } = reading;
    Ok((flow, plan))
}
