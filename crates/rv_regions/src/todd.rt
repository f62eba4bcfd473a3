// Fewer odd terms in each region.
use crate::basis::Basis;
use crate::columns::{Step, tidy};
use crate::common::{at, bit, lowest, put_at, without_lowest};
use crate::flow::{Flow, minus, plus};
use crate::random::Random;
use crate::table::{Entry, Table, table_of};
use std::alloc::{AllocError, Global};

// No fewer terms are tried.
const FEWEST: usize = 7;

// So many steps are taken at the most.
const MOST_STEPS: usize = 4096;

const NO_ENTRY: Entry = Entry { set: 0, term: 0 };

/// The odd terms of a region; by line and by pair of lines what they and the columns found differ by; and how many
/// words may be worked on.
#[derive(Drop)]
pub(crate) struct Lowering {
    odd: Vec<Entry>,
    single: Vec<u8>,
    double: Vec<u8>,
    random: Random,
    left: usize,
    lightens: bool,
    is_shuffled: bool,
}

fn pair(low: usize, high: usize) -> usize {
    (high.wrapping_mul(high.wrapping_sub(1)) / 2).wrapping_add(low)
}

fn add_at(list: &mut [u8], place: usize, power: u8) {
    let sum = plus(at(list, place, 0), power);
    put_at(list, place, sum);
}

impl Lowering {
    /// With so many words to work on.
    pub(crate) fn new(
        alloc: Global,
        lines: usize,
        seed: u64,
        left: usize,
        lightens: bool,
    ) -> Result<Lowering, AllocError> {
        let single = vec![in alloc; 0; lines]?;
        let double = vec![in alloc; 0; pair(0, lines)]?;
        Ok(Lowering {
            odd: Vec::new(alloc),
            single,
            double,
            random: Random::new(seed),
            left,
            lightens,
            is_shuffled: false,
        })
    }

    /// Takes steps in any order.
    pub(crate) fn shuffle(&mut self) {
        self.is_shuffled = true;
    }

    pub(crate) fn left(&self) -> usize {
        self.left
    }

    // The odd terms of a region. Whether the region before does not have all of them.
    fn gather(&mut self, flow: &Flow, table: &Table, region: usize) -> Result<bool, AllocError> {
        self.odd.clear();
        let mut is_new = false;
        for entry in table.of_region(region) {
            let term = flow.term(entry.term as usize);
            if term.power & 1 == 1 {
                self.odd.push(*entry)?;
                is_new = is_new || term.home == region;
            }
        }
        Ok(is_new && self.odd.len() >= FEWEST)
    }

    // Adds a term to what differs.
    fn add(&mut self, set: u64, power: u8) {
        let mut high_left = set;
        for _ in 0..set.count_ones() {
            let high = lowest(high_left);
            add_at(&mut self.single, high, power);
            let mut low_left = set & bit(high).wrapping_sub(1);
            for _ in 0..low_left.count_ones() {
                add_at(&mut self.double, pair(lowest(low_left), high), power);
                low_left = without_lowest(low_left);
            }
            high_left = without_lowest(high_left);
        }
    }

    // Fewer columns with the same form, as far as steps and work lead.
    fn fewest(&mut self, alloc: Global, columns: Vec<u64>) -> Result<Vec<u64>, AllocError> {
        let mut columns = columns;
        tidy(&mut columns);
        let mut is_lightening = false;
        for _ in 0..MOST_STEPS {
            let (next, is_less) = self.step(alloc, columns, is_lightening)?;
            columns = next;
            if !is_less && (is_lightening || !self.lightens) {
                return Ok(columns);
            }
            is_lightening = !is_less;
        }
        Ok(columns)
    }

    // Goes on from columns to fewer, in coordinates of their span.
    fn step(
        &mut self,
        alloc: Global,
        columns: Vec<u64>,
        is_lightening: bool,
    ) -> Result<(Vec<u64>, bool), AllocError> {
        let mut basis = Basis::new(alloc)?;
        let mut local = Vec::new(alloc);
        let mut columns = columns;
        columns.sort_unstable_by_key(|column| (column.count_ones(), *column));
        for column in &columns {
            local.push(basis.coordinates_of(*column)?)?;
        }
        tidy(&mut local);
        let mut sets = Vec::new(alloc);
        for column in &local {
            sets.push(basis.set_of(*column))?;
        }
        let mut step = Step::new(alloc, local, basis.len(), self.left)?;
        let (is_less, left) = if is_lightening {
            step.take_lighter(alloc, &sets, &mut self.random)?
        } else {
            step.take(alloc, self.is_shuffled, &mut self.random)?
        };
        self.left = left;
        let mut found = step.into_columns();
        for place in 0..found.len() {
            let set = basis.set_of(at(&found, place, 0));
            put_at(&mut found, place, set);
        }
        tidy(&mut found);
        Ok((found, is_less))
    }

    // The columns take the odd terms' place, with even terms for what differs.
    fn replace(
        &mut self,
        flow: &mut Flow,
        region: usize,
        columns: &[u64],
    ) -> Result<(), AllocError> {
        for place in 0..self.odd.len() {
            let entry = at(&self.odd, place, NO_ENTRY);
            let term = entry.term as usize;
            self.add(entry.set, flow.term(term).power);
            flow.set_power(term, 0);
        }
        for column in columns {
            self.add(*column, 7);
            flow.push(region, *column, 1)?;
        }
        self.push_doubles(flow, region)?;
        self.push_singles(flow, region)?;
        flow.settle();
        Ok(())
    }

    fn push_doubles(&mut self, flow: &mut Flow, region: usize) -> Result<(), AllocError> {
        for high in 1..flow.lines {
            for low in 0..high {
                let power = at(&self.double, pair(low, high), 0) & 3;
                put_at(&mut self.double, pair(low, high), 0);
                flow.push(region, bit(low) | bit(high), power)?;
                add_at(&mut self.single, low, minus(power));
                add_at(&mut self.single, high, minus(power));
            }
        }
        Ok(())
    }

    fn push_singles(&mut self, flow: &mut Flow, region: usize) -> Result<(), AllocError> {
        for line in 0..flow.lines {
            let power = at(&self.single, line, 0);
            put_at(&mut self.single, line, 0);
            flow.push(region, bit(line), power)?;
        }
        Ok(())
    }

    // Whether columns are fewer than the odd terms, or as many on fewer lines.
    fn is_better(&self, columns: &[u64]) -> bool {
        let (mut old, mut new) = (0u32, 0u32);
        for entry in &self.odd {
            old = old.wrapping_add(entry.set.count_ones());
        }
        for column in columns {
            new = new.wrapping_add(column.count_ones());
        }
        columns.len() < self.odd.len() || columns.len() == self.odd.len() && new < old
    }

    // Whether a region has fewer odd terms now.
    fn region(
        &mut self,
        alloc: Global,
        flow: &mut Flow,
        table: &Table,
        region: usize,
    ) -> Result<bool, AllocError> {
        if self.left == 0 || !self.gather(flow, table, region)? {
            return Ok(false);
        }
        let mut columns = Vec::new(alloc);
        for entry in &self.odd {
            columns.push(entry.set)?;
        }
        let found = self.fewest(alloc, columns)?;
        if !self.is_better(&found) {
            return Ok(false);
        }
        self.replace(flow, region, &found)?;
        Ok(true)
    }

    /// Goes through the regions once.
    pub(crate) fn run(&mut self, alloc: Global, flow: &mut Flow) -> Result<(), AllocError> {
        let mut table = table_of(alloc, flow)?;
        for region in 0..flow.count() {
            if self.region(alloc, flow, &table, region)? {
                table = table_of(alloc, flow)?;
            }
        }
        Ok(())
    }
}
