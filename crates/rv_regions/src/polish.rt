// Windows of the flips of a region, looked for anew: no more flips, and all that stands nowhere else.
use crate::common::{at, bit, has, lowest, put_at, size_of, sum_of, without_lowest};
use crate::flow::Flow;
use crate::packed::{UNIT, add_column, add_row, row};
use crate::plan::{Flip, NO_FLIP, Plan};
use crate::random::Random;
use crate::table::Table;
use crate::window::{MOST_FLIPS, MOST_LINES, Search, State, Way};
use std::alloc::{AllocError, Global};

// A window is gathered from at most so many flips.
const REACH: usize = 60;

// A sum that carries a term, over the window's lines.
#[derive(Clone, Copy)]
struct Visit {
    term: usize,
    sum: u8,
}

/// A plan that is made shorter; of each region what its lines hold at the start, of each term how often a line holds
/// it; and a window.
#[derive(Drop)]
pub(crate) struct Polish {
    pub(crate) plan: Plan,
    starts: Vec<u64>,
    visits: Vec<u32>,
    rows: Vec<u64>,
    inside: Vec<Flip>,
    outside: Vec<Flip>,
    here: Vec<Visit>,
    search: Search,
    random: Random,
}

// The lines of a flip.
fn touched(flip: Flip) -> u64 {
    bit(usize::from(flip.control)) | bit(usize::from(flip.target))
}

// Where a line stands among those of a set.
fn index_of(lines: u64, line: u8) -> u32 {
    (lines & bit(usize::from(line)).wrapping_sub(1)).count_ones()
}

// The line at a place among those of a set.
fn line_at(lines: u64, index: usize) -> u8 {
    let mut left = lines;
    for _ in 0..index {
        left = without_lowest(left);
    }
    lowest(left).min(63) as u8
}

impl Polish {
    pub(crate) fn new(
        alloc: Global,
        flow: &Flow,
        table: &Table,
        plan: Plan,
        seed: u64,
    ) -> Result<Polish, AllocError> {
        let size = flow.count().wrapping_mul(flow.lines);
        let starts = vec![in alloc; 0; size]?;
        let visits = vec![in alloc; 0; flow.terms.len()]?;
        let rows = vec![in alloc; 0; flow.lines]?;
        let mut polish = Polish {
            plan,
            starts,
            visits,
            rows,
            inside: Vec::new(alloc),
            outside: Vec::new(alloc),
            here: Vec::new(alloc),
            search: Search::new(alloc),
            random: Random::new(seed),
        };
        polish.begin(flow, table);
        Ok(polish)
    }

    fn flip_rows(&mut self, flip: Flip) {
        let target = usize::from(flip.target);
        let control = at(&self.rows, usize::from(flip.control), 0);
        let sum = control ^ at(&self.rows, target, 0);
        put_at(&mut self.rows, target, sum);
    }

    // The rows at the start of a region.
    fn load(&mut self, flow: &Flow, region: usize) {
        let from = region.wrapping_mul(flow.lines);
        for line in 0..flow.lines {
            let row = at(&self.starts, from.wrapping_add(line), 0);
            put_at(&mut self.rows, line, row);
        }
    }

    // The rows at the end of a region are those at the start of the next one.
    fn store_next(&mut self, flow: &Flow, region: usize) {
        let from = region.wrapping_add(1).wrapping_mul(flow.lines);
        for line in 0..flow.lines {
            let row = sum_of(flow.inverse(region), at(&self.rows, line, 0));
            put_at(&mut self.starts, from.wrapping_add(line), row);
        }
    }

    fn add_visit(&mut self, term: usize) {
        let visits = at(&self.visits, term, 0);
        put_at(&mut self.visits, term, visits.wrapping_add(1));
    }

    fn drop_visit(&mut self, term: usize) {
        let visits = at(&self.visits, term, 0);
        put_at(&mut self.visits, term, visits.wrapping_sub(1));
    }

    // Counts what a line holds.
    fn count_held(&mut self, table: &Table, region: usize, line: usize) {
        let set = at(&self.rows, line, 0);
        if let Some(term) = table.find(region, set) {
            self.add_visit(term);
        }
    }

    fn begin_region(&mut self, flow: &Flow, table: &Table, region: usize) {
        let fresh = if region == 0 {
            u64::MAX
        } else {
            flow.cut(region.wrapping_sub(1))
        };
        self.load(flow, region);
        for line in 0..flow.lines {
            if has(fresh, line) {
                self.count_held(table, region, line);
            }
        }
        for place in self.plan.start(region)..self.plan.end(region) {
            let flip = self.plan.flip(place);
            self.flip_rows(flip);
            self.count_held(table, region, usize::from(flip.target));
        }
        self.store_next(flow, region);
    }

    fn begin(&mut self, flow: &Flow, table: &Table) {
        for line in 0..flow.lines {
            put_at(&mut self.starts, line, bit(line));
        }
        for region in 0..flow.count() {
            self.begin_region(flow, table, region);
        }
    }

    // The rows after all flips of a region before a place.
    fn replay(&mut self, flow: &Flow, region: usize, place: usize) {
        self.load(flow, region);
        for before in self.plan.start(region)..place {
            let flip = self.plan.flip(before);
            self.flip_rows(flip);
        }
    }

    // Gathers flips from a place on that can be brought together, and those between; how many both are.
    fn gather(&mut self, region: usize, place: usize) -> Result<usize, AllocError> {
        let size = 3usize.wrapping_add(self.random.below(MOST_FLIPS - 2));
        let most = 3usize.wrapping_add(self.random.below(MOST_LINES - 2));
        let (mut lines, mut skipped, mut written) = (0u64, 0u64, 0u64);
        let mut span = 0usize;
        let mut between = 0usize;
        self.inside.clear();
        self.outside.clear();
        let end = self.plan.end(region).min(place.saturating_add(REACH));
        for next in place..end {
            let flip = self.plan.flip(next);
            let both = touched(flip);
            let is_free = written & both == 0 && !has(skipped, usize::from(flip.target));
            let is_near = self.inside.is_empty() || lines & both != 0;
            let fits = size_of(lines | both) <= most;
            if is_free && is_near && fits {
                self.inside.push(flip)?;
                lines |= both;
                span = next.wrapping_sub(place).wrapping_add(1);
                between = self.outside.len();
            } else {
                self.outside.push(flip)?;
                skipped |= both;
                written |= bit(usize::from(flip.target));
            }
            if self.inside.len() >= size {
                break;
            }
        }
        self.outside.truncate(between);
        Ok(span)
    }

    // The lines of the window.
    fn window_lines(&self) -> u64 {
        let mut lines = 0;
        for flip in &self.inside {
            lines |= touched(*flip);
        }
        lines
    }

    // A sum over the window's lines, in the rows at its start.
    fn sum_over(&self, lines: u64, sum: u64) -> u64 {
        let mut total = 0;
        let mut left = sum;
        for _ in 0..sum.count_ones() {
            let line = line_at(lines, lowest(left));
            total ^= at(&self.rows, usize::from(line), 0);
            left = without_lowest(left);
        }
        total
    }

    // What the window's flips make, and the sums with terms on the way.
    fn look(&mut self, table: &Table, region: usize, lines: u64) -> Result<State, AllocError> {
        let mut state = State::new();
        let (mut rows, mut inverse) = (UNIT, UNIT);
        self.here.clear();
        for place in 0..self.inside.len() {
            let flip = at(&self.inside, place, NO_FLIP);
            let control = index_of(lines, flip.control);
            let target = index_of(lines, flip.target);
            rows = add_row(rows, control, target);
            inverse = add_column(inverse, control, target);
            let sum = row(rows, target);
            if let Some(term) = table.find(region, self.sum_over(lines, sum)) {
                let sum = (sum & 0xFF) as u8;
                self.here.push(Visit { term, sum })?;
            }
        }
        state.wanted = inverse;
        state.inverse = rows;
        Ok(state)
    }

    // Whether all visits of the term at a place are in the window, and it is the first of them.
    fn is_due(&self, place: usize, visit: Visit) -> bool {
        let mut count = 0u32;
        for other in 0..self.here.len() {
            let there = at(&self.here, other, visit);
            if there.term == visit.term {
                if other < place {
                    return false;
                }
                count = count.wrapping_add(1);
            }
        }
        at(&self.visits, visit.term, 0) == count && visit.sum.count_ones() > 1
    }

    // The sums that have to be made in the window, eight to a word.
    fn set_sums(&mut self, flow: &Flow, state: &mut State) {
        let mut count = 0usize;
        for place in 0..self.here.len() {
            let none = Visit { term: 0, sum: 0 };
            let visit = at(&self.here, place, none);
            if flow.term(visit.term).power != 4 && self.is_due(place, visit) {
                let word = count / 8 % 2;
                let sum = u64::from(visit.sum) << (count % 8 * 8);
                state.sums[word] |= sum;
                count = count.wrapping_add(1);
            }
        }
    }

    fn way(&mut self, lines: u64) -> Way {
        let kind = self.random.below(4);
        Way {
            lines: lines.count_ones(),
            is_curved: kind & 1 == 1,
            linear: if kind & 2 == 2 { 6 } else { 3 },
        }
    }

    // Puts what was found in the window's place, and then what stood between.
    fn put(&mut self, region: usize, place: usize, lines: u64, found: &State) {
        let mut to = place;
        for step in 0..found.count {
            let (control, target) = found.flip(step);
            let flip = Flip {
                control: line_at(lines, control),
                target: line_at(lines, target),
            };
            put_at(&mut self.plan.flips, to, flip);
            to = to.wrapping_add(1);
        }
        for step in 0..self.outside.len() {
            let flip = at(&self.outside, step, NO_FLIP);
            put_at(&mut self.plan.flips, to, flip);
            to = to.wrapping_add(1);
        }
        let gone = self.inside.len().saturating_sub(found.count);
        if gone > 0 {
            self.plan.leave_out(region, to, gone);
        }
    }

    // Counts visits anew after what was found took the window's place.
    fn recount(&mut self, table: &Table, region: usize, place: usize, count: usize) {
        for step in 0..self.here.len() {
            let none = Visit { term: 0, sum: 0 };
            let visit = at(&self.here, step, none);
            self.drop_visit(visit.term);
        }
        for step in 0..count {
            let flip = self.plan.flip(place.wrapping_add(step));
            self.flip_rows(flip);
            self.count_held(table, region, usize::from(flip.target));
        }
    }

    // Looks for a window from a place on anew.
    fn try_window(
        &mut self,
        flow: &Flow,
        table: &Table,
        region: usize,
        place: usize,
    ) -> Result<(), AllocError> {
        self.gather(region, place)?;
        if self.inside.len() < 3 {
            return Ok(());
        }
        let lines = self.window_lines();
        self.replay(flow, region, place);
        let mut state = self.look(table, region, lines)?;
        self.set_sums(flow, &mut state);
        let way = self.way(lines);
        let bound = self.inside.len();
        if let Some(found) = self.search.run(way, state, bound, &mut self.random)? {
            self.put(region, place, lines, &found);
            self.recount(table, region, place, found.count);
        }
        Ok(())
    }

    // Splits the flips of a region, from the back or from the front, in those that can pass the lines of a cut, and
    // those that can't.
    fn split(&mut self, region: usize, cut: u64, forth: bool) -> Result<(), AllocError> {
        let (start, end) = (self.plan.start(region), self.plan.end(region));
        let (mut any, mut written) = (0u64, 0u64);
        self.inside.clear();
        self.outside.clear();
        for step in 0..end.saturating_sub(start) {
            let place = if forth {
                end.wrapping_sub(step).wrapping_sub(1)
            } else {
                start.wrapping_add(step)
            };
            let flip = self.plan.flip(place);
            let both = touched(flip);
            let passes = both & (cut | written) == 0 && !has(any, usize::from(flip.target));
            if passes {
                self.inside.push(flip)?;
            } else {
                self.outside.push(flip)?;
                any |= both;
                written |= bit(usize::from(flip.target));
            }
        }
        Ok(())
    }

    // Takes flips past the cut after a region.
    fn shift(&mut self, flow: &Flow, region: usize, forth: bool) -> Result<(), AllocError> {
        let after = region.wrapping_add(1);
        let from = if forth { region } else { after };
        self.split(from, flow.cut(region), forth)?;
        let (stay, go) = (self.outside.len(), self.inside.len());
        if go == 0 {
            return Ok(());
        }
        if forth {
            let start = self.plan.start(region);
            self.write_back(start, true);
            self.plan.set_end(region, start.wrapping_add(stay));
        } else {
            let start = self.plan.start(after);
            self.write_back(start, false);
            self.plan.set_end(region, start.wrapping_add(go));
        }
        let end = self.plan.end(region);
        self.replay(flow, region, end);
        self.store_next(flow, region);
        Ok(())
    }

    // Writes the two parts of a region from a place on: forth those that stay first, and each list from its back.
    fn write_back(&mut self, start: usize, forth: bool) {
        let (stay, go) = (self.outside.len(), self.inside.len());
        for step in 0..stay {
            let back = stay.wrapping_sub(step).wrapping_sub(1);
            let from = if forth { back } else { step };
            let to = if forth { step } else { go.wrapping_add(step) };
            let flip = at(&self.outside, from, NO_FLIP);
            put_at(&mut self.plan.flips, start.wrapping_add(to), flip);
        }
        for step in 0..go {
            let back = go.wrapping_sub(step).wrapping_sub(1);
            let from = if forth { back } else { step };
            let to = if forth { stay.wrapping_add(step) } else { step };
            let flip = at(&self.inside, from, NO_FLIP);
            put_at(&mut self.plan.flips, start.wrapping_add(to), flip);
        }
    }

    fn round(&mut self, flow: &Flow, table: &Table) -> Result<(), AllocError> {
        let cuts = flow.count().saturating_sub(1);
        if cuts > 0 && self.random.below(3) == 0 {
            let region = self.random.below(cuts);
            let forth = self.random.below(2) == 0;
            self.shift(flow, region, forth)?;
        }
        let place = self.random.below(self.plan.len());
        let region = self.plan.region_of(place);
        self.try_window(flow, table, region, place)
    }

    /// So many rounds.
    pub(crate) fn run(
        &mut self,
        flow: &Flow,
        table: &Table,
        rounds: usize,
    ) -> Result<(), AllocError> {
        for _ in 0..rounds {
            if self.plan.len() < 3 {
                return Ok(());
            }
            self.round(flow, table)?;
        }
        Ok(())
    }

    /// The plan.
    pub(crate) fn into_plan(self) -> Plan {
        self.plan
    }
}
