// Sums that no line of a plan holds are made and taken back where that takes the fewest flips.
use crate::common::{at, line_of, lowest, put_at, without_lowest};
use crate::flow::Flow;
use crate::frame::Frame;
use crate::plan::Plan;
use crate::table::Table;
use std::alloc::{AllocError, Global};

// So often some of those on the fewest lines are made; then all.
const MOST_ROUNDS: usize = 128;

// Of so many squared one is made at a time.
const FEW: usize = 1 << 13;

/// Where a sum is on the fewest lines.
#[derive(Clone, Copy)]
struct Best {
    weight: u32,
    region: usize,
    place: usize,
    lines: u64,
}

const NOWHERE: Best = Best {
    weight: u32::MAX,
    region: 0,
    place: 0,
    lines: 0,
};

#[derive(Drop)]
struct Completing {
    best: Vec<Best>,
    chosen: Vec<Best>,
    frame: Frame,
}

impl Completing {
    fn new(alloc: Global, flow: &Flow) -> Result<Completing, AllocError> {
        let best = vec![in alloc; NOWHERE; flow.terms.len()]?;
        let frame = Frame::new(alloc, flow.lines)?;
        Ok(Completing {
            best,
            chosen: Vec::new(alloc),
            frame,
        })
    }

    fn begin(&mut self) {
        for place in 0..self.best.len() {
            put_at(&mut self.best, place, NOWHERE);
        }
        self.frame.begin();
    }

    // Looks at the sums of a region before the flip at a place.
    fn look(&mut self, table: &Table, region: usize, place: usize) {
        for entry in table.of_region(region) {
            let term = entry.term as usize;
            let best = at(&self.best, term, NOWHERE);
            if best.weight > 1 {
                let lines = self.frame.lines_of(entry.set);
                let weight = lines.count_ones();
                if weight < best.weight {
                    let better = Best {
                        weight,
                        region,
                        place,
                        lines,
                    };
                    put_at(&mut self.best, term, better);
                }
            }
        }
    }

    fn look_at_all(&mut self, flow: &Flow, table: &Table, plan: &Plan) {
        self.begin();
        for region in 0..flow.count() {
            self.look(table, region, plan.start(region));
            for place in plan.start(region)..plan.end(region) {
                let flip = plan.flip(place);
                self.frame
                    .flip(usize::from(flip.control), usize::from(flip.target));
                self.look(table, region, place.wrapping_add(1));
            }
            self.frame.pass(flow.map(region), flow.inverse(region));
        }
    }

    // The fewest lines of a sum that no line holds, and how many such sums there are.
    fn least(&self, flow: &Flow) -> (u32, usize) {
        let mut least = u32::MAX;
        let mut count = 0usize;
        for place in 0..self.best.len() {
            let weight = at(&self.best, place, NOWHERE).weight;
            if weight > 1 && flow.term(place).power != 4 {
                least = least.min(weight);
                count = count.wrapping_add(1);
            }
        }
        (least, count)
    }

    // Chooses sums on at most so many lines, in their order.
    fn choose(&mut self, flow: &Flow, most: u32, count: usize) -> Result<(), AllocError> {
        self.chosen.clear();
        for place in 0..self.best.len() {
            let best = at(&self.best, place, NOWHERE);
            let is_wanted = flow.term(place).power != 4 && best.weight > 1;
            let is_light = best.weight <= most && best.lines != 0;
            if is_wanted && is_light && self.chosen.len() < count {
                self.chosen.push(best)?;
            }
        }
        self.chosen
            .sort_unstable_by_key(|best| (best.region, best.place, best.lines));
        Ok(())
    }

    // The plan with the chosen sums made and taken back.
    fn rebuilt(&self, alloc: Global, flow: &Flow, plan: &Plan) -> Result<Plan, AllocError> {
        let mut made = Plan::new(alloc);
        let mut next = 0usize;
        for region in 0..flow.count() {
            for place in plan.start(region)..plan.end(region).wrapping_add(1) {
                next = self.push_chosen(&mut made, region, place, next)?;
                if place < plan.end(region) {
                    let flip = plan.flip(place);
                    made.push(flip.control, flip.target)?;
                }
            }
            made.close()?;
        }
        Ok(made)
    }

    // Makes and takes back the chosen sums at a place, from one on; the number of the next one.
    fn push_chosen(
        &self,
        made: &mut Plan,
        region: usize,
        place: usize,
        from: usize,
    ) -> Result<usize, AllocError> {
        for number in from..self.chosen.len() {
            let best = at(&self.chosen, number, NOWHERE);
            if best.region != region || best.place != place {
                return Ok(number);
            }
            push_sum(made, best.lines)?;
        }
        Ok(self.chosen.len())
    }
}

// Adds all lines of a set to its lowest one, and takes them away again.
fn push_sum(made: &mut Plan, lines: u64) -> Result<(), AllocError> {
    let target = line_of(lowest(lines));
    let others = without_lowest(lines);
    let mut left = others;
    for _ in 0..others.count_ones() {
        made.push(line_of(lowest(left)), target)?;
        left = without_lowest(left);
    }
    let mut back = others;
    for _ in 0..others.count_ones() {
        let high = 63u32.wrapping_sub(back.leading_zeros()) as usize;
        made.push(line_of(high), target)?;
        back &= !(1u64 << (high % 64));
    }
    Ok(())
}

/// A plan whose lines hold each sum that carries a term and is no sign.
pub(crate) fn complete(
    alloc: Global,
    flow: &Flow,
    table: &Table,
    plan: Plan,
) -> Result<Plan, AllocError> {
    let mut plan = plan;
    let mut completing = Completing::new(alloc, flow)?;
    for round in 0..MOST_ROUNDS {
        completing.look_at_all(flow, table, &plan);
        let (least, count) = completing.least(flow);
        if count == 0 {
            return Ok(plan);
        }
        if round + 1 < MOST_ROUNDS {
            let few = (count.saturating_mul(count) / FEW).saturating_add(1);
            completing.choose(flow, least, few)?;
        } else {
            completing.choose(flow, u32::MAX - 1, count)?;
        }
        plan = completing.rebuilt(alloc, flow, &plan)?;
    }
    Ok(plan)
}
