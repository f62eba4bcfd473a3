// Orders on ever fewer lines.
use crate::anneal::Annealer;
use crate::flip::Flip;
use crate::layout::{Layout, layout_of};
use crate::load::load_of;
use crate::net::Net;
use crate::order::{Order, Problem, first_order};
use crate::plan::Plan;
use crate::taking::taking_of;
use crate::telling::plan_of;
use crate::writer::write;
use rv_gate::MOST_LINES;
use std::alloc::{AllocError, Global};

/// How long is searched, and the seed of chance.
#[derive(Clone, Copy)]
pub struct Options {
    pub effort: u32,
    pub seed: u16,
}

// So many changes for each number of lines, and so much work in all, for each unit of effort.
const CHANGES: usize = 2000;

const WORK: u64 = 1 << 26;

// No more numbers of lines than this are tried, and no one oftener than this.
const MOST_LIMITS: usize = 1 << 12;

const MOST_FAILURES: u32 = 4;

// Looks for orders of the steps of a network.
#[derive(Drop)]
struct Curve {
    annealer: Annealer,
    // the best order on the fewest lines so far
    kept: Order,
    // lines for work, at most
    most: i64,
    failures: u32,
}

// The next number of lines after one that was met.
fn next_limit(lines: i64, most: i64) -> i64 {
    let less = lines.saturating_sub(1);
    if lines <= most {
        return less;
    }
    less.saturating_sub(lines / 12).max(most.min(less))
}

// The shorter one of two lists.
fn shorter(one: Option<Vec<Flip>>, other: Option<Vec<Flip>>) -> Option<Vec<Flip>> {
    match (one, other) {
        (Some(one), Some(other)) => Some(if other.len() < one.len() { other } else { one }),
        (None, other) => other,
        (one, None) => one,
    }
}

// The flips of an order.
fn flips_of(
    alloc: Global,
    net: &Net,
    problem: &Problem,
    layout: &Layout,
    order: &Order,
) -> Result<Option<Vec<Flip>>, AllocError> {
    if !layout.is_whole {
        return Ok(None);
    }
    let sizes = (net.inputs, net.outs.len());
    let taking = taking_of(alloc, net, problem, layout, order)?;
    let one = write(alloc, sizes, problem, layout, order, &taking, false)?;
    let other = write(alloc, sizes, problem, layout, order, &taking, true)?;
    Ok(shorter(one, other))
}

// Adds the plan of an order.
fn push_plan(
    alloc: Global,
    net: &Net,
    problem: &Problem,
    order: &Order,
    annealer: &mut Annealer,
    plans: &mut Vec<Plan>,
) -> Result<(), AllocError> {
    let layout = layout_of(alloc, net, problem, order, &mut annealer.solver)?;
    let work = layout.extra.min(usize::from(MOST_LINES)) as u8;
    let price = order.price().max(0) as u64;
    let Some(flips) = flips_of(alloc, net, problem, &layout, order)? else {
        return Ok(());
    };
    if let Some(plan) = plan_of(alloc, &flips, work, price)? {
        plans.push(plan)?;
    }
    Ok(())
}

impl Curve {
    fn new(alloc: Global, net: &Net, problem: &Problem, seed: u16) -> Result<Curve, AllocError> {
        let mut annealer = Annealer::new(alloc, seed)?;
        let mut kept = first_order(alloc, problem)?;
        let end = kept.len();
        annealer.solver.match_steps(problem, &mut kept);
        annealer.solver.refresh(problem, &mut kept, 0, end)?;
        annealer.current.assign(&kept)?;
        let first = net.inputs.saturating_add(net.outs.len()).min(64);
        Ok(Curve {
            annealer,
            kept,
            most: 64 - first as i64,
            failures: 0,
        })
    }

    fn lines(&self) -> i64 {
        load_of(&self.kept, 0).most
    }

    // The changes for a number of lines: more after failures.
    fn changes(&self, effort: usize) -> usize {
        let changes = effort.saturating_mul(CHANGES);
        match self.failures {
            0 => changes,
            1 => changes.saturating_mul(2),
            _ => changes.saturating_mul(4),
        }
    }

    // Tries a number of lines; the next one.
    fn try_limit(
        &mut self,
        problem: &Problem,
        limit: i64,
        effort: usize,
    ) -> Result<i64, AllocError> {
        let changes = self.changes(effort);
        self.annealer.run(problem, limit, changes)?;
        if self.annealer.is_found {
            self.failures = 0;
            self.kept.assign(&self.annealer.best)?;
            self.annealer.current.assign(&self.kept)?;
            return Ok(next_limit(self.lines(), self.most));
        }
        self.failures = self.failures.saturating_add(1);
        if self.failures % 2 == 0 {
            self.annealer.current.assign(&self.kept)?;
        }
        Ok(limit)
    }

    // Whether it goes on.
    fn is_on(&self, limit: i64, effort: u64) -> bool {
        limit >= 0
            && self.failures < MOST_FAILURES
            && self.annealer.solver.effort < effort.saturating_mul(WORK)
    }

    // Adds the plan of the best order, if it is new and has lines enough.
    fn push(
        &mut self,
        alloc: Global,
        net: &Net,
        problem: &Problem,
        plans: &mut Vec<Plan>,
    ) -> Result<(), AllocError> {
        if self.failures > 0 || self.lines() > self.most {
            return Ok(());
        }
        push_plan(alloc, net, problem, &self.kept, &mut self.annealer, plans)
    }
}

/// Adds plans on ever fewer lines.
pub(crate) fn push_plans(
    alloc: Global,
    net: &Net,
    on_inputs: bool,
    options: Options,
    plans: &mut Vec<Plan>,
) -> Result<(), AllocError> {
    let problem = Problem::new(alloc, net, on_inputs)?;
    let mut curve = Curve::new(alloc, net, &problem, options.seed)?;
    let mut limit = next_limit(curve.lines(), curve.most);
    curve.push(alloc, net, &problem, plans)?;
    for _ in 0..MOST_LIMITS {
        if !curve.is_on(limit, u64::from(options.effort)) {
            return Ok(());
        }
        limit = curve.try_limit(&problem, limit, options.effort as usize)?;
        curve.push(alloc, net, &problem, plans)?;
    }
    Ok(())
}
