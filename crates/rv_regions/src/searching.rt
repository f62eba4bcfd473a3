use crate::absorb::absorb;
use crate::complete::complete;
use crate::flow::{Flow, flow_of};
use crate::plan::Plan;
use crate::polish::Polish;
use crate::random::Random;
use crate::table::{Table, table_of};
use crate::todd::Lowering;
use crate::writing::written;
use rv_net::Op;
use std::alloc::{AllocError, Global};

/// What there is to be less of.
#[derive(Clone, Copy)]
pub enum Goal {
    /// `T` first, then `Cx`.
    T,
    /// `Cx`, with no more `T`.
    Cx,
}

// So many operations are looked at together.
const PIECE: usize = 4096;

// Networks of fewer flips have as many windows as if they had so many.
const FEW_FLIPS: usize = 256;

// So often a short network is begun at the most.
const MOST_STARTS: usize = 16;

// What was found is gone on from with so many times as many windows.
const MORE_WINDOWS: usize = 2;

// So often it is gone on from what was found.
const MOST_ROUNDS: usize = 4;

const FEW_ROUNDS: usize = 2;

// So often the plan of a short network is renewed in the end for each effort, where T are to be fewer.
const RENEWALS: usize = 2;

// One term in so many is left out at a time, with so many windows for each flip.
const RENEWED: usize = 32;

const RENEWING: usize = 4;

fn has_three_lines(op: Op) -> bool {
    match op {
        Op::Ccx(_, _, _) | Op::Cswap(_, _, _) => true,
        _ => false,
    }
}

fn is_t(op: Op) -> bool {
    match op {
        Op::T(_) | Op::Tdg(_) => true,
        _ => false,
    }
}

fn price(op: Op) -> usize {
    match op {
        Op::Cx(_, _) | Op::Cz(_, _) => 1,
        Op::Swap(_, _) => 3,
        _ => 0,
    }
}

// How many T, and what the operations on two lines cost.
fn cost(ops: &[Op]) -> (usize, usize) {
    let (mut turns, mut pairs) = (0usize, 0usize);
    for op in ops {
        turns = turns.wrapping_add(usize::from(is_t(*op)));
        pairs = pairs.wrapping_add(price(*op));
    }
    (turns, pairs)
}

// Whether operations are better than others.
fn is_better(ops: &[Op], others: &[Op]) -> bool {
    let (new, old) = (cost(ops), cost(others));
    new.0 < old.0 || new.0 == old.0 && new.1 < old.1
}

// Work on so many words for each T and effort, in a network of one piece.
const WORDS: usize = 1 << 17;

// So many searches for fewer odd terms for each effort.
const SEARCHES: usize = 20;

// What a search may take: how often a network is begun, times its operations; how many windows there are for each flip;
// how many searches for fewer odd terms, and how many words these may work on for each of them.
#[derive(Clone, Copy)]
struct Effort {
    starts: usize,
    windows: usize,
    searches: usize,
    words: usize,
    seed: u64,
    lightens: bool,
    renewals: usize,
}

// For a network of so many pieces. Sums that are new to the lines take more windows.
fn effort_of(goal: Goal, effort: usize, pieces: usize, seed: u64) -> Effort {
    let is_one = pieces <= 1;
    match goal {
        Goal::T => Effort {
            starts: 2048,
            windows: effort.saturating_mul(if is_one { 2 } else { 1 }),
            searches: effort.saturating_mul(SEARCHES),
            words: effort.saturating_mul(WORDS) / pieces.max(1),
            seed,
            lightens: true,
            renewals: effort.saturating_mul(RENEWALS),
        },
        Goal::Cx => Effort {
            starts: 4096,
            windows: effort,
            searches: 0,
            words: 0,
            seed,
            lightens: false,
            renewals: 0,
        },
    }
}

// The best of several searches for fewer odd terms, as far as the work that is allowed leads.
fn lower(alloc: Global, flow: &mut Flow, effort: Effort) -> Result<(), AllocError> {
    let first = flow.terms.clone()?;
    let mut best = flow.terms.clone()?;
    let mut least = flow.odd_weight();
    let most = least.0;
    let mut left = effort.words.saturating_mul(flow.odd_count());
    for number in 0..effort.searches {
        if left == 0 {
            break;
        }
        flow.set_terms(&first)?;
        let seed = effort.seed.wrapping_mul(1009).wrapping_add(number as u64);
        let mut lowering = Lowering::new(alloc, flow.lines, seed, left, false)?;
        if number % 2 == 1 {
            lowering.shuffle();
        }
        lowering.run(alloc, flow)?;
        left = lowering.left();
        let is_vain = least.0 == most && number >= effort.searches / 4;
        if flow.odd_weight() < least {
            least = flow.odd_weight();
            best = flow.terms.clone()?;
        } else if is_vain {
            break;
        }
    }
    flow.set_terms(&best)?;
    if effort.lightens && effort.searches > 0 {
        let words = effort.words.saturating_mul(flow.odd_count());
        let mut lowering = Lowering::new(alloc, flow.lines, effort.seed, words, true)?;
        return lowering.run(alloc, flow);
    }
    Ok(())
}

fn polished(
    alloc: Global,
    flow: &Flow,
    table: &Table,
    plan: Plan,
    seed: u64,
    rounds: usize,
) -> Result<Plan, AllocError> {
    let mut polish = Polish::new(alloc, flow, table, plan, seed)?;
    polish.run(flow, table, rounds)?;
    Ok(polish.into_plan())
}

// A plan that is polished without some of the terms, and then with all of them: those stand where they fit best. A sign
// wants no flips, so that is what they are for a time.
fn renewed(
    alloc: Global,
    flow: &mut Flow,
    table: &Table,
    plan: &Plan,
    seed: u64,
) -> Result<Plan, AllocError> {
    let terms = flow.terms.clone()?;
    let mut random = Random::new(seed);
    for place in 0..flow.terms.len() {
        if random.below(RENEWED) == 0 {
            flow.set_power(place, 4);
        }
    }
    let rounds = plan.len().saturating_mul(RENEWING);
    let some = polished(alloc, flow, table, plan.copy()?, seed, rounds)?;
    flow.set_terms(&terms)?;
    let whole = complete(alloc, flow, table, some)?;
    polished(alloc, flow, table, whole, seed, rounds.saturating_mul(2))
}

fn reworked(
    alloc: Global,
    lines: usize,
    ops: &[Op],
    effort: Effort,
) -> Result<Option<Vec<Op>>, AllocError> {
    let (mut flow, plan) = flow_of(alloc, lines, ops)?;
    lower(alloc, &mut flow, effort)?;
    absorb(alloc, &mut flow, effort.seed)?;
    let table = table_of(alloc, &flow)?;
    let plan = complete(alloc, &flow, &table, plan)?;
    let rounds = plan.len().max(FEW_FLIPS).saturating_mul(effort.windows);
    let mut plan = polished(alloc, &flow, &table, plan, effort.seed, rounds)?;
    for number in 0..effort.renewals {
        let seed = effort.seed.wrapping_mul(1013).wrapping_add(number as u64);
        let next = renewed(alloc, &mut flow, &table, &plan, seed)?;
        if next.len() <= plan.len() {
            plan = next;
        }
    }
    written(alloc, &flow, &table, &plan)
}

// Goes on in so many rounds, each from the best so far.
fn in_rounds(
    alloc: Global,
    lines: usize,
    ops: &[Op],
    effort: Effort,
    rounds: usize,
) -> Result<Vec<Op>, AllocError> {
    let mut best = ops.to_vec(alloc)?;
    let mut effort = effort;
    effort.searches = 0;
    for _ in 0..rounds {
        effort.seed = effort.seed.wrapping_add(1);
        match reworked(alloc, lines, &best, effort)? {
            Some(other) if !is_better(&best, &other) => best = other,
            _ => {}
        }
    }
    Ok(best)
}

// What a start leads to in a few rounds, if anything.
fn started(
    alloc: Global,
    lines: usize,
    ops: &[Op],
    effort: Effort,
) -> Result<Option<Vec<Op>>, AllocError> {
    match reworked(alloc, lines, ops, effort)? {
        Some(found) => Ok(Some(in_rounds(alloc, lines, &found, effort, FEW_ROUNDS)?)),
        None => Ok(None),
    }
}

// The best of some starts, the more, the fewer operations there are; and what is found from there.
fn improved(
    alloc: Global,
    lines: usize,
    ops: &[Op],
    effort: Effort,
) -> Result<Vec<Op>, AllocError> {
    let starts = (effort.starts / ops.len().max(1)).clamp(1, MOST_STARTS);
    let mut best = ops.to_vec(alloc)?;
    let mut start = effort;
    start.renewals = 0;
    start.searches = effort.searches.saturating_add(starts.saturating_sub(1)) / starts.max(1);
    start.words = effort.words / starts.max(1);
    for number in 0..starts {
        start.lightens = effort.lightens && number % 4 < 3;
        match started(alloc, lines, ops, start)? {
            Some(found) if is_better(&found, &best) => best = found,
            _ => {}
        }
        start.seed = start.seed.wrapping_add(101);
    }
    let mut last = effort;
    last.windows = effort.windows.saturating_mul(MORE_WINDOWS);
    last.renewals = 0;
    let best = in_rounds(alloc, lines, &best, last, MOST_ROUNDS)?;
    if effort.renewals == 0 || starts < 2 {
        return Ok(best);
    }
    last.windows = effort.windows;
    last.renewals = effort.renewals;
    in_rounds(alloc, lines, &best, last, 1)
}

/// A network on so many lines with fewer `T` or `Cx`, if one is found; else these operations.
///
/// The effort is about how many windows are searched for each `Cx`; the same arguments find the same network.
pub fn fewer(
    alloc: Global,
    lines: u8,
    ops: &[Op],
    goal: Goal,
    effort: u16,
    seed: u16,
) -> Result<Vec<Op>, AllocError> {
    let mut list = Vec::new(alloc);
    if lines > 64 || ops.iter().any(|op| has_three_lines(*op)) {
        list.extend_from_slice(ops)?;
        return Ok(list);
    }
    let pieces = (ops.len() / PIECE).saturating_add(1);
    let effort = effort_of(goal, usize::from(effort), pieces, u64::from(seed));
    for piece in ops.chunks(PIECE) {
        let best = improved(alloc, usize::from(lines), piece, effort)?;
        list.extend_from_slice(&best)?;
    }
    Ok(list)
}
