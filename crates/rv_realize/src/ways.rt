// All ways to a circuit for a table.
use crate::RealizeOptions;
use crate::first::reduced_list;
use crate::free::has_free;
use crate::pool::Pool;
use crate::spans::by_spans;
use rv_embed::embed;
use rv_esop::{EsopFault, cascade, shared_cascade};
use rv_exorlink::{Goal as CubeGoal, found_list};
use rv_gate::Circuit;
use rv_perm::MOST_PERM_LINES;
use rv_pla::Pla;
use rv_price::Goal;
use rv_spans::{Search, Task};
use rv_tbs::{Method, synth};
use std::alloc::{AllocError, Global};

// More lines than this are too many for the flips of a whole permutation.
const MOST_TURNED: u8 = 10;

// Of the effort the searches over spans get so many 64ths.
const WHOLE: u16 = 64;

// So many of them go to one that tells how many lines are enough, and so many to the first one of several otherwise.
const HALF: u16 = 32;

const MOST: u16 = 52;

// On more lines a search over spans may end at once.
const MOST_SPANNED: u8 = 12;

// No circuit has fewer lines: where no entry is free, those of the first one, if it is that of the embedding.
fn least(pla: &Pla, first: Option<&Circuit>) -> u8 {
    let own = pla.inputs().max(pla.outputs());
    match first {
        Some(circuit) => {
            if circuit.line_count() <= MOST_PERM_LINES && !has_free(pla) {
                return own.max(circuit.line_count());
            }
            own
        }
        None => own,
    }
}

// The share of the first search, of so many.
fn first_share(goal: Goal, turns: u8) -> u16 {
    if turns == 1 {
        return WHOLE;
    }
    match goal {
        Goal::Lines => HALF,
        _ => MOST,
    }
}

// The share of the next one.
fn next_share(share: u16) -> u16 {
    if share > HALF {
        (WHOLE - MOST) / 2
    } else {
        share / 2
    }
}

// An effort's part; not 0 if the whole isn't.
fn part(effort: u16, share: u16) -> u16 {
    let whole = u32::from(effort).saturating_mul(u32::from(share));
    u16::try_from(whole / 64).unwrap_or(effort).max(1)
}

// The lines of a search: by goal `lines` from the fewest on, and else from as many as there are.
fn lines_of(goal: Goal, least: u8, most: u8, turn: u8) -> u8 {
    match goal {
        Goal::Lines => least.saturating_add(turn).min(most),
        _ => most.saturating_sub(turn),
    }
}

// By spans, on one number of lines after another.
fn add_spans(
    alloc: Global,
    pla: &Pla,
    first: Option<&Circuit>,
    options: RealizeOptions,
    pool: &mut Pool,
) -> Result<(), AllocError> {
    let task = Task::new(alloc, pla)?;
    let most = options
        .lines
        .min(pla.inputs().saturating_add(pla.outputs()));
    let least = least(pla, first);
    let turns = most.saturating_sub(least).saturating_add(1);
    let mut share = first_share(options.goal, turns);
    for turn in 0..turns {
        let search = Search {
            lines: lines_of(options.goal, least, most, turn),
            effort: part(options.effort, share),
            seed: options.seed,
        };
        let found = by_spans(alloc, &task, pla.inputs(), search, options.goal)?;
        if found.is_some() || search.lines <= MOST_SPANNED {
            share = next_share(share);
        }
        let is_last = options.goal == Goal::Lines && found.is_some();
        if let Some(circuit) = found {
            pool.add(circuit)?;
        }
        if share == 0 || is_last {
            return Ok(());
        }
    }
    Ok(())
}

fn cube_goal(goal: Goal) -> CubeGoal {
    match goal {
        Goal::Quantum => CubeGoal::Quantum,
        Goal::Gates => CubeGoal::Gates,
        Goal::Lines | Goal::T | Goal::Cx => CubeGoal::T,
    }
}

fn add_cascade(pool: &mut Pool, cascade: Result<Circuit, EsopFault>) -> Result<(), AllocError> {
    match cascade {
        Ok(circuit) => pool.add(circuit),
        Err(EsopFault::TooManyGates(_)) => Ok(()),
        Err(EsopFault::Mem) => Err(AllocError),
    }
}

// By exclusive sums, where inputs and outputs have lines of their own.
fn add_sums(
    alloc: Global,
    pla: &Pla,
    options: RealizeOptions,
    pool: &mut Pool,
) -> Result<(), AllocError> {
    if pla.inputs().saturating_add(pla.outputs()) > options.lines {
        return Ok(());
    }
    let reduced = reduced_list(alloc, pla)?;
    add_cascade(pool, cascade(alloc, &reduced))?;
    let goal = cube_goal(options.goal);
    let list = found_list(alloc, pla, &reduced, goal, options.effort, options.seed)?;
    add_cascade(
        pool,
        shared_cascade(alloc, &list, goal, options.effort, options.seed),
    )
}

// By flips that turn the embedding's words.
fn add_turned(alloc: Global, pla: &Pla, most: u8, pool: &mut Pool) -> Result<(), AllocError> {
    let Ok(embedded) = embed(alloc, pla) else {
        return Ok(());
    };
    if embedded.spec.perm().lines() > most.min(MOST_TURNED) {
        return Ok(());
    }
    pool.add(synth(alloc, &embedded.spec, Method::Best)?)
}

/// Circuits for a table, of which nothing is promised.
pub(crate) fn circuits_for(
    alloc: Global,
    pla: &Pla,
    first: Option<&Circuit>,
    options: RealizeOptions,
) -> Result<Vec<Circuit>, AllocError> {
    let mut pool = Pool::new(alloc, options);
    if options.effort == 0 {
        return Ok(pool.circuits);
    }
    if let Some(circuit) = first {
        pool.add(circuit.copy()?)?;
    }
    add_spans(alloc, pla, first, options, &mut pool)?;
    add_sums(alloc, pla, options, &mut pool)?;
    add_turned(alloc, pla, options.lines, &mut pool)?;
    pool.shorten(alloc, false)?;
    Ok(pool.circuits)
}
