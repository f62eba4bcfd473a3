// All ways to a circuit for a permutation in place.
use crate::RealizeOptions;
use crate::pool::Pool;
use crate::spans::by_spans;
use rv_gate::{Circuit, mirrored_u32};
use rv_optimal::{Library, OptimalFault, optimal};
use rv_perm::PermSpec;
use rv_spans::{Search, Task};
use rv_tbs::{Method, synth};
use std::alloc::{AllocError, Global};

// More lines than these are too many for the flips of a whole permutation, and for spans.
const MOST_TURNED: u8 = 10;

const MOST_SPANNED: u8 = 8;

// Input 0 is the most significant bit of a word's number, and output `j` is bit `j`.
fn task_of(alloc: Global, spec: &PermSpec) -> Result<Task, AllocError> {
    let lines = spec.perm().lines();
    let mut ones = Vec::new(alloc);
    for number in 0..1u32 << lines {
        ones.push(mirrored_u32(spec.perm().get(number), lines))?;
    }
    let cares = vec![in alloc; u32::MAX >> (32 - u32::from(lines)); ones.len()]?;
    Task::of(alloc, usize::from(lines), usize::from(lines), ones, cares)
}

fn add_spans(
    alloc: Global,
    spec: &PermSpec,
    options: RealizeOptions,
    pool: &mut Pool,
) -> Result<(), AllocError> {
    let lines = spec.perm().lines();
    if lines > MOST_SPANNED {
        return Ok(());
    }
    let search = Search {
        lines,
        effort: options.effort / 4,
        seed: options.seed,
    };
    match by_spans(alloc, &task_of(alloc, spec)?, lines, search, options.goal)? {
        Some(circuit) => pool.add(circuit),
        None => Ok(()),
    }
}

fn add_optimal(
    alloc: Global,
    spec: &PermSpec,
    library: Library,
    pool: &mut Pool,
) -> Result<(), AllocError> {
    match optimal(alloc, spec, library) {
        Ok(circuit) => pool.add(circuit),
        Err(OptimalFault::Mem) => Err(AllocError),
        Err(_) => Ok(()),
    }
}

/// Circuits for a permutation, of which nothing is promised.
pub(crate) fn circuits_in_place(
    alloc: Global,
    spec: &PermSpec,
    first: &Circuit,
    options: RealizeOptions,
) -> Result<Vec<Circuit>, AllocError> {
    let mut pool = Pool::new(alloc, options);
    if options.effort == 0 {
        return Ok(pool.circuits);
    }
    pool.add(first.copy()?)?;
    add_spans(alloc, spec, options, &mut pool)?;
    if spec.perm().lines() <= MOST_TURNED {
        pool.add(synth(alloc, spec, Method::Best)?)?;
    }
    add_optimal(alloc, spec, Library::Positive, &mut pool)?;
    add_optimal(alloc, spec, Library::Mixed, &mut pool)?;
    pool.shorten(alloc, true)?;
    pool.shorten_by_goals(alloc, first)?;
    Ok(pool.circuits)
}
