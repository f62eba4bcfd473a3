// A search in pieces of a network, each of them confirmed.
ghost use Rattle.std.specs.Prelude.{IfOk};
ghost use Rattle.rv_reduce.specs.StandsFor.{StandsFor};

use crate::Goal;
use rv_net::Op;
use rv_paths::have_same_sums;
use rv_regions::fewer;
use std::alloc::{AllocError, Global};

// So many operations are searched together.
const PIECE: usize = 4096;

// What there is to be less of in the regions between H.
fn sought(goal: Goal) -> rv_regions::Goal {
    match goal {
        Goal::T => rv_regions::Goal::T,
        _ => rv_regions::Goal::Cx,
    }
}

// What is found for a piece, if it is seen to have the same amplitudes; else the piece itself.
fn found(
    alloc: Global,
    goal: Goal,
    lines: u8,
    piece: &[Op],
    effort: u16,
    seed: u16,
) -> Result<Vec<Op>, AllocError>
    ensures { IfOk result (λ made. StandsFor lines piece.now made.items) }
{
    let ops = fewer(alloc, lines, piece, sought(goal), effort, seed)?;
    let same = have_same_sums(alloc, lines, piece, &ops)?;
    if same { Ok(ops) } else { piece.to_vec(alloc) }
}

/// Operations with the same amplitudes that are found for these, piece by piece.
pub(crate) fn found_for(
    alloc: Global,
    goal: Goal,
    lines: u8,
    ops: &[Op],
    effort: u16,
    seed: u16,
) -> Result<Vec<Op>, AllocError>
    ensures { IfOk result (λ made. StandsFor lines ops.now made.items) }
{
    let mut made = Vec::new(alloc);
    let mut from = 0;
    while from < ops.len() {
        let to = from + PIECE.min(ops.len() - from);
        let piece = found(alloc, goal, lines, &ops[from..to], effort, seed)?;
        made.extend_from_slice(&piece)?;
        from = to;
    }
    Ok(made)
}
