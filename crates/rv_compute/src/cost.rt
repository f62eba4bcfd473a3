// Which of two circuits is better.
use crate::turns::turns_of;
use rv_gate::{Circuit, Gate};
use rv_price::{Goal, price};
use std::alloc::{AllocError, Global};

/// What gates cost: what is to be small comes first.
pub(crate) type Cost = (u64, u64, usize);

pub(crate) fn cost_of(
    alloc: Global,
    goal: Goal,
    lines: u8,
    gates: &[Gate],
) -> Result<Cost, AllocError> {
    let count = u64::from(lines);
    Ok(match goal {
        Goal::Lines => (count, turns_of(alloc, gates)?, gates.len()),
        Goal::T | Goal::Cx => (turns_of(alloc, gates)?, count, gates.len()),
        Goal::Quantum | Goal::Gates => (price(goal, lines, gates), count, gates.len()),
    })
}

// Whether a circuit costs less than another.
fn is_cheaper(
    alloc: Global,
    goal: Goal,
    one: &Circuit,
    other: &Circuit,
) -> Result<bool, AllocError> {
    let cost = cost_of(alloc, goal, one.line_count(), one.gates())?;
    Ok(cost < cost_of(alloc, goal, other.line_count(), other.gates())?)
}

/// Whether a circuit on more lines than another is worth them: it costs less, and by the goal of lines has fewer T gates.
pub(crate) fn is_worth_lines(
    alloc: Global,
    goal: Goal,
    new: &Circuit,
    old: &Circuit,
) -> Result<bool, AllocError> {
    let part = match goal {
        Goal::Lines => Goal::T,
        _ => goal,
    };
    is_cheaper(alloc, part, new, old)
}

/// Whether there is a circuit, and it costs less than another, if there is one.
pub(crate) fn is_better(
    alloc: Global,
    goal: Goal,
    one: &Option<Circuit>,
    other: &Option<Circuit>,
) -> Result<bool, AllocError> {
    match (one, other) {
        (Some(one), Some(other)) => is_cheaper(alloc, goal, one, other),
        (one, _) => Ok(one.is_some()),
    }
}
