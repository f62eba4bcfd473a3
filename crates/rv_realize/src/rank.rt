// Which of two circuits is better.
use crate::joined::joined_t;
use rv_gate::Circuit;
use rv_price::{Goal, price};
use std::alloc::Global;

// T counts once equal phases are joined, where that can be told.
fn cost(alloc: Global, circuit: &Circuit, goal: Goal) -> u64 {
    let apart = price(goal, circuit.line_count(), circuit.gates());
    match goal {
        Goal::T => joined_t(alloc, circuit).unwrap_or(apart).min(apart),
        _ => apart,
    }
}

/// Whether a circuit costs less by a goal than another one; by that of lines, whether it has fewer T gates.
pub(crate) fn is_cheaper(alloc: Global, goal: Goal, new: &Circuit, old: &Circuit) -> bool {
    let part = match goal {
        Goal::Lines => Goal::T,
        _ => goal,
    };
    cost(alloc, new, part) < cost(alloc, old, part)
}

/// Whether a circuit is better by a goal than another one, and of two that are as good by what else it costs.
pub(crate) fn is_better(alloc: Global, goal: Goal, new: &Circuit, old: &Circuit) -> bool {
    for part in [goal, Goal::T, Goal::Cx, Goal::Quantum, Goal::Lines] {
        let (one, other) = (cost(alloc, new, part), cost(alloc, old, part));
        if one != other {
            return one < other;
        }
    }
    false
}
