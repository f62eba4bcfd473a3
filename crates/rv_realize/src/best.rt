// The best of the circuits that are right.
ghost use Rattle.std.specs.Prelude.{IfSome, IsTrue, is_some};
ghost use Rattle.rv_realize.specs.Realized.{IsRealized};

use crate::RealizeOptions;
use crate::rank::is_better;
use rv_compare::{Comparison, compare_table};
use rv_gate::Circuit;
use rv_pla::Pla;
use std::alloc::Global;

// Whether a circuit has few lines enough, and gives what the table asks at all words.
fn is_right(circuit: &Circuit, pla: &Pla, most: u8) -> bool
    ensures { IsTrue result → IsRealized pla.now most circuit.now }
{
    circuit.line_count() <= most && compare_table(circuit, pla, false) == Comparison::Same
}

// The better of the best so far and a circuit that may be wrong.
fn better(
    alloc: Global,
    best: Option<Circuit>,
    new: Circuit,
    pla: &Pla,
    options: RealizeOptions,
) -> Option<Circuit>
    requires { IfSome best (IsRealized pla.now options.lines) }
    ensures right { IfSome result (IsRealized pla.now options.lines) }
    ensures kept { IsTrue (is_some best) → IsTrue (is_some result) }
{
    if !is_right(&new, pla, options.lines) {
        return best;
    }
    match best {
        Some(old) => {
            if is_better(alloc, options.goal, &new, &old) {
                Some(new)
            } else {
                Some(old)
            }
        }
        None => Some(new),
    }
}

/// The best of some circuits for a table, of which the first is right, and others may be.
pub(crate) fn best_of(
    alloc: Global,
    first: Option<Circuit>,
    others: Vec<Circuit>,
    pla: &Pla,
    options: RealizeOptions,
) -> Option<Circuit>
    requires { IfSome first (IsRealized pla.now options.lines) }
    ensures right { IfSome result (IsRealized pla.now options.lines) }
    ensures kept { IsTrue (is_some first) → IsTrue (is_some result) }
{
    let mut best = first;
    for circuit in others {
        best = better(alloc, best, circuit, pla, options);
    }
    best
}
