ghost use Rattle.std.specs.Prelude.{◌≡◌, ◌≤◌, ◌<◌, ◌+◌, ℕ, Err, IfOk};
ghost use Rattle.rv_optimal.specs.Circuit.{IsOptimal, most_gates};
ghost use Rattle.rv_optimal.specs.Shortest.{TakesAtLeast};
ghost use Rattle.rv_optimal.specs.declared.circuit.OptimalFault.TheVariants.{Mem, MoreGates, TooManyLines};
ghost use Rattle.rv_optimal.specs.declared.library.TheConstants.{MOST_OPTIMAL_LINES};

use crate::library::{Library, MOST_OPTIMAL_LINES};
use crate::optimum::shortest;
use rv_gate::Circuit;
use rv_perm::{PermSpec, circuit_on};
use std::alloc::{AllocError, Global};
use thiserror::Error;

/// Why there is no circuit.
#[derive(Clone, Copy, Debug, PartialEq, Eq, Error)]
pub enum OptimalFault {
    /// The permutation has so many lines, more than [`MOST_OPTIMAL_LINES`].
    #[error("{0} lines are too many")]
    TooManyLines(u8),
    /// Every circuit for the permutation has more gates than so many.
    #[error("more than {0} gates")]
    MoreGates(u8),
    #[error("out of memory")]
    Mem,
}

impl From<AllocError> for OptimalFault {
    ghost from_gives = { λ _ fault. fault ≡ Mem };

    fn from(_: AllocError) -> Self {
        OptimalFault::Mem
    }
}

/// The most gates of a circuit that is looked for. On three lines there is always one.
fn most_gates(library: Library) -> u8
    ensures value { result ≡ most_gates library }
    ensures few { result ≤ 100 }
{
    match library {
        Library::Positive => 11,
        Library::Mixed => 8,
    }
}

/// A circuit that computes the permutation, and than which none of gates of the library has fewer, on lines named
/// `x0`, `x1`, and so on, with its marks.
pub fn optimal(alloc: Global, spec: &PermSpec, library: Library) -> Result<Circuit, OptimalFault>
    ensures found { IfOk result (IsOptimal library spec.now) }
    ensures few { IfOk result (λ circuit. spec.now.table.lines ≤ MOST_OPTIMAL_LINES) }
    ensures too_many_lines { (lines : ℕ) → result ≡ Err (TooManyLines lines)
        → (spec.now.table.lines ≡ lines) × (MOST_OPTIMAL_LINES < lines) }
    ensures more_gates { (most : ℕ) → result ≡ Err (MoreGates most)
        → (most ≡ most_gates library) × (spec.now.table.lines ≤ MOST_OPTIMAL_LINES)
        × TakesAtLeast library spec.now.table.lines spec.now.table.images (most + 1) }
{
    spec.recall_invariant();
    let lines = spec.perm().lines();
    if lines > MOST_OPTIMAL_LINES {
        return Err(OptimalFault::TooManyLines(lines));
    }
    let most = most_gates(library);
    match shortest(alloc, spec.perm(), library, most)? {
        Some(gates) => Ok(circuit_on(alloc, spec, gates)?),
        None => Err(OptimalFault::MoreGates(most)),
    }
}
