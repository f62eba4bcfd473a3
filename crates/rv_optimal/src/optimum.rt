ghost use Rattle.std.specs.Prelude.{◌≤◌, ◌+◌, length, IfOk, IfSome, IfNone};
ghost use Rattle.rv_optimal.specs.Shortest.{TakesAtLeast, IsShortest};
ghost use Rattle.rv_optimal.specs.declared.library.TheConstants.{MOST_OPTIMAL_LINES};

use crate::alike::Alike;
use crate::key::{identity, table_key};
use crate::library::{Library, moves_of};
use crate::search::{Depths, meet};
use rv_gate::Gate;
use rv_perm::Perm;
use std::alloc::{AllocError, Global};

/// A shortest list of gates of a library that computes the permutation, or none if each has more than `most`.
pub fn shortest(
    alloc: Global,
    perm: &Perm,
    library: Library,
    most: u8,
) -> Result<Option<Vec<Gate>>, AllocError>
    requires few { perm.now.lines ≤ MOST_OPTIMAL_LINES }
    requires most { most ≤ 100 }
    ensures shortest { IfOk result (λ found. IfSome found (λ gates.
        IsShortest library perm.now.lines perm.now.images gates.items)) }
    ensures bound { IfOk result (λ found. IfSome found (λ gates. length gates.items ≤ most)) }
    ensures longer { IfOk result (λ found. IfNone found
        (TakesAtLeast library perm.now.lines perm.now.images (most + 1))) }
{
    perm.recall_invariant();
    let lines = perm.lines();
    let gates = library.gates(alloc, lines)?;
    let moves = moves_of(alloc, &gates, lines)?;
    let alike = Alike::of(lines, &moves);
    let front = Vec::from_slice(alloc, &[identity(lines)])?;
    let back = Vec::from_slice(alloc, &[table_key(perm)])?;
    let depths = Depths {
        front: 0,
        back: 0,
        left: most,
    };
    match meet(
        alloc, perm, library, &gates, &moves, alike, &front, &back, depths,
    )? {
        Some(way) => Ok(Some(way.gates)),
        None => Ok(None),
    }
}
