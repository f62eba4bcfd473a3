// Two sides, one from the identity and one from the permutation, grow until they meet, the one with fewer keys first.
// On the identity's side keys that are alike count as one.
ghost use Rattle.std.specs.Prelude.{◌≡◌, ◌≤◌, ◌+◌, ◌^◌, length, IfOk, IfSome, IfNone};
ghost use Rattle.std.specs.List.{Contains, range_with_len};
ghost use Rattle.rv_optimal.specs.Library.{AreIn};
ghost use Rattle.rv_optimal.specs.Shortest.{TakesAtLeast};
ghost use Rattle.rv_optimal.specs.inside.Alike.{least, Suits};
ghost use Rattle.rv_optimal.specs.inside.Levels.{after, AreApart, AreMoves, IsLevel, IsWhole};
ghost use Rattle.rv_optimal.specs.declared.alike.Alike.TheVariants.{Equal};
ghost use Rattle.rv_optimal.specs.declared.library.TheConstants.{MOST_OPTIMAL_LINES};

use crate::alike::Alike;
use crate::key::{composed, word_count};
use crate::levels::{common, grown, step_to};
use crate::library::Library;
use crate::way::{Way, begin_below, end_below};
use rv_gate::Gate;
use rv_perm::Perm;
use std::alloc::{AllocError, Global};

// How many gates the levels of both sides have, and how many more are tried.
#[derive(Clone, Copy)]
pub(crate) struct Depths {
    pub(crate) front: u8,
    pub(crate) back: u8,
    pub(crate) left: u8,
}

// A way of one gate from a level of the identity to one of the permutation, which have no key in common. No key of a
// next level is kept.
fn last_gate(
    alloc: Global,
    perm: &Perm,
    library: Library,
    gates: &[Gate],
    moves: &[u64],
    alike: Alike,
    front: &[u64],
    back: &[u64],
    depths: Depths,
) -> Result<Option<Way>, AllocError>
    requires few { perm.now.lines ≤ MOST_OPTIMAL_LINES }
    requires short { depths.front + depths.back + depths.left ≤ 100 }
    requires moves { AreMoves library perm.now.lines gates.now moves.now }
    requires suits { Suits alike perm.now.lines moves.now }
    requires front { IsLevel library perm.now.lines (range_with_len 0 (2 ^ perm.now.lines)) alike depths.front front.now }
    requires back { IsLevel library perm.now.lines perm.now.images Equal depths.back back.now }
    requires apart { AreApart alike front.now back.now }
    requires one { depths.left ≡ 1 }
    ensures begins { IfOk result (λ found. IfSome found (λ way. Contains front.now (least alike way.from))) }
    ensures whole { IfOk result (λ found. IfSome found (λ way. IsWhole perm.now.lines way.from)) }
    ensures ends { IfOk result (λ found. IfSome found (λ way. Contains back.now way.to)) }
    ensures allowed { IfOk result (λ found. IfSome found (λ way. AreIn library perm.now.lines way.gates.items)) }
    ensures leads { IfOk result (λ found. IfSome found (λ way.
        after perm.now.lines way.gates.items way.from ≡ way.to)) }
    ensures least { IfOk result (λ found. IfSome found (λ way.
        TakesAtLeast library perm.now.lines perm.now.images (depths.front + depths.back + length way.gates.items))) }
    ensures within { IfOk result (λ found. IfSome found (λ way. length way.gates.items ≤ depths.left)) }
    ensures longer { IfOk result (λ found. IfNone found
        (TakesAtLeast library perm.now.lines perm.now.images (depths.front + depths.back + depths.left + 1))) }
{
    perm.recall_invariant();
    let count = word_count(perm.lines());
    for key in back {
        if let Some(place) = step_to(front, moves, count, alike, *key) {
            return Ok(Some(Way {
                from: composed(count, moves[place], *key),
                to: *key,
                gates: Vec::from_slice(alloc, &[gates[place]])?,
            }));
        }
    }
    Ok(None)
}

// A shortest way from a level of the identity to one of the permutation, if at most so many gates more are taken.
pub(crate) fn meet(
    alloc: Global,
    perm: &Perm,
    library: Library,
    gates: &[Gate],
    moves: &[u64],
    alike: Alike,
    front: &[u64],
    back: &[u64],
    depths: Depths,
) -> Result<Option<Way>, AllocError>
    requires few { perm.now.lines ≤ MOST_OPTIMAL_LINES }
    requires short { depths.front + depths.back + depths.left ≤ 100 }
    requires moves { AreMoves library perm.now.lines gates.now moves.now }
    requires suits { Suits alike perm.now.lines moves.now }
    requires front { IsLevel library perm.now.lines (range_with_len 0 (2 ^ perm.now.lines)) alike depths.front front.now }
    requires back { IsLevel library perm.now.lines perm.now.images Equal depths.back back.now }
    requires least { TakesAtLeast library perm.now.lines perm.now.images (depths.front + depths.back) }
    ensures begins { IfOk result (λ found. IfSome found (λ way. Contains front.now (least alike way.from))) }
    ensures whole { IfOk result (λ found. IfSome found (λ way. IsWhole perm.now.lines way.from)) }
    ensures ends { IfOk result (λ found. IfSome found (λ way. Contains back.now way.to)) }
    ensures allowed { IfOk result (λ found. IfSome found (λ way. AreIn library perm.now.lines way.gates.items)) }
    ensures leads { IfOk result (λ found. IfSome found (λ way.
        after perm.now.lines way.gates.items way.from ≡ way.to)) }
    ensures least { IfOk result (λ found. IfSome found (λ way.
        TakesAtLeast library perm.now.lines perm.now.images (depths.front + depths.back + length way.gates.items))) }
    ensures within { IfOk result (λ found. IfSome found (λ way. length way.gates.items ≤ depths.left)) }
    ensures longer { IfOk result (λ found. IfNone found
        (TakesAtLeast library perm.now.lines perm.now.images (depths.front + depths.back + depths.left + 1))) }
{
    perm.recall_invariant();
    if let Some(key) = common(front, back, alike) {
        return Ok(Some(Way {
            from: key,
            to: key,
            gates: Vec::new(alloc),
        }));
    }
    if depths.left == 0 {
        return Ok(None);
    }
    if depths.left == 1 {
        return last_gate(
            alloc, perm, library, gates, moves, alike, front, back, depths,
        );
    }
    let lines = perm.lines();
    if front.len() <= back.len() {
        let next = grown(alloc, front, moves, word_count(lines), alike)?;
        let deeper = Depths {
            front: depths.front + 1,
            back: depths.back,
            left: depths.left - 1,
        };
        match meet(
            alloc, perm, library, gates, moves, alike, &next, back, deeper,
        )? {
            Some(way) => Ok(Some(begin_below(library, lines, front, gates, moves, alike, way)?)),
            None => Ok(None),
        }
    } else {
        let next = grown(alloc, back, moves, word_count(lines), Alike::Equal)?;
        let deeper = Depths {
            front: depths.front,
            back: depths.back + 1,
            left: depths.left - 1,
        };
        match meet(
            alloc, perm, library, gates, moves, alike, front, &next, deeper,
        )? {
            Some(way) => Ok(Some(end_below(library, lines, back, gates, moves, way)?)),
            None => Ok(None),
        }
    }
}
