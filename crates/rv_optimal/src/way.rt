// Gates that lead from a key to another, from level to level.
ghost use Rattle.std.specs.Prelude.{◌≡◌, ◌+◌, ◌^◌, ◌≤◌, length, IfOk, IfSome, IsNone};
ghost use Rattle.std.specs.List.{Contains, flat_map};
ghost use Rattle.std.specs.List.Sorted.{IsNonDecreasing};
ghost use Rattle.rv_optimal.specs.Library.{IsIn, AreIn};
ghost use Rattle.rv_optimal.specs.inside.Packed.{composed, move_of};
ghost use Rattle.rv_optimal.specs.inside.Alike.{least, Suits};
ghost use Rattle.rv_optimal.specs.inside.Levels.{grown_from, after, AreLeast, AreMoves, AreWhole, IsWhole};
ghost use Rattle.rv_optimal.specs.declared.alike.Alike.TheVariants.{Equal};
ghost use Rattle.rv_optimal.specs.declared.library.TheConstants.{MOST_OPTIMAL_LINES};

use crate::alike::Alike;
use crate::key::{composed, move_of, word_count};
use crate::levels::{holds, step_to};
use crate::library::Library;
use rv_gate::Gate;
use std::alloc::AllocError;

// Gates, and the keys at their ends.
#[derive(Drop)]
pub(crate) struct Way {
    pub(crate) from: u64,
    pub(crate) to: u64,
    pub(crate) gates: Vec<Gate>,
}

// The gate that leads from a key of the next level to a level, or none if the key is in the level itself.
fn gate_down(
    library: Library,
    lines: u8,
    level: &[u64],
    gates: &[Gate],
    moves: &[u64],
    alike: Alike,
    key: u64,
) -> Option<Gate>
    requires few { lines ≤ MOST_OPTIMAL_LINES }
    requires moves { AreMoves library lines gates.now moves.now }
    requires rising { IsNonDecreasing level.now }
    requires whole { AreWhole lines level.now }
    requires least { AreLeast alike level.now }
    requires suits { Suits alike lines moves.now }
    requires key { IsWhole lines key }
    requires next { Contains (flat_map (grown_from alike (2 ^ lines) moves.now) level.now) (least alike key) }
    ensures there { IsNone result → Contains level.now (least alike key) }
    ensures allowed { IfSome result (λ gate. IsIn library lines gate) }
    ensures down { IfSome result (λ gate.
        Contains level.now (least alike (composed (2 ^ lines) (move_of lines gate) key))) }
{
    if holds(level, alike.least(key)) {
        return None;
    }
    match step_to(level, moves, word_count(lines), alike, key) {
        Some(place) => Some(gates[place]),
        None => unreachable!(),
    }
}

// A way that begins in a level in place of the next one.
pub(crate) fn begin_below(
    library: Library,
    lines: u8,
    level: &[u64],
    gates: &[Gate],
    moves: &[u64],
    alike: Alike,
    way: Way,
) -> Result<Way, AllocError>
    requires few { lines ≤ MOST_OPTIMAL_LINES }
    requires moves { AreMoves library lines gates.now moves.now }
    requires rising { IsNonDecreasing level.now }
    requires whole { AreWhole lines level.now }
    requires least { AreLeast alike level.now }
    requires suits { Suits alike lines moves.now }
    requires next { Contains (flat_map (grown_from alike (2 ^ lines) moves.now) level.now) (least alike way.from) }
    requires key { IsWhole lines way.from }
    requires allowed { AreIn library lines way.gates.items }
    ensures begins { IfOk result (λ new. Contains level.now (least alike new.from)) }
    ensures whole { IfOk result (λ new. IsWhole lines new.from) }
    ensures ends { IfOk result (λ new. new.to ≡ way.to) }
    ensures allowed { IfOk result (λ new. AreIn library lines new.gates.items) }
    ensures leads { IfOk result (λ new.
        after lines new.gates.items new.from ≡ after lines way.gates.items way.from) }
    ensures longer { IfOk result (λ new. length new.gates.items ≤ length way.gates.items + 1) }
{
    match gate_down(library, lines, level, gates, moves, alike, way.from) {
        Some(gate) => {
            let from = composed(word_count(lines), move_of(lines, gate), way.from);
            let mut new = way.gates;
            new.insert(0, gate)?;
            Ok(Way {
                from,
                to: way.to,
                gates: new,
            })
        }
        None => Ok(way),
    }
}

// A way that ends in a level in place of the next one.
pub(crate) fn end_below(
    library: Library,
    lines: u8,
    level: &[u64],
    gates: &[Gate],
    moves: &[u64],
    way: Way,
) -> Result<Way, AllocError>
    requires few { lines ≤ MOST_OPTIMAL_LINES }
    requires moves { AreMoves library lines gates.now moves.now }
    requires rising { IsNonDecreasing level.now }
    requires whole { AreWhole lines level.now }
    requires next { Contains (flat_map (grown_from Equal (2 ^ lines) moves.now) level.now) way.to }
    requires key { IsWhole lines way.to }
    requires allowed { AreIn library lines way.gates.items }
    requires leads { after lines way.gates.items way.from ≡ way.to }
    ensures begins { IfOk result (λ new. new.from ≡ way.from) }
    ensures ends { IfOk result (λ new. Contains level.now new.to) }
    ensures allowed { IfOk result (λ new. AreIn library lines new.gates.items) }
    ensures leads { IfOk result (λ new. after lines new.gates.items new.from ≡ new.to) }
    ensures longer { IfOk result (λ new. length new.gates.items ≤ length way.gates.items + 1) }
{
    match gate_down(library, lines, level, gates, moves, Alike::Equal, way.to) {
        Some(gate) => {
            let to = composed(word_count(lines), move_of(lines, gate), way.to);
            let mut new = way.gates;
            new.push(gate)?;
            Ok(Way {
                from: way.from,
                to,
                gates: new,
            })
        }
        None => Ok(way),
    }
}
