//! What is noted of gates that make no pair, until it may be so no longer.
//!
//! The note of a gate is 0 where nothing is known. It is 1 if the gate makes no pair with any after it, and a node's
//! number and 2 if it makes none with any up to that node, with which it does not commute.
ghost use Rattle.std.specs.Prelude.{◌≡◌, ◌≢◌, ◌⊎◌, ℕ, ◌+◌, ◌<◌, ◌≤◌, List, [], ◌∷◌, ◌++◌, length, take, drop, true};
ghost use Rattle.std.specs.Prelude.{All, IsTrue, IsFalse, Some, None};
ghost use Rattle.rv_gate.specs.declared.circuit.TheConstants.{MOST_GATES};
ghost use Rattle.rv_gate.specs.declared.gate.Shape.{Shape};
ghost use Rattle.rv_gate.specs.Gate.{FitsIn};
ghost use Rattle.rv_gate.specs.Commuting.{rule};
ghost use Rattle.rv_links.specs.Order.{next_in};
ghost use Rattle.rv_links.specs.Nodes.{Node, live, node_gate, noted, ids_in, gates_in};
ghost use Rattle.rv_links.specs.inside.Chains.{nodes_from};
ghost use Rattle.rv_templ.specs.Pairs.{paired};
ghost use Rattle.rv_templ.specs.inside.Joins.{option_of};
ghost use Rattle.rv_templ.specs.inside.Linking.{IsCursor};
ghost use Rattle.rv_templ.specs.inside.Lookups.{LooseAll};
ghost use Rattle.rv_templ.specs.inside.Mates.{Mate, NoMate, Joinless, IsStop, IsPairSpot, passes};
ghost use Rattle.rv_templ.specs.inside.Notes.{Quiet, Noted, AllNoted, NoneNoted, Fewer, Others, Apart, Kept, coupled};

use crate::along::{Cursor, back, front, gate_count, node_at};
use crate::joining::{Joined, joins};
use crate::loosening::loosen_joined;
use crate::pairs::{Pair, joined};
use crate::stops::commutes_before;
use rv_gate::{Gate, MOST_GATES};
use rv_links::{Linked, NodeId};

// The note of a node that makes no pair, and on how many gates after it that depends at most.
fn note_for(linked: &Linked, node: NodeId, stop: Option<u32>) -> (u32, usize)
    requires live { IsTrue (live node linked.now.nodes) }
    requires none { NoMate linked.now.nodes node }
    requires stop { IsStop linked.now.nodes (node_gate node linked.now.nodes) node stop }
    ensures quiet { Quiet result.0 (node_gate node linked.now.nodes)
        (nodes_from (next_in node (ids_in linked.now.nodes)) linked.now.nodes) result.1 }
    ensures some { result.0 ≢ 0 }
{
    linked.recall_invariant();
    let own = linked.number(node);
    match stop {
        None => (1, (linked.greatest_number() - own) as usize),
        Some(last) => (last + 2, (last - own) as usize),
    }
}

/// Notes that the node makes no pair, with its stop. Answers on how many gates after it a note depends at most.
pub fn note_quiet(linked: &mut Linked, node: NodeId, stop: Option<u32>, far: usize) -> usize
    requires live { IsTrue (live node linked.old.nodes) }
    requires none { NoMate linked.old.nodes node }
    requires stop { IsStop linked.old.nodes (node_gate node linked.old.nodes) node stop }
    requires right { Noted linked.old.notes linked.old.nodes far }
    ensures frame { linked.new.frame ≡ linked.old.frame }
    ensures nodes { linked.new.nodes ≡ linked.old.nodes }
    ensures some { noted node linked.new.notes ≢ 0 }
    ensures right { Noted linked.new.notes linked.old.nodes result }
    ensures others { Others node linked.old.notes linked.new.notes }
{
    linked.recall_invariant();
    let (note, seen) = note_for(linked, node, stop);
    linked.set_note(node, note);
    far.max(seen)
}

/// Nothing is known of `count` gates from a place on.
pub fn forget(linked: &mut Linked, low: &Cursor, count: usize)
    requires { IsCursor linked.old.nodes low.now.place low.now.before }
    ensures frame { linked.new.frame ≡ linked.old.frame }
    ensures nodes { linked.new.nodes ≡ linked.old.nodes }
    ensures fewer { Fewer linked.old.notes linked.new.notes }
    ensures here { NoneNoted linked.new.notes (take count (drop low.now.place linked.old.nodes)) }
    ensures before { AllNoted linked.old.notes (take low.now.place linked.old.nodes)
        → AllNoted linked.new.notes (take low.now.place linked.old.nodes) }
{
    linked.recall_invariant();
    let start = *low;
    let mut at = node_at(linked, start);
    for _i in 0..count {
        match at {
            None => return,
            Some(node) => {
                linked.set_note(node, 0);
                at = linked.next(node);
            }
        }
    }
}

/// Nothing is known of any gate.
pub fn forget_all(linked: &mut Linked)
    ensures frame { linked.new.frame ≡ linked.old.frame }
    ensures nodes { linked.new.nodes ≡ linked.old.nodes }
    ensures none { NoneNoted linked.new.notes linked.old.nodes }
{
    let count = gate_count(linked);
    let first = front();
    forget(linked, &first, count);
}

// Whether the gate makes no pair with what two gates come to.
fn is_apart(gate: Gate, made: &Joined) -> bool
    ensures { IsTrue result → (gates : List Shape) → option_of made.now ≡ Some gates → Joinless gate gates }
{
    match *made {
        Joined::Apart => false,
        Joined::Both => true,
        Joined::One(new) => !joins(gate, new),
    }
}

// Whether the note names one of these numbers.
fn names(note: u32, first: u32, second: u32) -> bool
    requires first { first < MOST_GATES }
    requires second { second < MOST_GATES }
    ensures first { IsFalse result → note ≢ first + 2 }
    ensures second { IsFalse result → note ≢ second + 2 }
{
    note == first + 2 || note == second + 2
}

// Forgets the note of a node if it may be wrong after the nodes `a` and `b`, which come to `made`, were made a pair.
fn forget_if_changed(linked: &mut Linked, node: NodeId, a: NodeId, b: NodeId, made: &Joined)
    requires live { IsTrue (live node linked.old.nodes) }
    requires first { IsTrue (live a linked.old.nodes) }
    requires second { IsTrue (live b linked.old.nodes) }
    ensures frame { linked.new.frame ≡ linked.old.frame }
    ensures nodes { linked.new.nodes ≡ linked.old.nodes }
    ensures fewer { Fewer linked.old.notes linked.new.notes }
    ensures others { Others node linked.old.notes linked.new.notes }
    ensures here { (gates : List Shape) → option_of made.now ≡ Some gates
        → (noted node linked.new.notes ≡ 0)
        ⊎ ((noted node linked.new.notes ≢ a + 2) × (noted node linked.new.notes ≢ b + 2)
        × Joinless (node_gate node linked.old.nodes) gates) }
{
    let named = names(linked.note(node), linked.number(a), linked.number(b));
    if named {
        linked.set_note(node, 0);
        return;
    }
    let apart = is_apart(linked.gate(node), made);
    if !apart {
        linked.set_note(node, 0);
    }
}

// Forgets the notes of nodes from a place on and before `b` that may be wrong after the nodes `a` and `b`, which come
// to `made`, were made a pair.
fn forget_near(linked: &mut Linked, low: &Cursor, a: NodeId, b: NodeId, made: &Joined)
    requires first { IsTrue (live a linked.old.nodes) }
    requires second { IsTrue (live b linked.old.nodes) }
    requires cursor { IsCursor linked.old.nodes low.now.place low.now.before }
    ensures frame { linked.new.frame ≡ linked.old.frame }
    ensures nodes { linked.new.nodes ≡ linked.old.nodes }
    ensures fewer { Fewer linked.old.notes linked.new.notes }
    ensures before { AllNoted linked.old.notes (take low.now.place linked.old.nodes)
        → AllNoted linked.new.notes (take low.now.place linked.old.nodes) }
    ensures kept { (gates : List Shape) (first second : Node) (xs ys : List Node) → option_of made.now ≡ Some gates
        → first.id ≡ a → second.id ≡ b → low.now.place ≤ length xs → linked.old.nodes ≡ xs ++ (second ∷ ys)
        → Kept linked.new.notes first second gates (drop low.now.place xs) }
{
    linked.recall_invariant();
    let start = *low;
    let mut at = node_at(linked, start);
    while let Some(node) = at {
        if node == b {
            return;
        }
        forget_if_changed(linked, node, a, b, made);
        at = linked.next(node);
    }
}

// Forgets the note of a node if it makes a pair with the gate. Tells whether a note went.
fn forget_if_joined(linked: &mut Linked, node: NodeId, new: Gate) -> bool
    requires { IsTrue (live node linked.old.nodes) }
    ensures frame { linked.new.frame ≡ linked.old.frame }
    ensures nodes { linked.new.nodes ≡ linked.old.nodes }
    ensures fewer { Fewer linked.old.notes linked.new.notes }
    ensures same { IsFalse result → linked.new.notes ≡ linked.old.notes }
    ensures here { (noted node linked.new.notes ≡ 0) ⊎ (paired (node_gate node linked.old.nodes) new ≡ None) }
{
    if linked.note(node) == 0 {
        return false;
    }
    let joins = joins(linked.gate(node), new);
    if !joins {
        return false;
    }
    linked.set_note(node, 0);
    true
}

// Forgets the notes of nodes before `b` that make a pair with the gate. Tells whether a note went.
fn forget_along(linked: &mut Linked, b: NodeId, new: Gate) -> bool
    ensures frame { linked.new.frame ≡ linked.old.frame }
    ensures nodes { linked.new.nodes ≡ linked.old.nodes }
    ensures fewer { Fewer linked.old.notes linked.new.notes }
    ensures same { IsFalse result → linked.new.notes ≡ linked.old.notes }
    ensures loose { LooseAll linked.new.notes linked.old.nodes b new }
{
    linked.recall_invariant();
    let mut gone = false;
    let mut at = linked.first();
    while let Some(node) = at {
        if node == b {
            return gone;
        }
        let went = forget_if_joined(linked, node, new);
        gone |= went;
        at = linked.next(node);
    }
    gone
}

// The same by look-ups, as far as these tell.
#[tactic(auto, using(crate::proofs::inside::LookupLaws::apart_before, crate::proofs::inside::NoteLaws::fewer_on))]
fn forget_joined(linked: &mut Linked, b: NodeId, new: Gate) -> bool
    requires { IsTrue (live b linked.old.nodes) }
    ensures frame { linked.new.frame ≡ linked.old.frame }
    ensures nodes { linked.new.nodes ≡ linked.old.nodes }
    ensures fewer { Fewer linked.old.notes linked.new.notes }
    ensures same { IsFalse result → linked.new.notes ≡ linked.old.notes }
    ensures apart { (n : Node) (xs ys : List Node) → n.id ≡ b → linked.old.nodes ≡ xs ++ (n ∷ ys)
        → Apart linked.new.notes (new ∷ []) xs }
{
    linked.recall_invariant();
    let went = loosen_joined(linked, b, new);
    if went.all {
        return went.gone;
    }
    let also = forget_along(linked, b, new);
    went.gone || also
}

// The same for what the pair comes to.
fn forget_made(linked: &mut Linked, b: NodeId, made: &Joined) -> bool
    requires { IsTrue (live b linked.old.nodes) }
    ensures frame { linked.new.frame ≡ linked.old.frame }
    ensures nodes { linked.new.nodes ≡ linked.old.nodes }
    ensures fewer { Fewer linked.old.notes linked.new.notes }
    ensures same { IsFalse result → linked.new.notes ≡ linked.old.notes }
    ensures apart { (gates : List Shape) (n : Node) (xs ys : List Node) → option_of made.now ≡ Some gates → n.id ≡ b
        → linked.old.nodes ≡ xs ++ (n ∷ ys) → Apart linked.new.notes gates xs }
{
    match *made {
        Joined::Apart => false,
        Joined::Both => false,
        Joined::One(new) => forget_joined(linked, b, new),
    }
}

// Whether both gates of a pair commute with every gate before the second one.
fn are_free(linked: &Linked, a: NodeId, b: NodeId) -> bool
    requires { Mate linked.now.nodes a b }
    ensures first { IsTrue result → (m : Mate linked.now.nodes a b)
        → IsTrue (passes m.first.gate (gates_in (m.before ++ (m.first ∷ m.between)))) }
    ensures second { IsTrue result → (m : Mate linked.now.nodes a b)
        → IsTrue (passes m.second.gate (gates_in (m.before ++ (m.first ∷ m.between)))) }
{
    linked.recall_invariant();
    if !commutes_before(linked, linked.gate(a), b) {
        return false;
    }
    commutes_before(linked, linked.gate(b), b)
}

/// Forgets what may be wrong after the pair is made, where `here` is its place and all gates before it have a note.
/// Answers a place before which they still have one.
pub fn forget_pair(linked: &mut Linked, pair: &Pair, here: Cursor, far: usize) -> Cursor
    requires spot { IsPairSpot linked.old.nodes pair.now.place pair.now.a pair.now.b }
    requires place { here.place ≡ pair.now.place }
    requires cursor { IsCursor linked.old.nodes here.place here.before }
    requires right { Noted linked.old.notes linked.old.nodes far }
    requires known { AllNoted linked.old.notes (take here.place linked.old.nodes) }
    ensures frame { linked.new.frame ≡ linked.old.frame }
    ensures nodes { linked.new.nodes ≡ linked.old.nodes }
    ensures right { (s : IsPairSpot linked.old.nodes pair.now.place pair.now.a pair.now.b)
        → Noted linked.new.notes (coupled linked.old.nodes pair.now.a pair.now.b s.mate) far }
    ensures most { result.place ≤ here.place }
    ensures cursor { IsCursor linked.old.nodes result.place result.before }
    ensures known { AllNoted linked.new.notes (take result.place linked.old.nodes) }
{
    linked.recall_invariant();
    let (a, b) = (pair.a, pair.b);
    let made = joined(linked, a, b);
    let free = are_free(linked, a, b);
    linked.set_note(b, 0);
    if free {
        let gone = forget_made(linked, b, &made);
        return if gone { front() } else { here };
    }
    let low = back(linked, &here, here.place.saturating_sub(far));
    forget_near(linked, &low, a, b, &made);
    low
}
