//! Pairs of linked gates.
ghost use Rattle.std.specs.Prelude.{◌≡◌, ◌≢◌, ℕ, ◌+◌, ◌<◌, ◌≤◌, min, List, [], ◌∷◌, length, take, IsTrue, IsFalse};
ghost use Rattle.std.specs.Prelude.{IfSome, IfNone, Some, None, MatchOption};
ghost use Rattle.rv_links.specs.Order.{next_in};
ghost use Rattle.rv_links.specs.Nodes.{live, node_gate, noted, ids_in, gates_in};
ghost use Rattle.rv_links.specs.inside.Chains.{nodes_from};
ghost use Rattle.rv_templ.specs.inside.Notes.{Noted, AllNoted, Others, coupled};
ghost use Rattle.rv_templ.specs.Gates.{AreGates};
ghost use Rattle.rv_templ.specs.inside.Joins.{option_of};
ghost use Rattle.rv_templ.specs.inside.Linking.{IsCursor};
ghost use Rattle.rv_templ.specs.Pairs.{pair_step};
ghost use Rattle.rv_templ.specs.inside.Mates.{Mate, NoMate, Candidate, IsStop, IsPairSpot};

use crate::along::{Cursor, node_at};
use crate::joining::{Joined, join, joins};
use crate::lookups::look_up;
use crate::notes::note_quiet;
use crate::stops::stop_of;
use rv_links::{Linked, NodeId, Sought};

/// A pair, with the place of its first gate, counted from 0.
#[derive(Clone, Copy)]
pub struct Pair {
    pub place: usize,
    pub a: NodeId,
    pub b: NodeId,
}

// Up to a stop that is so near the nodes are tried one by one.
const MOST_NEAR: u32 = 256;

// Whether so few numbers lead to the stop.
fn is_near(linked: &Linked, node: NodeId, stop: Option<u32>) -> bool
    requires { IsTrue (live node linked.now.nodes) }
{
    match stop {
        None => false,
        Some(last) => last <= linked.number(node) + MOST_NEAR,
    }
}

// Whether the number is that of the stop.
fn is_stop(stop: Option<u32>, number: u32) -> bool
    ensures { IsTrue result → stop ≡ Some number }
{
    match stop {
        None => false,
        Some(last) => last == number,
    }
}

// The nearest node whose gate joins with the node's, looked for node by node up to the stop.
fn partner_along(linked: &Linked, node: NodeId, stop: Option<u32>) -> Option<NodeId>
    requires live { IsTrue (live node linked.now.nodes) }
    requires stop { IsStop linked.now.nodes (node_gate node linked.now.nodes) node stop }
    ensures { MatchOption result (NoMate linked.now.nodes node) (λ b. Candidate linked.now.nodes node b) }
{
    linked.recall_invariant();
    let gate = linked.gate(node);
    let mut at = linked.next(node);
    while let Some(other) = at {
        let joins = joins(gate, linked.gate(other));
        if joins {
            return Some(other);
        }
        let last = is_stop(stop, linked.number(other));
        if last {
            return None;
        }
        at = linked.next(other);
    }
    None
}

// The same, where the gates that join with the node's are looked up unless the stop is near.
fn nearest(linked: &Linked, node: NodeId, stop: Option<u32>) -> Option<NodeId>
    requires live { IsTrue (live node linked.now.nodes) }
    requires stop { IsStop linked.now.nodes (node_gate node linked.now.nodes) node stop }
    ensures { MatchOption result (NoMate linked.now.nodes node) (λ b. Candidate linked.now.nodes node b) }
{
    let near = is_near(linked, node, stop);
    if near {
        return partner_along(linked, node, stop);
    }
    match look_up(linked, node, linked.gate(node)) {
        Sought::Unknown => partner_along(linked, node, stop),
        Sought::Nowhere => None,
        Sought::At(other) => Some(other),
    }
}

// The candidate, if no stop is before it.
fn if_free(linked: &Linked, a: NodeId, b: NodeId, stop: Option<u32>) -> Option<NodeId>
    requires candidate { Candidate linked.now.nodes a b }
    requires stop { IsStop linked.now.nodes (node_gate a linked.now.nodes) a stop }
    ensures { MatchOption result (NoMate linked.now.nodes a) (λ x. Mate linked.now.nodes a x) }
{
    linked.recall_invariant();
    match stop {
        None => Some(b),
        Some(last) => {
            if last < linked.number(b) {
                None
            } else {
                Some(b)
            }
        }
    }
}

// The nearest node with which the node is a pair.
fn partner_of(linked: &Linked, node: NodeId, stop: Option<u32>) -> Option<NodeId>
    requires live { IsTrue (live node linked.now.nodes) }
    requires stop { IsStop linked.now.nodes (node_gate node linked.now.nodes) node stop }
    ensures { MatchOption result (NoMate linked.now.nodes node) (λ b. Mate linked.now.nodes node b) }
{
    match nearest(linked, node, stop) {
        None => None,
        Some(other) => if_free(linked, node, other, stop),
    }
}

/// What the gates of a pair come to.
pub fn joined(linked: &Linked, a: NodeId, b: NodeId) -> Joined
    requires { Mate linked.now.nodes a b }
    ensures value { (m : Mate linked.now.nodes a b) → option_of result ≡ Some m.gates }
    ensures good { (m : Mate linked.now.nodes a b) → AreGates (length linked.now.frame.names) m.gates }
{
    linked.recall_invariant();
    join(linked.gate(a), linked.gate(b))
}

/// Makes the pair of two nodes.
pub fn make_pair(linked: &mut Linked, a: NodeId, b: NodeId)
    requires { Mate linked.old.nodes a b }
    ensures frame { linked.new.frame ≡ linked.old.frame }
    ensures nodes { (m : Mate linked.old.nodes a b) → linked.new.nodes ≡ coupled linked.old.nodes a b m }
    ensures notes { linked.new.notes ≡ linked.old.notes }
{
    linked.recall_invariant();
    match joined(linked, a, b) {
        Joined::Both => {
            linked.erase(a);
            linked.erase(b);
        }
        Joined::One(gate) => {
            linked.erase(a);
            linked.set_gate(b, gate);
        }
        Joined::Apart => unreachable!(),
    }
}

// The nearest node with which the node is a pair. Where there is none, that is noted. Answers too on how many gates
// after it a note depends at most.
fn mate_or_note(linked: &mut Linked, node: NodeId, far: usize) -> (Option<NodeId>, usize)
    requires live { IsTrue (live node linked.old.nodes) }
    requires right { Noted linked.old.notes linked.old.nodes far }
    ensures frame { linked.new.frame ≡ linked.old.frame }
    ensures nodes { linked.new.nodes ≡ linked.old.nodes }
    ensures right { Noted linked.new.notes linked.old.nodes result.1 }
    ensures others { Others node linked.old.notes linked.new.notes }
    ensures mate { IfSome result.0 (λ b. Mate linked.old.nodes node b) }
    ensures none { IfNone result.0 (noted node linked.new.notes ≢ 0) }
{
    if linked.note(node) != 0 {
        return (None, far);
    }
    let stop = stop_of(linked, node);
    if let Some(other) = partner_of(linked, node, stop) {
        return (Some(other), far);
    }
    let far = note_quiet(linked, node, stop, far);
    (None, far)
}

/// The first pair, if there is one, and on how many gates after it a note depends at most.
#[derive(Clone, Copy)]
pub struct Looked {
    pub pair: Option<Pair>,
    pub far: usize,
}

/// Looks for the first pair, where the gates before the place `from` have notes. Then those before the pair have, or
/// all.
pub fn first_pair(linked: &mut Linked, from: Cursor, far: usize) -> Looked
    requires cursor { IsCursor linked.old.nodes from.place from.before }
    requires right { Noted linked.old.notes linked.old.nodes far }
    requires known { AllNoted linked.old.notes (take from.place linked.old.nodes) }
    ensures frame { linked.new.frame ≡ linked.old.frame }
    ensures nodes { linked.new.nodes ≡ linked.old.nodes }
    ensures right { Noted linked.new.notes linked.old.nodes result.far }
    ensures known { MatchOption result.pair (AllNoted linked.new.notes linked.old.nodes) (λ p.
        AllNoted linked.new.notes (take p.place linked.old.nodes)) }
    ensures pair { MatchOption result.pair (pair_step (gates_in linked.old.nodes) ≡ None) (λ p.
        IsPairSpot linked.old.nodes p.place p.a p.b) }
{
    linked.recall_invariant();
    let mut far = far;
    let mut place = from.place;
    let mut at = node_at(linked, from);
    while let Some(node) = at {
        let (mate, now) = mate_or_note(linked, node, far);
        far = now;
        if let Some(other) = mate {
            let pair = Pair {
                place,
                a: node,
                b: other,
            };
            return Looked {
                pair: Some(pair),
                far,
            };
        }
        at = linked.next(node);
        place += 1;
    }
    Looked { pair: None, far }
}
