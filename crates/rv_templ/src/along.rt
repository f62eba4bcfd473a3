//! Places of linked gates.
ghost use Rattle.std.specs.Prelude.{◌≡◌, ℕ, ◌<◌, ◌≤◌, drop, min, length, IsTrue, IfSome, Some, None};
ghost use Rattle.rv_links.specs.Order.{head};
ghost use Rattle.rv_links.specs.Nodes.{live, ids_in, gates_in};
ghost use Rattle.rv_templ.specs.inside.Linking.{coming, IsCursor};

use rv_links::{Linked, NodeId};

/// A place, counted from 0, with the node directly before it. A change at the place or after it leaves that node where
/// it is.
#[derive(Clone, Copy)]
pub struct Cursor {
    pub place: usize,
    pub before: Option<NodeId>,
}

/// The cursor at the first place.
pub fn front() -> Cursor
    ensures place { result.place ≡ 0 }
    ensures before { result.before ≡ None }
{
    Cursor {
        place: 0,
        before: None,
    }
}

/// How many gates there are.
pub fn gate_count(linked: &Linked) -> usize
    ensures { result ≡ length linked.now.nodes }
{
    linked.recall_invariant();
    let mut place = 0;
    let mut at = linked.first();
    while let Some(node) = at {
        at = linked.next(node);
        place += 1;
    }
    place
}

/// The node at the place.
pub fn node_at(linked: &Linked, cursor: Cursor) -> Option<NodeId>
    requires { IsCursor linked.now.nodes cursor.place cursor.before }
    ensures live { IfSome result (λ a. IsTrue (live a linked.now.nodes)) }
    ensures node { result ≡ head (ids_in (drop cursor.place linked.now.nodes)) }
    ensures rest { coming result linked.now.nodes ≡ drop cursor.place (gates_in linked.now.nodes) }
{
    linked.recall_invariant();
    match cursor.before {
        None => linked.first(),
        Some(node) => linked.next(node),
    }
}

/// The cursor at a place, which has this node.
pub fn cursor_at(linked: &Linked, place: usize, node: NodeId) -> Cursor
    requires { Some node ≡ head (ids_in (drop place linked.now.nodes)) }
    ensures place { result.place ≡ place }
    ensures cursor { IsCursor linked.now.nodes result.place result.before }
{
    linked.recall_invariant();
    Cursor {
        place,
        before: linked.prev(node),
    }
}

/// The cursor at a place before this one. One that is at the place or before it stays.
pub fn back(linked: &Linked, cursor: &Cursor, place: usize) -> Cursor
    requires { IsCursor linked.now.nodes cursor.now.place cursor.now.before }
    ensures place { result.place ≡ min cursor.now.place place }
    ensures cursor { IsCursor linked.now.nodes result.place result.before }
{
    linked.recall_invariant();
    let mut at = cursor.place;
    let mut before = cursor.before;
    while at > place {
        at -= 1;
        if let Some(node) = before {
            before = linked.prev(node);
        }
    }
    Cursor { place: at, before }
}
