//! How far a gate commutes with those after it.
ghost use Rattle.std.specs.Prelude.{◌≡◌, ℕ, ◌<◌, true, IsTrue, IfSome};
ghost use Rattle.rv_gate.specs.Commuting.{rule};
ghost use Rattle.rv_links.specs.Doubt.{IsBefore};
ghost use Rattle.rv_links.specs.Nodes.{live, node_gate};
ghost use Rattle.rv_templ.specs.inside.Mates.{IsStop};

use crate::passing::passes;
use rv_gate::Gate;
use rv_links::{Linked, NodeId};

// So many gates are asked one by one before some are passed at once.
const MOST_ASKED: u32 = 16;

// A later node, such that the gate commutes with all between; none, where it commutes with all later ones.
fn next_to_ask(linked: &Linked, gate: Gate, node: NodeId, asked: u32) -> Option<NodeId>
    requires { IsTrue (live node linked.now.nodes) }
    ensures later { IfSome result (λ b. IsTrue (live b linked.now.nodes) × (node < b)) }
    ensures free { (x : ℕ) → IsTrue (live x linked.now.nodes) → node < x → IsBefore x result
        → rule gate (node_gate x linked.now.nodes) ≡ true }
{
    linked.recall_invariant();
    if asked < MOST_ASKED {
        return linked.next(node);
    }
    linked.next_in_doubt(gate, node)
}

/// The number of the first node after this one with whose gate its gate does not commute.
pub fn stop_of(linked: &Linked, node: NodeId) -> Option<u32>
    requires { IsTrue (live node linked.now.nodes) }
    ensures { IsStop linked.now.nodes (node_gate node linked.now.nodes) node result }
{
    let gate = linked.gate(node);
    if linked.commutes_with_all(gate) {
        return None;
    }
    let mut asked: u32 = 0;
    let mut at = next_to_ask(linked, gate, node, asked);
    while let Some(next) = at {
        let number = linked.number(next);
        let free = passes(gate, linked.gate(next));
        if !free {
            return Some(number);
        }
        asked = asked.saturating_add(1);
        at = next_to_ask(linked, gate, next, asked);
    }
    None
}

/// Whether the gate commutes with all before a node.
pub fn commutes_before(linked: &Linked, gate: Gate, b: NodeId) -> bool
    requires { IsTrue (live b linked.now.nodes) }
    ensures { IsTrue result → (id : ℕ) → IsTrue (live id linked.now.nodes) → id < b
        → rule gate (node_gate id linked.now.nodes) ≡ true }
{
    linked.recall_invariant();
    if linked.commutes_with_all(gate) {
        return true;
    }
    let end = linked.number(b);
    let mut at = linked.first();
    while let Some(node) = at {
        let number = linked.number(node);
        if number >= end {
            return true;
        }
        let free = passes(gate, linked.gate(node));
        if !free {
            return false;
        }
        at = next_to_ask(linked, gate, node, MOST_ASKED);
    }
    true
}
