//! Nodes whose gates join with a flip. Such a gate is the same flip, or one that differs from it on one line, so all of
//! them are looked up: the flip, and for each line that is used as a control two others.
ghost use Rattle.std.specs.Prelude.{◌≡◌, ℕ, ◌+◌, ◌<◌, ◌≤◌, ◌^◌, List, true, IsTrue, Some};
ghost use Rattle.rv_gate.specs.Word.{has};
ghost use Rattle.rv_gate.specs.Gate.{IsGate};
ghost use Rattle.rv_gate.specs.declared.word.TheConstants.{MOST_LINES};
ghost use Rattle.rv_gate.specs.declared.gate.Shape.{Shape};
ghost use Rattle.rv_links.specs.Nodes.{live, node_gate};
ghost use Rattle.rv_links.specs.Seeking.{Reaches, Found};
ghost use Rattle.rv_templ.specs.inside.Lookups.{Partner, Seen, SeenOn, SeenAll};

use crate::joining::joins;
use rv_gate::{Gate, LineSet, MOST_LINES, Shape, has};
use rv_links::{Linked, NodeId, Sought};

// The sooner one of the best node so far and of the first one from a number on that has this flip.
fn nearer(
    linked: &Linked,
    from: u32,
    best: Sought,
    care: LineSet,
    want: LineSet,
    target: u8,
) -> Sought
    ensures found { Found linked.now.nodes from best → Found linked.now.nodes from result }
    ensures best { (x : ℕ) → Reaches best x → Reaches result x }
    ensures this { Seen linked.now.nodes from result (Shape.Flip care want target) }
{
    linked.recall_invariant();
    if let Sought::Unknown = best {
        return best;
    }
    match Gate::flip(care, want, target) {
        None => best,
        Some(gate) => best.sooner(linked.sought(gate, from)),
    }
}

// The same for the flips that differ from this one on the line, if the line is used.
fn nearer_on(
    linked: &Linked,
    from: u32,
    best: Sought,
    care: LineSet,
    want: LineSet,
    target: u8,
    used: LineSet,
    line: u8,
) -> Sought
    requires { line < MOST_LINES }
    ensures found { Found linked.now.nodes from best → Found linked.now.nodes from result }
    ensures best { (x : ℕ) → Reaches best x → Reaches result x }
    ensures this { has used line ≡ true → SeenOn linked.now.nodes from result care want target line }
{
    if !has(used, line) {
        return best;
    }
    let on = 1 << line;
    let best = nearer(linked, from, best, care ^ on, want, target);
    let best = nearer(linked, from, best, care, want ^ on, target);
    nearer(linked, from, best, care ^ on, want ^ on, target)
}

// The first node from a number on whose gate joins with the flip.
fn first_joined(linked: &Linked, from: u32, care: LineSet, want: LineSet, target: u8) -> Sought
    requires { IsGate (Shape.Flip care want target) }
    ensures found { Found linked.now.nodes from result }
    ensures least { SeenAll linked.now.nodes from result (Shape.Flip care want target) }
{
    linked.recall_invariant();
    let used = linked.read_lines() | care;
    let mut best = nearer(linked, from, Sought::Nowhere, care, want, target);
    for line in 0..MOST_LINES {
        best = nearer_on(linked, from, best, care, want, target, used, line);
    }
    best
}

/// The nearest node after this one whose gate joins with its gate.
pub fn look_up(linked: &Linked, node: NodeId, gate: Gate) -> Sought
    requires live { IsTrue (live node linked.now.nodes) }
    requires gate { gate ≡ node_gate node linked.now.nodes }
    ensures { Partner linked.now.nodes node result }
{
    linked.recall_invariant();
    let Shape::Flip { care, want, target } = gate.shape() else {
        return Sought::Unknown;
    };
    let best = first_joined(linked, linked.number(node) + 1, care, want, target);
    match best {
        Sought::Unknown => best,
        Sought::Nowhere => best,
        Sought::At(other) => {
            let joins = joins(gate, linked.gate(other));
            if joins { best } else { Sought::Unknown }
        }
    }
}
