//! Notes that go because a gate comes, found by look-ups: those of the nodes before it whose gates join with it.
ghost use Rattle.std.specs.Prelude.{◌≡◌, ◌<◌, true, IsTrue, IsFalse};
ghost use Rattle.rv_gate.specs.Word.{has};
ghost use Rattle.rv_gate.specs.Gate.{IsGate};
ghost use Rattle.rv_gate.specs.declared.word.TheConstants.{MOST_LINES};
ghost use Rattle.rv_gate.specs.declared.gate.Shape.{Shape};
ghost use Rattle.rv_links.specs.Nodes.{live, noted};
ghost use Rattle.rv_templ.specs.inside.Lookups.{Loose, LooseOn, LooseAll};
ghost use Rattle.rv_templ.specs.inside.Notes.{Fewer};

use rv_gate::{Gate, LineSet, MOST_LINES, Shape, has};
use rv_links::{Linked, NodeId, Sought};

/// What a search for such nodes came to.
#[derive(Clone, Copy)]
pub struct Loosened {
    /// Whether it found all of them.
    pub all: bool,
    /// Whether a note went.
    pub gone: bool,
}

// So many nodes of one gate are tried.
const MOST_ALIKE: u32 = 32;

// Forgets the note of a node. Tells whether it had one, or a note went before.
fn forget_one(linked: &mut Linked, node: NodeId, gone: bool) -> bool
    requires { IsTrue (live node linked.old.nodes) }
    ensures frame { linked.new.frame ≡ linked.old.frame }
    ensures nodes { linked.new.nodes ≡ linked.old.nodes }
    ensures fewer { Fewer linked.old.notes linked.new.notes }
    ensures here { noted node linked.new.notes ≡ 0 }
    ensures same { IsFalse result → IsFalse gone × (linked.new.notes ≡ linked.old.notes) }
{
    if linked.note(node) == 0 {
        return gone;
    }
    linked.set_note(node, 0);
    true
}

// Forgets the notes of nodes before `b` that have the gate.
fn loosen(linked: &mut Linked, b: NodeId, gate: Gate, so_far: Loosened) -> Loosened
    requires { IsTrue (live b linked.old.nodes) }
    ensures frame { linked.new.frame ≡ linked.old.frame }
    ensures nodes { linked.new.nodes ≡ linked.old.nodes }
    ensures fewer { Fewer linked.old.notes linked.new.notes }
    ensures same { IsFalse result.gone → IsFalse so_far.gone × (linked.new.notes ≡ linked.old.notes) }
    ensures all { IsTrue result.all → IsTrue so_far.all × Loose linked.new.notes linked.old.nodes b gate }
{
    if !so_far.all {
        return so_far;
    }
    let mut gone = so_far.gone;
    let mut from = 0;
    for _i in 0..MOST_ALIKE {
        match linked.sought(gate, from) {
            Sought::Unknown => return Loosened { all: false, gone },
            Sought::Nowhere => return Loosened { all: true, gone },
            Sought::At(node) => {
                if linked.number(node) >= linked.number(b) {
                    return Loosened { all: true, gone };
                }
                gone = forget_one(linked, node, gone);
                from = linked.number(node) + 1;
            }
        }
    }
    Loosened { all: false, gone }
}

// The same for a flip, if there is such a one.
fn loosen_flip(
    linked: &mut Linked,
    b: NodeId,
    care: LineSet,
    want: LineSet,
    target: u8,
    so_far: Loosened,
) -> Loosened
    requires { IsTrue (live b linked.old.nodes) }
    ensures frame { linked.new.frame ≡ linked.old.frame }
    ensures nodes { linked.new.nodes ≡ linked.old.nodes }
    ensures fewer { Fewer linked.old.notes linked.new.notes }
    ensures same { IsFalse result.gone → IsFalse so_far.gone × (linked.new.notes ≡ linked.old.notes) }
    ensures all { IsTrue result.all
        → IsTrue so_far.all × Loose linked.new.notes linked.old.nodes b (Shape.Flip care want target) }
{
    linked.recall_invariant();
    match Gate::flip(care, want, target) {
        None => so_far,
        Some(gate) => loosen(linked, b, gate, so_far),
    }
}

// The same for the flips that differ from this one on the line, if the line is used.
fn loosen_on(
    linked: &mut Linked,
    b: NodeId,
    care: LineSet,
    want: LineSet,
    target: u8,
    used: LineSet,
    line: u8,
    so_far: Loosened,
) -> Loosened
    requires live { IsTrue (live b linked.old.nodes) }
    requires line { line < MOST_LINES }
    ensures frame { linked.new.frame ≡ linked.old.frame }
    ensures nodes { linked.new.nodes ≡ linked.old.nodes }
    ensures fewer { Fewer linked.old.notes linked.new.notes }
    ensures same { IsFalse result.gone → IsFalse so_far.gone × (linked.new.notes ≡ linked.old.notes) }
    ensures before { IsTrue result.all → IsTrue so_far.all }
    ensures all { IsTrue result.all → has used line ≡ true
        → LooseOn linked.new.notes linked.old.nodes b care want target line }
{
    if !has(used, line) {
        return so_far;
    }
    let on = 1 << line;
    let first = loosen_flip(linked, b, care ^ on, want, target, so_far);
    let second = loosen_flip(linked, b, care, want ^ on, target, first);
    loosen_flip(linked, b, care ^ on, want ^ on, target, second)
}

// The same for all flips that join with this one.
fn loosen_all(linked: &mut Linked, b: NodeId, care: LineSet, want: LineSet, target: u8) -> Loosened
    requires live { IsTrue (live b linked.old.nodes) }
    requires gate { IsGate (Shape.Flip care want target) }
    ensures frame { linked.new.frame ≡ linked.old.frame }
    ensures nodes { linked.new.nodes ≡ linked.old.nodes }
    ensures fewer { Fewer linked.old.notes linked.new.notes }
    ensures same { IsFalse result.gone → linked.new.notes ≡ linked.old.notes }
    ensures all { IsTrue result.all → LooseAll linked.new.notes linked.old.nodes b (Shape.Flip care want target) }
{
    linked.recall_invariant();
    let used = linked.read_lines() | care;
    let none = Loosened {
        all: true,
        gone: false,
    };
    let mut went = loosen_flip(linked, b, care, want, target, none);
    for line in 0..MOST_LINES {
        went = loosen_on(linked, b, care, want, target, used, line, went);
    }
    went
}

/// Forgets the notes of nodes before `b` whose gates join with the gate.
pub fn loosen_joined(linked: &mut Linked, b: NodeId, new: Gate) -> Loosened
    requires { IsTrue (live b linked.old.nodes) }
    ensures frame { linked.new.frame ≡ linked.old.frame }
    ensures nodes { linked.new.nodes ≡ linked.old.nodes }
    ensures fewer { Fewer linked.old.notes linked.new.notes }
    ensures same { IsFalse result.gone → linked.new.notes ≡ linked.old.notes }
    ensures all { IsTrue result.all → LooseAll linked.new.notes linked.old.nodes b new }
{
    match new.shape() {
        Shape::Flip { care, want, target } => loosen_all(linked, b, care, want, target),
        Shape::Swap { .. } | Shape::Peres { .. } => Loosened {
            all: false,
            gone: false,
        },
    }
}
