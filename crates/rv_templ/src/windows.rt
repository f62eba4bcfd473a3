//! Windows of linked gates.
ghost use Rattle.std.specs.Prelude.{◌≡◌, ℕ, ◌+◌, ◌-◌, ◌*◌, ◌^◌, ◌<◌, ◌≤◌, List, [], ◌∷◌, ◌++◌, length, take, drop};
ghost use Rattle.std.specs.Prelude.{IsTrue, IsFalse, Some, None, IfSome, MatchOption, count_ones};
ghost use Rattle.rv_templ.specs.declared.image.TheConstants.{TEMPLATE_GATES, TEMPLATE_LINES};
ghost use Rattle.rv_gate.specs.declared.word.TheConstants.{MOST_LINES};
ghost use Rattle.rv_links.specs.Nodes.{live, gates_in, window_set};
ghost use Rattle.rv_templ.specs.Images.{turned, new_line, replacement};
ghost use Rattle.rv_templ.specs.Templates.{AreTemplates};
ghost use Rattle.rv_templ.specs.inside.Library.{templates_in};
ghost use Rattle.rv_templ.specs.Choices.{window_at, after, template_in};
ghost use Rattle.rv_templ.specs.Simplified.{window_step};
ghost use Rattle.rv_templ.specs.inside.Clean.{Clean, IsSpot};
ghost use Rattle.rv_templ.specs.inside.Pruning.{varied};
ghost use Rattle.rv_templ.specs.inside.Sizes.{AreSizes};
ghost use Rattle.rv_templ.specs.inside.Linking.{coming, IsCursor};
ghost use Rattle.rv_templ.specs.inside.Notes.{Noted, NoneNoted};
ghost use Rattle.rv_templ.specs.inside.Replaced.{Replaced, Here, gates_for};

use crate::along::{Cursor, node_at};
use crate::image::TEMPLATE_GATES;
use crate::library::template_of;
use crate::replacement::fill;
use crate::search::{Found, find_window};
use crate::sizes::Sizes;
use crate::varied::varied_at;
use rv_gate::Gate;
use rv_links::{Linked, NodeId};

/// A window that is to be replaced, with its place, counted from 0, and its first node.
#[derive(Clone, Copy)]
pub struct Spot {
    pub place: usize,
    pub node: NodeId,
    pub found: Found,
}

// The gates from a node on, at most so many.
fn copy_from(linked: &Linked, node: NodeId, room: &mut [Gate], most: usize) -> usize
    requires live { IsTrue (live node linked.now.nodes) }
    requires full { length room.old ≡ TEMPLATE_GATES }
    requires few { most ≤ TEMPLATE_GATES }
    ensures gates { take result room.new ≡ take most (coming (Some node) linked.now.nodes) }
    ensures small { result ≤ most }
{
    linked.recall_invariant();
    let mut at = Some(node);
    for i in 0..most {
        match at {
            None => return i,
            Some(next) => {
                room[i] = linked.gate(next);
                at = linked.next(next);
            }
        }
    }
    most
}

// How many gates from a node on a window can have at most: a longer one has more lines that vary than a template
// touches.
fn reach(linked: &Linked, node: NodeId, most: usize, wide: u32) -> usize
    requires live { IsTrue (live node linked.now.nodes) }
    ensures small { result ≤ most }
    ensures beyond { (k : ℕ) → result < k → k ≤ most → k ≤ length (coming (Some node) linked.now.nodes)
        → wide < count_ones (varied (coming (Some node) linked.now.nodes) k) }
{
    linked.recall_invariant();
    let first = linked.gate(node);
    let mut set = 0;
    let mut at = Some(node);
    for i in 0..most {
        match at {
            None => return i,
            Some(next) => {
                set |= varied_at(linked.gate(next), first);
                if set.count_ones() > wide {
                    return i;
                }
                at = linked.next(next);
            }
        }
    }
    most
}

// The window that is taken at a node.
fn window_at(linked: &Linked, node: NodeId, templates: &[Vec<Gate>], sizes: Sizes) -> Option<Found>
    requires live { IsTrue (live node linked.now.nodes) }
    requires templates { AreTemplates (templates_in templates.now) }
    requires sizes { AreSizes sizes.most sizes.least sizes.wide (templates_in templates.now) }
    ensures { result ≡ window_at (coming (Some node) linked.now.nodes) (templates_in templates.now) }
{
    let most = reach(linked, node, sizes.most, sizes.wide);
    if 2 * most <= sizes.least {
        return None;
    }
    let mut room = [linked.gate(node); TEMPLATE_GATES];
    let n = copy_from(linked, node, &mut room, most);
    find_window(&room[..n], templates)
}

/// The first window, where the places before that of `clean` have none.
pub fn first_window(
    linked: &Linked,
    templates: &[Vec<Gate>],
    sizes: Sizes,
    clean: Cursor,
) -> Option<Spot>
    requires templates { AreTemplates (templates_in templates.now) }
    requires sizes { AreSizes sizes.most sizes.least sizes.wide (templates_in templates.now) }
    requires cursor { IsCursor linked.now.nodes clean.place clean.before }
    requires clean { Clean (templates_in templates.now) (gates_in linked.now.nodes) clean.place }
    ensures { MatchOption result (window_step (templates_in templates.now) (gates_in linked.now.nodes) ≡ None) (λ s.
        IsSpot (templates_in templates.now) linked.now.nodes s.place s.node s.found) }
{
    linked.recall_invariant();
    let mut place = clean.place;
    let mut at = node_at(linked, clean);
    while let Some(node) = at {
        if let Some(found) = window_at(linked, node, templates, sizes) {
            return Some(Spot { place, node, found });
        }
        at = linked.next(node);
        place += 1;
    }
    None
}

// Writes the gates that stand in the place of the window that was found.
fn fill_found(window: &[Gate], templates: &[Vec<Gate>], found: Found, room: &mut [Gate]) -> usize
    requires place { found.template < length templates.now }
    requires window { Replaced window.now (template_in (templates_in templates.now) found.template) found.turn
        found.lines }
    requires lines { (i : ℕ) → i < TEMPLATE_LINES → new_line found.lines i < MOST_LINES }
    requires full { TEMPLATE_GATES ≤ length room.old }
    ensures count { result
        ≡ length
        (replacement window.now (turned found.turn (template_in (templates_in templates.now) found.template))
        found.lines) }
    ensures gates { take result room.new
        ≡ replacement window.now (turned found.turn (template_in (templates_in templates.now) found.template))
        found.lines }
{
    let template = template_of(templates, found.template);
    fill(window, template, found.turn, found.lines, room)
}

// What is known of a window that is to be replaced.
fn recall_spot(linked: &Linked, spot: &Spot, templates: &[Vec<Gate>])
    requires templates { AreTemplates (templates_in templates.now) }
    requires spot { IsSpot (templates_in templates.now) linked.now.nodes spot.now.place spot.now.node spot.now.found }
    ensures { Here (length linked.now.frame.names) (templates_in templates.now)
        (coming (Some spot.now.node) linked.now.nodes) spot.now.found }
{
    linked.recall_invariant();
}

// Writes the gates that come in the place of a window, and answers how many they are.
fn write_new(linked: &Linked, spot: &Spot, templates: &[Vec<Gate>], new: &mut [Gate]) -> usize
    requires templates { AreTemplates (templates_in templates.now) }
    requires spot { IsSpot (templates_in templates.now) linked.now.nodes spot.now.place spot.now.node spot.now.found }
    requires full { TEMPLATE_GATES ≤ length new.old }
    ensures count { result
        ≡ length (gates_for (coming (Some spot.now.node) linked.now.nodes) (templates_in templates.now) spot.now.found) }
    ensures gates { take result new.new
        ≡ gates_for (coming (Some spot.now.node) linked.now.nodes) (templates_in templates.now) spot.now.found }
{
    recall_spot(linked, spot, templates);
    let mut room = [linked.gate(spot.node); TEMPLATE_GATES];
    let n = copy_from(linked, spot.node, &mut room, spot.found.len());
    fill_found(&room[..n], templates, spot.found, new)
}

// Sets the gates of a window.
fn set_window(linked: &mut Linked, spot: &Spot, templates: &[Vec<Gate>])
    requires templates { AreTemplates (templates_in templates.now) }
    requires spot { IsSpot (templates_in templates.now) linked.old.nodes spot.now.place spot.now.node spot.now.found }
    ensures { linked.new
        ≡ record linked.old {
          nodes =
              window_set spot.now.node spot.now.found.count
              (gates_for (coming (Some spot.now.node) linked.old.nodes) (templates_in templates.now) spot.now.found)
              linked.old.nodes;
        } }
{
    recall_spot(linked, spot, templates);
    let mut new = [linked.gate(spot.node); TEMPLATE_GATES];
    let count = write_new(linked, spot, templates, &mut new);
    linked.replace_window(spot.node, spot.found.len() as u32, &new[..count]);
}

/// Replaces a window.
pub fn replace(linked: &mut Linked, spot: Spot, templates: &[Vec<Gate>])
    requires templates { AreTemplates (templates_in templates.now) }
    requires spot { IsSpot (templates_in templates.now) linked.old.nodes spot.place spot.node spot.found }
    ensures frame { linked.new.frame ≡ linked.old.frame }
    ensures gates { gates_in linked.new.nodes
        ≡ take spot.place (gates_in linked.old.nodes)
        ++ after (drop spot.place (gates_in linked.old.nodes)) (templates_in templates.now) spot.found }
    ensures front { take spot.place linked.new.nodes ≡ take spot.place linked.old.nodes }
    ensures notes { linked.new.notes ≡ linked.old.notes }
    ensures right { (far : ℕ) → NoneNoted linked.old.notes (take spot.found.count (drop spot.place linked.old.nodes))
        → Noted linked.old.notes (drop spot.place linked.old.nodes) far
        → Noted linked.old.notes (drop spot.place linked.new.nodes) far }
{
    linked.recall_invariant();
    recall_spot(linked, &spot, templates);
    set_window(linked, &spot, templates);
}
