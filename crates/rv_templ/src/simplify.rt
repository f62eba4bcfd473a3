//! The rewriting by pairs and windows.
ghost use Rattle.std.specs.Prelude.{◌≡◌, ℕ, ◌+◌, ◌-◌, ◌<◌, ◌≤◌, min, List, length, take, IfSome, IfNone, Some, None};
ghost use Rattle.rv_templ.specs.declared.image.TheConstants.{TEMPLATE_GATES};
ghost use Rattle.rv_gate.specs.declared.gate.Shape.{Shape};
ghost use Rattle.rv_links.specs.Nodes.{gates_in, incidences};
ghost use Rattle.rv_templ.specs.Gates.{Same};
ghost use Rattle.rv_templ.specs.Templates.{AreTemplates};
ghost use Rattle.rv_templ.specs.inside.Library.{templates_in};
ghost use Rattle.rv_templ.specs.Pairs.{pair_step};
ghost use Rattle.rv_templ.specs.Simplified.{step, window_step, simplified, IsSimplifiedBy, NoStepLeft};
ghost use Rattle.rv_templ.specs.inside.Clean.{Short, Clean, IsSpot};
ghost use Rattle.rv_templ.specs.inside.Linking.{IsCursor};
ghost use Rattle.rv_templ.specs.inside.Mates.{IsPairSpot};
ghost use Rattle.rv_templ.specs.inside.Notes.{Noted, AllNoted, NoneNoted, IsKnown};
ghost use Rattle.rv_templ.specs.inside.Sizes.{AreSizes};

use crate::Library;
use crate::along::{Cursor, back, cursor_at, front};
use crate::notes::{forget, forget_all, forget_pair};
use crate::pairs::{Pair, first_pair, make_pair};
use crate::sizes::{Sizes, sizes_of};
use crate::windows::{Spot, first_window, replace};
use rv_gate::Gate;
use rv_links::Linked;

// What is known of a circuit, beside the notes of its gates.
#[derive(Clone, Copy)]
struct Known {
    // The places before this one have no window.
    clean: Cursor,
    // The gates before this place have notes.
    due: Cursor,
    // A note depends on at most so many gates after its own.
    far: usize,
}

// How far the places without a window are known after a step at the place of `here`. A window at a place depends on as
// many gates as the longest template has.
fn still_clean(linked: &Linked, clean: Cursor, here: &Cursor, most: usize) -> Cursor
    requires clean { IsCursor linked.now.nodes clean.place clean.before }
    requires here { IsCursor linked.now.nodes here.now.place here.now.before }
    ensures place { result.place ≡ min clean.place (min here.now.place (here.now.place + 1 - most)) }
    ensures cursor { IsCursor linked.now.nodes result.place result.before }
{
    linked.recall_invariant();
    let last = here.place.min((here.place + 1).saturating_sub(most));
    if clean.place <= last {
        return clean;
    }
    back(linked, here, last)
}

// Makes the first pair, where all gates before it have notes. Answers what is known then, from what is known of
// windows.
fn step_pair(linked: &mut Linked, pair: &Pair, clean: Cursor, far: usize, most: usize) -> Known
    requires spot { IsPairSpot linked.old.nodes pair.now.place pair.now.a pair.now.b }
    requires clean { IsCursor linked.old.nodes clean.place clean.before }
    requires right { Noted linked.old.notes linked.old.nodes far }
    requires known { AllNoted linked.old.notes (take pair.now.place linked.old.nodes) }
    ensures frame { linked.new.frame ≡ linked.old.frame }
    ensures step { pair_step (gates_in linked.old.nodes) ≡ Some (gates_in linked.new.nodes) }
    ensures known { (library : List (List Shape)) → Short most library
        → Clean library (gates_in linked.old.nodes) clean.place
        → IsKnown library linked.new.nodes linked.new.notes result.clean result.due result.far }
{
    linked.recall_invariant();
    let here = cursor_at(linked, pair.place, pair.a);
    let clean = still_clean(linked, clean, &here, most);
    let due = forget_pair(linked, pair, here, far);
    make_pair(linked, pair.a, pair.b);
    Known { clean, due, far }
}

// Replaces the first window, where all gates have notes. Answers what is known then.
fn step_window(
    linked: &mut Linked,
    spot: Spot,
    templates: &[Vec<Gate>],
    far: usize,
    most: usize,
) -> Known
    requires templates { AreTemplates (templates_in templates.now) }
    requires short { Short most (templates_in templates.now) }
    requires few { most ≤ TEMPLATE_GATES }
    requires spot { IsSpot (templates_in templates.now) linked.old.nodes spot.place spot.node spot.found }
    requires right { Noted linked.old.notes linked.old.nodes far }
    requires known { AllNoted linked.old.notes linked.old.nodes }
    ensures frame { linked.new.frame ≡ linked.old.frame }
    ensures step { window_step (templates_in templates.now) (gates_in linked.old.nodes)
        ≡ Some (gates_in linked.new.nodes) }
    ensures known { IsKnown (templates_in templates.now) linked.new.nodes linked.new.notes result.clean result.due
        result.far }
{
    linked.recall_invariant();
    let here = cursor_at(linked, spot.place, spot.node);
    let clean = back(linked, &here, (spot.place + 1).saturating_sub(most));
    let due = back(linked, &here, spot.place.saturating_sub(far));
    forget(linked, &due, spot.place - due.place + most);
    replace(linked, spot, templates);
    Known { clean, due, far }
}

// Makes the chosen step, by what is known. Answers what is known then, and `None` where there is no step.
fn make_step(
    linked: &mut Linked,
    templates: &[Vec<Gate>],
    sizes: Sizes,
    known: Known,
) -> Option<Known>
    requires templates { AreTemplates (templates_in templates.now) }
    requires sizes { AreSizes sizes.most sizes.least sizes.wide (templates_in templates.now) }
    requires known { IsKnown (templates_in templates.now) linked.old.nodes linked.old.notes known.clean known.due
        known.far }
    ensures stepped { IfSome result (λ next.
        step (templates_in templates.now) (gates_in linked.old.nodes) ≡ Some (gates_in linked.new.nodes)) }
    ensures known { IfSome result (λ next.
        IsKnown (templates_in templates.now) linked.new.nodes linked.new.notes next.clean next.due next.far) }
    ensures settled { IfNone result (step (templates_in templates.now) (gates_in linked.old.nodes) ≡ None) }
    ensures kept { IfNone result (linked.new.nodes ≡ linked.old.nodes) }
    ensures frame { linked.new.frame ≡ linked.old.frame }
{
    linked.recall_invariant();
    let clean = known.clean;
    let looked = first_pair(linked, known.due, known.far);
    let (found, far) = (looked.pair, looked.far);
    if let Some(pair) = found {
        let next = step_pair(linked, &pair, clean, far, sizes.most);
        return Some(next);
    }
    match first_window(linked, templates, sizes, clean) {
        Some(spot) => {
            let next = step_window(linked, spot, templates, far, sizes.most);
            Some(next)
        }
        None => None,
    }
}

// Steps until none is left, where no gate has a note.
fn simplify(linked: &mut Linked, templates: &[Vec<Gate>])
    requires templates { AreTemplates (templates_in templates.now) }
    requires none { NoneNoted linked.old.notes linked.old.nodes }
    ensures value { gates_in linked.new.nodes ≡ simplified (templates_in templates.now) (gates_in linked.old.nodes) }
    ensures frame { linked.new.frame ≡ linked.old.frame }
    ensures same { Same (length linked.old.frame.names) (gates_in linked.old.nodes) (gates_in linked.new.nodes) }
    ensures settled { NoStepLeft (templates_in templates.now) (gates_in linked.new.nodes) }
    ensures fewer { length linked.new.nodes ≤ length linked.old.nodes }
    ensures no_more { incidences (gates_in linked.new.nodes) ≤ incidences (gates_in linked.old.nodes) }
{
    linked.recall_invariant();
    let sizes = sizes_of(templates);
    let mut known = Some(Known {
        clean: front(),
        due: front(),
        far: 0,
    });
    while let Some(places) = known {
        known = make_step(linked, templates, sizes, places);
    }
}

/// Simplifies the circuit until no step is left: again and again the first pair is made, and where there is none the
/// first window is replaced.
///
/// It takes no memory.
pub fn simplify_linked(linked: &mut Linked, library: &Library)
    ensures value { gates_in linked.new.nodes ≡ simplified library.now (gates_in linked.old.nodes) }
    ensures frame { linked.new.frame ≡ linked.old.frame }
    ensures same { Same (length linked.old.frame.names) (gates_in linked.old.nodes) (gates_in linked.new.nodes) }
    ensures settled { NoStepLeft library.now (gates_in linked.new.nodes) }

    // Each step made the first pair that there was, or replaced the first window where there was no pair.
    ensures steps { IsSimplifiedBy library.now (gates_in linked.old.nodes) (gates_in linked.new.nodes) }
    ensures fewer { length linked.new.nodes ≤ length linked.old.nodes }
    ensures no_more { incidences (gates_in linked.new.nodes) ≤ incidences (gates_in linked.old.nodes) }
{
    forget_all(linked);
    simplify(linked, library.templates());
}
