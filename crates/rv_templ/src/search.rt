//! The search for the window that is taken at a place.
ghost use Rattle.std.specs.Prelude.{◌≡◌, ◌≢◌, ℕ, ◌+◌, ◌-◌, ◌*◌, ◌^◌, ◌<◌, ◌≤◌, Bool, true, false, not, ◌&&◌, ◌||◌};
ghost use Rattle.std.specs.Prelude.{◌==◌, List, [], ◌∷◌, ◌++◌, length, take, drop, IsTrue, IsFalse, IfSome, IfNone};
ghost use Rattle.rv_templ.specs.declared.image.TheConstants.{TEMPLATE_GATES, TEMPLATE_LINES};
ghost use Rattle.rv_gate.specs.declared.word.TheConstants.{MOST_LINES};
ghost use Rattle.rv_gate.specs.Word.{has};
ghost use Rattle.rv_gate.specs.Gate.{same, controls, wanted, touched};
ghost use Rattle.rv_gate.specs.FirstAnswer.{first};
ghost use Rattle.rv_templ.specs.Folds.{least};
ghost use Rattle.rv_templ.specs.Gates.{gate_in, AreGates};
ghost use Rattle.rv_templ.specs.Images.{target_of, span, turned, new_line, allowed};
ghost use Rattle.rv_templ.specs.inside.Pruning.{Dropped, Suits, same_role, alike, varied};
ghost use Rattle.rv_templ.specs.Templates.{IsTemplate, AreTemplates};
ghost use Rattle.rv_templ.specs.inside.Library.{templates_in};
ghost use Rattle.rv_templ.specs.Windows.{IsWindow, NoWindow};
ghost use Rattle.rv_templ.specs.inside.Replaced.{Improves, want_found, care_found};
ghost use Rattle.rv_templ.specs.Choices.{renaming, at_template, at_count, window_at, after};

use crate::image::{Renaming, TEMPLATE_LINES, span, target_of, turned_gate};
use crate::library::template_of;
use crate::matching::allowed;
use crate::varied::{varied, varied_turned};
use rv_gate::{Gate, LineSet, MOST_LINES, has};
use std::marker::Model;

fn same(a: bool, b: bool) -> bool
    ensures { result ≡ same a b }
{
    a == b
}

fn is(a: u8, b: u8) -> bool
    ensures { result ≡ (a == b) }
{
    a == b
}

// Whether line `v` is to the gate what line `i` is to the other.
fn same_role(gate: Gate, v: u8, other: Gate, i: u8) -> bool
    requires new { v < MOST_LINES }
    requires old { i < MOST_LINES }
    ensures { result ≡ same_role gate v other i }
{
    let control = same(has(gate.controls(), v), has(other.controls(), i));
    let value = same(has(gate.wanted(), v), has(other.wanted(), i));
    let target = same(is(v, target_of(gate)), is(i, target_of(other)));
    control && value && target
}

// Whether line `v` is to each gate of the window what line `i` is to the template's.
fn same_roles(window: &[Gate], template: &[Gate], r: usize, i: u8, v: u8) -> bool
    requires few { length template.now ≤ TEMPLATE_GATES }
    requires turn { r < length template.now }
    requires room { length window.now ≤ length template.now }
    requires old { i < TEMPLATE_LINES }
    requires new { v < MOST_LINES }
    ensures differs { IsFalse result
        → (j : ℕ) × (j < length window.now)
        × (same_role (gate_in window.now j) v (gate_in (turned r template.now) j) i ≡ false) }
    ensures roles { IsTrue result → (j : ℕ) → j < length window.now
        → same_role (gate_in window.now j) v (gate_in (turned r template.now) j) i ≡ true }
{
    for j in 0..window.len() {
        let gate = turned_gate(template, r, j);
        let same = same_role(window[j], v, gate, i);
        if !same {
            return false;
        }
    }
    true
}

fn takes(own: LineSet, to: Renaming, j: u8, v: u8) -> bool
    requires { j < TEMPLATE_LINES }
    ensures { result ≡ (has own j && (new_line to j == v)) }
{
    let mine = has(own, j);
    mine && to[j as usize] == v
}

// Whether a line before `i` became `v`.
fn is_used(own: LineSet, to: Renaming, i: u8, v: u8) -> bool
    requires { i < TEMPLATE_LINES }
    ensures used { IsTrue result → (j : ℕ) × (j < i) × (has own j ≡ true) × (new_line to j ≡ v) }
    ensures unused { IsFalse result → (j : ℕ) → j < i → has own j ≡ true → new_line to j ≢ v }
{
    for j in 0..i {
        let used = takes(own, to, j, v);
        if used {
            return true;
        }
    }
    false
}

// Whether a renaming that was begun may go on with `v`.
fn can_take(
    window: &[Gate],
    template: &[Gate],
    r: usize,
    own: LineSet,
    touched: LineSet,
    to: Renaming,
    i: u8,
    v: u8,
) -> bool
    requires template { IsTemplate template.now }
    requires turn { r < length template.now }
    requires six { length to ≡ TEMPLATE_LINES }
    requires room { length window.now ≤ length template.now }
    requires own { own ≡ span (turned r template.now) }
    requires touched { touched ≡ span window.now }
    requires old { i < TEMPLATE_LINES }
    requires new { v < MOST_LINES }
    ensures dropped { IsFalse result → Dropped window.now (turned r template.now) (take i to ++ (v ∷ [])) }
    ensures suits { IsTrue result → Suits window.now (turned r template.now) to i v }
{
    let mine = has(own, i);
    if !mine {
        return is(v, 0);
    }
    let inside = has(touched, v);
    if !inside {
        return false;
    }
    let used = is_used(own, to, i, v);
    if used {
        return false;
    }
    same_roles(window, template, r, i, v)
}

// Whether line `i` is one of `own`, and no line from `v` on is one of `touched`.
fn is_past(own: LineSet, i: u8, touched: LineSet, v: u8) -> bool
    requires old { i < TEMPLATE_LINES }
    requires new { v < MOST_LINES }
    ensures own { IsTrue result → has own i ≡ true }
    ensures past { IsTrue result → (u : ℕ) → v ≤ u → has touched u ≡ false }
{
    let mine = has(own, i);
    mine && touched >> v == 0
}

// The least renaming that begins as `to` does with its first lines. Only the least line that may be taken is gone on
// with: the others are the same to each gate of the window.
fn explore(
    window: &[Gate],
    template: &[Gate],
    r: usize,
    own: LineSet,
    touched: LineSet,
    to: Renaming,
    depth: u8,
) -> Option<Renaming>
    requires template { IsTemplate template.now }
    requires turn { r < length template.now }
    requires six { length to ≡ TEMPLATE_LINES }
    requires lines { (i : ℕ) → i < TEMPLATE_LINES → new_line to i < MOST_LINES }
    requires some { 0 < length window.now }
    requires room { length window.now ≤ length template.now }
    requires own { own ≡ span (turned r template.now) }
    requires touched { touched ≡ span window.now }
    requires depth { depth ≤ TEMPLATE_LINES }
    ensures { result ≡ least (allowed window.now (turned r template.now)) (TEMPLATE_LINES - depth) (take depth to) }
{
    if depth as usize == TEMPLATE_LINES {
        let passes = allowed(window, template, r, own, touched, to);
        if passes {
            return Some(to);
        }
        return None;
    }
    for v in 0..MOST_LINES {
        let past = is_past(own, depth, touched, v);
        if past {
            return None;
        }
        let may = can_take(window, template, r, own, touched, to, depth, v);
        if may {
            let mut next = to;
            next[depth as usize] = v;
            return explore(window, template, r, own, touched, next, depth + 1);
        }
    }
    None
}

// Whether the targets of the window's gates are alike where those of the template's are, and not more lines vary. This
// is only there to be quick.
fn may_match(window: &[Gate], template: &[Gate], r: usize, vary: LineSet) -> bool
    requires template { IsTemplate template.now }
    requires turn { r < length template.now }
    requires some { 0 < length window.now }
    requires room { length window.now ≤ length template.now }
    requires vary { vary ≡ varied window.now (length window.now) }
    ensures { IsFalse result → (to : List ℕ) → allowed window.now (turned r template.now) to ≡ false }
{
    let first = window[0];
    let own = turned_gate(template, r, 0);
    for j in 0..window.len() {
        let gate = turned_gate(template, r, j);
        let fits = alike(window[j], first, gate, own);
        if !fits {
            return false;
        }
    }
    vary.count_ones() <= varied_turned(template, r, window.len()).count_ones()
}

// Whether two gates have one target exactly where two others have.
fn alike(gate: Gate, first: Gate, other: Gate, own: Gate) -> bool
    ensures { result ≡ alike gate first other own }
{
    same(
        is(target_of(gate), target_of(first)),
        is(target_of(other), target_of(own)),
    )
}

/// A window that may be replaced.
#[derive(Clone, Copy, Debug)]
pub struct Found {
    pub count: usize,
    pub template: usize,
    pub turn: usize,
    pub lines: Renaming,
}

impl Model for Found {
    ghost use Rattle.rv_templ.specs.Choices.{Found as Choice};

    ghost Value = { Choice };

    ghost view = { λ f. record { count = f.count; template = f.template; turn = f.turn; lines = f.lines } };

    ghost inverse = { λ c. record { count = c.count; template = c.template; turn = c.turn; lines = c.lines } };
}

impl Found {
    /// How many gates the window has.
    pub fn len(&self) -> usize
        ensures { result ≡ self.now.count }
    {
        self.count
    }
}

// The least renaming by which the window is one of the template that was turned by `r`.
fn renaming(
    window: &[Gate],
    template: &[Gate],
    r: usize,
    own: LineSet,
    touched: LineSet,
    vary: LineSet,
) -> Option<Renaming>
    requires template { IsTemplate template.now }
    requires turn { r < length template.now }
    requires some { 0 < length window.now }
    requires room { length window.now ≤ length template.now }
    requires own { own ≡ span template.now }
    requires touched { touched ≡ span window.now }
    requires vary { vary ≡ varied window.now (length window.now) }
    ensures { result ≡ renaming window.now (turned r template.now) }
{
    let may = may_match(window, template, r, vary);
    if !may {
        return None;
    }
    explore(window, template, r, own, touched, [0; TEMPLATE_LINES], 0)
}

// The window of a template with the least turn and renaming. A template that touches fewer lines than vary in the
// window is passed over at once.
fn at_template(window: &[Gate], templates: &[Vec<Gate>], t: usize, vary: LineSet) -> Option<Found>
    requires templates { AreTemplates (templates_in templates.now) }
    requires some { 0 < length window.now }
    requires few { length window.now ≤ TEMPLATE_GATES }
    requires place { t < length templates.now }
    requires vary { vary ≡ varied window.now (length window.now) }
    ensures { result ≡ at_template window.now (templates_in templates.now) t }
{
    let template = template_of(templates, t);
    let count = window.len();
    if template.len() < count {
        return None;
    }
    if template.len() >= 2 * count {
        return None;
    }
    let own = span(template);
    if own.count_ones() < vary.count_ones() {
        return None;
    }
    let touched = span(window);
    for r in 0..template.len() {
        if let Some(lines) = renaming(window, template, r, own, touched, vary) {
            return Some(Found {
                count,
                template: t,
                turn: r,
                lines,
            });
        }
    }
    None
}

// The window with the least template, turn and renaming.
fn at_count(window: &[Gate], templates: &[Vec<Gate>]) -> Option<Found>
    requires templates { AreTemplates (templates_in templates.now) }
    requires some { 0 < length window.now }
    requires few { length window.now ≤ TEMPLATE_GATES }
    ensures { result
        ≡ first (at_template window.now (templates_in templates.now)) 0 (length (templates_in templates.now)) }
{
    let vary = varied(window);
    for t in 0..templates.len() {
        if let Some(found) = at_template(window, templates, t, vary) {
            return Some(found);
        }
    }
    None
}

/// The window that is taken at the first of these gates.
pub fn find_window(gates: &[Gate], templates: &[Vec<Gate>]) -> Option<Found>
    requires templates { AreTemplates (templates_in templates.now) }
    requires few { length gates.now ≤ TEMPLATE_GATES }
    ensures exact { result ≡ window_at gates.now (templates_in templates.now) }
    ensures window { IfSome result (λ found.
        (n : ℕ) → n ≤ MOST_LINES → AreGates n gates.now
        → IsWindow gates.now (templates_in templates.now) found
        (care_found gates.now (templates_in templates.now) found)
        (want_found gates.now (templates_in templates.now) found)) }
    ensures keeps { IfSome result (λ found.
        (n : ℕ) → n ≤ MOST_LINES → AreGates n gates.now
        → Improves n gates.now (after gates.now (templates_in templates.now) found)) }
    ensures none { IfNone result (NoWindow gates.now (templates_in templates.now)) }
{
    search(gates, templates)
}

// The window that is taken at the first of these gates.
fn search(gates: &[Gate], templates: &[Vec<Gate>]) -> Option<Found>
    requires templates { AreTemplates (templates_in templates.now) }
    requires few { length gates.now ≤ TEMPLATE_GATES }
    ensures { result ≡ window_at gates.now (templates_in templates.now) }
{
    let mut count = gates.len();
    while count > 0 {
        if let Some(found) = at_count(&gates[..count], templates) {
            return Some(found);
        }
        count -= 1;
    }
    None
}
