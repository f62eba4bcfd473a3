//! Whether a window is one of an image of a template, and may be replaced.
ghost use Rattle.std.specs.Prelude.{◌≡◌, ℕ, ◌+◌, ◌-◌, ◌*◌, ◌^◌, ◌<◌, ◌≤◌, Bool, true, false, not, ◌&&◌, ◌||◌, ◌==◌};
ghost use Rattle.std.specs.Prelude.{List, length, IsTrue, IsFalse};
ghost use Rattle.rv_templ.specs.declared.image.TheConstants.{TEMPLATE_LINES};
ghost use Rattle.rv_gate.specs.declared.word.TheConstants.{MOST_LINES};
ghost use Rattle.rv_gate.specs.Word.{has};
ghost use Rattle.rv_gate.specs.Gate.{controls, wanted, touched, all_below};
ghost use Rattle.rv_links.specs.Nodes.{incidences};
ghost use Rattle.rv_templ.specs.Gates.{gate_in};
ghost use Rattle.rv_templ.specs.Images.{target_of, span, turned, new_line, renamed, difference, image_of, fresh_care};
ghost use Rattle.rv_templ.specs.Images.{fresh_want, distinct, zero_elsewhere, same_gate, fits_window, others, within};
ghost use Rattle.rv_templ.specs.Images.{allowed};
ghost use Rattle.rv_templ.specs.Templates.{IsTemplate};

use crate::image::{
    Renaming, TEMPLATE_LINES, difference, image_lines, image_of, renamed, turned_gate,
};
use rv_gate::{Gate, LineSet, Shape, has};
use rv_links::incidences;

// Whether both are lines of `own` that become one.
fn clash(own: LineSet, to: Renaming, i: usize, j: usize) -> bool
    requires first { i < TEMPLATE_LINES }
    requires second { j < TEMPLATE_LINES }
    ensures { result ≡ (has own i && has own j && (new_line to i == new_line to j)) }
{
    let first = has(own, i as u8);
    let second = has(own, j as u8);
    first && second && to[i] == to[j]
}

fn distinct(own: LineSet, to: Renaming) -> bool
    ensures { result ≡ distinct own to }
{
    for i in 0..TEMPLATE_LINES {
        let apart = apart_below(own, to, i);
        if !apart {
            return false;
        }
    }
    true
}

// Whether line `i` is apart from those before it.
fn apart_below(own: LineSet, to: Renaming, i: usize) -> bool
    requires { i < TEMPLATE_LINES }
    ensures { result ≡ all_below (λ j. not (has own i && has own j && (new_line to i == new_line to j))) i }
{
    for j in 0..i {
        let both = clash(own, to, i, j);
        if both {
            return false;
        }
    }
    true
}

fn plain_at(own: LineSet, to: Renaming, i: usize) -> bool
    requires { i < TEMPLATE_LINES }
    ensures { result ≡ (has own i || (new_line to i == 0)) }
{
    let mine = has(own, i as u8);
    mine || to[i] == 0
}

fn zero_elsewhere(own: LineSet, to: Renaming) -> bool
    ensures { result ≡ zero_elsewhere own to }
{
    for i in 0..TEMPLATE_LINES {
        let fine = plain_at(own, to, i);
        if !fine {
            return false;
        }
    }
    true
}

fn same_flip(
    care: LineSet,
    want: LineSet,
    target: u8,
    care2: LineSet,
    want2: LineSet,
    target2: u8,
) -> bool
    ensures { result ≡ ((care == care2) && (want == want2) && (target == target2)) }
{
    care == care2 && want == want2 && target == target2
}

fn same_gate(gate: Gate, shape: Shape) -> bool
    ensures { result ≡ same_gate gate shape }
{
    match gate.shape() {
        Shape::Flip { care, want, target } => is_flip(care, want, target, shape),
        Shape::Swap { .. } => false,
        Shape::Peres { .. } => false,
    }
}

fn is_flip(care: LineSet, want: LineSet, target: u8, shape: Shape) -> bool
    ensures { result ≡ same_gate (Shape.Flip care want target) shape }
{
    match shape {
        Shape::Flip {
            care: care2,
            want: want2,
            target: target2,
        } => same_flip(care, want, target, care2, want2, target2),
        Shape::Swap { .. } => false,
        Shape::Peres { .. } => false,
    }
}

// Whether the window's gates are the first gates of the image.
fn fits_window(
    window: &[Gate],
    template: &[Gate],
    r: usize,
    to: Renaming,
    care: LineSet,
    want: LineSet,
) -> bool
    requires template { IsTemplate template.now }
    requires turn { r < length template.now }
    requires lines { (i : ℕ) → i < TEMPLATE_LINES → new_line to i < MOST_LINES }
    requires room { length window.now ≤ length template.now }
    ensures { result ≡ fits_window window.now (turned r template.now) to care want }
{
    for j in 0..window.len() {
        let gate = turned_gate(template, r, j);
        let image = image_of(to, care, want, gate);
        let same = same_gate(window[j], image);
        if !same {
            return false;
        }
    }
    true
}

// Whether the image's other gates touch only lines of the set.
fn within(
    count: usize,
    template: &[Gate],
    r: usize,
    to: Renaming,
    care: LineSet,
    want: LineSet,
    set: LineSet,
) -> bool
    requires template { IsTemplate template.now }
    requires turn { r < length template.now }
    requires lines { (i : ℕ) → i < TEMPLATE_LINES → new_line to i < MOST_LINES }
    requires room { count ≤ length template.now }
    ensures { result ≡ within (others count (turned r template.now) to care want) set }
{
    for j in 0..template.len() - count {
        let gate = turned_gate(template, r, count + j);
        let more = difference(image_lines(to, care, want, gate), set);
        if more != 0 {
            return false;
        }
    }
    true
}

// How many lines the image's other gates touch in sum.
fn other_sum(
    count: usize,
    template: &[Gate],
    r: usize,
    to: Renaming,
    care: LineSet,
    want: LineSet,
) -> u64
    requires template { IsTemplate template.now }
    requires turn { r < length template.now }
    requires lines { (i : ℕ) → i < TEMPLATE_LINES → new_line to i < MOST_LINES }
    requires room { count ≤ length template.now }
    ensures { result ≡ incidences (others count (turned r template.now) to care want) }
{
    let mut sum: u64 = 0;
    for j in 0..template.len() - count {
        let gate = turned_gate(template, r, count + j);
        let lines = image_lines(to, care, want, gate).count_ones();
        sum += u64::from(lines);
    }
    sum
}

// Whether the window is one of the template, turned by `r`, and may be replaced.
pub fn allowed(
    window: &[Gate],
    template: &[Gate],
    r: usize,
    own: LineSet,
    touched: LineSet,
    to: Renaming,
) -> bool
    requires template { IsTemplate template.now }
    requires turn { r < length template.now }
    requires lines { (i : ℕ) → i < TEMPLATE_LINES → new_line to i < MOST_LINES }
    requires some { 0 < length window.now }
    requires room { length window.now ≤ length template.now }
    requires own { own ≡ span (turned r template.now) }
    requires touched { touched ≡ span window.now }
    ensures { result ≡ allowed window.now (turned r template.now) to }
{
    let taken = renamed(to, own);
    let care = difference(window[0].controls(), taken);
    let want = difference(window[0].wanted(), taken);
    let fine = zero_elsewhere(own, to);
    if !fine {
        return false;
    }
    let apart = distinct(own, to);
    if !apart {
        return false;
    }
    let matched = fits_window(window, template, r, to, care, want);
    if !matched {
        return false;
    }
    let inside = within(window.len(), template, r, to, care, want, touched);
    if !inside {
        return false;
    }
    let before = incidences(window);
    let after = other_sum(window.len(), template, r, to, care, want);
    after <= before
}
