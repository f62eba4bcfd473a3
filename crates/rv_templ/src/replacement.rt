//! What stands in the place of a window.
ghost use Rattle.std.specs.Prelude.{◌≡◌, ℕ, ◌+◌, ◌-◌, ◌*◌, ◌^◌, ◌<◌, ◌≤◌, Bool, true, false, List, [], ◌∷◌, ◌++◌};
ghost use Rattle.std.specs.Prelude.{length, take, drop, IsTrue, IsFalse, Some, None};
ghost use Rattle.rv_templ.specs.declared.image.TheConstants.{TEMPLATE_GATES, TEMPLATE_LINES};
ghost use Rattle.rv_templ.specs.Gates.{gate_in};
ghost use Rattle.rv_templ.specs.Images.{turned, new_line, allowed, replacement, image_of};
ghost use Rattle.rv_templ.specs.inside.Replaced.{Replaced};
ghost use Rattle.rv_gate.specs.declared.word.TheConstants.{MOST_LINES};
ghost use Rattle.rv_gate.specs.Gate.{IsGate};

use crate::image::{Renaming, difference, renamed, span, target_of, turned_gate};
use rv_gate::{Gate, LineSet, Shape};

// The flip with these controls.
fn flip(care: LineSet, want: LineSet, target: u8) -> Gate
    requires { IsGate (Shape.Flip care want target) }
    ensures { result ≡ Shape.Flip care want target }
{
    match Gate::flip(care, want, target) {
        Some(gate) => gate,
        None => unreachable!(),
    }
}

// The gate `i` of those that stand in the window's place.
fn other(window: &[Gate], template: &[Gate], r: usize, to: Renaming, i: usize) -> Gate
    requires window { Replaced window.now template.now r to }
    requires lines { (i : ℕ) → i < TEMPLATE_LINES → new_line to i < MOST_LINES }
    requires place { i < length template.now - length window.now }
    ensures { result ≡ gate_in (replacement window.now (turned r template.now) to) i }
{
    let own = span(template);
    let taken = renamed(to, own);
    let care = difference(window[0].controls(), taken);
    let want = difference(window[0].wanted(), taken);
    let gate = turned_gate(template, r, template.len() - 1 - i);
    let target = to[target_of(gate) as usize];
    flip(
        renamed(to, gate.controls()) | care,
        renamed(to, gate.wanted()) | want,
        target,
    )
}

// Writes the gates that stand in the window's place, and answers how many they are.
pub fn fill(window: &[Gate], template: &[Gate], r: usize, to: Renaming, room: &mut [Gate]) -> usize
    requires window { Replaced window.now template.now r to }
    requires lines { (i : ℕ) → i < TEMPLATE_LINES → new_line to i < MOST_LINES }
    requires full { TEMPLATE_GATES ≤ length room.old }
    ensures count { result ≡ length (replacement window.now (turned r template.now) to) }
    ensures gates { take result room.new ≡ replacement window.now (turned r template.now) to }
{
    let count = template.len() - window.len();
    for i in 0..count {
        room[i] = other(window, template, r, to, i);
    }
    count
}
