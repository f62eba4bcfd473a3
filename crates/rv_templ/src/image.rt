//! Images of gates.
ghost use Rattle.std.specs.Prelude.{◌≡◌, ℕ, ◌+◌, ◌-◌, ◌*◌, ◌^◌, ◌<◌, ◌≤◌, length, count_ones, bit_or};
ghost use Rattle.rv_templ.specs.declared.image.TheConstants.{TEMPLATE_GATES, TEMPLATE_LINES};
ghost use Rattle.rv_gate.specs.Gate.{controls, wanted, touched};
ghost use Rattle.rv_templ.specs.Gates.{gate_in};
ghost use Rattle.rv_gate.specs.declared.word.TheConstants.{MOST_LINES};
ghost use Rattle.rv_gate.specs.Word.{has};
ghost use Rattle.rv_templ.specs.Images.{target_of, span, turned, new_line, renamed, difference, image_of};

use rv_gate::{Gate, LineSet, Shape, has};

/// The most lines of a template.
pub const TEMPLATE_LINES: usize = 6;

/// The lines that the lines of a template become: line `i` becomes the one at `i`. A line that no gate touches has 0.
pub type Renaming = [u8; TEMPLATE_LINES];

/// The most gates of a template.
pub const TEMPLATE_GATES: usize = 32;

/// The lines that gates touch.
pub fn span(gates: &[Gate]) -> LineSet
    ensures { result ≡ span gates.now }
{
    let mut set = 0;
    for j in 0..gates.len() {
        set |= gates[j].touched();
    }
    set
}

/// The gate at place `j` of a list that was turned by `r`.
pub fn turned_gate(gates: &[Gate], r: usize, j: usize) -> Gate
    requires few { length gates.now ≤ TEMPLATE_GATES }
    requires turn { r < length gates.now }
    requires place { j < length gates.now }
    ensures { result ≡ gate_in (turned r gates.now) j }
{
    let place = r + j;
    if place < gates.len() {
        gates[place]
    } else {
        gates[place - gates.len()]
    }
}

/// A set of lines, renamed.
pub fn renamed(to: Renaming, set: LineSet) -> LineSet
    requires { (i : ℕ) → i < TEMPLATE_LINES → new_line to i < MOST_LINES }
    ensures { result ≡ renamed to set }
{
    let mut lines = 0;
    for i in 0..TEMPLATE_LINES {
        let there = has(set, i as u8);
        if there {
            lines |= 1 << to[i];
        }
    }
    lines
}

/// The lines of a set that are not in another.
pub fn difference(a: LineSet, b: LineSet) -> LineSet
    ensures { result ≡ difference a b }
{
    a ^ (a & b)
}

/// The target of a flip, the first target of a swap, and the line `a` of a Peres gate, which is its control: a Peres
/// gate makes no pair and stands in no template.
pub fn target_of(gate: Gate) -> u8
    ensures value { result ≡ target_of gate }
    ensures below { result < MOST_LINES }
{
    match gate.shape() {
        Shape::Flip { target, .. } => target,
        Shape::Swap { a, .. } => a,
        Shape::Peres { a, .. } => a,
    }
}

/// The image of a flip.
pub fn image_of(to: Renaming, care: LineSet, want: LineSet, gate: Gate) -> Shape
    requires lines { (i : ℕ) → i < TEMPLATE_LINES → new_line to i < MOST_LINES }
    requires target { target_of gate < TEMPLATE_LINES }
    ensures { result ≡ image_of to care want gate }
{
    let target = target_of(gate);
    Shape::Flip {
        care: renamed(to, gate.controls()) | care,
        want: renamed(to, gate.wanted()) | want,
        target: to[target as usize],
    }
}

/// The lines that the image of a flip touches.
pub fn image_lines(to: Renaming, care: LineSet, want: LineSet, gate: Gate) -> LineSet
    requires lines { (i : ℕ) → i < TEMPLATE_LINES → new_line to i < MOST_LINES }
    requires target { target_of gate < TEMPLATE_LINES }
    ensures { result ≡ touched (image_of to care want gate) }
{
    let target = to[target_of(gate) as usize];
    renamed(to, gate.controls()) | care | 1 << target
}
