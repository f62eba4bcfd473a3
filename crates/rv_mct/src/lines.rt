ghost use Rattle.std.specs.Prelude.{◌≡◌, ℕ, ◌<◌, ◌≤◌, ◌&&◌, [], ◌∷◌, nat_lt, slice_index, take, IfSome, IfNone};
ghost use Rattle.rv_gate.specs.Word.{has};
ghost use Rattle.rv_mct.specs.Blocks.{count_lines, count, is_free, rising, controls_of};

use crate::control::Control;
use crate::flips::place;
use arrayvec::ArrayVec;
use rv_gate::{LineSet, MOST_LINES, has};

const LINES: usize = MOST_LINES as usize;

/// How many lines a set has: the number of controls of a gate.
#[tactic(auto, using(crate::proofs::Ones::count_lines_ones))]
pub fn count_lines(care: LineSet) -> u8
    ensures value { result ≡ count_lines care }
    ensures few { result ≤ MOST_LINES }
{
    care.count_ones() as u8
}

// The lowest line of a set, and the set of the others.
fn first_line(lines: LineSet) -> Option<(u8, LineSet)>
    ensures some { IfSome result (λ first. rising (has lines) MOST_LINES ≡ first.0 ∷ rising (has first.1) MOST_LINES) }
    ensures none { IfNone result (rising (has lines) MOST_LINES ≡ []) }
    ensures below { IfSome result (λ first. first.0 < MOST_LINES) }
    ensures fewer { IfSome result (λ first. first.1 < lines) }
{
    if lines == 0 {
        return None;
    }
    let line = lines.trailing_zeros();
    Some((line as u8, lines & !(1 << line)))
}

/// The first control of a flip, and the lines of the others.
pub fn first_control(care: LineSet, want: LineSet) -> Option<(Control, LineSet)>
    ensures some { IfSome result (λ first. controls_of care want ≡ first.0 ∷ controls_of first.1 want) }
    ensures none { IfNone result (controls_of care want ≡ []) }
    ensures fewer { IfSome result (λ first. first.1 < care) }
{
    match first_line(care) {
        Some((line, others)) => {
            let wanted = has(want, line);
            Some((Control { line, wanted }, others))
        }
        None => None,
    }
}

/// The controls of a flip, in ascending order.
pub fn controls_of(care: LineSet, want: LineSet) -> ArrayVec<Control, LINES>
    ensures { result.items ≡ controls_of care want }
{
    let mut controls = ArrayVec::new();
    let mut left = care;
    while let Some((control, others)) = first_control(left, want) {
        controls.push(control);
        left = others;
    }
    controls
}

/// The lines below a number that are neither a control nor the target.
fn free_set(care: LineSet, target: u8, lines: u8) -> LineSet
    requires few { lines ≤ MOST_LINES }
    requires target { target < MOST_LINES }
    ensures { (line : ℕ) → has result line ≡ (nat_lt line lines && is_free care target line) }
{
    let free = !(care | place(target));
    if lines == MOST_LINES {
        return free;
    }
    free % place(lines)
}

/// How many lines are free.
pub fn free_count(care: LineSet, target: u8, lines: u8) -> u8
    requires few { lines ≤ MOST_LINES }
    requires target { target < MOST_LINES }
    ensures value { result ≡ count (is_free care target) lines }
    ensures few { result ≤ lines }
{
    count_lines(free_set(care, target, lines))
}

/// The least free line.
pub fn first_free(care: LineSet, target: u8, lines: u8) -> u8
    requires few { lines ≤ MOST_LINES }
    requires target { target < MOST_LINES }
    requires some { 1 ≤ count (is_free care target) lines }
    ensures { result ≡ slice_index (rising (is_free care target) lines) 0 }
{
    match first_line(free_set(care, target, lines)) {
        Some((line, _)) => line,
        None => unreachable!(),
    }
}

/// The least so many free lines, in ascending order.
pub fn free_lines(care: LineSet, target: u8, lines: u8, wanted: usize) -> ArrayVec<u8, LINES>
    requires few { lines ≤ MOST_LINES }
    requires target { target < MOST_LINES }
    ensures { result.items ≡ take wanted (rising (is_free care target) lines) }
{
    let mut free = ArrayVec::new();
    let mut left = free_set(care, target, lines);
    while free.len() < wanted {
        match first_line(left) {
            Some((line, others)) => {
                free.push(line);
                left = others;
            }
            None => return free,
        }
    }
    free
}
