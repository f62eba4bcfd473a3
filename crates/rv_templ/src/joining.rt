//! What two gates come to that stand side by side.
ghost use Rattle.std.specs.Prelude.{◌≡◌, ℕ, ◌^◌, ◌<◌, ◌≤◌, List, IsTrue, IsFalse, Some, None, IfSome, not, ◌&&◌, ◌||◌, ◌==◌};
ghost use Rattle.rv_gate.specs.declared.word.TheConstants.{MOST_LINES};
ghost use Rattle.rv_gate.specs.Word.{has};
ghost use Rattle.rv_gate.specs.Gate.{IsGate, xor};
ghost use Rattle.rv_templ.specs.Pairs.{lone, with_line, paired};
ghost use Rattle.rv_templ.specs.inside.Joins.{option_of};

use rv_gate::{Gate, LineSet, MOST_LINES, Shape, has};

/// What two gates come to.
#[derive(Clone, Copy)]
pub enum Joined {
    /// They are no pair.
    Apart,
    /// Both go.
    Both,
    /// This flip stands for both.
    One(Gate),
}

// The only line of the set.
#[tactic(auto, unfolding(crate::specs::Pairs::lone))]
fn lone(set: LineSet) -> Option<u8>
    ensures is { result ≡ lone set MOST_LINES }
    ensures below { IfSome result (λ line. line < MOST_LINES) }
{
    if set.count_ones() != 1 {
        return None;
    }
    let mut line = MOST_LINES;
    while line > 0 {
        line -= 1;
        if set == 1 << line {
            return Some(line);
        }
    }
    None
}

// The set with the line in it or not.
#[tactic(auto, unfolding(crate::specs::Pairs::with_line))]
fn with_line(set: LineSet, line: u8, on: bool) -> LineSet
    requires { line < MOST_LINES }
    ensures { result ≡ with_line set line on }
{
    let there = has(set, line);
    if on {
        set | 1 << line
    } else if there {
        set ^ 1 << line
    } else {
        set
    }
}

fn differ(a: bool, b: bool) -> bool
    ensures { result ≡ xor a b }
{
    a != b
}

fn wanted(control: bool, first: bool, second: bool) -> bool
    ensures { result ≡ (control && not (first || second)) }
{
    control && !(first || second)
}

fn same_controls(care: LineSet, want: LineSet, care2: LineSet, want2: LineSet) -> bool
    ensures { result ≡ ((care == care2) && (want == want2)) }
{
    care == care2 && want == want2
}

fn same_ends(a: u8, b: u8, a2: u8, b2: u8) -> bool
    ensures { result ≡ (((a == a2) && (b == b2)) || ((a == b2) && (b == a2))) }
{
    a == a2 && b == b2 || a == b2 && b == a2
}

/// What two gates come to that stand side by side.
#[inline(always)]
pub fn join(first: Gate, second: Gate) -> Joined
    ensures { option_of result ≡ paired first second }
{
    match first.shape() {
        Shape::Flip { care, want, target } => join_flip(care, want, target, second),
        Shape::Swap { care, want, a, b } => join_swap(care, want, a, b, second),
        Shape::Peres { .. } => Joined::Apart,
    }
}

#[tactic(auto, unfolding(crate::specs::Pairs::paired))]
fn join_swap(care: LineSet, want: LineSet, a: u8, b: u8, second: Gate) -> Joined
    ensures { option_of result ≡ paired (Shape.Swap care want a b) second }
{
    match second.shape() {
        Shape::Flip { .. } => Joined::Apart,
        Shape::Swap {
            care: care2,
            want: want2,
            a: a2,
            b: b2,
        } => {
            let same = same_controls(care, want, care2, want2);
            let ends = same_ends(a, b, a2, b2);
            if same && ends {
                Joined::Both
            } else {
                Joined::Apart
            }
        }
        Shape::Peres { .. } => Joined::Apart,
    }
}

#[inline(always)]
#[tactic(auto, unfolding(crate::specs::Pairs::paired))]
fn join_flip(care: LineSet, want: LineSet, target: u8, second: Gate) -> Joined
    requires { IsGate (Shape.Flip care want target) }
    ensures { option_of result ≡ paired (Shape.Flip care want target) second }
{
    match second.shape() {
        Shape::Flip {
            care: care2,
            want: want2,
            target: target2,
        } => {
            if target != target2 {
                return Joined::Apart;
            }
            join_flips(care, want, care2, want2, target)
        }
        Shape::Swap { .. } => Joined::Apart,
        Shape::Peres { .. } => Joined::Apart,
    }
}

#[inline(always)]
fn join_flips(care: LineSet, want: LineSet, care2: LineSet, want2: LineSet, target: u8) -> Joined
    requires first { IsGate (Shape.Flip care want target) }
    requires second { IsGate (Shape.Flip care2 want2 target) }
    ensures { option_of result ≡ paired (Shape.Flip care want target) (Shape.Flip care2 want2 target) }
{
    let same = same_controls(care, want, care2, want2);
    if same {
        return Joined::Both;
    }
    match lone(care ^ care2 | want ^ want2) {
        None => Joined::Apart,
        Some(line) => {
            let control = differ(has(care, line), has(care2, line));
            let value = wanted(control, has(want, line), has(want2, line));
            let new_care = with_line(care, line, control);
            let new_want = with_line(want, line, value);
            match Gate::flip(new_care, new_want, target) {
                Some(gate) => Joined::One(gate),
                None => unreachable!(),
            }
        }
    }
}

/// Whether the gates are a pair where they stand side by side.
pub fn joins(g: Gate, h: Gate) -> bool
    ensures some { IsTrue result → (m : List Shape) × (paired g h ≡ Some m) }
    ensures none { IsFalse result → paired g h ≡ None }
{
    match join(g, h) {
        Joined::Apart => false,
        Joined::Both => true,
        Joined::One(_) => true,
    }
}
