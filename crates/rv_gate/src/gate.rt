ghost use Rattle.std.specs.Prelude.{◌≡◌, ℕ, ◌+◌, ◌-◌, ◌*◌, ◌/◌, ◌%◌, ◌^◌, ◌<◌, ◌≤◌, ◌↔◌, Bool, List, length, slice_set};
ghost use Rattle.std.specs.Prelude.{IsTrue, IsFalse, ◌∷◌, All, option_to_list};
ghost use Rattle.std.specs.Option.{SomeIff};
ghost use Rattle.rv_gate.specs.Word.{number_of, word_of, bit_of, has};
ghost use Rattle.rv_gate.specs.Gate.{act, run, controls, wanted, targets, touched, touches, is_flip, flip_under};
ghost use Rattle.rv_gate.specs.Gate.{inverse, FitsIn, IsGate, IsFlip};
ghost use Rattle.rv_gate.specs.Commuting.{Commutes, DifferOn, meet, opposed, rule};

use crate::{LineSet, MOST_LINES, Word, has};
use std::marker::Model;

/// What a gate does, and on which lines.
///
/// The lines of `care` are the controls. The wanted value of a control is 1 where it is in `want` too
/// (a positive control), and 0 where it is not (a negative control). The controls hold where each of them
/// has its wanted value. A gate changes no line but those that its kind names.
#[derive(Clone, Copy, Debug, PartialEq, Eq)]
pub enum Shape {
    /// A Toffoli gate: `target` changes where the controls hold. One control makes it a CNOT, none a NOT.
    Flip {
        care: LineSet,
        want: LineSet,
        target: u8,
    },
    /// A Fredkin gate: `a` and `b` are exchanged where the controls hold.
    Swap {
        care: LineSet,
        want: LineSet,
        a: u8,
        b: u8,
    },
    /// A Peres gate: `b` becomes `a` xor `b`, and `c` becomes `c` xor (`a` and `b`), with `b` as it was.
    Peres {
        a: u8,
        b: u8,
        c: u8,
    },
}

// A shape as a gate holds it: fields lie in the order in which they stand here, so that it takes 24 bytes.
#[derive(Clone, Copy, Debug, PartialEq, Eq)]
enum Held {
    Flip {
        target: u8,
        care: LineSet,
        want: LineSet,
    },
    Swap {
        a: u8,
        b: u8,
        care: LineSet,
        want: LineSet,
    },
    Peres {
        a: u8,
        b: u8,
        c: u8,
    },
}

const _: () = prove!(size_of::<Gate>() == 24);

/// A gate: a shape whose lines are below [`MOST_LINES`], whose targets differ from each other and from
/// the controls, and which wants no line that is no control.
#[derive(Clone, Copy, Debug, PartialEq, Eq)]
pub struct Gate {
    held: Held,
}

impl Model for Gate {
    ghost use Rattle.rv_gate.specs.declared.gate.Shape.{Shape as AnyShape};
    ghost use Rattle.rv_gate.specs.Gate.{IsGate};
    ghost use Rattle.rv_gate.specs.inside.GateView.{held_of, shape_of};
    ghost use Rattle.rv_gate.specs.inside.laws.HeldAgain.{held_again};

    ghost Value = { AnyShape };

    ghost view = { λ g. shape_of g.held };

    ghost invariant = { λ g. IsGate (shape_of g.held) };

    ghost inverse = { λ s. record { held = held_of s } };

    ghost inverse_ok = { λ a h i. record { held = held_again a.held i } };
}

impl Gate {
    /// The Toffoli gate.
    ///
    /// `None` where the target is not below [`MOST_LINES`], where it is a control, or where a line is
    /// wanted that is no control.
    pub fn flip(care: LineSet, want: LineSet, target: u8) -> Option<Gate>
        ensures { SomeIff result (IsGate (Shape.Flip care want target)) (Shape.Flip care want target) }
    {
        if target >= MOST_LINES {
            return None;
        }
        if has(care, target) {
            return None;
        }
        if want & care != want {
            return None;
        }
        Some(Gate {
            held: Held::Flip { target, care, want },
        })
    }

    /// The Fredkin gate.
    ///
    /// `None` where a target is not below [`MOST_LINES`], where both are one line, where one is a
    /// control, or where a line is wanted that is no control.
    pub fn swap(care: LineSet, want: LineSet, a: u8, b: u8) -> Option<Gate>
        ensures { SomeIff result (IsGate (Shape.Swap care want a b)) (Shape.Swap care want a b) }
    {
        if a >= MOST_LINES || b >= MOST_LINES || a == b {
            return None;
        }
        if has(care, a) || has(care, b) {
            return None;
        }
        if want & care != want {
            return None;
        }
        Some(Gate {
            held: Held::Swap { a, b, care, want },
        })
    }

    /// The Peres gate.
    ///
    /// `None` where a line is not below [`MOST_LINES`], or where two are one line.
    pub fn peres(a: u8, b: u8, c: u8) -> Option<Gate>
        ensures { SomeIff result (IsGate (Shape.Peres a b c)) (Shape.Peres a b c) }
    {
        if a >= MOST_LINES || b >= MOST_LINES || c >= MOST_LINES {
            return None;
        }
        if a == b || a == c || b == c {
            return None;
        }
        Some(Gate {
            held: Held::Peres { a, b, c },
        })
    }

    // The flip that acts where each line of `care` has the bit 1.
    fn flip_under(care: LineSet, target: u8) -> Gate
        requires below { target < MOST_LINES }
        requires free { IsFalse (has care target) }
        ensures { result ≡ flip_under care target }
    {
        Gate {
            held: Held::Flip {
                target,
                care,
                want: care,
            },
        }
    }

    /// What the gate does.
    pub fn shape(self) -> Shape
        ensures value { result ≡ self }
        ensures valid { IsGate self }
    {
        match self.held {
            Held::Flip { target, care, want } => Shape::Flip { care, want, target },
            Held::Swap { a, b, care, want } => Shape::Swap { care, want, a, b },
            Held::Peres { a, b, c } => Shape::Peres { a, b, c },
        }
    }

    /// For proofs: recalls what every gate keeps. Does nothing when it runs.
    pub fn recall_invariant(self)
        ensures { IsGate self }
    {
        let _ = self.held;
    }

    /// The controls.
    pub fn controls(self) -> LineSet
        ensures { result ≡ controls self }
    {
        match self.shape() {
            Shape::Flip { care, .. } | Shape::Swap { care, .. } => care,
            Shape::Peres { a, .. } => 1 << a,
        }
    }

    /// The controls whose wanted value is 1.
    pub fn wanted(self) -> LineSet
        ensures { result ≡ wanted self }
    {
        match self.shape() {
            Shape::Flip { want, .. } | Shape::Swap { want, .. } => want,
            Shape::Peres { a, .. } => 1 << a,
        }
    }

    /// The lines that the gate changes.
    pub fn targets(self) -> LineSet
        ensures { result ≡ targets self }
    {
        match self.shape() {
            Shape::Flip { target, .. } => 1 << target,
            Shape::Swap { a, b, .. } => 1 << a | 1 << b,
            Shape::Peres { b, c, .. } => 1 << b | 1 << c,
        }
    }

    /// Whether the gate is a Toffoli gate.
    pub fn is_flip(self) -> bool
        ensures { result ≡ is_flip self }
    {
        match self.shape() {
            Shape::Flip { .. } => true,
            Shape::Swap { .. } | Shape::Peres { .. } => false,
        }
    }

    /// The lines that are a control or a target.
    pub fn touched(self) -> LineSet
        ensures set { result ≡ touched self }
        ensures lines { (line : ℕ) → has result line ≡ touches self line }
    {
        self.controls() | self.targets()
    }

    /// Whether the line is a control or a target.
    pub fn touches(self, line: u8) -> bool
        requires { line < MOST_LINES }
        ensures { result ≡ touches self line }
    {
        has(self.touched(), line)
    }

    /// Whether the gate can stand in a circuit of so many lines: all that it touches is below.
    pub fn fits(self, lines: u8) -> bool
        ensures { IsTrue result ↔ FitsIn self lines }
    {
        let touched = self.touched();
        lines >= MOST_LINES || touched >> lines == 0
    }

    /// The word that the gate makes of a word.
    pub fn act(self, word: Word) -> Word
        requires { FitsIn self (length word) }
        ensures { result ≡ act self word }
    {
        match self.shape() {
            Shape::Flip { care, want, target } => word.flipped(care, want, target),
            Shape::Swap { care, want, a, b } => word.swapped(care, want, a, b),
            Shape::Peres { a, b, c } => word.after_peres(a, b, c),
        }
    }

    // Whether a line is a control of both, with opposite wanted values.
    fn opposed(self, other: Gate) -> bool
        ensures { result ≡ opposed self other }
    {
        meet(
            self.controls() & other.controls(),
            self.wanted() ^ other.wanted(),
        )
    }

    // The rule by which two gates commute.
    #[tactic(auto, unfolding(crate::specs::Commuting::rule))]
    fn rule(self, other: Gate) -> bool
        ensures { result ≡ rule self other }
    {
        let flips = self.is_flip() && other.is_flip();
        let (mine, theirs) = if flips {
            (self.controls(), other.controls())
        } else {
            (self.touched(), other.touched())
        };
        self.opposed(other) || !meet(self.targets(), theirs) && !meet(other.targets(), mine)
    }

    /// Whether the gates commute, by a rule on their controls and targets: a line is a control of both
    /// with opposite wanted values, or no target of one is a control of the other, and where one is no
    /// flip, no target of the other either.
    ///
    /// Where the rule holds, both orders make the same of every word. Two flips for which it does not hold
    /// make different ones of some word.
    pub fn commutes(self, other: Gate) -> bool
        ensures rule { result ≡ rule self other }
        ensures agree { IsTrue result → Commutes self other }
        ensures differ { IsFlip self → IsFlip other → IsFalse result → (n : ℕ) → FitsIn self n → FitsIn other n
            → DifferOn n self other }
    {
        self.rule(other)
    }

    /// The gate that undoes this one, and the gate that comes after it where one is not enough.
    ///
    /// A flip and a swap undo themselves. A Peres gate is undone by two flips.
    pub fn inverse(self) -> (Gate, Option<Gate>)
        ensures gates { result.0 ∷ option_to_list result.1 ≡ inverse self }
        ensures undoes { (word : List Bool) → FitsIn self (length word)
            → run (self ∷ result.0 ∷ option_to_list result.1) word ≡ word }
        ensures fit { (lines : ℕ) → FitsIn self lines → All (λ gate. FitsIn gate lines) (inverse self) }
    {
        match self.shape() {
            Shape::Peres { a, b, c } => {
                let first = Gate::flip_under(1 << a, b);
                let second = Gate::flip_under(1 << a | 1 << b, c);
                (first, Some(second))
            }
            Shape::Flip { .. } | Shape::Swap { .. } => (self, None),
        }
    }
}

// Whether a line is in both sets.
fn meet(x: LineSet, y: LineSet) -> bool
    ensures { result ≡ meet x y }
{
    x & y != 0
}
