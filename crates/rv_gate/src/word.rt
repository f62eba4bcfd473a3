ghost use Rattle.std.specs.Prelude.{◌≡◌, ◌≢◌, ◌^◌, ◌<◌, ◌≤◌, ◌↔◌, IsTrue, length, slice_set, if◌then◌else◌};
ghost use Rattle.std.specs.Option.{SomeIff};
ghost use Rattle.rv_gate.specs.Word.{number_of, word_of, word_with, bit_of, ones_of};
ghost use Rattle.rv_gate.specs.Gate.{act, flip, holds, FitsIn, Within};
ghost use Rattle.rv_gate.specs.declared.gate.Shape.TheVariants.{Flip, Swap, Peres};

use crate::LineSet;
use crate::mirror::mirrored;
use std::marker::Model;

/// The most lines that a circuit has, and the most bits that a word has.
pub const MOST_LINES: u8 = 64;

/// A word: one bit for each line, from line 0 on.
///
/// As a number, it has line 0 as its most significant bit: the word `100` has the number 4.
#[derive(Clone, Copy, Debug, PartialEq, Eq)]
pub struct Word {
    len: u8,
    // The lines that have the bit 1: a gate then acts by masks of its own lines.
    ones: LineSet,
}

impl Model for Word {
    ghost use Rattle.std.specs.Prelude.{Bool, List, ◌^◌, ◌<◌, ◌≤◌, length};
    ghost use Rattle.rv_gate.specs.declared.word.TheConstants.{MOST_LINES};
    ghost use Rattle.rv_gate.specs.Word.{ones_of, word_with};
    ghost use Rattle.rv_gate.specs.inside.laws.WordLaws.{length-word_with, ones_of-word_with_small};

    ghost Value = { List Bool };

    ghost view = { λ w. word_with w.len w.ones };

    ghost invariant = { λ w. (w.len ≤ MOST_LINES) × (w.ones < 2 ^ w.len) };

    ghost inverse = { λ w. record { len = length w; ones = ones_of w } };

    ghost inverse_ok = { λ a h i.
        record { len = length-word_with a.len a.ones i; ones = ones_of-word_with_small a.len a.ones h.1 i } };
}

impl Word {
    /// The word of `len` bits that has this number.
    ///
    /// `None` where there are more than [`MOST_LINES`] bits, or the number takes more than `len`.
    pub fn new(len: u8, number: u64) -> Option<Word>
        ensures { SomeIff result ((len ≤ MOST_LINES) × (number < 2 ^ len)) (word_of len number) }
    {
        if !is_within(len, number) {
            return None;
        }
        Some(Word {
            len,
            ones: mirrored(number, len),
        })
    }

    /// The word of `len` bits that has the bit 1 on the lines of a set.
    ///
    /// `None` where there are more than [`MOST_LINES`] bits, or the set has a line that is not below `len`.
    pub fn of_lines(len: u8, ones: LineSet) -> Option<Word>
        ensures { SomeIff result ((len ≤ MOST_LINES) × (ones < 2 ^ len)) (word_with len ones) }
    {
        if !is_within(len, ones) {
            return None;
        }
        Some(Word { len, ones })
    }

    /// How many bits, so lines, there are.
    pub fn len(self) -> u8
        ensures { result ≡ length self }
    {
        self.len
    }

    /// The number of the word.
    pub fn number(self) -> u64
        ensures { result ≡ number_of self }
    {
        mirrored(self.ones, self.len)
    }

    /// The lines that have the bit 1.
    pub fn ones(self) -> LineSet
        ensures { result ≡ ones_of self }
    {
        self.ones
    }

    /// The bit of a line.
    pub fn bit(self, line: u8) -> bool
        requires { line < length self }
        ensures { result ≡ bit_of self line }
    {
        self.ones >> line & 1 == 1
    }

    /// The word that differs in one line at most, which has this bit.
    pub fn with_bit(self, line: u8, bit: bool) -> Word
        requires { line < length self }
        ensures { result ≡ slice_set self line bit }
    {
        let ones = if bit {
            self.ones | 1 << line
        } else {
            self.ones & !(1 << line)
        };
        Word {
            len: self.len,
            ones,
        }
    }

    // Whether each line of `care` has the bit that `want` gives.
    pub(crate) fn holds(self, care: LineSet, want: LineSet) -> bool
        requires { Within care (length self) }
        ensures { result ≡ holds care want self }
    {
        (self.ones ^ want) & care == 0
    }

    // The word with the bit of a line changed, where that is so.
    fn turned(self, on: bool, line: u8) -> Word
        requires { line < length self }
        ensures { result ≡ if on then flip self line else self }
    {
        // No branch: the controls of a random word hold at random.
        Word {
            len: self.len,
            ones: self.ones ^ u64::from(on) << line,
        }
    }

    // The word with the bit of `target` changed, where the controls hold.
    pub(crate) fn flipped(self, care: LineSet, want: LineSet, target: u8) -> Word
        requires { FitsIn (Flip care want target) (length self) }
        ensures { result ≡ act (Flip care want target) self }
    {
        self.turned(self.holds(care, want), target)
    }

    // The word with the bits of `a` and `b` exchanged, where the controls hold.
    pub(crate) fn swapped(self, care: LineSet, want: LineSet, a: u8, b: u8) -> Word
        requires fits { FitsIn (Swap care want a b) (length self) }
        requires apart { a ≢ b }
        ensures { result ≡ act (Swap care want a b) self }
    {
        let on = self.holds(care, want) & (self.bit(a) != self.bit(b));
        self.turned(on, a).turned(on, b)
    }

    // What a Peres gate on `a`, `b` and `c` makes of the word.
    pub(crate) fn after_peres(self, a: u8, b: u8, c: u8) -> Word
        requires fits { FitsIn (Peres a b c) (length self) }
        requires apart { b ≢ c }
        ensures { result ≡ act (Peres a b c) self }
    {
        let x = self.bit(a);
        let both = x && self.bit(b);
        self.turned(x, b).turned(both, c)
    }
}

// Whether bits are at most as many as a word has, and a number or a set has none beyond them.
fn is_within(len: u8, bits: u64) -> bool
    ensures { IsTrue result ↔ ((len ≤ MOST_LINES) × (bits < 2 ^ len)) }
{
    len == MOST_LINES || len < MOST_LINES && bits >> len == 0
}
