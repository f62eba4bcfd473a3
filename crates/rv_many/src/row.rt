ghost use Rattle.std.specs.Prelude.{◌≡◌, ℕ, ◌<◌, ◌&&◌, true, not};
ghost use Rattle.rv_gate.specs.Gate.{same, xor};
ghost use Rattle.rv_gate.specs.Word.{has};
ghost use Rattle.rv_many.specs.Column.{row_bit};
ghost use Rattle.rv_many.specs.declared.row.TheConstants.{PART_WORDS};
ghost use Rattle.rv_many.specs.declared.words.TheConstants.{MOST_WORDS};

use crate::MOST_WORDS;
use rv_gate::has;

/// How many words have their bits in one part of a row.
pub const PART_WORDS: usize = 64;

/// The bits that [`MOST_WORDS`] words have on a line, [`PART_WORDS`] of them in each part.
#[derive(Clone, Copy)]
pub struct Row {
    /// The parts, those of the first words first.
    pub parts: [u64; 4],
}

impl Row {
    /// The bit 1 for each word.
    pub fn ones() -> Row
        ensures { (j : ℕ) → j < MOST_WORDS → row_bit result j ≡ true }
    {
        Row {
            parts: [u64::MAX; 4],
        }
    }

    /// The bit of a word.
    pub fn bit(self, place: usize) -> bool
        requires { place < MOST_WORDS }
        ensures { result ≡ row_bit self place }
    {
        has(self.parts[place / PART_WORDS], (place % PART_WORDS) as u8)
    }

    /// The bits that both rows have.
    pub fn and(self, other: Row) -> Row
        ensures { (j : ℕ) → j < MOST_WORDS → row_bit result j ≡ (row_bit self j && row_bit other j) }
    {
        let [a, b, c, d] = self.parts;
        let [e, f, g, h] = other.parts;
        Row {
            parts: [a & e, b & f, c & g, d & h],
        }
    }

    /// The bits in which the rows differ.
    pub fn xor(self, other: Row) -> Row
        ensures { (j : ℕ) → j < MOST_WORDS → row_bit result j ≡ xor (row_bit self j) (row_bit other j) }
    {
        let [a, b, c, d] = self.parts;
        let [e, f, g, h] = other.parts;
        Row {
            parts: [a ^ e, b ^ f, c ^ g, d ^ h],
        }
    }

    /// The bit 1 for each word whose bit is this one.
    pub fn matching(self, bit: bool) -> Row
        ensures { (j : ℕ) → j < MOST_WORDS → row_bit result j ≡ same (row_bit self j) bit }
    {
        let other = others(bit);
        let [a, b, c, d] = self.parts;
        Row {
            parts: [a ^ other, b ^ other, c ^ other, d ^ other],
        }
    }
}

// The other bit, for each word of a part.
fn others(bit: bool) -> u64
    ensures { (j : ℕ) → j < PART_WORDS → has result j ≡ not bit }
{
    if bit { 0 } else { u64::MAX }
}
