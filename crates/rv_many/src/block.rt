// A block: 256 numbers in a row, side by side.
ghost use Rattle.std.specs.Prelude.{ℕ, ◌≡◌, ◌+◌, ◌*◌, ◌<◌};
ghost use Rattle.rv_gate.specs.Word.{has};
ghost use Rattle.rv_gate.specs.declared.word.TheConstants.{MOST_LINES};
ghost use Rattle.rv_many.specs.Column.{row_bit};
ghost use Rattle.rv_many.specs.declared.words.TheConstants.{MOST_WORDS};

use crate::Row;
use rv_gate::has;

// How many of the lowest bits of a number tell its place in a block.
const PLACE_BITS: u8 = 8;

// For each of those bits, lowest first: the bit that each place has.
const PLACES: [[u64; 4]; PLACE_BITS as usize] = [
    [0xAAAA_AAAA_AAAA_AAAA; 4],
    [0xCCCC_CCCC_CCCC_CCCC; 4],
    [0xF0F0_F0F0_F0F0_F0F0; 4],
    [0xFF00_FF00_FF00_FF00; 4],
    [0xFFFF_0000_FFFF_0000; 4],
    [0xFFFF_FFFF_0000_0000; 4],
    [0, u64::MAX, 0, u64::MAX],
    [0, 0, u64::MAX, u64::MAX],
];

/// The row that has one bit at each place.
pub fn constant_row(bit: bool) -> Row
    ensures { (j : ℕ) → j < MOST_WORDS → row_bit result j ≡ bit }
{
    Row::ones().matching(bit)
}

/// The row that has a bit of each number of a block.
pub fn number_row(block: u32, bit: u8) -> Row
    requires { bit < MOST_LINES }
    ensures { (j : ℕ) → j < MOST_WORDS → row_bit result j ≡ has (MOST_WORDS * block + j) bit }
{
    if bit < PLACE_BITS {
        Row {
            parts: PLACES[usize::from(bit)],
        }
    } else {
        constant_row(has(u64::from(block), bit - PLACE_BITS))
    }
}
