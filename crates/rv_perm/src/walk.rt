// What a flip makes of a table and its inverse, where only the words that it changes are visited.
ghost use Rattle.std.specs.Prelude.{◌≡◌, ◌≢◌, ◌+◌, ◌-◌, ◌^◌, ◌<◌, ◌≤◌, ℕ, length, map, slice_index, slice_set};
ghost use Rattle.std.specs.Int.{bit_at};
ghost use Rattle.rv_gate.specs.Gate.{act_on_number, FitsIn, IsFlip};
ghost use Rattle.rv_perm.specs.Perm.{IsPerm, reindexed};
ghost use Rattle.rv_perm.specs.inside.Places.{AreInverse};
ghost use Rattle.rv_perm.specs.inside.Walk.{counterpart};

use super::perm::MOST_PERM_LINES;
use rv_gate::{Gate, Shape, mirrored_u32};

// Exchanges what stands at each two places that the flip exchanges.
pub(crate) fn exchange(table: &mut [u32], inverse: &mut [u32], gate: Gate, lines: u8)
    requires is_flip { IsFlip gate }
    requires fits { FitsIn gate lines }
    requires permutes { IsPerm lines table.old }
    requires inverse { AreInverse table.old inverse.old }
    ensures table { table.new ≡ reindexed (act_on_number gate lines) table.old }
    ensures inverse { inverse.new ≡ map (act_on_number gate lines) inverse.old }
{
    match gate.shape() {
        Shape::Flip { care, want, target } => {
            let care = mirrored_u32(care as u32, lines);
            let negative = care ^ mirrored_u32(want as u32, lines);
            exchange_pairs(table, inverse, lines, care, negative, lines - 1 - target);
        }
        Shape::Swap { .. } | Shape::Peres { .. } => unreachable!(),
    }
}

// Exchanges what stands at each two places that hold the controls and differ in bit `k`.
fn exchange_pairs(
    table: &mut [u32],
    inverse: &mut [u32],
    lines: u8,
    care: u32,
    negative: u32,
    k: u8,
)
    requires few { lines ≤ MOST_PERM_LINES }
    requires size { length table.old ≡ 2 ^ lines }
    requires k_in { k < lines }
    requires care_in { care < 2 ^ lines }
    requires negative_in { negative < 2 ^ lines }
    requires free { bit_at care k ≡ 0 }
    requires inverse { AreInverse table.old inverse.old }
    ensures table { (v : ℕ) → v < 2 ^ lines
        → slice_index table.new v ≡ slice_index table.old (counterpart care negative (2 ^ k) v) }
    ensures inverse { AreInverse table.new inverse.new }
{
    let end = 1u32 << lines;
    let place = 1u32 << k;
    let mask = care | place;
    let mut upper = mask;
    while upper < end {
        let a = (upper ^ negative) as usize;
        let b = (upper ^ place ^ negative) as usize;
        exchange_places(table, inverse, a, b);
        // The next number that has all bits of the mask.
        upper = (upper + 1) | mask;
    }
}

// Exchanges what stands at two places.
fn exchange_places(table: &mut [u32], inverse: &mut [u32], a: usize, b: usize)
    requires a_in { a < length table.old }
    requires b_in { b < length table.old }
    requires few { length table.old ≤ 2 ^ MOST_PERM_LINES }
    requires apart { a ≢ b }
    requires inverse { AreInverse table.old inverse.old }
    ensures table { table.new
        ≡ slice_set (slice_set table.old a (slice_index table.old b)) b (slice_index table.old a) }
    ensures inverse { AreInverse table.new inverse.new }
{
    let (first, second) = (table[a], table[b]);
    table[a] = second;
    table[b] = first;
    inverse[second as usize] = a as u32;
    inverse[first as usize] = b as u32;
}
