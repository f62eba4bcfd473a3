// A term joined into a table: its set into the entries of the words that its cube matches.
ghost use Rattle.std.specs.Prelude.{◌≡◌, ◌+◌, ◌-◌, ◌*◌, ◌/◌, ◌%◌, ◌^◌, ◌<◌, ◌≤◌, ◌==◌, ℕ, length, slice_index};
ghost use Rattle.std.specs.Prelude.{if◌then◌else◌, bit_and, bit_xor};
ghost use Rattle.rv_gate.specs.Word.{word_of};
ghost use Rattle.rv_gate.specs.Gate.{WantsControls};
ghost use Rattle.rv_pla.specs.declared.cube.TheConstants.{MOST_INPUTS};
ghost use Rattle.rv_pla.specs.Cube.{matches};
ghost use Rattle.rv_pla.specs.inside.Table.{joined_sets, agrees_by};

use crate::cube::Cube;
use rv_gate::mirrored_u32;

// The words that differ in so many last inputs stand in one block.
const BLOCK_INPUTS: u8 = 5;

const BLOCK: usize = 1 << BLOCK_INPUTS;

// Joins a set of outputs into the entries of the words that a cube matches.
pub(crate) fn join(table: &mut [u16], inputs: u8, cube: Cube, outs: u16, odd: bool)
    requires some { 1 ≤ inputs }
    requires few { inputs ≤ MOST_INPUTS }
    requires size { length table.old ≡ 2 ^ inputs }
    requires asked { cube.care < 2 ^ inputs }
    requires wanted { WantsControls cube.care cube.want }
    ensures { (x : ℕ) → x < length table.old → slice_index table.new x
        ≡ joined_sets odd (slice_index table.old x) (if matches cube (word_of inputs x) then outs else 0) }
{
    if outs == 0 {
        return;
    }
    let care = mirrored_u32(u32::from(cube.care), inputs);
    let want = mirrored_u32(u32::from(cube.want), inputs);
    let size = 1u32 << inputs.min(BLOCK_INPUTS);
    let mut block = [0; BLOCK];
    fill(&mut block, size, care % size, want % size, outs);
    join_blocks(table, size, care / size, want / size, &block, odd);
}

// Whether a cube matches the word with a number.
pub(crate) fn matches(cube: Cube, inputs: u8, x: u32) -> bool
    requires some { 1 ≤ inputs }
    requires few { inputs ≤ MOST_INPUTS }
    requires wanted { WantsControls cube.care cube.want }
    ensures { result ≡ matches cube (word_of inputs x) }
{
    let care = mirrored_u32(u32::from(cube.care), inputs);
    let want = mirrored_u32(u32::from(cube.want), inputs);
    agrees(x, care, want)
}

// For the words of one block: the set, or nothing where the last inputs don't match.
fn fill(block: &mut [u16], size: u32, care: u32, want: u32, outs: u16)
    requires { size ≤ length block.old }
    ensures { (x : ℕ) → x < size → slice_index block.new x ≡ (if agrees_by x care want then outs else 0) }
{
    for x in 0..size as usize {
        block[x] = if agrees(x as u32, care, want) {
            outs
        } else {
            0
        };
    }
}

// Joins the block into each one whose first inputs match.
fn join_blocks(table: &mut [u16], size: u32, care: u32, want: u32, block: &[u16], odd: bool)
    requires some { 1 ≤ size }
    requires block { size ≤ length block.now }
    requires few { length table.old ≤ 2 ^ MOST_INPUTS }
    requires whole { length table.old % size ≡ 0 }
    ensures { (x : ℕ) → x < length table.old → slice_index table.new x
        ≡ joined_sets odd (slice_index table.old x)
        (if agrees_by (x / size) care want then slice_index block.now (x % size) else 0) }
{
    let size = size as usize;
    let count = table.len() / size;
    let mut first = 0;
    while first < count {
        let wrong = (first as u32 ^ want) & care;
        if wrong == 0 {
            let start = first * size;
            join_block(&mut table[start..start + size], &block[..size], odd);
            first += 1;
        } else {
            first = past(first, wrong.ilog2());
        }
    }
}

// The next number that differs in its bits from a place on.
fn past(number: usize, place: u32) -> usize
    requires number { number ≤ 2 ^ MOST_INPUTS }
    requires place { place < 32 }
    ensures { result ≡ (number / 2 ^ place + 1) * 2 ^ place }
{
    ((number >> place) + 1) << place
}

// Joins each set of the block into the one at its place.
fn join_block(table: &mut [u16], block: &[u16], odd: bool)
    requires { length block.now ≡ length table.old }
    ensures { (x : ℕ) → x < length table.old
        → slice_index table.new x ≡ joined_sets odd (slice_index table.old x) (slice_index block.now x) }
{
    if odd {
        for x in 0..table.len() {
            table[x] ^= block[x];
        }
    } else {
        for x in 0..table.len() {
            table[x] |= block[x];
        }
    }
}

// Whether a number has the bits of `want` at those of `care`.
fn agrees(x: u32, care: u32, want: u32) -> bool
    ensures { result ≡ agrees_by x care want }
{
    (x ^ want) & care == 0
}
