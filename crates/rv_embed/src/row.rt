// The entries of an input word as sets of outputs.
ghost use Rattle.std.specs.Prelude.{◌≡◌, ◌<◌, ◌≤◌, ◌^◌, bit_or, bit_and, ◌+◌, ◌*◌, if◌then◌else◌, IfOk};
ghost use Rattle.rv_pla.specs.declared.cube.TheConstants.{MOST_OUTPUTS};
ghost use Rattle.rv_embed.specs.Filled.{row};
ghost use Rattle.rv_embed.specs.inside.Rows.{entries_row, rows_of};

use rv_pla::Pla;
use std::alloc::{AllocError, Global};

// The outputs whose entries aren't free, those that are 1, and those that are free. Output 0 is the most
// significant bit.
#[derive(Clone, Copy)]
pub(crate) struct Row {
    pub(crate) care: u32,
    pub(crate) want: u32,
    pub(crate) free: u32,
}

// The bits of a number with one more.
fn more_bits(bits: u32, bit: bool) -> u32
    requires { bits < 2 ^ 16 }
    ensures { result ≡ bits * 2 + (if bit then 1 else 0) }
{
    bits * 2 + u32::from(bit)
}

fn row_of(pla: &Pla, input: u32) -> Row
    requires { input < 2 ^ pla.now.inputs }
    ensures { result ≡ entries_row (row pla.now input) pla.now.outputs }
{
    let mut care = 0;
    let mut want = 0;
    let mut free = 0;
    for output in 0..pla.outputs() {
        let entry = pla.value(input, output);
        care = more_bits(care, !entry.is_dont_care());
        want = more_bits(want, entry.bit());
        free = more_bits(free, entry.is_dont_care());
    }
    Row { care, want, free }
}

// How many input words there are.
pub(crate) fn input_words(pla: &Pla) -> u32
    ensures count { result ≡ 2 ^ pla.now.inputs }
    ensures few { result ≤ 2 ^ 16 }
{
    1u32 << pla.inputs()
}

// The rows of all input words.
pub(crate) fn rows_of(alloc: Global, pla: &Pla) -> Result<Vec<Row>, AllocError>
    ensures { IfOk result (λ v. v.items ≡ rows_of pla.now) }
{
    let mut rows = Vec::new(alloc);
    for input in 0..input_words(pla) {
        rows.push(row_of(pla, input))?;
    }
    Ok(rows)
}

// The row of an input word.
pub(crate) fn row_at(pla: &Pla, rows: &[Row], input: u32) -> Row
    requires rows { rows.now ≡ rows_of pla.now }
    requires within { input < 2 ^ pla.now.inputs }
    ensures value { result ≡ entries_row (row pla.now input) pla.now.outputs }
    ensures care { result.care < 2 ^ pla.now.outputs }
    ensures want { result.want < 2 ^ pla.now.outputs }
    ensures free { result.free < 2 ^ pla.now.outputs }
{
    rows[input as usize]
}

impl Row {
    // The next word that fits, or the first one again.
    pub(crate) fn after(self, word: u32) -> u32
        requires word { word < 2 ^ MOST_OUTPUTS }
        requires care { self.care < 2 ^ MOST_OUTPUTS }
        ensures { result ≡ bit_or (bit_and (bit_or word self.care + 1) self.free) self.want }
    {
        (((word | self.care) + 1) & self.free) | self.want
    }
}
