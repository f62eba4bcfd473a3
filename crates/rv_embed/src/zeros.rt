// The function of a PLA in which a free entry counts as 0, as a table.
ghost use Rattle.std.specs.Prelude.{◌≡◌, ◌<◌, ◌^◌, All, IfOk};
ghost use Rattle.rv_pla.specs.Zeros.{zeros};
ghost use Rattle.rv_embed.specs.inside.Rows.{rows_of};

use super::row::{Row, input_words, row_at};
use rv_pla::Pla;
use std::alloc::{AllocError, Global};

// The number of the output word of each input word.
pub(crate) fn zeros(alloc: Global, pla: &Pla, rows: &[Row]) -> Result<Vec<u32>, AllocError>
    requires { rows.now ≡ rows_of pla.now }
    ensures table { IfOk result (λ v. v.items ≡ zeros pla.now) }
    ensures below { IfOk result (λ v. All (λ y. y < 2 ^ pla.now.outputs) v.items) }
{
    let mut outputs = Vec::new(alloc);
    for input in 0..input_words(pla) {
        let row = row_at(pla, rows, input);
        outputs.push(row.want)?;
    }
    Ok(outputs)
}
