// Exclusive ors of columns.
ghost use Rattle.std.specs.Prelude.{◌≡◌, ℕ, ◌<◌, Bool, List, IfOk, IsTrue, [], ◌∷◌, true, false};
ghost use Rattle.rv_gate.specs.Gate.{xor};
ghost use Rattle.rv_forms.specs.Forms.{form_value, sum_at};
ghost use Rattle.rv_forms.specs.inside.Held.{IsTurned, IsSum, AreSame, IsFormBelow};

use std::alloc::{AllocError, Global};

/// The exclusive or of columns, and of 1 where `constant` is true.
///
/// Columns go by numbers, and stand in their order: first the inputs, then the terms, then what the lines of the outputs
/// hold at the beginning.
#[derive(Drop)]
pub struct Form {
    pub columns: Vec<u32>,
    pub constant: bool,
}

// The columns of just one of two lists.
fn sum_columns(alloc: Global, a: &[u32], b: &[u32]) -> Result<Vec<u32>, AllocError>
    ensures { IfOk result (λ sum.
        (bits : List Bool) → sum_at bits sum.items ≡ xor (sum_at bits a.now) (sum_at bits b.now)) }
{
    let mut sum = Vec::new(alloc);
    let (mut i, mut j) = (0usize, 0usize);
    while i < a.len() && j < b.len() {
        let (one, other) = (a[i], b[j]);
        if one < other {
            sum.push(one)?;
            i += 1;
        } else if other < one {
            sum.push(other)?;
            j += 1;
        } else {
            i += 1;
            j += 1;
        }
    }
    sum.extend_from_slice(&a[i..])?;
    sum.extend_from_slice(&b[j..])?;
    Ok(sum)
}

/// The exclusive or of two forms.
pub fn sum(alloc: Global, a: &Form, b: &Form) -> Result<Form, AllocError>
    ensures { IfOk result (IsSum a.now b.now) }
{
    let columns = sum_columns(alloc, &a.columns, &b.columns)?;
    Ok(Form {
        columns,
        constant: a.constant != b.constant,
    })
}

/// A form, and a constant.
pub fn turned(alloc: Global, form: &Form, turn: bool) -> Result<Form, AllocError>
    ensures { IfOk result (IsTurned form.now turn) }
{
    let columns = Vec::from_slice(alloc, &form.columns)?;
    Ok(Form {
        columns,
        constant: form.constant != turn,
    })
}

/// No column.
pub fn constant(alloc: Global, constant: bool) -> Form
    ensures columns { result.columns.items ≡ [] }
    ensures constant { result.constant ≡ constant }
{
    Form {
        columns: Vec::new(alloc),
        constant,
    }
}

/// One column.
pub fn column(alloc: Global, column: u32) -> Result<Form, AllocError>
    ensures columns { IfOk result (λ form. form.columns.items ≡ column ∷ []) }
    ensures constant { IfOk result (λ form. form.constant ≡ false) }
{
    let columns = Vec::from_slice(alloc, &[column])?;
    Ok(Form {
        columns,
        constant: false,
    })
}

/// Whether two forms have the same columns and constant.
pub fn is_same(a: &Form, b: &Form) -> bool
    ensures { IsTrue result → AreSame a.now b.now }
{
    a.constant == b.constant && a.columns[..] == b.columns[..]
}

/// Whether a form is this constant.
pub fn is_constant(form: &Form, constant: bool) -> bool
    ensures { IsTrue result → (bits : List Bool) → form_value bits form.now ≡ constant }
{
    form.columns.is_empty() && form.constant == constant
}

/// Whether two forms have the same columns, and another constant each.
pub(crate) fn are_opposite(a: &Form, b: &Form) -> bool
    ensures { IsTrue result → (bits : List Bool) → form_value bits a.now ≡ true → form_value bits b.now ≡ false }
{
    a.constant != b.constant && a.columns[..] == b.columns[..]
}

/// Whether all columns are below a number.
pub(crate) fn is_below(form: &Form, count: usize) -> bool
    ensures { IsTrue result → IsFormBelow count form.now }
{
    form.columns.iter().all(|column| (*column as usize) < count)
}
