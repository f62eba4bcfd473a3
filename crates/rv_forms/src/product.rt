// Products of forms that are the same.
ghost use Rattle.std.specs.Prelude.{◌≡◌, ◌+◌, ◌≤◌, ◌^◌, ◌&&◌, Bool, List, [], ◌∷◌, length, IfOk, IfSome, IsTrue, false, true, slice_index_or};
ghost use Rattle.rv_forms.specs.Forms.{form_value, product_at};
ghost use Rattle.rv_forms.specs.inside.Held.{Ask, AreSameProduct, IsAdded};
ghost use Rattle.rv_forms.specs.declared.form.Form.{Form as AForm};

use crate::form::{Form, are_opposite, column, constant, is_constant, is_same, sum, turned};
use crate::term::Term;
use std::alloc::{AllocError, Global};

// Whether a form is one of these.
fn is_among(form: &Form, forms: &[Form]) -> bool
    ensures { IsTrue result → (bits : List Bool) → product_at bits forms.now ≡ true → form_value bits form.now ≡ true }
{
    for other in forms {
        if is_same(other, form) {
            return true;
        }
    }
    false
}

// Whether each form is one of others.
fn are_among(forms: &[Form], others: &[Form]) -> bool
    ensures { IsTrue result → Ask others.now forms.now }
{
    for form in forms {
        if !is_among(form, others) {
            return false;
        }
    }
    true
}

// Whether the forms are these two.
fn is_pair(forms: &[Form], a: &Form, b: &Form) -> bool
    ensures { IsTrue result → (bits : List Bool)
        → product_at bits forms.now ≡ (form_value bits a.now && form_value bits b.now) }
{
    if forms.len() != 2 {
        return false;
    }
    is_same(&forms[0], a) && is_same(&forms[1], b) || is_same(&forms[0], b) && is_same(&forms[1], a)
}

// Whether two forms are one of A and B, and A + B + 1: for A (A + B + 1) is A B.
fn is_on_plane(alloc: Global, forms: &[Form], a: &Form, b: &Form) -> Result<bool, AllocError>
    ensures { IfOk result (λ same. IsTrue same → (bits : List Bool)
        → product_at bits forms.now ≡ (form_value bits a.now && form_value bits b.now)) }
{
    let both = sum(alloc, a, b)?;
    let third = turned(alloc, &both, true)?;
    Ok(is_pair(forms, a, &third) || is_pair(forms, b, &third))
}

// Whether two products are the same by their factors.
fn is_product(alloc: Global, forms: &[Form], factors: &[Form]) -> Result<bool, AllocError>
    ensures { IfOk result (λ same. IsTrue same → AreSameProduct forms.now factors.now) }
{
    if are_among(forms, factors) && are_among(factors, forms) {
        return Ok(true);
    }
    if factors.len() != 2 {
        return Ok(false);
    }
    let same = is_on_plane(alloc, forms, &factors[0], &factors[1])?;
    Ok(same)
}

// The column of a term, if it is the product of these forms.
fn claimed(
    alloc: Global,
    terms: &[Term],
    first: usize,
    literals: &[Form],
    term: u32,
) -> Result<Option<Form>, AllocError>
    requires { first + length terms.now ≤ 2 ^ 32 }
    ensures { IfOk result (λ o. IfSome o (IsAdded terms.now first literals.now)) }
{
    let j = term as usize;
    if j >= terms.len() {
        return Ok(None);
    }
    if !is_product(alloc, literals, &terms[j].factors)? {
        return Ok(None);
    }
    let form = column(alloc, (first + j) as u32)?;
    Ok(Some(form))
}

// Whether one of these forms is 0, or two of them are opposite.
fn vanishes(forms: &[Form]) -> bool
    ensures { IsTrue result → (bits : List Bool) → product_at bits forms.now ≡ false }
{
    for k in 0..forms.len() {
        if is_constant(&forms[k], false) {
            return true;
        }
        for j in 0..k {
            if are_opposite(&forms[k], &forms[j]) {
                return true;
            }
        }
    }
    false
}

// Whether a form is 1 wherever another one is.
fn is_one_with(form: &Form, other: &Form) -> bool
    ensures { IsTrue result → (bits : List Bool) → form_value bits other.now ≡ true → form_value bits form.now ≡ true }
{
    if is_same(other, form) {
        return true;
    }
    is_constant(form, true)
}

// Whether each of these forms is another one, or 1.
fn are_all(forms: &[Form], other: &Form) -> bool
    ensures { IsTrue result → Ask (other.now ∷ []) forms.now }
{
    for form in forms {
        if !is_one_with(form, other) {
            return false;
        }
    }
    true
}

// The product of forms that are constant, opposite or the same, as a form.
fn plain(alloc: Global, literals: &[Form]) -> Result<Option<Form>, AllocError>
    ensures { IfOk result (λ o. IfSome o (λ form.
        (bits : List Bool) → form_value bits form ≡ product_at bits literals.now)) }
{
    if literals.len() == 0 {
        return Ok(Some(constant(alloc, true)));
    }
    if vanishes(literals) {
        return Ok(Some(constant(alloc, false)));
    }
    for k in 0..literals.len() {
        let literal = &literals[k];
        if are_all(literals, literal) {
            let form = turned(alloc, literal, false)?;
            return Ok(Some(form));
        }
    }
    Ok(None)
}

/// The product of forms as a form: a term that is told, or else what is plain.
pub(crate) fn added(
    alloc: Global,
    terms: &[Term],
    first: usize,
    literals: &[Form],
    claim: Option<u32>,
) -> Result<Option<Form>, AllocError>
    requires { first + length terms.now ≤ 2 ^ 32 }
    ensures { IfOk result (λ o. IfSome o (IsAdded terms.now first literals.now)) }
{
    match claim {
        Some(term) => claimed(alloc, terms, first, literals, term),
        None => plain(alloc, literals),
    }
}
