// Forms in which columns stand for forms.
ghost use Rattle.std.specs.Prelude.{◌≡◌, ◌+◌, ◌≤◌, ◌^◌, length, IfOk, IfSome, IsTrue};
ghost use Rattle.rv_forms.specs.inside.Recipes.{IsSubstituted, AreSubstituted, IsNext, Extends};

use crate::form::{Form, constant, sum};
use crate::product::added;
use crate::term::Term;
use std::alloc::{AllocError, Global};

/// How a node is made of its operands: a form over columns of its own, first the operands, then terms over them.
///
/// `numbers` has for each of these terms its number among the terms of the whole network, or a number past them where
/// its factors are constant, opposite or the same.
#[derive(Drop)]
pub struct Recipe {
    pub terms: Vec<Term>,
    pub numbers: Vec<u32>,
    pub form: Form,
}

// A form in which each column is a form.
pub(crate) fn substituted(
    alloc: Global,
    form: &Form,
    meanings: &[Form],
) -> Result<Option<Form>, AllocError>
    ensures { IfOk result (λ o. IfSome o (IsSubstituted meanings.now form.now)) }
{
    let mut whole = constant(alloc, form.constant);
    for column in &form.columns {
        let at = *column as usize;
        if at >= meanings.len() {
            return Ok(None);
        }
        whole = sum(alloc, &whole, &meanings[at])?;
    }
    Ok(Some(whole))
}

// The same of all factors of a product.
fn all_substituted(
    alloc: Global,
    forms: &[Form],
    meanings: &[Form],
) -> Result<Option<Vec<Form>>, AllocError>
    ensures { IfOk result (λ o. IfSome o (λ made. AreSubstituted meanings.now forms.now made.items)) }
{
    let mut made = Vec::new(alloc);
    for form in forms {
        let Some(next) = substituted(alloc, form, meanings)? else {
            return Ok(None);
        };
        made.push(next)?;
    }
    Ok(Some(made))
}

// A term over columns that are forms, as the column of a term that is told.
fn next_meaning(
    alloc: Global,
    terms: &[Term],
    first: usize,
    term: &Term,
    number: u32,
    meanings: &[Form],
) -> Result<Option<Form>, AllocError>
    requires { first + length terms.now ≤ 2 ^ 32 }
    ensures { IfOk result (λ o. IfSome o (IsNext terms.now first meanings.now term.now)) }
{
    let Some(factors) = all_substituted(alloc, &term.factors, meanings)? else {
        return Ok(None);
    };
    let claim = if (number as usize) < terms.len() {
        Some(number)
    } else {
        None
    };
    let next = added(alloc, terms, first, &factors, claim)?;
    Ok(next)
}

/// Adds what the columns of terms over columns that are forms are.
pub(crate) fn extend(
    alloc: Global,
    terms: &[Term],
    first: usize,
    recipe: &Recipe,
    meanings: &mut Vec<Form>,
) -> Result<bool, AllocError>
    requires { first + length terms.now ≤ 2 ^ 32 }
    ensures { IfOk result (λ done.
        IsTrue done → Extends terms.now first meanings.old.items recipe.now.terms.items meanings.new.items) }
{
    for i in 0..recipe.terms.len() {
        if i >= recipe.numbers.len() {
            return Ok(false);
        }
        let number = recipe.numbers[i];
        let Some(next) = next_meaning(alloc, terms, first, &recipe.terms[i], number, meanings)?
        else {
            return Ok(false);
        };
        meanings.push(next)?;
    }
    Ok(true)
}
