// Sums and phases that are the same on all paths.
ghost use Rattle.std.specs.Prelude.{◌≡◌, ◌<◌, List, Bool, IfOk, IfSome};
ghost use Rattle.rv_gate.specs.Gate.{same_word};
ghost use Rattle.rv_terms.specs.Products.{odd};
ghost use Rattle.rv_terms.specs.Phases.{power};
ghost use Rattle.rv_ends.specs.Ends.{word_at};

use rv_terms::{Phases, Product, Sum};
use std::alloc::{AllocError, Global};

// The bit of a sum that is 0 or 1.
fn constant_of(sum: &Sum) -> Option<bool>
    ensures { IfSome result (λ bit. (x v : List Bool) → odd sum.now x v ≡ bit) }
{
    let products = sum.products();
    if products.len() == 0 {
        return Some(false);
    }
    if products.len() == 1 && products[0] == Product::ONE {
        return Some(true);
    }
    None
}

// The word at which all paths end.
pub(crate) fn word_of(alloc: Global, sums: &[Sum]) -> Result<Option<Vec<bool>>, AllocError>
    ensures { IfOk result (λ o. IfSome o (λ word. (x v : List Bool) → word_at sums.now x v ≡ word.items)) }
{
    let mut word = Vec::new(alloc);
    for sum in sums {
        let Some(bit) = constant_of(sum) else {
            return Ok(None);
        };
        word.push(bit)?;
    }
    Ok(Some(word))
}

// Whether two words are the same.
pub(crate) fn are_same(a: &[bool], b: &[bool]) -> bool
    ensures { result ≡ same_word a.now b.now }
{
    if a.len() != b.len() {
        return false;
    }
    for i in 0..a.len() {
        if a[i] != b[i] {
            return false;
        }
    }
    true
}

// The phase of all paths.
pub(crate) fn turns_of(alloc: Global, phases: &Phases) -> Result<Option<u8>, AllocError>
    ensures { IfOk result (λ o. IfSome o (λ turns. (turns < 8) × ((x v : List Bool) → power phases.now x v ≡ turns))) }
{
    for turns in 0..8u8 {
        let mut rest = phases.copy(alloc)?;
        rest.add(Product::ONE, 8 - turns)?;
        if rest.is_nothing() {
            return Ok(Some(turns));
        }
    }
    Ok(None)
}
