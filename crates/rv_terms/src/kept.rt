// Sums that are kept whole, and their weights, modulo 8.
ghost use Rattle.std.specs.Prelude.{◌≡◌, ◌+◌, ◌%◌, ◌<◌, List, Bool, IfOk, IsTrue, length, slice_index_or, if◌then◌else◌};
ghost use Rattle.rv_terms.specs.Products.{parity, odd};
ghost use Rattle.rv_terms.specs.Phases.{total_kept};
ghost use Rattle.rv_terms.specs.declared.kept.Kept.{Kept as AKept};

use crate::product::Product;
use crate::sum::Sum;
use std::alloc::{AllocError, Global};

/// A sum that is kept whole, and what it adds where it is 1.
#[derive(Drop)]
pub struct Kept {
    pub sum: Sum,
    pub weight: u8,
}

// The same sums that are kept.
pub(crate) fn copies(alloc: Global, kept: &[Kept]) -> Result<Vec<Kept>, AllocError>
    ensures { IfOk result (λ made. (x v : List Bool) → total_kept made.items x v ≡ total_kept kept.now x v) }
{
    let mut made = Vec::new(alloc);
    for one in kept {
        let sum = one.sum.copy(alloc)?;
        made.push(Kept {
            sum,
            weight: one.weight,
        })?;
    }
    Ok(made)
}

// Whether two sums have the same products.
fn are_same(a: &[Product], b: &[Product]) -> bool
    ensures { IsTrue result → (x v : List Bool) → parity a.now x v ≡ parity b.now x v }
{
    a == b
}

// Adds to the weight of a sum.
fn change(kept: &mut Vec<Kept>, at: usize, weight: u8)
    requires { at < length kept.old.items }
    ensures { (one : AKept) (x v : List Bool)
        → total_kept kept.new.items x v % 8
        ≡ (total_kept kept.old.items x v
        + (if odd (slice_index_or kept.old.items at one).sum x v then weight else 0)) % 8 }
{
    let next = (kept[at].weight % 8 + weight % 8) % 8;
    if next == 0 {
        kept.remove(at);
    } else {
        let one = &mut kept[at];
        one.weight = next;
    }
}

// Adds a sum.
pub(crate) fn add_kept(
    kept: &mut Vec<Kept>,
    products: &[Product],
    weight: u8,
) -> Result<(), AllocError>
    ensures { IfOk result (λ _. (x v : List Bool)
        → total_kept kept.new.items x v % 8
        ≡ (total_kept kept.old.items x v + (if parity products.now x v then weight else 0)) % 8) }
{
    for at in 0..kept.len() {
        if are_same(&kept[at].sum.products, products) {
            change(kept, at, weight);
            return Ok(());
        }
    }
    let products = Vec::from_slice(*kept.allocator(), products)?;
    kept.push(Kept {
        sum: Sum { products },
        weight,
    })?;
    Ok(())
}
