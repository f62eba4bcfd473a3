// Sums of products that give the bit of a node.
ghost use Rattle.std.specs.Prelude.{◌≡◌, ℕ, ◌<◌, ◌≤◌, ◌^◌, length, IsTrue, All, IfOk, IfSome, None, Option};
ghost use Rattle.rv_gate.specs.Word.{word_with};
ghost use Rattle.rv_gate.specs.Gate.{holds};
ghost use Rattle.rv_blif.specs.Logic.{any_holds};
ghost use Rattle.rv_blif.specs.declared.product.TheConstants.{MOST_OPERANDS};
ghost use Rattle.rv_compute.specs.inside.Sums.{sum_of, start_value, cover_value, AreWithin, IsSum};

use rv_blif::{MOST_OPERANDS, Node, Product};
use rv_gate::has;
use std::alloc::{AllocError, Global};

// Whether a product holds of the operands of a set.
fn holds_at(product: Product, set: u32, count: u8) -> bool
    requires { product.care < 2 ^ count }
    ensures { result ≡ holds product.care product.want (word_with count set) }
{
    (set ^ u32::from(product.want)) & u32::from(product.care) == 0
}

// Whether one of the products holds.
fn any_holds_at(products: &[Product], set: u32, count: u8) -> bool
    requires { AreWithin count products.now }
    ensures { result ≡ any_holds products.now (word_with count set) }
{
    for product in products {
        if holds_at(*product, set, count) {
            return true;
        }
    }
    false
}

// Whether an odd number of them hold.
fn sum_at(products: &[Product], set: u32, count: u8) -> bool
    requires { AreWithin count products.now }
    ensures { result ≡ sum_of products.now (word_with count set) }
{
    let mut sum = false;
    for product in products {
        sum ^= holds_at(*product, set, count);
    }
    sum
}

// The bit of an operand of a set, or none.
fn start_at(start: Option<u8>, set: u32, count: u8) -> bool
    requires few { count ≤ MOST_OPERANDS }
    requires start { IfSome start (λ operand. operand < count) }
    ensures { result ≡ start_value start (word_with count set) }
{
    match start {
        None => false,
        Some(operand) => has(u64::from(set), operand),
    }
}

/// The products that ask for all operands, one for each set of operands at which a node is 1.
pub(crate) fn words_of(alloc: Global, node: &Node) -> Result<Vec<Product>, AllocError>
    ensures sum { IfOk result (λ products. IsSum node.now None products.items) }
    ensures few { IfOk result (λ products. length products.items ≤ 2 ^ length node.now.operands) }
{
    let count = node.operands().len() as u8;
    let care = ((1u32 << count) - 1) as u16;
    let mut products = Vec::new(alloc);
    for set in 0..1u32 << count {
        if any_holds_at(node.products(), set, count) == node.on() {
            products.push(Product {
                care,
                want: set as u16,
            })?;
        }
    }
    Ok(products)
}

fn are_within(products: &[Product], count: u8) -> bool
    requires { count ≤ MOST_OPERANDS }
    ensures { IsTrue result → AreWithin count products.now }
{
    products
        .iter()
        .all(|product| u32::from(product.care) >> count == 0)
}

fn is_below(start: Option<u8>, count: u8) -> bool
    ensures { IsTrue result → IfSome start (λ operand. operand < count) }
{
    match start {
        None => true,
        Some(operand) => operand < count,
    }
}

/// Whether a node is an operand, or nothing, and a sum of products together.
pub(crate) fn is_sum(node: &Node, start: Option<u8>, products: &[Product]) -> bool
    ensures { IsTrue result → IsSum node.now start products.now }
{
    let count = node.operands().len() as u8;
    if !is_below(start, count)
        || !are_within(products, count)
        || !are_within(node.products(), count)
    {
        return false;
    }
    for set in 0..1u32 << count {
        let value = any_holds_at(node.products(), set, count) == node.on();
        let told = start_at(start, set, count) ^ sum_at(products, set, count);
        if value != told {
            return false;
        }
    }
    true
}
