// Sums of products, modulo 2.
ghost use Rattle.std.specs.Prelude.{◌≡◌, ◌<◌, ◌≤◌, ◌&&◌, List, Bool, true, false, IfOk, IsTrue, IsFalse, length, slice_set};
ghost use Rattle.rv_gate.specs.Word.{bit_of};
ghost use Rattle.rv_gate.specs.Gate.{xor};
ghost use Rattle.rv_gate.specs.declared.word.TheConstants.{MOST_LINES};
ghost use Rattle.rv_terms.specs.Products.{value, parity, odd};
ghost use Rattle.rv_terms.specs.inside.Put.{IsPut};
ghost use Rattle.rv_terms.specs.declared.product.Product.{Product as AProduct};

use crate::fault::SumFault;
use crate::product::Product;
use rv_gate::MOST_LINES;
use std::alloc::{AllocError, Global};

// The most products of a sum, with those that cancel.
const MOST_PRODUCTS: usize = 1 << 18;

/// Products of which an odd number may be 1.
#[derive(Drop)]
pub struct Sum {
    // In rising order, and each once: so a search of them is short, and what is the same looks the same.
    pub(crate) products: Vec<Product>,
}

// Adds products, each times another one.
pub(crate) fn add_scaled(
    made: &mut Vec<Product>,
    scale: Product,
    products: &[Product],
) -> Result<(), AllocError>
    ensures { IfOk result (λ _. (x v : List Bool)
        → parity made.new.items x v ≡ xor (parity made.old.items x v) (value scale x v && parity products.now x v)) }
{
    for product in products {
        made.push(scale.times(*product))?;
    }
    Ok(())
}

// Adds a product at the end, where the last one isn't the same: then both go.
fn toggle(made: &mut Vec<Product>, product: Product) -> Result<(), AllocError>
    ensures { IfOk result (λ _. (x v : List Bool)
        → parity made.new.items x v ≡ xor (parity made.old.items x v) (value product x v)) }
{
    let count = made.len();
    if count > 0 && made[count - 1] == product {
        made.pop();
    } else {
        made.push(product)?;
    }
    Ok(())
}

// The products in their order, without those that stand twice.
pub(crate) fn settled(alloc: Global, mut products: Vec<Product>) -> Result<Sum, AllocError>
    ensures { IfOk result (λ sum. (x v : List Bool) → odd sum x v ≡ parity products.items x v) }
{
    products.sort_unstable();
    let mut made: Vec<Product> = Vec::new(alloc);
    for product in &products {
        toggle(&mut made, *product)?;
    }
    Ok(Sum { products: made })
}

// Adds a product in which a bit is replaced by a sum.
fn add_replaced(
    made: &mut Vec<Product>,
    product: Product,
    bit: Product,
    with: &[Product],
) -> Result<(), AllocError>
    ensures { IfOk result (λ _. (x v y w : List Bool) → IsPut bit with.now x v y w
        → parity made.new.items x v ≡ xor (parity made.old.items x v) (value product y w)) }
{
    if product.meets(bit) {
        add_scaled(made, product.less(bit), with)?;
    } else {
        made.push(product)?;
    }
    Ok(())
}

// Products in which a bit is replaced by a sum.
pub(crate) fn replaced(
    alloc: Global,
    products: &[Product],
    bit: Product,
    with: &[Product],
) -> Result<Sum, SumFault>
    ensures { IfOk result (λ sum. (x v y w : List Bool) → IsPut bit with.now x v y w
        → odd sum x v ≡ parity products.now y w) }
{
    let mut made = Vec::new(alloc);
    for product in products {
        add_replaced(&mut made, *product, bit, with)?;
        if made.len() > MOST_PRODUCTS {
            return Err(SumFault::TooLong);
        }
    }
    let sum = settled(alloc, made)?;
    Ok(sum)
}

// The products that ask for a bit, without it, and those that don't.
pub(crate) fn parted(
    alloc: Global,
    products: &[Product],
    bit: Product,
) -> Result<(Sum, Sum), AllocError>
    ensures { IfOk result (λ r. (with : List AProduct) (x v y w : List Bool) → IsPut bit with x v y w
        → parity products.now y w ≡ xor (odd r.0 x v && parity with x v) (odd r.1 x v)) }
{
    let (mut with, mut rest) = (Vec::new(alloc), Vec::new(alloc));
    for product in products {
        if product.meets(bit) {
            with.push(product.less(bit))?;
        } else {
            rest.push(*product)?;
        }
    }
    let with = settled(alloc, with)?;
    let rest = settled(alloc, rest)?;
    Ok((with, rest))
}

impl Sum {
    /// No product: always 0.
    pub fn new(alloc: Global) -> Sum
        ensures { (x v : List Bool) → odd result x v ≡ false }
    {
        Sum {
            products: Vec::new(alloc),
        }
    }

    /// One product.
    pub fn of(alloc: Global, product: Product) -> Result<Sum, AllocError>
        ensures { IfOk result (λ sum. (x v : List Bool) → odd sum x v ≡ value product x v) }
    {
        let products = Vec::from_slice(alloc, &[product])?;
        Ok(Sum { products })
    }

    /// The same sum.
    pub fn copy(&self, alloc: Global) -> Result<Sum, AllocError>
        ensures { IfOk result (λ sum. (x v : List Bool) → odd sum x v ≡ odd self.now x v) }
    {
        let products = Vec::from_slice(alloc, &self.products)?;
        Ok(Sum { products })
    }

    /// How many products there are.
    pub fn len(&self) -> usize {
        self.products.len()
    }

    /// The products.
    pub fn products(&self) -> &[Product]
        ensures { result.now ≡ self.now.products.items }
    {
        &self.products
    }

    /// Whether a product stands in it.
    pub fn has(&self, product: Product) -> bool {
        self.products.binary_search(&product).is_ok()
    }

    /// Adds a product: where it stands in the sum, it goes.
    pub fn add(&mut self, product: Product) -> Result<(), AllocError>
        ensures { IfOk result (λ _. (x v : List Bool)
            → odd self.new x v ≡ xor (odd self.old x v) (value product x v)) }
    {
        let place = place_of(&self.products, product);
        if place < self.products.len() && self.products[place] == product {
            self.products.remove(place);
        } else {
            self.products.insert(place, product)?;
        }
        Ok(())
    }

    /// The sum of two.
    pub fn plus(&self, alloc: Global, other: &Sum) -> Result<Sum, AllocError>
        ensures { IfOk result (λ sum. (x v : List Bool)
            → odd sum x v ≡ xor (odd self.now x v) (odd other.now x v)) }
    {
        let mut both = Vec::from_slice(alloc, &self.products)?;
        both.extend_from_slice(&other.products)?;
        let sum = settled(alloc, both)?;
        Ok(sum)
    }

    /// The product of two.
    pub fn times(&self, alloc: Global, other: &Sum) -> Result<Sum, SumFault>
        ensures { IfOk result (λ sum. (x v : List Bool)
            → odd sum x v ≡ (odd self.now x v && odd other.now x v)) }
    {
        let mut made = Vec::new(alloc);
        for product in &self.products {
            add_scaled(&mut made, *product, &other.products)?;
            if made.len() > MOST_PRODUCTS {
                return Err(SumFault::TooLong);
            }
        }
        let sum = settled(alloc, made)?;
        Ok(sum)
    }

    /// A product times the sum.
    pub fn scaled(&self, alloc: Global, scale: Product) -> Result<Sum, AllocError>
        ensures { IfOk result (λ sum. (x v : List Bool)
            → odd sum x v ≡ (value scale x v && odd self.now x v)) }
    {
        let mut made = Vec::new(alloc);
        add_scaled(&mut made, scale, &self.products)?;
        let sum = settled(alloc, made)?;
        Ok(sum)
    }

    /// Whether it is a line's bit, and nothing else.
    pub fn is_line(&self, line: u8) -> bool
        requires { line < MOST_LINES }
        ensures { IsTrue result → (x v : List Bool) → odd self.now x v ≡ bit_of x line }
    {
        self.products.len() == 1 && self.products[0] == Product::of_line(line)
    }

    /// Whether a path bit stands in it.
    pub fn has_path(&self, path: u8) -> bool
        requires { path < MOST_LINES }
        ensures { IsFalse result → (x v : List Bool) (bit : Bool)
            → odd self.now x (slice_set v path bit) ≡ odd self.now x v }
    {
        for product in &self.products {
            if product.has_path(path) {
                return true;
            }
        }
        false
    }

    /// The sum in which another sum stands for a line.
    pub fn replaced_line(&self, alloc: Global, line: u8, with: &Sum) -> Result<Sum, SumFault>
        requires { line < MOST_LINES }
        ensures { IfOk result (λ sum. (x v : List Bool) → line < length x
            → odd sum x v ≡ odd self.now (slice_set x line (odd with.now x v)) v) }
    {
        let sum = replaced(
            alloc,
            &self.products,
            Product::of_line(line),
            &with.products,
        )?;
        Ok(sum)
    }

    /// The sum in which another sum stands for a path bit.
    pub fn replaced_path(&self, alloc: Global, path: u8, with: &Sum) -> Result<Sum, SumFault>
        requires { path < MOST_LINES }
        ensures { IfOk result (λ sum. (x v : List Bool) → path < length v
            → odd sum x v ≡ odd self.now x (slice_set v path (odd with.now x v))) }
    {
        let sum = replaced(
            alloc,
            &self.products,
            Product::of_path(path),
            &with.products,
        )?;
        Ok(sum)
    }
}

// The first place at which there is no product before this one.
fn place_of(products: &[Product], product: Product) -> usize
    ensures { result ≤ length products.now }
{
    let (mut low, mut high) = (0, products.len());
    while low < high {
        let middle = low + (high - low) / 2;
        if products[middle] < product {
            low = middle + 1;
        } else {
            high = middle;
        }
    }
    low
}
