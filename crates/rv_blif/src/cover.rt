ghost use Rattle.std.specs.Prelude.{◌≡◌, ◌≤◌, ◌<◌, length, slice_get, OnOk};
ghost use Rattle.std.specs.Option.{option_copied};
ghost use Rattle.rv_blif.specs.Logic.{IsCover, IsProduct};
ghost use Rattle.rv_blif.specs.declared.product.TheConstants.{MOST_OPERANDS};
ghost use Rattle.rv_blif.specs.Given.{empty_cover, with_row};

use crate::product::Product;
use std::alloc::{AllocError, Global};
use std::marker::Model;

/// A `.names` with its rows, on a line: it drives a name. Its operands are names.
#[derive(Drop)]
pub struct Cover {
    line: u32,
    operands: Vec<usize>,
    products: Vec<Product>,
    on: bool,
    name: usize,
}

impl Model for Cover {
    ghost use Rattle.rv_blif.specs.Logic.{IsCover};
    ghost use Rattle.rv_blif.specs.Netlist.{Cover as TheCover};

    ghost Value = { TheCover };

    ghost view = { λ c. record {
      line = c.line;
      node = record { operands = c.operands.items; products = c.products.items; on = c.on };
      name = c.name;
    } };

    ghost invariant = { λ c. IsCover (record { operands = c.operands.items; products = c.products.items; on = c.on }) };
}

impl Cover {
    // A cover without rows.
    pub(crate) fn new(alloc: Global, line: u32, operands: Vec<usize>, name: usize) -> Cover
        requires { length operands.items ≤ MOST_OPERANDS }
        ensures { result ≡ empty_cover line operands.items name }
    {
        Cover {
            line,
            operands,
            products: Vec::new(alloc),
            on: true,
            name,
        }
    }

    // Adds a row.
    pub(crate) fn push(&mut self, product: Product, on: bool) -> Result<(), AllocError>
        requires { IsProduct (length self.old.node.operands) product }
        ensures { OnOk result (self.new ≡ with_row self.old product on) }
    {
        self.products.push(product)?;
        self.on = on;
        Ok(())
    }

    pub(crate) fn line(&self) -> u32
        ensures { result ≡ self.now.line }
    {
        self.line
    }

    pub(crate) fn name(&self) -> usize
        ensures { result ≡ self.now.name }
    {
        self.name
    }

    pub(crate) fn operands(&self) -> &[usize]
        ensures value { result.now ≡ self.now.node.operands }
        ensures valid { IsCover self.now.node }
    {
        &self.operands
    }

    pub(crate) fn products(&self) -> &[Product]
        ensures { result.now ≡ self.now.node.products }
    {
        &self.products
    }

    pub(crate) fn on(&self) -> bool
        ensures { result ≡ self.now.node.on }
    {
        self.on
    }
}

// The cover with a number, where there is one.
pub(crate) fn cover_at(covers: &[Cover], k: usize) -> Option<&Cover>
    ensures { option_copied result ≡ slice_get covers.now k }
{
    if k < covers.len() {
        Some(&covers[k])
    } else {
        None
    }
}
