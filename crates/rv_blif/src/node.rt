ghost use Rattle.std.specs.Prelude.{◌≡◌, ◌≤◌, length, All};
ghost use Rattle.rv_blif.specs.Logic.{IsCover, IsProduct};
ghost use Rattle.rv_blif.specs.declared.product.TheConstants.{MOST_OPERANDS};

use crate::product::Product;
use std::marker::Model;

/// A node of a logic network: it is 1 where one of its products holds of its operands, or, where `on` is
/// false, where none does.
///
/// A node without products is 0, or 1 where `on` is false.
#[derive(Drop)]
pub struct Node {
    operands: Vec<u32>,
    products: Vec<Product>,
    on: bool,
}

impl Model for Node {
    ghost use Rattle.rv_blif.specs.Logic.{Node as TheNode, IsCover};

    ghost Value = { TheNode };

    ghost view = { λ n. record { operands = n.operands.items; products = n.products.items; on = n.on } };

    ghost invariant = { λ n. IsCover (record { operands = n.operands.items; products = n.products.items; on = n.on }) };
}

impl Node {
    /// A node. Operands are signals of the network that it is put into.
    pub fn new(operands: Vec<u32>, products: Vec<Product>, on: bool) -> Node
        requires few { length operands.items ≤ MOST_OPERANDS }
        requires products { All (IsProduct (length operands.items)) products.items }
        ensures { result ≡ record { operands = operands.items; products = products.items; on = on } }
    {
        Node {
            operands,
            products,
            on,
        }
    }

    /// The signals on which the node depends.
    pub fn operands(&self) -> &[u32]
        ensures value { result.now ≡ self.now.operands }
        ensures valid { IsCover self.now }
    {
        &self.operands
    }

    /// The products, each over the operands.
    pub fn products(&self) -> &[Product]
        ensures value { result.now ≡ self.now.products }
        ensures valid { IsCover self.now }
    {
        &self.products
    }

    /// Whether the node is 1 where a product holds, and not where none does.
    pub fn on(&self) -> bool
        ensures { result ≡ self.now.on }
    {
        self.on
    }
}
