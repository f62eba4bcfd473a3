// A node on many words at once.
ghost use Rattle.std.specs.Prelude.{◌≡◌, ℕ, ◌<◌, ◌≤◌, ◌+◌, length, All, not, false};
ghost use Rattle.rv_gate.specs.Gate.{holds, same, Within};
ghost use Rattle.rv_gate.specs.Word.{has};
ghost use Rattle.rv_many.specs.Column.{column, row_bit};
ghost use Rattle.rv_many.specs.declared.words.TheConstants.{MOST_WORDS};
ghost use Rattle.rv_blif.specs.Logic.{any_holds, node_value, operand_word, IsNode, IsProduct};
ghost use Rattle.rv_blif.specs.declared.product.TheConstants.{MOST_OPERANDS};

use crate::node::Node;
use crate::product::{MOST_OPERANDS, Product};
use rv_gate::has;
use rv_many::Row;

// The bits of a node, by the rows of the signals before it.
pub(crate) fn node_row(node: &Node, rows: &[Row]) -> Row
    requires { IsNode (length rows.now) node.now }
    ensures { (j : ℕ) → j < MOST_WORDS → row_bit result j ≡ node_value node.now (column rows.now j) }
{
    let mut room = [Row::ones(); MOST_OPERANDS as usize];
    let operands = node.operands();
    let operand_rows = &mut room[..operands.len()];
    for i in 0..operands.len() {
        operand_rows[i] = rows[operands[i] as usize];
    }
    none_holds(node.products(), operand_rows).matching(!node.on())
}

// The words at which no product holds.
fn none_holds(products: &[Product], rows: &[Row]) -> Row
    requires few { length rows.now ≤ MOST_OPERANDS }
    requires products { All (IsProduct (length rows.now)) products.now }
    ensures { (j : ℕ) → j < MOST_WORDS → row_bit result j ≡ not (any_holds products.now (column rows.now j)) }
{
    let mut none = Row::ones();
    for product in products {
        none = none.and(product_row(*product, rows).matching(false));
    }
    none
}

// The words at which a product holds.
fn product_row(product: Product, rows: &[Row]) -> Row
    requires few { length rows.now ≤ MOST_OPERANDS }
    requires product { IsProduct (length rows.now) product }
    ensures { (j : ℕ) → j < MOST_WORDS → row_bit result j ≡ holds product.care product.want (column rows.now j) }
{
    let mut on = Row::ones();
    for i in 0..rows.len() {
        if has(u64::from(product.care), i as u8) {
            on = on.and(rows[i].matching(has(u64::from(product.want), i as u8)));
        }
    }
    on
}
