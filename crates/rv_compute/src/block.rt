// The gates that add a sum of products to a line.
ghost use Rattle.std.specs.Prelude.{◌≡◌, ◌+◌, ◌<◌, ◌≤◌, ℕ, length, IfOk, IfSome, IsTrue, is_some};
ghost use Rattle.rv_gate.specs.declared.word.TheConstants.{MOST_LINES};
ghost use Rattle.rv_blif.specs.declared.product.TheConstants.{MOST_OPERANDS};
ghost use Rattle.rv_compute.specs.inside.Blocks.{Adds, AddsMore, AreFew};
ghost use Rattle.rv_compute.specs.inside.Places.{AreBeside, AreThere};

use crate::controls::{Controls, controls_of};
use crate::place::Place;
use rv_blif::{MOST_OPERANDS, Product};
use rv_gate::{Gate, MOST_LINES};
use std::alloc::{AllocError, Global};

// A gate more, which adds a product to a line, if there is one.
fn push_product(
    gates: &mut Vec<Gate>,
    lines: u8,
    places: &[Option<Place>],
    target: u8,
    product: Product,
) -> Result<bool, AllocError>
    requires lines { lines ≤ MOST_LINES }
    requires few { length places.now ≤ MOST_OPERANDS }
    requires target { target < lines }
    requires beside { AreBeside lines target places.now }
    ensures adds { IfOk result (λ done. IsTrue done
        → AddsMore lines places.now target product gates.old.items gates.new.items) }
    ensures done { AreThere places.now → IfOk result (λ done. IsTrue done) }
    ensures few { AreThere places.now → IfOk result (λ _. (count : ℕ) → AreFew lines count gates.old.items
        → AreFew lines (count + 1) gates.new.items) }
{
    match controls_of(lines, product, places) {
        Controls::Missing => Ok(false),
        Controls::Never => Ok(true),
        Controls::Held { care, want } => match Gate::flip(care, want, target) {
            None => Ok(false),
            Some(gate) => {
                gates.push(gate)?;
                Ok(true)
            }
        },
    }
}

/// The gates that add products of operands at these places to a line, if the operands stand there.
pub(crate) fn block_of(
    alloc: Global,
    lines: u8,
    places: &[Option<Place>],
    target: u8,
    products: &[Product],
) -> Result<Option<Vec<Gate>>, AllocError>
    requires lines { lines ≤ MOST_LINES }
    requires few { length places.now ≤ MOST_OPERANDS }
    requires target { target < lines }
    requires beside { AreBeside lines target places.now }
    ensures adds { IfOk result (λ block.
        IfSome block (λ gates. Adds lines places.now target products.now gates.items)) }
    ensures there { AreThere places.now → IfOk result (λ block. IsTrue (is_some block)) }
    ensures few { AreThere places.now
        → IfOk result (λ block. IfSome block (λ gates. AreFew lines (length products.now) gates.items)) }
{
    let mut gates = Vec::new(alloc);
    for product in products {
        if !push_product(&mut gates, lines, places, target, *product)? {
            return Ok(None);
        }
    }
    Ok(Some(gates))
}
