// The characters of a row.
ghost use Rattle.std.specs.Prelude.{◌≡◌, ◌≤◌, ◌<◌, ◌+◌, ◌*◌, ◌^◌, length, if◌then◌else◌};
ghost use Rattle.std.specs.List.{list_all};
ghost use Rattle.rv_blif.specs.Logic.{IsProduct};
ghost use Rattle.rv_blif.specs.Row.{are_literals, is_bit, is_literal, product_of};
ghost use Rattle.rv_blif.specs.declared.product.TheConstants.{MOST_OPERANDS};

use crate::product::Product;

fn is_bit(c: u8) -> bool
    ensures { result ≡ is_bit c }
{
    c == b'0' || c == b'1'
}

fn is_literal(c: u8) -> bool
    ensures { result ≡ is_literal c }
{
    is_bit(c) || c == b'-'
}

fn all_literals(part: &[u8]) -> bool
    ensures { result ≡ list_all is_literal part.now }
{
    part.iter().all(|c| is_literal(*c))
}

// Whether each operand has a literal or none, and then a bit stands.
pub(crate) fn are_literals(row: &[u8]) -> bool
    requires { 1 ≤ length row.now }
    ensures { result ≡ are_literals row.now }
{
    let last = row.len() - 1;
    all_literals(&row[..last]) && is_bit(row[last])
}

// The set, by one place more in front.
fn with_place(set: u16, is_in: bool) -> u16
    requires { set < 2 ^ 15 }
    ensures { result ≡ (if is_in then 1 else 0) + 2 * set }
{
    u16::from(is_in) + 2 * set
}

// The product of the characters of the operands.
pub(crate) fn product_of(part: &[u8]) -> Product
    requires { length part.now ≤ MOST_OPERANDS }
    ensures value { result ≡ product_of part.now }
    ensures valid { IsProduct (length part.now) result }
{
    let mut care = 0;
    let mut want = 0;
    let mut i = part.len();
    while i > 0 {
        i -= 1;
        let c = part[i];
        care = with_place(care, is_bit(c));
        want = with_place(want, c == b'1');
    }
    Product { care, want }
}
