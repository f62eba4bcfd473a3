/// The most operands that a node has.
pub const MOST_OPERANDS: u8 = 16;

/// A product of literals of a node's operands: a row of its cover.
///
/// Operand `i` has the value 2 ^ `i` in a set. An operand in `care` is asked for: for a 1 where `want` has it
/// too, else for a 0. `want` holds no operand outside `care`.
#[derive(Clone, Copy, Debug, PartialEq, Eq)]
pub struct Product {
    pub care: u16,
    pub want: u16,
}
