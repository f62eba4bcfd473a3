/// The most inputs that a cube has.
pub const MOST_INPUTS: u8 = 16;

/// The most outputs that a cube has.
pub const MOST_OUTPUTS: u8 = 16;

/// A product of literals, and the outputs that it is a term of.
///
/// An input or output `j` has the value 2 ^ `j` in a set. An input in `care` is asked for: for a 1 where
/// `want` has it too, else for a 0. `want` holds no input outside `care`.
#[derive(Clone, Copy, Debug, PartialEq, Eq)]
pub struct Cube {
    pub care: u16,
    pub want: u16,
    pub outs: u16,
}
