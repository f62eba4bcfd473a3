/// A node that passes on an operand, or nothing, changed or not.
#[derive(Clone, Copy, Debug, PartialEq, Eq)]
pub struct Pass {
    /// The operand, by its number; none if the node is constant.
    pub operand: Option<u8>,
    /// Whether the other bit is passed on.
    pub changed: bool,
}
