/// A step of a plan: a node is added to a line, in place of the operand `start` that stands there, or of nothing; or it
/// is taken back. Or a signal is copied to a line.
#[derive(Clone, Copy, Debug, PartialEq, Eq)]
pub struct Step {
    /// The node, or what is copied.
    pub signal: u32,
    /// The operand that stands on the line, by its number.
    pub start: Option<u8>,
    /// The line.
    pub line: u8,
    /// Whether the signal is copied.
    pub is_copy: bool,
}

/// Steps, on so many work lines, and their price.
#[derive(Drop)]
pub struct Plan {
    /// The steps, the first one first.
    pub steps: Vec<Step>,
    /// The work lines.
    pub extra: u8,
    /// What the gates cost, about.
    pub price: u64,
}
