/// What all lines of a text gave.
#[derive(Drop)]
pub struct Whole<S> {
    /// The state after the last line.
    pub state: S,
    /// How many lines the text has.
    pub lines: u32,
}
