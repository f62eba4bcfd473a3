/// What a check by sums over paths finds.
#[derive(Clone, Copy, Debug, PartialEq, Eq)]
pub enum Finding {
    /// The network denotes the circuit's run, with no phase left free.
    Same,
    /// From the word with this number, some amplitude isn't that of the circuit.
    Differs(u64),
    /// Not found: a sum would have had more than [`MOST_TERMS`](crate::MOST_TERMS) terms.
    Terms,
    /// Not found: there would have been more than [`MOST_STEPS`](crate::MOST_STEPS) steps.
    Steps,
    /// Not found: so many path bits are left at the end; or, by 0, the sum that is left is another one, and no word was
    /// found that shows it.
    Paths(u8),
}
