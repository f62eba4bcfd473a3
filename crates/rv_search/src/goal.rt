/// What of a circuit is to be small. It never rises.
#[derive(Clone, Copy, Debug, PartialEq, Eq)]
pub enum Goal {
    /// The quantum cost.
    Quantum,
    /// The T gates, where each gate with more than two controls is replaced over borrowed lines, of which one is added
    /// if a gate lacks it. A Toffoli gate has seven.
    T,
    /// The gates.
    Gates,
}
