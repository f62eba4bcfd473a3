/// What of a circuit is to be small.
#[derive(Clone, Copy, Debug, PartialEq, Eq)]
pub enum Goal {
    /// The lines.
    Lines,
    /// The T gates of the network in which large gates are ladders of blocks that are right up to a phase, over lines
    /// that hold 0: a Toffoli gate has 7, and one with n controls 8n - 9.
    T,
    /// The CNOT gates of that network: a Toffoli gate with n controls has 6n - 6.
    Cx,
    /// The quantum cost.
    Quantum,
    /// The gates.
    Gates,
}
