/// What a network is to have less of.
#[derive(Clone, Copy, Debug, PartialEq, Eq)]
pub enum Goal {
    /// Operations of any kind.
    Ops,
    /// `T` and its inverse.
    T,
    /// CNOT gates: one for a `Cx` or a `Cz`, three for a `Swap`.
    Cx,
    /// Levels: how many operations wait for one another.
    Depth,
}
