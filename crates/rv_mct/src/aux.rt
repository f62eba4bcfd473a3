/// What the lines hold that help with a gate.
#[derive(Clone, Copy, Debug)]
pub enum Aux {
    /// Anything: they end as they began. Lines that the gate does not touch serve, and at most one line is added.
    Borrowed,
    /// 0: they are added, and end with 0 if they began with it.
    Clean,
}
