use rv_price::Goal;

/// How a circuit is looked for: on at most so many lines, what of it is to be small, and how long the search goes on,
/// with a seed.
///
/// Of two circuits on as few lines, that with fewer T gates is taken for [`Goal::Lines`]; [`Goal::Cx`] counts T gates too.
/// The effort counts work and no clock. By an effort of 0 orders of the network's nodes are looked at alone.
#[derive(Clone, Copy, Debug, PartialEq, Eq)]
pub struct ComputeOptions {
    pub lines: u8,
    pub goal: Goal,
    pub effort: u16,
    pub seed: u16,
}
