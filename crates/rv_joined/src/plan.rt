use crate::block::Block;
use crate::phase::Phase;
use rv_forms::Term;

/// What is written next.
#[derive(Clone, Copy)]
pub(crate) enum Item {
    /// The next flip, as a block or exactly, and the term that it adds.
    Flip {
        block: Option<Block>,
        claim: Option<u32>,
    },
    Phase(Phase),
}

/// How the flips of a circuit are written. Nothing is promised of it.
#[derive(Drop)]
pub(crate) struct Plan {
    pub(crate) terms: Vec<Term>,
    pub(crate) items: Vec<Item>,
}
