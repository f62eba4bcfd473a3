ghost use Rattle.std.specs.Prelude.{ℕ, ◌≤◌, List};
ghost use Rattle.rv_links.specs.Nodes.{Node};
ghost use Rattle.rv_links.specs.Seeking.{Reaches, Found};

use crate::NodeId;

/// What a look-up tells of the places from one on that have a gate.
#[derive(Clone, Copy)]
pub enum Sought {
    /// Nothing is known: too many gates have such a hash.
    Unknown,
    /// No place has it.
    Nowhere,
    /// The first place that has it.
    At(NodeId),
}

impl Sought {
    /// What two look-ups tell: the first place of both.
    pub fn sooner(self, other: Sought) -> Sought
        ensures first { (x : ℕ) → Reaches self x → Reaches result x }
        ensures second { (x : ℕ) → Reaches other x → Reaches result x }
        ensures found { (nodes : List Node) (from : ℕ) → Found nodes from self → Found nodes from other
            → Found nodes from result }
    {
        match self {
            Sought::Unknown => self,
            Sought::Nowhere => other,
            Sought::At(one) => match other {
                Sought::Unknown => other,
                Sought::Nowhere => self,
                Sought::At(two) => { if two.id < one.id { other } else { self } }
            },
        }
    }
}
