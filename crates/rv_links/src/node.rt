use std::marker::Model;

/// A place of a gate in a [`Linked`](crate::Linked).
///
/// It keeps to its gate when other gates go or move. Contracts see its number.
#[derive(Clone, Copy, Debug, PartialEq, Eq)]
pub struct NodeId {
    pub(crate) id: u32,
}

impl Model for NodeId {
    ghost use Rattle.std.specs.Prelude.{ℕ};

    ghost Value = { ℕ };

    ghost view = { λ n. n.id };

    ghost inverse = { λ x. record { id = x } };
}
