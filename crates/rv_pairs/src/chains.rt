// Chains of places: for each slot those of the operations that belong there, the latest first.
ghost use Rattle.std.specs.Prelude.{◌≡◌, ◌≢◌, ◌↔◌, ◌+◌, ◌^◌, ◌<◌, ◌≤◌, ◌++◌, ◌∷◌, [], ℕ, Bool, true, All, IfOk, IsTrue};
ghost use Rattle.std.specs.Prelude.{MatchBool, OnOk, Some, length, slice_get, slice_index, slice_set};
ghost use Rattle.rv_gate.specs.declared.word.TheConstants.{MOST_LINES};
ghost use Rattle.rv_net.specs.declared.op.Op.{Op};
ghost use Rattle.rv_pairs.specs.declared.chains.Node.{Node};

use rv_gate::LineSet;
use rv_net::Op;
use std::alloc::{AllocError, Global};

/// A place, and the link to the place before it in its chain: 0 ends the chain, and otherwise it is one more than a
/// number of a node.
#[derive(Clone, Copy)]
pub(crate) struct Node {
    pub(crate) place: u32,
    pub(crate) below: u32,
}

/// The link to the first node of the chain of each slot, and the nodes of all chains.
#[derive(Drop)]
pub(crate) struct Chains {
    pub(crate) heads: Vec<u32>,
    pub(crate) nodes: Vec<Node>,
    ghost known: { All (λ head. head ≤ length nodes.items) heads.items },
    ghost falling: { (at : ℕ) (node : Node) → slice_get nodes.items at ≡ Some node → node.below ≤ at },
}

// Whether an operation stands at the place.
fn is_kept(cells: &[Option<Op>], place: u32) -> bool
    ensures { IsTrue result ↔ ((op : Op) × (slice_get cells.now place ≡ Some (Some op))) }
{
    match cells.get(place as usize) {
        Some(cell) => cell.is_some(),
        None => false,
    }
}

impl Chains {
    ghost use Rattle.rv_pairs.specs.inside.Chained.{AreChains, AreKept, AreMore, Chain, GivesLatest, IsBound};
    ghost use Rattle.rv_pairs.specs.inside.Chained.{IsPushed, LeadsToOp, TellsFree};

    /// Empty chains, with room for a node for each of so many operations.
    pub(crate) fn new(alloc: Global, count: usize, operations: usize) -> Result<Chains, AllocError>
        ensures empty { IfOk result (λ chains. (belongs : ℕ → Op → Bool) → AreChains belongs [] 0 chains) }
        ensures count { IfOk result (λ chains. length chains.heads.items ≡ count) }
    {
        Ok(Chains {
            heads: vec![in alloc; 0; count]?,
            nodes: Vec::with_capacity(alloc, operations)?,
        })
    }

    // The first link from one on that leads to an operation, past the gaps before it.
    fn past_gaps(&self, cells: &[Option<Op>], link: u32) -> u32
        requires { link ≤ length self.now.nodes.items }
        ensures within { result ≤ length self.now.nodes.items }
        ensures chain { (belongs : Op → Bool) → Chain cells.now self.now.nodes.items belongs link (length cells.now)
            → Chain cells.now self.now.nodes.items belongs result (length cells.now) }
        ensures stands { LeadsToOp cells.now self.now.nodes.items result }
    {
        let mut link = link;
        while link != 0 {
            let node = self.nodes[link as usize - 1];
            if is_kept(cells, node.place) {
                return link;
            }
            link = node.below;
        }
        0
    }

    /// A place after which no operation of a slot stands, if one may stand at all. No operation is looked at.
    pub(crate) fn bound(&self, slot: usize) -> Option<u32>
        requires { slot < length self.now.heads.items }
        ensures { IsBound self.now slot result }
    {
        let link = self.heads[slot];
        if link == 0 {
            None
        } else {
            Some(self.nodes[link as usize - 1].place)
        }
    }

    /// The place after the latest operation of a slot, or 0. Forgets the gaps after it.
    pub(crate) fn latest(&mut self, cells: &[Option<Op>], slot: usize) -> u32
        requires slot { slot < length self.old.heads.items }
        requires few { length cells.now < 2 ^ 32 }
        ensures chains { AreKept cells.now self.old self.new }
        ensures latest { GivesLatest cells.now self.old slot result }
        ensures count { length self.new.heads.items ≡ length self.old.heads.items }
    {
        let link = self.past_gaps(cells, self.heads[slot]);
        self.heads[slot] = link;
        if link == 0 {
            0
        } else {
            self.nodes[link as usize - 1].place + 1
        }
    }

    /// Whether no operation after a place belongs to a slot of a set.
    pub(crate) fn is_free(&mut self, cells: &[Option<Op>], set: LineSet, place: u32) -> bool
        requires count { length self.old.heads.items ≡ MOST_LINES }
        requires few { length cells.now < 2 ^ 32 }
        requires place { place < length cells.now }
        ensures chains { AreKept cells.now self.old self.new }
        ensures free { TellsFree cells.now self.old set place result }
        ensures count { length self.new.heads.items ≡ length self.old.heads.items }
    {
        let mut left = set;
        while left != 0 {
            let line = left.trailing_zeros() as usize;
            if self.latest(cells, line) > place + 1 {
                return false;
            }
            left &= !(1 << line);
        }
        true
    }

    /// Puts a place before the others of a slot.
    pub(crate) fn push(&mut self, slot: usize, place: u32) -> Result<(), AllocError>
        requires { slot < length self.old.heads.items }
        ensures { OnOk result (IsPushed self.old slot place self.new) }
    {
        let Ok(link) = u32::try_from(self.nodes.len() + 1) else {
            return Err(AllocError);
        };
        let below = self.heads[slot];
        self.nodes.push(Node { place, below })?;
        self.heads[slot] = link;
        Ok(())
    }

    /// Puts a place before the others of each slot of a set.
    pub(crate) fn add(&mut self, set: LineSet, place: u32) -> Result<(), AllocError>
        requires { length self.old.heads.items ≡ MOST_LINES }
        ensures chains { OnOk result (AreMore set place self.old self.new) }
        ensures count { OnOk result (length self.new.heads.items ≡ length self.old.heads.items) }
    {
        let mut left = set;
        while left != 0 {
            let line = left.trailing_zeros() as usize;
            self.push(line, place)?;
            left &= !(1 << line);
        }
        Ok(())
    }
}
