// What is still needed, copied into a diagram of its own, so that nothing else takes room.
ghost use Rattle.std.specs.Prelude.{◌≡◌, ◌<◌, ◌≤◌, List, All, length, IfOk, IfSome, OnOk};
ghost use Rattle.rv_diagram.specs.declared.edge.Node.{Node as AnyNode};
ghost use Rattle.rv_diagram.specs.Diagram.{AreStill, IsEdge, Keeps, value};
ghost use Rattle.rv_diagram.specs.inside.Copies.{AreCopies, IsCopy, upright};

use crate::diagram::Diagram;
use crate::edge::{DiagramFault, Edge};
use std::alloc::Global;

// The copy of a function, if there is one.
fn copied(copies: &[Edge], edge: Edge) -> Option<Edge>
    ensures { IfSome result (λ made. (old new : List AnyNode) → AreCopies old new copies.now → IsCopy old new edge made) }
{
    let place = edge.node as usize;
    if place >= copies.len() {
        return None;
    }
    let made = copies[place];
    if made.node == 0 {
        return None;
    }
    Some(made.turn(edge.turned))
}

// Keeps the copy of a node.
fn put_copy(copies: &mut [Edge], number: u32, made: Edge)
    ensures { (old new : List AnyNode) → AreCopies old new copies.old → IsCopy old new (upright number) made
        → AreCopies old new copies.new }
{
    let place = number as usize;
    if place < copies.len() {
        copies[place] = made;
    }
}

impl Diagram {
    // Copies a function of another diagram.
    fn copy(&mut self, old: &Diagram, copies: &mut [Edge], edge: Edge) -> Result<Edge, DiagramFault>
        requires edge { IsEdge old.now edge }
        requires copies { AreCopies old.now self.old copies.old }
        ensures keeps { Keeps self.old self.new }
        ensures copies { OnOk result (AreCopies old.now self.new copies.new) }
        ensures copy { IfOk result (IsCopy old.now self.new edge) }
    {
        if edge.node == 0 {
            return Ok(edge);
        }
        if let Some(made) = copied(copies, edge) {
            return Ok(made);
        }
        self.count_step()?;
        let node = old.node(edge.node);
        let low = self.copy(old, copies, node.low)?;
        let high = self.copy(old, copies, node.high)?;
        let made = self.branch(node.input, low, high)?;
        put_copy(copies, edge.node, made);
        Ok(made.turn(edge.turned))
    }

    // Copies functions of another diagram.
    fn copy_all(
        &mut self,
        old: &Diagram,
        copies: &mut [Edge],
        edges: &mut [Edge],
    ) -> Result<(), DiagramFault>
        requires edges { All (IsEdge old.now) edges.old }
        requires copies { AreCopies old.now self.old copies.old }
        ensures keeps { Keeps self.old self.new }
        ensures copies { OnOk result (AreCopies old.now self.new copies.new) }
        ensures edges { OnOk result (AreStill old.now self.new edges.old edges.new) }
    {
        for place in 0..edges.len() {
            let made = self.copy(old, copies, edges[place])?;
            edges[place] = made;
        }
        Ok(())
    }

    // Leaves out all nodes to which neither these edges nor those lead.
    fn collect(
        &mut self,
        alloc: Global,
        these: &mut [Edge],
        those: &mut [Edge],
    ) -> Result<(), DiagramFault>
        requires these { All (IsEdge self.old) these.old }
        requires those { All (IsEdge self.old) those.old }
        ensures these { OnOk result (AreStill self.old self.new these.old these.new) }
        ensures those { OnOk result (AreStill self.old self.new those.old those.new) }
    {
        let mut copies = vec![in alloc; Edge::ZERO; self.len().saturating_add(1)]?;
        let mut fresh = self.emptied(alloc)?;
        fresh.copy_all(self, &mut copies, these)?;
        fresh.copy_all(self, &mut copies, those)?;
        fresh.set_full();
        *self = fresh;
        Ok(())
    }

    /// Leaves out the nodes that are not needed for these edges and those, if many nodes stand there.
    pub fn make_room(
        &mut self,
        alloc: Global,
        these: &mut [Edge],
        those: &mut [Edge],
    ) -> Result<(), DiagramFault>
        requires these { All (IsEdge self.old) these.old }
        requires those { All (IsEdge self.old) those.old }
        ensures these { OnOk result (AreStill self.old self.new these.old these.new) }
        ensures those { OnOk result (AreStill self.old self.new those.old those.new) }
    {
        if self.is_full() {
            self.collect(alloc, these, those)?;
        }
        Ok(())
    }
}
