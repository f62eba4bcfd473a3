ghost use Rattle.std.specs.Prelude.{◌≡◌, ◌≢◌, ℕ, ◌+◌, ◌-◌, ◌*◌, ◌^◌, ◌<◌, ◌≤◌, [], ◌∷◌, ◌++◌, length, drop, suc, ◌↔◌};
ghost use Rattle.std.specs.Prelude.{All, IfSome, IfOk, true, IsTrue, IsFalse};
ghost use Rattle.std.specs.List.{range_with_len};
ghost use Rattle.rv_gate.specs.Word.{has};
ghost use Rattle.rv_gate.specs.Gate.{controls, is_flip, FitsIn, IsGate};
ghost use Rattle.rv_gate.specs.Commuting.{rule};
ghost use Rattle.rv_gate.specs.declared.circuit.TheConstants.{MOST_GATES};
ghost use Rattle.rv_links.specs.Order.{head, lists, next_in, prev_in};
ghost use Rattle.rv_links.specs.Seeking.{Tells};
ghost use Rattle.rv_links.specs.Doubt.{IsBefore};
ghost use Rattle.rv_links.specs.Nodes.{IsLinkage, circuit_of, ids_in, gates_in, live, node_gate, noted, Stays, erased};
ghost use Rattle.rv_links.specs.Nodes.{regated, window_set, incidences, window_gates, window_ids};
ghost use Rattle.rv_links.specs.inside.Chains.{gate_at, finish};

use crate::blocks::Blocks;
use crate::ring::Ring;
use crate::used::{is_free, read_by, used};
use crate::{NodeId, Sought, chains, index};
use rv_gate::{Circuit, Gate, LineSet};
use std::alloc::{AllocError, Global};
use std::marker::Model;

/// A circuit whose gates are linked, each with the next and the previous one.
///
/// Once it is made no call takes memory, but [`to_circuit`](Linked::to_circuit). A gate takes 45 bytes, so the largest
/// circuit 47 MB.
#[derive(Drop)]
pub struct Linked {
    // The names, labels and marks, and no gates.
    frame: Circuit,
    // By the numbers of the nodes.
    gates: Vec<Gate>,
    order: Ring,
    // Each gate reads and changes only lines of these sets.
    read: LineSet,
    changed: LineSet,
    blocks: Blocks,
    // By the numbers of the nodes.
    notes: Vec<u32>,
    // Where gates are found by their hash, and how many were written there since it was made anew.
    slots: Vec<u32>,
    entered: u32,
}

impl Model for Linked {
    ghost use Rattle.std.specs.Prelude.{◌≡◌, length};
    ghost use Rattle.rv_links.specs.Nodes.{Linkage};
    ghost use Rattle.rv_links.specs.inside.Chains.{nodes_of, IsLinked};
    ghost use Rattle.rv_links.specs.inside.Used.{UsesAll};
    ghost use Rattle.rv_links.specs.inside.Index.{IsSearchable};
    ghost use Rattle.rv_links.specs.inside.Blocks.{IsCovered};

    ghost Value = { Linkage };

    ghost view = { λ l. record { frame = l.frame; nodes = nodes_of l.gates.items l.order.ids; notes = l.notes.items } };

    ghost invariant = { λ l.
        IsLinked (length l.frame.names) l.gates.items l.order × UsesAll l.read l.changed l.gates.items
        × (length l.notes.items ≡ length l.gates.items) × IsSearchable l.slots.items l.gates.items l.order.ids
        × IsCovered l.blocks.small.items l.blocks.middle.items l.blocks.large.items l.gates.items l.order.ids };
}

impl Linked {
    /// The circuit's gates, linked in their order, each with the note 0. Fails only for want of memory.
    pub fn from_circuit(alloc: Global, circuit: &Circuit) -> Result<Linked, AllocError>
        ensures circuit { IfOk result (λ l. circuit_of l ≡ circuit.now) }
        ensures ids { IfOk result (λ l. ids_in l.nodes ≡ range_with_len 0 (length circuit.now.gates)) }
        ensures notes { IfOk result (λ l. (id : ℕ) → noted id l.notes ≡ 0) }
    {
        circuit.recall_invariant();
        let mut frame = circuit.copy()?;
        frame.set_gates(Vec::new(alloc));
        let gates = Vec::from_slice(alloc, circuit.gates())?;
        let room = gates.len() as u32;
        let mut order = Ring::new(alloc, room)?;
        chains::thread(&mut order, room);
        let (read, changed) = used(&gates);
        let blocks = Blocks::new(alloc, &gates)?;
        let notes = vec![in alloc; 0u32; gates.len()]?;
        let mut slots = vec![in alloc; 0u32; 2 * gates.len() + 1]?;
        index::renew(&mut slots, &gates, &order);
        let linked = Linked {
            frame,
            gates,
            order,
            read,
            changed,
            blocks,
            notes,
            slots,
            entered: 0,
        };
        Ok(linked)
    }

    /// How many lines there are. Its contract also tells what every linked circuit keeps.
    pub fn line_count(&self) -> u8
        ensures value { result ≡ length self.now.frame.names }
        ensures valid { IsLinkage self.now }
    {
        self.frame.line_count()
    }

    /// For proofs: recalls what every linked circuit keeps. Does nothing when it runs.
    pub fn recall_invariant(&self)
        ensures { IsLinkage self.now }
    {
        self.frame.recall_invariant();
    }

    /// The place of the first gate. `None` exactly where there are no gates.
    pub fn first(&self) -> Option<NodeId>
        ensures { result ≡ head (ids_in self.now.nodes) }
    {
        match self.order.first() {
            Some(id) => Some(NodeId { id }),
            None => None,
        }
    }

    /// Whether a gate stands at the place.
    pub fn is_live(&self, node: NodeId) -> bool
        ensures { result ≡ live node self.now.nodes }
    {
        if node.id as usize >= self.gates.len() {
            return false;
        }
        self.order.contains(node.id)
    }

    /// The gate at the place.
    pub fn gate(&self, node: NodeId) -> Gate
        requires { IsTrue (live node self.now.nodes) }
        ensures { result ≡ node_gate node self.now.nodes }
    {
        self.gates[node.id as usize]
    }

    /// The place of the next gate. `None` exactly at the end.
    pub fn next(&self, node: NodeId) -> Option<NodeId>
        requires { IsTrue (live node self.now.nodes) }
        ensures { result ≡ next_in node (ids_in self.now.nodes) }
    {
        match self.order.next(node.id) {
            Some(id) => Some(NodeId { id }),
            None => None,
        }
    }

    /// The place of the previous gate. `None` exactly at the front.
    pub fn prev(&self, node: NodeId) -> Option<NodeId>
        requires { IsTrue (live node self.now.nodes) }
        ensures { result ≡ prev_in node (ids_in self.now.nodes) }
    {
        match self.order.prev(node.id) {
            Some(id) => Some(NodeId { id }),
            None => None,
        }
    }

    /// The number of the place, which no other gate has.
    pub fn number(&self, node: NodeId) -> u32
        requires { IsTrue (live node self.now.nodes) }
        ensures value { result ≡ node }
        ensures few { result < MOST_GATES }
    {
        let below = (node.id as usize) < self.gates.len();
        prove!(below);
        node.id
    }

    /// No place has a greater number.
    pub fn greatest_number(&self) -> u32
        ensures most { (id : ℕ) → IsTrue (live id self.now.nodes) → id ≤ result }
        ensures few { result ≤ MOST_GATES }
    {
        self.recall_invariant();
        self.order.greatest()
    }

    /// The number that was noted of the gate last. It goes with the place: nothing but [`set_note`](Linked::set_note)
    /// changes it.
    pub fn note(&self, node: NodeId) -> u32
        requires { IsTrue (live node self.now.nodes) }
        ensures { result ≡ noted node self.now.notes }
    {
        self.notes[node.id as usize]
    }

    /// Notes a number of the gate at the place. What it means is the caller's.
    pub fn set_note(&mut self, node: NodeId, note: u32)
        requires { IsTrue (live node self.old.nodes) }
        ensures nodes { self.new.nodes ≡ self.old.nodes }
        ensures frame { self.new.frame ≡ self.old.frame }
        ensures here { noted node self.new.notes ≡ note }
        ensures others { (id : ℕ) → id ≢ node → noted id self.new.notes ≡ noted id self.old.notes }
    {
        self.notes[node.id as usize] = note;
    }

    /// Whether it is known at once that the gate commutes with every gate: it is a flip, no gate so far has read its
    /// target, and none has changed a line that it reads. (A gate that is no flip reads all lines that it touches.) If
    /// not, it may commute all the same.
    pub fn commutes_with_all(&self, gate: Gate) -> bool
        ensures { IsTrue result → (id : ℕ) → IsTrue (live id self.now.nodes)
            → rule gate (node_gate id self.now.nodes) ≡ true }
    {
        is_free(gate, self.read, self.changed)
    }

    /// A later place, such that the gate commutes with all between; `None` where it commutes with all after the place.
    /// Many gates are passed at once, where none of them reads or changes what would matter.
    pub fn next_in_doubt(&self, gate: Gate, node: NodeId) -> Option<NodeId>
        requires { IsTrue (live node self.now.nodes) }
        ensures later { IfSome result (λ b. IsTrue (live b self.now.nodes) × (node < b) × (b < MOST_GATES)) }
        ensures free { (x : ℕ) → IsTrue (live x self.now.nodes) → node < x → IsBefore x result
            → rule gate (node_gate x self.now.nodes) ≡ true }
    {
        match self
            .blocks
            .first_in_doubt(&self.gates, &self.order, gate, node.id + 1)
        {
            Some(id) => Some(NodeId { id }),
            None => None,
        }
    }

    /// The lines that gates have read so far, and so all controls of flips.
    pub fn read_lines(&self) -> LineSet
        ensures { (id line : ℕ) → IsTrue (live id self.now.nodes) → is_flip (node_gate id self.now.nodes) ≡ true
            → has (controls (node_gate id self.now.nodes)) line ≡ true → has result line ≡ true }
    {
        self.read
    }

    /// The first place from a number on that has the gate, looked up by the gate's hash.
    pub fn sought(&self, gate: Gate, from: u32) -> Sought
        ensures { Tells self.now.nodes gate from result }
    {
        index::sought(&self.slots, &self.gates, &self.order, gate, from)
    }

    /// Takes the gate out.
    pub fn erase(&mut self, node: NodeId)
        requires { IsTrue (live node self.old.nodes) }
        ensures list { self.new ≡ record self.old { nodes = erased node self.old.nodes } }
        // Every other gate stays at its place.
        ensures others { (id : ℕ) → id ≢ node → IsTrue (live id self.old.nodes)
            → Stays id self.old.nodes self.new.nodes }
    {
        self.order.remove(node.id);
    }

    /// Gives the place another gate.
    pub fn set_gate(&mut self, node: NodeId, gate: Gate)
        requires live { IsTrue (live node self.old.nodes) }
        requires fits { FitsIn gate (length self.old.frame.names) }
        ensures { self.new ≡ record self.old { nodes = regated node gate self.old.nodes } }
    {
        // Its shape is that of a gate.
        gate.recall_invariant();
        self.read |= read_by(gate);
        self.changed |= gate.targets();
        self.blocks.enter(node.id, gate);
        self.gates[node.id as usize] = gate;
        self.entered = index::keep(
            &mut self.slots,
            self.entered,
            &self.gates,
            &self.order,
            node.id,
        );
    }

    /// The `count` gates from `first` on, or as many as are left there, become these. The first places get one each, in
    /// order, and the other places go.
    ///
    /// False exactly where these are more gates, or touch more lines in sum; nothing changes then.
    pub fn replace_window(&mut self, first: NodeId, count: u32, gates: &[Gate]) -> bool
        requires live { IsTrue (live first self.old.nodes) }
        requires fits { All (λ g. FitsIn g (length self.old.frame.names)) gates.now }
        ensures answer { IsTrue result ↔
            ((length gates.now ≤ length (window_gates first count self.old.nodes))
            × (incidences gates.now ≤ incidences (window_gates first count self.old.nodes))) }
        ensures done { IsTrue result
            → self.new ≡ record self.old { nodes = window_set first count gates.now self.old.nodes } }
        ensures kept { IsFalse result → self.new ≡ self.old }
        // Every gate outside the window stays at its place.
        ensures others { (id : ℕ) → IsTrue (live id self.old.nodes)
            → IsFalse (lists id (window_ids first count self.old.nodes)) → Stays id self.old.nodes self.new.nodes }
    {
        let (len, lines) = self.window_size(first, count);
        if gates.len() > len as usize {
            return false;
        }
        if chains::incidences(gates) > lines {
            return false;
        }
        let mut at = Some(first);
        for i in 0..count {
            at = self.place(at, gates, i);
        }
        true
    }

    /// The circuit with the names, labels and marks of the first one, and the gates that are linked, in their order.
    /// Fails only for want of memory.
    pub fn to_circuit(&self, alloc: Global) -> Result<Circuit, AllocError>
        ensures { IfOk result (λ c. c ≡ circuit_of self.now) }
    {
        self.recall_invariant();
        let mut circuit = self.frame.copy()?;
        let gates = self.gate_list(alloc)?;
        circuit.set_gates(gates);
        Ok(circuit)
    }

    fn gate_list(&self, alloc: Global) -> Result<Vec<Gate>, AllocError>
        ensures { IfOk result (λ gates. gates.items ≡ gates_in self.now.nodes) }
    {
        self.recall_invariant();
        let mut gates = Vec::new(alloc);
        let mut at = self.first();
        while let Some(node) = at {
            let gate = self.gate(node);
            gates.push(gate)?;
            at = self.next(node);
        }
        Ok(gates)
    }

    // Gives a node of a window the gate of this place, or takes it out where there is none. Answers the next node.
    fn place(&mut self, at: Option<NodeId>, gates: &[Gate], i: u32) -> Option<NodeId>
        requires live { IfSome at (λ a. IsTrue (live a self.old.nodes)) }
        requires fits { All (λ g. FitsIn g (length self.old.frame.names)) gates.now }
        ensures live { IfSome result (λ a. IsTrue (live a self.new.nodes)) }
        ensures frame { self.new.frame ≡ self.old.frame }
        ensures notes { self.new.notes ≡ self.old.notes }
        ensures same { (c : ℕ)
            → finish at (suc c) (drop i gates.now) self.old.nodes
            ≡ finish result c (drop (i + 1) gates.now) self.new.nodes }
    {
        match at {
            None => None,
            Some(node) => {
                self.recall_invariant();
                let next = self.next(node);
                if (i as usize) < gates.len() {
                    let gate = gates[i as usize];
                    self.set_gate(node, gate);
                    next
                } else {
                    self.erase(node);
                    next
                }
            }
        }
    }

    // How many gates a window has, and how many lines they touch, in sum.
    fn window_size(&self, first: NodeId, count: u32) -> (u32, u64)
        requires { IsTrue (live first self.now.nodes) }
        ensures gates { result.0 ≡ length (window_gates first count self.now.nodes) }
        ensures lines { result.1 ≡ incidences (window_gates first count self.now.nodes) }
    {
        self.recall_invariant();
        let mut at = Some(first);
        let mut sum: u64 = 0;
        for i in 0..count {
            match at {
                None => return (i, sum),
                Some(node) => {
                    let gate = self.gate(node);
                    sum += u64::from(chains::incidence(gate));
                    at = self.next(node);
                }
            }
        }
        (count, sum)
    }
}
