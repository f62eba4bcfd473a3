//! Where a gate stands, by a hash of the whole gate.
//!
//! A number is written into the first empty slot of those that are asked for its gate, one after the other, and stays
//! there. What a slot has is tested where it is read, so gates go and change without a word to the slots. A look-up
//! that comes to an empty slot has seen all numbers of its gate.
ghost use Rattle.std.specs.Prelude.{◌≡◌, ◌≢◌, ℕ, ◌+◌, ◌-◌, ◌<◌, ◌≤◌, ◌^◌, length, IsTrue, IfSome};
ghost use Rattle.rv_gate.specs.declared.gate.Shape.{Shape};
ghost use Rattle.rv_gate.specs.declared.circuit.TheConstants.{MOST_GATES};
ghost use Rattle.rv_links.specs.Order.{lists};
ghost use Rattle.rv_links.specs.Seeking.{Tells};
ghost use Rattle.rv_links.specs.inside.Chains.{gate_at, nodes_of};
ghost use Rattle.rv_links.specs.inside.Index.{mixed, hash_of, slot_of, asked, Kept, IsIndexed, AtMost, IsHere, told};

use crate::NodeId;
use crate::ring::Ring;
use crate::sought::Sought;
use rv_gate::{Gate, LineSet, MOST_GATES};

/// So many slots are asked for a gate at most.
pub const MOST_ASKED: u32 = 32;

#[tactic(auto, unfolding(crate::specs::inside::Index::mixed))]
fn mixed(care: LineSet, want: LineSet, lines: LineSet) -> u64
    ensures { result ≡ mixed care want lines }
{
    let sum = care.wrapping_mul(0x9E37_79B9_7F4A_7C15)
        ^ want.wrapping_mul(0xC2B2_AE3D_27D4_EB4F)
        ^ lines.wrapping_mul(0x1656_67B1_9E37_79F9);
    (sum ^ sum >> 32).wrapping_mul(0xD6C1_6B6A_8C53_8BD3)
}

fn hash_of(gate: Gate) -> u64
    ensures { result ≡ hash_of gate }
{
    mixed(gate.controls(), gate.wanted(), gate.targets())
}

// The place of the slot that is asked in turn `i`.
#[tactic(auto, unfolding(crate::specs::inside::Index::slot_of))]
fn slot_of(hash: u64, i: u32, room: usize) -> usize
    requires turn { i < MOST_ASKED }
    requires some { 0 < room }
    ensures is { result ≡ slot_of hash i room }
    ensures below { result < room }
{
    ((hash >> i & 0xFFFF_FFFF) % room as u64) as usize
}

/// Keeps a number for its gate.
pub fn enter(slots: &mut [u32], gate: Gate, id: u32)
    requires some { 0 < length slots.old }
    requires few { id < MOST_GATES }
    ensures long { length slots.new ≡ length slots.old }
    ensures here { Kept slots.new gate id }
    ensures others { (g : Shape) (x : ℕ) → Kept slots.old g x → Kept slots.new g x }
{
    let hash = hash_of(gate);
    let room = slots.len();
    for i in 0..MOST_ASKED {
        let at = slot_of(hash, i, room);
        if slots[at] == 0 {
            slots[at] = id + 1;
            return;
        }
    }
}

// Keeps a number for its gate, if it stands in the order.
fn enter_if_there(slots: &mut [u32], gates: &[Gate], order: &Ring, id: u32)
    requires some { 0 < length slots.old }
    requires there { id < length gates.now }
    requires most { length gates.now ≤ MOST_GATES }
    requires room { order.now.room ≡ length gates.now }
    ensures long { length slots.new ≡ length slots.old }
    ensures here { IsTrue (lists id order.now.ids) → Kept slots.new (gate_at gates.now id) id }
    ensures others { (g : Shape) (x : ℕ) → Kept slots.old g x → Kept slots.new g x }
{
    if order.contains(id) {
        enter(slots, gates[id as usize], id);
    }
}

/// Keeps the numbers of an order alone.
pub fn renew(slots: &mut [u32], gates: &[Gate], order: &Ring)
    requires some { 0 < length slots.old }
    requires most { length gates.now ≤ MOST_GATES }
    requires room { order.now.room ≡ length gates.now }
    requires below { (id : ℕ) → IsTrue (lists id order.now.ids) → id < length gates.now }
    ensures long { length slots.new ≡ length slots.old }
    ensures indexed { IsIndexed slots.new gates.now order.now.ids }
{
    slots.fill(0);
    for id in 0..gates.len() {
        enter_if_there(slots, gates, order, id as u32);
    }
}

/// Keeps a number that got another gate, where the others are kept; now and then anew, so that half of the slots stay
/// empty or nearly so. `entered` tells how many came since. Answers how many came now.
pub fn keep(slots: &mut [u32], entered: u32, gates: &[Gate], order: &Ring, id: u32) -> u32
    requires some { 0 < length slots.old }
    requires most { length gates.now ≤ MOST_GATES }
    requires room { order.now.room ≡ length gates.now }
    requires there { id < length gates.now }
    requires below { (x : ℕ) → IsTrue (lists x order.now.ids) → x < length gates.now }
    requires others { (x : ℕ) → x ≢ id → IsTrue (lists x order.now.ids) → Kept slots.old (gate_at gates.now x) x }
    ensures long { length slots.new ≡ length slots.old }
    ensures indexed { IsIndexed slots.new gates.now order.now.ids }
{
    if entered as usize > gates.len() / 2 {
        renew(slots, gates, order);
        return 0;
    }
    enter(slots, gates[id as usize], id);
    entered.saturating_add(1)
}

// Whether the number stands in the order and has the gate.
fn is_here(gates: &[Gate], order: &Ring, gate: Gate, id: u32) -> bool
    requires room { order.now.room ≡ length gates.now }
    ensures here { IsTrue result → IsTrue (lists id order.now.ids) × (gate_at gates.now id ≡ gate) }
    ensures not { IsTrue (lists id order.now.ids) → id < length gates.now → gate_at gates.now id ≡ gate
        → IsTrue result }
{
    if id as usize >= gates.len() {
        return false;
    }
    order.contains(id) && gates[id as usize] == gate
}

// The lesser one of the best number so far and of this one, if it is one that is looked for.
fn better(
    gates: &[Gate],
    order: &Ring,
    gate: Gate,
    from: u32,
    best: Option<u32>,
    id: u32,
) -> Option<u32>
    requires room { order.now.room ≡ length gates.now }
    requires best { IfSome best (λ b. IsHere gates.now order.now.ids gate from b) }
    ensures here { IfSome result (λ b. IsHere gates.now order.now.ids gate from b) }
    ensures best { (x : ℕ) → AtMost best x → AtMost result x }
    ensures this { id < length gates.now → IsHere gates.now order.now.ids gate from id → AtMost result id }
{
    if id < from {
        return best;
    }
    let here = is_here(gates, order, gate, id);
    if !here {
        return best;
    }
    match best {
        None => Some(id),
        Some(least) => Some(least.min(id)),
    }
}

fn told(best: Option<u32>) -> Sought
    ensures { result ≡ told best }
{
    match best {
        None => Sought::Nowhere,
        Some(id) => Sought::At(NodeId { id }),
    }
}

// What the slot has that is asked for the gate in turn `i`.
fn ask(slots: &[u32], gate: Gate, hash: u64, i: u32) -> u32
    requires some { 0 < length slots.now }
    requires turn { i < MOST_ASKED }
    requires hash { hash ≡ hash_of gate }
    ensures { result ≡ asked slots.now gate i }
{
    slots[slot_of(hash, i, slots.len())]
}

/// The first number from one on that has the gate.
pub fn sought(slots: &[u32], gates: &[Gate], order: &Ring, gate: Gate, from: u32) -> Sought
    requires some { 0 < length slots.now }
    requires room { order.now.room ≡ length gates.now }
    requires below { (id : ℕ) → IsTrue (lists id order.now.ids) → id < length gates.now }
    requires indexed { IsIndexed slots.now gates.now order.now.ids }
    ensures { Tells (nodes_of gates.now order.now.ids) gate from result }
{
    let hash = hash_of(gate);
    let mut best = None;
    for i in 0..MOST_ASKED {
        let slot = ask(slots, gate, hash, i);
        if slot == 0 {
            return told(best);
        }
        best = better(gates, order, gate, from, best, slot - 1);
    }
    Sought::Unknown
}
