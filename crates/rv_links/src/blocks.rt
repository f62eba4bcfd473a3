//! Blocks of numbers that follow one another, with the lines that their gates read and change.
//!
//! A gate that commutes with all that reads and changes only such lines is carried past a block at once. The sets of a
//! block only grow, so a gate that goes or changes costs time at most.
ghost use Rattle.std.specs.Prelude.{◌≡◌, ℕ, ◌+◌, ◌*◌, ◌/◌, ◌<◌, ◌≤◌, length, true, IsTrue, IfOk, IfSome};
ghost use Rattle.rv_gate.specs.declared.circuit.TheConstants.{MOST_GATES};
ghost use Rattle.rv_gate.specs.declared.gate.Shape.{Shape};
ghost use Rattle.rv_gate.specs.Commuting.{rule};
ghost use Rattle.rv_links.specs.Order.{lists};
ghost use Rattle.rv_links.specs.Doubt.{IsBefore};
ghost use Rattle.rv_links.specs.inside.Chains.{gate_at};
ghost use Rattle.rv_links.specs.inside.Blocks.{Held, InBlocks, IsCovered};

use crate::ring::Ring;
use crate::used::{LineUse, is_free, read_by};
use rv_gate::Gate;
use std::alloc::{AllocError, Global};

// How many numbers a block of each size has.
pub const SMALL: u32 = 16;

pub const MIDDLE: u32 = 512;

pub const LARGE: u32 = 16384;

/// The blocks of each size, from number 0 on.
#[derive(Drop)]
pub struct Blocks {
    pub small: Vec<LineUse>,
    pub middle: Vec<LineUse>,
    pub large: Vec<LineUse>,
}

// A block gets the gate, if it is there.
fn widen(blocks: &mut [LineUse], block: usize, gate: Gate)
    ensures long { length blocks.new ≡ length blocks.old }
    ensures here { Held blocks.new block gate }
    ensures others { (i : ℕ) (g : Shape) → Held blocks.old i g → Held blocks.new i g }
{
    if block < blocks.len() {
        let used = blocks[block];
        blocks[block] = LineUse {
            read: used.read | read_by(gate),
            changed: used.changed | gate.targets(),
        };
    }
}

// Blocks of so many numbers for the gates.
fn cover(alloc: Global, gates: &[Gate], size: u32) -> Result<Vec<LineUse>, AllocError>
    requires some { 0 < size }
    requires most { length gates.now ≤ MOST_GATES }
    ensures { IfOk result (λ b. (id : ℕ) → id < length gates.now → Held b.items (id / size) (gate_at gates.now id)) }
{
    let size = size as usize;
    let none = LineUse {
        read: 0,
        changed: 0,
    };
    let mut blocks = vec![in alloc; none; gates.len() / size + 1]?;
    for id in 0..gates.len() {
        widen(&mut blocks, id / size, gates[id]);
    }
    Ok(blocks)
}

// Whether it is known that the gate commutes with all gates of the block.
fn is_passed(blocks: &[LineUse], block: usize, gate: Gate) -> bool
    ensures { IsTrue result → (other : Shape) → Held blocks.now block other → rule gate other ≡ true }
{
    if block >= blocks.len() {
        return false;
    }
    let used = blocks[block];
    is_free(gate, used.read, used.changed)
}

impl Blocks {
    /// The blocks of the gates. Fails only for want of memory.
    pub fn new(alloc: Global, gates: &[Gate]) -> Result<Blocks, AllocError>
        requires most { length gates.now ≤ MOST_GATES }
        ensures { IfOk result (λ b.
            (id : ℕ) → id < length gates.now
            → InBlocks b.small.items b.middle.items b.large.items id (gate_at gates.now id)) }
    {
        let small = cover(alloc, gates, SMALL)?;
        let middle = cover(alloc, gates, MIDDLE)?;
        let large = cover(alloc, gates, LARGE)?;
        let blocks = Blocks {
            small,
            middle,
            large,
        };
        Ok(blocks)
    }

    /// A number gets a gate.
    pub fn enter(&mut self, id: u32, gate: Gate)
        ensures here { InBlocks self.new.small.items self.new.middle.items self.new.large.items id gate }
        ensures others { (x : ℕ) (g : Shape)
            → InBlocks self.old.small.items self.old.middle.items self.old.large.items x g
            → InBlocks self.new.small.items self.new.middle.items self.new.large.items x g }
    {
        widen(&mut self.small, (id / SMALL) as usize, gate);
        widen(&mut self.middle, (id / MIDDLE) as usize, gate);
        widen(&mut self.large, (id / LARGE) as usize, gate);
    }

    // Where a block begins: a number up to which the gate commutes with all from this one on.
    fn passed(&self, gate: Gate, at: u32) -> u32
        requires few { at < MOST_GATES }
        ensures late { at ≤ result }
        ensures free { (x : ℕ) (other : Shape) → at ≤ x → x < result
            → InBlocks self.now.small.items self.now.middle.items self.now.large.items x other
            → rule gate other ≡ true }
    {
        if at % SMALL != 0 {
            return at;
        }
        let near = is_passed(&self.small, (at / SMALL) as usize, gate);
        if !near {
            return at;
        }
        let far = is_passed(&self.middle, (at / MIDDLE) as usize, gate);
        if !far {
            return (at / SMALL + 1) * SMALL;
        }
        let farther = is_passed(&self.large, (at / LARGE) as usize, gate);
        if !farther {
            return (at / MIDDLE + 1) * MIDDLE;
        }
        (at / LARGE + 1) * LARGE
    }

    /// A number of the order up to which the gate commutes with all of it from a number on.
    pub fn first_in_doubt(&self, gates: &[Gate], order: &Ring, gate: Gate, from: u32) -> Option<u32>
        requires most { length gates.now ≤ MOST_GATES }
        requires room { order.now.room ≡ length gates.now }
        requires below { (x : ℕ) → IsTrue (lists x order.now.ids) → x < length gates.now }
        requires covered { IsCovered self.now.small.items self.now.middle.items self.now.large.items gates.now
            order.now.ids }
        ensures late { IfSome result (λ b. IsTrue (lists b order.now.ids) × (from ≤ b)) }
        ensures free { (x : ℕ) → IsTrue (lists x order.now.ids) → from ≤ x → IsBefore x result
            → rule gate (gate_at gates.now x) ≡ true }
    {
        let room = gates.len() as u32;
        let mut at = from;
        while at < room {
            let end = self.passed(gate, at);
            if end > at {
                at = end;
            } else if order.contains(at) {
                return Some(at);
            } else {
                at += 1;
            }
        }
        None
    }
}
