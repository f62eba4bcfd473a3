ghost use Rattle.std.specs.Prelude.{◌≡◌, ℕ, ◌+◌, ◌-◌, ◌*◌, ◌^◌, ◌<◌, ◌≤◌, [], ◌∷◌, ◌++◌, length, IfOk, IsTrue, IsFalse};
ghost use Rattle.rv_links.specs.Order.{lists, head, next_in, prev_in, Rising};
ghost use Rattle.rv_links.specs.inside.Ring.{without};

use std::alloc::{AllocError, Global};
use std::marker::Model;

/// Numbers below `room` in an order, each at most once: a doubly linked list by indices.
///
/// Of each number the one after it and the one before it are kept, in 8 bytes. `room` itself stands before the first
/// and after the last, so no step has a case for an end. A number that isn't there has itself after it.
#[derive(Drop)]
pub struct Ring {
    next: Vec<u32>,
    prev: Vec<u32>,
    room: u32,
}

impl Model for Ring {
    ghost use Rattle.rv_links.specs.inside.Ring.{Order, ids_of, IsRing};

    ghost Value = { Order };

    ghost view = { λ r. record { room = r.room; ids = ids_of r.next.items r.room } };

    ghost invariant = { λ r. IsRing r.next.items r.prev.items r.room };
}

impl Ring {
    /// No numbers. Fails only for want of memory, and takes no more than it needs.
    pub fn new(alloc: Global, room: u32) -> Result<Ring, AllocError>
        ensures room { IfOk result (λ r. r.room ≡ room) }
        ensures empty { IfOk result (λ r. r.ids ≡ []) }
    {
        let mut next = Vec::with_capacity(alloc, room as usize + 1)?;
        for i in 0..room {
            next.push(i)?;
        }
        next.push(room)?;
        let prev = Vec::from_slice(alloc, &next)?;
        let ring = Ring { next, prev, room };
        Ok(ring)
    }

    /// Whether the number is there.
    pub fn contains(&self, x: u32) -> bool
        requires { x < self.now.room }
        ensures { result ≡ lists x self.now.ids }
    {
        self.next[x as usize] != x
    }

    /// The first number. `None` where there is none.
    pub fn first(&self) -> Option<u32>
        ensures { result ≡ head self.now.ids }
    {
        let id = self.next[self.room as usize];
        if id == self.room { None } else { Some(id) }
    }

    /// Where the numbers rise, one than which none there is greater: the last one. `room` where there is none.
    pub fn greatest(&self) -> u32
        requires { Rising self.now.ids }
        ensures most { (x : ℕ) → IsTrue (lists x self.now.ids) → x ≤ result }
        ensures few { result ≤ self.now.room }
    {
        self.prev[self.room as usize]
    }

    /// The number after this one. `None` at the end.
    pub fn next(&self, x: u32) -> Option<u32>
        requires { IsTrue (lists x self.now.ids) }
        ensures { result ≡ next_in x self.now.ids }
    {
        let id = self.next[x as usize];
        if id == self.room { None } else { Some(id) }
    }

    /// The number before this one. `None` at the front.
    pub fn prev(&self, x: u32) -> Option<u32>
        requires { IsTrue (lists x self.now.ids) }
        ensures { result ≡ prev_in x self.now.ids }
    {
        let id = self.prev[x as usize];
        if id == self.room { None } else { Some(id) }
    }

    /// Takes a number out.
    pub fn remove(&mut self, x: u32)
        requires { IsTrue (lists x self.old.ids) }
        ensures { self.new ≡ record self.old { ids = without x self.old.ids } }
    {
        let before = self.prev[x as usize];
        let after = self.next[x as usize];
        self.next[before as usize] = after;
        self.prev[after as usize] = before;
        self.next[x as usize] = x;
    }

    /// Puts a number at the end.
    pub fn push_back(&mut self, x: u32)
        requires below { x < self.old.room }
        requires fresh { IsFalse (lists x self.old.ids) }
        ensures { self.new ≡ record self.old { ids = self.old.ids ++ x ∷ [] } }
    {
        let before = self.prev[self.room as usize];
        let after = self.room;
        self.next[x as usize] = after;
        self.prev[x as usize] = before;
        self.next[before as usize] = x;
        self.prev[after as usize] = x;
    }
}
