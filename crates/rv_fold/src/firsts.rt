// The places where classes begin, by parities.
ghost use Rattle.std.specs.Prelude.{◌≡◌, ◌%◌, ◌<◌, length, IfOk, OnOk};

use crate::parities::Parity;
use rv_gate::LineSet;
use std::alloc::{AllocError, Global};
use std::collections::BTreeMap;

// Primes: a thousand slots, as many as there are parities on 14 lines and on 16, a million and two million.
const SOME_SLOTS: usize = 1_009;

const MORE_SLOTS: usize = 32_771;

const MANY_SLOTS: usize = 131_101;

const MILLION_SLOTS: usize = 1_000_003;

const MOST_SLOTS: usize = 2_000_003;

/// A class of a parity, and the place of its first phase gate.
#[derive(Clone, Copy)]
pub(crate) struct Begun {
    parity: Parity,
    place: usize,
}

/// The places where classes begin, by their parities.
///
/// A parity has its slot, or stands in a sorted map if another one has that slot. So a network that is made to give
/// many parities one slot takes the time of look-ups in the map, and no more.
#[derive(Drop)]
pub(crate) struct Firsts {
    slots: Vec<Option<Begun>>,
    others: BTreeMap<(LineSet, bool), usize>,
    ghost some: { 0 < length slots.items },
}

// How many parities there are on so many lines, or more than there are slots.
fn parities_on(lines: u8) -> usize {
    if lines < 21 { 2 << lines } else { MOST_SLOTS }
}

// How many slots there are for a network of so many lines and operations.
fn slots_for(lines: u8, operations: usize) -> usize
    ensures { 0 < result }
{
    let keys = operations.min(parities_on(lines));
    for count in [SOME_SLOTS, MORE_SLOTS, MANY_SLOTS, MILLION_SLOTS] {
        if keys < count {
            return count;
        }
    }
    MOST_SLOTS
}

// The remainder of a number by the number of slots. It is quick by a constant.
fn remainder(number: u64, count: usize) -> usize
    requires { 0 < count }
    ensures { result ≡ number % count }
{
    match count {
        SOME_SLOTS => (number % SOME_SLOTS as u64) as usize,
        MORE_SLOTS => (number % MORE_SLOTS as u64) as usize,
        MANY_SLOTS => (number % MANY_SLOTS as u64) as usize,
        MILLION_SLOTS => (number % MILLION_SLOTS as u64) as usize,
        MOST_SLOTS => (number % MOST_SLOTS as u64) as usize,
        _ => (number % count as u64) as usize,
    }
}

impl Firsts {
    ghost use Rattle.rv_fold.specs.inside.Slots.{found, slot_of, HasNone, Notes};

    /// No classes yet, of a network of so many lines and operations.
    pub(crate) fn new(alloc: Global, lines: u8, operations: usize) -> Result<Firsts, AllocError>
        ensures { IfOk result HasNone }
    {
        let mut slots = Vec::new(alloc);
        for _slot in 0..slots_for(lines, operations) {
            slots.push(None)?;
        }
        Ok(Firsts {
            slots,
            others: BTreeMap::new(alloc),
        })
    }

    fn slot_of(&self, parity: Parity) -> usize
        ensures value { result ≡ slot_of (length self.now.slots.items) parity }
        ensures within { result < length self.now.slots.items }
    {
        let count = self.slots.len();
        let double = remainder(parity.lines, count) * 2 + usize::from(parity.flipped);
        if double < count {
            double
        } else {
            double - count
        }
    }

    /// The place that was noted last for a parity.
    pub(crate) fn look_up(&self, parity: Parity) -> Option<usize>
        ensures { result ≡ found self.now parity }
    {
        if let Some(begun) = self.slots[self.slot_of(parity)] {
            if begun.parity.is_same(parity) {
                return Some(begun.place);
            }
        }
        match self.others.get(&(parity.lines, parity.flipped)) {
            Some(place) => Some(*place),
            None => None,
        }
    }

    /// Notes a place for a parity.
    pub(crate) fn note(&mut self, parity: Parity, place: usize) -> Result<(), AllocError>
        ensures { OnOk result (Notes self.old self.new parity place) }
    {
        let slot = self.slot_of(parity);
        let is_free = match self.slots[slot] {
            Some(begun) => begun.parity.is_same(parity),
            None => true,
        };
        if is_free {
            self.slots[slot] = Some(Begun { parity, place });
            return Ok(());
        }
        match self.others.insert((parity.lines, parity.flipped), place) {
            Ok(_) => Ok(()),
            Err(_) => Err(AllocError),
        }
    }
}
