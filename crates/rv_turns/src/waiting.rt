// T gates that wait for another about the same Pauli product, and the products, side by side.
ghost use Rattle.std.specs.Prelude.{◌≡◌, ◌≢◌, ℕ, ◌<◌, ◌^◌, length, false, true, slice_index, slice_set, IfOk, IfSome};
ghost use Rattle.rv_gate.specs.Word.{has};
ghost use Rattle.rv_turns.specs.inside.Without.{without};
ghost use Rattle.rv_turns.specs.declared.waiting.TheConstants.{MOST_WAITING};

use rv_net::Op;
use std::alloc::{AllocError, Global};

// How many T gates wait at once: a bit of a word each.
const MOST_WAITING: usize = 64;

/// T gates that wait, each in a slot of its own, with the Pauli product that its Z has become.
#[derive(Drop)]
pub(crate) struct Waiting {
    // for each line, the slots whose product has X there
    flips: Vec<u64>,
    // for each line, the slots whose product has Z there
    signs: Vec<u64>,
    // the slots whose product has the square of w, and its fourth power
    quarters: u64,
    halves: u64,
    // the slots that are in use
    live: u64,
    // where the gate of each slot stands
    pub(crate) places: Vec<usize>,
    // the slot that was opened last
    last: usize,
    ghost lines: { length signs.items ≡ length flips.items },
    ghost slots: { length places.items ≡ MOST_WAITING },
}

fn without(slots: u64, others: u64) -> u64
    ensures { result ≡ without slots others }
{
    slots ^ (slots & others)
}

// The set of one slot.
fn only(slot: usize) -> u64
    requires { slot < MOST_WAITING }
    ensures { result ≡ 2 ^ slot }
{
    1 << slot
}

// Clears one bit of all words.
fn clear(words: &mut Vec<u64>, bit: u64)
    ensures count { length words.new.items ≡ length words.old.items }
    ensures each { (line : ℕ) → line < length words.old.items
        → slice_index words.new.items line ≡ without (slice_index words.old.items line) bit }
{
    for line in 0..words.len() {
        words[line] = without(words[line], bit);
    }
}

impl Waiting {
    ghost use Rattle.rv_net.specs.Op.{OpFitsIn};
    ghost use Rattle.rv_turns.specs.inside.Pauli.{sign_on};
    ghost use Rattle.rv_turns.specs.inside.Slots.{IsAlone, pauli_at, passed_slots, slots_of};

    /// None wait, on so many lines.
    pub(crate) fn new(alloc: Global, lines: u8) -> Result<Waiting, AllocError>
        ensures { IfOk result (λ w. (length w.flips.items ≡ lines) × ((slot : ℕ) → has w.live slot ≡ false)) }
    {
        Ok(Waiting {
            flips: vec![in alloc; 0u64; usize::from(lines)]?,
            signs: vec![in alloc; 0u64; usize::from(lines)]?,
            quarters: 0,
            halves: 0,
            live: 0,
            places: vec![in alloc; 0usize; MOST_WAITING]?,
            last: 0,
        })
    }

    /// Takes all products past an operation.
    pub(crate) fn pass(&mut self, op: Op)
        requires { OpFitsIn op (length self.old.flips.items) }
        ensures slots { slots_of self.new ≡ passed_slots op (slots_of self.old) }
        ensures places { self.new.places ≡ self.old.places }
    {
        match op {
            Op::X(q) => {
                let signs = self.signs[usize::from(q)];
                self.halves ^= signs;
            }
            Op::Y(q) => {
                let (flips, signs) = (self.flips[usize::from(q)], self.signs[usize::from(q)]);
                self.halves ^= flips ^ signs;
            }
            Op::Z(q) => {
                let flips = self.flips[usize::from(q)];
                self.halves ^= flips;
            }
            Op::H(q) => {
                let (flips, signs) = (self.flips[usize::from(q)], self.signs[usize::from(q)]);
                self.halves ^= flips & signs;
                self.flips[usize::from(q)] = signs;
                self.signs[usize::from(q)] = flips;
            }
            Op::S(q) => {
                let flips = self.flips[usize::from(q)];
                self.halves ^= self.quarters & flips;
                self.quarters ^= flips;
                self.signs[usize::from(q)] ^= flips;
            }
            Op::Sdg(q) => {
                let flips = self.flips[usize::from(q)];
                self.halves ^= flips ^ (self.quarters & flips);
                self.quarters ^= flips;
                self.signs[usize::from(q)] ^= flips;
            }
            Op::Cx(a, b) => {
                let (a, b) = (usize::from(a), usize::from(b));
                let (flips, signs) = (self.flips[a], self.signs[b]);
                self.flips[b] ^= flips;
                self.signs[a] ^= signs;
            }
            Op::Cz(a, b) => {
                let (a, b) = (usize::from(a), usize::from(b));
                let (first, second) = (self.flips[a], self.flips[b]);
                let (first_sign, second_sign) = (self.signs[a], self.signs[b]);
                self.halves ^= first & second;
                self.signs[a] = first_sign ^ second;
                self.signs[b] = second_sign ^ first;
            }
            Op::Swap(a, b) => {
                let (a, b) = (usize::from(a), usize::from(b));
                let (first, second) = (self.flips[a], self.flips[b]);
                let (first_sign, second_sign) = (self.signs[a], self.signs[b]);
                self.flips[a] = second;
                self.flips[b] = first;
                self.signs[a] = second_sign;
                self.signs[b] = first_sign;
            }
            Op::T(q) => {
                let flips = self.flips[usize::from(q)];
                self.stop(flips);
            }
            Op::Tdg(q) => {
                let flips = self.flips[usize::from(q)];
                self.stop(flips);
            }
            Op::Ccx(a, b, c) => {
                let controls = self.flips[usize::from(a)] | self.flips[usize::from(b)];
                let target = self.signs[usize::from(c)];
                self.stop(controls | target);
            }
            Op::Cswap(c, a, b) => {
                let (a, b) = (usize::from(a), usize::from(b));
                let control = self.flips[usize::from(c)];
                let flips = self.flips[a] ^ self.flips[b];
                let signs = self.signs[a] ^ self.signs[b];
                self.stop(control | flips | signs);
            }
        }
    }

    // These slots are in use no more.
    fn stop(&mut self, slots: u64)
        ensures { self.new ≡ record self.old { live = without self.old.live slots } }
    {
        self.live = without(self.live, slots);
    }

    // Those of the slots whose product has nothing but Z on the line.
    fn alone(&self, line: u8, slots: u64) -> u64
        requires { line < length self.now.flips.items }
        ensures { (slot : ℕ) → has result slot ≡ true
            → (has slots slot ≡ true) × IsAlone (slots_of self.now) line slot }
    {
        let mut left = without(slots, self.quarters | self.halves);
        for other in 0..self.flips.len() {
            if left == 0 {
                return 0;
            }
            left = without(left, self.flips[other]);
            if other != usize::from(line) {
                left = without(left, self.signs[other]);
            }
        }
        left
    }

    /// A slot in use whose product is Z on the line.
    pub(crate) fn partner(&self, line: u8) -> Option<usize>
        requires { line < length self.now.flips.items }
        ensures { IfSome result (λ slot.
            (slot < MOST_WAITING) × (has self.now.live slot ≡ true)
            × (pauli_at (slots_of self.now) slot ≡ sign_on (length self.now.flips.items) line)) }
    {
        let alone = self.alone(line, self.live & self.signs[usize::from(line)]);
        if alone == 0 {
            None
        } else {
            Some(alone.trailing_zeros() as usize)
        }
    }

    /// A slot is in use no more.
    pub(crate) fn close(&mut self, slot: usize)
        requires { slot < MOST_WAITING }
        ensures slots { slots_of self.new ≡ record (slots_of self.old) { live = without self.old.live (2 ^ slot) } }
        ensures places { self.new.places ≡ self.old.places }
    {
        self.stop(only(slot));
    }

    /// Whether all slots are in use.
    pub(crate) fn is_full(&self) -> bool {
        self.live == u64::MAX
    }

    // A slot that is not in use, or the one that was opened first.
    fn next_slot(&self) -> usize
        ensures { result < MOST_WAITING }
    {
        let slot = self.live.trailing_ones() as usize;
        if slot < MOST_WAITING {
            slot
        } else {
            (self.last % MOST_WAITING + 1) % MOST_WAITING
        }
    }

    /// A gate on the line, at a place, waits.
    pub(crate) fn open(&mut self, line: u8, place: usize) -> usize
        requires { line < length self.old.flips.items }
        ensures within { result < MOST_WAITING }
        ensures opened { pauli_at (slots_of self.new) result ≡ sign_on (length self.old.flips.items) line }
        ensures others { (slot : ℕ) → slot ≢ result
            → pauli_at (slots_of self.new) slot ≡ pauli_at (slots_of self.old) slot }
        ensures live { (slot : ℕ) → slot ≢ result → has self.new.live slot ≡ has self.old.live slot }
        ensures count { length self.new.flips.items ≡ length self.old.flips.items }
        ensures places { self.new.places.items ≡ slice_set self.old.places.items result place }
    {
        let slot = self.next_slot();
        let bit = only(slot);
        clear(&mut self.flips, bit);
        clear(&mut self.signs, bit);
        let signs = self.signs[usize::from(line)];
        self.signs[usize::from(line)] = signs | bit;
        self.quarters = without(self.quarters, bit);
        self.halves = without(self.halves, bit);
        self.live |= bit;
        self.places[slot] = place;
        self.last = slot;
        slot
    }
}
