// Chains of few products over five operands, by which functions are made.
use crate::lists::{at, put_at};
use crate::rows::Rows;
use crate::tables::{key_of, operand_table};
use std::alloc::{AllocError, Global};

/// A chain has at most so many products.
pub(crate) const MOST_IN_CHAIN: usize = 7;

// Sums of operands and products.
const SUMS: usize = 1 << 12;

const MOST_SEEN: usize = 1 << 12;

const MOST_NOTES: usize = 1 << 12;

// So many pairs are looked at for a chain.
const MOST_PAIRS: u64 = 3_000_000;

/// Products, one after another: the factors of each are sums of the operands and of products before it, which come after
/// the operands.
#[derive(Clone, Copy)]
pub(crate) struct LongChain {
    pub(crate) count: u8,
    one: [u16; MOST_IN_CHAIN],
    other: [u16; MOST_IN_CHAIN],
}

const EMPTY: LongChain = LongChain {
    count: 0,
    one: [0; MOST_IN_CHAIN],
    other: [0; MOST_IN_CHAIN],
};

impl LongChain {
    /// The factors of a product.
    pub(crate) fn factors(&self, number: usize) -> (u16, u16) {
        (at(&self.one, number, 0), at(&self.other, number, 0))
    }

    fn push(&mut self, one: usize, other: usize) {
        let place = usize::from(self.count);
        put_at(&mut self.one, place, one.min(65535) as u16);
        put_at(&mut self.other, place, other.min(65535) as u16);
        self.count = self.count.saturating_add(1);
    }

    fn pop(&mut self) {
        self.count = self.count.saturating_sub(1);
    }
}

// What was found for functions that are known by a number.
#[derive(Clone, Copy)]
struct Note {
    hash: u64,
    is_found: bool,
    chain: LongChain,
}

/// Looks for chains.
#[derive(Drop)]
pub(crate) struct LongChains {
    operands: u8,
    chain: LongChain,
    // of each set of operands and products the table of its sum
    sums: Vec<u32>,
    // functions that were tried, each with the number of the step at which that was
    seen: Vec<u64>,
    steps: u64,
    notes: Vec<Note>,
    left: u64,
    /// How many pairs were looked at.
    pub(crate) work: u64,
}

impl LongChains {
    pub(crate) fn new(alloc: Global) -> Result<LongChains, AllocError> {
        let note = Note {
            hash: 0,
            is_found: false,
            chain: EMPTY,
        };
        Ok(LongChains {
            operands: 0,
            chain: EMPTY,
            sums: vec![in alloc; 0; SUMS]?,
            seen: vec![in alloc; 0; MOST_SEEN]?,
            steps: 0,
            notes: vec![in alloc; note; MOST_NOTES]?,
            left: 0,
            work: 0,
        })
    }

    #[inline(always)]
    fn sum(&self, set: usize) -> u32 {
        at(&self.sums, set, 0)
    }

    // The number of sums so far.
    fn end(&self) -> usize {
        1usize << (u32::from(self.operands.min(5)) + u32::from(self.chain.count.min(7)))
    }

    // The sums with a table more.
    fn put_sums(&mut self, table: u32, end: usize) {
        for set in 0..end.min(SUMS) {
            let sum = self.sum(set) ^ table;
            put_at(&mut self.sums, set.saturating_add(end), sum);
        }
    }

    fn begin(&mut self, operands: u8) {
        self.chain = EMPTY;
        self.operands = 0;
        for operand in 0..operands.min(5) {
            let end = self.end();
            self.put_sums(operand_table(usize::from(operand)), end);
            self.operands = self.operands.saturating_add(1);
        }
    }

    // Whether no pair may be looked at any more.
    fn spend(&mut self, pairs: usize) -> bool {
        self.left = self.left.saturating_sub(pairs as u64);
        self.work = self.work.saturating_add(pairs as u64);
        self.left == 0
    }

    // Whether a function wasn't tried at a step, most likely.
    fn is_new(&mut self, step: u64, key: u32) -> bool {
        let mark = step << 32 | u64::from(key);
        let slot = (mark.wrapping_mul(0x9E37_79B9_7F4A_7C15) >> 52) as usize;
        let is_new = at(&self.seen, slot, 0) != mark;
        put_at(&mut self.seen, slot, mark);
        is_new
    }

    // What the product of two sums brings, if that is wanted, or not, as is asked.
    #[inline(always)]
    fn brings(&self, one: usize, other: usize, have: &Rows, want: &Rows, helps: bool) -> u32 {
        if one ^ other < other {
            return 0;
        }
        let rest = have.reduced(key_of(self.sum(one) & self.sum(other)));
        if rest == 0 || (want.reduced(rest) == 0) != helps {
            return 0;
        }
        rest
    }

    // A product more.
    fn grow(&mut self, one: usize, other: usize) {
        let table = self.sum(one) & self.sum(other);
        let end = self.end();
        self.put_sums(table, end);
        self.chain.push(one, other);
    }

    // Whether so many products more are enough, all but so many of which are to help.
    fn go_on(&mut self, left: u8, have: Rows, want: Rows, slack: u8) -> bool {
        if want.count() == 0 {
            return true;
        }
        if left == 0 {
            return false;
        }
        self.steps = self.steps.wrapping_add(1) & 0xFFFF_FFFF;
        let (step, end) = (self.steps, self.end());
        for pass in 0..slack.min(1).saturating_add(1) {
            for one in 1..end {
                if self.spend(end.saturating_sub(one)) {
                    return false;
                }
                for other in one.saturating_add(1)..end {
                    let key = self.brings(one, other, &have, &want, pass == 0);
                    if key != 0 && self.is_new(step, key) {
                        let more = have.with(key);
                        self.grow(one, other);
                        if self.go_on(
                            left - 1,
                            more,
                            want.without(&more),
                            slack.saturating_sub(pass),
                        ) {
                            return true;
                        }
                        self.chain.pop();
                    }
                }
            }
        }
        false
    }

    // Whether there is a chain of fewer products than so many.
    fn search(&mut self, keys: &Rows, operands: u8, limit: usize) -> bool {
        let rank = keys.count();
        self.left = MOST_PAIRS;
        for slack in 0..2u8 {
            let count = rank.saturating_add(usize::from(slack));
            if count < limit && count <= MOST_IN_CHAIN {
                self.begin(operands);
                if self.go_on(count.min(7) as u8, Rows::none(), *keys, slack) {
                    return true;
                }
            }
        }
        false
    }

    /// A chain of fewer products than so many that gives all functions of so many operands, up to linear ones.
    pub(crate) fn find(&mut self, keys: &Rows, operands: u8, limit: usize) -> Option<LongChain> {
        if keys.count() >= limit {
            return None;
        }
        let about = (limit as u64).wrapping_mul(64) | u64::from(operands) | 1 << 40;
        let hash = keys.hash() ^ about.wrapping_mul(0x94D0_49BB_1331_11EB);
        let slot = (hash >> 52) as usize;
        if let Some(note) = self.notes.get(slot) {
            if note.hash == hash {
                return if note.is_found {
                    Some(note.chain)
                } else {
                    None
                };
            }
        }
        let is_found = self.search(keys, operands, limit);
        let chain = self.chain;
        let note = Note {
            hash,
            is_found,
            chain,
        };
        put_at(&mut self.notes, slot, note);
        if is_found { Some(chain) } else { None }
    }

    /// The tables of the products of a chain over so many operands.
    pub(crate) fn follow(&mut self, chain: &LongChain, operands: u8) -> [u32; MOST_IN_CHAIN] {
        self.begin(operands);
        let mut tables = [0; MOST_IN_CHAIN];
        for number in 0..usize::from(chain.count).min(MOST_IN_CHAIN) {
            let (one, other) = chain.factors(number);
            let (one, other) = (usize::from(one), usize::from(other));
            tables[number] = self.sum(one) & self.sum(other);
            self.grow(one, other);
        }
        tables
    }
}
