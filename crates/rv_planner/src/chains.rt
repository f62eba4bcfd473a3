// The fewest products by which a function of four operands is made, up to a linear function.
use crate::lists::{at, put_at};
use std::alloc::{AllocError, Global};

// The tables of the operands.
const OPERANDS: [u16; 4] = [0xAAAA, 0xCCCC, 0xF0F0, 0xFF00];

// The products of at most one operand.
const LINEAR: u16 = 0x0117;

// All functions.
const FUNCTIONS: usize = 1 << 16;

// No chain is so long.
const UNKNOWN: u8 = 4;

/// Products, one after another: the factors of each are sums of operands (bits 0 to 3) and of products before it (from
/// bit 4 on). Its sum is that of the products in `out`.
#[derive(Clone, Copy)]
pub(crate) struct Chain {
    pub(crate) count: u8,
    one: [u8; 3],
    other: [u8; 3],
    pub(crate) out: u8,
}

const EMPTY: Chain = Chain {
    count: 0,
    one: [0; 3],
    other: [0; 3],
    out: 0,
};

impl Chain {
    /// The factors of a product.
    pub(crate) fn factors(&self, number: usize) -> (u8, u8) {
        (at(&self.one, number, 0), at(&self.other, number, 0))
    }

    // A product more.
    fn with(self, one: usize, other: usize) -> Chain {
        let mut chain = self;
        let place = usize::from(self.count);
        put_at(&mut chain.one, place, one.min(127) as u8);
        put_at(&mut chain.other, place, other.min(127) as u8);
        chain.count = self.count.saturating_add(1);
        chain
    }
}

/// The products of a table in its positive-polarity Reed-Muller form.
pub(crate) fn polynomial(table: u16) -> u16 {
    let form = table ^ (table & 0x5555) << 1;
    let form = form ^ (form & 0x3333) << 2;
    let form = form ^ (form & 0x0F0F) << 4;
    form ^ (form & 0x00FF) << 8
}

fn key_of(table: u16) -> usize {
    usize::from(polynomial(table) & !LINEAR)
}

/// Chains by functions. They are looked for as they are needed, shorter ones first.
#[derive(Drop)]
pub(crate) struct Chains {
    best: Vec<Chain>,
    // of each set of operands and products the table of its sum
    sums: Vec<u16>,
    length: u8,
}

impl Chains {
    pub(crate) fn new(alloc: Global) -> Result<Chains, AllocError> {
        let unknown = Chain {
            count: UNKNOWN,
            ..EMPTY
        };
        let mut best = vec![in alloc; unknown; FUNCTIONS]?;
        put_at(&mut best, 0, EMPTY);
        let sums = vec![in alloc; 0; 128]?;
        let mut chains = Chains {
            best,
            sums,
            length: 0,
        };
        for operand in 0..4 {
            chains.put_sums(1 << operand, at(&OPERANDS, operand, 0));
        }
        Ok(chains)
    }

    // The sums with a table more, which has a place of its own.
    fn put_sums(&mut self, place: usize, table: u16) {
        for set in 0..place.min(64) {
            let sum = self.sum(set) ^ table;
            put_at(&mut self.sums, set.wrapping_add(place), sum);
        }
    }

    /// The table of the sum of operands and products of the chain that was followed last.
    #[inline(always)]
    pub(crate) fn sum(&self, set: usize) -> u16 {
        at(&self.sums, set, 0)
    }

    // A chain with a product more, whose table stands among the sums from now on.
    fn grown(&mut self, chain: Chain, one: usize, other: usize) -> Chain {
        let table = self.sum(one) & self.sum(other);
        self.put_sums(16 << chain.count.min(2), table);
        chain.with(one, other)
    }

    // Notes what a chain gives with a last product.
    fn note(&mut self, chain: Chain, one: usize, other: usize) {
        let table = self.sum(one) & self.sum(other);
        let last = 1u8 << chain.count.min(2);
        for out in 0..last {
            let key = key_of(table ^ self.sum(usize::from(out) << 4));
            if at(&self.best, key, EMPTY).count == UNKNOWN {
                let mut found = chain.with(one, other);
                found.out = out | last;
                put_at(&mut self.best, key, found);
            }
        }
    }

    // Notes what a chain gives with any last product: of each plane one.
    fn note_all(&mut self, chain: Chain) {
        let end = 16usize << chain.count.min(2);
        for one in 1..end {
            for other in one..end {
                if one ^ other > other {
                    self.note(chain, one, other);
                }
            }
        }
    }

    // Notes what a chain gives with any two products.
    fn note_twice(&mut self, chain: Chain) {
        let end = 16usize << chain.count.min(2);
        for one in 1..end {
            for other in one..end {
                if one ^ other > other {
                    let longer = self.grown(chain, one, other);
                    self.note_all(longer);
                }
            }
        }
    }

    // Notes what three products give.
    fn note_three(&mut self) {
        for one in 1..16 {
            for other in one..16 {
                if one ^ other > other {
                    let chain = self.grown(EMPTY, one, other);
                    self.note_twice(chain);
                }
            }
        }
    }

    // Chains that are longer by one.
    fn lengthen(&mut self) {
        match self.length {
            0 => self.note_all(EMPTY),
            1 => self.note_twice(EMPTY),
            _ => self.note_three(),
        }
        self.length = self.length.saturating_add(1);
    }

    /// A shortest chain of a table.
    pub(crate) fn chain(&mut self, table: u16) -> Chain {
        let key = key_of(table);
        for _ in 0..3 {
            let found = at(&self.best, key, EMPTY);
            if found.count != UNKNOWN {
                return found;
            }
            self.lengthen();
        }
        at(&self.best, key, EMPTY)
    }

    /// Puts the tables of a chain's products among the sums.
    pub(crate) fn follow(&mut self, chain: Chain) {
        let mut so_far = EMPTY;
        for number in 0..usize::from(chain.count).min(3) {
            let (one, other) = chain.factors(number);
            so_far = self.grown(so_far, usize::from(one), usize::from(other));
        }
    }
}
