// Truth tables of six, seven and eight lines: a bit for each word.
use crate::scale::Scale;

/// The most lines of a permutation that is searched for.
pub const PLACES: usize = 8;

// Of each of the first six lines, the bit that each of 64 words has on it.
const VARIABLES: [u64; 6] = [
    0xAAAA_AAAA_AAAA_AAAA,
    0xCCCC_CCCC_CCCC_CCCC,
    0xF0F0_F0F0_F0F0_F0F0,
    0xFF00_FF00_FF00_FF00,
    0xFFFF_0000_FFFF_0000,
    0xFFFF_FFFF_0000_0000,
];

// A function of the words on some lines.
pub(crate) trait Table: Copy {
    // How many lines there are.
    fn lines() -> usize;

    // It is 0 on each word.
    fn zero() -> Self;

    // It is the bit on a line.
    fn variable(line: usize) -> Self;

    fn not(self) -> Self;

    fn xor(self, other: Self) -> Self;

    fn and(self, other: Self) -> Self;

    // The table with the bits of words exchanged that differ on a line.
    fn exchanged(self, line: usize) -> Self;

    // The positive-polarity Reed-Muller form: of each product of lines, at the word that has a bit on these, whether it
    // stands in the form.
    fn form(self) -> Self;

    // What the products of a form weigh together, where each has so many lines more.
    fn weight_with(self, scale: &Scale, more: usize) -> u32;

    // A number that tells most tables apart.
    fn hash(self, salt: u64) -> u64;

    fn is(self, other: Self) -> bool;

    // Whether it is 1 on a word.
    fn bit(self, word: usize) -> bool;

    // The table that is 1 on a word too.
    fn with(self, word: usize) -> Self;

    // The form without its constant product.
    fn without_constant(self) -> Self;

    // The products of a form that have two lines and more.
    fn products(self) -> Self;

    // The first word on which it is 1.
    fn first(self) -> Option<usize>;
}

// One of the first six lines' bit, on 64 words.
fn variable_of(line: usize) -> u64 {
    match VARIABLES.get(line) {
        Some(table) => *table,
        None => 0,
    }
}

// The table at a place of a list.
#[inline(always)]
pub(crate) fn at<T: Table>(tables: &[T], place: usize) -> T {
    match tables.get(place) {
        Some(table) => *table,
        None => T::zero(),
    }
}

#[inline(always)]
pub(crate) fn put_at<T: Table>(tables: &mut [T], place: usize, table: T) {
    if place < tables.len() {
        tables[place] = table;
    }
}

// The words on which each line of `care` has the bit that `want` gives, by the tables from a place on.
#[inline(always)]
pub(crate) fn held<T: Table>(tables: &[T], from: usize, care: u8, want: u8) -> T {
    let mut on = T::zero().not();
    for line in 0..PLACES {
        if care >> line & 1 == 1 {
            let table = at(tables, from.wrapping_add(line));
            on = on.and(if want >> line & 1 == 1 {
                table
            } else {
                table.not()
            });
        }
    }
    on
}

// The bits of words exchanged that differ on one of the first six lines.
fn exchanged_in(table: u64, line: usize) -> u64 {
    match line {
        0 => (table & VARIABLES[0]) >> 1 | (table << 1) & VARIABLES[0],
        1 => (table & VARIABLES[1]) >> 2 | (table << 2) & VARIABLES[1],
        2 => (table & VARIABLES[2]) >> 4 | (table << 4) & VARIABLES[2],
        3 => (table & VARIABLES[3]) >> 8 | (table << 8) & VARIABLES[3],
        4 => (table & VARIABLES[4]) >> 16 | (table << 16) & VARIABLES[4],
        _ => table >> 32 | table << 32,
    }
}

// The form of 64 words.
fn form_of(table: u64) -> u64 {
    let form = table ^ (table & !VARIABLES[0]) << 1;
    let form = form ^ (form & !VARIABLES[1]) << 2;
    let form = form ^ (form & !VARIABLES[2]) << 4;
    let form = form ^ (form & !VARIABLES[3]) << 8;
    let form = form ^ (form & !VARIABLES[4]) << 16;
    form ^ form << 32
}

fn mixed(table: u64, salt: u64) -> u64 {
    let hash = (table ^ salt).wrapping_mul(0x9E37_79B9_7F4A_7C15);
    let hash = (hash ^ hash >> 32).wrapping_mul(0xD6E8_FEB8_6659_FD93);
    hash ^ hash >> 29
}

// What the products of a form weigh together.
#[inline(always)]
pub(crate) fn weight_of<T: Table>(form: T, scale: &Scale) -> u32 {
    form.weight_with(scale, 0)
}

// On six lines.
#[derive(Clone, Copy)]
pub(crate) struct Sixfold {
    words: u64,
}

// The products of at most one line.
const LINEAR: u64 = 0x0000_0001_0001_0117;

impl Table for Sixfold {
    #[inline(always)]
    fn lines() -> usize {
        6
    }

    #[inline(always)]
    fn zero() -> Sixfold {
        Sixfold { words: 0 }
    }

    #[inline(always)]
    fn variable(line: usize) -> Sixfold {
        Sixfold {
            words: variable_of(line),
        }
    }

    #[inline(always)]
    fn not(self) -> Sixfold {
        Sixfold { words: !self.words }
    }

    #[inline(always)]
    fn xor(self, other: Sixfold) -> Sixfold {
        Sixfold {
            words: self.words ^ other.words,
        }
    }

    #[inline(always)]
    fn and(self, other: Sixfold) -> Sixfold {
        Sixfold {
            words: self.words & other.words,
        }
    }

    #[inline(always)]
    fn exchanged(self, line: usize) -> Sixfold {
        Sixfold {
            words: exchanged_in(self.words, line),
        }
    }

    #[inline(always)]
    fn form(self) -> Sixfold {
        Sixfold {
            words: form_of(self.words),
        }
    }

    #[inline(always)]
    fn weight_with(self, scale: &Scale, more: usize) -> u32 {
        scale.weight(self.words, more)
    }

    #[inline(always)]
    fn hash(self, salt: u64) -> u64 {
        mixed(self.words, salt)
    }

    #[inline(always)]
    fn is(self, other: Sixfold) -> bool {
        self.words == other.words
    }

    fn bit(self, word: usize) -> bool {
        self.words >> (word % 64) & 1 == 1
    }

    fn with(self, word: usize) -> Sixfold {
        Sixfold {
            words: self.words | 1 << (word % 64),
        }
    }

    #[inline(always)]
    fn without_constant(self) -> Sixfold {
        Sixfold {
            words: self.words & !1,
        }
    }

    #[inline(always)]
    fn products(self) -> Sixfold {
        Sixfold {
            words: self.words & !LINEAR,
        }
    }

    #[inline(always)]
    fn first(self) -> Option<usize> {
        if self.words == 0 {
            return None;
        }
        Some(self.words.trailing_zeros() as usize)
    }
}

// On one line more: the words with bit 0 on it, and those with bit 1.
#[derive(Clone, Copy)]
pub(crate) struct Twofold<T> {
    low: T,
    high: T,
}

// On seven lines, and on eight.
pub(crate) type Sevenfold = Twofold<Sixfold>;

pub(crate) type Eightfold = Twofold<Sevenfold>;

// Whether a word has bit 1 on a line.
#[inline(always)]
fn has(word: usize, line: usize) -> bool {
    word >> line.min(PLACES) & 1 == 1
}

impl<T: Table> Table for Twofold<T> {
    #[inline(always)]
    fn lines() -> usize {
        T::lines().saturating_add(1)
    }

    #[inline(always)]
    fn zero() -> Self {
        let low = T::zero();
        Twofold { low, high: low }
    }

    #[inline(always)]
    fn variable(line: usize) -> Self {
        let low = T::variable(line);
        let high = if line == T::lines() { low.not() } else { low };
        Twofold { low, high }
    }

    #[inline(always)]
    fn not(self) -> Self {
        Twofold {
            low: self.low.not(),
            high: self.high.not(),
        }
    }

    #[inline(always)]
    fn xor(self, other: Self) -> Self {
        Twofold {
            low: self.low.xor(other.low),
            high: self.high.xor(other.high),
        }
    }

    #[inline(always)]
    fn and(self, other: Self) -> Self {
        Twofold {
            low: self.low.and(other.low),
            high: self.high.and(other.high),
        }
    }

    #[inline(always)]
    fn exchanged(self, line: usize) -> Self {
        if line == T::lines() {
            return Twofold {
                low: self.high,
                high: self.low,
            };
        }
        Twofold {
            low: self.low.exchanged(line),
            high: self.high.exchanged(line),
        }
    }

    #[inline(always)]
    fn form(self) -> Self {
        let low = self.low.form();
        Twofold {
            low,
            high: low.xor(self.high.form()),
        }
    }

    #[inline(always)]
    fn weight_with(self, scale: &Scale, more: usize) -> u32 {
        let low = self.low.weight_with(scale, more);
        low.wrapping_add(self.high.weight_with(scale, more.wrapping_add(1)))
    }

    #[inline(always)]
    fn hash(self, salt: u64) -> u64 {
        self.high.hash(self.low.hash(salt))
    }

    #[inline(always)]
    fn is(self, other: Self) -> bool {
        self.low.is(other.low) && self.high.is(other.high)
    }

    fn bit(self, word: usize) -> bool {
        if has(word, T::lines()) {
            return self.high.bit(word);
        }
        self.low.bit(word)
    }

    fn with(self, word: usize) -> Self {
        if has(word, T::lines()) {
            return Twofold {
                low: self.low,
                high: self.high.with(word),
            };
        }
        Twofold {
            low: self.low.with(word),
            high: self.high,
        }
    }

    #[inline(always)]
    fn without_constant(self) -> Self {
        Twofold {
            low: self.low.without_constant(),
            high: self.high,
        }
    }

    #[inline(always)]
    fn products(self) -> Self {
        Twofold {
            low: self.low.products(),
            high: self.high.without_constant(),
        }
    }

    #[inline(always)]
    fn first(self) -> Option<usize> {
        if let Some(word) = self.low.first() {
            return Some(word);
        }
        let word = self.high.first()?;
        Some(word | 1 << T::lines().min(PLACES))
    }
}
