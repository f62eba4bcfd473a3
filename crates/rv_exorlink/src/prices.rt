// Prices as a walk looks at them. They decide which step is made, and any step is right: so nothing is proved of them.

use super::goal::{CUBE_WEIGHT, Goal};

// What a cube weighs beside its literals.
const ONE: i64 = CUBE_WEIGHT as i64;

/// How a walk looks at prices, and how many it has asked for.
#[derive(Clone, Copy)]
pub struct Prices {
    pub goal: Goal,
    /// By a cost: up to so many 1024ths of a price more or less. Less than 0: prices as they are.
    pub heat: i64,
    pub asked: u64,
    // the state of the random numbers
    state: u64,
}

impl Prices {
    /// Other random numbers for each seed.
    pub fn new(goal: Goal, seed: u16) -> Prices {
        Prices {
            goal,
            heat: 0,
            asked: 0,
            state: 0x1234_5678_9ABC_DEF1 ^ u64::from(seed) << 20,
        }
    }

    /// Whether cubes or gates count, and literals only then.
    pub fn counts(&self) -> bool {
        self.goal == Goal::Cubes || self.goal == Goal::Gates
    }

    /// Below what a price lets the list stay as light.
    pub fn limit(&self) -> i64 {
        if self.heat >= 0 && self.counts() {
            ONE / 2
        } else {
            0
        }
    }

    /// The limit for a cube. Where it `is_hot`, one in four may let the list grow by a cube.
    pub fn row_limit(&mut self, is_hot: bool) -> i64 {
        if is_hot && self.counts() && self.next_number() & 3 == 0 {
            return self.limit().wrapping_add(ONE);
        }
        self.limit()
    }

    /// So much work was done.
    pub fn ask(&mut self, count: u64) {
        self.asked = self.asked.wrapping_add(count);
    }

    /// Whether a list that is lighter by so much is a reason to go on.
    pub fn is_gain(&self, lighter: u64) -> bool {
        !self.counts() || lighter > CUBE_WEIGHT / 2
    }

    /// The next random number, below 2^32.
    pub fn next_number(&mut self) -> u32 {
        let mut x = self.state;
        x ^= x << 13;
        x ^= x >> 7;
        x ^= x << 17;
        self.state = x;
        (x >> 32 & 0xFFFF_FFFF) as u32
    }

    /// A price as it is looked at. By cubes or gates: without the literals, and a small number instead of them. By a
    /// cost: a part of it more or less.
    #[inline(always)]
    pub fn shaken(&mut self, price: i64) -> i64 {
        if self.heat < 0 {
            return price;
        }
        let number = i64::from(self.next_number() >> 16);
        if self.counts() {
            return (price.wrapping_add(ONE / 2) & 0i64.wrapping_sub(ONE)).wrapping_add(number);
        }
        let size = price.wrapping_abs();
        price.wrapping_add(
            size.wrapping_mul(self.heat)
                .wrapping_mul(number.wrapping_sub(32768))
                >> 25,
        )
    }
}
