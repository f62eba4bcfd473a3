// Numbers that look random, the same ones from the same seed.
#[derive(Clone, Copy)]
pub(crate) struct Random {
    state: u64,
}

impl Random {
    pub(crate) fn new(seed: u64) -> Random {
        Random {
            state: (seed.wrapping_mul(2) | 1).wrapping_mul(0x9E37_79B9_7F4A_7C15),
        }
    }

    pub(crate) fn next(&mut self) -> u64 {
        let mut x = self.state;
        x ^= x << 13;
        x ^= x >> 7;
        x ^= x << 17;
        self.state = x;
        x.wrapping_mul(0x2545_F491_4F6C_DD1D) >> 11
    }

    // A number below a bound; 0 below none.
    pub(crate) fn below(&mut self, bound: usize) -> usize {
        let number = self.next();
        if bound == 0 {
            return 0;
        }
        (number % bound as u64) as usize
    }

    // A price, up to so many thousandths more or less.
    pub(crate) fn shaken(&mut self, price: i64, thousandths: i64) -> i64 {
        let part = (self.next() % 2001) as i64;
        let change = part.wrapping_sub(1000).wrapping_mul(thousandths);
        let thousandth = price / 1000;
        price.wrapping_add(thousandth.wrapping_mul(change) / 1000)
    }
}
