ghost use Rattle.std.specs.Prelude.{◌<◌};

/// Numbers that look random, the same ones from the same seed.
#[derive(Drop)]
pub struct Random {
    state: u64,
}

impl Random {
    /// The numbers of a seed.
    pub fn new(seed: u16) -> Random {
        let odd = u64::from(seed).wrapping_mul(2) | 1;
        Random {
            state: odd.wrapping_mul(0x9E37_79B9_7F4A_7C15),
        }
    }

    /// The next number.
    pub fn next(&mut self) -> u64 {
        let mut x = self.state;
        x ^= x << 13;
        x ^= x >> 7;
        x ^= x << 17;
        self.state = x;
        x.wrapping_mul(0x2545_F491_4F6C_DD1D) >> 11
    }

    /// A number below a bound.
    pub fn below(&mut self, bound: usize) -> usize
        requires { 0 < bound }
        ensures { result < bound }
    {
        (self.next() % bound as u64) as usize
    }
}
