ghost use Rattle.std.specs.Prelude.{◌≡◌, IfSome};
ghost use Rattle.std.specs.Prelude.{◌<◌};
ghost use Rattle.rv_net.specs.Cyclotomic.{plus, times_w_power, unity};
ghost use Rattle.rv_ends.specs.Ends.{amount};

/// A sum a + b w + c w^2 + d w^3, where w is the eighth root of one.
#[derive(Clone, Copy, Debug, PartialEq, Eq)]
pub struct Amount {
    pub a: i64,
    pub b: i64,
    pub c: i64,
    pub d: i64,
}

impl Amount {
    /// The sum of two. `None` where it is too large.
    pub fn plus(self, other: Amount) -> Option<Amount>
        ensures { IfSome result (λ sum. amount sum ≡ plus (amount self) (amount other)) }
    {
        let a = self.a.checked_add(other.a)?;
        let b = self.b.checked_add(other.b)?;
        let c = self.c.checked_add(other.c)?;
        let d = self.d.checked_add(other.d)?;
        Some(Amount { a, b, c, d })
    }
}

// The powers of w.
const TURNS: [Amount; 8] = [
    Amount {
        a: 1,
        b: 0,
        c: 0,
        d: 0,
    },
    Amount {
        a: 0,
        b: 1,
        c: 0,
        d: 0,
    },
    Amount {
        a: 0,
        b: 0,
        c: 1,
        d: 0,
    },
    Amount {
        a: 0,
        b: 0,
        c: 0,
        d: 1,
    },
    Amount {
        a: -1,
        b: 0,
        c: 0,
        d: 0,
    },
    Amount {
        a: 0,
        b: -1,
        c: 0,
        d: 0,
    },
    Amount {
        a: 0,
        b: 0,
        c: -1,
        d: 0,
    },
    Amount {
        a: 0,
        b: 0,
        c: 0,
        d: -1,
    },
];

// A power of w.
pub(crate) fn turn_of(turns: u8) -> Amount
    requires { turns < 8 }
    ensures { amount result ≡ times_w_power turns unity }
{
    TURNS[usize::from(turns)]
}
