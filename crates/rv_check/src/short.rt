ghost use Rattle.std.specs.Prelude.{◌≡◌, ◌^◌, ◌<◌, ◌≤◌, ◌+ℤ◌, ◌-ℤ◌, IsTrue};
ghost use Rattle.std.specs.Int.{int_shr};
ghost use Rattle.rv_net.specs.Cyclotomic.{nought, plus, times_w, times_w_power};
ghost use Rattle.rv_check.specs.Reduced.{half, is_even, is_multiple, quotient};
ghost use Rattle.rv_check.specs.inside.Dense.{bits_in, halved_by, minus};
ghost use Rattle.rv_check.specs.inside.Small.{AreSmall, IsSmall};

use std::marker::Model;

// The greatest absolute value of the integers of a coefficient that is taken over: 64 bits hold it, also after a few
// sums.
pub(crate) const MOST_SHORT: u64 = 1 << 55;

// A coefficient of small integers: a + b w + c w^2 + d w^3, with w the eighth root of one.
#[derive(Clone, Copy)]
pub(crate) struct Short {
    pub a: i64,
    pub b: i64,
    pub c: i64,
    pub d: i64,
}

impl Model for Short {
    ghost use Rattle.rv_net.specs.Cyclotomic.{Cyclotomic};

    ghost Value = { Cyclotomic };

    ghost view = { λ z. record { a = z.a; b = z.b; c = z.c; d = z.d } };

    ghost inverse = { λ u. record { a = u.a; b = u.b; c = u.c; d = u.d } };
}

#[inline(always)]
fn sum(x: i64, y: i64) -> i64
    requires left { IsSmall (2 ^ 61) x }
    requires right { IsSmall (2 ^ 61) y }
    ensures { result ≡ x +ℤ y }
{
    x + y
}

#[inline(always)]
fn difference(x: i64, y: i64) -> i64
    requires left { IsSmall (2 ^ 61) x }
    requires right { IsSmall (2 ^ 61) y }
    ensures { result ≡ x -ℤ y }
{
    x - y
}

#[inline(always)]
fn half_sum(x: i64, y: i64) -> i64
    requires left { IsSmall (2 ^ 61) x }
    requires right { IsSmall (2 ^ 61) y }
    ensures { result ≡ half (x +ℤ y) }
{
    (x + y) / 2
}

#[inline(always)]
fn half_difference(x: i64, y: i64) -> i64
    requires left { IsSmall (2 ^ 61) x }
    requires right { IsSmall (2 ^ 61) y }
    ensures { result ≡ half (x -ℤ y) }
{
    (x - y) / 2
}

#[inline(always)]
fn halved(z: i64, times: u32) -> i64
    requires { times < 64 }
    ensures { result ≡ int_shr z times }
{
    z >> times
}

#[inline(always)]
fn is_even(z: i64) -> bool
    ensures { result ≡ is_even z }
{
    z.unsigned_abs() % 2 == 0
}

impl Short {
    #[tactic(auto, unfolding(rv_net::specs::Cyclotomic::nought))]
    pub(crate) fn zero() -> Short
        ensures { result ≡ nought }
    {
        Short {
            a: 0,
            b: 0,
            c: 0,
            d: 0,
        }
    }

    #[inline(always)]
    pub(crate) fn plus(self, other: Short) -> Short
        requires left { AreSmall (2 ^ 61) self }
        requires right { AreSmall (2 ^ 61) other }
        ensures { result ≡ plus self other }
    {
        Short {
            a: sum(self.a, other.a),
            b: sum(self.b, other.b),
            c: sum(self.c, other.c),
            d: sum(self.d, other.d),
        }
    }

    #[inline(always)]
    pub(crate) fn minus(self, other: Short) -> Short
        requires left { AreSmall (2 ^ 61) self }
        requires right { AreSmall (2 ^ 61) other }
        ensures { result ≡ minus self other }
    {
        Short {
            a: difference(self.a, other.a),
            b: difference(self.b, other.b),
            c: difference(self.c, other.c),
            d: difference(self.d, other.d),
        }
    }

    // Times w.
    #[inline(always)]
    fn by_w(self) -> Short
        requires { AreSmall (2 ^ 61) self }
        ensures value { result ≡ times_w self }
        ensures small { AreSmall (2 ^ 61) result }
    {
        Short {
            a: -self.d,
            b: self.a,
            c: self.b,
            d: self.c,
        }
    }

    // Times this power of w. Where the power is known, what is negated twice is not negated at all.
    #[tactic(auto, unfolding(rv_net::specs::Cyclotomic::times_w_power))]
    #[inline(always)]
    pub(crate) fn turned(self, power: u8) -> Short
        requires small { AreSmall (2 ^ 61) self }
        requires few { power < 8 }
        ensures { result ≡ times_w_power power self }
    {
        match power {
            0 => self,
            1 => self.by_w(),
            2 => self.by_w().by_w(),
            3 => self.by_w().by_w().by_w(),
            4 => self.by_w().by_w().by_w().by_w(),
            5 => self.by_w().by_w().by_w().by_w().by_w(),
            6 => self.by_w().by_w().by_w().by_w().by_w().by_w(),
            _ => self.by_w().by_w().by_w().by_w().by_w().by_w().by_w(),
        }
    }

    #[inline(always)]
    pub(crate) fn is_zero(self) -> bool {
        self.a == 0 && self.b == 0 && self.c == 0 && self.d == 0
    }

    // Whether it is a multiple of the root of two.
    #[inline(always)]
    pub(crate) fn is_multiple(self) -> bool
        requires { AreSmall (2 ^ 61) self }
        ensures { result ≡ is_multiple self }
    {
        is_even(sum(self.a, self.c)) && is_even(sum(self.b, self.d))
    }

    // Half of its product with the root of two.
    #[inline(always)]
    pub(crate) fn quotient(self) -> Short
        requires { AreSmall (2 ^ 61) self }
        ensures { result ≡ quotient self }
    {
        Short {
            a: half_difference(self.b, self.d),
            b: half_sum(self.a, self.c),
            c: half_sum(self.b, self.d),
            d: half_difference(self.c, self.a),
        }
    }

    // The bits that are 1 in the absolute value of one of its integers.
    #[inline(always)]
    pub(crate) fn bits(self) -> u64
        ensures { result ≡ bits_in self }
    {
        (self.a.unsigned_abs() | self.b.unsigned_abs())
            | (self.c.unsigned_abs() | self.d.unsigned_abs())
    }

    // Divided by two so many times.
    #[inline(always)]
    pub(crate) fn halved(self, times: u32) -> Short
        requires { times < 64 }
        ensures { result ≡ halved_by times self }
    {
        Short {
            a: halved(self.a, times),
            b: halved(self.b, times),
            c: halved(self.c, times),
            d: halved(self.d, times),
        }
    }
}
