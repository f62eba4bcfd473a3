ghost use Rattle.std.specs.Prelude.{◌≡◌, ◌^◌, ◌*◌, ◌+◌, ◌≤◌, ◌<◌, ◌+ℤ◌, ◌-ℤ◌, neg_ℤ, unsigned_abs, IfSome, IsTrue};
ghost use Rattle.rv_net.specs.Cyclotomic.{negated, nought, plus, times_w, times_w_power, unity};
ghost use Rattle.rv_check.specs.Check.{are_same};
ghost use Rattle.rv_check.specs.Reduced.{half, is_even, is_large, is_large_number, is_multiple, quotient};
ghost use Rattle.rv_check.specs.inside.Small.{AreSmall, IsSmall};

use crate::short::{MOST_SHORT, Short};
use std::marker::Model;

/// The greatest absolute value of the integers of a coefficient.
pub const MOST_COEFFICIENT: u128 = 1 << 100;

// An exact coefficient: a + b w + c w^2 + d w^3, with w the eighth root of one.
#[derive(Clone, Copy)]
pub(crate) struct Coefficient {
    a: i128,
    b: i128,
    c: i128,
    d: i128,
}

impl Model for Coefficient {
    ghost use Rattle.rv_net.specs.Cyclotomic.{Cyclotomic};

    ghost Value = { Cyclotomic };

    ghost view = { λ z. record { a = z.a; b = z.b; c = z.c; d = z.d } };

    ghost inverse = { λ u. record { a = u.a; b = u.b; c = u.c; d = u.d } };
}

fn sum(x: i128, y: i128) -> i128
    requires left { IsSmall (2 ^ 120) x }
    requires right { IsSmall (2 ^ 120) y }
    ensures { result ≡ x +ℤ y }
{
    x + y
}

fn half_sum(x: i128, y: i128) -> i128
    requires left { IsSmall (2 ^ 120) x }
    requires right { IsSmall (2 ^ 120) y }
    ensures { result ≡ half (x +ℤ y) }
{
    (x + y) / 2
}

fn half_difference(x: i128, y: i128) -> i128
    requires left { IsSmall (2 ^ 120) x }
    requires right { IsSmall (2 ^ 120) y }
    ensures { result ≡ half (x -ℤ y) }
{
    (x - y) / 2
}

fn is_even(z: i128) -> bool
    ensures { result ≡ is_even z }
{
    z.unsigned_abs() % 2 == 0
}

fn is_large(z: i128) -> bool
    ensures { result ≡ is_large_number z }
{
    z.unsigned_abs() > MOST_COEFFICIENT
}

// The same number in 64 bits, if it is small.
fn narrowed(z: i128) -> Option<i64>
    ensures { IfSome result (λ y. (y ≡ z) × IsSmall (2 ^ 55) y) }
{
    if z.unsigned_abs() <= u128::from(MOST_SHORT) {
        Some(z as i64)
    } else {
        None
    }
}

impl Coefficient {
    #[tactic(auto, unfolding(rv_net::specs::Cyclotomic::nought))]
    pub(crate) fn zero() -> Coefficient
        ensures { result ≡ nought }
    {
        Coefficient {
            a: 0,
            b: 0,
            c: 0,
            d: 0,
        }
    }

    #[tactic(auto, unfolding(rv_net::specs::Cyclotomic::unity))]
    pub(crate) fn one() -> Coefficient
        ensures { result ≡ unity }
    {
        Coefficient {
            a: 1,
            b: 0,
            c: 0,
            d: 0,
        }
    }

    pub(crate) fn plus(self, other: Coefficient) -> Coefficient
        requires left { AreSmall (2 ^ 120) self }
        requires right { AreSmall (2 ^ 120) other }
        ensures { result ≡ plus self other }
    {
        Coefficient {
            a: sum(self.a, other.a),
            b: sum(self.b, other.b),
            c: sum(self.c, other.c),
            d: sum(self.d, other.d),
        }
    }

    pub(crate) fn negated(self) -> Coefficient
        requires { AreSmall (2 ^ 120) self }
        ensures { result ≡ negated self }
    {
        Coefficient {
            a: -self.a,
            b: -self.b,
            c: -self.c,
            d: -self.d,
        }
    }

    // Times w.
    #[inline(always)]
    fn by_w(self) -> Coefficient
        requires { AreSmall (2 ^ 120) self }
        ensures value { result ≡ times_w self }
        ensures small { AreSmall (2 ^ 120) result }
    {
        Coefficient {
            a: -self.d,
            b: self.a,
            c: self.b,
            d: self.c,
        }
    }

    // Times this power of w. Where the power is known, what is negated twice is not negated at all.
    #[tactic(auto, unfolding(rv_net::specs::Cyclotomic::times_w_power))]
    #[inline(always)]
    pub(crate) fn turned(self, power: u8) -> Coefficient
        requires small { AreSmall (2 ^ 120) self }
        requires few { power < 8 }
        ensures { result ≡ times_w_power power self }
    {
        match power {
            0 => self,
            1 => self.by_w(),
            2 => self.by_w().by_w(),
            3 => self.by_w().by_w().by_w(),
            4 => self.by_w().by_w().by_w().by_w(),
            5 => self.by_w().by_w().by_w().by_w().by_w(),
            6 => self.by_w().by_w().by_w().by_w().by_w().by_w(),
            _ => self.by_w().by_w().by_w().by_w().by_w().by_w().by_w(),
        }
    }

    pub(crate) fn is_same(self, other: Coefficient) -> bool
        ensures { result ≡ are_same self other }
    {
        self.a == other.a && self.b == other.b && self.c == other.c && self.d == other.d
    }

    // Whether it is a multiple of the root of two.
    pub(crate) fn is_multiple(self) -> bool
        requires { AreSmall (2 ^ 120) self }
        ensures { result ≡ is_multiple self }
    {
        is_even(sum(self.a, self.c)) && is_even(sum(self.b, self.d))
    }

    // Half of its product with the root of two.
    pub(crate) fn quotient(self) -> Coefficient
        requires { AreSmall (2 ^ 120) self }
        ensures { result ≡ quotient self }
    {
        Coefficient {
            a: half_difference(self.b, self.d),
            b: half_sum(self.a, self.c),
            c: half_sum(self.b, self.d),
            d: half_difference(self.c, self.a),
        }
    }

    // Whether one of its integers is beyond the limit.
    pub(crate) fn is_large(self) -> bool
        ensures { result ≡ is_large self }
    {
        is_large(self.a) || is_large(self.b) || is_large(self.c) || is_large(self.d)
    }
    // The same in 64 bits, if its integers are small.
    pub(crate) fn shortened(self) -> Option<Short>
        ensures { IfSome result (λ short. (short ≡ self) × AreSmall (2 ^ 55) short) }
    {
        Some(Short {
            a: narrowed(self.a)?,
            b: narrowed(self.b)?,
            c: narrowed(self.c)?,
            d: narrowed(self.d)?,
        })
    }

    pub(crate) fn widened(short: Short) -> Coefficient
        ensures { result ≡ short }
    {
        Coefficient {
            a: i128::from(short.a),
            b: i128::from(short.b),
            c: i128::from(short.c),
            d: i128::from(short.d),
        }
    }
}
