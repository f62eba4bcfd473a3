// The text of an angle, token by token.
ghost use Rattle.std.specs.Prelude.{◌≡◌, ◌≤◌, ◌<◌, ℕ, List, IfSome};
ghost use Rattle.rv_angles.specs.Angle.{angle_step, begun, eighths_of, eighths_of_pi, eighths_of_radians, IsRead};
ghost use Rattle.rv_angles.specs.Angle.{turned, with_divisor, with_factor, with_number, with_operator, with_pi};
ghost use Rattle.rv_angles.specs.declared.angle.TheConstants.{MOST_DIVISOR};
ghost use Rattle.rv_angles.specs.declared.angle.Next.{Next};
ghost use Rattle.rv_angles.specs.declared.decimal.TheConstants.{MOST_UNITS};

use crate::decimal::{MOST_UNITS, ONE, is_number, units_of};

/// No angle is divided by more.
pub const MOST_DIVISOR: u64 = 1000;

/// How far a number may be away from a multiple of pi/4, in 10^-15.
pub const NEAR: u64 = 1000000;

/// The eighth of a turn, pi/4, in 10^-15.
pub const EIGHTH: u64 = 785398163397448;

/// What may come next in an angle.
#[derive(Clone, Copy)]
pub enum Next {
    /// A sign, a number or `pi`.
    Factor,
    /// A whole number.
    Divisor,
    /// `*`, `/` or the end.
    Operator,
    /// Nothing more: it is no angle.
    Never,
}

/// An angle that is read token by token: a number, `pi`, or their product, over a whole number, with a sign.
///
/// A number without `pi` stands for the multiple of pi/4 from which it is no further away than 10^-9.
#[derive(Clone, Copy)]
pub struct Angle {
    pub(crate) is_negative: bool,
    pub(crate) has_pi: bool,
    pub(crate) has_number: bool,
    /// In 10^-12.
    pub(crate) units: u64,
    pub(crate) divisor: u64,
    pub(crate) next: Next,
}

// An angle of pi, if it is a multiple of pi/4: how often.
fn eighths_of_pi(units: u64, divisor: u64) -> Option<u64>
    requires units { units ≤ MOST_UNITS }
    requires some { 1 ≤ divisor }
    requires few { divisor ≤ MOST_DIVISOR }
    ensures { result ≡ eighths_of_pi units divisor }
{
    let whole = divisor * ONE;
    if 4 * units % whole == 0 {
        return Some(4 * units / whole);
    }
    None
}

// An angle in radians, if it is near a multiple of pi/4.
fn eighths_of_radians(units: u64) -> Option<u64>
    requires { units ≤ MOST_UNITS }
    ensures { result ≡ eighths_of_radians units }
{
    let eighths = (units * 1000 + EIGHTH / 2) / EIGHTH;
    if (units * 1000).abs_diff(eighths * EIGHTH) <= NEAR {
        return Some(eighths);
    }
    None
}

impl Angle {
    /// Nothing is read.
    pub fn begun() -> Angle
        ensures value { result ≡ begun }
        ensures read { IsRead result }
    {
        Angle {
            is_negative: false,
            has_pi: false,
            has_number: false,
            units: ONE,
            divisor: 1,
            next: Next::Factor,
        }
    }

    fn refused(self) -> Angle
        ensures { result ≡ record self { next = Next.Never } }
    {
        Angle {
            next: Next::Never,
            ..self
        }
    }

    fn with_pi(self) -> Angle
        ensures { result ≡ with_pi self }
    {
        if self.has_pi {
            return self.refused();
        }
        Angle {
            has_pi: true,
            next: Next::Operator,
            ..self
        }
    }

    fn with_number(self, token: &[u8]) -> Angle
        requires { self.units ≤ MOST_UNITS }
        ensures value { result ≡ with_number self token.now }
        ensures most { result.units ≤ MOST_UNITS }
    {
        if self.has_number || !is_number(token) {
            return self.refused();
        }
        Angle {
            has_number: true,
            units: units_of(token),
            next: Next::Operator,
            ..self
        }
    }

    fn with_factor(self, token: &[u8]) -> Angle
        requires { self.units ≤ MOST_UNITS }
        ensures value { result ≡ with_factor self token.now }
        ensures most { result.units ≤ MOST_UNITS }
    {
        if token == b"-".as_slice() {
            return Angle {
                is_negative: !self.is_negative,
                ..self
            };
        }
        if token == b"pi".as_slice() {
            return self.with_pi();
        }
        self.with_number(token)
    }

    fn with_divisor(self, token: &[u8]) -> Angle
        ensures value { result ≡ with_divisor self token.now }
        ensures few { self.divisor ≤ MOST_DIVISOR → 1 ≤ self.divisor
            → (1 ≤ result.divisor) × (result.divisor ≤ MOST_DIVISOR) }
    {
        let whole = units_of(token) / ONE;
        if self.divisor != 1 || !is_number(token) || units_of(token) % ONE != 0 || whole == 0 {
            return self.refused();
        }
        Angle {
            divisor: whole,
            next: Next::Operator,
            ..self
        }
    }

    fn with_operator(self, token: &[u8]) -> Angle
        ensures { result ≡ with_operator self token.now }
    {
        if token == b"*".as_slice() {
            return Angle {
                next: Next::Factor,
                ..self
            };
        }
        if token == b"/".as_slice() {
            return Angle {
                next: Next::Divisor,
                ..self
            };
        }
        self.refused()
    }

    /// With one token more.
    pub fn step(self, token: &[u8]) -> Angle
        requires { IsRead self }
        ensures value { result ≡ angle_step self token.now }
        ensures read { IsRead result }
    {
        match self.next {
            Next::Factor => self.with_factor(token),
            Next::Divisor => self.with_divisor(token),
            Next::Operator => self.with_operator(token),
            Next::Never => self,
        }
    }

    // How many times pi/4 it is, but for its sign.
    fn size(self) -> Option<u64>
        requires { IsRead self }
        ensures { result ≡ eighths_of self }
    {
        if !matches!(self.next, Next::Operator) {
            return None;
        }
        if self.has_pi {
            return eighths_of_pi(self.units, self.divisor);
        }
        if self.divisor != 1 {
            return None;
        }
        eighths_of_radians(self.units)
    }

    /// How many times pi/4 it is, modulo 4 pi, if it is such a multiple.
    pub fn eighths(self) -> Option<u8>
        requires { IsRead self }
        ensures value { result ≡ turned self }
        ensures most { IfSome result (λ k. k < 16) }
    {
        match self.size() {
            Some(size) if self.is_negative => Some(((16 - size % 16) % 16) as u8),
            Some(size) => Some((size % 16) as u8),
            None => None,
        }
    }
}
