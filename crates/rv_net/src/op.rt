ghost use Rattle.std.specs.Prelude.{◌↔◌, ◌<◌, ◌≢◌, IsTrue};
ghost use Rattle.rv_net.specs.Op.{OpFitsIn};

/// An operation of a network, on lines numbered from 0; controls come first.
///
/// With w the eighth root of one with w^4 = -1: `T` is diag(1, w), `S` diag(1, w^2), `Z` diag(1, -1), `Tdg` and `Sdg`
/// their inverses; `X` exchanges 0 and 1, `Y` takes 0 to w^2 times 1 and 1 to -w^2 times 0; the root of two times `H`
/// has the entries 1, 1, 1, -1; `Cz` multiplies by -1 where both bits are 1; the others move words. No phase is free.
#[derive(Clone, Copy, Debug, PartialEq, Eq)]
pub enum Op {
    X(u8),
    Y(u8),
    Z(u8),
    H(u8),
    S(u8),
    Sdg(u8),
    T(u8),
    Tdg(u8),
    Cx(u8, u8),
    Cz(u8, u8),
    Ccx(u8, u8, u8),
    Swap(u8, u8),
    Cswap(u8, u8, u8),
}

impl Op {
    /// Whether its lines differ, and are below a number.
    pub fn fits(self, lines: u8) -> bool
        ensures { IsTrue result ↔ OpFitsIn self lines }
    {
        match self {
            Op::X(q) => q < lines,
            Op::Y(q) => q < lines,
            Op::Z(q) => q < lines,
            Op::H(q) => q < lines,
            Op::S(q) => q < lines,
            Op::Sdg(q) => q < lines,
            Op::T(q) => q < lines,
            Op::Tdg(q) => q < lines,
            Op::Cx(a, b) => a < lines && b < lines && a != b,
            Op::Cz(a, b) => a < lines && b < lines && a != b,
            Op::Swap(a, b) => a < lines && b < lines && a != b,
            Op::Ccx(a, b, c) => are_apart(a, b, c, lines),
            Op::Cswap(c, a, b) => are_apart(c, a, b, lines),
        }
    }
}

fn are_apart(a: u8, b: u8, c: u8, lines: u8) -> bool
    ensures { IsTrue result ↔ ((a < lines) × (b < lines) × (c < lines) × (a ≢ b) × (a ≢ c) × (b ≢ c)) }
{
    a < lines && b < lines && c < lines && a != b && a != c && b != c
}
