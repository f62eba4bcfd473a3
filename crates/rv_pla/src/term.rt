use crate::cube::Cube;
use std::marker::Model;

/// A term: a cube with the outputs at which it has a `1`, and those at which it has a `0` or a `-`.
#[derive(Clone, Copy, Debug)]
pub struct Term {
    /// The line of the text on which it stands.
    pub(crate) line: u32,
    pub(crate) cube: Cube,
    pub(crate) zero_outs: u16,
    pub(crate) dash_outs: u16,
}

impl Model for Term {
    ghost use Rattle.rv_pla.specs.Pla.{Term as TheTerm};

    ghost Value = { TheTerm };

    ghost view = { λ t. record { line = t.line; cube = t.cube; zero_outs = t.zero_outs; dash_outs = t.dash_outs } };

    ghost inverse = { λ t. record { line = t.line; cube = t.cube; zero_outs = t.zero_outs; dash_outs = t.dash_outs } };
}
