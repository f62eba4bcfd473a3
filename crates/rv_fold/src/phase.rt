ghost use Rattle.std.specs.Prelude.{◌≡◌};
ghost use Rattle.rv_fold.specs.Folded.{phase_gate};

use rv_net::Op;

/// An operation that multiplies by a power of the eighth root of one if its line has the bit 1.
#[derive(Clone, Copy)]
pub struct PhaseGate {
    pub line: u8,
    pub exponent: u8,
}

/// The phase gate that an operation is.
pub(crate) fn phase_gate(op: Op) -> Option<PhaseGate>
    ensures { result ≡ phase_gate op }
{
    match op {
        Op::T(line) => Some(PhaseGate { line, exponent: 1 }),
        Op::S(line) => Some(PhaseGate { line, exponent: 2 }),
        Op::Z(line) => Some(PhaseGate { line, exponent: 4 }),
        Op::Sdg(line) => Some(PhaseGate { line, exponent: 6 }),
        Op::Tdg(line) => Some(PhaseGate { line, exponent: 7 }),
        _ => None,
    }
}
