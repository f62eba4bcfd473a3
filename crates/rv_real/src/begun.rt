ghost use Rattle.std.specs.Prelude.{◌≡◌, ◌≤◌, ◌<◌, ◌^◌, [], true, drop, length};
ghost use Rattle.rv_text.specs.Tokens.{tokens_of};
ghost use Rattle.rv_reader.specs.Gives.{StepGives};
ghost use Rattle.rv_gate.specs.Circuit.{IsCascade};
ghost use Rattle.rv_gate.specs.Gate.{FitsIn};
ghost use Rattle.rv_real.specs.Rules.{in_order};
ghost use Rattle.rv_real.specs.Body.{with_operand};
ghost use Rattle.rv_real.specs.inside.BodySteps.{with_gate};
ghost use Rattle.rv_real.specs.inside.Operands.{GivesOperands};

use crate::code::TOO_MANY_GATES;
use crate::operands::{Operands, read_operands};
use crate::places::Places;
use rv_gate::{Circuit, Gate, PushFault};
use rv_reader::Stop;
use std::marker::Model;

/// The circuit of a text whose header was read: the gates so far, and where its lines are found by their names.
#[derive(Drop)]
pub struct Begun {
    circuit: Circuit,
    places: Places,
}

impl Model for Begun {
    ghost use Rattle.rv_gate.specs.Circuit.{Cascade};
    ghost use Rattle.rv_real.specs.inside.Places.{ArePlaces};

    ghost Value = { Cascade };

    ghost view = { λ b. b.circuit };

    ghost invariant = { λ b. ArePlaces b.circuit.names b.places };
}

impl Begun {
    pub(crate) fn new(circuit: Circuit) -> Begun
        ensures { result ≡ circuit }
    {
        let places = Places::of(circuit.names());
        Begun { circuit, places }
    }

    /// For proofs: recalls what every circuit keeps. Does nothing when it runs.
    pub(crate) fn recall_invariant(&self)
        ensures { IsCascade self.now }
    {
        self.circuit.recall_invariant();
    }

    /// The operands from a place on, of which so many are controls.
    pub(crate) fn read_operands(
        &self,
        controls: usize,
        line: &[u8],
        from: usize,
    ) -> Result<Operands, Stop>
        requires from { from ≤ length line.now }
        requires len { length line.now < 2 ^ 31 }
        ensures { GivesOperands (length self.now.names) controls result
            (in_order (with_operand self.now.names controls) [] (tokens_of true [] (drop from line.now))) }
    {
        read_operands(self.circuit.names(), &self.places, controls, line, from)
    }

    /// One more gate.
    pub(crate) fn push(&mut self, gate: Gate) -> Result<(), Stop>
        requires { FitsIn gate (length self.old.names) }
        ensures { StepGives result self.new (with_gate self.old gate) }
    {
        self.circuit.recall_invariant();
        match self.circuit.push(gate) {
            Ok(()) => Ok(()),
            Err(PushFault::TooManyGates) => Err(Stop::Fault(TOO_MANY_GATES)),
            Err(PushFault::Mem) => Err(Stop::Mem),
        }
    }

    pub(crate) fn into_circuit(self) -> Circuit
        ensures { result ≡ self }
    {
        self.circuit
    }
}
