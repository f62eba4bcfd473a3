ghost use Rattle.std.specs.Prelude.{◌≡◌, ◌↔◌, length, IsTrue};
ghost use Rattle.rv_angles.specs.Exact.{AreQubits};
ghost use Rattle.rv_angles.specs.Standard.{qubits_of};
ghost use Rattle.rv_import.specs.Calls.{qubits_in};
ghost use Rattle.rv_import.specs.Reading.{is_possible};

use rv_angles::{Gate, form_of};
use rv_net::Op;

/// One to three qubits, controls first.
#[derive(Clone, Copy)]
pub enum Qubits {
    One(u8),
    Two(u8, u8),
    Three(u8, u8, u8),
}

/// A gate on qubits.
#[derive(Clone, Copy)]
pub enum Call {
    /// One that a network has.
    Plain(Op),
    /// One that a standard defines by its matrix.
    Standard(Gate, Qubits),
}

impl Qubits {
    pub(crate) fn count(self) -> u8
        ensures { result ≡ length (qubits_in self) }
    {
        match self {
            Qubits::One(_) => 1,
            Qubits::Two(_, _) => 2,
            Qubits::Three(_, _, _) => 3,
        }
    }

    /// Whether they differ, and are below a number.
    pub(crate) fn are_apart(self, lines: u8) -> bool
        ensures { IsTrue result ↔ AreQubits lines (qubits_in self) }
    {
        match self {
            Qubits::One(a) => a < lines,
            Qubits::Two(a, b) => a < lines && b < lines && a != b,
            Qubits::Three(a, b, c) => {
                a < lines && b < lines && c < lines && a != b && a != c && b != c
            }
        }
    }
}

impl Call {
    /// Whether it has an exact form, and as many qubits as it is on.
    pub(crate) fn is_possible(self) -> bool
        ensures { result ≡ is_possible self }
    {
        match self {
            Call::Plain(_) => true,
            Call::Standard(gate, qubits) => {
                form_of(gate).is_some() && qubits.count() == qubits_of(gate)
            }
        }
    }
}

/// On how many qubits a gate is.
pub(crate) fn qubits_of(gate: Gate) -> u8
    ensures { result ≡ qubits_of gate }
{
    match gate {
        Gate::One(_) | Gate::Sx | Gate::Sxdg => 1,
        Gate::Controlled(_) | Gate::Cy | Gate::Ch => 2,
        Gate::Ccz => 3,
    }
}
