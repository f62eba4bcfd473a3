ghost use Rattle.std.specs.Prelude.{◌≡◌, ◌≤◌, ◌<◌, ◌↔◌, ℕ, List, [], Result, Some, length, option_map, slice_get};
ghost use Rattle.rv_gate.specs.declared.word.TheConstants.{MOST_LINES};
ghost use Rattle.rv_net.specs.Denotes.{IsProduct};
ghost use Rattle.rv_qasm.specs.Registers.{size_of_all};
ghost use Rattle.rv_qasm.specs.Reading.{Listing, qasm_of};
ghost use Rattle.rv_qasm.specs.Denoted.{IsDenoted};
ghost use Rattle.rv_qasm.specs.Tokens.{TokenOnLine};
ghost use Rattle.rv_qasm.specs.Statements.{Statement, ended_statements, unended_tokens};
ghost use Rattle.rv_qasm.specs.Cut.{AreCut};
ghost use Rattle.rv_qasm.specs.declared.fault.QasmFault.{QasmFault};

use crate::registers::Registers;
use rv_net::Net;
use std::marker::Model;

/// The greatest count of measured qubits: beyond it, the count stands still.
pub const MOST_MEASUREMENTS: u32 = u32::MAX;

/// What a text denotes: a network, whose lines are the qubits of its quantum registers in the order of declaration.
#[derive(Drop)]
pub struct Program {
    net: Net,
    registers: Registers,
    measurements: u32,
}

impl Model for Program {
    ghost use Rattle.std.specs.Prelude.{◌≤◌, length};
    ghost use Rattle.rv_gate.specs.declared.word.TheConstants.{MOST_LINES};
    ghost use Rattle.rv_qasm.specs.Reading.{Listing};
    ghost use Rattle.rv_qasm.specs.Registers.{size_of_all};

    ghost Value = { Listing };

    ghost view = { λ p. record { net = p.net; registers = p.registers; measurements = p.measurements } };

    ghost invariant = { λ p.
        record { few : length p.registers ≤ MOST_LINES; small : size_of_all p.registers ≤ MOST_LINES } };
}

impl Program {
    pub(crate) fn new(net: Net, registers: Registers, measurements: u32) -> Program
        requires few { length registers ≤ MOST_LINES }
        requires small { size_of_all registers ≤ MOST_LINES }
        ensures { result ≡ record { net = net; registers = registers; measurements = measurements } }
    {
        Program {
            net,
            registers,
            measurements,
        }
    }

    /// The network of the operations.
    pub fn net(&self) -> &Net
        ensures value { result.now ≡ self.now.net }

        // Cut at any place, its amplitudes multiply as matrices do.
        ensures product { IsProduct self.now.net.ops }

        // A text gives a network if each of its statements breaks no rule after those before it, and else the
        // fault of the first that breaks one.
        ensures denoted { (text : List ℕ) (answer : Result Listing QasmFault)
            → IsDenoted text answer ↔ (qasm_of text ≡ answer) }

        // Its statements are those that `;` ends.
        ensures cut { (tokens : List TokenOnLine) (statements : List Statement) (left : List TokenOnLine)
            → AreCut tokens statements left
            ↔ ((statements ≡ ended_statements [] tokens) × (left ≡ unended_tokens [] tokens)) }
    {
        &self.net
    }

    /// How many quantum registers there are.
    pub fn register_count(&self) -> u8
        ensures { result ≡ length self.now.registers }
    {
        self.registers.len() as u8
    }

    /// The name of a quantum register.
    pub fn register_name(&self, index: u8) -> &[u8]
        requires { index < length self.now.registers }
        ensures { option_map (λ r. r.name) (slice_get self.now.registers index) ≡ Some result.now }
    {
        self.registers.name(usize::from(index))
    }

    /// How many qubits a quantum register has.
    pub fn register_size(&self, index: u8) -> u8
        requires { index < length self.now.registers }
        ensures { option_map (λ r. r.size) (slice_get self.now.registers index) ≡ Some result }
    {
        self.registers.size(usize::from(index)) as u8
    }

    /// How many qubits were measured, each counted each time, up to [`MOST_MEASUREMENTS`].
    pub fn measurements(&self) -> u32
        ensures { result ≡ self.now.measurements }
    {
        self.measurements
    }
}
