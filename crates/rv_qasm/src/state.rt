ghost use Rattle.std.specs.Prelude.{◌≡◌, ◌∷◌, ◌≤◌, OnOk, Some, drop, slice_get};
ghost use Rattle.rv_reader.specs.Gives.{StepGives};
ghost use Rattle.rv_qasm.specs.Reading.{at_end, listing_of};
ghost use Rattle.rv_qasm.specs.Rules.{body_read, nothing_so_far, qubit_count, statement_read, unended_code};
ghost use Rattle.rv_qasm.specs.inside.Ends.{listed};

use crate::code::{NO_HEADER, NO_QUANTUM_REGISTER, NOT_SUPPORTED, UNENDED_STATEMENT, WRONG_SYNTAX};
use crate::gates::begins_unsupported;
use crate::kind::{Kind, kind_of};
use crate::operands::has_unclosed;
use crate::program::Program;
use crate::registers::Registers;
use crate::tokens::Tokens;
use rv_gate::LineSet;
use rv_net::Net;
use rv_reader::Stop;
use rv_text::TextFault;
use std::alloc::Global;
use std::marker::Model;

/// What statements gave so far.
///
/// After a stop it is not used again.
#[derive(Drop)]
pub(crate) struct State {
    pub(crate) alloc: Global,
    pub(crate) has_version: bool,
    pub(crate) quantum: Registers,
    pub(crate) classical: Registers,
    // How many qubits there are.
    pub(crate) count: u8,
    pub(crate) measured: LineSet,
    pub(crate) measurements: u32,
    // On one line where there is no qubit yet.
    pub(crate) net: Net,
}

impl Model for State {
    ghost use Rattle.rv_qasm.specs.Rules.{SoFar};
    ghost use Rattle.rv_qasm.specs.inside.Views.{IsCounted};

    ghost Value = { SoFar };

    ghost view = { λ s. record {
      has_version = s.has_version;
      quantum = s.quantum;
      classical = s.classical;
      measured = s.measured;
      measurements = s.measurements;
      ops = s.net.ops;
    } };

    ghost invariant = { λ s. IsCounted s.count s.net.lines s.quantum };
}

impl State {
    /// No statements. Takes no memory.
    pub(crate) fn new(alloc: Global) -> State
        ensures { result ≡ nothing_so_far }
    {
        State {
            alloc,
            has_version: false,
            quantum: Registers::new(alloc),
            classical: Registers::new(alloc),
            count: 0,
            measured: 0,
            measurements: 0,
            net: Net::new(alloc, 1),
        }
    }

    /// Reads a statement. A fault is the first rule that it breaks.
    #[tactic(auto, unfolding(crate::specs::Rules::statement_read))]
    pub(crate) fn read(&mut self, tokens: &Tokens) -> Result<(), Stop>
        ensures { StepGives result self.new (statement_read self.old tokens.now) }
    {
        if has_unclosed(tokens) {
            return Err(Stop::Fault(WRONG_SYNTAX));
        }
        if self.has_version {
            self.body_read(tokens)
        } else {
            self.version_read(tokens)
        }
    }

    fn body_read(&mut self, tokens: &Tokens) -> Result<(), Stop>
        ensures { StepGives result self.new (body_read self.old tokens.now) }
    {
        if tokens.len() == 0 {
            return Err(Stop::Fault(WRONG_SYNTAX));
        }
        self.named_read(tokens.get(0), tokens)
    }

    // A statement by its first token.
    fn named_read(&mut self, name: &[u8], tokens: &Tokens) -> Result<(), Stop>
        requires { slice_get tokens.now 0 ≡ Some name.now }
        ensures { StepGives result self.new (body_read self.old (name.now ∷ drop 1 tokens.now)) }
    {
        match kind_of(name) {
            Kind::Unsupported => Err(Stop::Fault(NOT_SUPPORTED)),
            Kind::Include => self.include_read(tokens),
            Kind::Qreg => self.qreg_read(tokens),
            Kind::Creg => self.creg_read(tokens),
            Kind::Barrier => self.barrier_read(tokens),
            Kind::Id => self.id_read(tokens),
            Kind::Measure => self.measure_read(tokens),
            Kind::Gate => self.gate_read(name, tokens),
        }
    }

    /// The code of a last statement, which lacks its `;`.
    pub(crate) fn unended_code(tokens: &Tokens) -> u8
        ensures { result ≡ unended_code tokens.now }
    {
        if has_unclosed(tokens) {
            return WRONG_SYNTAX;
        }
        if tokens.len() > 0 && begins_unsupported(tokens.get(0)) {
            return NOT_SUPPORTED;
        }
        UNENDED_STATEMENT
    }

    /// The first fault at the end of a text with so many lines, if the statements are no program.
    pub(crate) fn check_end(&self, lines: u32) -> Result<(), TextFault>
        ensures gives { at_end lines self.now ≡ listed result self.now }
        ensures some { OnOk result (1 ≤ qubit_count self.now) }
    {
        if !self.has_version {
            return Err(TextFault {
                line: lines,
                code: NO_HEADER,
            });
        }
        if self.count == 0 {
            return Err(TextFault {
                line: lines,
                code: NO_QUANTUM_REGISTER,
            });
        }
        Ok(())
    }

    /// The program of all statements.
    pub(crate) fn into_program(self) -> Program
        requires { 1 ≤ qubit_count self }
        ensures { result ≡ listing_of self }
    {
        Program::new(self.net, self.quantum, self.measurements)
    }
}
