// Statements, one after another.
ghost use Rattle.std.specs.Prelude.{◌≡◌, ◌≤◌, IfOk, IfSome};
ghost use Rattle.rv_gate.specs.declared.word.TheConstants.{MOST_LINES};
ghost use Rattle.rv_qasm.specs.Tokens.{is_identifier};
ghost use Rattle.rv_import.specs.Statement.{bytes_of, gate_call, token_at};
ghost use Rattle.rv_import.specs.Reading.{declared, is_declaration, is_library, is_version, kind_of, nothing_so_far};
ghost use Rattle.rv_import.specs.Reading.{qreg_read, read_as, read_if, size_of, statement_read, with_call};

use crate::call::Call;
use crate::lexer::begins_name;
use crate::register::{Register, register_of};
use crate::statement::{gate_call, token_at};
use rv_gate::MOST_LINES;
use rv_text::decimal_value;
use std::alloc::{AllocError, Global};
use std::marker::Model;

/// What a statement does, by its first token.
#[derive(Clone, Copy)]
pub(crate) enum Kind {
    Include,
    Qreg,
    /// Nothing.
    PassedOver,
    Measure,
    Gate,
}

/// What the statements of a text have given so far.
///
/// After want of memory it is not used again.
#[derive(Drop)]
pub struct SoFar {
    has_version: bool,
    registers: Vec<Register>,
    size: u8,
    is_measured: bool,
    calls: Vec<Call>,
}

impl Model for SoFar {
    ghost use Rattle.std.specs.Prelude.{◌≤◌};
    ghost use Rattle.rv_gate.specs.declared.word.TheConstants.{MOST_LINES};
    ghost use Rattle.rv_import.specs.Reading.{SoFar};

    ghost Value = { SoFar };

    ghost view = { λ s. record {
      has_version = s.has_version;
      registers = s.registers.items;
      size = s.size;
      is_measured = s.is_measured;
      calls = s.calls.items;
    } };

    ghost invariant = { λ s. s.size ≤ MOST_LINES };
}

fn kind_of(name: &[u8]) -> Kind
    ensures { result ≡ kind_of name.now }
{
    if name == b"include".as_slice() {
        Kind::Include
    } else if name == b"qreg".as_slice() {
        Kind::Qreg
    } else if name == b"creg".as_slice() {
        Kind::PassedOver
    } else if name == b"barrier".as_slice() {
        Kind::PassedOver
    } else if name == b"measure".as_slice() {
        Kind::Measure
    } else {
        Kind::Gate
    }
}

fn is_identifier(token: &[u8]) -> bool
    ensures { result ≡ is_identifier token.now }
{
    !token.is_empty() && begins_name(token[0])
}

fn is_version(tokens: &[Vec<u8>]) -> bool
    ensures { result ≡ is_version (bytes_of tokens.now) }
{
    tokens.len() == 2
        && token_at(tokens, 0) == b"OPENQASM".as_slice()
        && token_at(tokens, 1) == b"2.0".as_slice()
}

fn is_library(tokens: &[Vec<u8>]) -> bool
    ensures { result ≡ is_library (bytes_of tokens.now) }
{
    tokens.len() == 2 && token_at(tokens, 1) == b"\"qelib1.inc\"".as_slice()
}

fn is_declaration(tokens: &[Vec<u8>]) -> bool
    ensures { result ≡ is_declaration (bytes_of tokens.now) }
{
    tokens.len() == 5
        && is_identifier(token_at(tokens, 1))
        && token_at(tokens, 2) == b"[".as_slice()
        && token_at(tokens, 4) == b"]".as_slice()
}

fn size_of(digits: &[u8]) -> Option<u8>
    ensures exact { result ≡ size_of digits.now }
    ensures few { IfSome result (λ size. size ≤ MOST_LINES) }
{
    match decimal_value(digits, u32::from(MOST_LINES)) {
        Some(size) if size > 0 && size <= u32::from(MOST_LINES) => Some(size as u8),
        _ => None,
    }
}

impl SoFar {
    pub fn new(alloc: Global) -> SoFar
        ensures { result ≡ nothing_so_far }
    {
        SoFar {
            has_version: false,
            registers: Vec::new(alloc),
            size: 0,
            is_measured: false,
            calls: Vec::new(alloc),
        }
    }

    fn declare(&mut self, alloc: Global, name: &[u8], size: Option<u8>) -> Result<bool, AllocError>
        requires { IfSome size (λ size. size ≤ MOST_LINES) }
        ensures { IfOk result (λ is_right. declared self.old name.now size ≡ read_if is_right self.new) }
    {
        match size {
            Some(size)
                if size <= MOST_LINES - self.size
                    && register_of(self.registers.as_slice(), name).is_none() => {
                self.registers
                    .push(Register::new(alloc, name, self.size, size)?)?;
                self.size += size;
                Ok(true)
            }
            _ => Ok(false),
        }
    }

    fn qreg_read(&mut self, alloc: Global, tokens: &[Vec<u8>]) -> Result<bool, AllocError>
        ensures { IfOk result (λ is_right. qreg_read self.old (bytes_of tokens.now) ≡ read_if is_right self.new) }
    {
        if !is_declaration(tokens) {
            return Ok(false);
        }
        self.declare(alloc, token_at(tokens, 1), size_of(token_at(tokens, 3)))
    }

    fn gate_read(&mut self, tokens: &[Vec<u8>]) -> Result<bool, AllocError>
        ensures { IfOk result (λ is_right. with_call self.old
            (gate_call self.old.registers (bytes_of tokens.now)) ≡ read_if is_right self.new) }
    {
        match gate_call(self.registers.as_slice(), tokens) {
            Some(call) if !self.is_measured && call.is_possible() => {
                self.calls.push(call)?;
                Ok(true)
            }
            _ => Ok(false),
        }
    }

    fn read_as(&mut self, alloc: Global, kind: Kind, tokens: &[Vec<u8>]) -> Result<bool, AllocError>
        ensures { IfOk result (λ is_right. read_as kind self.old (bytes_of tokens.now)
            ≡ read_if is_right self.new) }
    {
        match kind {
            Kind::Include => Ok(is_library(tokens)),
            Kind::Qreg => self.qreg_read(alloc, tokens),
            Kind::PassedOver => Ok(true),
            Kind::Measure => {
                self.is_measured = true;
                Ok(true)
            }
            Kind::Gate => self.gate_read(tokens),
        }
    }

    /// Takes a statement without its `;`. Says whether it breaks no rule.
    pub fn statement_read(&mut self, alloc: Global, tokens: &[Vec<u8>]) -> Result<bool, AllocError>
        ensures { IfOk result (λ is_right. statement_read self.old (bytes_of tokens.now)
            ≡ read_if is_right self.new) }
    {
        if tokens.is_empty() {
            return Ok(false);
        }
        if self.has_version {
            return self.read_as(alloc, kind_of(token_at(tokens, 0)), tokens);
        }
        self.has_version = true;
        Ok(is_version(tokens))
    }

    /// How many qubits there are, 0 before their registers.
    pub fn size(&self) -> u8
        ensures exact { result ≡ self.now.size }
        ensures few { result ≤ MOST_LINES }
    {
        self.size
    }

    pub fn calls(&self) -> &[Call]
        ensures { result.now ≡ self.now.calls }
    {
        self.calls.as_slice()
    }
}
