// `OPENQASM 2.0`, `include` and declarations.
ghost use Rattle.std.specs.Prelude.{◌≡◌, ◌∷◌, [], ◌<◌, ◌≤◌, drop, false, length, IfOk};
ghost use Rattle.rv_reader.specs.Gives.{StepGives};
ghost use Rattle.rv_qasm.specs.Rules.{creg_read, include_read, is_declared, new_register, qreg_read, SoFar};
ghost use Rattle.rv_qasm.specs.Rules.{version_read, with_quantum};
ghost use Rattle.rv_qasm.specs.Tokens.{is_number, is_string};
ghost use Rattle.rv_reader.specs.inside.Answered.{GivesValue};

use crate::code::{NO_HEADER, NOT_SUPPORTED, REPEATED_REGISTER, TOO_MANY_QUBITS, WRONG_SYNTAX};
use crate::operands::declaration_of;
use crate::registers::Register;
use crate::state::State;
use crate::tokens::Tokens;
use rv_gate::MOST_LINES;
use rv_reader::Stop;

fn is_number(token: &[u8]) -> bool
    ensures { result ≡ is_number token.now }
{
    !token.is_empty() && token[0].is_ascii_digit()
}

fn is_string(token: &[u8]) -> bool
    ensures { result ≡ is_string token.now }
{
    !token.is_empty() && token[0] == b'"'
}

fn file_read(file: &[u8]) -> Result<(), Stop>
    ensures { (so_far : SoFar) → StepGives result so_far (include_read so_far (file.now ∷ [])) }
{
    if !is_string(file) {
        return Err(Stop::Fault(WRONG_SYNTAX));
    }
    if file != b"\"qelib1.inc\"".as_slice() {
        return Err(Stop::Fault(NOT_SUPPORTED));
    }
    Ok(())
}

impl State {
    pub(crate) fn version_read(&mut self, tokens: &Tokens) -> Result<(), Stop>
        ensures { StepGives result self.new (version_read self.old tokens.now) }
    {
        if tokens.len() != 2 {
            return Err(Stop::Fault(NO_HEADER));
        }
        self.number_read(tokens.get(0), tokens.get(1))
    }

    fn number_read(&mut self, name: &[u8], number: &[u8]) -> Result<(), Stop>
        ensures { StepGives result self.new (version_read self.old (name.now ∷ number.now ∷ [])) }
    {
        if name != b"OPENQASM".as_slice() || !is_number(number) {
            return Err(Stop::Fault(NO_HEADER));
        }
        if number != b"2.0".as_slice() {
            return Err(Stop::Fault(NOT_SUPPORTED));
        }
        self.has_version = true;
        Ok(())
    }

    pub(crate) fn include_read(&self, tokens: &Tokens) -> Result<(), Stop>
        requires { 0 < length tokens.now }
        ensures { StepGives result self.now (include_read self.now (drop 1 tokens.now)) }
    {
        if tokens.len() != 2 {
            return Err(Stop::Fault(WRONG_SYNTAX));
        }
        file_read(tokens.get(1))
    }

    // Quantum and classical registers share their names.
    fn is_declared(&self, name: &[u8]) -> bool
        ensures { result ≡ is_declared self.now name.now }
    {
        self.quantum.declared_size(name).is_some() || self.classical.declared_size(name).is_some()
    }

    // A register of a name that was not there.
    fn new_register(&self, tokens: &Tokens) -> Result<Register, Stop>
        requires { 0 < length tokens.now }
        ensures gives { GivesValue (λ r. r) result (new_register self.now (drop 1 tokens.now)) }
        ensures free { IfOk result (λ r. is_declared self.now r.name ≡ false) }
        ensures some { IfOk result (λ r. 1 ≤ r.size) }
    {
        let Some(declaration) = declaration_of(tokens, 1) else {
            return Err(Stop::Fault(WRONG_SYNTAX));
        };
        if self.is_declared(declaration.name) {
            return Err(Stop::Fault(REPEATED_REGISTER));
        }
        let name = Vec::from_slice(self.alloc, declaration.name)?;
        Ok(Register {
            name,
            size: declaration.size,
        })
    }

    pub(crate) fn qreg_read(&mut self, tokens: &Tokens) -> Result<(), Stop>
        requires { 0 < length tokens.now }
        ensures { StepGives result self.new (qreg_read self.old (drop 1 tokens.now)) }
    {
        let register = self.new_register(tokens)?;
        self.add_quantum(register)
    }

    fn add_quantum(&mut self, register: Register) -> Result<(), Stop>
        requires free { is_declared self.old register.name ≡ false }
        requires some { 1 ≤ register.size }
        ensures { StepGives result self.new (with_quantum self.old register) }
    {
        let count = u64::from(self.count) + u64::from(register.size);
        if count > u64::from(MOST_LINES) {
            return Err(Stop::Fault(TOO_MANY_QUBITS));
        }
        self.quantum.push(register)?;
        self.count = count as u8;
        self.net.widen(count as u8);
        Ok(())
    }

    pub(crate) fn creg_read(&mut self, tokens: &Tokens) -> Result<(), Stop>
        requires { 0 < length tokens.now }
        ensures { StepGives result self.new (creg_read self.old (drop 1 tokens.now)) }
    {
        let register = self.new_register(tokens)?;
        self.classical.push(register)?;
        Ok(())
    }
}
