ghost use Rattle.std.specs.Prelude.{◌≡◌, ◌<◌, ◌≤◌, ◌+◌, length, take, IfErr, IfOk, Ok, OnOk};
ghost use Rattle.rv_text.specs.declared.lines.TheConstants.{MOST_BYTES};
ghost use Rattle.rv_reader.specs.Feeding.{Answers};
ghost use Rattle.rv_qasm.specs.declared.fault.QasmFault.TheVariants.{Mem};
ghost use Rattle.rv_qasm.specs.Rules.{qubit_count};
ghost use Rattle.rv_qasm.specs.inside.Ends.{listed};
ghost use Rattle.rv_qasm.specs.inside.Lexing.{unended_at};
ghost use Rattle.rv_qasm.specs.inside.Reached.{nothing_reached, with_statement, byte_step, steps, text_line_count};
ghost use Rattle.rv_qasm.specs.inside.Reached.{end_of, Reaches, StopsFor};

use crate::QasmFault;
use crate::lexer::Lexer;
use crate::program::Program;
use crate::state::State;
use rv_reader::Stop;
use rv_text::{MOST_BYTES, TextFault};
use std::alloc::Global;
use std::marker::Model;

/// How far the reading of a text has come.
///
/// After a fault it is not used again.
#[derive(Drop)]
pub(crate) struct Reached {
    lexer: Lexer,
    has_begun_line: bool,
    state: State,
}

impl Model for Reached {
    ghost use Rattle.rv_qasm.specs.inside.Reached.{Reached};

    ghost Value = { Reached };

    ghost view = { λ r. record { begun = r.lexer; has_begun_line = r.has_begun_line; so_far = r.state } };
}

// The program of all statements, unless there is a fault at the end.
fn program_of(state: State, closed: Result<(), QasmFault>) -> Result<Program, QasmFault>
    requires { OnOk closed (1 ≤ qubit_count state) }
    ensures { result ≡ listed closed state }
{
    match closed {
        Ok(()) => Ok(state.into_program()),
        Err(fault) => Err(fault),
    }
}

impl Reached {
    /// Before any byte. Takes no memory.
    pub(crate) fn new(alloc: Global) -> Reached
        ensures { result ≡ nothing_reached }
    {
        Reached {
            lexer: Lexer::new(alloc),
            has_begun_line: false,
            state: State::new(alloc),
        }
    }

    /// Takes bytes.
    pub(crate) fn take(&mut self, piece: &[u8]) -> Result<(), QasmFault>
        requires { self.old.begun.line + length piece.now ≤ MOST_BYTES + 1 }
        ensures steps { Reaches result self.new (steps self.old piece.now) }
        ensures line { self.new.begun.line ≤ self.old.begun.line + length piece.now }
    {
        let mut at = 0;
        while at < piece.len() {
            match self.take_some(&piece[at..]) {
                Ok(count) => at += count,
                Err(fault) => return Err(fault),
            }
        }
        Ok(())
    }

    // Takes the first bytes: a line with a gate, or any others to the end of a line. Says how many there were.
    fn take_some(&mut self, bytes: &[u8]) -> Result<usize, QasmFault>
        requires some { 0 < length bytes.now }
        requires line { self.old.begun.line + length bytes.now ≤ MOST_BYTES + 1 }
        ensures steps { IfOk result (λ count. steps self.old (take count bytes.now) ≡ Ok self.new) }
        ensures stops { IfErr result (λ fault. StopsFor fault (steps self.old bytes.now)) }
        ensures some { IfOk result (λ count. (0 < count) × (count ≤ length bytes.now)) }
        ensures line { IfOk result (λ count. self.new.begun.line ≤ self.old.begun.line + count) }
        ensures lines { self.new.begun.line ≤ self.old.begun.line + length bytes.now }
    {
        let count = self.take_line(bytes)?;
        if count > 0 {
            return Ok(count);
        }
        self.take_bytes(bytes)
    }

    // Takes bytes one by one, to the end of a line. Says how many there were.
    fn take_bytes(&mut self, bytes: &[u8]) -> Result<usize, QasmFault>
        requires some { 0 < length bytes.now }
        requires line { self.old.begun.line + length bytes.now ≤ MOST_BYTES + 1 }
        ensures steps { IfOk result (λ count. steps self.old (take count bytes.now) ≡ Ok self.new) }
        ensures stops { IfErr result (λ fault. StopsFor fault (steps self.old bytes.now)) }
        ensures some { IfOk result (λ count. (0 < count) × (count ≤ length bytes.now)) }
        ensures line { IfOk result (λ count. self.new.begun.line ≤ self.old.begun.line + count) }
        ensures lines { self.new.begun.line ≤ self.old.begun.line + length bytes.now }
    {
        for at in 0..bytes.len() {
            match self.take_byte(bytes[at]) {
                Ok(()) => {}
                Err(fault) => return Err(fault),
            }
            if bytes[at] == b'\n' {
                return Ok(at + 1);
            }
        }
        Ok(bytes.len())
    }

    // Takes a line with a gate as it is mostly written. Says how many bytes it has, or 0 if there is none.
    fn take_line(&mut self, bytes: &[u8]) -> Result<usize, QasmFault>
        requires line { self.old.begun.line ≤ MOST_BYTES }
        ensures steps { IfOk result (λ count. steps self.old (take count bytes.now) ≡ Ok self.new) }
        ensures stops { IfErr result (λ fault. fault ≡ Mem) }
        ensures within { IfOk result (λ count. count ≤ length bytes.now) }
        ensures none { IfOk result (λ count. count ≡ 0 → self.new ≡ self.old) }
        ensures line { IfOk result (λ count. 0 < count → self.new.begun.line ≡ self.old.begun.line + 1) }
        ensures lines { self.new.begun.line ≤ self.old.begun.line + 1 }
    {
        if !self.lexer.is_at_start() {
            return Ok(0);
        }
        match self.state.line_read(bytes) {
            Ok(count) => {
                if count > 0 {
                    self.lexer.next_line();
                    self.has_begun_line = false;
                }
                Ok(count)
            }
            Err(_) => Err(QasmFault::Mem),
        }
    }

    fn take_byte(&mut self, byte: u8) -> Result<(), QasmFault>
        requires { self.old.begun.line ≤ MOST_BYTES }
        ensures step { Reaches result self.new (byte_step self.old byte) }
        ensures line { self.new.begun.line ≤ self.old.begun.line + 1 }
    {
        self.has_begun_line = byte != b'\n';
        match self.lexer.take(byte) {
            Ok(true) => self.end_statement(),
            Ok(false) => Ok(()),
            Err(_) => Err(QasmFault::Mem),
        }
    }

    // Reads the statement that is begun, which is at its end.
    fn end_statement(&mut self) -> Result<(), QasmFault>
        ensures step { Reaches result self.new (with_statement self.old) }
        ensures line { self.new.begun.line ≡ self.old.begun.line }
    {
        match self.state.read(self.lexer.tokens()) {
            Ok(()) => {
                self.lexer.begin_next();
                Ok(())
            }
            Err(Stop::Fault(code)) => Err(QasmFault::Text(TextFault {
                line: self.lexer.line(),
                code,
            })),
            Err(Stop::Mem) => Err(QasmFault::Mem),
        }
    }

    /// What all bytes give, or the first fault of the end.
    pub(crate) fn end(self) -> Result<Program, QasmFault>
        ensures { Answers Mem result (end_of self) }
    {
        let mut all = self;
        let closed = all.close();
        program_of(all.state, closed)
    }

    // Ends what is open. Gives the first fault of the end, if the statements are no program or the last one is not
    // ended.
    fn close(&mut self) -> Result<(), QasmFault>
        ensures gives { Answers Mem (listed result self.new.so_far) (end_of self.old) }
        ensures some { OnOk result (1 ≤ qubit_count self.new.so_far) }
    {
        let lines = self.text_line_count();
        if self.lexer.close_last().is_err() {
            return Err(QasmFault::Mem);
        }
        if self.lexer.tokens().len() == 0 {
            match self.state.check_end(lines) {
                Ok(()) => Ok(()),
                Err(fault) => Err(QasmFault::Text(fault)),
            }
        } else {
            Err(QasmFault::Text(TextFault {
                line: self.lexer.line(),
                code: State::unended_code(self.lexer.tokens()),
            }))
        }
    }

    fn text_line_count(&self) -> u32
        ensures { result ≡ text_line_count self.now }
    {
        if self.has_begun_line {
            self.lexer.line_read()
        } else {
            self.lexer.line_read().saturating_sub(1)
        }
    }
}
