ghost use Rattle.std.specs.Prelude.{◌≡◌, ◌≤◌, ◌<◌, ◌+◌, [], false, drop, length, OnOk, OnErr};
ghost use Rattle.rv_text.specs.Tokens.{tokens_of, joined};
ghost use Rattle.rv_text.specs.declared.lines.TheConstants.{MOST_BYTES};
ghost use Rattle.rv_reader.specs.Gives.{StepGives};
ghost use Rattle.rv_perm.specs.Line.{separators};
ghost use Rattle.rv_perm.specs.Reading.{fault_in, permutation_of};
ghost use Rattle.rv_perm.specs.inside.State.{with_number};
ghost use Rattle.rv_perm.specs.inside.Steps.{constants_given, garbage_given, directive_given, numbers_given};
ghost use Rattle.rv_perm.specs.inside.Steps.{line_rules, end_given, as_fault};
ghost use Rattle.rv_perm.specs.inside.laws.Denotes.{denotes, finds};

use crate::code::{DIRECTIVE_OUT_OF_PLACE, NOT_A_NUMBER, UNKNOWN_DIRECTIVE, WRONG_MARK_ROW};
use crate::end::end_of;
use crate::fault::PermFault;
use crate::perm::MOST_NUMBERS;
use crate::spec::PermSpec;
use rv_gate::Mark;
use rv_marks::read_marks;
use rv_reader::{Format, Stop, TextRefusal, Whole};
use rv_text::{begins_with_dot, decimal_value, token};
use std::alloc::{AllocError, Global};
use std::marker::Model;

// What parts numbers beside blanks.
const SEPARATORS: [u8; 5] = [b',', b'{', b'}', b'[', b']'];

/// A row of marks, and the line of the text on which it stands.
#[derive(Drop)]
pub(crate) struct Row<M: Drop> {
    pub(crate) marks: Vec<M>,
    pub(crate) line: u32,
}

/// The text of a permutation: what its lines gave so far.
#[derive(Drop)]
pub struct State {
    pub(crate) alloc: Global,
    pub(crate) constants: Option<Row<Mark>>,
    pub(crate) garbage: Option<Row<bool>>,
    pub(crate) numbers: Vec<u32>,
    pub(crate) count: u32,
}

impl Model for State {
    ghost use Rattle.rv_perm.specs.inside.State.{Given, given_kept, IsGiven};

    ghost Value = { Given };

    ghost view = { given_kept };

    ghost invariant = { λ state. IsGiven (given_kept state) };
}

impl State {
    fn push_number(&mut self, number: u32) -> Result<(), AllocError>
        requires { self.old.count < MOST_BYTES }
        ensures ok { OnOk result (self.new ≡ with_number self.old number) }
        ensures err { OnErr result (self.new ≡ self.old) }
    {
        if self.count < MOST_NUMBERS {
            self.numbers.push(number.min(MOST_NUMBERS))?;
        }
        self.count += 1;
        Ok(())
    }

    // A line of numbers.
    fn read_numbers(&mut self, line: &[u8]) -> Result<(), Stop>
        requires { self.old.count + length line.now ≤ MOST_BYTES }
        ensures gives { StepGives result self.new (numbers_given self.old (tokens_of false separators line.now)) }
        ensures count { OnOk result (self.new.count ≤ self.old.count + length line.now) }
    {
        let mut at = 0;
        while let Some(found) = token(line, at, false, &SEPARATORS) {
            let Some(number) = decimal_value(&line[found.start..found.end], MOST_NUMBERS - 1) else {
                return Err(Stop::Fault(NOT_A_NUMBER));
            };
            self.push_number(number)?;
            at = found.end;
        }
        Ok(())
    }

    // `.constants`, with its operands from a place on.
    fn read_constants(&mut self, number: u32, line: &[u8], from: usize) -> Result<(), Stop>
        requires { from ≤ length line.now }
        ensures gives { StepGives result self.new
            (constants_given self.old number (joined (tokens_of false [] (drop from line.now)))) }
        ensures count { OnOk result (self.new.count ≡ self.old.count) }
    {
        if self.constants.is_some() || self.count > 0 {
            return Err(Stop::Fault(DIRECTIVE_OUT_OF_PLACE));
        }
        let Some(marks) = read_marks(self.alloc, line, from, false)? else {
            return Err(Stop::Fault(WRONG_MARK_ROW));
        };
        self.constants = Some(Row {
            marks,
            line: number,
        });
        Ok(())
    }

    // `.garbage`, with its operands from a place on.
    fn read_garbage(&mut self, number: u32, line: &[u8], from: usize) -> Result<(), Stop>
        requires { from ≤ length line.now }
        ensures gives { StepGives result self.new
            (garbage_given self.old number (joined (tokens_of false [] (drop from line.now)))) }
        ensures count { OnOk result (self.new.count ≡ self.old.count) }
    {
        if self.garbage.is_some() || self.count > 0 {
            return Err(Stop::Fault(DIRECTIVE_OUT_OF_PLACE));
        }
        let Some(marks) = read_marks(self.alloc, line, from, false)? else {
            return Err(Stop::Fault(WRONG_MARK_ROW));
        };
        self.garbage = Some(Row {
            marks,
            line: number,
        });
        Ok(())
    }

    // A directive, with its operands from a place on.
    #[tactic(auto, unfolding(crate::specs::inside::Steps::directive_given))]
    fn read_directive(
        &mut self,
        number: u32,
        name: &[u8],
        line: &[u8],
        from: usize,
    ) -> Result<(), Stop>
        requires { from ≤ length line.now }
        ensures gives { StepGives result self.new
            (directive_given self.old number name.now (tokens_of false [] (drop from line.now))) }
        ensures count { OnOk result (self.new.count ≡ self.old.count) }
    {
        if name == b".constants".as_slice() {
            self.read_constants(number, line, from)
        } else if name == b".garbage".as_slice() {
            self.read_garbage(number, line, from)
        } else {
            Err(Stop::Fault(UNKNOWN_DIRECTIVE))
        }
    }
}

impl Format for State {
    type Object = PermSpec;

    type Fault = PermFault;

    ghost denoted = { permutation_of };

    ghost denotes = { denotes };

    ghost fault_in = { fault_in };

    ghost finds = { finds };

    ghost rules = { line_rules };

    ghost end_of = { end_given };

    ghost as_fault = { as_fault };

    // Each number has a byte of the text.
    ghost size = { λ given. given.count };

    fn new(alloc: Global) -> State {
        State {
            alloc,
            constants: None,
            garbage: None,
            numbers: Vec::new(alloc),
            count: 0,
        }
    }

    #[tactic(auto, unfolding(crate::specs::inside::Steps::line_given))]
    fn read_line(&mut self, number: u32, line: &[u8]) -> Result<(), Stop> {
        let Some(first) = token(line, 0, false, &[]) else {
            return Ok(());
        };
        let name = &line[first.start..first.end];
        if begins_with_dot(name) {
            self.read_directive(number, name, line, first.end)
        } else {
            self.read_numbers(line)
        }
    }

    fn end(self, lines: u32) -> Result<PermSpec, PermFault> {
        end_of(Whole { state: self, lines })
    }

    fn fault(refusal: TextRefusal) -> PermFault {
        match refusal {
            TextRefusal::Text(fault) => PermFault::Text(fault),
            TextRefusal::Mem => PermFault::Mem,
        }
    }
}
