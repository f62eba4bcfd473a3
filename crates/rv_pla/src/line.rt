ghost use Rattle.std.specs.Prelude.{◌≡◌, ◌≤◌, false, drop, length, IfOk, IfSome, OnErr};
ghost use Rattle.rv_text.specs.Tokens.{joined, tokens_of};
ghost use Rattle.rv_reader.specs.Gives.{StepGives};
ghost use Rattle.rv_reader.specs.inside.Answered.{GivesValue};
ghost use Rattle.rv_pla.specs.inside.laws.Denotes.{denotes, finds};
ghost use Rattle.rv_pla.specs.inside.State.{IsSize};
ghost use Rattle.rv_pla.specs.inside.Next.{IsNext};
ghost use Rattle.rv_pla.specs.inside.Steps.{directive_of, inputs_given, outputs_given, kind_given, term_sized, line_by};
ghost use Rattle.rv_pla.specs.inside.Steps.{line_rules, as_fault, end_given};
ghost use Rattle.rv_pla.specs.Line.{bar, kind_named, kind_of, size_of, is_dropped, is_end, is_unsupported};
ghost use Rattle.rv_pla.specs.Reading.{fault_in, pla_of};

use crate::code::{
    DIRECTIVE_OUT_OF_PLACE, MISSING_DIRECTIVE, NOT_SUPPORTED, TOO_MANY_INPUTS_OR_OUTPUTS,
    TOO_MANY_TERMS, UNKNOWN_DIRECTIVE, WRONG_CHARACTER, WRONG_NUMBER, WRONG_TERM_LENGTH,
};
use crate::cube::{MOST_INPUTS, MOST_OUTPUTS};
use crate::end::end_of;
use crate::fault::PlaFault;
use crate::kind::Kind;
use crate::pla::{MOST_TERMS, Pla};
use crate::row::{BAR, term_of, written_term};
use crate::term::Term;
use rv_reader::{Format, Stop, TextRefusal, Whole};
use rv_text::{begins_with_dot, count_of, joined, token};
use std::alloc::Global;
use std::marker::Model;

/// The text of a PLA: what its lines gave so far.
#[derive(Drop)]
pub struct State {
    pub(crate) alloc: Global,
    pub(crate) inputs: Option<u8>,
    pub(crate) outputs: Option<u8>,
    pub(crate) kind: Option<Kind>,
    pub(crate) terms: Vec<Term>,
    pub(crate) ended: bool,
}

impl Model for State {
    ghost use Rattle.rv_pla.specs.inside.State.{Given, IsGiven};

    ghost Value = { Given };

    ghost view = { λ s.
        record { inputs = s.inputs; outputs = s.outputs; kind = s.kind; terms = s.terms.items; is_ended = s.ended } };

    ghost invariant = { λ s.
        IsGiven
        (record { inputs = s.inputs; outputs = s.outputs; kind = s.kind; terms = s.terms.items; is_ended = s.ended }) };
}

impl State {
    // `.i`, with its operands from a place on.
    fn read_inputs(&mut self, line: &[u8], from: usize) -> Result<(), Stop>
        requires { from ≤ length line.now }
        ensures gives { StepGives result self.new (inputs_given self.old (tokens_of false bar (drop from line.now))) }
        ensures unchanged { OnErr result (self.new ≡ self.old) }
    {
        if self.inputs.is_some() || !self.terms.is_empty() {
            return Err(Stop::Fault(DIRECTIVE_OUT_OF_PLACE));
        }
        self.inputs = Some(size_of(MOST_INPUTS, line, from)?);
        Ok(())
    }

    // `.o`, with its operands from a place on.
    fn read_outputs(&mut self, line: &[u8], from: usize) -> Result<(), Stop>
        requires { from ≤ length line.now }
        ensures gives { StepGives result self.new (outputs_given self.old (tokens_of false bar (drop from line.now))) }
        ensures unchanged { OnErr result (self.new ≡ self.old) }
    {
        if self.outputs.is_some() || !self.terms.is_empty() {
            return Err(Stop::Fault(DIRECTIVE_OUT_OF_PLACE));
        }
        self.outputs = Some(size_of(MOST_OUTPUTS, line, from)?);
        Ok(())
    }

    // `.type`, with its operands from a place on.
    fn read_kind(&mut self, line: &[u8], from: usize) -> Result<(), Stop>
        requires { from ≤ length line.now }
        ensures gives { StepGives result self.new (kind_given self.old (tokens_of false bar (drop from line.now))) }
        ensures unchanged { OnErr result (self.new ≡ self.old) }
    {
        if self.kind.is_some() || !self.terms.is_empty() {
            return Err(Stop::Fault(DIRECTIVE_OUT_OF_PLACE));
        }
        self.kind = Some(kind_of(line, from)?);
        Ok(())
    }

    // A directive, with its operands from a place on.
    #[tactic(auto, unfolding(crate::specs::inside::Steps::directive_of))]
    fn read_directive(&mut self, name: &[u8], line: &[u8], from: usize) -> Result<(), Stop>
        requires { from ≤ length line.now }
        ensures gives { StepGives result self.new
            (directive_of self.old name.now (tokens_of false bar (drop from line.now))) }
        ensures unchanged { OnErr result (self.new ≡ self.old) }
    {
        if name == b".i".as_slice() {
            self.read_inputs(line, from)
        } else if name == b".o".as_slice() {
            self.read_outputs(line, from)
        } else if name == b".type".as_slice() {
            self.read_kind(line, from)
        } else if is_dropped(name) {
            Ok(())
        } else if is_end(name) {
            self.ended = true;
            Ok(())
        } else if is_unsupported(name) {
            Err(Stop::Fault(NOT_SUPPORTED))
        } else {
            Err(Stop::Fault(UNKNOWN_DIRECTIVE))
        }
    }

    // A term.
    fn read_term(&mut self, number: u32, line: &[u8]) -> Result<(), Stop>
        ensures gives { StepGives result self.new
            (term_sized self.old.inputs self.old.outputs self.old number (joined (tokens_of false bar line.now))) }
        ensures unchanged { OnErr result (self.new ≡ self.old) }
    {
        let (Some(inputs), Some(outputs)) = (self.inputs, self.outputs) else {
            return Err(Stop::Fault(MISSING_DIRECTIVE));
        };
        let row = joined(self.alloc, line, 0, false, &BAR)?;
        if row.len() != usize::from(inputs) + usize::from(outputs) {
            return Err(Stop::Fault(WRONG_TERM_LENGTH));
        }
        let (ins, outs) = row.split_at(usize::from(inputs));
        let Some(term) = term_of(number, ins, outs) else {
            return Err(Stop::Fault(WRONG_CHARACTER));
        };
        if self.terms.len() >= MOST_TERMS as usize {
            return Err(Stop::Fault(TOO_MANY_TERMS));
        }
        self.terms.push(term)?;
        Ok(())
    }

    // The term of a line that is as it is mostly written.
    fn written(&self, number: u32, line: &[u8]) -> Option<Term>
        ensures { IfSome result (IsNext self.now number line.now) }
    {
        let (Some(inputs), Some(outputs)) = (self.inputs, self.outputs) else {
            return None;
        };
        if self.terms.len() >= MOST_TERMS as usize {
            return None;
        }
        written_term(inputs, outputs, number, line)
    }

    // A line, by its first token.
    fn read_tokens(&mut self, number: u32, line: &[u8]) -> Result<(), Stop>
        ensures gives { StepGives result self.new (line_by self.old number (tokens_of false bar line.now)) }
    {
        let Some(first) = token(line, 0, false, &BAR) else {
            return Ok(());
        };
        let name = &line[first.start..first.end];
        if begins_with_dot(name) {
            self.read_directive(name, line, first.end)
        } else {
            self.read_term(number, line)
        }
    }
}

impl Format for State {
    type Object = Pla;

    type Fault = PlaFault;

    ghost denoted = { pla_of };

    ghost denotes = { denotes };

    ghost fault_in = { fault_in };

    ghost finds = { finds };

    ghost rules = { line_rules };

    ghost end_of = { end_given };

    ghost as_fault = { as_fault };

    fn new(alloc: Global) -> State {
        State {
            alloc,
            inputs: None,
            outputs: None,
            kind: None,
            terms: Vec::new(alloc),
            ended: false,
        }
    }

    #[tactic(auto, unfolding(crate::specs::inside::Steps::line_of))]
    fn read_line(&mut self, number: u32, line: &[u8]) -> Result<(), Stop> {
        if self.ended {
            return Ok(());
        }
        match self.written(number, line) {
            Some(term) => {
                self.terms.push(term)?;
                Ok(())
            }
            None => self.read_tokens(number, line),
        }
    }

    fn end(self, lines: u32) -> Result<Pla, PlaFault> {
        end_of(Whole { state: self, lines })
    }

    fn fault(refusal: TextRefusal) -> PlaFault {
        match refusal {
            TextRefusal::Text(fault) => PlaFault::Text(fault),
            TextRefusal::Mem => PlaFault::Mem,
        }
    }
}

// The one operand from a place on, as a size.
fn size_of(most: u8, line: &[u8], from: usize) -> Result<u8, Stop>
    requires most { most ≤ 100 }
    requires from { from ≤ length line.now }
    ensures gives { GivesValue (λ n. n) result (size_of most (tokens_of false bar (drop from line.now))) }
    ensures size { IfOk result (IsSize most) }
{
    let Some(word) = token(line, from, false, &BAR) else {
        return Err(Stop::Fault(WRONG_NUMBER));
    };
    if token(line, word.end, false, &BAR).is_some() {
        return Err(Stop::Fault(WRONG_NUMBER));
    }
    match count_of(&line[word.start..word.end], most) {
        Some(n) => {
            if n > most {
                Err(Stop::Fault(TOO_MANY_INPUTS_OR_OUTPUTS))
            } else {
                Ok(n)
            }
        }
        None => Err(Stop::Fault(WRONG_NUMBER)),
    }
}

// The one operand from a place on, as a type.
fn kind_of(line: &[u8], from: usize) -> Result<Kind, Stop>
    requires { from ≤ length line.now }
    ensures { GivesValue (λ kind. kind) result (kind_of (tokens_of false bar (drop from line.now))) }
{
    let Some(word) = token(line, from, false, &BAR) else {
        return Err(Stop::Fault(NOT_SUPPORTED));
    };
    if token(line, word.end, false, &BAR).is_some() {
        return Err(Stop::Fault(NOT_SUPPORTED));
    }
    match kind_named(&line[word.start..word.end]) {
        Some(kind) => Ok(kind),
        None => Err(Stop::Fault(NOT_SUPPORTED)),
    }
}

#[tactic(auto, unfolding(crate::specs::Line::kind_named))]
fn kind_named(name: &[u8]) -> Option<Kind>
    ensures { result ≡ kind_named name.now }
{
    if name == b"f".as_slice() {
        Some(Kind::F)
    } else if name == b"fd".as_slice() {
        Some(Kind::Fd)
    } else if name == b"fr".as_slice() {
        Some(Kind::Fr)
    } else if name == b"fdr".as_slice() {
        Some(Kind::Fdr)
    } else if name == b"esop".as_slice() {
        Some(Kind::Esop)
    } else {
        None
    }
}

// Labels, and a number of terms.
#[tactic(auto, unfolding(crate::specs::Line::is_dropped))]
fn is_dropped(name: &[u8]) -> bool
    ensures { result ≡ is_dropped name.now }
{
    name == b".ilb".as_slice() || name == b".ob".as_slice() || name == b".p".as_slice()
}

#[tactic(auto, unfolding(crate::specs::Line::is_end))]
fn is_end(name: &[u8]) -> bool
    ensures { result ≡ is_end name.now }
{
    name == b".e".as_slice() || name == b".end".as_slice()
}

#[tactic(auto, unfolding(crate::specs::Line::is_unsupported))]
fn is_unsupported(name: &[u8]) -> bool
    ensures { result ≡ is_unsupported name.now }
{
    name == b".mv".as_slice()
        || name == b".kiss".as_slice()
        || name == b".symbolic".as_slice()
        || name == b".phase".as_slice()
        || name == b".pair".as_slice()
}
