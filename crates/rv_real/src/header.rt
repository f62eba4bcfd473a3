ghost use Rattle.std.specs.Prelude.{◌≡◌, ◌≤◌, ◌<◌, [], true, false, drop, length, IfOk, IfSome, None, Ok, Some};
ghost use Rattle.rv_text.specs.Tokens.{tokens_of};
ghost use Rattle.rv_text.specs.Found.{lexeme_at, place_after, IsWithin};
ghost use Rattle.rv_text.specs.Spelled.{IsOneLine};
ghost use Rattle.rv_gate.specs.Circuit.{fresh};
ghost use Rattle.rv_reader.specs.Gives.{StepGives};
ghost use Rattle.rv_reader.specs.inside.Answered.{GivesValue};
ghost use Rattle.rv_real.specs.inside.Directives.{no_directives};
ghost use Rattle.rv_real.specs.inside.HeaderSteps.{lines_declared, with_names, numvars_of, variables_of, inputs_of};
ghost use Rattle.rv_real.specs.inside.HeaderSteps.{outputs_of, constants_of, garbage_row_of, named_directive, begin_of};
ghost use Rattle.rv_real.specs.inside.HeaderSteps.{without_gates};
ghost use Rattle.rv_real.specs.inside.State.{header_line};
ghost use Rattle.rv_real.specs.inside.Steps.{GivesHeader};

use crate::begin::{give_constants, give_garbage, give_inputs, give_outputs};
use crate::code::{
    DIRECTIVE_OUT_OF_PLACE, MISSING_DIRECTIVE, TOO_MANY_LINES, WRONG_MARK_ROW, WRONG_NUMBER,
};
use crate::directive::{Directive, directive_named};
use crate::labels::{labels_for, names_for};
use rv_gate::{Circuit, MOST_LINES, Mark, Names};
use rv_marks::read_row;
use rv_reader::Stop;
use rv_text::{Token, count_of, token};
use std::alloc::Global;
use std::marker::Model;

/// What the directives of the header gave so far.
#[derive(Drop)]
pub struct Header {
    alloc: Global,
    numvars: Option<u8>,
    names: Option<Names>,
    input_labels: Option<Vec<Vec<u8>>>,
    output_labels: Option<Vec<Vec<u8>>>,
    constants: Option<Vec<Mark>>,
    garbage: Option<Vec<bool>>,
}

impl Model for Header {
    ghost use Rattle.rv_real.specs.inside.Directives.{Header as Directives};

    ghost Value = { Directives };

    ghost use Rattle.rv_real.specs.inside.Kept.{directives_in, IsHeader};

    ghost view = { directives_in };

    ghost invariant = { λ h. IsHeader (directives_in h) };
}

impl Header {
    pub(crate) fn new(alloc: Global) -> Header
        ensures { result ≡ no_directives }
    {
        Header {
            alloc,
            numvars: None,
            names: None,
            input_labels: None,
            output_labels: None,
            constants: None,
            garbage: None,
        }
    }

    #[tactic(auto, unfolding(crate::specs::inside::HeaderSteps::numvars_of))]
    fn read_numvars(&mut self, line: &[u8], from: usize) -> Result<(), Stop>
        requires { from ≤ length line.now }
        ensures { StepGives result self.new (numvars_of self.old (tokens_of true [] (drop from line.now))) }
    {
        if self.numvars.is_some() {
            return Err(Stop::Fault(DIRECTIVE_OUT_OF_PLACE));
        }
        let Some(found) = token(line, from, true, &[]) else {
            return Err(Stop::Fault(WRONG_NUMBER));
        };
        if token(line, found.after(), true, &[]).is_some() {
            return Err(Stop::Fault(WRONG_NUMBER));
        }
        let Some(lines) = count_of(&line[found.start..found.end], MOST_LINES) else {
            return Err(Stop::Fault(WRONG_NUMBER));
        };
        if lines > MOST_LINES {
            return Err(Stop::Fault(TOO_MANY_LINES));
        }
        self.numvars = Some(lines);
        Ok(())
    }

    #[tactic(auto, unfolding(crate::specs::inside::HeaderSteps::variables_of))]
    fn read_variables(&mut self, line: &[u8], from: usize) -> Result<(), Stop>
        requires { from ≤ length line.now }
        ensures { StepGives result self.new (variables_of self.old (tokens_of true [] (drop from line.now))) }
    {
        match lines_for(self.numvars, self.names.is_some()) {
            Ok(lines) => self.name_lines(lines, line, from),
            Err(stop) => Err(stop),
        }
    }

    // Names the lines, which are so many.
    fn name_lines(&mut self, lines: u8, line: &[u8], from: usize) -> Result<(), Stop>
        requires declared { self.old.numvars ≡ Some lines }
        requires from { from ≤ length line.now }
        ensures { StepGives result self.new (with_names self.old lines (tokens_of true [] (drop from line.now))) }
    {
        match names_for(self.alloc, lines, line, from) {
            Ok(names) => {
                self.names = Some(names);
                Ok(())
            }
            Err(stop) => Err(stop),
        }
    }

    #[tactic(auto, unfolding(crate::specs::inside::HeaderSteps::inputs_of))]
    fn read_inputs(&mut self, line: &[u8], from: usize) -> Result<(), Stop>
        requires from { from ≤ length line.now }
        requires one { IsOneLine line.now }
        ensures { StepGives result self.new (inputs_of self.old (tokens_of true [] (drop from line.now))) }
    {
        let lines = match lines_for(self.numvars, self.input_labels.is_some()) {
            Ok(lines) => lines,
            Err(stop) => return Err(stop),
        };
        let labels = match labels_for(self.alloc, lines, line, from) {
            Ok(labels) => labels,
            Err(stop) => return Err(stop),
        };
        self.input_labels = Some(labels);
        Ok(())
    }

    #[tactic(auto, unfolding(crate::specs::inside::HeaderSteps::outputs_of))]
    fn read_outputs(&mut self, line: &[u8], from: usize) -> Result<(), Stop>
        requires from { from ≤ length line.now }
        requires one { IsOneLine line.now }
        ensures { StepGives result self.new (outputs_of self.old (tokens_of true [] (drop from line.now))) }
    {
        let lines = match lines_for(self.numvars, self.output_labels.is_some()) {
            Ok(lines) => lines,
            Err(stop) => return Err(stop),
        };
        let labels = match labels_for(self.alloc, lines, line, from) {
            Ok(labels) => labels,
            Err(stop) => return Err(stop),
        };
        self.output_labels = Some(labels);
        Ok(())
    }

    #[tactic(auto, unfolding(crate::specs::inside::HeaderSteps::constants_of))]
    fn read_constants(&mut self, line: &[u8], from: usize) -> Result<(), Stop>
        requires { from ≤ length line.now }
        ensures { StepGives result self.new (constants_of self.old (tokens_of true [] (drop from line.now))) }
    {
        let lines = match lines_for(self.numvars, self.constants.is_some()) {
            Ok(lines) => lines,
            Err(stop) => return Err(stop),
        };
        let Some(marks) = read_row(self.alloc, lines, line, from, true)? else {
            return Err(Stop::Fault(WRONG_MARK_ROW));
        };
        self.constants = Some(marks);
        Ok(())
    }

    #[tactic(auto, unfolding(crate::specs::inside::HeaderSteps::garbage_row_of))]
    fn read_garbage(&mut self, line: &[u8], from: usize) -> Result<(), Stop>
        requires { from ≤ length line.now }
        ensures { StepGives result self.new (garbage_row_of self.old (tokens_of true [] (drop from line.now))) }
    {
        let lines = match lines_for(self.numvars, self.garbage.is_some()) {
            Ok(lines) => lines,
            Err(stop) => return Err(stop),
        };
        let Some(marks) = read_row(self.alloc, lines, line, from, true)? else {
            return Err(Stop::Fault(WRONG_MARK_ROW));
        };
        self.garbage = Some(marks);
        Ok(())
    }

    // `.begin`.
    #[tactic(auto, unfolding(crate::specs::inside::HeaderSteps::begin_of))]
    fn begin(&mut self) -> Result<Circuit, Stop>
        ensures { GivesValue (λ circuit. circuit) result (begin_of self.old) }
    {
        if self.numvars.is_none() {
            return Err(Stop::Fault(MISSING_DIRECTIVE));
        }
        match self.names.take() {
            Some(names) => self.circuit_on(names),
            None => Err(Stop::Fault(MISSING_DIRECTIVE)),
        }
    }

    // The circuit without gates on lines of these names.
    fn circuit_on(&self, names: Names) -> Result<Circuit, Stop>
        requires lines { self.now.numvars ≡ Some (length names) }
        requires some { 1 ≤ length names }
        ensures { GivesValue (λ circuit. circuit) result (Ok (without_gates names self.now)) }
    {
        match Circuit::new(names) {
            Ok(circuit) => self.completed(circuit),
            Err(_) => Err(Stop::Mem),
        }
    }

    // A new circuit, with the labels and marks that were given.
    fn completed(&self, circuit: Circuit) -> Result<Circuit, Stop>
        requires lines { self.now.numvars ≡ Some (length circuit.names) }
        requires fresh { circuit ≡ fresh circuit.names }
        ensures { GivesValue (λ circuit. circuit) result (Ok (without_gates circuit.names self.now)) }
    {
        let mut circuit = circuit;
        match self.complete(&mut circuit) {
            Ok(()) => Ok(circuit),
            Err(stop) => Err(stop),
        }
    }

    // Gives a new circuit its labels and marks.
    fn complete(&self, circuit: &mut Circuit) -> Result<(), Stop>
        requires lines { self.now.numvars ≡ Some (length circuit.old.names) }
        requires fresh { circuit.old ≡ fresh circuit.old.names }
        ensures { StepGives result circuit.new (Ok (without_gates circuit.old.names self.now)) }
    {
        give_constants(circuit, &self.constants);
        give_garbage(circuit, &self.garbage);
        match give_inputs(circuit, &self.input_labels) {
            Ok(()) => give_outputs(circuit, &self.output_labels),
            Err(stop) => Err(stop),
        }
    }

    /// A line of the header, by its first token.
    ///
    /// Answers the circuit without gates where the body begins.
    #[tactic(auto, unfolding(crate::specs::inside::State::header_line))]
    pub(crate) fn read_line(&mut self, line: &[u8], first: &Token) -> Result<Option<Circuit>, Stop>
        requires within { IsWithin first.now 0 (length line.now) }
        requires one { IsOneLine line.now }
        ensures { GivesHeader result self.new
            (header_line self.old (lexeme_at line.now first.now)
            (tokens_of true [] (drop (place_after first.now) line.now))) }
    {
        if first.quoted {
            return Err(Stop::Fault(MISSING_DIRECTIVE));
        }
        let name = &line[first.start..first.end];
        if name == b".begin".as_slice() {
            match self.begin() {
                Ok(circuit) => Ok(Some(circuit)),
                Err(stop) => Err(stop),
            }
        } else {
            match self.read_directive(name, line, first.end) {
                Ok(()) => Ok(None),
                Err(stop) => Err(stop),
            }
        }
    }

    // A directive but `.begin`, with its operands from a place on.
    fn read_directive(&mut self, name: &[u8], line: &[u8], from: usize) -> Result<(), Stop>
        requires from { from ≤ length line.now }
        requires one { IsOneLine line.now }
        ensures { StepGives result self.new
            (named_directive self.old name.now (tokens_of true [] (drop from line.now))) }
    {
        match directive_named(name) {
            Directive::Dropped => Ok(()),
            Directive::Numvars => self.read_numvars(line, from),
            Directive::Variables => self.read_variables(line, from),
            Directive::Inputs => self.read_inputs(line, from),
            Directive::Outputs => self.read_outputs(line, from),
            Directive::Constants => self.read_constants(line, from),
            Directive::Garbage => self.read_garbage(line, from),
            Directive::Refused(code) => Err(Stop::Fault(code)),
        }
    }
}

// How many lines there are, for a directive that stands once and after `.numvars`.
fn lines_for(numvars: Option<u8>, is_given: bool) -> Result<u8, Stop>
    ensures gives { GivesValue (λ lines. lines) result (lines_declared numvars is_given) }
    ensures lines { IfOk result (λ lines. numvars ≡ Some lines) }
{
    let Some(lines) = numvars else {
        return Err(Stop::Fault(MISSING_DIRECTIVE));
    };
    if is_given {
        return Err(Stop::Fault(DIRECTIVE_OUT_OF_PLACE));
    }
    Ok(lines)
}
