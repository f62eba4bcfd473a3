ghost use Rattle.std.specs.Prelude.{◌≡◌, ◌≤◌, ◌<◌, ◌+◌, ◌-◌, ◌==◌, [], false, drop, length, take, slice_index, true};
ghost use Rattle.std.specs.Prelude.{None, IfOk, OnOk};
ghost use Rattle.std.specs.List.{list_any};
ghost use Rattle.rv_text.specs.Bytes.{hash};
ghost use Rattle.rv_text.specs.Tokens.{joined, tokens_of};
ghost use Rattle.rv_reader.specs.Gives.{StepGives};
ghost use Rattle.rv_blif.specs.inside.laws.Denotes.{denotes, finds};
ghost use Rattle.rv_blif.specs.Line.{body_len, goes_on, is_any_cut, is_cut, is_dropped, is_latch, is_unsupported};
ghost use Rattle.rv_blif.specs.Given.{closed, cover_given, cover_numbered, directive_of, input_given, inputs_given};
ghost use Rattle.rv_blif.specs.Given.{line_by, line_rules, names_given, number_of, numbered, output_given};
ghost use Rattle.rv_blif.specs.Given.{outputs_given, row_added, row_of, signals_given, whole_line, with_name, Numbered};
ghost use Rattle.rv_blif.specs.Reading.{as_fault, end_of, fault_in, logic_of};
ghost use Rattle.rv_blif.specs.declared.product.TheConstants.{MOST_OPERANDS};

use crate::code::{
    DRIVEN_TWICE, LATCH, MISPLACED_BACKSLASH, MISSING_NAME, MIXED_ROWS, NOT_SUPPORTED,
    REPEATED_OUTPUT, ROW_OUT_OF_PLACE, SECOND_MODEL, TOO_MANY_OPERANDS, TOO_MANY_SIGNALS,
    UNKNOWN_DIRECTIVE, WRONG_CHARACTER, WRONG_ROW_LENGTH,
};
use crate::cover::Cover;
use crate::end::end_of;
use crate::fault::BlifFault;
use crate::logic::{Logic, MOST_SIGNALS};
use crate::marks::{is_set, set};
use crate::names::Names;
use crate::port::Port;
use crate::product::MOST_OPERANDS;
use crate::row::{are_literals, product_of};
use rv_reader::{Format, Stop, TextRefusal, Whole};
use rv_text::{begins_with_dot, first_place, joined, token};
use std::alloc::{AllocError, Global};
use std::marker::Model;
use std::mem::replace;

/// The text of a network: what its lines gave so far.
#[derive(Drop)]
pub struct State {
    pub(crate) alloc: Global,
    pub(crate) names: Names,
    pub(crate) driven: Vec<bool>,
    pub(crate) exported: Vec<bool>,
    pub(crate) inputs: Vec<usize>,
    pub(crate) outputs: Vec<Port>,
    pub(crate) covers: Vec<Cover>,
    pub(crate) last: Option<Cover>,
    pub(crate) named: bool,
    pub(crate) begun: Vec<u8>,
    pub(crate) ended: bool,
}

impl Model for State {
    ghost use Rattle.rv_blif.specs.Given.{Given};
    ghost use Rattle.rv_blif.specs.inside.State.{IsGiven};

    ghost Value = { Given };

    ghost view = { λ s. record {
      names = s.names;
      driven = s.driven.items;
      exported = s.exported.items;
      inputs = s.inputs.items;
      outputs = s.outputs.items;
      covers = s.covers.items;
      last = s.last;
      is_named = s.named;
      begun = s.begun.items;
      is_ended = s.ended;
    } };

    ghost invariant = { λ s. IsGiven (record {
      names = s.names;
      driven = s.driven.items;
      exported = s.exported.items;
      inputs = s.inputs.items;
      outputs = s.outputs.items;
      covers = s.covers.items;
      last = s.last;
      is_named = s.named;
      begun = s.begun.items;
      is_ended = s.ended;
    }) };
}

impl State {
    // The number of a name, which may be new.
    #[tactic(auto, unfolding(crate::specs::Given::with_name))]
    fn number_of(&mut self, name: &[u8]) -> Result<usize, AllocError>
        ensures number { IfOk result (λ number. number ≡ number_of self.old name.now) }
        ensures known { OnOk result (self.new ≡ with_name self.old name.now) }
        ensures last { OnOk result (self.new.last ≡ self.old.last) }
    {
        match self.names.find(name) {
            Some(number) => Ok(number),
            None => {
                let number = self.names.len();
                self.names.push(self.alloc, name)?;
                self.driven.push(false)?;
                self.exported.push(false)?;
                Ok(number)
            }
        }
    }

    // How many inputs and covers there are.
    fn signals_given(&self) -> usize
        ensures { result ≡ signals_given self.now }
    {
        self.inputs.len() + self.covers.len()
    }

    // A name of `.inputs`.
    fn read_input(&mut self, name: &[u8]) -> Result<(), Stop>
        requires { self.old.last ≡ None }
        ensures gives { StepGives result self.new (input_given self.old name.now) }
        ensures closed { OnOk result (self.new.last ≡ None) }
    {
        let number = self.number_of(name)?;
        if is_set(&self.driven, number) {
            return Err(Stop::Fault(DRIVEN_TWICE));
        }
        if self.signals_given() >= MOST_SIGNALS as usize {
            return Err(Stop::Fault(TOO_MANY_SIGNALS));
        }
        set(&mut self.driven, number);
        self.inputs.push(number)?;
        Ok(())
    }

    // `.inputs`, with its operands from a place on.
    fn read_inputs(&mut self, line: &[u8], from: usize) -> Result<(), Stop>
        requires closed { self.old.last ≡ None }
        requires from { from ≤ length line.now }
        ensures { StepGives result self.new (inputs_given self.old (tokens_of false [] (drop from line.now))) }
    {
        let mut at = from;
        while let Some(word) = token(line, at, false, &[]) {
            self.read_input(&line[word.start..word.end])?;
            at = word.end;
        }
        Ok(())
    }

    // A name of `.outputs`.
    fn read_output(&mut self, number: u32, name: &[u8]) -> Result<(), Stop>
        ensures { StepGives result self.new (output_given number self.old name.now) }
    {
        let output = self.number_of(name)?;
        if is_set(&self.exported, output) {
            return Err(Stop::Fault(REPEATED_OUTPUT));
        }
        if self.outputs.len() >= MOST_SIGNALS as usize {
            return Err(Stop::Fault(TOO_MANY_SIGNALS));
        }
        set(&mut self.exported, output);
        self.outputs.push(Port {
            line: number,
            name: output,
        })?;
        Ok(())
    }

    // `.outputs`, with its operands from a place on.
    fn read_outputs(&mut self, number: u32, line: &[u8], from: usize) -> Result<(), Stop>
        requires { from ≤ length line.now }
        ensures { StepGives result self.new (outputs_given number self.old (tokens_of false [] (drop from line.now))) }
    {
        let mut at = from;
        while let Some(word) = token(line, at, false, &[]) {
            self.read_output(number, &line[word.start..word.end])?;
            at = word.end;
        }
        Ok(())
    }

    // The numbers of names from a place on.
    fn numbers_of(&mut self, line: &[u8], from: usize) -> Result<Vec<usize>, AllocError>
        requires from { from ≤ length line.now }
        requires closed { self.old.last ≡ None }
        ensures closed { OnOk result (self.new.last ≡ None) }
        ensures numbers { IfOk result (λ numbers. record { given = self.new; numbers = numbers.items }
            ≡ numbered self.old [] (tokens_of false [] (drop from line.now))) }
    {
        let mut numbers = Vec::new(self.alloc);
        let mut at = from;
        while let Some(word) = token(line, at, false, &[]) {
            let number = self.number_of(&line[word.start..word.end])?;
            numbers.push(number)?;
            at = word.end;
        }
        Ok(numbers)
    }

    // Begins the cover of a name.
    fn begin_cover(&mut self, number: u32, operands: Vec<usize>, name: usize) -> Result<(), Stop>
        requires closed { self.old.last ≡ None }
        requires few { length operands.items ≤ MOST_OPERANDS }
        ensures { StepGives result self.new (cover_numbered number operands.items name self.old) }
    {
        if is_set(&self.driven, name) {
            return Err(Stop::Fault(DRIVEN_TWICE));
        }
        if self.signals_given() >= MOST_SIGNALS as usize {
            return Err(Stop::Fault(TOO_MANY_SIGNALS));
        }
        set(&mut self.driven, name);
        self.last = Some(Cover::new(self.alloc, number, operands, name));
        Ok(())
    }

    // `.names`, with its operands from a place on.
    fn read_names(&mut self, number: u32, line: &[u8], from: usize) -> Result<(), Stop>
        requires closed { self.old.last ≡ None }
        requires from { from ≤ length line.now }
        ensures { StepGives result self.new (names_given number self.old (tokens_of false [] (drop from line.now))) }
    {
        let mut operands = self.numbers_of(line, from)?;
        let Some(name) = operands.pop() else {
            return Err(Stop::Fault(MISSING_NAME));
        };
        if operands.len() > usize::from(MOST_OPERANDS) {
            return Err(Stop::Fault(TOO_MANY_OPERANDS));
        }
        self.begin_cover(number, operands, name)
    }

    // No rows come any more.
    pub(crate) fn close(&mut self) -> Result<(), AllocError>
        ensures value { OnOk result (self.new ≡ closed self.old) }
        ensures closed { OnOk result (self.new.last ≡ None) }
    {
        if let Some(cover) = self.last.take() {
            self.covers.push(cover)?;
        }
        Ok(())
    }

    // A directive, with its operands from a place on.
    #[tactic(auto, unfolding(crate::specs::Given::directive_of))]
    fn read_directive(
        &mut self,
        number: u32,
        name: &[u8],
        line: &[u8],
        from: usize,
    ) -> Result<(), Stop>
        requires closed { self.old.last ≡ None }
        requires from { from ≤ length line.now }
        ensures { StepGives result self.new
            (directive_of number self.old name.now (tokens_of false [] (drop from line.now))) }
    {
        if name == b".names".as_slice() {
            self.read_names(number, line, from)
        } else if name == b".inputs".as_slice() {
            self.read_inputs(line, from)
        } else if name == b".outputs".as_slice() {
            self.read_outputs(number, line, from)
        } else if name == b".model".as_slice() {
            if self.named {
                return Err(Stop::Fault(SECOND_MODEL));
            }
            self.named = true;
            Ok(())
        } else if name == b".end".as_slice() {
            self.ended = true;
            Ok(())
        } else if is_dropped(name) {
            Ok(())
        } else if is_latch(name) {
            Err(Stop::Fault(LATCH))
        } else if is_unsupported(name) {
            Err(Stop::Fault(NOT_SUPPORTED))
        } else {
            Err(Stop::Fault(UNKNOWN_DIRECTIVE))
        }
    }

    // A row of the last cover.
    fn read_row(&mut self, line: &[u8]) -> Result<(), Stop>
        ensures { StepGives result self.new (row_of self.old self.old.last (joined (tokens_of false [] line.now))) }
    {
        let row = joined(self.alloc, line, 0, false, &[])?;
        let Some(mut cover) = self.last.take() else {
            return Err(Stop::Fault(ROW_OUT_OF_PLACE));
        };
        add_row(&mut cover, &row)?;
        self.last = Some(cover);
        Ok(())
    }

    // A line, by its first token.
    pub(crate) fn read_tokens(&mut self, number: u32, line: &[u8]) -> Result<(), Stop>
        ensures { StepGives result self.new (line_by self.old number (tokens_of false [] line.now)) }
    {
        let Some(first) = token(line, 0, false, &[]) else {
            return Ok(());
        };
        let name = &line[first.start..first.end];
        if !is_dropped(name) && is_any_cut(line) {
            return Err(Stop::Fault(MISPLACED_BACKSLASH));
        }
        if begins_with_dot(name) {
            self.close()?;
            self.read_directive(number, name, line, first.end)
        } else {
            self.read_row(line)
        }
    }

    // A line after what was begun.
    pub(crate) fn read_whole(&mut self, number: u32, line: &[u8]) -> Result<(), Stop>
        ensures { StepGives result self.new (whole_line self.old number line.now) }
    {
        let mut whole = replace(&mut self.begun, Vec::new(self.alloc));
        whole.extend_from_slice(line)?;
        self.read_tokens(number, &whole)
    }
}

// Adds a row to a cover.
fn add_row(cover: &mut Cover, row: &[u8]) -> Result<(), Stop>
    ensures { StepGives result cover.new (row_added cover.old row.now) }
{
    if row.len() != cover.operands().len() + 1 {
        return Err(Stop::Fault(WRONG_ROW_LENGTH));
    }
    if !are_literals(row) {
        return Err(Stop::Fault(WRONG_CHARACTER));
    }
    let on = row[row.len() - 1] == b'1';
    if !cover.products().is_empty() && on != cover.on() {
        return Err(Stop::Fault(MIXED_ROWS));
    }
    cover.push(product_of(&row[..row.len() - 1]), on)?;
    Ok(())
}

impl Format for State {
    type Object = Logic;

    type Fault = BlifFault;

    ghost denoted = { logic_of };

    ghost denotes = { denotes };

    ghost fault_in = { fault_in };

    ghost finds = { finds };

    ghost rules = { line_rules };

    ghost end_of = { end_of };

    ghost as_fault = { as_fault };

    fn new(alloc: Global) -> State {
        State {
            alloc,
            names: Names::new(alloc),
            driven: Vec::new(alloc),
            exported: Vec::new(alloc),
            inputs: Vec::new(alloc),
            outputs: Vec::new(alloc),
            covers: Vec::new(alloc),
            last: None,
            named: false,
            begun: Vec::new(alloc),
            ended: false,
        }
    }

    #[tactic(auto, unfolding(crate::specs::Given::line_of))]
    fn read_line(&mut self, number: u32, line: &[u8]) -> Result<(), Stop> {
        if self.ended {
            return Ok(());
        }
        if goes_on(line) {
            self.begun.extend_from_slice(&line[..body_len(line) - 1])?;
            self.begun.push(b' ')?;
            return Ok(());
        }
        if self.begun.is_empty() {
            return self.read_tokens(number, line);
        }
        self.read_whole(number, line)
    }

    fn end(self, lines: u32) -> Result<Logic, BlifFault> {
        end_of(Whole { state: self, lines })
    }

    fn fault(refusal: TextRefusal) -> BlifFault {
        match refusal {
            TextRefusal::Text(fault) => BlifFault::Text(fault),
            TextRefusal::Mem => BlifFault::Mem,
        }
    }
}

// The length of a line without a carriage return that ends it.
fn body_len(line: &[u8]) -> usize
    ensures value { result ≡ body_len line.now }
    ensures within { result ≤ length line.now }
{
    let len = line.len();
    if len > 0 && line[len - 1] == b'\r' {
        len - 1
    } else {
        len
    }
}

fn has_comment(line: &[u8]) -> bool
    ensures { result ≡ list_any (λ b. b == hash) line.now }
{
    first_place(b'#', line).is_some()
}

// Whether a line goes on in the next one.
#[tactic(auto, unfolding(crate::specs::Line::goes_on))]
fn goes_on(line: &[u8]) -> bool
    ensures value { result ≡ goes_on line.now }
    ensures some { result ≡ true → 1 ≤ body_len line.now }
{
    let len = body_len(line);
    len > 0 && line[len - 1] == b'\\' && !has_comment(line)
}

fn is_cut(word: &[u8]) -> bool
    ensures { result ≡ is_cut word.now }
{
    !word.is_empty() && word[word.len() - 1] == b'\\'
}

// Whether a word of a line ends with `\`, behind which the line does not go on.
fn is_any_cut(line: &[u8]) -> bool
    ensures { result ≡ is_any_cut (tokens_of false [] line.now) }
{
    let mut at = 0;
    while let Some(word) = token(line, at, false, &[]) {
        if is_cut(&line[word.start..word.end]) {
            return true;
        }
        at = word.end;
    }
    false
}

#[tactic(auto, unfolding(crate::specs::Line::is_dropped))]
fn is_dropped(name: &[u8]) -> bool
    ensures { result ≡ is_dropped name.now }
{
    name == b".attr".as_slice()
        || name == b".attrib".as_slice()
        || name == b".param".as_slice()
        || name == b".cname".as_slice()
}

#[tactic(auto, unfolding(crate::specs::Line::is_latch))]
fn is_latch(name: &[u8]) -> bool
    ensures { result ≡ is_latch name.now }
{
    name == b".latch".as_slice() || name == b".mlatch".as_slice()
}

#[tactic(auto, unfolding(crate::specs::Line::is_unsupported))]
fn is_unsupported(name: &[u8]) -> bool
    ensures { result ≡ is_unsupported name.now }
{
    name == b".subckt".as_slice()
        || name == b".gate".as_slice()
        || name == b".search".as_slice()
        || name == b".exdc".as_slice()
}
