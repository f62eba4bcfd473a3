ghost use Rattle.std.specs.Prelude.{◌≡◌, ◌<◌, ◌^◌, [], ◌∷◌, true, drop, length, Err, IsTrue, if◌then◌else◌};
ghost use Rattle.std.specs.List.{list_any};
ghost use Rattle.rv_reader.specs.declared.stop.Stop.{Stop};
ghost use Rattle.rv_real.specs.declared.code.TheConstants.{UNCLOSED_QUOTE};
ghost use Rattle.rv_text.specs.Tokens.{tokens_of};
ghost use Rattle.rv_text.specs.Found.{lexeme_at, place_after, IsWithin};
ghost use Rattle.rv_text.specs.Spelled.{IsOneLine};
ghost use Rattle.rv_reader.specs.Feeding.{Answers, faulted};
ghost use Rattle.rv_reader.specs.Gives.{StepGives};
ghost use Rattle.rv_real.specs.Reading.{fault_in, is_unclosed, real_of};
ghost use Rattle.rv_real.specs.declared.fault.RealFault.{RealFault};
ghost use Rattle.rv_real.specs.declared.line.State.{State};
ghost use Rattle.rv_real.specs.inside.LineByLine.{no_end};
ghost use Rattle.rv_real.specs.inside.Steps.{GivesState};
ghost use Rattle.rv_real.specs.inside.State.{in_body, is_in_header, line_in, line_of, line_rules, end_of, as_fault};
ghost use Rattle.rv_real.specs.inside.laws.Denotes.{denotes, finds};

use crate::begun::Begun;
use crate::body::read_body_line;
use crate::code::{NO_END, TEXT_AFTER_END, UNCLOSED_QUOTE};
use crate::fault::RealFault;
use crate::header::Header;
use crate::words::{has_unclosed, word};
use rv_gate::Circuit;
use rv_reader::{Format, Stop, TextRefusal};
use rv_text::{TextFault, Token};
use std::alloc::Global;

/// The text of a circuit: what its lines gave so far, the directives of the header, or the gates after it.
#[derive(Drop)]
pub enum State {
    Header(Header),
    Gates { circuit: Begun, is_ended: bool },
}

impl State {
    // A line of the header. Apart from the lines of the body, since each of those would pay for the room of
    // a circuit.
    #[inline(never)]
    fn read_header_line(&mut self, line: &[u8], first: Token) -> Result<(), Stop>
        requires header { IsTrue (is_in_header self.old) }
        requires within { IsWithin first 0 (length line.now) }
        requires one { IsOneLine line.now }
        requires len { length line.now < 2 ^ 31 }
        ensures { StepGives result self.new
            (line_in self.old (lexeme_at line.now first) (tokens_of true [] (drop (place_after first) line.now))) }
    {
        match self.read_in_header(line, &first) {
            Ok(Some(circuit)) => {
                self.begin_body(circuit);
                Ok(())
            }
            Ok(None) => Ok(()),
            Err(stop) => Err(stop),
        }
    }

    // Answers the circuit without gates where the body begins.
    fn read_in_header(&mut self, line: &[u8], first: &Token) -> Result<Option<Circuit>, Stop>
        requires header { IsTrue (is_in_header self.old) }
        requires within { IsWithin first.now 0 (length line.now) }
        requires one { IsOneLine line.now }
        ensures { GivesState result self.new
            (line_in self.old (lexeme_at line.now first.now)
            (tokens_of true [] (drop (place_after first.now) line.now))) }
    {
        match self {
            State::Header(header) => header.read_line(line, first),
            State::Gates { .. } => unreachable!(),
        }
    }

    fn begin_body(&mut self, circuit: Circuit)
        ensures { self.new ≡ in_body circuit }
    {
        *self = State::Gates {
            circuit: Begun::new(circuit),
            is_ended: false,
        };
    }
}

// A line after `.begin`, by its first token. That a quote isn't closed comes before every other fault, and a
// gate's line has no quotes: so they are looked for only where the line gives no gate.
#[tactic(auto, unfolding(crate::specs::inside::State::line_of))]
fn read_after_begin(
    circuit: &mut Begun,
    is_ended: &mut bool,
    line: &[u8],
    first: &Token,
) -> Result<(), Stop>
    requires within { IsWithin first.now 0 (length line.now) }
    requires first { tokens_of true [] line.now
        ≡ lexeme_at line.now first.now ∷ tokens_of true [] (drop (place_after first.now) line.now) }
    requires len { length line.now < 2 ^ 31 }
    ensures { StepGives result (State.Gates circuit.new is_ended.new)
        (line_of (State.Gates circuit.old is_ended.old) (tokens_of true [] line.now)) }
{
    if *is_ended {
        return Err(first_stop(Stop::Fault(TEXT_AFTER_END), line));
    }
    match read_body_line(circuit, line, first) {
        Ok(false) => Ok(()),
        Ok(true) => {
            if has_unclosed(line) {
                return Err(Stop::Fault(UNCLOSED_QUOTE));
            }
            *is_ended = true;
            Ok(())
        }
        Err(stop) => Err(first_stop(stop, line)),
    }
}

// Why a line is refused, which breaks a rule: that every quote is closed comes first.
#[inline(never)]
fn first_stop(stop: Stop, line: &[u8]) -> Stop
    ensures { result ≡ (if list_any is_unclosed (tokens_of true [] line.now) then Stop.Fault UNCLOSED_QUOTE else stop) }
{
    if has_unclosed(line) {
        Stop::Fault(UNCLOSED_QUOTE)
    } else {
        stop
    }
}

// A text of so many lines has no `.end`.
fn no_end(lines: u32) -> RealFault
    ensures { faulted RealFault.Text (no_end lines) ≡ Err result }
{
    RealFault::Text(TextFault {
        line: lines,
        code: NO_END,
    })
}

// The circuit of a text of so many lines, if it had `.end`.
fn ended_circuit(circuit: Begun, is_ended: bool, lines: u32) -> Result<Circuit, RealFault>
    ensures { Answers RealFault.Mem result (end_of (record { state = State.Gates circuit is_ended; lines = lines })) }
{
    if is_ended {
        Ok(circuit.into_circuit())
    } else {
        Err(no_end(lines))
    }
}

impl Format for State {
    type Object = Circuit;

    type Fault = RealFault;

    ghost denoted = { real_of };

    ghost denotes = { denotes };

    ghost fault_in = { fault_in };

    ghost finds = { finds };

    ghost rules = { line_rules };

    ghost end_of = { end_of };

    ghost as_fault = { as_fault };

    fn new(alloc: Global) -> State {
        State::Header(Header::new(alloc))
    }

    #[tactic(auto, unfolding(crate::specs::inside::State::line_of))]
    fn read_line(&mut self, _: u32, line: &[u8]) -> Result<(), Stop> {
        let Some(first) = word(line, 0) else {
            return Ok(());
        };
        match self {
            State::Header(_) => {
                if has_unclosed(line) {
                    return Err(Stop::Fault(UNCLOSED_QUOTE));
                }
                self.read_header_line(line, first)
            }
            State::Gates { circuit, is_ended } => read_after_begin(circuit, is_ended, line, &first),
        }
    }

    fn end(self, lines: u32) -> Result<Circuit, RealFault> {
        match self {
            State::Gates { circuit, is_ended } => ended_circuit(circuit, is_ended, lines),
            State::Header(_) => Err(no_end(lines)),
        }
    }

    fn fault(refusal: TextRefusal) -> RealFault {
        match refusal {
            TextRefusal::Text(fault) => RealFault::Text(fault),
            TextRefusal::Mem => RealFault::Mem,
        }
    }
}
