ghost use Rattle.std.specs.Prelude.{◌≡◌, ◌≤◌, ◌<◌, ◌^◌, [], true, drop, length, ◌==◌, if◌then◌else◌};
ghost use Rattle.rv_reader.specs.declared.stop.Stop.{Stop};
ghost use Rattle.rv_real.specs.declared.code.TheConstants.{WRONG_OPERAND_COUNT};
ghost use Rattle.rv_text.specs.Tokens.{tokens_of};
ghost use Rattle.rv_text.specs.Found.{lexeme_at, place_after, IsWithin};
ghost use Rattle.rv_reader.specs.Gives.{StepGives};
ghost use Rattle.rv_real.specs.inside.BodySteps.{with_named, placed};
ghost use Rattle.rv_real.specs.inside.State.{body_line};
ghost use Rattle.rv_real.specs.inside.Steps.{GivesBody};
ghost use Rattle.rv_real.specs.inside.Operands.{letter_in, TakesOperands};

use crate::begun::Begun;
use crate::code::{
    DIRECTIVE_OUT_OF_PLACE, NOT_SUPPORTED, REPEATED_OPERAND, UNKNOWN_GATE, WRONG_OPERAND_COUNT,
};
use crate::gate_name::{GateName, control_count, gate_name, is_root_name};
use crate::words::count_words;
use rv_reader::Stop;
use rv_text::{Token, begins_with_dot};

// Why the operands from a place on are refused, one of which is wrong: that they are as many comes first.
#[inline(never)]
fn first_stop(stop: Stop, line: &[u8], from: usize, operands: u16) -> Stop
    requires { from ≤ length line.now }
    ensures { result
        ≡ (if length (tokens_of true [] (drop from line.now)) == operands then stop
        else Stop.Fault WRONG_OPERAND_COUNT) }
{
    if count_words(line, from) == usize::from(operands) {
        stop
    } else {
        Stop::Fault(WRONG_OPERAND_COUNT)
    }
}

// A gate whose name is known, with its operands from a place on.
fn read_named(circuit: &mut Begun, name: GateName, line: &[u8], from: usize) -> Result<(), Stop>
    requires from { from ≤ length line.now }
    requires len { length line.now < 2 ^ 31 }
    requires takes { TakesOperands name.kind name.operands }
    ensures { StepGives result circuit.new
        (placed circuit.old (letter_in name.kind) name.operands (tokens_of true [] (drop from line.now))) }
{
    circuit.recall_invariant();
    let controls = usize::from(control_count(name));
    let kept = match circuit.read_operands(controls, line, from) {
        Ok(kept) => kept,
        Err(stop) => return Err(first_stop(stop, line, from, name.operands)),
    };
    if kept.count != usize::from(name.operands) {
        return Err(Stop::Fault(WRONG_OPERAND_COUNT));
    }
    if kept.is_repeated {
        return Err(Stop::Fault(REPEATED_OPERAND));
    }
    match kept.gate(name.kind) {
        Some(gate) => circuit.push(gate),
        None => Err(Stop::Fault(REPEATED_OPERAND)),
    }
}

/// A line of the body, by its first token. Answers whether the body ends.
#[tactic(auto, unfolding(crate::specs::inside::State::body_line))]
pub(crate) fn read_body_line(circuit: &mut Begun, line: &[u8], first: &Token) -> Result<bool, Stop>
    requires within { IsWithin first.now 0 (length line.now) }
    requires len { length line.now < 2 ^ 31 }
    ensures { GivesBody result circuit.new
        (body_line circuit.old (lexeme_at line.now first.now)
        (tokens_of true [] (drop (place_after first.now) line.now))) }
{
    if first.quoted {
        return Err(Stop::Fault(UNKNOWN_GATE));
    }
    let name = &line[first.start..first.end];
    if name == b".end".as_slice() {
        return Ok(true);
    }
    if begins_with_dot(name) {
        return Err(Stop::Fault(DIRECTIVE_OUT_OF_PLACE));
    }
    match read_gate(circuit, name, line, first.end) {
        Ok(()) => Ok(false),
        Err(stop) => Err(stop),
    }
}

// A gate's line, by its name and with its operands from a place on.
#[tactic(auto, unfolding(crate::specs::Body::named_gate))]
fn read_gate(circuit: &mut Begun, name: &[u8], line: &[u8], from: usize) -> Result<(), Stop>
    requires from { from ≤ length line.now }
    requires len { length line.now < 2 ^ 31 }
    ensures { StepGives result circuit.new (with_named circuit.old name.now (tokens_of true [] (drop from line.now))) }
{
    if is_root_name(name) {
        return Err(Stop::Fault(NOT_SUPPORTED));
    }
    match gate_name(name) {
        Some(name) => read_named(circuit, name, line, from),
        None => Err(Stop::Fault(UNKNOWN_GATE)),
    }
}
