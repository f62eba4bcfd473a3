// The end of a text.
ghost use Rattle.rv_reader.specs.Feeding.{Answers};
ghost use Rattle.rv_blif.specs.declared.fault.BlifFault.TheVariants.{Mem as OutOfMemory};
ghost use Rattle.rv_blif.specs.Reading.{begun_read, end_of};
ghost use Rattle.rv_blif.specs.inside.State.{IsRead};

use crate::fault::BlifFault;
use crate::line::State;
use crate::logic::Logic;
use crate::network::network_of;
use rv_reader::{Stop, Whole};
use rv_text::TextFault;

// Reads what was begun as a line.
fn read_begun(state: &mut State, lines: u32) -> Result<(), BlifFault>
    ensures { IsRead result state.new (begun_read lines state.old state.old.begun) }
{
    if state.begun.is_empty() {
        return Ok(());
    }
    match state.read_whole(lines, &[]) {
        Ok(()) => Ok(()),
        Err(Stop::Fault(code)) => Err(BlifFault::Text(TextFault { line: lines, code })),
        Err(Stop::Mem) => Err(BlifFault::Mem),
    }
}

// The network that the lines give, or the first fault of the end.
fn finish(state: &mut State, lines: u32) -> Result<Logic, BlifFault>
    ensures { Answers OutOfMemory result (end_of (record { state = state.old; lines = lines })) }
{
    read_begun(state, lines)?;
    match state.close() {
        Ok(()) => network_of(state, lines),
        Err(_) => Err(BlifFault::Mem),
    }
}

/// The network that the lines of a text give, or the first fault of its end.
pub(crate) fn end_of(whole: Whole<State>) -> Result<Logic, BlifFault>
    ensures { Answers OutOfMemory result (end_of whole) }
{
    let Whole { mut state, lines } = whole;
    finish(&mut state, lines)
}
