ghost use Rattle.std.specs.Prelude.{◌≡◌, ◌≤◌, ◌<◌, ◌+◌, ◌⊎◌, ℕ, List, [], ◌++◌, true, false, length, take, IfOk, IfErr};
ghost use Rattle.std.specs.Prelude.{OnOk};
ghost use Rattle.std.specs.Option.{option_map};
ghost use Rattle.rv_text.specs.Lines.{ended_after, last_line};
ghost use Rattle.rv_text.specs.Held.{Held};
ghost use Rattle.rv_text.specs.Spelled.{IsOneLine};
ghost use Rattle.rv_text.specs.declared.fault.TextFault.{TextFault};
ghost use Rattle.rv_text.specs.declared.lines.TheConstants.{MOST_BYTES};
ghost use Rattle.rv_reader.specs.declared.text_refusal.TextRefusal.{TextRefusal};
ghost use Rattle.rv_reader.specs.declared.text_refusal.TextRefusal.TheVariants.{Text as Faulty, Mem as OutOfMemory};
ghost use Rattle.rv_reader.specs.Rules.{on_line, lines_read};
ghost use Rattle.rv_reader.specs.inside.Progress.{reading, refused, fed_on, finished, refusal_of, StandsFor, FedOn};
ghost use Rattle.rv_reader.specs.inside.Progress.{Leads, IsBetweenLines};
ghost use Rattle.rv_reader.specs.Feeding.{text_as, unless_refused, Answers};

use crate::{Format, Stop, TextReader, TextRefusal, Whole};
use rv_text::{Lines, MOST_BYTES, TextFault};
use std::alloc::Global;
use std::marker::Model;

// Reads the line that is ready.
fn read_ready<S: Format>(lines: &Lines, state: &mut S) -> Result<(), TextRefusal>
    requires ready { lines.now.is_ready ≡ true }
    requires one { IsOneLine lines.now.line }
    requires room { S.size state.old + length lines.now.line ≤ MOST_BYTES }
    ensures leads { Leads result state.new
        (on_line lines.now.number (S.rules.line_of state.old lines.now.number lines.now.line)) }
    ensures size { OnOk result (S.size state.new ≤ S.size state.old + length lines.now.line + 1) }
{
    match state.read_line(lines.number(), lines.text()) {
        Ok(()) => Ok(()),
        Err(Stop::Fault(code)) => Err(TextRefusal::Text(TextFault {
            line: lines.number(),
            code,
        })),
        Err(Stop::Mem) => Err(TextRefusal::Mem),
    }
}

// Takes bytes of the piece, up to its first line feed.
fn take_some<S: Format>(
    lines: &mut Lines,
    state: &mut S,
    piece: &[u8],
) -> Result<usize, TextRefusal>
    requires between { IsBetweenLines lines.old }
    requires size { S.size state.old + length lines.old.line ≤ lines.old.taken }
    requires limit { lines.old.taken + length piece.now ≤ MOST_BYTES }
    ensures between { IsBetweenLines lines.new }
    ensures size { OnOk result (S.size state.new + length lines.new.line ≤ lines.new.taken) }
    ensures limit { lines.new.taken ≤ lines.old.taken + length piece.now }
    ensures used { IfOk result (λ used.
        (used ≤ length piece.now) × (0 < length piece.now → 0 < used) × (lines.new.taken ≡ lines.old.taken + used)) }
    ensures ok { IfOk result (λ used.
        fed_on S.rules (reading lines.old.line lines.old.number state.old) (take used piece.now)
        ≡ reading lines.new.line lines.new.number state.new) }
    ensures err { IfErr result (λ refusal.
        (refusal ≡ OutOfMemory)
        ⊎ (fed_on S.rules (reading lines.old.line lines.old.number state.old) piece.now ≡ refused refusal)) }
{
    let fed = match lines.feed(piece) {
        Ok(fed) => fed,
        Err(_) => return Err(TextRefusal::Mem),
    };
    if fed.ready {
        let outcome = read_ready(lines, state);
        lines.next_line();
        match outcome {
            Ok(()) => Ok(fed.used),
            Err(refusal) => Err(refusal),
        }
    } else {
        Ok(fed.used)
    }
}

// Takes the piece.
fn take_all<S: Format>(lines: &mut Lines, state: &mut S, piece: &[u8]) -> Result<(), TextRefusal>
    requires between { IsBetweenLines lines.old }
    requires size { S.size state.old + length lines.old.line ≤ lines.old.taken }
    requires limit { lines.old.taken + length piece.now ≤ MOST_BYTES }
    ensures between { IsBetweenLines lines.new }
    ensures size { OnOk result (S.size state.new + length lines.new.line ≤ lines.new.taken) }
    ensures limit { lines.new.taken ≤ lines.old.taken + length piece.now }
    ensures taken { OnOk result (lines.new.taken ≡ lines.old.taken + length piece.now) }
    ensures ok { OnOk result
        (fed_on S.rules (reading lines.old.line lines.old.number state.old) piece.now
        ≡ reading lines.new.line lines.new.number state.new) }
    ensures err { IfErr result (λ refusal.
        (refusal ≡ OutOfMemory)
        ⊎ (fed_on S.rules (reading lines.old.line lines.old.number state.old) piece.now ≡ refused refusal)) }
{
    let mut at = 0;
    while at < piece.len() {
        match take_some(lines, state, &piece[at..]) {
            Ok(used) => at += used,
            Err(refusal) => return Err(refusal),
        }
    }
    Ok(())
}

// Takes a last line that lacks its line feed.
fn take_last<S: Format>(lines: &mut Lines, state: &mut S) -> Result<(), TextRefusal>
    requires between { IsBetweenLines lines.old }
    requires size { S.size state.old + length lines.old.line ≤ lines.old.taken }
    ensures size { OnOk result (S.size state.new ≤ MOST_BYTES + 1) }
    ensures leads { Leads result state.new (lines_read S.rules lines.old.number state.old (last_line lines.old.line)) }
    ensures number { lines.new.number ≡ lines.old.number + length (last_line lines.old.line) }
{
    if lines.finish() {
        read_ready(lines, state)
    } else {
        Ok(())
    }
}

/// Reads a text, which comes in pieces of any size, line by line into a state.
///
/// It takes at most [`MOST_BYTES`] bytes in all. Once a piece is refused, the reader answers that
/// refusal to all that follows, want of memory too. What a reader holds is the line that is being
/// read, and the state so far.
#[derive(Drop)]
pub struct Reader<S: Format> {
    lines: Lines,
    state: S,
    refused: Option<TextRefusal>,
}

impl<S: Format> Model for Reader<S> {
    ghost use Rattle.std.specs.Prelude.{◌≡◌, ◌≤◌, ◌+◌, None, length};
    ghost use Rattle.rv_reader.specs.inside.Progress.{Feeding, progress_seen, IsBetweenLines};

    ghost Value = { Feeding S };

    ghost view = { λ r.
        record { fed = r.lines.taken; progress = progress_seen r.refused r.lines.line r.lines.number r.state } };

    ghost invariant = { λ r.
        IsBetweenLines r.lines × (r.refused ≡ None → S.size r.state + length r.lines.line ≤ r.lines.taken) };
}

impl<S: Format> TextReader for Reader<S> {
    type Object = S::Object;

    type Fault = S::Fault;

    ghost denoted = { S.denoted };

    ghost ended = { λ text. unless_refused (option_map (text_as S.as_fault) (S.fault_in (ended_after [] text))) };

    ghost mem = { S.as_fault OutOfMemory };

    ghost Stands = { StandsFor S.rules };

    ghost fed = { λ reader. reader.fed };

    ghost refusal = { λ reader. refusal_of S.as_fault reader.progress };

    fn new(alloc: Global) -> Reader<S> {
        Reader {
            lines: Lines::new(alloc),
            state: S::new(alloc),
            refused: None,
        }
    }

    fn feed(&mut self, piece: &[u8]) -> Result<(), S::Fault> {
        match self.feed_all(piece) {
            Ok(()) => Ok(()),
            Err(refusal) => Err(S::fault(refusal)),
        }
    }

    fn finish(self) -> Result<S::Object, S::Fault> {
        match self.finish_all() {
            Ok(whole) => whole.state.end(whole.lines),
            Err(refusal) => Err(S::fault(refusal)),
        }
    }
}

impl<S: Format> Reader<S> {
    // Takes the piece, unless the reader is refused.
    fn feed_all(&mut self, piece: &[u8]) -> Result<(), TextRefusal>
        requires { self.old.fed + length piece.now ≤ MOST_BYTES }
        ensures fed { OnOk result (self.new.fed ≡ self.old.fed + length piece.now) }
        ensures fed_most { self.new.fed ≤ self.old.fed + length piece.now }
        ensures gives { FedOn S.rules result self.old.progress self.new.progress piece.now }
        ensures stays { (refusal : TextRefusal) → self.old.progress ≡ refused refusal → self.new ≡ self.old }
    {
        if let Some(refusal) = self.refused {
            return Err(refusal);
        }
        match take_all(&mut self.lines, &mut self.state, piece) {
            Ok(()) => Ok(()),
            Err(refusal) => {
                self.refused = Some(refusal);
                Err(refusal)
            }
        }
    }

    // What all lines of the text gave, a last one that lacks its line feed too, or the first fault in
    // them.
    fn finish_all(self) -> Result<Whole<S>, TextRefusal>
        ensures gives { Answers OutOfMemory result (finished S.rules self.progress) }
        ensures size { IfOk result (λ whole. S.size whole.state ≤ MOST_BYTES + 1) }
        ensures stays { (refusal : TextRefusal) → self.progress ≡ refused refusal → result ≡ Err refusal }
    {
        let Reader {
            mut lines,
            mut state,
            refused,
        } = self;
        if let Some(refusal) = refused {
            return Err(refusal);
        }
        if let Err(refusal) = take_last(&mut lines, &mut state) {
            return Err(refusal);
        }
        Ok(Whole {
            state,
            lines: lines.number(),
        })
    }
}
