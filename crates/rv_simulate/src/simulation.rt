ghost use Rattle.std.specs.Prelude.{◌≡◌, ◌+◌, ◌<◌, ◌≤◌, ◌^◌, ◌&&◌, ◌∷◌, ℕ, List, [], true, not, length, All, OnOk, Ok};
ghost use Rattle.std.specs.Prelude.{Err};
ghost use Rattle.std.specs.List.{list_all};
ghost use Rattle.rv_gate.specs.Marks.{takes_input};
ghost use Rattle.rv_io.specs.Files.{Keeps};
ghost use Rattle.rv_io.specs.Sink.{StaysUnflushed};
ghost use Rattle.rv_simulate.specs.Simulation.{answer_to};
ghost use Rattle.rv_simulate.specs.SimulationEnds.{EndsUncounted, Simulates};
ghost use Rattle.rv_simulate.specs.inside.Answering.{AnswersLast, AnswersPiece, Collects, GivesLines, end_after};

use crate::MOST_BYTES;
use crate::answers::{end_line, put_answers};
use crate::waiting::Waiting;
use crate::word_line::WordLine;
use rv_gate::{Circuit, Mark};
use rv_io::{Files, Got, Sink, Started, Writer};

/// How many bytes one read asks for at most.
const ROOM: usize = 16384;

/// How the answering of words ends.
#[derive(Clone, Copy, Debug, PartialEq, Eq)]
pub enum WordsEnd {
    /// All words were answered.
    Done,
    /// The line of this number, counted from 1, is the first wrong one.
    Wrong(u32),
    /// The start or a read of the words failed.
    Read,
    /// More than [`MOST_BYTES`] bytes were read.
    TooLong,
    /// An answer was not sent whole.
    Write,
}

/// Why no further line is answered.
#[derive(Clone, Copy, Debug, PartialEq, Eq)]
pub(crate) enum Stop {
    /// The line of this number is wrong.
    Wrong(u32),
    /// The answers were not sent whole.
    Write,
}

// How the answering of words ends that is stopped, or is done.
fn end_of(stopped: Result<(), Stop>) -> WordsEnd
    ensures { result ≡ end_after stopped }
{
    match stopped {
        Ok(()) => WordsEnd::Done,
        Err(Stop::Wrong(number)) => WordsEnd::Wrong(number),
        Err(Stop::Write) => WordsEnd::Write,
    }
}

/// Sends what a circuit makes of each word of a text, one word on a line, as the lines come.
///
/// A word has one bit for each line that takes one, and its answer one for each that isn't garbage;
/// with `all` both have a bit for each line. Blanks and a comment from `#` on are dropped. A line is
/// looked at once it is ended, and the answers to all lines that ended in what one read gave are sent
/// before the next read. The sink is not flushed. Takes no memory.
pub fn simulate_words<F: Files, O: Sink>(
    circuit: &Circuit,
    all: bool,
    files: &mut F,
    name: &str,
    out: &mut O,
) -> WordsEnd
    ensures keeps { Keeps (F.view files.old) (F.view files.new) }
    ensures later { (O.view out.old).faults ≤ (O.view out.new).faults }
    ensures unflushed { StaysUnflushed (O.view out.old) (O.view out.new) }

    // What is started at the end is this name.
    ensures named { (F.view files.old).tells ≡ true → (F.view files.new).is_started ≡ true
        → (F.view files.new).is_opened name.now ≡ true }
    ensures uncounted { EndsUncounted result (F.view files.old) (F.view files.new) (O.view out.old) (O.view out.new) }
    ensures ends { Simulates circuit.now all name.now (F.view files.old) (F.view files.new) (O.view out.old)
        (O.view out.new) result }
{
    if files.start(name) == Started::Failed {
        return WordsEnd::Read;
    }
    let most = MOST_BYTES as usize;
    let mut line = WordLine::first();
    let mut room = [0; ROOM];
    let mut taken = 0;
    while taken < most {
        let wanted = room.len().min(most - taken);
        let count = match files.read(&mut room[..wanted]) {
            Got::Bytes(count) => count,
            Got::End => return answer_last(circuit, all, &mut line, out),
            Got::Failed => return WordsEnd::Read,
        };
        let stopped = answer_piece(circuit, all, &mut line, &room[..count], out);
        if stopped.is_err() {
            return end_of(stopped);
        }
        taken += count;
    }
    match files.read(&mut room[..1]) {
        Got::Bytes(_) => WordsEnd::TooLong,
        Got::End => answer_last(circuit, all, &mut line, out),
        Got::Failed => WordsEnd::Read,
    }
}

// Answers the last line, once the text has ended.
fn answer_last<O: Sink>(circuit: &Circuit, all: bool, line: &mut WordLine, out: &mut O) -> WordsEnd
    requires { line.old.number + 1 < 2 ^ 32 }
    ensures { AnswersLast (answer_to circuit.now all) line.old (O.view out.old) result (O.view out.new) }
{
    end_of(answer_piece(circuit, all, line, b"\n", out))
}

// Answers the lines that end in a piece.
fn answer_piece<O: Sink>(
    circuit: &Circuit,
    all: bool,
    line: &mut WordLine,
    piece: &[u8],
    out: &mut O,
) -> Result<(), Stop>
    requires { line.old.number + length piece.now < 2 ^ 32 }
    ensures counted { OnOk result (line.new.number ≤ line.old.number + length piece.now) }
    ensures answers { AnswersPiece (answer_to circuit.now all) piece.now line.old (O.view out.old) result line.new
        (O.view out.new) }
{
    let mut writer = Writer::new();
    let found = give_answers(circuit, all, line, piece, &mut writer, out);
    match writer.finish(out) {
        Ok(()) => match found {
            Ok(()) => Ok(()),
            Err(number) => Err(Stop::Wrong(number)),
        },
        Err(_) => Err(Stop::Write),
    }
}

// Whether a bit of each line is asked for, as good as asked for if no line has a constant or is garbage.
fn asks_all(circuit: &Circuit, all: bool) -> bool
    ensures { (line : List ℕ) → answer_to circuit.now result line ≡ answer_to circuit.now all line }
{
    circuit.recall_invariant();
    all || is_unmarked(circuit)
}

// Whether no line has a constant or is garbage.
fn is_unmarked(circuit: &Circuit) -> bool
    ensures { result ≡ list_all takes_input circuit.now.constants && list_all not circuit.now.garbage }
{
    take_input(circuit.constant_row()) && are_kept(circuit.garbage_row())
}

fn take_input(marks: &[Mark]) -> bool
    ensures { result ≡ list_all takes_input marks.now }
{
    marks.iter().all(|mark| matches!(mark, Mark::Input))
}

fn are_kept(garbage: &[bool]) -> bool
    ensures { result ≡ list_all not garbage.now }
{
    garbage.iter().all(|is_garbage| !is_garbage)
}

// Gives the answers to the lines that end in a piece to a writer. An error is the number of a wrong
// line.
fn give_answers<O: Sink>(
    circuit: &Circuit,
    all: bool,
    line: &mut WordLine,
    piece: &[u8],
    writer: &mut Writer,
    out: &mut O,
) -> Result<(), u32>
    requires { line.old.number + length piece.now < 2 ^ 32 }
    ensures counted { OnOk result (line.new.number ≤ line.old.number + length piece.now) }
    ensures gives { GivesLines (answer_to circuit.now all) piece.now line.old writer.old (O.view out.old) result
        line.new writer.new (O.view out.new) }
{
    let every = asks_all(circuit, all);
    let mut words = Waiting::new();
    let found = collect(circuit, every, line, piece, &mut words, writer, out);
    put_answers(circuit, every, &mut words, writer, out);
    found
}

// Collects the words of the lines that end in a piece, and gives the answers to as many as run
// together to a writer. An error is the number of a wrong line.
fn collect<O: Sink>(
    circuit: &Circuit,
    all: bool,
    line: &mut WordLine,
    piece: &[u8],
    words: &mut Waiting,
    writer: &mut Writer,
    out: &mut O,
) -> Result<(), u32>
    requires number { line.old.number + length piece.now < 2 ^ 32 }
    requires none { words.old ≡ [] }
    ensures counted { OnOk result (line.new.number ≤ line.old.number + length piece.now) }
    ensures lines { All (λ word. length word ≡ length circuit.now.names) words.new }
    ensures collects { Collects circuit.now all piece.now line.old writer.old (O.view out.old) result line.new words.new
        writer.new (O.view out.new) }
{
    let mut at = 0;
    while at < piece.len() {
        at += line.take_bits(&piece[at..]);
        if at == piece.len() {
            return Ok(());
        }
        if piece[at] == b'\n' {
            end_line(circuit, all, line, words, writer, out)?;
            line.next();
        } else {
            line.take(piece[at]);
        }
        at += 1;
    }
    Ok(())
}
