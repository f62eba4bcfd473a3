ghost use Rattle.std.specs.Prelude.{◌≡◌, ◌+◌, ◌<◌, ◌≤◌, ◌++◌, [], length, map, take, slice_get, All, Some};
ghost use Rattle.rv_gate.specs.Marks.{input_count, without_garbage};
ghost use Rattle.rv_gate.specs.declared.word.TheConstants.{MOST_LINES};
ghost use Rattle.rv_gate.specs.Gate.{run};
ghost use Rattle.rv_gate.specs.Word.{word_with};
ghost use Rattle.rv_io.specs.Writer.{Adds};
ghost use Rattle.rv_text.specs.Bytes.{bit_byte};
ghost use Rattle.rv_simulate.specs.Simulation.{marks_asked, answer_text};
ghost use Rattle.rv_simulate.specs.inside.Answering.{AreGiven, ArePartGiven, EndsLine, answers_to_words};

use crate::waiting::Waiting;
use crate::word_line::WordLine;
use rv_gate::{Circuit, MOST_LINES, Word};
use rv_io::{Sink, Writer};

/// How many bytes an answer has at most: a digit for each line, and a line feed.
const MOST_ANSWER: usize = MOST_LINES as usize + 1;

/// How many bytes of answers are put together before they are given to a writer.
const ROOM: usize = 1024;

/// Lets the word of a line wait, which is at its end, if it gives one. An error is the number of the
/// line, which is wrong.
pub(crate) fn end_line<O: Sink>(
    circuit: &Circuit,
    all: bool,
    line: &WordLine,
    words: &mut Waiting,
    writer: &mut Writer,
    out: &mut O,
) -> Result<(), u32>
    requires { All (λ word. length word ≡ length circuit.now.names) words.old }
    ensures lines { All (λ word. length word ≡ length circuit.now.names) words.new }
    ensures ends { EndsLine circuit.now all line.now words.old writer.old (O.view out.old) result words.new writer.new
        (O.view out.new) }

    // No line takes more bits than a state of a line holds.
    ensures few { input_count (marks_asked circuit.now all) ≤ MOST_LINES }
{
    match line.word(circuit, all) {
        Ok(Some(word)) => {
            wait(circuit, all, word, words, writer, out);
            Ok(())
        }
        Ok(None) => Ok(()),
        Err(number) => Err(number),
    }
}

// Lets a word wait. If as many wait as may, their answers are given first.
fn wait<O: Sink>(
    circuit: &Circuit,
    all: bool,
    word: Word,
    words: &mut Waiting,
    writer: &mut Writer,
    out: &mut O,
)
    requires lines { All (λ word. length word ≡ length circuit.now.names) words.old }
    requires line { length word ≡ length circuit.now.names }
    ensures lines { All (λ word. length word ≡ length circuit.now.names) words.new }
    ensures gives { AreGiven circuit.now all (answers_to_words circuit.now all words.old
        ++ answer_text circuit.now all (run circuit.now.gates word))
        writer.old (O.view out.old) words.new writer.new (O.view out.new) }
{
    if words.is_full() {
        put_answers(circuit, all, words, writer, out);
    }
    words.push(word);
}

/// Gives the answers to all words that wait to the writer.
pub(crate) fn put_answers<O: Sink>(
    circuit: &Circuit,
    all: bool,
    words: &mut Waiting,
    writer: &mut Writer,
    out: &mut O,
)
    requires { All (λ word. length word ≡ length circuit.now.names) words.old }
    ensures none { words.new ≡ [] }
    ensures adds { Adds writer.old (O.view out.old) (answers_to_words circuit.now all words.old) writer.new
        (O.view out.new) }
{
    words.run(circuit);
    let mut text = [b'0'; ROOM];
    let mut len = 0;
    for word in words.words() {
        len = make_room(&text, len, writer, out);
        len += set_answer(circuit, all, *word, &mut text[len..]);
    }
    writer.put(out, &text[..len]);
    words.clear();
}

// Gives the front of a text to the writer, if there is no room for one more answer behind it. Says how
// much of the text is still to be given.
fn make_room<O: Sink>(text: &[u8], len: usize, writer: &mut Writer, out: &mut O) -> usize
    requires whole { length text.now ≡ ROOM }
    requires within { len ≤ ROOM }
    ensures room { result + MOST_ANSWER ≤ ROOM }
    ensures gives { ArePartGiven (take len text.now) writer.old (O.view out.old) (take result text.now) writer.new
        (O.view out.new) }
{
    if text.len() - len >= MOST_ANSWER {
        return len;
    }
    writer.put(out, &text[..len]);
    0
}

// Sets the front of a text to the answer that a word makes which comes out. Says how many bytes these
// are.
fn set_answer(circuit: &Circuit, all: bool, word: Word, text: &mut [u8]) -> usize
    requires lines { length word ≡ length circuit.now.names }
    requires room { MOST_ANSWER ≤ length text.old }
    ensures room { length text.new ≡ length text.old }
    ensures few { result ≤ MOST_ANSWER }
    ensures answer { take result text.new ≡ answer_text circuit.now all word }
{
    circuit.recall_invariant();
    let asked = if all { word } else { outputs(circuit, word) };
    set_digits(asked, text);
    let end = usize::from(asked.len());
    text[end] = b'\n';
    end + 1
}

// Whether the output of a line is left out.
fn is_garbage(circuit: &Circuit, line: u8) -> bool
    requires { line < length circuit.now.names }
    ensures { slice_get circuit.now.garbage line ≡ Some result }
{
    circuit.garbage(line)
}

// The bits of the lines that aren't garbage.
fn outputs(circuit: &Circuit, word: Word) -> Word
    requires { length word ≡ length circuit.now.names }
    ensures { result ≡ without_garbage circuit.now.garbage word }
{
    let mut number = 0u64;
    let mut count = 0;
    for line in 0..circuit.line_count() {
        if !is_garbage(circuit, line) {
            number = number * 2 + u64::from(word.bit(line));
            count += 1;
        }
    }
    let Some(kept) = Word::new(count, number) else {
        unreachable!()
    };
    kept
}

// Sets the front of a text to the digits of a word, eight at a time.
fn set_digits(word: Word, text: &mut [u8])
    requires few { length word ≤ MOST_LINES }
    requires room { MOST_LINES ≤ length text.old }
    ensures room { length text.new ≡ length text.old }
    ensures digits { take (length word) text.new ≡ map bit_byte word }
{
    let ones = word.ones();
    let mut line = 0;
    while line < usize::from(word.len()) {
        text[line..line + 8].copy_from_slice(&digits_of((ones >> line & 0xFF) as u8));
        line += 8;
    }
}

// The digits of eight lines: `1` for each that is in the set.
fn digits_of(lines: u8) -> [u8; 8]
    ensures { result ≡ map bit_byte (word_with 8 lines) }
{
    // Copies of seven bits, seven places apart, do not meet: bit `i` of copy `i` stands at place `8 * i`.
    let spread = u64::from(lines & 0x7F) * 0x0408_1020_4081 | u64::from(lines) << 49;
    (spread & 0x0101_0101_0101_0101 | 0x3030_3030_3030_3030).to_le_bytes()
}
