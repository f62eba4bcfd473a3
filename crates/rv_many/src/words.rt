ghost use Rattle.std.specs.Prelude.{◌≡◌, ℕ, ◌+◌, ◌%◌, ◌<◌, ◌≤◌, [], length, map, slice_index_or, All};
ghost use Rattle.rv_gate.specs.Word.{bit_of, has};
ghost use Rattle.rv_gate.specs.Gate.{run};
ghost use Rattle.rv_gate.specs.declared.word.TheConstants.{MOST_LINES};
ghost use Rattle.rv_many.specs.declared.row.TheConstants.{PART_WORDS};
ghost use Rattle.rv_many.specs.Column.{column};
ghost use Rattle.rv_many.specs.Square.{AreEight, HaveBits, IsSquare};

use crate::square::{number_by, put_columns};
use crate::{PART_WORDS, Row, run_many};
use rv_gate::{Circuit, MOST_LINES, Word};

/// How many words run side by side.
pub const MOST_WORDS: usize = 256;

/// What a circuit makes of each of at most [`MOST_WORDS`] words.
///
/// They run side by side where that takes fewer steps than one after another.
pub fn run_words(circuit: &Circuit, words: &mut [Word])
    requires few { length words.old ≤ MOST_WORDS }
    requires lines { All (λ word. length word ≡ length circuit.now.names) words.old }
    ensures { words.new ≡ map (λ word. run circuit.now.gates word) words.old }
{
    let count = words.len();
    let lines = usize::from(circuit.line_count());
    let gates = circuit.gates().len();
    // Measured: a gate on a word takes twice as long as a bit that goes into a row and back, and a gate on rows
    // twelve times as long. To go by rows takes as long as 12 words and 5 lines more.
    if 2 * count * gates < (count + 12) * (lines + 5) + 12 * gates {
        run_each(circuit, words);
    } else {
        run_together(circuit, words);
    }
}

// Runs the words one after another.
fn run_each(circuit: &Circuit, words: &mut [Word])
    requires { All (λ word. length word ≡ length circuit.now.names) words.old }
    ensures { words.new ≡ map (λ word. run circuit.now.gates word) words.old }
{
    for word in words.iter_mut() {
        *word = circuit.run(*word);
    }
}

// Runs the words side by side.
fn run_together(circuit: &Circuit, words: &mut [Word])
    requires few { length words.old ≤ MOST_WORDS }
    requires lines { All (λ word. length word ≡ length circuit.now.names) words.old }
    ensures { words.new ≡ map (λ word. run circuit.now.gates word) words.old }
{
    let mut room = [Row::ones(); MOST_LINES as usize];
    let rows = &mut room[..usize::from(circuit.line_count())];
    set_rows(words, rows);
    run_many(circuit.gates(), rows);
    set_words(rows, words);
}

/// Sets the rows to those of the words.
pub fn set_rows(words: &[Word], rows: &mut [Row])
    requires few { length words.now ≤ MOST_WORDS }
    requires within { length rows.old ≤ MOST_LINES }
    requires lines { All (λ word. length word ≡ length rows.old) words.now }
    ensures lines { length rows.new ≡ length rows.old }
    ensures words { (j : ℕ) → j < length words.now → column rows.new j ≡ slice_index_or words.now j [] }
{
    let mut line = 0;
    while line < rows.len() {
        let end = rows.len().min(line + 8);
        set_eight_rows(words, line as u8, &mut rows[line..end]);
        line += 8;
    }
}

// Sets at most eight rows to those of the lines from one on.
fn set_eight_rows(words: &[Word], line: u8, rows: &mut [Row])
    requires few { length words.now ≤ MOST_WORDS }
    requires line { line < MOST_LINES }
    requires eight { length rows.old ≤ 8 }
    ensures lines { length rows.new ≡ length rows.old }
    ensures bits { (i j : ℕ) → i < length rows.old → j < length words.now
        → bit_of (column rows.new j) i ≡ bit_of (slice_index_or words.now j []) (line + i) }
{
    let a = parts_of(words, 0, line);
    let b = parts_of(words, PART_WORDS, line);
    let c = parts_of(words, 2 * PART_WORDS, line);
    let d = parts_of(words, 3 * PART_WORDS, line);
    for i in 0..rows.len() {
        rows[i] = Row {
            parts: [
                number_by(&a[i]),
                number_by(&b[i]),
                number_by(&c[i]),
                number_by(&d[i]),
            ],
        };
    }
}

// The parts of the rows of eight lines from one on that the words from a place on have.
fn parts_of(words: &[Word], from: usize, line: u8) -> [[u8; 8]; 8]
    requires from { from < MOST_WORDS }
    requires few { length words.now ≤ MOST_WORDS }
    requires line { line < MOST_LINES }
    ensures numbers { AreEight result }
    ensures bits { HaveBits result (λ i j. bit_of (slice_index_or words.now (from + j) []) (line + i)) }
{
    let end = words.len().min(from + PART_WORDS);
    let mut parts = [[0; 8]; 8];
    let mut block = 0;
    while from + 8 * block < end {
        let place = from + 8 * block;
        let next = end.min(place + 8);
        put_columns(
            square_of_words(&words[place..next], line),
            &mut parts,
            block,
        );
        block += 1;
    }
    parts
}

// The bits that at most eight words have on eight lines from one on, a row for each word.
fn square_of_words(words: &[Word], line: u8) -> u64
    requires eight { length words.now ≤ 8 }
    requires line { line < MOST_LINES }
    ensures { IsSquare result (λ i j. bit_of (slice_index_or words.now i []) (line + j)) }
{
    let mut square = 0;
    let mut place = words.len();
    while place > 0 {
        place -= 1;
        square = square << 8 | words[place].ones() >> line & 0xFF;
    }
    square
}

// Sets the words to those of the rows.
fn set_words(rows: &[Row], words: &mut [Word])
    requires few { length words.old ≤ MOST_WORDS }
    requires within { length rows.now ≤ MOST_LINES }
    ensures count { length words.new ≡ length words.old }
    ensures words { (j : ℕ) → j < length words.old → slice_index_or words.new j [] ≡ column rows.now j }
{
    let mut place = 0;
    while place < words.len() {
        let end = words.len().min(place + 8);
        set_eight_words(rows, place, &mut words[place..end]);
        place += 8;
    }
}

// Sets at most eight words to those of the places from one on.
fn set_eight_words(rows: &[Row], place: usize, words: &mut [Word])
    requires eight { length words.old ≤ 8 }
    requires within { length rows.now ≤ MOST_LINES }
    requires place { place < MOST_WORDS }
    requires whole { place % 8 ≡ 0 }
    ensures count { length words.new ≡ length words.old }
    ensures words { (j : ℕ) → j < length words.old → slice_index_or words.new j [] ≡ column rows.now (place + j) }
{
    let sets = sets_of(rows, place);
    for i in 0..words.len() {
        let Some(word) = Word::of_lines(rows.len() as u8, number_by(&sets[i])) else {
            unreachable!()
        };
        words[i] = word;
    }
}

// The lines on which the words of eight places from one on have the bit 1.
fn sets_of(rows: &[Row], place: usize) -> [[u8; 8]; 8]
    requires within { length rows.now ≤ MOST_LINES }
    requires place { place < MOST_WORDS }
    requires whole { place % 8 ≡ 0 }
    ensures numbers { AreEight result }
    ensures bits { HaveBits result (λ i j. bit_of (column rows.now (place + i)) j) }
{
    let mut sets = [[0; 8]; 8];
    let mut block = 0;
    while 8 * block < rows.len() {
        let end = rows.len().min(8 * block + 8);
        put_columns(
            square_of_rows(&rows[8 * block..end], place),
            &mut sets,
            block,
        );
        block += 1;
    }
    sets
}

// The bits that at most eight rows have at eight places from one on, a row for each of them.
fn square_of_rows(rows: &[Row], place: usize) -> u64
    requires eight { length rows.now ≤ 8 }
    requires place { place < MOST_WORDS }
    requires whole { place % 8 ≡ 0 }
    ensures { IsSquare result (λ i j. bit_of (column rows.now (place + j)) i) }
{
    let mut square = 0;
    let mut line = rows.len();
    while line > 0 {
        line -= 1;
        square = square << 8 | rows[line].parts[place / PART_WORDS] >> (place % PART_WORDS) & 0xFF;
    }
    square
}

/// The word of a place.
pub fn word_of(rows: &[Row], place: usize) -> Word
    requires place { place < MOST_WORDS }
    requires within { length rows.now ≤ MOST_LINES }
    ensures { result ≡ column rows.now place }
{
    let mut number = 0u64;
    for row in rows {
        number = number * 2 + u64::from(row.bit(place));
    }
    let Some(word) = Word::new(rows.len() as u8, number) else {
        unreachable!()
    };
    word
}
