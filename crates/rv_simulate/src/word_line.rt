ghost use Rattle.std.specs.Prelude.{◌≡◌, ◌+◌, ◌-◌, ◌<◌, ◌≤◌, ◌^◌, ◌++◌, map, true, length, slice_get, take, Some, IfOk};
ghost use Rattle.std.specs.Prelude.{IfSome};
ghost use Rattle.std.specs.List.{list_all};
ghost use Rattle.std.specs.Option.{SomeIff};
ghost use Rattle.rv_gate.specs.Marks.{input_count, with_constants};
ghost use Rattle.rv_gate.specs.Word.{word_of};
ghost use Rattle.rv_gate.specs.declared.word.TheConstants.{MOST_LINES};
ghost use Rattle.rv_simulate.specs.Simulation.{answer_to_bits, is_bit, marks_asked};
ghost use Rattle.rv_simulate.specs.inside.Answering.{GivesWord};
ghost use Rattle.rv_simulate.specs.inside.WordLine.{IsOctet, after_byte, after_bytes, bits_in, is_one, unread};
ghost use Rattle.rv_simulate.specs.inside.WordLine.{with_bit};

use rv_gate::{Circuit, MOST_LINES, Mark, Word, has};
use std::marker::Model;

/// A line of a text of words, as far as it was read. Its size is fixed, however long the line gets.
#[derive(Drop)]
pub(crate) struct WordLine {
    number: u32,
    // Its bits as the number of a word, and how many they are.
    bits: u64,
    count: u8,
    in_comment: bool,
    is_wrong: bool,
}

impl Model for WordLine {
    ghost use Rattle.std.specs.Prelude.{◌<◌, ◌≤◌, ◌^◌};
    ghost use Rattle.rv_gate.specs.Word.{word_of};
    ghost use Rattle.rv_gate.specs.declared.word.TheConstants.{MOST_LINES};
    ghost use Rattle.rv_simulate.specs.inside.WordLine.{WordLine};

    ghost Value = { WordLine };

    ghost view = { λ s.
        record { number = s.number; bits = word_of s.count s.bits; in_comment = s.in_comment; is_wrong = s.is_wrong } };

    ghost invariant = { λ s. (s.count ≤ MOST_LINES) × (s.bits < 2 ^ s.count) };
}

impl WordLine {
    /// The first line, of which nothing was read.
    #[tactic(auto, unfolding(rv_gate::specs::Word::word_of))]
    pub fn first() -> WordLine
        ensures { result ≡ unread 1 }
    {
        WordLine {
            number: 1,
            bits: 0,
            count: 0,
            in_comment: false,
            is_wrong: false,
        }
    }

    /// Goes on to the next line.
    #[tactic(auto, unfolding(rv_gate::specs::Word::word_of))]
    pub fn next(&mut self)
        requires { self.old.number + 1 < 2 ^ 32 }
        ensures { self.new ≡ unread (self.old.number + 1) }
    {
        self.number += 1;
        self.bits = 0;
        self.count = 0;
        self.in_comment = false;
        self.is_wrong = false;
    }

    /// Takes a byte of the line, no line feed.
    pub fn take(&mut self, byte: u8)
        ensures { self.new ≡ after_byte self.old byte }
    {
        if self.in_comment {
            return;
        }
        match byte {
            b'#' => self.in_comment = true,
            b' ' | b'\t' => {}
            b'0' | b'1' => self.take_bit(byte == b'1'),
            _ => self.is_wrong = true,
        }
    }

    // Takes a bit, unless there are as many as may be.
    fn take_bit(&mut self, bit: bool)
        ensures { self.new ≡ with_bit self.old bit }
    {
        if self.count == MOST_LINES {
            self.is_wrong = true;
            return;
        }
        self.bits = self.bits * 2 + u64::from(bit);
        self.count += 1;
    }

    /// Takes the bits that stand at the front of some bytes of the line, if no comment was begun, but no
    /// more than may be. Says how many bytes these are.
    pub fn take_bits(&mut self, bytes: &[u8]) -> usize
        ensures within { result ≤ length bytes.now }
        ensures bits { list_all is_bit (take result bytes.now) ≡ true }
        ensures new { self.new ≡ after_bytes self.old (take result bytes.now) }
    {
        if self.in_comment {
            return 0;
        }
        let (bits, taken) = with_bits(self.bits, self.count, bytes);
        self.bits = bits;
        self.count += taken;
        usize::from(taken)
    }

    /// The word that the line gives, which is at its end, or none if it has no bits. An error is the
    /// number of the line, which is wrong.
    pub fn word(&self, circuit: &Circuit, all: bool) -> Result<Option<Word>, u32>
        ensures gives { GivesWord circuit.now all (answer_to_bits circuit.now all (bits_in self.now)) self.now.number
            result }
        ensures lines { IfOk result (λ word. IfSome word (λ word. length word ≡ length circuit.now.names)) }

        // No line takes more bits than fit here.
        ensures few { input_count (marks_asked circuit.now all) ≤ MOST_LINES }
    {
        if self.count > circuit.line_count() || self.is_wrong {
            return Err(self.number);
        }
        if self.count == 0 {
            return Ok(None);
        }
        match filled(circuit, all, self.count, self.bits) {
            Some(word) => Ok(Some(word)),
            None => Err(self.number),
        }
    }
}

fn is_bit(byte: u8) -> bool
    ensures { result ≡ is_bit byte }
{
    byte == b'0' || byte == b'1'
}

// The number of the eight bits that stand at the front of some bytes, if there are so many.
fn octet(bytes: &[u8]) -> Option<u8>
    ensures { IfSome result (λ octet. IsOctet octet bytes.now) }
{
    let digits = u64::from_be_bytes(*bytes.first_chunk()?);
    // Each byte is 0x30 or 0x31.
    if digits & 0xFEFE_FEFE_FEFE_FEFE != 0x3030_3030_3030_3030 {
        return None;
    }
    let spread = digits - 0x3030_3030_3030_3030;
    // Digit `i` is then added at bit `7 - i` of the highest byte, with no carry into it.
    Some((spread.wrapping_mul(0x0102_0408_1020_4080) >> 56) as u8)
}

// The number of a word with the bits that stand at the front of some bytes behind it, and how many
// these are: as many as a word may have.
fn with_bits(number: u64, count: u8, bytes: &[u8]) -> (u64, u8)
    requires few { count ≤ MOST_LINES }
    requires small { number < 2 ^ count }
    ensures few { count + result.1 ≤ MOST_LINES }
    ensures small { result.0 < 2 ^ (count + result.1) }
    ensures within { result.1 ≤ length bytes.now }
    ensures bits { list_all is_bit (take result.1 bytes.now) ≡ true }
    ensures word { word_of (count + result.1) result.0 ≡ word_of count number ++ map is_one (take result.1 bytes.now) }
{
    let most = bytes.len().min(usize::from(MOST_LINES - count));
    let mut number = number;
    let mut taken = 0;
    while let Some(octet) = octet(&bytes[taken..most]) {
        number = number * 256 + u64::from(octet);
        taken += 8;
    }
    while taken < most && is_bit(bytes[taken]) {
        number = number * 2 + u64::from(bytes[taken] - b'0');
        taken += 1;
    }
    (number, taken as u8)
}

// The word that bits make with the constants, if they are as many as lines that take one. The bits are
// those of a number.
fn filled(circuit: &Circuit, all: bool, count: u8, bits: u64) -> Option<Word>
    requires few { count ≤ MOST_LINES }
    requires small { bits < 2 ^ count }
    ensures { SomeIff result (count ≡ input_count (marks_asked circuit.now all))
        (with_constants (marks_asked circuit.now all) (word_of count bits)) }
{
    if all {
        whole(circuit, count, bits)
    } else {
        among_constants(circuit, count, bits)
    }
}

// The word that bits make which each line takes, if they are as many as lines.
fn whole(circuit: &Circuit, count: u8, bits: u64) -> Option<Word>
    requires few { count ≤ MOST_LINES }
    requires small { bits < 2 ^ count }
    ensures { SomeIff result (count ≡ input_count (marks_asked circuit.now true))
        (with_constants (marks_asked circuit.now true) (word_of count bits)) }
{
    if count == circuit.line_count() {
        Word::new(count, bits)
    } else {
        None
    }
}

// The word that bits make with the constants of the circuit, if they are as many as the other lines.
fn among_constants(circuit: &Circuit, count: u8, bits: u64) -> Option<Word>
    requires few { count ≤ MOST_LINES }
    ensures { SomeIff result (count ≡ input_count circuit.now.constants)
        (with_constants circuit.now.constants (word_of count bits)) }
{
    let lines = circuit.line_count();
    let mut number = 0u64;
    let mut used = 0;
    for line in 0..lines {
        let bit = match circuit.constant(line) {
            Mark::Zero => false,
            Mark::One => true,
            Mark::Input => {
                if used == count {
                    return None;
                }
                used += 1;
                has(bits, count - used)
            }
        };
        number = number * 2 + u64::from(bit);
    }
    if used == count {
        Word::new(lines, number)
    } else {
        None
    }
}
