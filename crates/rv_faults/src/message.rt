ghost use Rattle.std.specs.Prelude.{◌≡◌, ◌≤◌, ◌∷◌, []};
ghost use Rattle.rv_io.specs.Sink.{Sends};
ghost use Rattle.rv_io.specs.Writer.{Adds};
ghost use Rattle.rv_gate.specs.Word.{has};
ghost use Rattle.rv_text.specs.Bytes.{bit_byte};
ghost use Rattle.rv_faults.specs.Fault.{bits_of, counted_to, measured, message_line, at_line, over_limit, reason};
ghost use Rattle.rv_faults.specs.Fault.{rule_of, said_of, template_of};
ghost use Rattle.rv_faults.specs.Line.{Reports};

use crate::{Fault, InputFault, Measure, TextFormat};
use rv_blif::code::text_of_code as blif_text;
use rv_gate::{MOST_LINES, has};
use rv_io::{Sink, WriteFault, Writer};
use rv_perm::MOST_NUMBERS;
use rv_perm::code::text_of_code as permutation_text;
use rv_pla::code::text_of_code as pla_text;
use rv_qasm::code::text_of_code as qasm_text;
use rv_real::code::text_of_code as real_text;
use rv_text::MOST_BYTES;

/// Sends the line of a fault and flushes it, by the name of the input that it is of. That this fails changes nothing
/// else.
pub fn report<E: Sink>(errs: &mut E, name: &str, fault: Fault)
    ensures reports { Reports (message_line (reason name.now fault)) (E.view errs.old) (E.view errs.new) }
    ensures later { (E.view errs.old).faults ≤ (E.view errs.new).faults }
{
    if let Ok(()) = put_message(errs, name, fault) {
        let _ = errs.flush();
    }
}

// Sends the line of a fault.
fn put_message<E: Sink>(errs: &mut E, name: &str, fault: Fault) -> Result<(), WriteFault>
    ensures { Sends (E.view errs.old) (message_line (reason name.now fault)) result (E.view errs.new) }
{
    let mut writer = Writer::new();
    writer.put(errs, b"rev: ");
    put_reason(&mut writer, errs, name, fault);
    writer.put(errs, b"\n");
    writer.finish(errs)
}

// What the fault says.
fn put_reason<E: Sink>(writer: &mut Writer, errs: &mut E, name: &str, fault: Fault)
    ensures { Adds writer.old (E.view errs.old) (reason name.now fault) writer.new (E.view errs.new) }
{
    match fault {
        Fault::CannotRead { input } => {
            writer.put(errs, b"cannot read ");
            writer.put(errs, name.as_bytes());
        }
        Fault::CannotWrite => writer.put(errs, b"cannot write"),
        Fault::Refused { input, why } => {
            writer.put(errs, name.as_bytes());
            put_refusal(writer, errs, why);
        }
        Fault::TooLong { input } => {
            writer.put(errs, name.as_bytes());
            put_limit(writer, errs);
        }
        Fault::OutOfMemory => writer.put(errs, b"out of memory"),
    }
}

// Why what an input holds is refused.
fn put_refusal<E: Sink>(writer: &mut Writer, errs: &mut E, why: InputFault)
    ensures { Adds writer.old (E.view errs.old) (said_of why) writer.new (E.view errs.new) }
{
    match why {
        InputFault::Text { format, line, code } => {
            put_on_line(writer, errs, line, rule_of(format, code));
        }
        InputFault::WrongLength { count } => {
            let what = b" numbers are no power of two from 2 to ";
            put_counted(writer, errs, count, what, MOST_NUMBERS);
        }
        InputFault::OutOfRange { place } => put_out_of_range(writer, errs, place),
        InputFault::Repeated { first, second } => put_repeated(writer, errs, first, second),
        InputFault::Conflict {
            on_line,
            off_line,
            inputs,
            word,
        } => put_conflict(writer, errs, on_line, off_line, inputs, word),
        InputFault::NotToffoli { place } => put_no_flip(writer, errs, place),
        InputFault::NotIdentity { lines, word, image } => {
            put_no_identity(writer, errs, lines, word, image);
        }
        InputFault::NotClassical { place } => put_not_classical(writer, errs, place),
        InputFault::WideTemplate { lines, most } => {
            let what = b" lines is wider than ";
            put_template(writer, errs, u32::from(lines), what, u32::from(most));
        }
        InputFault::LongTemplate { gates, most } => {
            put_template(writer, errs, gates, b" gates is longer than ", most);
        }
        InputFault::TooManyLines { count, most } => {
            put_counted(
                writer,
                errs,
                count,
                b" lines are more than ",
                u32::from(most),
            );
        }
        InputFault::TooManyEnds { count, most } => {
            let what = b" lines of inputs and outputs are more than ";
            put_counted(writer, errs, count, what, u32::from(most));
        }
        InputFault::TooManyGates { count, most } => {
            put_counted(writer, errs, count, b" gates are more than ", most);
        }
        InputFault::MoreGates { most } => put_more_gates(writer, errs, most),
        InputFault::TooManyOps { count, most } => {
            put_counted(writer, errs, count, b" operations are more than ", most);
        }
        InputFault::LargeCoefficient { lines, word, place } => {
            put_large_coefficient(writer, errs, lines, word, place);
        }
        InputFault::Undecided { count, what } => put_undecided(writer, errs, count, what),
    }
}

fn put_out_of_range<E: Sink>(writer: &mut Writer, errs: &mut E, place: u32)
    ensures { Adds writer.old (E.view errs.old) (said_of (InputFault.OutOfRange place)) writer.new (E.view errs.new) }
{
    writer.put(errs, b": image out of range at place ");
    writer.put_number(errs, u128::from(place));
}

fn put_repeated<E: Sink>(writer: &mut Writer, errs: &mut E, first: u32, second: u32)
    ensures { Adds writer.old (E.view errs.old) (said_of (InputFault.Repeated first second)) writer.new
        (E.view errs.new) }
{
    writer.put(errs, b": image repeated at places ");
    writer.put_number(errs, u128::from(first));
    writer.put(errs, b" and ");
    writer.put_number(errs, u128::from(second));
}

// The lines of two cubes that conflict, and a word of both.
fn put_conflict<E: Sink>(
    writer: &mut Writer,
    errs: &mut E,
    on: u32,
    off: u32,
    inputs: u8,
    word: u32,
)
    ensures { Adds writer.old (E.view errs.old) (said_of (InputFault.Conflict on off inputs word)) writer.new
        (E.view errs.new) }
{
    writer.put(errs, b": lines ");
    writer.put_number(errs, u128::from(on));
    writer.put(errs, b" and ");
    writer.put_number(errs, u128::from(off));
    writer.put(errs, b" conflict at word ");
    put_bits(writer, errs, inputs, u64::from(word));
}

fn put_no_flip<E: Sink>(writer: &mut Writer, errs: &mut E, place: u32)
    ensures { Adds writer.old (E.view errs.old) (said_of (InputFault.NotToffoli place)) writer.new (E.view errs.new) }
{
    writer.put(errs, b": gate ");
    writer.put_number(errs, u128::from(place));
    writer.put(errs, b" is no Toffoli gate");
}

fn put_not_classical<E: Sink>(writer: &mut Writer, errs: &mut E, place: u32)
    ensures { Adds writer.old (E.view errs.old) (said_of (InputFault.NotClassical place)) writer.new (E.view errs.new) }
{
    writer.put(errs, b": operation ");
    writer.put_number(errs, u128::from(place));
    writer.put(errs, b" is not classical");
}

// After which operation a coefficient is beyond the limit, and from which word.
fn put_large_coefficient<E: Sink>(
    writer: &mut Writer,
    errs: &mut E,
    lines: u8,
    word: u16,
    place: u32,
)
    ensures { Adds writer.old (E.view errs.old) (said_of (InputFault.LargeCoefficient lines word place)) writer.new
        (E.view errs.new) }
{
    writer.put(errs, b": coefficient too large at operation ");
    writer.put_number(errs, u128::from(place));
    writer.put(errs, b" for word ");
    put_bits(writer, errs, lines, u64::from(word));
}

// A word that a template changes, and what it makes of it.
fn put_no_identity<E: Sink>(writer: &mut Writer, errs: &mut E, lines: u8, word: u8, image: u8)
    ensures { Adds writer.old (E.view errs.old) (said_of (InputFault.NotIdentity lines word image)) writer.new
        (E.view errs.new) }
{
    writer.put(errs, b": no identity: word ");
    put_bits(writer, errs, lines, u64::from(word));
    writer.put(errs, b" gives ");
    put_bits(writer, errs, lines, u64::from(image));
}

// A count, and what it may be at most.
fn put_counted<E: Sink>(writer: &mut Writer, errs: &mut E, count: u32, what: &[u8], most: u32)
    ensures { Adds writer.old (E.view errs.old) (counted_to count what.now most) writer.new (E.view errs.new) }
{
    writer.put(errs, b": ");
    writer.put_number(errs, u128::from(count));
    writer.put(errs, what);
    writer.put_number(errs, u128::from(most));
}

fn put_more_gates<E: Sink>(writer: &mut Writer, errs: &mut E, most: u32)
    ensures { Adds writer.old (E.view errs.old) (said_of (InputFault.MoreGates most)) writer.new (E.view errs.new) }
{
    writer.put(errs, b": more than ");
    writer.put_number(errs, u128::from(most));
    writer.put(errs, b" gates");
}

fn put_undecided<E: Sink>(writer: &mut Writer, errs: &mut E, count: u64, what: Measure)
    ensures { Adds writer.old (E.view errs.old) (said_of (InputFault.Undecided count what)) writer.new
        (E.view errs.new) }
{
    writer.put(errs, b": undecided with ");
    writer.put_number(errs, u128::from(count));
    writer.put(errs, measured(what).as_bytes());
}

// What is counted.
fn measured(what: Measure) -> &'static str
    ensures { result.now ≡ measured what }
{
    match what {
        Measure::Nodes => " nodes",
        Measure::Terms => " terms",
        Measure::Steps => " steps",
        Measure::PathBits => " path bits",
    }
}

// A count of a template, and what it may be at most.
fn put_template<E: Sink>(writer: &mut Writer, errs: &mut E, count: u32, what: &[u8], most: u32)
    ensures { Adds writer.old (E.view errs.old) (template_of count what.now most) writer.new (E.view errs.new) }
{
    writer.put(errs, b": template of ");
    writer.put_number(errs, u128::from(count));
    writer.put(errs, what);
    writer.put_number(errs, u128::from(most));
}

// The rule of a format that is broken.
fn rule_of(format: TextFormat, code: u8) -> &'static str
    ensures { result.now ≡ rule_of format code }
{
    match format {
        TextFormat::Real => real_text(code),
        TextFormat::Permutation => permutation_text(code),
        TextFormat::Pla => pla_text(code),
        TextFormat::Qasm => qasm_text(code),
        TextFormat::Blif => blif_text(code),
        TextFormat::Words => "wrong word",
    }
}

/// Adds the bits of a word, by its number.
pub fn put_bits<E: Sink>(writer: &mut Writer, errs: &mut E, count: u8, word: u64)
    ensures { Adds writer.old (E.view errs.old) (bits_of count word) writer.new (E.view errs.new) }
{
    let mut left = count;
    while left > 0 {
        left -= 1;
        writer.put(errs, digit(has_bit(word, left)));
    }
}

fn digit(bit: bool) -> &'static [u8]
    ensures { result.now ≡ bit_byte bit ∷ [] }
{
    if bit { b"1" } else { b"0" }
}

// Whether a number has the bit with the value 2^`place`.
fn has_bit(number: u64, place: u8) -> bool
    ensures { result ≡ has number place }
{
    place < MOST_LINES && has(number, place)
}

// What is said of a line of an input.
fn put_on_line<E: Sink>(writer: &mut Writer, errs: &mut E, line: u32, text: &str)
    ensures { Adds writer.old (E.view errs.old) (at_line line text.now) writer.new (E.view errs.new) }
{
    writer.put(errs, b":");
    writer.put_number(errs, u128::from(line));
    writer.put(errs, b": ");
    writer.put(errs, text.as_bytes());
}

// What an input longer than the limit is told.
fn put_limit<E: Sink>(writer: &mut Writer, errs: &mut E)
    ensures { Adds writer.old (E.view errs.old) over_limit writer.new (E.view errs.new) }
{
    writer.put(errs, b": longer than ");
    writer.put_number(errs, u128::from(MOST_BYTES));
    writer.put(errs, b" bytes");
}
