ghost use Rattle.std.specs.Prelude.{◌≡◌, length};
ghost use Rattle.rv_io.specs.Sink.{Sends};
ghost use Rattle.rv_io.specs.Writer.{Adds};
ghost use Rattle.rv_cmd.specs.Commands.Check.{IsUndecidedByPaths, TellsByPaths, TellsVerdict, check_differs};
ghost use Rattle.rv_cmd.specs.Commands.{row_by_paths, row_of_check};
ghost use Rattle.rv_cmd.specs.Commands.Check.{check_report, lines_said, no_verdict, paths_limits};
ghost use Rattle.rv_cmd.specs.Commands.Check.{says_different, verdict_said, verdict_text, witness_text};
ghost use Rattle.rv_cmd.specs.Names.{names_read};
ghost use Rattle.rv_cmd.specs.Row.{always_told};
ghost use Rattle.rv_cmd.specs.inside.Making.{Makes};
ghost use Rattle.rv_cmd.specs.inside.Told.{told_finding};

use crate::commands::check_constants::FromConstants;
use crate::commands::check_networks::OfNetworks;
use crate::making::{TwoInputs, TwoSearch, of_two, told_of_two};
use crate::product::{Made, Product};
use rv_check::{CheckFault, MOST_CHECKED_LINES, Verdict, check as checked};
use rv_faults::{InputFault, Measure, Refusal, Unmade, put_bits};
use rv_gate::Circuit;
use rv_io::{Files, Sink, WriteFault, Writer};
use rv_qasm::{Program, QasmReader};
use rv_real::RealReader;
use rv_sums::{Finding, MOST_STEPS, MOST_TERMS, check_by_paths};
use rv_words::{CheckedBy, Form, Settings};
use std::alloc::Global;

/// Whether the network of an OpenQASM text does exactly what a circuit does, or another network.
pub(crate) fn check<F: Files>(
    alloc: Global,
    settings: &Settings,
    files: &mut F,
) -> Result<Made, Unmade>
    requires { length (names_read settings.now) ≡ 2 }
    ensures { Makes (row_of_check settings.now.origin settings.now.checked settings.now.constants) (names_read settings.now) (F.view files.old)
        (F.view files.new) result }
{
    match settings.origin {
        Form::Qasm => told_of_two(alloc, settings, files, &OfNetworks),
        _ => match settings.checked {
            CheckedBy::Words => of_two(alloc, settings, files, &ByWords),
            CheckedBy::Paths => by_paths(alloc, settings, files),
        },
    }
}

// From all words, or from those that hold the circuit's constants.
fn by_paths<F: Files>(alloc: Global, settings: &Settings, files: &mut F) -> Result<Made, Unmade>
    requires { length (names_read settings.now) ≡ 2 }
    ensures { Makes (row_by_paths settings.now.constants) (names_read settings.now) (F.view files.old) (F.view files.new)
        result }
{
    if settings.constants {
        told_of_two(alloc, settings, files, &FromConstants)
    } else {
        told_of_two(alloc, settings, files, &ByPaths)
    }
}

// From each word in turn.
struct ByWords;

impl TwoInputs for ByWords {
    type First = RealReader;

    type Second = QasmReader;

    ghost report = { λ command. check_report };

    ghost differs = { λ command. check_differs };

    ghost Lacks = { λ command. always_told };

    ghost Means = { λ command. TellsVerdict };

    fn make(&self, alloc: Global, circuit: &Circuit, program: &Program) -> Result<Made, Refusal> {
        let net = program.net();
        let lines = net.lines();
        match checked(alloc, circuit, net) {
            Ok(verdict) => Ok(told(lines, verdict)),
            Err(fault) => Err(no_verdict(lines, fault)),
        }
    }
}

// By sums over paths, from all words at once.
struct ByPaths;

impl TwoSearch for ByPaths {
    type First = RealReader;

    type Second = QasmReader;

    ghost limits = { λ command. paths_limits };

    ghost differs = { λ command. check_differs };

    ghost Lacks = { λ command. IsUndecidedByPaths };

    ghost Means = { λ command. TellsByPaths };

    fn tell(&self, alloc: Global, circuit: &Circuit, program: &Program) -> Result<Made, Refusal> {
        let net = program.net();
        let (circuit_lines, lines) = (circuit.line_count(), net.lines());
        if circuit_lines != lines {
            return Ok(told(lines, Verdict::Lines(circuit_lines, lines)));
        }
        match check_by_paths(alloc, circuit, net) {
            Ok(Finding::Same) => Ok(told(lines, Verdict::Same)),
            Ok(Finding::Differs(word)) => Ok(Made {
                product: Product::Witness(lines, word),
                differs: true,
            }),
            Ok(Finding::Terms) => Err(undecided(MOST_TERMS as u64, Measure::Terms)),
            Ok(Finding::Steps) => Err(undecided(MOST_STEPS, Measure::Steps)),
            Ok(Finding::Paths(left)) => Err(undecided(u64::from(left), Measure::PathBits)),
            Err(_) => Err(Refusal::OutOfMemory),
        }
    }
}

/// A verdict on a network of so many lines, as it is to be written.
pub(crate) fn told(lines: u8, verdict: Verdict) -> Made
    ensures product { result.product ≡ Product.Verdict lines verdict }
    ensures differs { result.differs ≡ says_different verdict }
{
    Made {
        product: Product::Verdict(lines, verdict),
        differs: says_different(verdict),
    }
}

// What was followed grew to so much.
fn undecided(count: u64, what: Measure) -> Refusal
    ensures { result ≡ Refusal.Refused 1 (InputFault.Undecided count what) }
{
    Refusal::Refused {
        input: 1,
        why: InputFault::Undecided { count, what },
    }
}

/// What is found of a network on so many lines, as it is to be written, or why nothing is.
pub(crate) fn told_finding(lines: u8, finding: Finding) -> Result<Made, Refusal>
    ensures { result ≡ told_finding lines finding }
{
    match finding {
        Finding::Same => Ok(told(lines, Verdict::Same)),
        Finding::Differs(word) => Ok(Made {
            product: Product::Witness(lines, word),
            differs: true,
        }),
        Finding::Terms => Err(undecided(MOST_TERMS as u64, Measure::Terms)),
        Finding::Steps => Err(undecided(MOST_STEPS, Measure::Steps)),
        Finding::Paths(left) => Err(undecided(u64::from(left), Measure::PathBits)),
    }
}

// Whether a verdict is that the circuit and the network differ.
fn says_different(verdict: Verdict) -> bool
    ensures { result ≡ says_different verdict }
{
    match verdict {
        Verdict::Same => false,
        Verdict::Lines(..) | Verdict::Differs(_) => true,
    }
}

// Why there is no verdict, for a network on so many lines.
fn no_verdict(lines: u8, fault: CheckFault) -> Refusal
    ensures { result ≡ no_verdict lines fault }
{
    let most = MOST_CHECKED_LINES;
    match fault {
        CheckFault::CircuitLines(count) => Refusal::Refused {
            input: 0,
            why: InputFault::TooManyLines {
                count: u32::from(count),
                most,
            },
        },
        CheckFault::NetLines(count) => Refusal::Refused {
            input: 1,
            why: InputFault::TooManyLines {
                count: u32::from(count),
                most,
            },
        },
        CheckFault::TooLarge { word, place } => Refusal::Refused {
            input: 1,
            why: InputFault::LargeCoefficient { lines, word, place },
        },
        CheckFault::Mem => Refusal::OutOfMemory,
    }
}

/// Sends a verdict on a network of so many lines.
pub(crate) fn put_verdict<O: Sink>(
    lines: u8,
    verdict: Verdict,
    out: &mut O,
) -> Result<(), WriteFault>
    ensures { Sends (O.view out.old) (verdict_text lines verdict) result (O.view out.new) }
{
    let mut writer = Writer::new();
    put_said(&mut writer, out, lines, verdict);
    writer.put(out, b"\n");
    writer.finish(out)
}

/// Sends a word at which a network of so many lines differs.
pub(crate) fn put_witness<O: Sink>(lines: u8, word: u64, out: &mut O) -> Result<(), WriteFault>
    ensures { Sends (O.view out.old) (witness_text lines word) result (O.view out.new) }
{
    let mut writer = Writer::new();
    writer.put(out, b"differs, as at word ");
    put_bits(&mut writer, out, lines, word);
    writer.put(out, b"\n");
    writer.finish(out)
}

// What a verdict says.
fn put_said<O: Sink>(writer: &mut Writer, out: &mut O, lines: u8, verdict: Verdict)
    ensures { Adds writer.old (O.view out.old) (verdict_said lines verdict) writer.new (O.view out.new) }
{
    match verdict {
        Verdict::Same => writer.put(out, b"same"),
        Verdict::Lines(circuit_lines, net_lines) => {
            put_line_counts(writer, out, circuit_lines, net_lines);
        }
        Verdict::Differs(word) => {
            writer.put(out, b"differs at word ");
            put_bits(writer, out, lines, u64::from(word));
        }
    }
}

// Both numbers of lines.
fn put_line_counts<O: Sink>(writer: &mut Writer, out: &mut O, circuit_lines: u8, net_lines: u8)
    ensures { Adds writer.old (O.view out.old) (lines_said circuit_lines net_lines) writer.new (O.view out.new) }
{
    writer.put(out, b"differs in lines ");
    writer.put_number(out, u128::from(circuit_lines));
    writer.put(out, b" and ");
    writer.put_number(out, u128::from(net_lines));
}
