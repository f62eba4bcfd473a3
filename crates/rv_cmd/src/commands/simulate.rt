ghost use Rattle.std.specs.Prelude.{◌≤◌, ◌∷◌, ℕ, List, []};
ghost use Rattle.rv_io.specs.Files.{FilesView, Keeps};
ghost use Rattle.rv_cmd.specs.Commands.Simulate.{simulate_row};
ghost use Rattle.rv_cmd.specs.Headline.{LeavesCounts, Performs};
ghost use Rattle.rv_cmd.specs.Row.{answers_as_it_reads};
ghost use Rattle.rv_cmd.specs.inside.Simulating.{IsReady};

use crate::output::flush;
use rv_faults::{Fault, InputFault, TextFormat};
use rv_gate::Circuit;
use rv_inputs::read_input;
use rv_io::{Files, Sink};
use rv_real::RealReader;
use rv_simulate::{WordsEnd, simulate_words};
use std::alloc::Global;

/// Writes what the circuit of the first input makes of the words of the second.
pub(crate) fn simulate<F: Files, O: Sink>(
    alloc: Global,
    all: bool,
    circuit: &str,
    words: &str,
    files: &mut F,
    out: &mut O,
) -> Result<bool, Fault>
    ensures keeps { Keeps (F.view files.old) (F.view files.new) }
    ensures later { (O.view out.old).faults ≤ (O.view out.new).faults }
    ensures counts { LeavesCounts result
        (record { files = F.view files.old; out = O.view out.old })
        (record { files = F.view files.new; out = O.view out.new }) }
    ensures performs { Performs (answers_as_it_reads (simulate_row all)) (circuit.now ∷ words.now ∷ [])
        (record { files = F.view files.old; out = O.view out.old })
        (record { files = F.view files.new; out = O.view out.new }) result }
{
    match read_input::<F, RealReader>(alloc, circuit, files, 0) {
        Ok(object) => answer(&object, all, words, files, out),
        Err(unmade) => Err(unmade.fault()),
    }
}

// Writes what a circuit makes of words, and flushes it.
fn answer<F: Files, O: Sink>(
    circuit: &Circuit,
    all: bool,
    name: &str,
    files: &mut F,
    out: &mut O,
) -> Result<bool, Fault>
    ensures keeps { Keeps (F.view files.old) (F.view files.new) }
    ensures later { (O.view out.old).faults ≤ (O.view out.new).faults }
    ensures counts { LeavesCounts result
        (record { files = F.view files.old; out = O.view out.old })
        (record { files = F.view files.new; out = O.view out.new }) }
    ensures performs { (first : List ℕ) (start : FilesView) → IsReady circuit.now first start (F.view files.old)
        → Performs (answers_as_it_reads (simulate_row all)) (first ∷ name.now ∷ [])
        (record { files = start; out = O.view out.old })
        (record { files = F.view files.new; out = O.view out.new }) result }
{
    match simulate_words(circuit, all, files, name, out) {
        WordsEnd::Done => match flush(out) {
            Ok(()) => Ok(false),
            Err(_) => Err(Fault::CannotWrite),
        },
        WordsEnd::Wrong(line) => Err(Fault::Refused {
            input: 1,
            why: InputFault::Text {
                format: TextFormat::Words,
                line,
                code: 0,
            },
        }),
        WordsEnd::Read => Err(Fault::CannotRead { input: 1 }),
        WordsEnd::TooLong => Err(Fault::TooLong { input: 1 }),
        WordsEnd::Write => Err(Fault::CannotWrite),
    }
}
