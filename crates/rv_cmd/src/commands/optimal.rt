ghost use Rattle.std.specs.Prelude.{◌≡◌, ◌∷◌, [], length};
ghost use Rattle.rv_cmd.specs.Commands.Optimal.{in_vain, optimal_row};
ghost use Rattle.rv_cmd.specs.Names.{names_read};
ghost use Rattle.rv_cmd.specs.inside.Making.{Makes};

use crate::names::name_of;
use crate::product::{Made, Product};
use rv_faults::{InputFault, Refusal, Unmade};
use rv_inputs::read_one;
use rv_io::Files;
use rv_optimal::{Library, MOST_OPTIMAL_LINES, OptimalFault, optimal as circuit_for};
use rv_perm::PermReader;
use rv_words::Settings;
use std::alloc::Global;

/// A circuit than which none has fewer gates, for the permutation that is read.
pub(crate) fn optimal<F: Files>(
    alloc: Global,
    settings: &Settings,
    files: &mut F,
) -> Result<Made, Unmade>
    requires { length (names_read settings.now) ≡ 1 }
    ensures { Makes (optimal_row settings.now.gates) (names_read settings.now) (F.view files.old) (F.view files.new)
        result }
{
    found(alloc, name_of(settings, 0), files, settings.gates)
}

// Reads the input of this name, and finds a circuit for it.
fn found<F: Files>(
    alloc: Global,
    name: &str,
    files: &mut F,
    library: Library,
) -> Result<Made, Unmade>
    ensures { Makes (optimal_row library) (name.now ∷ []) (F.view files.old) (F.view files.new) result }
{
    match read_one::<F, PermReader>(alloc, name, files) {
        Ok(spec) => match circuit_for(alloc, &spec, library) {
            Ok(circuit) => {
                circuit.recall_invariant();
                Ok(Product::Circuit(circuit).alike())
            }
            Err(fault) => Err(in_vain(fault).unmade()),
        },
        Err(unmade) => Err(unmade),
    }
}

// Why there is no circuit.
fn in_vain(fault: OptimalFault) -> Refusal
    ensures { result ≡ in_vain fault }
{
    let why = match fault {
        OptimalFault::TooManyLines(lines) => InputFault::TooManyLines {
            count: u32::from(lines),
            most: MOST_OPTIMAL_LINES,
        },
        OptimalFault::MoreGates(most) => InputFault::MoreGates {
            most: u32::from(most),
        },
        OptimalFault::Mem => return Refusal::OutOfMemory,
    };
    Refusal::Refused { input: 0, why }
}
