ghost use Rattle.std.specs.Prelude.{◌≡◌, ◌≤◌, ◌∷◌, ℕ, [], true, false, length, map, Err, IfOk};
ghost use Rattle.rv_gate.specs.declared.word.TheConstants.{MOST_LINES};
ghost use Rattle.rv_curve.specs.Report.{curve_text};
ghost use Rattle.rv_realize.specs.Realized.{IsTooFew, IsTooLong};
ghost use Rattle.rv_realize.specs.declared.options.RealizeFault.TheVariants.{TooManyGates, TooManyLines};
ghost use Rattle.rv_words.specs.declared.command.Form.TheVariants.{Perm};
ghost use Rattle.rv_cmd.specs.Commands.Realize.{IsCurve, in_vain, realize_row, row_at, table_row};
ghost use Rattle.rv_cmd.specs.Goals.{search_goal};
ghost use Rattle.rv_cmd.specs.Names.{names_read};
ghost use Rattle.rv_cmd.specs.inside.Making.{Makes};

use crate::names::name_of;
use crate::product::{Made, Product};
use crate::steps::search_goal;
use rv_curve::{Curve, Row, Search, row_of};
use rv_faults::{InputFault, Refusal, Unmade};
use rv_gate::MOST_GATES;
use rv_inputs::read_one;
use rv_io::Files;
use rv_perm::PermReader;
use rv_pla::{Pla, PlaReader};
use rv_realize::{
    Point, RealizeFault, RealizeOptions, curve as points_for, realize as circuit_for, realize_perm,
};
use rv_words::{Form, Settings};
use std::alloc::{AllocError, Global};

/// A circuit that a search finds for the truth table or the permutation that is read, on at most so many lines; or what
/// circuits for the table cost on more and more.
pub(crate) fn realize<F: Files>(
    alloc: Global,
    settings: &Settings,
    files: &mut F,
) -> Result<Made, Unmade>
    requires input { length (names_read settings.now) ≡ 1 }
    requires lines { settings.now.lines ≤ MOST_LINES }
    ensures { Makes
        (realize_row settings.now.origin settings.now.curve (search_goal settings.now.goal) settings.now.seed
        settings.now.lines)
        (names_read settings.now) (F.view files.old) (F.view files.new) result }
{
    let options = RealizeOptions {
        lines: settings.lines,
        goal: search_goal(settings.goal),
        effort: settings.effort,
        seed: settings.seed,
    };
    let name = name_of(settings, 0);
    match settings.origin {
        Form::Perm => in_place(alloc, name, files, options),
        _ => of_table(alloc, name, files, options, settings.curve),
    }
}

// Reads the truth table of this name, and finds a circuit for it, or several whose costs are told.
fn of_table<F: Files>(
    alloc: Global,
    name: &str,
    files: &mut F,
    options: RealizeOptions,
    curve: bool,
) -> Result<Made, Unmade>
    requires { options.lines ≤ MOST_LINES }
    ensures { Makes (table_row curve options.goal options.seed options.lines) (name.now ∷ []) (F.view files.old)
        (F.view files.new) result }
{
    if curve {
        on_more(alloc, name, files, options)
    } else {
        realized(alloc, name, files, options)
    }
}

// Reads the truth table of this name, and finds a circuit for it.
fn realized<F: Files>(
    alloc: Global,
    name: &str,
    files: &mut F,
    options: RealizeOptions,
) -> Result<Made, Unmade>
    requires { options.lines ≤ MOST_LINES }
    ensures { Makes (table_row false options.goal options.seed options.lines) (name.now ∷ []) (F.view files.old)
        (F.view files.new) result }
{
    match read_one::<F, PlaReader>(alloc, name, files) {
        Ok(pla) => match circuit_for(alloc, &pla, options) {
            Ok(circuit) => {
                circuit.recall_invariant();
                Ok(Product::Circuit(circuit).alike())
            }
            Err(fault) => Err(in_vain(fault, options.lines).unmade()),
        },
        Err(unmade) => Err(unmade),
    }
}

// What circuits cost, in their order.
fn rows_of(alloc: Global, points: &[Point]) -> Result<Vec<Row>, AllocError>
    ensures { IfOk result (λ rows. rows.items ≡ map row_at points.now) }
{
    let mut rows = Vec::new(alloc);
    for point in points {
        rows.push(row_of(alloc, point.lines, point.effort, &point.circuit)?)?;
    }
    Ok(rows)
}

// What circuits for a truth table cost, on more and more lines.
fn curve_for(alloc: Global, pla: &Pla, options: RealizeOptions) -> Result<Curve, RealizeFault>
    requires { options.lines ≤ MOST_LINES }
    ensures curve { IfOk result
        (λ curve. IsCurve options.goal options.seed options.lines pla.now
        (curve_text curve.search curve.goal curve.seed curve.rows.items)) }
    ensures too_many_lines { (n : ℕ) → result ≡ Err (TooManyLines n) → IsTooFew pla.now options.lines n }
    ensures too_many_gates { result ≡ Err TooManyGates → IsTooLong pla.now options.lines }
{
    match points_for(alloc, pla, options) {
        Ok(points) => Ok(Curve {
            search: Search::Realize,
            goal: options.goal,
            seed: options.seed,
            rows: rows_of(alloc, &points)?,
        }),
        Err(fault) => Err(fault),
    }
}

// Reads the truth table of this name, and finds circuits for it on more and more lines.
fn on_more<F: Files>(
    alloc: Global,
    name: &str,
    files: &mut F,
    options: RealizeOptions,
) -> Result<Made, Unmade>
    requires { options.lines ≤ MOST_LINES }
    ensures { Makes (table_row true options.goal options.seed options.lines) (name.now ∷ []) (F.view files.old)
        (F.view files.new) result }
{
    match read_one::<F, PlaReader>(alloc, name, files) {
        Ok(pla) => match curve_for(alloc, &pla, options) {
            Ok(curve) => Ok(Product::Curve(curve).alike()),
            Err(fault) => Err(in_vain(fault, options.lines).unmade()),
        },
        Err(unmade) => Err(unmade),
    }
}

// Reads the permutation of this name, and finds a circuit for it.
fn in_place<F: Files>(
    alloc: Global,
    name: &str,
    files: &mut F,
    options: RealizeOptions,
) -> Result<Made, Unmade>
    requires { options.lines ≤ MOST_LINES }
    ensures { Makes (realize_row Perm false options.goal options.seed options.lines) (name.now ∷ []) (F.view files.old)
        (F.view files.new) result }
{
    match read_one::<F, PermReader>(alloc, name, files) {
        Ok(spec) => match realize_perm(alloc, &spec, options) {
            Ok(circuit) => {
                circuit.recall_invariant();
                Ok(Product::Circuit(circuit).alike())
            }
            Err(fault) => Err(in_vain(fault, options.lines).unmade()),
        },
        Err(unmade) => Err(unmade),
    }
}

// Why no circuit was found on so many lines.
fn in_vain(fault: RealizeFault, lines: u8) -> Refusal
    ensures { result ≡ in_vain lines fault }
{
    let why = match fault {
        RealizeFault::TooManyLines(count) => InputFault::TooManyLines {
            count: u32::from(count),
            most: lines,
        },
        RealizeFault::TooManyGates => InputFault::MoreGates {
            most: MOST_GATES as u32,
        },
        RealizeFault::Mem => return Refusal::OutOfMemory,
    };
    Refusal::Refused { input: 0, why }
}
