ghost use Rattle.std.specs.Prelude.{◌≡◌, ◌<◌, ◌≤◌, ◌∷◌, ℕ, [], true, false, length, map, Err, IfOk};
ghost use Rattle.rv_compute.specs.Bounds.{gate_bound, line_bound};
ghost use Rattle.rv_compute.specs.declared.circuit.ComputeFault.TheVariants.{TooManyGates, TooManyLines};
ghost use Rattle.rv_curve.specs.Report.{curve_text};
ghost use Rattle.rv_gate.specs.declared.circuit.TheConstants.{MOST_GATES};
ghost use Rattle.rv_gate.specs.declared.word.TheConstants.{MOST_LINES};
ghost use Rattle.rv_cmd.specs.Commands.Compute.{IsCurve, compute_row, in_vain, row_at};
ghost use Rattle.rv_cmd.specs.Goals.{search_goal};
ghost use Rattle.rv_cmd.specs.Names.{names_read};
ghost use Rattle.rv_cmd.specs.inside.Making.{Makes};

use crate::names::name_of;
use crate::product::{Made, Product};
use crate::steps::search_goal;
use rv_blif::{BlifReader, Logic};
use rv_compute::{
    ComputeFault, ComputeOptions, Point, compute as circuit_for, curve as points_for,
};
use rv_curve::{Curve, Row, Search, row_of};
use rv_faults::{InputFault, Refusal, Unmade};
use rv_gate::MOST_GATES;
use rv_inputs::read_one;
use rv_io::Files;
use rv_words::Settings;
use std::alloc::{AllocError, Global};

/// A circuit that a search finds for the logic network that is read, on at most so many lines; or what such circuits cost
/// on more and more.
pub(crate) fn compute<F: Files>(
    alloc: Global,
    settings: &Settings,
    files: &mut F,
) -> Result<Made, Unmade>
    requires input { length (names_read settings.now) ≡ 1 }
    requires lines { settings.now.lines ≤ MOST_LINES }
    ensures { Makes
        (compute_row settings.now.curve (search_goal settings.now.goal) settings.now.effort settings.now.seed
        settings.now.lines)
        (names_read settings.now) (F.view files.old) (F.view files.new) result }
{
    let options = ComputeOptions {
        lines: settings.lines,
        goal: search_goal(settings.goal),
        effort: settings.effort,
        seed: settings.seed,
    };
    of_network(alloc, name_of(settings, 0), files, options, settings.curve)
}

// Reads the network of this name, and finds a circuit for it, or several whose costs are told.
fn of_network<F: Files>(
    alloc: Global,
    name: &str,
    files: &mut F,
    options: ComputeOptions,
    curve: bool,
) -> Result<Made, Unmade>
    requires { options.lines ≤ MOST_LINES }
    ensures { Makes (compute_row curve options.goal options.effort options.seed options.lines) (name.now ∷ [])
        (F.view files.old) (F.view files.new) result }
{
    if curve {
        on_more(alloc, name, files, options)
    } else {
        computed(alloc, name, files, options)
    }
}

// Reads the network of this name, and finds a circuit for it.
fn computed<F: Files>(
    alloc: Global,
    name: &str,
    files: &mut F,
    options: ComputeOptions,
) -> Result<Made, Unmade>
    requires { options.lines ≤ MOST_LINES }
    ensures { Makes (compute_row false options.goal options.effort options.seed options.lines) (name.now ∷ [])
        (F.view files.old) (F.view files.new) result }
{
    match read_one::<F, BlifReader>(alloc, name, files) {
        Ok(network) => {
            let ends = network.input_count() + network.output_count();
            if ends > u32::from(options.lines) {
                return Err(cramped(ends, options.lines).unmade());
            }
            match circuit_for(alloc, &network, options) {
                Ok(circuit) => {
                    circuit.recall_invariant();
                    Ok(Product::Circuit(circuit).alike())
                }
                Err(fault) => Err(in_vain(fault, options.lines).unmade()),
            }
        }
        Err(unmade) => Err(unmade),
    }
}

// What circuits cost, in their order.
fn rows_of(alloc: Global, points: &[Point], effort: u16) -> Result<Vec<Row>, AllocError>
    ensures { IfOk result (λ rows. rows.items ≡ map (row_at effort) points.now) }
{
    let mut rows = Vec::new(alloc);
    for point in points {
        rows.push(row_of(alloc, point.lines, effort, &point.circuit)?)?;
    }
    Ok(rows)
}

// What circuits for a network cost, on more and more lines.
fn curve_for(alloc: Global, network: &Logic, options: ComputeOptions) -> Result<Curve, ComputeFault>
    requires { options.lines ≤ MOST_LINES }
    ensures curve { IfOk result
        (λ curve. IsCurve options.goal options.effort options.seed options.lines network.now
        (curve_text curve.search curve.goal curve.seed curve.rows.items)) }
    ensures too_many_lines { (found : ℕ) → result ≡ Err (TooManyLines found)
        → (options.lines < found) × (found ≤ line_bound network.now) }
    ensures too_many_gates { result ≡ Err TooManyGates → MOST_GATES < gate_bound network.now }
{
    match points_for(alloc, network, options) {
        Ok(points) => Ok(Curve {
            search: Search::Compute,
            goal: options.goal,
            seed: options.seed,
            rows: rows_of(alloc, &points, options.effort)?,
        }),
        Err(fault) => Err(fault),
    }
}

// Reads the network of this name, and finds circuits for it on more and more lines.
fn on_more<F: Files>(
    alloc: Global,
    name: &str,
    files: &mut F,
    options: ComputeOptions,
) -> Result<Made, Unmade>
    requires { options.lines ≤ MOST_LINES }
    ensures { Makes (compute_row true options.goal options.effort options.seed options.lines) (name.now ∷ [])
        (F.view files.old) (F.view files.new) result }
{
    match read_one::<F, BlifReader>(alloc, name, files) {
        Ok(network) => {
            let ends = network.input_count() + network.output_count();
            if ends > u32::from(options.lines) {
                return Err(cramped(ends, options.lines).unmade());
            }
            match curve_for(alloc, &network, options) {
                Ok(curve) => Ok(Product::Curve(curve).alike()),
                Err(fault) => Err(in_vain(fault, options.lines).unmade()),
            }
        }
        Err(unmade) => Err(unmade),
    }
}

// The inputs and outputs need more lines than these.
fn cramped(count: u32, most: u8) -> Refusal
    ensures { result ≡ Refusal.Refused 0 (InputFault.TooManyEnds count most) }
{
    Refusal::Refused {
        input: 0,
        why: InputFault::TooManyEnds { count, most },
    }
}

// Why no circuit was found on so many lines.
fn in_vain(fault: ComputeFault, lines: u8) -> Refusal
    ensures { result ≡ in_vain lines fault }
{
    let why = match fault {
        ComputeFault::TooManyLines(count) => InputFault::TooManyLines { count, most: lines },
        ComputeFault::TooManyGates => InputFault::MoreGates {
            most: MOST_GATES as u32,
        },
        ComputeFault::Mem => return Refusal::OutOfMemory,
    };
    Refusal::Refused { input: 0, why }
}
