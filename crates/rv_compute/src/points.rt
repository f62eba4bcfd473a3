// The best circuits on more and more lines.
ghost use Rattle.std.specs.Prelude.{◌≡◌, ◌<◌, ◌≤◌, ℕ, Err, IfOk, IsTrue, All, length};
ghost use Rattle.rv_gate.specs.declared.circuit.TheConstants.{MOST_GATES};
ghost use Rattle.rv_gate.specs.declared.word.TheConstants.{MOST_LINES};
ghost use Rattle.rv_compute.specs.Bounds.{gate_bound, line_bound};
ghost use Rattle.rv_compute.specs.Points.{AreOnMore, HasFewer, IsPoint};
ghost use Rattle.rv_compute.specs.declared.circuit.ComputeFault.TheVariants.{TooManyGates, TooManyLines};

use crate::circuit::{ComputeFault, on_lines};
use crate::cost::is_worth_lines;
use crate::options::ComputeOptions;
use crate::searched::{Searched, look_for_plans};
use rv_blif::Logic;
use rv_gate::{Circuit, MOST_GATES, MOST_LINES};
use std::alloc::{AllocError, Global};

/// A circuit, and how it was asked for: with the same goal, effort and seed [`compute`](crate::compute) gives it.
#[derive(Drop)]
pub struct Point {
    pub circuit: Circuit,
    /// At most so many lines.
    pub lines: u8,
}

// Whether a circuit has more lines than each of some.
fn is_on_more(points: &[Point], new: &Circuit) -> bool
    ensures { IsTrue result → All (HasFewer (length new.now.names)) points.now }
{
    for point in points {
        if point.circuit.line_count() >= new.line_count() {
            return false;
        }
    }
    true
}

// Whether a circuit costs less than the last of some.
fn is_worth(
    alloc: Global,
    points: &[Point],
    new: &Circuit,
    options: ComputeOptions,
) -> Result<bool, AllocError> {
    match points.last() {
        Some(last) => is_worth_lines(alloc, options.goal, new, &last.circuit),
        None => Ok(true),
    }
}

// The circuits, and one more if it has more lines than they, and costs less.
#[tactic(auto, using(crate::proofs::Curves::one, crate::proofs::Curves::on_more))]
fn with_point(
    alloc: Global,
    logic: &Logic,
    points: Vec<Point>,
    new: Point,
    options: ComputeOptions,
) -> Result<Vec<Point>, AllocError>
    requires points { All (IsPoint logic.now options.lines) points.items }
    requires rising { AreOnMore points.items }
    requires new { IsPoint logic.now options.lines new }
    ensures computed { IfOk result (λ more. All (IsPoint logic.now options.lines) more.items) }
    ensures rising { IfOk result (λ more. AreOnMore more.items) }
    ensures some { IfOk result (λ more. 1 ≤ length more.items) }
{
    if points.is_empty() {
        let mut first = Vec::new(alloc);
        first.push(new)?;
        return Ok(first);
    }
    if !is_on_more(&points, &new.circuit) {
        return Ok(points);
    }
    if !is_worth(alloc, &points, &new.circuit, options)? {
        return Ok(points);
    }
    let mut more = points;
    more.push(new)?;
    Ok(more)
}

// The circuits, and one on so many lines if it is worth them.
fn with_lines(
    alloc: Global,
    logic: &Logic,
    searched: &Option<Searched>,
    points: Vec<Point>,
    lines: u8,
    options: ComputeOptions,
) -> Result<Vec<Point>, AllocError>
    requires points { All (IsPoint logic.now options.lines) points.items }
    requires rising { AreOnMore points.items }
    requires few { lines ≤ options.lines }
    requires most { options.lines ≤ MOST_LINES }
    ensures computed { IfOk result (λ more. All (IsPoint logic.now options.lines) more.items) }
    ensures rising { IfOk result (λ more. AreOnMore more.items) }
{
    let own = ComputeOptions { lines, ..options };
    match on_lines(alloc, logic, own, searched) {
        Ok(circuit) => with_point(alloc, logic, points, Point { circuit, lines }, options),
        Err(_) => Ok(points),
    }
}

// The circuits on fewer lines than there may be: on as many as a plan has.
fn narrow(
    alloc: Global,
    logic: &Logic,
    searched: &Option<Searched>,
    options: ComputeOptions,
) -> Result<Vec<Point>, AllocError>
    requires { options.lines ≤ MOST_LINES }
    ensures computed { IfOk result (λ points. All (IsPoint logic.now options.lines) points.items) }
    ensures rising { IfOk result (λ points. AreOnMore points.items) }
{
    let ends = logic.input_count() + logic.output_count();
    let mut points = Vec::new(alloc);
    for lines in 0..options.lines {
        if is_met(searched, ends, lines) {
            points = with_lines(alloc, logic, searched, points, lines, options)?;
        }
    }
    Ok(points)
}

// Whether a plan has so many lines.
fn is_met(searched: &Option<Searched>, ends: u32, lines: u8) -> bool {
    match searched {
        Some(searched) => { u32::from(lines) >= ends && searched.has(u32::from(lines) - ends) }
        None => false,
    }
}

/// Circuits for a logic network on more and more lines, up to so many: one on the fewest for which one is found, and then
/// each that costs less by the goal than those on fewer lines.
///
/// What is searched is searched once. There are none where [`compute`](crate::compute) finds none.
pub fn curve(
    alloc: Global,
    logic: &Logic,
    options: ComputeOptions,
) -> Result<Vec<Point>, ComputeFault>
    requires { options.lines ≤ MOST_LINES }
    ensures computed { IfOk result (λ points. All (IsPoint logic.now options.lines) points.items) }
    ensures rising { IfOk result (λ points. AreOnMore points.items) }
    ensures some { IfOk result (λ points. 1 ≤ length points.items) }
    ensures too_many_lines { (found : ℕ) → result ≡ Err (TooManyLines found)
        → (options.lines < found) × (found ≤ line_bound logic.now) }
    ensures too_many_gates { result ≡ Err TooManyGates → MOST_GATES < gate_bound logic.now }
{
    let searched = look_for_plans(alloc, logic, options)?;
    match on_lines(alloc, logic, options, &searched) {
        Ok(circuit) => {
            let widest = Point {
                circuit,
                lines: options.lines,
            };
            let points = narrow(alloc, logic, &searched, options)?;
            Ok(with_point(alloc, logic, points, widest, options)?)
        }
        Err(fault) => Err(fault),
    }
}
