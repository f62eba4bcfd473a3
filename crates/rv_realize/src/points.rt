// The best circuits on more and more lines.
ghost use Rattle.std.specs.Prelude.{◌≡◌, ◌≤◌, ℕ, Err, IfOk, IsTrue, All, length};
ghost use Rattle.rv_gate.specs.declared.word.TheConstants.{MOST_LINES};
ghost use Rattle.rv_realize.specs.Realized.{AreOnMore, HasFewer, IsPoint, IsTooFew, IsTooLong};
ghost use Rattle.rv_realize.specs.declared.options.RealizeFault.TheVariants.{TooManyGates, TooManyLines};

use crate::rank::is_cheaper;
use crate::table::realize;
use crate::{RealizeFault, RealizeOptions};
use rv_gate::{Circuit, MOST_LINES};
use rv_pla::Pla;
use std::alloc::{AllocError, Global};

// On fewer lines than there may be so large a part of the effort is made, for each number of them.
const PART: u16 = 4;

/// A circuit, and how it was asked for: with the same goal and seed [`realize`] gives it.
#[derive(Drop)]
pub struct Point {
    pub circuit: Circuit,
    /// At most so many lines.
    pub lines: u8,
    pub effort: u16,
}

// Whether a circuit has more lines than each of some.
fn is_on_more(points: &[Point], new: &Circuit) -> bool
    ensures { IsTrue result → All (HasFewer (length new.now.names)) points.now }
{
    for point in points {
        if point.circuit.line_count() >= new.line_count() {
            return false;
        }
    }
    true
}

// Whether a circuit costs less than the last of some.
fn is_worth(alloc: Global, points: &[Point], new: &Circuit, options: RealizeOptions) -> bool {
    match points.last() {
        Some(last) => is_cheaper(alloc, options.goal, new, &last.circuit),
        None => true,
    }
}

// The circuits, and one more if it has more lines than they, and costs less.
#[tactic(auto, using(crate::proofs::Curves::one, crate::proofs::Curves::on_more))]
fn with_point(
    alloc: Global,
    pla: &Pla,
    points: Vec<Point>,
    new: Point,
    options: RealizeOptions,
) -> Result<Vec<Point>, AllocError>
    requires points { All (IsPoint pla.now options.lines) points.items }
    requires rising { AreOnMore points.items }
    requires new { IsPoint pla.now options.lines new }
    ensures realized { IfOk result (λ more. All (IsPoint pla.now options.lines) more.items) }
    ensures rising { IfOk result (λ more. AreOnMore more.items) }
    ensures some { IfOk result (λ more. 1 ≤ length more.items) }
{
    if points.is_empty() {
        let mut first = Vec::new(alloc);
        first.push(new)?;
        return Ok(first);
    }
    if !is_on_more(&points, &new.circuit) || !is_worth(alloc, &points, &new.circuit, options) {
        return Ok(points);
    }
    let mut more = points;
    more.push(new)?;
    Ok(more)
}

// The circuits, and one on so many lines if it is worth them.
fn with_lines(
    alloc: Global,
    pla: &Pla,
    points: Vec<Point>,
    lines: u8,
    options: RealizeOptions,
) -> Result<Vec<Point>, AllocError>
    requires points { All (IsPoint pla.now options.lines) points.items }
    requires rising { AreOnMore points.items }
    requires few { lines ≤ options.lines }
    requires most { options.lines ≤ MOST_LINES }
    ensures realized { IfOk result (λ more. All (IsPoint pla.now options.lines) more.items) }
    ensures rising { IfOk result (λ more. AreOnMore more.items) }
{
    let effort = options.effort / PART;
    let own = RealizeOptions {
        lines,
        effort,
        ..options
    };
    match realize(alloc, pla, own) {
        Ok(circuit) => {
            let new = Point {
                circuit,
                lines,
                effort,
            };
            with_point(alloc, pla, points, new, options)
        }
        Err(_) => Ok(points),
    }
}

// The circuits on fewer lines than there may be.
fn narrow(alloc: Global, pla: &Pla, options: RealizeOptions) -> Result<Vec<Point>, AllocError>
    requires { options.lines ≤ MOST_LINES }
    ensures realized { IfOk result (λ points. All (IsPoint pla.now options.lines) points.items) }
    ensures rising { IfOk result (λ points. AreOnMore points.items) }
{
    let mut points = Vec::new(alloc);
    let own = pla.inputs() + pla.outputs();
    for lines in pla.inputs().max(pla.outputs())..own.min(options.lines) {
        points = with_lines(alloc, pla, points, lines, options)?;
    }
    Ok(points)
}

/// Circuits for a table on more and more lines, up to so many: one on the fewest for which one is found, and then each
/// that costs less by the goal than those on fewer lines.
///
/// With each of them the table is realized as by [`realize`], which says when there is none.
pub fn curve(alloc: Global, pla: &Pla, options: RealizeOptions) -> Result<Vec<Point>, RealizeFault>
    requires { options.lines ≤ MOST_LINES }
    ensures realized { IfOk result (λ points. All (IsPoint pla.now options.lines) points.items) }
    ensures rising { IfOk result (λ points. AreOnMore points.items) }
    ensures some { IfOk result (λ points. 1 ≤ length points.items) }
    ensures too_many_lines { (n : ℕ) → result ≡ Err (TooManyLines n) → IsTooFew pla.now options.lines n }
    ensures too_many_gates { result ≡ Err TooManyGates → IsTooLong pla.now options.lines }
{
    match realize(alloc, pla, options) {
        Ok(circuit) => {
            let widest = Point {
                circuit,
                lines: options.lines,
                effort: options.effort,
            };
            let points = narrow(alloc, pla, options)?;
            Ok(with_point(alloc, pla, points, widest, options)?)
        }
        Err(fault) => Err(fault),
    }
}
