ghost use Rattle.std.specs.Prelude.{◌≡◌, ◌+◌, ◌*◌, ◌^◌, ◌<◌, ◌≤◌, length};
ghost use Rattle.std.specs.List.{list_any};
ghost use Rattle.rv_gate.specs.declared.circuit.TheConstants.{MOST_GATES};
ghost use Rattle.rv_gate.specs.declared.word.TheConstants.{MOST_LINES};
ghost use Rattle.rv_mct.specs.Blocks.{borrowed_ladder_cost, long_cost};
ghost use Rattle.rv_mct.specs.declared.aux.Aux.TheVariants.{Borrowed};
ghost use Rattle.rv_search.specs.Measure.{cost_of, lacks_line, lines_with, measure, most_controls, t_count, toffolis};

use crate::Goal;
use rv_cost::quantum_cost;
use rv_gate::{Gate, Shape};
use rv_mct::count_lines;

// The quantum cost of gates.
fn cost_of(gates: &[Gate]) -> u128
    requires { length gates.now ≤ MOST_GATES }
    ensures { result ≡ cost_of gates.now }
{
    let mut cost = 0;
    for gate in gates {
        cost += quantum_cost(*gate);
    }
    cost
}

// The controls of the largest of the flips that a gate stands for.
pub(crate) fn most_controls(gate: Gate) -> u8
    ensures value { result ≡ most_controls gate }
    ensures few { result ≤ MOST_LINES + 1 }
{
    match gate.shape() {
        Shape::Flip { care, .. } => count_lines(care),
        Shape::Swap { care, .. } => count_lines(care) + 1,
        Shape::Peres { .. } => 2,
    }
}

// The Toffoli gates of a ladder over borrowed lines.
fn ladder_cost(controls: u8) -> u32
    requires { controls ≤ MOST_LINES + 1 }
    ensures value { result ≡ borrowed_ladder_cost controls }
    ensures few { result < 2 ^ 9 }
{
    if controls < 3 {
        1
    } else {
        4 * (u32::from(controls) - 2)
    }
}

// The Toffoli gates of a flip over borrowed lines, so many of which are free.
fn long_cost(free: u8, controls: u8) -> u32
    requires free { free ≤ MOST_LINES + 1 }
    requires controls { controls ≤ MOST_LINES + 1 }
    ensures value { result ≡ long_cost Borrowed free controls }
    ensures few { result < 2 ^ 12 }
{
    if free + 2 < controls {
        return 2 * ladder_cost(controls.div_ceil(2)) + 2 * ladder_cost(controls / 2 + 1);
    }
    ladder_cost(controls)
}

// How many Toffoli gates take the place of a flip with so many controls, of so many lines.
pub(crate) fn toffolis(lines: u8, controls: u8) -> u32
    requires lines { lines ≤ MOST_LINES + 1 }
    requires controls { controls ≤ MOST_LINES + 1 }
    ensures value { result ≡ toffolis lines controls }
    ensures few { result < 2 ^ 12 }
{
    if controls < 2 {
        return 0;
    }
    if controls < 3 {
        return 1;
    }
    long_cost(lines.saturating_sub(controls + 1), controls)
}

// Whether a gate is replaced, and touches each of so many lines.
fn lacks_line(lines: u8, gate: Gate) -> bool
    ensures { result ≡ lacks_line lines gate }
{
    let controls = most_controls(gate);
    2 < controls && !(controls + 1 < lines)
}

fn any_lacks_line(lines: u8, gates: &[Gate]) -> bool
    ensures { result ≡ list_any (lacks_line lines) gates.now }
{
    gates.iter().any(|gate| lacks_line(lines, *gate))
}

/// How many lines there are once one is added if a gate lacks it.
pub fn lines_with(lines: u8, gates: &[Gate]) -> u8
    requires { lines ≤ MOST_LINES }
    ensures value { result ≡ lines_with lines gates.now }
    ensures few { result ≤ MOST_LINES + 1 }
{
    if any_lacks_line(lines, gates) {
        lines + 1
    } else {
        lines
    }
}

// How many T gates there are where large gates are replaced.
fn t_count(lines: u8, gates: &[Gate]) -> u128
    requires lines { lines ≤ MOST_LINES }
    requires gates { length gates.now ≤ MOST_GATES }
    ensures { result ≡ t_count lines gates.now }
{
    let wide = lines_with(lines, gates);
    let mut count = 0;
    for gate in gates {
        count += u128::from(toffolis(wide, most_controls(*gate)));
    }
    7 * count
}

/// What a goal counts of gates on so many lines.
pub fn measure(goal: Goal, lines: u8, gates: &[Gate]) -> u128
    requires lines { lines ≤ MOST_LINES }
    requires gates { length gates.now ≤ MOST_GATES }
    ensures { result ≡ measure goal lines gates.now }
{
    match goal {
        Goal::Quantum => cost_of(gates),
        Goal::T => t_count(lines, gates),
        Goal::Gates => gates.len() as u128,
    }
}
