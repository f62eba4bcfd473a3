// How many lines and operations there would be, before any is made.
ghost use Rattle.std.specs.List.{sum_by};
ghost use Rattle.std.specs.Prelude.{◌≡◌, ◌+◌, ◌*◌, ◌<◌, ◌≤◌, ◌↔◌, ℕ, length, IfOk, Err};
ghost use Rattle.rv_gate.specs.declared.circuit.TheConstants.{MOST_GATES};
ghost use Rattle.rv_mct.specs.Blocks.{added};
ghost use Rattle.rv_ladder.specs.Counts.{flip_count, gate_count, gates_count, ladder_count, long_count, operations};
ghost use Rattle.rv_ladder.specs.Counts.{zero_count};

use crate::RelativeFault;
use rv_gate::{Circuit, Gate, LineSet, MOST_GATES, MOST_LINES, Shape};
use rv_mct::{Aux, added, count_lines, flips_of, free_count};
use rv_net::MOST_OPS;

// How many controls want 0.
fn zero_count(care: LineSet, want: LineSet) -> u8
    ensures value { result ≡ zero_count care want }
    ensures few { result ≤ MOST_LINES }
{
    count_lines(care ^ (care & want))
}

fn plain_count(controls: u8) -> u32
    ensures value { result ≡ operations.plain controls }
    ensures few { result ≤ 15 }
{
    if controls == 2 { 15 } else { 1 }
}

fn ladder_count(controls: u8) -> u32
    requires { controls ≤ MOST_LINES }
    ensures value { result ≡ ladder_count operations controls }
    ensures few { result ≤ 1256 }
{
    if controls < 3 {
        plain_count(controls)
    } else {
        20 * u32::from(controls) - 24
    }
}

// Of a flip with three controls or more.
fn long_count(aux: Aux, free: u8, controls: u8, zeros: u8) -> u32
    requires free { free ≤ MOST_LINES }
    requires some { 3 ≤ controls }
    requires few { controls ≤ MOST_LINES }
    requires zeros { zeros ≤ MOST_LINES }
    ensures value { result ≡ long_count operations aux free controls zeros }
    ensures few { result ≤ 5280 }
{
    match aux {
        Aux::Clean => 18 * u32::from(controls) - 21 + 2 * u32::from(zeros),
        Aux::Borrowed => {
            if free + 2 < controls {
                return 2 * ladder_count((controls + 1) / 2)
                    + 2 * ladder_count(controls / 2 + 1)
                    + 4 * u32::from(zeros);
            }
            ladder_count(controls) + 2 * u32::from(zeros)
        }
    }
}

fn flip_count(aux: Aux, lines: u8, flip: Gate) -> u32
    requires { lines ≤ MOST_LINES }
    ensures value { result ≡ flip_count operations aux lines flip }
    ensures few { result ≤ 5280 }
{
    if let Shape::Flip { care, want, target } = flip.shape() {
        let controls = count_lines(care);
        let zeros = zero_count(care, want);
        if controls < 3 {
            return plain_count(controls) + 2 * u32::from(zeros);
        }
        return long_count(aux, free_count(care, target, lines), controls, zeros);
    }
    0
}

fn flips_count(flips: &[Gate], aux: Aux, lines: u8) -> u32
    requires few_lines { lines ≤ MOST_LINES }
    requires few_flips { length flips.now ≤ 3 }
    ensures { result ≡ sum_by (flip_count operations aux lines) flips.now }
{
    let mut count = 0;
    for flip in flips {
        count += flip_count(aux, lines, *flip);
    }
    count
}

fn gate_count(aux: Aux, lines: u8, gate: Gate) -> u32
    requires { lines ≤ MOST_LINES }
    ensures value { result ≡ gate_count operations aux lines gate }
    ensures few { result ≤ 4095 }
{
    let (flips, count) = flips_of(gate);
    flips_count(&flips[..count], aux, lines)
}

fn gates_count(gates: &[Gate], aux: Aux, lines: u8) -> u32
    requires few_lines { lines ≤ MOST_LINES }
    requires few_gates { length gates.now ≤ MOST_GATES }
    ensures { result ≡ gates_count operations aux lines gates.now }
{
    let mut count = 0;
    for gate in gates {
        count += gate_count(aux, lines, *gate);
    }
    count
}

/// How many lines are added. First the lines are counted, then the operations.
pub(crate) fn measure(circuit: &Circuit, aux: Aux) -> Result<u8, RelativeFault>
    ensures ok { IfOk result (λ extra. (extra ≡ added aux (length circuit.now.names) circuit.now.gates)
        × (length circuit.now.names + extra ≤ MOST_LINES)
        × (gates_count operations aux (length circuit.now.names + extra) circuit.now.gates ≤ MOST_OPS)) }
    ensures too_many_lines { (n : ℕ) → (result ≡ Err (RelativeFault.TooManyLines n))
        ↔ ((length circuit.now.names + added aux (length circuit.now.names) circuit.now.gates ≡ n) × (MOST_LINES < n)) }
    ensures too_many_ops { (n : ℕ) → (result ≡ Err (RelativeFault.TooManyOps n))
        ↔ ((length circuit.now.names + added aux (length circuit.now.names) circuit.now.gates ≤ MOST_LINES)
        × (gates_count operations aux
        (length circuit.now.names + added aux (length circuit.now.names) circuit.now.gates)
        circuit.now.gates ≡ n) × (MOST_OPS < n)) }
{
    let lines = circuit.line_count();
    let extra = added(circuit.gates(), aux, lines);
    if lines + extra > MOST_LINES {
        return Err(RelativeFault::TooManyLines(lines + extra));
    }
    let count = gates_count(circuit.gates(), aux, lines + extra);
    if count as usize > MOST_OPS {
        return Err(RelativeFault::TooManyOps(count));
    }
    Ok(extra)
}
