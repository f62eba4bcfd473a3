ghost use Rattle.std.specs.Prelude.{◌≡◌, ◌^◌, ◌<◌, ◌≤◌, ◌↔◌, ℕ, Bool, List, length, All, IfOk};
ghost use Rattle.rv_gate.specs.Gate.{FitsIn, run};
ghost use Rattle.rv_gate.specs.declared.word.TheConstants.{MOST_LINES};
ghost use Rattle.rv_gate.specs.declared.circuit.TheConstants.{MOST_GATES};
ghost use Rattle.rv_route.specs.Placement.{home, IsNear};
ghost use Rattle.rv_route.specs.Routed.{routed_from, routed};

use crate::RouteFault;
use crate::gathering::{gather, go_home};
use crate::moves::{push_moves, swap_count};
use crate::places::{gate_on, home};
use rv_gate::{Circuit, Gate, MOST_GATES, MOST_LINES};
use std::alloc::{AllocError, Global};

// How many gates the routed circuit has.
fn gate_count(gates: &[Gate], lines: u8) -> u32
    requires few_lines { lines ≤ MOST_LINES }
    requires few_gates { length gates.now ≤ MOST_GATES }
    requires fit { All (λ gate. FitsIn gate lines) gates.now }
    ensures value { result ≡ length (routed_from (home lines) gates.now) }
    ensures few { result < 2 ^ 31 }
{
    let mut table = home();
    let places = &mut table[..usize::from(lines)];
    let mut count = 0;
    for gate in gates {
        let moves = gather(places, *gate);
        count += swap_count(&moves) + 1;
    }
    let moves = go_home(places);
    count + swap_count(&moves)
}

// The gates of the routed circuit, of which there are so many.
fn routed_gates(
    alloc: Global,
    gates: &[Gate],
    lines: u8,
    count: u32,
) -> Result<Vec<Gate>, AllocError>
    requires few_lines { lines ≤ MOST_LINES }
    requires fit { All (λ gate. FitsIn gate lines) gates.now }
    ensures { IfOk result (λ made. made.items ≡ routed_from (home lines) gates.now) }
{
    let mut table = home();
    let places = &mut table[..usize::from(lines)];
    let mut made = Vec::with_capacity(alloc, count as usize)?;
    for gate in gates {
        let moves = gather(places, *gate);
        push_moves(&mut made, &moves)?;
        made.push(gate_on(places, *gate))?;
    }
    let moves = go_home(places);
    push_moves(&mut made, &moves)?;
    Ok(made)
}

/// The circuit for linear nearest neighbours: one that does the same, whose gates touch neighbouring lines alone.
///
/// The lines stand on positions in a row, at first each at the position of its number: that is the layout. SWAP
/// insertion changes it. Before each gate the lines that it touches gather around the middle one (of two middle ones
/// the lower): first those below it move up, the nearest first, then those above it move down, the nearest first. A
/// line moves one position at a time, by a swap of neighbours without controls. Then the gate acts, with each line
/// replaced by its position. After the last gate each line, from line 0 on, moves down to the position of its number.
///
/// Names, labels and marks stay. The answer has at most [`MOST_GATES`] gates (2^20); where it would have more, the
/// refusal is [`RouteFault::TooManyGates`] with their exact number, found before any gate is built and without
/// memory. [`RouteFault::Mem`] says that memory was refused.
pub fn route(alloc: Global, circuit: &Circuit) -> Result<Circuit, RouteFault>
    ensures circuit { IfOk result (λ c. c ≡ routed circuit.now) }
    ensures same { IfOk result (λ c. (word : List Bool) → length word ≡ length circuit.now.names
        → run c.gates word ≡ run circuit.now.gates word) }
    ensures near { IfOk result (λ c. All IsNear c.gates) }
    ensures too_many_gates { (n : ℕ) → (result ≡ Err (RouteFault.TooManyGates n))
        ↔ ((length (routed circuit.now).gates ≡ n) × (MOST_GATES < n)) }
    ensures few_gates { length (routed circuit.now).gates < 2 ^ 31 }
{
    let lines = circuit.line_count();
    let count = gate_count(circuit.gates(), lines);
    if count as usize > MOST_GATES {
        return Err(RouteFault::TooManyGates(count));
    }
    let gates = routed_gates(alloc, circuit.gates(), lines, count)?;
    let mut routed = circuit.copy()?;
    routed.set_gates(gates);
    Ok(routed)
}
