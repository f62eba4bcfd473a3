//! The order of all numbers, and how many lines gates touch.
ghost use Rattle.std.specs.Prelude.{◌≡◌, ◌+◌, ◌^◌, ◌<◌, ◌≤◌, [], length};
ghost use Rattle.std.specs.List.{range_with_len};
ghost use Rattle.rv_gate.specs.declared.word.TheConstants.{MOST_LINES};
ghost use Rattle.rv_links.specs.Nodes.{incidence, incidences};

use crate::ring::Ring;
use rv_gate::Gate;

// All numbers below `count` enter an empty order.
pub fn thread(order: &mut Ring, count: u32)
    requires room { order.old.room ≡ count }
    requires empty { order.old.ids ≡ [] }
    ensures room { order.new.room ≡ count }
    ensures ids { order.new.ids ≡ range_with_len 0 count }
{
    for id in 0..count {
        order.push_back(id);
    }
}

// How many lines the gate touches.
pub fn incidence(gate: Gate) -> u32
    ensures is { result ≡ incidence gate }
    ensures small { result ≤ MOST_LINES }
{
    gate.touched().count_ones()
}

/// How many lines the gates touch, in sum.
pub fn incidences(gates: &[Gate]) -> u64
    requires { length gates.now < 2 ^ 32 }
    ensures { result ≡ incidences gates.now }
{
    let mut sum: u64 = 0;
    for gate in gates {
        sum += u64::from(incidence(*gate));
    }
    sum
}
