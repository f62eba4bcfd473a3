ghost use Rattle.std.specs.Prelude.{◌≡◌, ◌≤◌, ◌^◌, ◌-◌, min, length};
ghost use Rattle.std.specs.List.{sum_by};
ghost use Rattle.rv_cost.specs.CircuitCost.{quantum_cost};
ghost use Rattle.rv_gate.specs.declared.circuit.TheConstants.{MOST_GATES};
ghost use Rattle.rv_price.specs.Price.{price_of};

use crate::Goal;
use crate::network::gates_count;
use rv_cost::quantum_cost;
use rv_gate::{Gate, MOST_GATES};

fn quantum_sum(gates: &[Gate]) -> u64
    requires { length gates.now ≤ MOST_GATES }
    ensures { result ≡ min (sum_by quantum_cost gates.now) (2 ^ 64 - 1) }
{
    let mut sum = 0u128;
    for gate in gates {
        sum += quantum_cost(*gate);
    }
    u64::try_from(sum).unwrap_or(u64::MAX)
}

/// What gates on so many lines cost by a goal. Of more than [`MOST_GATES`] gates it is the greatest number.
pub fn price(goal: Goal, lines: u8, gates: &[Gate]) -> u64
    ensures { length gates.now ≤ MOST_GATES → result ≡ price_of goal lines gates.now }
{
    if gates.len() > MOST_GATES {
        return u64::MAX;
    }
    match goal {
        Goal::Lines => u64::from(lines),
        Goal::Gates => gates.len() as u64,
        Goal::Quantum => quantum_sum(gates),
        Goal::T | Goal::Cx => gates_count(goal, gates),
    }
}
