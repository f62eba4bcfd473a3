// The greatest cost of a circuit, whose text would be too long for a command.
use super::circuit_of;
use rv_cost::{CircuitCost, circuit_cost};
use rv_gate::{Gate, MOST_GATES, MOST_LINES};

#[test]
fn the_greatest_quantum_cost_of_the_most_gates(rt: HostRuntime) {
    let controls = u64::MAX / 4;
    let gate = Gate::swap(controls, 0, 62, 63).expect(&rt, "a swap");
    let circuit = circuit_of(&rt, rt.alloc(), MOST_LINES, &[gate], MOST_GATES);
    let wanted = CircuitCost {
        lines: 64,
        gates: 1 << 20,
        controls: 62,
        quantum: 19342813113834066794250240,
        depth: 1 << 20,
    };
    assert!(rt; circuit_cost(&circuit) == wanted);
}
