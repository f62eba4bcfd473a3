// A step past as many gates as there can be, with which a gate commutes. How long it takes is not proved.
use super::{circuit_of, flip, push};
use rv_gate::{Circuit, Gate, MOST_GATES};
use rv_links::{Linked, NodeId};
use std::alloc::Global;
use std::process::Abort;

// A NOT on line 0, NOTs on line 1, and a gate that reads line 0.
fn longest(rt: &impl Abort, alloc: Global) -> Circuit {
    let mut circuit = circuit_of(rt, alloc, 2, &[flip(rt, 0, 0)], 1);
    for _ in 2..MOST_GATES {
        push(rt, &mut circuit, flip(rt, 0, 1));
    }
    push(rt, &mut circuit, flip(rt, 1, 1));
    circuit
}

fn step(rt: &impl Abort, linked: &Linked, gate: Gate, at: NodeId) -> NodeId {
    assert!(rt; linked.is_live(at));
    linked.next_in_doubt(gate, at).expect(rt, "a gate after it")
}

// Twenty steps lead from the first gate past all others but a few at the end, again and again.
fn step_to_the_end(rt: &impl Abort, linked: &Linked) {
    let first = linked.first().expect(rt, "a gate");
    assert!(rt; linked.is_live(first));
    let gate = linked.gate(first);
    for _ in 0..1_000 {
        let mut at = first;
        for _ in 0..20 {
            at = step(rt, linked, gate, at);
        }
        assert!(rt; linked.is_live(at));
    }
}

#[test]
fn a_step_takes_no_longer_past_many_gates(rt: HostRuntime) {
    let circuit = longest(&rt, rt.alloc());
    let linked = Linked::from_circuit(rt.alloc(), &circuit).expect(&rt, "a linked circuit");
    step_to_the_end(&rt, &linked);
}
