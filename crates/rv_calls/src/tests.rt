// Public calls of the libraries, a file of tests for each of them.
// Where memory is wanting a helper ends the test, and answers no error: a `?` beside objects that need dropping is dear
// to prove, in each function that it stands in.
use rv_gate::{Circuit, Gate, MOST_LINES, Names};
use rv_reader::TextReader;
use std::alloc::Global;
use std::process::Abort;

mod costs;
mod faults;
mod files;
mod links;
mod networks;
mod plas;
mod real_texts;
mod simulation;
mod tokens;

// It is so, by what is named. One small function, since what an assertion prints is dear to prove.
fn expect_true(rt: &impl Abort, name: &str, is_so: bool) {
    assert!(rt; is_so, "{name}");
}

// What a text denotes, or its first fault.
fn read<R: TextReader>(rt: &impl Abort, alloc: Global, text: &[u8]) -> Result<R::Object, R::Fault> {
    assert!(rt; text.len() < 1000);
    let mut reader = R::new(alloc);
    if let Err(fault) = reader.feed(text) {
        return Err(fault);
    }
    reader.finish()
}

// Adds a gate that is to fit.
fn push(rt: &impl Abort, circuit: &mut Circuit, gate: Gate) {
    assert!(rt; gate.fits(circuit.line_count()));
    assert!(rt; circuit.push(gate).is_ok());
}

// The flip of a target under these controls, all of which want 1.
fn flip(rt: &impl Abort, care: u64, target: u8) -> Gate {
    Gate::flip(care, care, target).expect(rt, "a flip")
}

// So many times these gates, on lines named x0, x1, and so on.
fn circuit_of(rt: &impl Abort, alloc: Global, lines: u8, gates: &[Gate], times: usize) -> Circuit {
    assert!(rt; lines > 0);
    assert!(rt; lines <= MOST_LINES);
    let names = Names::numbered(alloc, b'x', lines).expect(rt, "names");
    let mut circuit = Circuit::new(names).expect(rt, "a circuit");
    for _ in 0..times {
        for gate in gates {
            push(rt, &mut circuit, *gate);
        }
    }
    circuit
}
