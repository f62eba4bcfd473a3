// Circuits and their routed circuits.
use super::*;
use std::alloc::Global;
use std::process::Abort;

#[test]
fn lines_gather_before_each_gate(rt: HostRuntime) {
    const CASES: [(&str, &str); 4] = [
        (
            typed!(3, "a b c", "t2 a c\nt2 a c\n"),
            written!(3, "a b c", "---", "---", "f2 b c\nt2 a b\nt2 a b\nf2 b c\n"),
        ),
        (
            typed!(3, "a b c", "t3 a b c\n"),
            written!(3, "a b c", "---", "---", "t3 a b c\n"),
        ),
        (
            typed!(4, "a b c d", "t3 a c d\n"),
            written!(4, "a b c d", "----", "----", "f2 a b\nt3 b c d\nf2 a b\n"),
        ),
        (typed!(1, "a", ""), written!(1, "a", "-", "-", "")),
    ];
    expect_texts(&rt, rt.alloc(), "route c.real", "c.real", &CASES);
}

// Labels, a constant and garbage of its own, and a control that wants 0.
const MARKED: &[u8] = b"\
    .numvars 3\n.variables a b c\n.inputs p q r\n.outputs t u v\n.constants 1--\n\
    .garbage --1\n.begin\nt2 -a c\n.end\n";

const MARKED_AND_ROUTED: &[u8] = b"\
    .version 2.0\n.numvars 3\n.variables a b c\n.inputs p q r\n.outputs t u v\n\
    .constants 1--\n.garbage --1\n.begin\nf2 b c\nt2 -a b\nf2 b c\n.end\n";

#[test]
fn a_routed_circuit_keeps_names_labels_and_marks(rt: HostRuntime) {
    let want = writes(MARKED_AND_ROUTED);
    expect_on(&rt, rt.alloc(), "route", MARKED, want);
}

#[test]
fn a_circuit_is_refused_by_its_fault(rt: HostRuntime) {
    const CASES: [(&[u8], &str); 2] = [
        (b"t2 a b", "4: no .end"),
        (b"t2 a -b\n.end\n", "4: sign on a target"),
    ];
    let first = b".numvars 2\n.variables a b\n.begin\n";
    expect_faults(&rt, rt.alloc(), "route c.real", "c.real", first, &CASES);
}

#[test]
fn an_input_that_is_not_held_is_not_read(rt: HostRuntime) {
    let alloc = rt.alloc();
    let circuit = ("c.real", typed!(1, "a", "").as_bytes());
    let want = fails(4, "cannot read missing");
    expect(&rt, alloc, "fold missing", circuit, want);
    expect(&rt, alloc, "single missing", circuit, want);
    expect(&rt, alloc, "route missing", circuit, want);
}

// A circuit of so many flips between lines that are not neighbours.
fn far(rt: &impl Abort, alloc: Global, count: usize) -> Vec<u8> {
    let first = b".numvars 3\n.variables a b c\n.begin\n";
    repeated(rt, alloc, first, b"t2 a c\n", count, b".end\n")
}

fn expect_too_many(rt: &impl Abort, alloc: Global, count: usize, line: &str) {
    let circuit = far(rt, alloc, count);
    expect(
        rt,
        alloc,
        "route r.real",
        ("r.real", &circuit),
        fails(5, line),
    );
}

// One swap before the first gate, and one after the last.
#[test]
fn a_routed_circuit_has_as_many_as_1048576_gates(rt: HostRuntime) {
    let alloc = rt.alloc();
    let header = b".version 2.0\n.numvars 3\n.variables a b c\n";
    let most = far(&rt, alloc, 1048574);
    let input = ("r.real", most.as_slice());
    expect_lines(&rt, alloc, "route r.real", input, header, 8 + 1048576 + 1);
    let line = "r.real: 1048577 gates are more than 1048576";
    expect_too_many(&rt, alloc, 1048575, line);
    let line = "r.real: 1048578 gates are more than 1048576";
    expect_too_many(&rt, alloc, 1048576, line);
}
