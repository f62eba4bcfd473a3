// Networks, and what a search finds for them.
use super::*;
use std::alloc::Global;
use std::process::Abort;

#[test]
fn operations_that_undo_each_other_go(rt: HostRuntime) {
    const CASES: [(&str, &str); 4] = [
        (
            "OPENQASM 2.0;\nqreg q[1];\nh q; t q; h q; h q;",
            network!(1, "h q[0];\nt q[0];\n"),
        ),
        // Between the two h of a line stands what commutes with them.
        (
            "OPENQASM 2.0;\nqreg a[1];\nqreg b[1];\nh a; t b; h a; tdg b;",
            network!(2, ""),
        ),
        // Measurements are dropped, and two t are one s.
        (
            "OPENQASM 2.0;\nqreg q[1];\ncreg c[1];\nt q; t q; measure q -> c;",
            network!(1, "s q[0];\n"),
        ),
        ("OPENQASM 2.0;\nqreg q[3];", network!(3, "")),
    ];
    expect_texts(&rt, rt.alloc(), "reduce q.qasm", "q.qasm", &CASES);
}

// The network of each circuit is reduced to one with the first counts beside it.
fn expect_reduced(rt: &impl Abort, alloc: Global, cases: &[(&str, &str)]) {
    for (circuit, counts) in cases {
        let map = output_of(rt, alloc, "map", circuit.as_bytes());
        let reduced = output_of(rt, alloc, "reduce", map.bytes());
        let input = ("-", reduced.bytes());
        expect_lines(rt, alloc, "cost --from qasm", input, counts.as_bytes(), 7);
    }
}

// Circuits of the literature, with the T that are published for them.
#[test]
fn a_reduced_network_has_the_published_t(rt: HostRuntime) {
    const CASES: [(&str, &str); 6] = [
        // Three controls over a clean line.
        (
            typed!(5, "a b c d e", "t3 a b d\nt3 c d e\nt3 a b d\n"),
            "lines 5\noperations 40\nt 15\n",
        ),
        // Three controls over a line that may hold anything.
        (
            typed!(5, "a b c d e", "t4 a b c e\n"),
            "lines 5\noperations 50\nt 16\n",
        ),
        // Whether a number is a multiple of 5.
        (
            typed!(
                5,
                "x0 x1 x2 x3 y",
                "t1 y\nt2 x0 y\nt2 x1 y\nt2 x2 y\nt2 x3 y\nt3 x0 x1 y\nt3 x0 x3 y\nt3 x2 x1 y\nt3 x2 x3 y\n"
            ),
            "lines 5\noperations 48\nt 8\n",
        ),
        // The product in the field of 16 elements.
        (
            typed!(
                12,
                "a0 a1 a2 a3 b0 b1 b2 b3 c0 c1 c2 c3",
                "t3 a3 b0 c3\nt3 a3 b1 c0\nt3 a3 b2 c1\nt3 a3 b3 c2\nt2 c2 c3\nt3 a2 b0 c2\nt3 a2 b1 c3\n\
                 t3 a2 b2 c0\nt3 a2 b3 c1\nt2 c1 c2\nt3 a1 b0 c1\nt3 a1 b1 c2\nt3 a1 b2 c3\nt3 a1 b3 c0\n\
                 t2 c0 c1\nt3 a0 b0 c0\nt3 a0 b1 c1\nt3 a0 b2 c2\nt3 a0 b3 c3\n"
            ),
            "lines 12\noperations 188\nt 68\n",
        ),
        // The adder of Vedral, Barenco and Ekert.
        (
            typed!(
                10,
                "c0 a0 b0 c1 a1 b1 c2 a2 b2 c3",
                "t3 a0 b0 c1\nt2 a0 b0\nt3 c0 b0 c1\nt3 a1 b1 c2\nt2 a1 b1\nt3 c1 b1 c2\nt3 a2 b2 c3\n\
                 t2 a2 b2\nt3 c2 b2 c3\nt2 a2 b2\nt2 a2 b2\nt2 c2 b2\nt3 c1 b1 c2\nt2 a1 b1\nt3 a1 b1 c2\n\
                 t2 a1 b1\nt2 c1 b1\nt3 c0 b0 c1\nt2 a0 b0\nt3 a0 b0 c1\nt2 a0 b0\nt2 c0 b0\n"
            ),
            "lines 10\noperations 101\nt 24\n",
        ),
        // A Toffoli gate twice does nothing, and needs no T.
        (
            typed!(3, "a b c", "t3 a b c\nt3 a b c\n"),
            "lines 3\noperations 15\nt 0\n",
        ),
    ];
    expect_reduced(&rt, rt.alloc(), &CASES);
}

#[test]
fn what_is_not_read_is_not_reduced(rt: HostRuntime) {
    const CASES: [(&[u8], &str); 2] = [
        (b"qreg q[2];\nt r[0];\n", "3: unknown register"),
        (b"creg c[1];", "2: no quantum register"),
    ];
    let version = b"OPENQASM 2.0;\n";
    expect_faults(&rt, rt.alloc(), "reduce q.qasm", "q.qasm", version, &CASES);
}

// A Toffoli gate with its helper phases joined: as many T, and no more CNOT gates than are published.
#[test]
fn a_goal_makes_fewer_cnots(rt: HostRuntime) {
    const CIRCUIT: &str = typed!(5, "a b c d e", "t3 a b d\nt3 c d e\nt3 a b d\n");
    let alloc = rt.alloc();
    let map = output_of(&rt, alloc, "map", CIRCUIT.as_bytes());
    let reduced = output_of(&rt, alloc, "reduce --goal cx --effort 10", map.bytes());
    let first = ("c.real", CIRCUIT.as_bytes());
    let second = ("n.qasm", reduced.bytes());
    let same = told(0, "same\n");
    expect_over_two(&rt, alloc, "check c.real n.qasm", first, second, same);
}

// A Toffoli and a Fredkin gate, each by its block.
#[test]
fn a_goal_takes_gates_apart(rt: HostRuntime) {
    const CIRCUIT: &str = typed!(3, "a b c", "t3 a b c\nf3 a b c\n");
    let alloc = rt.alloc();
    let network = network!(3, "ccx q[0],q[1],q[2];\ncswap q[0],q[1],q[2];\n");
    let reduced = output_of(&rt, alloc, "reduce --goal t --effort 1", network.as_bytes());
    let first = ("c.real", CIRCUIT.as_bytes());
    let second = ("n.qasm", reduced.bytes());
    let same = told(0, "same\n");
    expect_over_two(&rt, alloc, "check c.real n.qasm", first, second, same);
}

#[test]
fn an_effort_is_asked_of_a_goal(rt: HostRuntime) {
    const CASES: [(&str, &str, u8, &str); 3] = [
        (
            "reduce --effort 3",
            "",
            2,
            "option --effort not used by reduce",
        ),
        ("reduce --seed 3", "", 2, "option --seed not used by reduce"),
        ("reduce --goal gates", "", 2, "bad value for --goal"),
    ];
    expect_each(&rt, rt.alloc(), &CASES);
}
