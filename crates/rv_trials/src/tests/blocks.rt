// The kinds of blocks of a network: what they write, how much, and that each does what the circuit does.
use super::*;
use std::alloc::Global;
use std::process::Abort;

const THREE_CONTROLS: &str = typed!(4, "a b c d", "t4 a b c d\n");

const SMALL_GATES: &str = typed!(3, "a b c", "t3 a b c\nf3 -a b c\nf2 b c\n");

#[test]
fn each_flip_and_each_small_swap_is_one_operation(rt: HostRuntime) {
    const SMALL: &str = network!(
        3,
        "ccx q[0],q[1],q[2];\nx q[0];\ncswap q[0],q[1],q[2];\nx q[0];\nswap q[1],q[2];\n"
    );
    const DECOMPOSED: &str = network!(
        5,
        "ccx q[2],q[4],q[3];\nccx q[0],q[1],q[4];\nccx q[2],q[4],q[3];\nccx q[0],q[1],q[4];\n"
    );
    const CASES: [(&str, &str, u8, &str); 3] = [
        ("map --blocks toffoli", SMALL_GATES, 0, SMALL),
        ("map --blocks=toffoli -", THREE_CONTROLS, 0, DECOMPOSED),
        (
            "flow --from perm --blocks toffoli",
            "0 1 2 3 4 5 7 6\n",
            0,
            network!(3, "ccx q[0],q[1],q[2];\n"),
        ),
    ];
    expect_each(&rt, rt.alloc(), &CASES);
}

// Where lines are free, none is added, so that each word of the lines is checked, whatever they hold.
const CIRCUITS: [&str; 6] = [
    typed!(5, "a b c d e", "t4 a b c d\n"),
    typed!(5, "a b c d e", "t4 -a b -c d\nf4 -a b c d\n"),
    typed!(6, "a b c d e f", "t5 -a b c -d e\n"),
    typed!(7, "a b c d e f g", "t5 a b c d e\n"),
    typed!(7, "a b c d e f g", "t6 a b c d e f\nt5 g f e d a\n"),
    SMALL_GATES,
];

// What is typed writes a network of each circuit that `check` calls the same.
fn expect_same_networks(rt: &impl Abort, alloc: Global, words: &str) {
    for circuit in CIRCUITS {
        let network = output_of(rt, alloc, words, circuit.as_bytes());
        let first = ("c.real", circuit.as_bytes());
        let second = ("n.qasm", network.bytes());
        let want = told(0, "same\n");
        expect_over_two(rt, alloc, "check c.real n.qasm", first, second, want);
    }
}

#[test]
fn networks_of_all_blocks_do_what_the_circuit_does(rt: HostRuntime) {
    let alloc = rt.alloc();
    expect_same_networks(&rt, alloc, "map --blocks exact");
    expect_same_networks(&rt, alloc, "map --blocks relative");
    expect_same_networks(&rt, alloc, "map --blocks toffoli");
    expect_same_networks(&rt, alloc, "map --blocks near");
    expect_same_networks(&rt, alloc, "map --blocks joined");
}

// By the line that stands between the others: the second control, the target, and the first control of two, which wants
// 0.
#[test]
fn three_lines_in_a_row_are_joined_as_neighbours(rt: HostRuntime) {
    const CONTROL: &str = concat!(
        "OPENQASM 2.0;\ninclude \"qelib1.inc\";\nqreg q[3];\n",
        "h q[2];\nt q[0];\nt q[1];\nt q[2];\ncx q[0],q[1];\ntdg q[1];\ncx q[1],q[2];\n",
        "t q[2];\ncx q[0],q[1];\ncx q[1],q[2];\ntdg q[2];\ncx q[0],q[1];\ncx q[1],q[2];\n",
        "tdg q[2];\ncx q[0],q[1];\ncx q[1],q[2];\nh q[2];\n",
    );
    const TARGET: &str = concat!(
        "OPENQASM 2.0;\ninclude \"qelib1.inc\";\nqreg q[3];\n",
        "h q[1];\nt q[0];\nt q[1];\nt q[2];\ncx q[0],q[1];\ntdg q[1];\ncx q[1],q[2];\n",
        "t q[2];\ncx q[0],q[1];\ncx q[1],q[2];\ntdg q[2];\ncx q[0],q[1];\ncx q[1],q[2];\n",
        "tdg q[2];\ncx q[0],q[1];\ncx q[1],q[2];\nh q[1];\n",
    );
    const ZERO: &str = concat!(
        "OPENQASM 2.0;\ninclude \"qelib1.inc\";\nqreg q[3];\n",
        "x q[1];\nh q[0];\nt q[2];\nt q[1];\nt q[0];\ncx q[2],q[1];\ntdg q[1];\n",
        "cx q[1],q[0];\nt q[0];\ncx q[2],q[1];\ncx q[1],q[0];\ntdg q[0];\ncx q[2],q[1];\n",
        "cx q[1],q[0];\ntdg q[0];\ncx q[2],q[1];\ncx q[1],q[0];\nh q[0];\nx q[1];\n",
    );
    const CASES: [(&str, &str, u8, &str); 4] = [
        (
            "map --blocks near",
            typed!(3, "a b c", "t3 a b c\n"),
            0,
            CONTROL,
        ),
        (
            "map --blocks=near -",
            typed!(3, "a b c", "t3 c a b\n"),
            0,
            TARGET,
        ),
        (
            "map --blocks near",
            typed!(3, "a b c", "t3 -b c a\n"),
            0,
            ZERO,
        ),
        (
            "flow --from perm --blocks near",
            "0 1 2 3 4 5 7 6\n",
            0,
            CONTROL,
        ),
    ];
    expect_each(&rt, rt.alloc(), &CASES);
}

// Lines that are no row have the usual block.
#[test]
fn lines_apart_have_the_usual_block(rt: HostRuntime) {
    const APART: &str = typed!(4, "a b c d", "t3 a c d\nt2 a d\nt3 d -b a\n");
    let alloc = rt.alloc();
    let near = output_of(&rt, alloc, "map --blocks near", APART.as_bytes());
    let exact = output_of(&rt, alloc, "map", APART.as_bytes());
    expect_same(&rt, "map --blocks near", near.bytes(), exact.bytes());
}

// What is typed writes a network of the circuit whose report begins so.
fn expect_costs(rt: &impl Abort, alloc: Global, words: &str, circuit: &str, head: &str) {
    let network = output_of(rt, alloc, words, circuit.as_bytes());
    expect_begin(rt, alloc, "cost --from qasm", network.bytes(), head);
}

// By n controls: 20n - 24 operations with T 8n - 8, over clean lines 18n - 21 with T 8n - 9; a split has each half
// twice.
#[test]
fn ladders_have_as_many_as_are_counted(rt: HostRuntime) {
    const RELATIVE: &str = "map --blocks relative";
    const CASES: [(&str, &str, &str); 4] = [
        (
            RELATIVE,
            THREE_CONTROLS,
            "lines 5\noperations 36\nt 16\nh 6\ncnot 14\n",
        ),
        (
            "map --blocks relative --aux clean",
            THREE_CONTROLS,
            "lines 5\noperations 33\nt 15\nh 6\ncnot 12\n",
        ),
        (
            RELATIVE,
            typed!(7, "a b c d e f g", "t5 a -b c d e\n"),
            "lines 7\noperations 58\nt 24\nh 10\ncnot 22\n",
        ),
        (
            RELATIVE,
            typed!(6, "a b c d e f", "t5 a b c d e\n"),
            "lines 6\noperations 102\nt 46\nh 16\ncnot 40\n",
        ),
    ];
    for (words, circuit, head) in CASES {
        expect_costs(&rt, rt.alloc(), words, circuit, head);
    }
}

#[test]
fn ladders_have_as_many_as_64_lines(rt: HostRuntime) {
    let alloc = rt.alloc();
    let names = names(&rt, alloc, 64);
    let gate = format!(in alloc; "t64 {names}\n").expect(&rt, "memory");
    let circuit = circuit_on(&rt, alloc, 64, &gate);
    let words = "map --blocks relative";
    let want = fails(5, "-: 65 lines are more than 64");
    expect_on(&rt, alloc, words, circuit.as_bytes(), want);
    let words = "map --blocks relative --aux clean";
    let want = fails(5, "-: 125 lines are more than 64");
    expect_on(&rt, alloc, words, circuit.as_bytes(), want);
}
