// Functions and permutations and the networks that carry them, and what each step makes of a generated permutation.
use super::*;
use std::alloc::Global;
use std::process::Abort;

// The first words write a text that begins so over their input, and the others the same over theirs.
fn expect_same_output(
    rt: &impl Abort,
    alloc: Global,
    first: (&str, &str),
    second: (&str, &str),
    header: &[u8],
) {
    let out = output_of(rt, alloc, first.0, first.1.as_bytes());
    expect_head(rt, first.0, out.bytes(), header);
    expect_on(
        rt,
        alloc,
        second.0,
        second.1.as_bytes(),
        writes(out.bytes()),
    );
}

// The circuit that the outputs give for the embedding of the conjunction.
const CIRCUIT_OF_CONJUNCTION: &str = typed!(
    3,
    "x0 x1 x2",
    "t3 x0 x1 x2\nt3 x0 x2 x1\nt2 x0 x2\nt3 x0 x2 x1\n\
     t3 x1 x2 x0\nt3 x0 x1 x2\nt2 x1 x2\nt2 x2 x1\n"
);

#[test]
fn a_truth_table_becomes_the_network_of_its_circuit(rt: HostRuntime) {
    let alloc = rt.alloc();
    let flow = output_of(&rt, alloc, "flow --method out", CONJUNCTION.as_bytes());
    let same = writes(flow.bytes());
    expect_on(&rt, alloc, "map", CIRCUIT_OF_CONJUNCTION.as_bytes(), same);
    let report = network_report!(3, 78, 35, 10, 33, 57, 20);
    let want = writes(report.as_bytes());
    expect_on(&rt, alloc, "cost --from qasm", flow.bytes(), want);
}

// The same in two steps.
#[test]
fn single_targets_take_the_place_of_transformations(rt: HostRuntime) {
    const CYCLE: &[u8] = b"1 2 3 4 5 6 7 0";
    let alloc = rt.alloc();
    let circuit = output_of(&rt, alloc, "single", CYCLE);
    let network = output_of(&rt, alloc, "map", circuit.bytes());
    let same = writes(network.bytes());
    expect_on(&rt, alloc, "flow --from perm --method single", CYCLE, same);
}

#[test]
fn a_permutation_becomes_a_network(rt: HostRuntime) {
    const NETWORK: &str = network!(1, "x q[0];\n");
    const CASES: [(&str, &str, u8, &str); 3] = [
        ("flow --from perm", "1 0\n", 0, NETWORK),
        ("flow --simplify --from=perm -", "1 0\n", 0, NETWORK),
        (
            "--aux clean flow --method=both --from=perm",
            "1 0\n",
            0,
            NETWORK,
        ),
    ];
    expect_each(&rt, rt.alloc(), &CASES);
}

// A flip under three controls, whose word 14 goes to 15: the helper line comes after the others.
#[test]
fn a_helper_line_is_a_qubit_after_the_others(rt: HostRuntime) {
    let alloc = rt.alloc();
    let images = "0 1 2 3 4 5 6 7 8 9 10 11 12 13 15 14\n";
    let circuit = typed!(4, "x0 x1 x2 x3", "t4 x0 x1 x2 x3\n");
    let header = network!(5, "").as_bytes();
    let flow = ("flow --from perm --aux borrowed", images);
    let map = ("map --aux borrowed", circuit);
    expect_same_output(&rt, alloc, flow, map, header);
    let flow = ("flow --from perm --aux clean", images);
    let map = ("map --aux clean", circuit);
    expect_same_output(&rt, alloc, flow, map, header);
}

// What is typed writes what the steps write, each over what the one before it does: how long it is.
fn length_of_chain(
    rt: &impl Abort,
    alloc: Global,
    words: &str,
    steps: &[&str],
    text: &[u8],
) -> usize {
    let mut network = Vec::new(alloc);
    append(rt, &mut network, text);
    for step in steps {
        let out = output_of(rt, alloc, step, &network);
        network.clear();
        append(rt, &mut network, out.bytes());
    }
    expect_on(rt, alloc, words, text, writes(&network));
    network.len()
}

// The circuit has gates that the templates take away.
#[test]
fn a_flow_is_the_chain_of_its_steps(rt: HostRuntime) {
    const STEPS: [&str; 2] = ["synth --method out", "map"];
    const MORE_STEPS: [&str; 3] = ["synth --method out", "templates", "map"];
    let alloc = rt.alloc();
    let images = b"1 0 6 5 7 3 4 2\n";
    let words = "flow --from perm --method out";
    let plain = length_of_chain(&rt, alloc, words, &STEPS, images);
    let words = "flow --from perm --method out --simplify";
    let simplified = length_of_chain(&rt, alloc, words, &MORE_STEPS, images);
    expect_true(&rt, words, simplified < plain);
}

#[test]
fn joined_blocks_of_a_flow_are_those_of_map(rt: HostRuntime) {
    const STEPS: [&str; 2] = ["synth --method out", "map --blocks joined"];
    const TABLE_STEPS: [&str; 3] = ["embed", "synth", "map --blocks joined --aux clean"];
    let alloc = rt.alloc();
    let words = "flow --from perm --method out --blocks joined";
    length_of_chain(&rt, alloc, words, &STEPS, b"1 0 6 5 7 3 4 2\n");
    let words = "flow --blocks joined --aux clean";
    length_of_chain(&rt, alloc, words, &TABLE_STEPS, CONJUNCTION.as_bytes());
}

#[test]
fn an_input_of_a_flow_is_refused_by_its_form(rt: HostRuntime) {
    const TABLES: [(&[u8], &str); 2] = [
        (b".i 2\n.o 1\n1 1\n.e\n", "3: wrong term length"),
        (
            b".i 1\n.o 1\n.type fr\n1 1\n1 0\n.e\n",
            " lines 4 and 5 conflict at word 1",
        ),
    ];
    const PERMUTATIONS: [(&[u8], &str); 2] = [
        (b"0 2\n", " image out of range at place 1"),
        (b"0 1 2\n", " 3 numbers are no power of two from 2 to 65536"),
    ];
    let alloc = rt.alloc();
    expect_faults(&rt, alloc, "flow", "-", b"", &TABLES);
    expect_faults(&rt, alloc, "flow --from perm", "-", b"", &PERMUTATIONS);
    let want = fails(5, "-: 17 lines are more than 16");
    expect_on(&rt, alloc, "flow", b".i 16\n.o 1\n.e\n", want);
}

// Its permutation is 0 3 2 1.
#[test]
fn a_permutation_of_two_lines_takes_one_gate(rt: HostRuntime) {
    let summary = b"lines 2\nseed 1\nsynthesised 1\nsimplified 1\ndecomposed 1\nadded 0\n\
        operations 1\nt 0\ndepth 1\n";
    let want = writes(summary);
    expect_on(&rt, rt.alloc(), "demo --lines 2 --seed 1", b"", want);
}

#[test]
fn a_seed_tells_the_same_twice(rt: HostRuntime) {
    let typed = ("demo --lines 8 --seed 7", "");
    expect_same_output(&rt, rt.alloc(), typed, typed, b"lines 8\nseed 7\n");
}

#[test]
fn no_seed_and_no_lines_are_seed_1_and_four_lines(rt: HostRuntime) {
    let whole = ("demo --lines=4 --seed=1", "");
    expect_same_output(&rt, rt.alloc(), ("demo", ""), whole, b"lines 4\nseed 1\n");
}
