// Circuits and networks: whether these do exactly the same.
use super::*;
use std::alloc::Global;
use std::process::Abort;

const CHECK: &str = "check c.real n.qasm";

const NOTHING: &str = typed!(1, "a", "");

const ONE_QUBIT: &str = "OPENQASM 2.0;\nqreg q[1];\n";

// A network on one qubit, by its operations.
macro_rules! one_qubit {
    ($operations:literal) => {
        concat!("OPENQASM 2.0;\nqreg q[1];\n", $operations)
    };
}

fn expect_check(rt: &impl Abort, alloc: Global, circuit: &[u8], network: &[u8], want: Want) {
    let mut files = files_of(rt, alloc, ("c.real", circuit), ("n.qasm", network));
    expect_by(rt, alloc, CHECK, &mut files, want);
}

// Checks each circuit and network: the status, and what is told.
fn expect_checks(rt: &impl Abort, alloc: Global, cases: &[(&str, &str, u8, &str)]) {
    for (circuit, network, status, tells) in cases {
        let want = told(*status, tells);
        expect_check(rt, alloc, circuit.as_bytes(), network.as_bytes(), want);
    }
}

#[test]
fn the_least_word_that_differs_is_told(rt: HostRuntime) {
    const CASES: [(&str, &str, u8, &str); 6] = [
        (
            typed!(2, "a b", "t2 a b\n"),
            "OPENQASM 2.0;\nqreg q[2];\ncx q[1],q[0];\n",
            1,
            "differs at word 01\n",
        ),
        // No phase is free, not even one of the whole.
        (NOTHING, one_qubit!("h q[0]; h q[0];"), 0, "same\n"),
        (NOTHING, one_qubit!("z q[0];"), 1, "differs at word 1\n"),
        (
            NOTHING,
            one_qubit!("t q[0]; h q[0]; h q[0]; tdg q[0];"),
            0,
            "same\n",
        ),
        (
            NOTHING,
            one_qubit!("x q[0]; z q[0]; x q[0]; z q[0];"),
            1,
            "differs at word 0\n",
        ),
        (NOTHING, one_qubit!("h q[0];"), 1, "differs at word 0\n"),
    ];
    expect_checks(&rt, rt.alloc(), &CASES);
}

// Checks a circuit and a network of so many turns.
fn expect_turns(
    rt: &impl Abort,
    alloc: Global,
    circuit: &str,
    count: usize,
    status: u8,
    tells: &str,
) {
    let network = repeated(
        rt,
        alloc,
        ONE_QUBIT.as_bytes(),
        b"h q[0]; t q[0];\n",
        count,
        b"",
    );
    expect_check(rt, alloc, circuit.as_bytes(), &network, told(status, tells));
}

#[test]
fn a_coefficient_is_at_most_2_to_the_100(rt: HostRuntime) {
    let alloc = rt.alloc();
    let line = "n.qasm: coefficient too large at operation 801 for word 0";
    expect_turns(&rt, alloc, NOTHING, 1000, 5, line);
    expect_turns(&rt, alloc, NOTHING, 400, 1, "differs at word 0\n");
    // Of a circuit on other lines none is looked at.
    let lines = "differs in lines 2 and 1\n";
    expect_turns(&rt, alloc, typed!(2, "a b", ""), 1000, 1, lines);
}

#[test]
fn ten_lines_are_checked(rt: HostRuntime) {
    const TEN: &str = typed!(10, "x0 x1 x2 x3 x4 x5 x6 x7 x8 x9", "t1 x0\n");
    const ELEVEN: &str = typed!(11, "x0 x1 x2 x3 x4 x5 x6 x7 x8 x9 x10", "t1 x0\n");
    const NETWORK: &str = "OPENQASM 2.0;\nqreg q[10];\nx q[0];\n";
    const WIDE: &str = "OPENQASM 2.0;\nqreg q[11];\nx q[0];\n";
    const CASES: [(&str, &str, u8, &str); 4] = [
        (TEN, NETWORK, 0, "same\n"),
        (TEN, WIDE, 5, "n.qasm: 11 lines are more than 10"),
        (ELEVEN, NETWORK, 5, "c.real: 11 lines are more than 10"),
        (ELEVEN, WIDE, 5, "c.real: 11 lines are more than 10"),
    ];
    expect_checks(&rt, rt.alloc(), &CASES);
}

#[test]
fn each_input_has_its_faults_in_their_order(rt: HostRuntime) {
    const NO_END: &str = ".numvars 1\n.variables a\n.begin\n";
    const UNKNOWN: &str = one_qubit!("foo q[0];\n");
    const CASES: [(&str, &str, u8, &str); 3] = [
        (NO_END, UNKNOWN, 3, "c.real:3: no .end"),
        (NO_END, ONE_QUBIT, 3, "c.real:3: no .end"),
        (NOTHING, UNKNOWN, 3, "n.qasm:3: unknown gate"),
    ];
    let alloc = rt.alloc();
    expect_checks(&rt, alloc, &CASES);
    // The network is missing, and then the circuit.
    let missing = fails(4, "cannot read n.qasm");
    expect(&rt, alloc, CHECK, ("c.real", NO_END.as_bytes()), missing);
    let missing = fails(4, "cannot read c.real");
    expect(&rt, alloc, CHECK, ("n.qasm", ONE_QUBIT.as_bytes()), missing);
}

// Checks a circuit and a network that are the same, by their names.
fn expect_same_by_names(rt: &impl Abort, alloc: Global, words: &str, circuit: &str, network: &str) {
    let circuit = (circuit, NOTHING.as_bytes());
    let network = (network, ONE_QUBIT.as_bytes());
    expect_over_two(rt, alloc, words, circuit, network, writes(b"same\n"));
}

#[test]
fn an_input_that_is_not_named_is_standard_input(rt: HostRuntime) {
    const CASES: [(&str, &str, u8, &str); 4] = [
        ("check c.real --by all", NOTHING, 2, "bad value for --by"),
        ("check", NOTHING, 2, "wrong number of inputs for check"),
        ("check -", NOTHING, 2, "standard input named twice"),
        (
            "check c.real --all",
            NOTHING,
            2,
            "option --all not used by check",
        ),
    ];
    let alloc = rt.alloc();
    expect_same_by_names(&rt, alloc, "check c.real", "c.real", "-");
    expect_same_by_names(&rt, alloc, "check c.real -", "c.real", "-");
    expect_same_by_names(&rt, alloc, "check - n.qasm", "-", "n.qasm");
    expect_each(&rt, alloc, &CASES);
}

// A network of lines of at most 100 bytes without its last one.
fn without_last(network: &[u8]) -> &[u8] {
    let mut rest = network.strip_suffix(b"\n").unwrap_or(network);
    for _ in 0..100 {
        match rest.split_last() {
            Some((last, before)) if *last != b'\n' => rest = before,
            _ => break,
        }
    }
    rest
}

// A network with `y q[0]` in the place of its last operation.
fn exchanged(rt: &impl Abort, alloc: Global, network: &[u8]) -> Vec<u8> {
    repeated(rt, alloc, without_last(network), b"y q[0];\n", 1, b"")
}

fn exchanged_files(rt: &impl Abort, alloc: Global, circuit: &[u8], network: &[u8]) -> MemFiles {
    let network = exchanged(rt, alloc, network);
    files_of(rt, alloc, ("c.real", circuit), ("n.qasm", &network))
}

// A circuit and a network differ at a word if `y q[0]` stands for the last operation of the network.
fn expect_exchanged(rt: &impl Abort, alloc: Global, circuit: &[u8], network: &[u8]) {
    let mut files = exchanged_files(rt, alloc, circuit, network);
    let ended = end_of(rt, alloc, CHECK, &mut files, sink_of(rt, alloc, 100));
    expect_status(rt, CHECK, ended.status, 1);
    expect_line(rt, CHECK, ended.errs.bytes(), "");
    expect_begun(rt, CHECK, ended.out.bytes(), b"differs at word ", 1);
}

// A network is the same as a circuit, and isn't with another last operation. So is what `fold` makes of it.
fn expect_same_also_folded(rt: &impl Abort, alloc: Global, circuit: &[u8], network: &[u8]) {
    let same = writes(b"same\n");
    expect_check(rt, alloc, circuit, network, same);
    expect_exchanged(rt, alloc, circuit, network);
    let folded = output_of(rt, alloc, "fold", network);
    expect_check(rt, alloc, circuit, folded.bytes(), same);
    expect_exchanged(rt, alloc, circuit, folded.bytes());
}

// The network that is mapped from a circuit is the same as the circuit that is decomposed from it.
fn expect_mapped(rt: &impl Abort, alloc: Global, decompose: &str, map: &str, circuit: &str) {
    let decomposed = output_of(rt, alloc, decompose, circuit.as_bytes());
    let network = output_of(rt, alloc, map, circuit.as_bytes());
    expect_same_also_folded(rt, alloc, decomposed.bytes(), network.bytes());
}

#[test]
fn a_mapped_circuit_is_the_same_as_its_decomposition(rt: HostRuntime) {
    const CIRCUITS: [&str; 12] = [
        typed!(1, "a", "t1 a\n"),
        typed!(2, "a b", "t2 a b\nf2 a b\n"),
        typed!(3, "a b c", "t3 a b c\n"),
        typed!(3, "a b c", "t3 a -b c\nt3 -a c b\n"),
        typed!(3, "a b c", "p3 a b c\nf3 a b c\n"),
        typed!(3, "a b c", "f3 -a b c\nt2 c a\nt1 b\n"),
        typed!(4, "a b c d", "t4 a b c d\n"),
        typed!(4, "a b c d", "t4 -a b d c\nf4 a b c d\n"),
        typed!(4, "a b c d", "p3 a b d\np3 b c d\n"),
        typed!(5, "a b c d e", "t5 a b c d e\n"),
        typed!(5, "a b c d e", "t4 a b c e\nt2 e a\nf3 d b c\n"),
        typed!(6, "a b c d e f", "t5 -a b c -d f\nt3 f e a\n"),
    ];
    let alloc = rt.alloc();
    for circuit in &CIRCUITS {
        let (decompose, map) = ("decompose --aux borrowed", "map --aux borrowed");
        expect_mapped(&rt, alloc, decompose, map, circuit);
        let (decompose, map) = ("decompose --aux clean", "map --aux clean");
        expect_mapped(&rt, alloc, decompose, map, circuit);
    }
    let network = output_of(&rt, alloc, "map", FULL_ADDER.as_bytes());
    expect_same_also_folded(&rt, alloc, FULL_ADDER.as_bytes(), network.bytes());
}

fn expect_flow(rt: &impl Abort, alloc: Global, images: &[u8]) {
    let synthesised = output_of(rt, alloc, "synth", images);
    let circuit = output_of(rt, alloc, "decompose", synthesised.bytes());
    let network = output_of(rt, alloc, "flow --from perm", images);
    expect_same_also_folded(rt, alloc, circuit.bytes(), network.bytes());
}

// All 24 permutations of the words of two lines but the one that changes none.
#[test]
fn the_network_of_a_permutation_is_the_same_as_its_circuit(rt: HostRuntime) {
    const PERMUTATIONS: [&str; 23] = [
        "0 1 3 2", "0 2 1 3", "0 2 3 1", "0 3 1 2", "0 3 2 1", "1 0 2 3", "1 0 3 2", "1 2 0 3",
        "1 2 3 0", "1 3 0 2", "1 3 2 0", "2 0 1 3", "2 0 3 1", "2 1 0 3", "2 1 3 0", "2 3 0 1",
        "2 3 1 0", "3 0 1 2", "3 0 2 1", "3 1 0 2", "3 1 2 0", "3 2 0 1", "3 2 1 0",
    ];
    for images in &PERMUTATIONS {
        expect_flow(&rt, rt.alloc(), images.as_bytes());
    }
}

// Checks each circuit and network by sums over paths: the status, and what is told.
fn expect_by_paths(rt: &impl Abort, alloc: Global, cases: &[(&str, &str, u8, &str)]) {
    for (circuit, network, status, tells) in cases {
        let first = ("c.real", circuit.as_bytes());
        let second = ("n.qasm", network.as_bytes());
        let words = "check --by paths c.real n.qasm";
        expect_over_two(rt, alloc, words, first, second, told(*status, tells));
    }
}

// Where all words differ, or one alone, this is the word that is told.
#[test]
fn a_network_is_checked_from_all_words_at_once(rt: HostRuntime) {
    const CASES: [(&str, &str, u8, &str); 6] = [
        (NOTHING, one_qubit!("h q[0]; h q[0];"), 0, "same\n"),
        (
            NOTHING,
            one_qubit!("t q[0]; h q[0]; h q[0]; tdg q[0];"),
            0,
            "same\n",
        ),
        (NOTHING, one_qubit!("z q[0];"), 1, "differs, as at word 1\n"),
        (TWO_CONTROLS, FIFTEEN_OPERATIONS, 0, "same\n"),
        (
            TWO_CONTROLS,
            network!(3, "ccx q[0],q[1],q[2];\ncz q[0],q[1];\n"),
            1,
            "differs, as at word 111\n",
        ),
        (
            NOTHING,
            "OPENQASM 2.0;\nqreg q[2];\n",
            1,
            "differs in lines 1 and 2\n",
        ),
    ];
    expect_by_paths(&rt, rt.alloc(), &CASES);
}

// A product on a line that begins with 0, by four T; and networks that are right from a word with a constant alone.
#[test]
fn constants_are_held_where_they_are_asked_for(rt: HostRuntime) {
    const WITH_0: &str = ".numvars 1\n.variables a\n.constants 0\n.begin\n.end\n";
    const WITH_1: &str = ".numvars 1\n.variables a\n.constants 1\n.begin\n.end\n";
    const PRODUCT: &str = ".numvars 3\n.variables a b z\n.constants --0\n.begin\nt3 a b z\n.end\n";
    const OF_FOUR_T: &str = network!(
        3,
        "h q[2];\nt q[2];\ncx q[0],q[2];\ncx q[1],q[2];\ncx q[2],q[0];\ncx q[2],q[1];\ntdg q[0];\ntdg q[1];\nt q[2];\ncx q[2],q[0];\ncx q[2],q[1];\nh q[2];\ns q[2];\n"
    );
    const CASES: [(&str, &str, u8, &str); 5] = [
        (WITH_0, one_qubit!("z q[0];"), 0, "same\n"),
        (WITH_1, one_qubit!("z q[0];"), 1, "differs, as at word 1\n"),
        (WITH_1, one_qubit!("x q[0]; z q[0]; x q[0];"), 0, "same\n"),
        (PRODUCT, OF_FOUR_T, 0, "same\n"),
        (
            WITH_0,
            "OPENQASM 2.0;\nqreg q[2];\n",
            1,
            "differs in lines 1 and 2\n",
        ),
    ];
    let alloc = rt.alloc();
    for (circuit, network, status, tells) in &CASES {
        let first = ("c.real", circuit.as_bytes());
        let second = ("n.qasm", network.as_bytes());
        let words = "check --by paths --constants c.real n.qasm";
        expect_over_two(&rt, alloc, words, first, second, told(*status, tells));
    }
    expect_by_paths(
        &rt,
        alloc,
        &[(WITH_0, one_qubit!("z q[0];"), 1, "differs, as at word 1\n")],
    );
}

// The first and the last of 64 lines.
#[test]
fn sixty_four_lines_are_checked_by_paths(rt: HostRuntime) {
    let alloc = rt.alloc();
    let circuit = circuit_on(&rt, alloc, 64, "t3 x0 x1 x63\nt2 x63 x0\n");
    let network = output_of(&rt, alloc, "map", circuit.as_bytes());
    let words = "check --by paths c.real n.qasm";
    let first = ("c.real", circuit.as_bytes());
    let second = ("n.qasm", network.bytes());
    expect_over_two(&rt, alloc, words, first, second, told(0, "same\n"));
    let wide = fails(5, "c.real: 64 lines are more than 10");
    expect_over_two(&rt, alloc, CHECK, first, second, wide);
}

// Checks each two networks: the status, and what is told.
fn expect_alike(rt: &impl Abort, alloc: Global, cases: &[(&str, &str, u8, &str)]) {
    for (one, other, status, tells) in cases {
        let first = ("m.qasm", one.as_bytes());
        let second = ("n.qasm", other.as_bytes());
        let words = "check --from qasm m.qasm n.qasm";
        expect_over_two(rt, alloc, words, first, second, told(*status, tells));
    }
}

// Roots of two are divided out, and a phase of the whole is not.
#[test]
fn two_networks_are_compared(rt: HostRuntime) {
    const CASES: [(&str, &str, u8, &str); 6] = [
        (one_qubit!("h q[0]; h q[0];"), one_qubit!(""), 0, "same\n"),
        (
            one_qubit!("h q[0]; t q[0];"),
            one_qubit!("h q[0]; s q[0]; tdg q[0];"),
            0,
            "same\n",
        ),
        (
            one_qubit!("t q[0];"),
            one_qubit!("tdg q[0];"),
            1,
            "differs, as at word 1\n",
        ),
        (
            one_qubit!("x q[0]; z q[0]; x q[0]; z q[0];"),
            one_qubit!(""),
            1,
            "differs, as at word 0\n",
        ),
        (
            FIFTEEN_OPERATIONS,
            network!(3, "ccx q[0],q[1],q[2];\n"),
            0,
            "same\n",
        ),
        (
            one_qubit!(""),
            "OPENQASM 2.0;\nqreg q[2];\n",
            1,
            "differs in lines 1 and 2\n",
        ),
    ];
    expect_alike(&rt, rt.alloc(), &CASES);
}
