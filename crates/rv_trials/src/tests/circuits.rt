// Circuits: their decompositions, networks, costs, and what they make of words.
use super::*;
use std::alloc::Global;
use std::process::Abort;

const THREE_CONTROLS: &str = typed!(4, "a b c d", "t4 a b c d\n");

#[test]
fn helpers_are_borrowed_unless_clean_ones_are_asked_for(rt: HostRuntime) {
    const BORROWED: &str = written!(
        5,
        "a b c d z0",
        "----0",
        "----1",
        "t3 c z0 d\nt3 a b z0\nt3 c z0 d\nt3 a b z0\n"
    );
    const CLEAN: &str = written!(
        5,
        "a b c d z0",
        "----0",
        "----1",
        "t3 a b z0\nt3 c z0 d\nt3 a b z0\n"
    );
    const CASES: [(&str, &str, u8, &str); 4] = [
        ("decompose", THREE_CONTROLS, 0, BORROWED),
        ("decompose --aux borrowed", THREE_CONTROLS, 0, BORROWED),
        ("decompose --aux clean", THREE_CONTROLS, 0, CLEAN),
        ("--aux=clean decompose -", THREE_CONTROLS, 0, CLEAN),
    ];
    expect_each(&rt, rt.alloc(), &CASES);
}

#[test]
fn a_helper_line_takes_a_name_that_is_free(rt: HostRuntime) {
    let circuit = typed!(4, "a b z0 c", "t4 a b z0 c\n").as_bytes();
    let want = written!(
        5,
        "a b z0 c z1",
        "----0",
        "----1",
        "t3 a b z1\nt3 z0 z1 c\nt3 a b z1\n"
    );
    let want = writes(want.as_bytes());
    expect_on(&rt, rt.alloc(), "decompose --aux clean", circuit, want);
}

// It has labels, a constant and garbage of its own, a control that wants 0, and a large swap.
const MARKED: &[u8] = b"\
    .numvars 4\n.variables a b c d\n.inputs p q r s\n.outputs t u v w\n.constants 1---\n\
    .garbage ---1\n.begin\nt4 -a b c d\nf4 a b c d\n.end\n";

const MARKED_OVER_A_CLEAN_LINE: &[u8] = b"\
    .version 2.0\n.numvars 5\n.variables a b c d z0\n.inputs p q r s z0\n\
    .outputs t u v w z0\n.constants 1---0\n.garbage ---11\n.begin\nt3 -a b z0\nt3 c z0 d\n\
    t3 -a b z0\nt2 d c\nt3 a b z0\nt3 c z0 d\nt3 a b z0\nt2 d c\n.end\n";

#[test]
fn labels_and_marks_are_kept_before_those_of_a_helper(rt: HostRuntime) {
    let want = writes(MARKED_OVER_A_CLEAN_LINE);
    expect_on(&rt, rt.alloc(), "decompose --aux clean", MARKED, want);
}

#[test]
fn free_lines_of_the_circuit_are_borrowed(rt: HostRuntime) {
    const CASES: [(&str, &str); 2] = [
        (
            typed!(6, "a b c d e f", "t5 a b c d e\n"),
            written!(
                6,
                "a b c d e f",
                "------",
                "------",
                "t3 a b f\nt3 a f e\nt3 c d a\nt3 a f e\nt3 c d a\n\
                 t3 a b f\nt3 a f e\nt3 c d a\nt3 a f e\nt3 c d a\n"
            ),
        ),
        (
            typed!(7, "a b c d e f g", "t5 a b c d e\n"),
            written!(
                7,
                "a b c d e f g",
                "-------",
                "-------",
                "t3 d g e\nt3 c f g\nt3 a b f\nt3 c f g\n\
                 t3 d g e\nt3 c f g\nt3 a b f\nt3 c f g\n"
            ),
        ),
    ];
    let words = "decompose --aux borrowed c.real";
    expect_texts(&rt, rt.alloc(), words, "c.real", &CASES);
}

#[test]
fn swaps_and_peres_gates_become_flips(rt: HostRuntime) {
    const CASES: [(&str, &str); 2] = [
        (
            typed!(3, "a b c", "f3 a b c\n"),
            written!(3, "a b c", "---", "---", "t2 c b\nt3 a b c\nt2 c b\n"),
        ),
        (FULL_ADDER, adder!("t3 a b d\nt2 a b\nt3 b c d\nt2 b c\n")),
    ];
    expect_texts(&rt, rt.alloc(), "decompose", "-", &CASES);
}

#[test]
fn a_circuit_is_refused_by_its_fault(rt: HostRuntime) {
    const CASES: [(&[u8], &str); 2] = [
        (b"t2 a b", "4: no .end"),
        (b"t2 a -b\n.end\n", "4: sign on a target"),
    ];
    let alloc = rt.alloc();
    let first = b".numvars 2\n.variables a b\n.begin\n";
    let words = "decompose --aux clean c.real";
    expect_faults(&rt, alloc, words, "c.real", first, &CASES);
    expect_faults(
        &rt,
        alloc,
        "map --aux clean c.real",
        "c.real",
        first,
        &CASES,
    );
}

#[test]
fn each_fault_of_a_circuit_stands_at_its_line(rt: HostRuntime) {
    const HEADERS: [(&[u8], &str); 15] = [
        (b"", "0: no .end"),
        (b".begin", "1: missing directive"),
        (b"\".numvars\" 2", "1: missing directive"),
        (b".numvars 0", "1: wrong number"),
        (b".numvars 65", "1: too many lines"),
        (b".version \"2.0", "1: unclosed quote"),
        (b".define x", "1: not supported"),
        (b"\n.inputsbus", "2: unknown directive"),
        (b".numvars 2\n.numvars 2", "2: directive out of place"),
        (b".numvars 2\n.constants -2", "2: wrong mark row"),
        (b".numvars 2\n.outputs a", "2: wrong label count"),
        (b".numvars 2\n.inputs a b\"c", "2: wrong name"),
        (b".numvars 2\n.variables a -b", "2: wrong name"),
        (b".numvars 2\n.variables a a", "2: repeated label"),
        (
            b".numvars 2\n.variables a b\n.begin\n.begin",
            "4: directive out of place",
        ),
    ];
    const GATES: [(&[u8], &str); 13] = [
        (b"t2 a c", "4: unknown label"),
        (b"t2 \"a\" b", "4: unknown label"),
        (b"t2 --a b", "4: unknown label"),
        (b"q2 a b", "4: unknown gate"),
        (b"\"t2\" a b", "4: unknown gate"),
        (b"t3 a b", "4: wrong operand count"),
        (b"t2 a a", "4: repeated operand"),
        (b"v a b", "4: not supported"),
        (b"v+ a b", "4: not supported"),
        (b"t2 a -b", "4: sign on a target"),
        (b"p a b -a", "4: sign on a target"),
        (b"t1 a\n\n", "5: no .end"),
        (b".end\n\nx", "6: text after .end"),
    ];
    expect_faults(&rt, rt.alloc(), "cost", "-", b"", &HEADERS);
    let first = b".numvars 2\n.variables a b\n.begin\n";
    expect_faults(&rt, rt.alloc(), "cost", "-", first, &GATES);
}

#[test]
fn a_toffoli_gate_is_fifteen_operations(rt: HostRuntime) {
    const CASES: [(&str, &str, u8, &str); 3] = [
        ("map", TWO_CONTROLS, 0, FIFTEEN_OPERATIONS),
        ("map -", TWO_CONTROLS, 0, FIFTEEN_OPERATIONS),
        ("--aux=clean map", TWO_CONTROLS, 0, FIFTEEN_OPERATIONS),
    ];
    expect_each(&rt, rt.alloc(), &CASES);
}

#[test]
fn a_full_adder_is_32_operations(rt: HostRuntime) {
    let circuit = ("-", FULL_ADDER.as_bytes());
    let header = network!(4, "h q[3];\n").as_bytes();
    let words = "map --aux borrowed";
    expect_lines(&rt, rt.alloc(), words, circuit, header, 3 + 32);
}

// Four flips with two controls, the first of d under c and the helper; or three, the first of the helper under a and b.
#[test]
fn a_helper_line_is_a_qubit_after_the_others(rt: HostRuntime) {
    let alloc = rt.alloc();
    let circuit = ("-", THREE_CONTROLS.as_bytes());
    let borrowed = network!(5, "h q[3];\ncx q[4],q[3];\n").as_bytes();
    expect_lines(&rt, alloc, "map --aux borrowed", circuit, borrowed, 3 + 60);
    let clean = network!(5, "h q[4];\ncx q[1],q[4];\n").as_bytes();
    expect_lines(&rt, alloc, "map --aux clean", circuit, clean, 3 + 45);
}

#[test]
fn a_circuit_without_gates_is_a_register(rt: HostRuntime) {
    let circuit = typed!(2, "a b", "").as_bytes();
    let want = writes(network!(2, "").as_bytes());
    expect_on(&rt, rt.alloc(), "map --aux clean", circuit, want);
}

#[test]
fn a_circuit_costs_its_gates_by_their_controls(rt: HostRuntime) {
    const CASES: [(&str, &str); 4] = [
        (typed!(1, "a", ""), circuit_report!(1, 0, 0, 0, 0)),
        (
            typed!(3, "a b c", "f3 a b c\n"),
            circuit_report!(3, 1, 1, 7, 1),
        ),
        (FULL_ADDER, circuit_report!(4, 2, 2, 8, 2)),
        // 1 + 1 + 1 + 5 + 13 + 3 + 15, the first two side by side.
        (
            typed!(
                4,
                "a b c d",
                "t1 a\nt1 d\nt2 a b\nt3 -a b c\nt4 a b c d\nf2 a b\nf4 a -b c d\n"
            ),
            circuit_report!(4, 7, 3, 39, 6),
        ),
    ];
    expect_texts(&rt, rt.alloc(), "cost", "-", &CASES);
    expect_texts(&rt, rt.alloc(), "cost --from real", "-", &CASES);
}

#[test]
fn costs_are_written_in_three_forms(rt: HostRuntime) {
    const CASES: [(&str, &str, u8, &str); 4] = [
        (
            "cost --as json",
            TWO_CONTROLS,
            0,
            "{\"lines\":3,\"gates\":1,\"controls\":2,\"quantum\":5,\"depth\":1}\n",
        ),
        (
            "cost --as csv",
            TWO_CONTROLS,
            0,
            "lines,gates,controls,quantum,depth\n3,1,2,5,1\n",
        ),
        (
            "cost --from qasm --as json",
            FIFTEEN_OPERATIONS,
            0,
            "{\"lines\":3,\"operations\":15,\"t\":7,\"h\":2,\"cnot\":6,\"depth\":11,\"t-depth\":4}\n",
        ),
        (
            "cost --from qasm --as csv",
            FIFTEEN_OPERATIONS,
            0,
            "lines,operations,t,h,cnot,depth,t-depth\n3,15,7,2,6,11,4\n",
        ),
    ];
    expect_each(&rt, rt.alloc(), &CASES);
}

#[test]
fn a_mapped_circuit_costs_its_operations(rt: HostRuntime) {
    let alloc = rt.alloc();
    let network = output_of(&rt, alloc, "map", FULL_ADDER.as_bytes());
    let want = writes(network_report!(4, 32, 14, 4, 14, 22, 8).as_bytes());
    expect_on(&rt, alloc, "cost --from qasm", network.bytes(), want);
}

#[test]
fn levels_are_counted_on_shared_lines(rt: HostRuntime) {
    // The levels of q[0] are 1, 2, 3, those of q[1] are 1 to 6, and those of q[2] are 1, 2, 4, 5.
    const ELEVEN_OPERATIONS: &str = "\
        OPENQASM 2.0;\nqreg q[3];\ncreg c[3];\nt q[0];\ntdg q[1];\ncx q[0],q[1];\nt q[1];\n\
        s q[2];\nt q[2];\nbarrier q;\nswap q[1],q[2];\nt q[1];\nid q;\nh q;\nmeasure q -> c;\n";
    const OTHER_OPERATIONS: &str = "OPENQASM 2.0;qreg q[3];\
        y q[0];z q[0];s q[0];sdg q[0];cz q[0],q[1];ccx q[0],q[1],q[2];cswap q[2],q[1],q[0];";
    const CASES: [(&str, &str); 3] = [
        (ELEVEN_OPERATIONS, network_report!(3, 11, 5, 3, 1, 6, 3)),
        (OTHER_OPERATIONS, network_report!(3, 7, 0, 0, 0, 7, 0)),
        (
            "OPENQASM 2.0;\nqreg q[64];\n",
            network_report!(64, 0, 0, 0, 0, 0, 0),
        ),
    ];
    expect_texts(&rt, rt.alloc(), "cost --from qasm", "-", &CASES);
}

#[test]
fn an_input_is_read_in_the_form_that_is_named(rt: HostRuntime) {
    const CASES: [(&str, &str, u8, &str); 3] = [
        ("cost", FIFTEEN_OPERATIONS, 3, "-:1: missing directive"),
        (
            "cost --from=qasm",
            TWO_CONTROLS,
            3,
            "-:1: unended statement",
        ),
        (
            "--from qasm cost",
            UNEQUAL_REGISTERS,
            3,
            "-:4: register sizes differ",
        ),
    ];
    expect_each(&rt, rt.alloc(), &CASES);
}

// Simulates words by a circuit, both by their names.
fn expect_simulation(rt: &impl Abort, alloc: Global, circuit: &[u8], words: &[u8], want: Want) {
    let mut files = files_of(rt, alloc, ("c.real", circuit), ("w.txt", words));
    expect_by(rt, alloc, "simulate c.real w.txt", &mut files, want);
}

// Each circuit makes these words of those.
fn expect_simulations(rt: &impl Abort, alloc: Global, cases: &[(&str, &str, &str)]) {
    for (circuit, words, out) in cases {
        let want = writes(out.as_bytes());
        expect_simulation(rt, alloc, circuit.as_bytes(), words.as_bytes(), want);
    }
}

#[test]
fn words_are_simulated_by_a_circuit(rt: HostRuntime) {
    const CASES: [(&str, &str, &str); 3] = [
        (PERES_AND_FREDKIN, "100\n", "101\n"),
        (PERES_AND_FREDKIN, " 1 0 0 # c\n\n110", "101\n110\n"),
        // Its only line is garbage.
        (
            ".numvars 1\n.variables a\n.garbage 1\n.begin\n.end",
            "1",
            "\n",
        ),
    ];
    expect_simulations(&rt, rt.alloc(), &CASES);
}

// Simulates words up to the first wrong one: what is typed, the circuit, the words, what is written, and the fault.
fn expect_words(rt: &impl Abort, alloc: Global, cases: &[(&str, &str, &str, &str, &str)]) {
    for (typed, circuit, words, out, line) in cases {
        let mut files = files_of(
            rt,
            alloc,
            ("c.real", circuit.as_bytes()),
            ("w.txt", words.as_bytes()),
        );
        let status = if line.is_empty() { 0 } else { 3 };
        let out = out.as_bytes();
        expect_by(rt, alloc, typed, &mut files, Want { status, out, line });
    }
}

#[test]
fn words_are_answered_up_to_the_first_wrong_one(rt: HostRuntime) {
    const ALL: &str = "simulate --all c.real w.txt";
    const PUT_IN: &str = "simulate c.real w.txt";
    const P: &str = PERES_AND_FREDKIN;
    const SECOND: &str = "w.txt:2: wrong word";
    const ONE: &str = ".numvars 1\n.variables a\n.constants 1\n.garbage 1\n.begin\n.end\n";
    const CASES: [(&str, &str, &str, &str, &str); 14] = [
        (PUT_IN, P, "100\n11\n110\n", "101\n", SECOND),
        (PUT_IN, P, "", "", ""),
        (PUT_IN, P, "# 100\r\n\t\n", "", ""),
        (PUT_IN, P, "1\t00 \n110#\n", "101\n110\n", ""),
        (PUT_IN, P, "110\n100\r\n", "110\n", SECOND),
        (PUT_IN, P, "# c\n\n1000", "", "w.txt:3: wrong word"),
        (PUT_IN, P, "100\n1\"0\"0\n", "101\n", SECOND),
        (PUT_IN, P, "1002\n", "", "w.txt:1: wrong word"),
        (PUT_IN, P, "100\nx", "101\n", SECOND),
        (
            PUT_IN,
            P,
            "110\n111111111111111111111111111",
            "110\n",
            SECOND,
        ),
        (PUT_IN, FULL_ADDER, "1110\n", "", "w.txt:1: wrong word"),
        (ALL, FULL_ADDER, "1110\n0111\n", "1011\n0100\n", ""),
        (ALL, FULL_ADDER, "111\n", "", "w.txt:1: wrong word"),
        // A line that is constant takes no bit.
        (PUT_IN, ONE, "\n1\n", "", SECOND),
    ];
    expect_words(&rt, rt.alloc(), &CASES);
}

// The circuit on 64 lines that flips the last by the first.
#[test]
fn words_of_64_bits_are_simulated(rt: HostRuntime) {
    let alloc = rt.alloc();
    let circuit = circuit_on(&rt, alloc, 64, "t2 x0 x63\n");
    let word = b"1000000000000000000000000000000000000000000000000000000000000000\n";
    let out = b"1000000000000000000000000000000000000000000000000000000000000001\n";
    expect_simulation(&rt, alloc, circuit.as_bytes(), word, writes(out));
}

#[test]
fn a_wrong_word_or_circuit_is_named_by_its_line(rt: HostRuntime) {
    let wrong_word = Want {
        status: 3,
        out: b"101\n",
        line: "w.txt:2: wrong word",
    };
    let circuit = PERES_AND_FREDKIN.as_bytes();
    expect_simulation(&rt, rt.alloc(), circuit, b"100\n11\n", wrong_word);
    let cut = FULL_ADDER.strip_suffix(".end\n").expect(&rt, "its end");
    let no_end = fails(3, "c.real:12: no .end");
    expect_simulation(&rt, rt.alloc(), cut.as_bytes(), b"111\n", no_end);
}

#[test]
fn words_on_all_lines_come_from_standard_input(rt: HostRuntime) {
    let circuit: &[u8] =
        b".numvars 3\n.variables x0 x1 y0\n.constants --0\n.garbage 11-\n.begin\nt3 x0 x1 y0\n.end\n";
    let (circuit, words) = (("c.real", circuit), ("-", b"111\n".as_slice()));
    let want = writes(b"110\n");
    expect_over_two(
        &rt,
        rt.alloc(),
        "simulate --all c.real",
        circuit,
        words,
        want,
    );
}
