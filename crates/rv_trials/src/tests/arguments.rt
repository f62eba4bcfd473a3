// What is typed, and what is refused of it.
use super::*;
use std::alloc::Global;
use std::process::Abort;

#[test]
fn options_stand_anywhere(rt: HostRuntime) {
    const CASES: [(&str, &str, u8, &str); 4] = [
        ("synth --method=out", CYCLES, 0, CIRCUIT_OF_CYCLES),
        ("--method out synth", CYCLES, 0, CIRCUIT_OF_CYCLES),
        ("synth - --method out", CYCLES, 0, CIRCUIT_OF_CYCLES),
        ("synth --method out -- -", CYCLES, 0, CIRCUIT_OF_CYCLES),
    ];
    expect_each(&rt, rt.alloc(), &CASES);
}

// Runs what is typed over two permutations, of which one has a fault.
fn expect_by_name(rt: &impl Abort, alloc: Global, cases: &[(&str, u8, &str)]) {
    for (words, status, tells) in cases {
        let (p, r) = (
            ("p.txt", CYCLES.as_bytes()),
            ("r.txt", b"0 1 1 2".as_slice()),
        );
        expect_over_two(rt, alloc, words, p, r, told(*status, tells));
    }
}

#[test]
fn an_input_goes_by_its_name(rt: HostRuntime) {
    const CASES: [(&str, u8, &str); 3] = [
        ("synth p.txt --method out", 0, CIRCUIT_OF_CYCLES),
        ("synth q.txt", 4, "cannot read q.txt"),
        ("synth r.txt", 3, "r.txt: image repeated at places 1 and 2"),
    ];
    expect_by_name(&rt, rt.alloc(), &CASES);
}

// Each line is refused over a standard input that would serve.
fn expect_not_taken(rt: &impl Abort, alloc: Global, cases: &[(&str, &str)]) {
    for (words, line) in cases {
        expect_on(rt, alloc, words, CYCLES.as_bytes(), fails(2, line));
    }
}

fn expect_not_understood(rt: &impl Abort, alloc: Global, typed: &[&str]) {
    for words in typed {
        let want = fails(2, "words not understood");
        expect_on(rt, alloc, words, CYCLES.as_bytes(), want);
    }
}

#[test]
fn arguments_of_another_form_are_not_understood(rt: HostRuntime) {
    const TYPED: [&str; 11] = [
        "",
        "--help",
        "synth --nope",
        "synth --method",
        "synth --method out --method out",
        "synth a b c",
        "synth --method out -p",
        "esop --to",
        "decompose --aux",
        "map c.real d.real e.real",
        "simulate c.real w.txt v.txt",
    ];
    expect_not_understood(&rt, rt.alloc(), &TYPED);
}

#[test]
fn commands_options_and_values_are_those_of_the_table(rt: HostRuntime) {
    const CASES: [(&str, &str); 20] = [
        ("sort", "unknown command sort"),
        ("synth --aux clean", "option --aux not used by synth"),
        ("synth --simplify", "option --simplify not used by synth"),
        ("embed --all", "option --all not used by embed"),
        (
            "decompose --method out",
            "option --method not used by decompose",
        ),
        ("map --to qasm", "option --to not used by map"),
        ("cost --aux clean", "option --aux not used by cost"),
        ("toreal --from qasm", "option --from not used by toreal"),
        ("synth --method fast", "bad value for --method"),
        ("esop --to qasm", "bad value for --to"),
        ("decompose --aux dirty", "bad value for --aux"),
        ("map --aux ''", "bad value for --aux"),
        ("flow --from real", "bad value for --from"),
        ("cost --from perm", "bad value for --from"),
        ("demo --lines 0", "bad value for --lines"),
        ("cost --as svg", "bad value for --as"),
        ("draw --as json", "bad value for --as"),
        ("check c.real --from pla", "bad value for --from"),
        ("compare c.real --nodes 0", "bad value for --nodes"),
        ("compare c.real --nodes 4194305", "bad value for --nodes"),
    ];
    expect_not_taken(&rt, rt.alloc(), &CASES);
}

#[test]
fn each_command_has_its_number_of_inputs(rt: HostRuntime) {
    const CASES: [(&str, &str); 14] = [
        ("demo f", "wrong number of inputs for demo"),
        ("flow f g", "wrong number of inputs for flow"),
        ("synth p.txt q.txt", "wrong number of inputs for synth"),
        (
            "synth --method out p.txt -",
            "wrong number of inputs for synth",
        ),
        ("embed f.pla g.pla", "wrong number of inputs for embed"),
        ("esop f.pla g.pla", "wrong number of inputs for esop"),
        (
            "decompose c.real d.real",
            "wrong number of inputs for decompose",
        ),
        ("map c.real d.real", "wrong number of inputs for map"),
        ("toreal a b", "wrong number of inputs for toreal"),
        ("simulate", "wrong number of inputs for simulate"),
        ("simulate --all", "wrong number of inputs for simulate"),
        ("simulate -", "standard input named twice"),
        ("simulate - -", "standard input named twice"),
        ("templates --library -", "standard input named twice"),
    ];
    expect_not_taken(&rt, rt.alloc(), &CASES);
}
