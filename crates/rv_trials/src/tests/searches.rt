// Lists of cubes and circuits that a search finds.
use super::*;
use std::alloc::Global;
use std::process::Abort;

// How many of five bits are 1.
const ONES: &str = ".i 5\n.o 3\n00001 001\n00010 001\n00011 010\n00100 001\n00101 010\n00110 010\n\
                    00111 011\n01000 001\n01001 010\n01010 010\n01011 011\n01100 010\n01101 011\n\
                    01110 011\n01111 100\n10000 001\n10001 010\n10010 010\n10011 011\n10100 010\n\
                    10101 011\n10110 011\n10111 100\n11000 010\n11001 011\n11010 011\n11011 100\n\
                    11100 011\n11101 100\n11110 100\n11111 101\n.e\n";

// The published number of products is 15; the reduced list has 20.
#[test]
fn a_search_finds_a_published_number_of_products(rt: HostRuntime) {
    let input = ("f.pla", ONES.as_bytes());
    let found = b".i 5\n.o 3\n.type esop\n.p 15\n";
    expect_lines(
        &rt,
        rt.alloc(),
        "esop --goal cubes --to pla f.pla",
        input,
        found,
        20,
    );
    let reduced = b".i 5\n.o 3\n.type esop\n.p 20\n";
    expect_lines(&rt, rt.alloc(), "esop --to pla f.pla", input, reduced, 25);
}

// Of each circuit there is one of the least cost with these gates.
#[test]
fn a_search_finds_the_least_circuit(rt: HostRuntime) {
    const CASES: [(&str, &str, u8, &str); 4] = [
        (
            "resynth",
            typed!(3, "a b c", "t2 a b\nt2 b c\nt2 a b\nt2 b c\n"),
            0,
            written!(3, "a b c", "---", "---", "t2 a c\n"),
        ),
        // An effort of 0 is no search.
        (
            "resynth --effort 0",
            typed!(3, "a b c", "t2 a b\nt2 b c\nt2 a b\nt2 b c\n"),
            0,
            written!(3, "a b c", "---", "---", "t2 a b\nt2 b c\nt2 a b\nt2 b c\n"),
        ),
        // The first line holds 0 and is garbage.
        (
            "resynth --marks",
            concat!(
                ".numvars 3\n.variables a b c\n.constants 0--\n.garbage 1--\n.begin\n",
                "t3 a b c\nt2 b a\nt2 c b\n.end\n"
            ),
            0,
            written!(3, "a b c", "0--", "1--", "t2 c b\n"),
        ),
        (
            "resynth --marks",
            typed!(
                25,
                "a b c d e f g h i j k l m n o p q r s t u v w x y",
                "t3 a b c\nt3 a b c\n"
            ),
            0,
            written!(
                25,
                "a b c d e f g h i j k l m n o p q r s t u v w x y",
                "-------------------------",
                "-------------------------",
                ""
            ),
        ),
    ];
    expect_each(&rt, rt.alloc(), &CASES);
}

// By each goal a search finds the one CNOT that four gates come to.
#[test]
fn each_goal_is_searched_for(rt: HostRuntime) {
    const TWICE: &str = typed!(3, "a b c", "t3 a b c\nt2 a b\nt3 a b c\nt2 a b\n");
    const ONCE: &str = written!(3, "a b c", "---", "---", "t2 a c\n");
    const CASES: [(&str, &str, u8, &str); 3] = [
        ("resynth --goal t", TWICE, 0, ONCE),
        ("resynth --goal gates", TWICE, 0, ONCE),
        ("resynth --goal quantum", TWICE, 0, ONCE),
    ];
    expect_each(&rt, rt.alloc(), &CASES);
}

// By quantum cost a search finds a circuit whose report begins so.
fn expect_costs(rt: &impl Abort, alloc: Global, table: &str, head: &str) {
    let circuit = output_of(rt, alloc, "esop --goal quantum", table.as_bytes());
    expect_begin(rt, alloc, "cost", circuit.bytes(), head);
}

// By a CNOT between inputs, and by a flip of six controls in parts over the four inputs that are free.
#[test]
fn a_cascade_gives_inputs_back(rt: HostRuntime) {
    const CASES: [(&str, &str); 2] = [
        (
            ".i 3\n.o 1\n101 1\n011 1\n.e\n",
            "lines 4\ngates 3\ncontrols 2\nquantum 7\n",
        ),
        (
            ".i 10\n.o 1\n111111---- 1\n.e\n",
            "lines 11\ngates 16\ncontrols 2\nquantum 80\n",
        ),
    ];
    for (table, head) in CASES {
        expect_costs(&rt, rt.alloc(), table, head);
    }
}

// What a search takes has to be asked for.
#[test]
fn what_no_search_takes_is_refused(rt: HostRuntime) {
    const CASES: [(&str, &str, u8, &str); 5] = [
        (
            "esop --effort 3",
            ONES,
            2,
            "option --effort not used by esop",
        ),
        ("esop --seed 3", ONES, 2, "option --seed not used by esop"),
        ("esop --goal lines", ONES, 2, "bad value for --goal"),
        ("resynth --goal cubes", "", 2, "bad value for --goal"),
        ("resynth --effort 1001", "", 2, "bad value for --effort"),
    ];
    expect_each(&rt, rt.alloc(), &CASES);
}
