// Circuits that are found for tables and for permutations.
use super::*;
use std::alloc::Global;
use std::process::Abort;

// The circuit that is found on at most as many lines as its function needs gives what is asked.
fn expect_realized(rt: &impl Abort, alloc: Global, cases: &[(&str, &str, &str)]) {
    for (words, form, text) in cases {
        let circuit = output_of(rt, alloc, words, text.as_bytes());
        let (first, second) = (("c.real", circuit.bytes()), ("f", text.as_bytes()));
        let words = format!(in alloc; "compare --from {form} c.real f").expect(rt, "memory");
        expect_over_two(rt, alloc, &words, first, second, told(0, "same\n"));
    }
}

// Three of four words of a conjunction share an output word, so it needs three lines.
#[test]
fn what_is_found_gives_what_is_asked(rt: HostRuntime) {
    const CASES: [(&str, &str, &str); 4] = [
        ("realize --effort 1 --lines 3", "pla", CONJUNCTION),
        (
            "realize --effort 1 --goal lines --seed 5",
            "pla",
            CONJUNCTION,
        ),
        ("realize --effort 1 --from perm --lines 3", "perm", CYCLES),
        (
            "realize --effort 0 --from perm --goal cx",
            "perm",
            "0 2 1 3",
        ),
    ];
    expect_realized(&rt, rt.alloc(), &CASES);
}

// Of each there is one circuit with the fewest gates.
#[test]
fn a_permutation_keeps_its_lines_and_marks(rt: HostRuntime) {
    const CASES: [(&str, &str); 3] = [
        ("0 1 2 3", numbered!(2, "")),
        ("0 1 3 2", numbered!(2, "t2 x0 x1\n")),
        (
            ".constants 0\n.garbage 1\n1 0\n",
            written!(1, "x0", "0", "1", "t1 x0\n"),
        ),
    ];
    let words = "realize --effort 1 --from perm --goal gates p.txt";
    expect_texts(&rt, rt.alloc(), words, "p.txt", &CASES);
}

// One Toffoli gate is a conjunction, and none a line that stays; of each there is no cheaper circuit on more lines.
#[test]
fn a_curve_tells_costs_and_calls(rt: HostRuntime) {
    const CASES: [(&str, &str, u8, &str); 3] = [
        (
            "realize --curve --effort 1",
            CONJUNCTION,
            0,
            curve!("3 7 6 5 1 rev realize --lines 64 --goal t --effort 1 --seed 0\n"),
        ),
        (
            "realize --lines 3 --goal cx --effort 1 --seed 9 --curve",
            CONJUNCTION,
            0,
            curve!("3 7 6 5 1 rev realize --lines 3 --goal cx --effort 1 --seed 9\n"),
        ),
        (
            "realize --curve --effort 9",
            ".i 1\n.o 1\n1 1\n.e\n",
            0,
            curve!("1 0 0 0 0 rev realize --lines 1 --goal t --effort 2 --seed 0\n"),
        ),
    ];
    expect_each(&rt, rt.alloc(), &CASES);
}

// Two lines are exchanged by one gate, which is three CNOTs in a network; no circuit has fewer, so there is one row.
const EXCHANGE: &str = ".i 2\n.o 2\n01 10\n10 01\n11 11\n.e\n";

#[test]
fn a_call_of_a_curve_writes_the_circuit(rt: HostRuntime) {
    let alloc = rt.alloc();
    let words = "realize --curve --goal gates --effort 4";
    let head = curve!("2 0 3 3 1 rev realize --lines 2 --goal gates --effort 1 --seed 0\n");
    expect_lines(
        &rt,
        alloc,
        words,
        ("-", EXCHANGE.as_bytes()),
        head.as_bytes(),
        2,
    );
    let call = "realize --lines 2 --goal gates --effort 1 --seed 0";
    let circuit = output_of(&rt, alloc, call, EXCHANGE.as_bytes());
    let report = circuit_report!(2, 1, 0, 3, 1);
    expect_on(&rt, alloc, "cost", circuit.bytes(), told(0, report));
}

// Nine inputs, and sixteen outputs that are 0: all words share one.
#[test]
fn what_is_not_realized_is_refused(rt: HostRuntime) {
    const CASES: [(&str, &str, u8, &str); 13] = [
        (
            "realize --effort 1 --lines 2",
            CONJUNCTION,
            5,
            "-: 3 lines are more than 2",
        ),
        (
            "realize --effort 1 --lines 24",
            ".i 9\n.o 16\n.e\n",
            5,
            "-: 25 lines are more than 24",
        ),
        (
            "realize --from perm --lines 2",
            CYCLES,
            5,
            "-: 3 lines are more than 2",
        ),
        (
            "realize --from perm",
            "0 1 1 2",
            3,
            "-: image repeated at places 1 and 2",
        ),
        ("realize --lines 0", CONJUNCTION, 2, "bad value for --lines"),
        (
            "realize --lines 65",
            CONJUNCTION,
            2,
            "bad value for --lines",
        ),
        (
            "realize --from blif",
            CONJUNCTION,
            2,
            "bad value for --from",
        ),
        (
            "realize --goal cubes",
            CONJUNCTION,
            2,
            "bad value for --goal",
        ),
        (
            "realize --to pla",
            CONJUNCTION,
            2,
            "option --to not used by realize",
        ),
        (
            "realize --curve --effort 1 --lines 2",
            CONJUNCTION,
            5,
            "-: 3 lines are more than 2",
        ),
        (
            "realize --from perm --curve",
            CYCLES,
            2,
            "option --curve not used by realize",
        ),
        (
            "synth --curve",
            CYCLES,
            2,
            "option --curve not used by synth",
        ),
        (
            "realize f g",
            CONJUNCTION,
            2,
            "wrong number of inputs for realize",
        ),
    ];
    expect_each(&rt, rt.alloc(), &CASES);
}
