// Permutations and their circuits, and truth tables, their embeddings, cascades and lists of cubes.
use super::*;
use std::alloc::Global;
use std::process::Abort;

#[test]
fn a_permutation_becomes_a_circuit_text(rt: HostRuntime) {
    const CASES: [(&str, &str); 5] = [
        (
            "\r\n{01\t0,0003}\n# half\n2 5 [7] 4 00000000000000000006",
            CIRCUIT_OF_CYCLES,
        ),
        ("0 1 2 3", numbered!(2, "")),
        ("1 0", numbered!(1, "t1 x0\n")),
        ("3 2 1 0", numbered!(2, "t1 x1\nt1 x0\n")),
        (
            ".constants -0\n.garbage 1-\n{0, 1, 2, 3} # same\n",
            written!(2, "x0 x1", "-0", "1-", ""),
        ),
    ];
    expect_texts(&rt, rt.alloc(), "synth --method out", "-", &CASES);
}

#[test]
fn each_method_writes_its_circuit(rt: HostRuntime) {
    const PREVIOUS: &str = "7 0 1 2 3 4 5 6";
    const SIX: &str = numbered!(3, "t2 x1 x0\nt2 x2 x1\nt3 x1 x2 x0\nt1 x2\nt1 x1\nt1 x0\n");
    const THREE: &str = numbered!(3, "t1 x2\nt2 x2 x1\nt3 x1 x2 x0\n");
    const CASES: [(&str, &str, u8, &str); 5] = [
        ("synth --method out", PREVIOUS, 0, SIX),
        ("synth --method both", PREVIOUS, 0, THREE),
        ("synth --method best", PREVIOUS, 0, THREE),
        ("synth", PREVIOUS, 0, THREE),
        ("synth -", PREVIOUS, 0, THREE),
    ];
    expect_each(&rt, rt.alloc(), &CASES);
}

// The permutation of the words of 16 lines becomes a circuit of these gates by both methods.
fn expect_on_16_lines(rt: &impl Abort, alloc: Global, images: &str, gates: &str) {
    let names = names(rt, alloc, 16);
    let marks = "----------------";
    let head = format!(in alloc; ".version 2.0\n.numvars 16\n.variables {names}\n");
    let mut circuit = head.expect(rt, "memory");
    let labels = format!(in alloc; ".inputs {names}\n.outputs {names}\n.constants {marks}\n");
    push_text(rt, &mut circuit, &labels.expect(rt, "memory"));
    let gates = format!(in alloc; ".garbage {marks}\n.begin\n{gates}.end\n");
    push_text(rt, &mut circuit, &gates.expect(rt, "memory"));
    let want = writes(circuit.as_bytes());
    expect_on(rt, alloc, "synth --method both", images.as_bytes(), want);
}

// Each number but the last, which comes first.
fn all_by_one(rt: &impl Abort, alloc: Global) -> String {
    let mut images = String::new(alloc);
    push_text(rt, &mut images, "65535");
    for number in 0..65535u32 {
        push_number(rt, alloc, &mut images, " ", number);
    }
    images
}

// A flip of each line under all lines after it, the last line first.
fn flips_under_later_lines(rt: &impl Abort, alloc: Global) -> String {
    let mut gates = String::new(alloc);
    for count in 1..17u32 {
        push_number(rt, alloc, &mut gates, "t", count);
        for line in 17 - count..16 {
            push_number(rt, alloc, &mut gates, " x", line);
        }
        push_number(rt, alloc, &mut gates, " x", 16 - count);
        push_text(rt, &mut gates, "\n");
    }
    gates
}

#[test]
fn the_cycle_of_all_words_takes_one_gate_a_line(rt: HostRuntime) {
    let images = all_by_one(&rt, rt.alloc());
    let gates = flips_under_later_lines(&rt, rt.alloc());
    expect_on_16_lines(&rt, rt.alloc(), &images, &gates);
}

fn backwards(rt: &impl Abort, alloc: Global) -> String {
    let mut images = String::new(alloc);
    for number in 0..65536u32 {
        push_number(rt, alloc, &mut images, " ", 65535 - number);
    }
    images
}

#[test]
fn the_words_backwards_take_one_flip_a_line(rt: HostRuntime) {
    let images = backwards(&rt, rt.alloc());
    let gates = "t1 x15\nt1 x14\nt1 x13\nt1 x12\nt1 x11\nt1 x10\nt1 x9\nt1 x8\n\
        t1 x7\nt1 x6\nt1 x5\nt1 x4\nt1 x3\nt1 x2\nt1 x1\nt1 x0\n";
    expect_on_16_lines(&rt, rt.alloc(), &images, gates);
}

#[test]
fn a_text_that_is_no_permutation_is_refused_by_its_first_fault(rt: HostRuntime) {
    const CASES: [(&[u8], &str); 23] = [
        (b".constants, -", "1: unknown directive"),
        (b"99999999999\n.garbage -", "2: directive out of place"),
        (b".constants 0,1", "1: wrong mark row"),
        (
            b"\n.garbage -\n.constants 010\n0 9 9 9",
            "3: wrong mark row",
        ),
        (b".constants\n0 1", "1: wrong mark row"),
        (
            b".constants -0\n{} , []",
            " 0 numbers are no power of two from 2 to 65536",
        ),
        (
            b".garbage 1\n0 1 2",
            " 3 numbers are no power of two from 2 to 65536",
        ),
        (b"0 4294967296", " image out of range at place 1"),
        (b"0 0 2 2", " image repeated at places 0 and 1"),
        (b"", " 0 numbers are no power of two from 2 to 65536"),
        (b"0 1 2", " 3 numbers are no power of two from 2 to 65536"),
        (b"0", " 1 numbers are no power of two from 2 to 65536"),
        (b"0 1 1 2", " image repeated at places 1 and 2"),
        (b"0 4 1 2", " image out of range at place 1"),
        (b"0 18446744073709551617", " image out of range at place 1"),
        (b"0 x 1", "1: not a number"),
        (b"0\n-0 1", "2: not a number"),
        (b"{.constants -}\n0 1", "1: not a number"),
        (b"\n.constant -\n0 1", "2: unknown directive"),
        (b"0 1\n.constants -", "2: directive out of place"),
        (b".garbage -\n.garbage -\n0 1", "2: directive out of place"),
        (b".garbage 1\n0 1 2 3", "1: wrong mark row"),
        (b"\n.garbage 0\n0 1", "2: wrong mark row"),
    ];
    expect_faults(&rt, rt.alloc(), "synth --method out", "-", b"", &CASES);
}

#[test]
fn a_truth_table_becomes_a_permutation(rt: HostRuntime) {
    const CASES: [(&str, &str); 2] = [
        (
            ".i 2\n.o 1\n1 1 1\n.e",
            ".constants --0\n.garbage -11\n0 3 1 5 2 6 4 7\n",
        ),
        (".i 1\n.o 1\n.e", ".constants -0\n.garbage -1\n0 2 1 3\n"),
    ];
    expect_texts(&rt, rt.alloc(), "embed f.pla", "f.pla", &CASES);
}

// The two words whose entries are free take one output word each, so no output word is shared by three.
#[test]
fn free_entries_save_a_line(rt: HostRuntime) {
    let table = b".i 2\n.o 1\n.type fr\n11 1\n00 0\n.e\n";
    let permutation = writes(b".constants --\n.garbage -1\n0 1 2 3\n");
    expect_on(&rt, rt.alloc(), "embed", table, permutation);
}

#[test]
fn a_truth_table_is_refused_by_its_fault(rt: HostRuntime) {
    const CASES: [(&[u8], &str); 14] = [
        (b".i 1\n\n.e\n", "3: missing directive"),
        (b"11 1", "1: missing directive"),
        (b".i 0", "1: wrong number"),
        (b".i 1\n.o 1234567890", "2: wrong number"),
        (b".i 1\n.o 1\n1 1\n.type f", "4: directive out of place"),
        (b".i 1 # in\n.i 1", "2: directive out of place"),
        (b".x", "1: unknown directive"),
        (b".type dr", "1: not supported"),
        (b"\t.phase 01", "1: not supported"),
        (b".i 2\n.o 1\n1 1", "3: wrong term length"),
        (b".i 1\n.o 1\n~ 1", "3: wrong character"),
        (
            b".i 1\n.o 1\n.type fr\n1 1\n- 0",
            " lines 4 and 5 conflict at word 1",
        ),
        (b".i 1\n1 1", "2: missing directive"),
        (b".i 17\n", "1: too many inputs or outputs"),
    ];
    expect_faults(&rt, rt.alloc(), "embed f.pla", "f.pla", b"", &CASES);
}

#[test]
fn a_truth_table_becomes_a_cascade_or_a_list(rt: HostRuntime) {
    const TWICE: &str = ".i 1\n.o 1\n.type esop\n1 1\n1 1\n.e\n";
    // The first two terms become one by an exorlink with the third.
    const THIRD: &str = ".i 3\n.o 1\n.type esop\n110 1\n000 1\n-11 1\n.e\n";
    const CASES: [(&str, &str, u8, &str); 4] = [
        (
            "esop --to pla",
            THIRD,
            0,
            ".i 3\n.o 1\n.type esop\n.p 2\n-1- 1\n0-0 1\n.e\n",
        ),
        (
            "esop --to real -",
            ".i 2\n.o 1\n11 1",
            0,
            written!(3, "x0 x1 y0", "--0", "11-", "t3 x0 x1 y0\n"),
        ),
        ("esop", TWICE, 0, written!(2, "x0 y0", "-0", "1-", "")),
        (
            "esop --to pla",
            TWICE,
            0,
            ".i 1\n.o 1\n.type esop\n.p 0\n.e\n",
        ),
    ];
    expect_each(&rt, rt.alloc(), &CASES);
}

#[test]
fn a_cube_that_only_concerns_free_entries_is_dropped(rt: HostRuntime) {
    let table = b".i 3\n.o 1\n10- 1\n110 1\n111 -\n.e\n";
    let cascade = written!(4, "x0 x1 x2 y0", "---0", "111-", "t2 x0 y0\n");
    expect_on(&rt, rt.alloc(), "esop", table, writes(cascade.as_bytes()));
}
