// Permutations and circuits than which none has fewer gates.
use super::*;

// The one of RevLib's that is named 4_49.
const LONG: &str = "15 1 12 3 5 6 8 7 0 10 13 9 2 4 14 11";

// 6 and 4 gates are the least for 3_17, as is published.
#[test]
fn a_permutation_of_few_lines_has_a_shortest_circuit(rt: HostRuntime) {
    const CASES: [(&str, &str); 7] = [
        (
            "7 1 4 3 0 2 6 5",
            numbered!(
                3,
                "t2 x2 x1\nt3 x0 x1 x2\nt1 x0\nt2 x0 x1\nt2 x2 x0\nt3 x0 x1 x2\n"
            ),
        ),
        ("0 2 1 3", numbered!(2, "t2 x1 x0\nt2 x0 x1\nt2 x1 x0\n")),
        ("1 0", numbered!(1, "t1 x0\n")),
        ("0 1 2 3", numbered!(2, "")),
        (
            "1 2 3 4 5 6 7 8 9 10 11 12 13 14 15 0",
            numbered!(4, "t4 x1 x2 x3 x0\nt3 x2 x3 x1\nt2 x3 x2\nt1 x3\n"),
        ),
        (
            "0 1 2 3 4 5 6 8 7 9 10 11 12 13 14 15",
            numbered!(
                4,
                "t2 x0 x2\nt2 x0 x1\nt2 x3 x0\nt4 x0 x1 x2 x3\nt2 x3 x0\nt2 x0 x1\nt2 x0 x2\n"
            ),
        ),
        // Marks are handed on and not used.
        (
            ".constants -0\n.garbage 1-\n{3, 2, 1, 0}\n",
            written!(2, "x0 x1", "-0", "1-", "t1 x0\nt1 x1\n"),
        ),
    ];
    expect_texts(&rt, rt.alloc(), "optimal p.txt", "p.txt", &CASES);
    expect_texts(
        &rt,
        rt.alloc(),
        "optimal --gates mct p.txt",
        "p.txt",
        &CASES,
    );
}

#[test]
fn controls_of_both_kinds_take_fewer_gates(rt: HostRuntime) {
    const CASES: [(&str, &str); 2] = [
        (
            "7 1 4 3 0 2 6 5",
            numbered!(3, "t2 -x2 x0\nt2 x0 x1\nt3 x0 x1 x2\nt3 x1 -x2 x0\n"),
        ),
        ("0 2 1 3", numbered!(2, "t2 x1 x0\nt2 x0 x1\nt2 x1 x0\n")),
    ];
    expect_texts(
        &rt,
        rt.alloc(),
        "optimal --gates mpmct p.txt",
        "p.txt",
        &CASES,
    );
}

#[test]
fn more_gates_than_are_looked_for_are_told(rt: HostRuntime) {
    const CASES: [(&str, &str, u8, &str); 2] = [
        ("optimal", LONG, 5, "-: more than 11 gates"),
        (
            "optimal --gates mct",
            "0 1 2 3 4 5 6 7 8 9 10 11 12 13 14 15 16 17 18 19 20 21 22 23 24 25 26 27 28 29 30 31",
            5,
            "-: 5 lines are more than 4",
        ),
    ];
    expect_each(&rt, rt.alloc(), &CASES);
}

#[test]
fn no_permutation_is_refused_as_by_synth(rt: HostRuntime) {
    const CASES: [(&[u8], &str); 4] = [
        (b"0 1 1 2", " image repeated at places 1 and 2"),
        (b"0 4 1 2", " image out of range at place 1"),
        (b"0 1 2", " 3 numbers are no power of two from 2 to 65536"),
        (b"0 x 1", "1: not a number"),
    ];
    expect_faults(&rt, rt.alloc(), "optimal p.txt", "p.txt", b"", &CASES);
}
