// Permutations and their circuits of single-target gates.
use super::*;

#[test]
fn a_permutation_becomes_single_target_gates(rt: HostRuntime) {
    const CASES: [(&str, &str); 7] = [
        // A line of it has two walks.
        (
            "0 1 3 7 4 6 5 2",
            numbered!(3, "t3 x1 x2 x0\nt3 x0 x2 x1\nt2 x1 x2\nt3 x0 x2 x1\n"),
        ),
        ("0 2 1 3", numbered!(2, "t2 x1 x0\nt2 x0 x1\nt2 x1 x0\n")),
        ("0 1 3 2", numbered!(2, "t2 x0 x1\n")),
        ("1 0", numbered!(1, "t1 x0\n")),
        // The walks of the identity are many, and each begins with 0.
        ("0 1 2 3", numbered!(2, "")),
        ("0 1 2 3 4 5 6 7", numbered!(3, "")),
        (
            ".constants -0\n.garbage 1-\n{3, 2, 1, 0}\n",
            written!(2, "x0 x1", "-0", "1-", "t1 x1\nt1 x0\n"),
        ),
    ];
    expect_texts(&rt, rt.alloc(), "single p.txt", "p.txt", &CASES);
}

#[test]
fn no_permutation_is_refused_as_by_synth(rt: HostRuntime) {
    const CASES: [(&[u8], &str); 5] = [
        (b"0 1 1 2", " image repeated at places 1 and 2"),
        (b"0 4 1 2", " image out of range at place 1"),
        (b"0 1 2", " 3 numbers are no power of two from 2 to 65536"),
        (b"0 x 1", "1: not a number"),
        (b"0\n-0 1", "2: not a number"),
    ];
    expect_faults(&rt, rt.alloc(), "single p.txt", "p.txt", b"", &CASES);
    expect_faults(&rt, rt.alloc(), "synth p.txt", "p.txt", b"", &CASES);
}
