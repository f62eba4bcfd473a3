// Circuits simplified by pairs and templates.
use super::*;
use std::alloc::Global;
use std::process::Abort;

const ONE_FLIP: &str = typed!(3, "a b c", "t1 c\n");

const SEVEN_FLIPS: &str = typed!(
    3,
    "a b c",
    "t2 a b\nt3 b c a\nt2 a b\nt3 b c a\nt2 a b\nt3 b c a\nt2 a b\n"
);

// A written circuit on the lines a, b and c, with these gates.
macro_rules! on_three_lines {
    ($gates:literal) => {
        written!(3, "a b c", "---", "---", $gates)
    };
}

// Simplifies a circuit by the templates of a library, both by their names.
fn expect_by_library(rt: &impl Abort, alloc: Global, circuit: &str, library: &[u8], want: Want) {
    let words = "templates --library l.real c.real";
    let circuit = ("c.real", circuit.as_bytes());
    let mut files = files_of(rt, alloc, circuit, ("l.real", library));
    expect_by(rt, alloc, words, &mut files, want);
}

#[test]
fn pairs_and_windows_are_replaced(rt: HostRuntime) {
    const CASES: [(&str, &str); 10] = [
        (
            typed!(2, "a b", "f2 a b\nf2 b a\n"),
            written!(2, "a b", "--", "--", ""),
        ),
        // A merged flip stands at the second place.
        (
            typed!(4, "a b c d", "t2 a c\nt2 b d\nt2 -a c\n"),
            written!(4, "a b c d", "----", "----", "t2 b d\nt1 c\n"),
        ),
        (
            typed!(4, "a b c d", "t2 a c\nt2 b d\nt1 c\n"),
            written!(4, "a b c d", "----", "----", "t2 b d\nt2 -a c\n"),
        ),
        // Four flips that cross, with a control more, and a window whose flips are a pair.
        (
            typed!(4, "a b c d", "t3 a d b\nt3 b d c\nt3 a d b\nt3 b d c\n"),
            written!(4, "a b c d", "----", "----", "t3 a d c\n"),
        ),
        (
            typed!(3, "a b c", "t1 a\nt2 a b\nt1 a\n"),
            on_three_lines!("t2 -a b\n"),
        ),
        (
            SEVEN_FLIPS,
            on_three_lines!("t2 a b\nt3 b c a\nt2 a b\nt3 b c a\nt2 a b\nt3 b c a\nt2 a b\n"),
        ),
        (
            typed!(3, "a b c", "t2 a b\nt1 c\nt2 a b\n"),
            on_three_lines!("t1 c\n"),
        ),
        (
            typed!(3, "a b c", "t2 a b\nt2 -a b\n"),
            on_three_lines!("t1 b\n"),
        ),
        (
            typed!(3, "a b c", "t2 a b\nt2 b c\nt2 a b\nt2 b c\n"),
            on_three_lines!("t2 a c\n"),
        ),
        (
            typed!(3, "a b c", "t2 a b\nt2 -b c\nt2 a b\nt2 -b c\n"),
            on_three_lines!("t2 a b\nt2 -b c\nt2 a b\nt2 -b c\n"),
        ),
    ];
    expect_texts(&rt, rt.alloc(), "templates", "-", &CASES);
}

#[test]
fn a_full_adder_stays_as_it_is(rt: HostRuntime) {
    let want = writes(adder!("p3 a b d\np3 b c d\n").as_bytes());
    expect_on(&rt, rt.alloc(), "templates -", FULL_ADDER.as_bytes(), want);
}

#[test]
fn a_given_template_is_used(rt: HostRuntime) {
    let circuit = typed!(3, "a b c", "t2 a b\nt2 -b c\nt2 a b\nt2 -b c\n");
    let library = typed!(3, "a b c", "t2 a b\nt2 -b c\nt2 a b\nt2 -b c\nt2 a c\n");
    let want = writes(on_three_lines!("t2 a c\n").as_bytes());
    expect_by_library(&rt, rt.alloc(), circuit, library.as_bytes(), want);
    let first = b".numvars 3\n.variables a b c\n.begin\n";
    let library = repeated(&rt, rt.alloc(), first, b"t2 a b\nt3 b c a\n", 6, b".end\n");
    let five = on_three_lines!("t3 b c a\nt2 a b\nt3 b c a\nt2 a b\nt3 b c a\n");
    let want = writes(five.as_bytes());
    expect_by_library(&rt, rt.alloc(), SEVEN_FLIPS, &library, want);
}

#[test]
fn a_library_that_is_no_template_is_refused(rt: HostRuntime) {
    let circuit = typed!(2, "a b", "t2 a b\n");
    let no_identity = fails(3, "l.real: no identity: word 10 gives 11");
    expect_by_library(&rt, rt.alloc(), circuit, circuit.as_bytes(), no_identity);
    let peres = typed!(3, "a b c", "p3 a b c\n");
    let no_flips = fails(3, "l.real: gate 1 is no Toffoli gate");
    expect_by_library(&rt, rt.alloc(), circuit, peres.as_bytes(), no_flips);
}

// A library with one template of so many flips on six lines.
fn expect_by_flips(rt: &impl Abort, alloc: Global, count: usize, status: u8, tells: &str) {
    let flip = b"t6 x0 x1 x2 x3 x4 x5\n";
    let first = b".numvars 6\n.variables x0 x1 x2 x3 x4 x5\n.begin\n";
    let library = repeated(rt, alloc, first, flip, count, b".end\n");
    expect_by_library(rt, alloc, ONE_FLIP, &library, told(status, tells));
}

#[test]
fn a_template_has_as_many_as_6_lines_and_32_gates(rt: HostRuntime) {
    let alloc = rt.alloc();
    let same = on_three_lines!("t1 c\n");
    let long = "l.real: template of 33 gates is longer than 32";
    expect_by_flips(&rt, alloc, 2, 0, same);
    expect_by_flips(&rt, alloc, 32, 0, same);
    expect_by_flips(&rt, alloc, 33, 5, long);
    let wide = typed!(
        7,
        "x0 x1 x2 x3 x4 x5 x6",
        "t7 x0 x1 x2 x3 x4 x5 x6\nt7 x0 x1 x2 x3 x4 x5 x6\n"
    );
    let wider = fails(5, "l.real: template of 7 lines is wider than 6");
    expect_by_library(&rt, alloc, ONE_FLIP, wide.as_bytes(), wider);
}

// Each circuit is refused, or its library.
fn expect_refused(rt: &impl Abort, alloc: Global, cases: &[(&str, &str, &str)]) {
    for (circuit, library, line) in cases {
        expect_by_library(rt, alloc, circuit, library.as_bytes(), fails(3, line));
    }
}

#[test]
fn a_fault_of_the_circuit_comes_before_one_of_the_library(rt: HostRuntime) {
    const OTHER: &str = typed!(2, "a b", "t2 a -b\n");
    const NO_IDENTITY: &str = typed!(2, "a b", "t2 a b\n");
    const CASES: [(&str, &str, &str); 4] = [
        (UNENDED, OTHER, "c.real:4: no .end"),
        (UNENDED, NO_IDENTITY, "c.real:4: no .end"),
        (NO_IDENTITY, OTHER, "l.real:4: sign on a target"),
        (OTHER, UNENDED, "c.real:4: sign on a target"),
    ];
    expect_refused(&rt, rt.alloc(), &CASES);
}

#[test]
fn an_input_that_is_not_held_comes_before_any_fault(rt: HostRuntime) {
    let words = "templates c.real --library=l.real";
    let wrong = UNENDED.as_bytes();
    let library = fails(4, "cannot read l.real");
    expect(&rt, rt.alloc(), words, ("c.real", wrong), library);
    let circuit = fails(4, "cannot read c.real");
    expect(&rt, rt.alloc(), words, ("l.real", wrong), circuit);
}

#[test]
fn the_library_may_be_standard_input(rt: HostRuntime) {
    let template = typed!(2, "a b", "t2 a b\nt2 a b\n").as_bytes();
    let want = writes(on_three_lines!("t1 c\n").as_bytes());
    let words = "templates --library - c.real";
    let circuit = ("c.real", ONE_FLIP.as_bytes());
    expect_over_two(&rt, rt.alloc(), words, ("-", template), circuit, want);
}
