// Circuits compared: whether they give what another circuit, a permutation or a table asks.
use super::*;
use std::alloc::Global;
use std::process::Abort;

const WITH_CIRCUIT: &str = "compare c.real other";

const WITH_PERMUTATION: &str = "compare c.real other --from perm";

const WITH_TABLE: &str = "compare --from pla c.real other";

const WIRE: &str = typed!(1, "a", "");

// It gives its only input on its only output.
const COPY: &str = written!(2, "a b", "-0", "1-", "t2 a b\n");

const EXCHANGE: &str = typed!(2, "a b", "t2 a b\nt2 b a\nt2 a b\n");

const LONG: &str = typed!(24, "a b c d e f g h i j k l m n o p q r s t u v w x", "");

const WIDE: &str = typed!(
    25,
    "a b c d e f g h i j k l m n o p q r s t u v w x y",
    "t1 a\n"
);

// Of 25 lines it takes a bit on one alone.
const FILLED: &str = written!(
    25,
    "a b c d e f g h i j k l m n o p q r s t u v w x y",
    "-000000000000000000000000",
    "-111111111111111111111111",
    ""
);

// Compares each circuit and second input: the status, and what is told.
fn expect_compares(rt: &impl Abort, alloc: Global, words: &str, cases: &[(&str, &str, u8, &str)]) {
    for (circuit, other, status, tells) in cases {
        let first = ("c.real", circuit.as_bytes());
        let mut files = files_of(rt, alloc, first, ("other", other.as_bytes()));
        expect_by(rt, alloc, words, &mut files, told(*status, tells));
    }
}

#[test]
fn circuits_are_compared_by_their_marks(rt: HostRuntime) {
    const NINE: &str = typed!(10, "a b c d e f g h i j", "t10 a b c d e f g h i j\n");
    const NONE: &str = typed!(10, "a b c d e f g h i j", "");
    const CASES: [(&str, &str, u8, &str); 12] = [
        (EXCHANGE, typed!(2, "p q", "f2 p q\n"), 0, "same\n"),
        (COPY, WIRE, 0, "same\n"),
        (
            typed!(2, "a b", "t2 a b\n"),
            typed!(2, "a b", ""),
            1,
            "differs at word 10\n",
        ),
        (NINE, NONE, 1, "differs at word 1111111110\n"),
        (EXCHANGE, WIRE, 1, "differs in inputs 2 and 1\n"),
        (
            written!(2, "a b", "--", "1-", ""),
            EXCHANGE,
            1,
            "differs in outputs 1 and 2\n",
        ),
        (
            written!(1, "a", "0", "-", ""),
            written!(1, "b", "1", "-", ""),
            1,
            "differs at the empty word\n",
        ),
        (
            written!(1, "a", "1", "-", ""),
            written!(2, "b c", "01", "1-", ""),
            0,
            "same\n",
        ),
        (
            LONG,
            typed!(
                24,
                "a b c d e f g h i j k l m n o p q r s t u v w x",
                "t1 x\n"
            ),
            1,
            "differs at word 000000000000000000000000\n",
        ),
        (FILLED, WIRE, 0, "same\n"),
        (WIDE, WIRE, 1, "differs in inputs 25 and 1\n"),
        (WIRE, WIDE, 1, "differs in inputs 1 and 25\n"),
    ];
    expect_compares(&rt, rt.alloc(), WITH_CIRCUIT, &CASES);
}

// Of 25 inputs and more there are too many words to look at each.
#[test]
fn wide_circuits_are_compared(rt: HostRuntime) {
    const SPREAD: &str = typed!(
        25,
        "a b c d e f g h i j k l m n o p q r s t u v w x y",
        "t3 a b y\nt3 b c y\nt1 a\nt3 b c y\n"
    );
    const GATHERED: &str = typed!(
        25,
        "a b c d e f g h i j k l m n o p q r s t u v w x y",
        "t1 a\nt2 b y\nt3 a b y\n"
    );
    const CASES: [(&str, &str, u8, &str); 4] = [
        (WIDE, WIDE, 0, "same\n"),
        (
            WIDE,
            typed!(25, "a b c d e f g h i j k l m n o p q r s t u v w x y", ""),
            1,
            "differs at word 0000000000000000000000000\n",
        ),
        (SPREAD, GATHERED, 0, "same\n"),
        (
            SPREAD,
            WIDE,
            1,
            "differs at word 1100000000000000000000000\n",
        ),
    ];
    expect_compares(&rt, rt.alloc(), WITH_CIRCUIT, &CASES);
}

#[test]
fn a_permutation_is_compared_by_its_marks(rt: HostRuntime) {
    const CASES: [(&str, &str, u8, &str); 8] = [
        (EXCHANGE, "0 2 1 3\n", 0, "same\n"),
        (EXCHANGE, "0 2 3 1\n", 1, "differs at word 10\n"),
        (WIRE, ".constants -0\n.garbage 1-\n0 1 3 2\n", 0, "same\n"),
        (WIRE, "0 1 3 2\n", 1, "differs in inputs 1 and 2\n"),
        (WIDE, "1 0\n", 1, "differs in inputs 25 and 1\n"),
        (
            EXCHANGE,
            ".garbage 1-\n0 2 1 3\n",
            1,
            "differs in outputs 2 and 1\n",
        ),
        (
            written!(1, "a", "1", "-", ""),
            ".constants 0\n1 0\n",
            0,
            "same\n",
        ),
        (
            written!(1, "a", "0", "-", ""),
            ".constants 0\n1 0\n",
            1,
            "differs at the empty word\n",
        ),
    ];
    expect_compares(&rt, rt.alloc(), WITH_PERMUTATION, &CASES);
}

#[test]
fn a_free_entry_allows_any_bit(rt: HostRuntime) {
    const FLIP: &str = typed!(1, "a", "t1 a\n");
    const CASES: [(&str, &str, u8, &str); 7] = [
        (COPY, ".i 1\n.o 1\n1 1\n.e\n", 0, "same\n"),
        (FLIP, ".i 1\n.o 1\n1 1\n.e\n", 1, "differs at word 0\n"),
        (WIRE, ".i 1\n.o 1\n1 -\n.e\n", 0, "same\n"),
        (FLIP, ".i 1\n.o 1\n1 -\n.e\n", 1, "differs at word 0\n"),
        (
            WIRE,
            ".i 1\n.o 2\n1 11\n.e\n",
            1,
            "differs in outputs 1 and 2\n",
        ),
        (LONG, ".i 2\n.o 1\n.e\n", 1, "differs in inputs 24 and 2\n"),
        (
            written!(1, "a", "0", "-", ""),
            ".i 1\n.o 1\n.e\n",
            1,
            "differs in inputs 0 and 1\n",
        ),
    ];
    expect_compares(&rt, rt.alloc(), WITH_TABLE, &CASES);
}

#[test]
fn all_lines_are_compared_without_marks(rt: HostRuntime) {
    const COPIES: &str = typed!(2, "p q", "t2 p q\n");
    const CIRCUITS: [(&str, &str, u8, &str); 4] = [
        (COPY, COPIES, 0, "same\n"),
        (
            written!(1, "a", "0", "1", ""),
            typed!(1, "a", "t1 a\n"),
            1,
            "differs at word 0\n",
        ),
        (COPY, WIRE, 1, "differs in inputs 2 and 1\n"),
        (FILLED, WIRE, 1, "differs in inputs 25 and 1\n"),
    ];
    const PERMUTATIONS: [(&str, &str, u8, &str); 2] = [
        (COPY, ".constants 0-\n.garbage -1\n0 1 3 2\n", 0, "same\n"),
        (COPY, "0 1 2 3\n", 1, "differs at word 10\n"),
    ];
    const TABLES: [(&str, &str, u8, &str); 2] = [
        (COPY, ".i 2\n.o 2\n01 01\n10 11\n11 10\n.e\n", 0, "same\n"),
        (
            COPY,
            ".i 1\n.o 1\n1 1\n.e\n",
            1,
            "differs in inputs 2 and 1\n",
        ),
    ];
    let alloc = rt.alloc();
    expect_compares(&rt, alloc, "compare --all c.real other", &CIRCUITS);
    expect_compares(
        &rt,
        alloc,
        "compare c.real other --all --from perm",
        &PERMUTATIONS,
    );
    expect_compares(&rt, alloc, "compare --from pla --all c.real other", &TABLES);
}

// A full adder as a logic network, and as circuits.
#[test]
fn a_circuit_is_compared_with_a_logic_network(rt: HostRuntime) {
    const ADDER: &str = concat!(
        ".inputs a b c\n.outputs s m\n.names a b c s\n100 1\n010 1\n001 1\n111 1\n",
        ".names a b c m\n11- 1\n1-1 1\n-11 1\n.end\n"
    );
    const SUMS: &str = written!(
        5,
        "a b c s m",
        "---00",
        "111--",
        "t3 a b m\nt2 a b\nt3 b c m\nt2 a b\nt2 a s\nt2 b s\nt2 c s\n"
    );
    const EXCHANGED: &str = written!(
        5,
        "a b c m s",
        "---00",
        "111--",
        "t3 a b m\nt2 a b\nt3 b c m\nt2 a b\nt2 a s\nt2 b s\nt2 c s\n"
    );
    const CASES: [(&str, &str, u8, &str); 9] = [
        (SUMS, ADDER, 0, "same\n"),
        (EXCHANGED, ADDER, 1, "differs at word 001\n"),
        (COPY, ADDER, 1, "differs in inputs 1 and 3\n"),
        (
            typed!(3, "a b c", ""),
            ADDER,
            1,
            "differs in outputs 3 and 2\n",
        ),
        (COPY, ".inputs a\n.outputs a\n", 0, "same\n"),
        (
            COPY,
            ".inputs a\n.outputs b\n.names a b\n0 1\n",
            1,
            "differs at word 0\n",
        ),
        (WIDE, ADDER, 1, "differs in inputs 25 and 3\n"),
        (
            COPY,
            ".inputs a b c d e f g h i j k l m n o p q r s t u v w x y\n.outputs a\n",
            1,
            "differs in inputs 1 and 25\n",
        ),
        (COPY, ".inputs a\n.outputs b\n", 3, "other:2: never driven"),
    ];
    expect_compares(&rt, rt.alloc(), "compare --from blif c.real other", &CASES);
}

// Nodes that are written before their operands, rows that end with 0, constants, an input that is passed on, lines that
// go on, returns, and what comes after the end.
#[test]
fn a_logic_network_gives_what_its_covers_say(rt: HostRuntime) {
    const SUMS: &str = written!(
        5,
        "a b c s m",
        "---00",
        "111--",
        "t3 a b m\nt2 a b\nt3 b c m\nt2 a b\nt2 a s\nt2 b s\nt2 c s\n"
    );
    const ADDER: &str = concat!(
        "# adder\n.model add\n.inputs a b \\\nc\n.outputs s\n.outputs d\n.names p c s\n10 1\n01 1\n",
        ".names a b p\n11 0\n00 0\n.names a b c d\n11- 1\n1-1 1\n-11 1\n.end\nrest\n"
    );
    // C17 of ISCAS, with two of its inputs at 0.
    const C17: &str = concat!(
        ".model c17\n.inputs 1 2 3\n.outputs 22 23\n.names 6\n.names 7\n.names 1 3 10\n11 0\n.names 3 6 11\n",
        "11 0\n.names 2 11 16\n11 0\n.names 11 7 19\n11 0\n.names 10 16 22\n11 0\n.names 16 19 23\n11 0\n.end\n"
    );
    const CASES: [(&str, &str, u8, &str); 4] = [
        (SUMS, ADDER, 0, "same\n"),
        (
            written!(6, "a b c o z d", "---000", "111---", "t1 o\nt2 a d\n"),
            ".inputs a b c\n.outputs o z a\n.names o\n1\n.names z\n",
            0,
            "same\n",
        ),
        (
            written!(4, "a b c y", "---0", "111-", "t2 -a y\n"),
            ".inputs a b c\r\n.outputs \\\r\ny\r\n.names a y\r\n0 1\r\n",
            0,
            "same\n",
        ),
        (
            written!(
                5,
                "a b c p q",
                "---00",
                "111--",
                "t2 b p\nt4 a -b c p\nt2 b q\n"
            ),
            C17,
            0,
            "same\n",
        ),
    ];
    expect_compares(&rt, rt.alloc(), "compare --from blif c.real other", &CASES);
}

// All of 26 inputs are 1: by a network of three nodes, and by a flip; and but for the last input.
#[test]
fn a_wide_circuit_is_compared_with_a_logic_network(rt: HostRuntime) {
    const ALL: &str = concat!(
        ".inputs a b c d e f g h i j k l m n o p q r s t u v w x y z\n.outputs all\n",
        ".names a b c d e f g h i j k l m first\n1111111111111 1\n",
        ".names n o p q r s t u v w x y z last\n1111111111111 1\n",
        ".names first last all\n11 1\n.end\n"
    );
    const FLIPPED: &str = written!(
        27,
        "a b c d e f g h i j k l m n o p q r s t u v w x y z all",
        "--------------------------0",
        "11111111111111111111111111-",
        "t27 a b c d e f g h i j k l m n o p q r s t u v w x y z all\n"
    );
    const BUT_THE_LAST: &str = written!(
        27,
        "a b c d e f g h i j k l m n o p q r s t u v w x y z all",
        "--------------------------0",
        "11111111111111111111111111-",
        "t26 a b c d e f g h i j k l m n o p q r s t u v w x y all\n"
    );
    const CASES: [(&str, &str, u8, &str); 3] = [
        (FLIPPED, ALL, 0, "same\n"),
        (
            BUT_THE_LAST,
            ALL,
            1,
            "differs at word 11111111111111111111111110\n",
        ),
        (COPY, ALL, 1, "differs in inputs 1 and 26\n"),
    ];
    expect_compares(&rt, rt.alloc(), "compare --from blif c.real other", &CASES);
    const FEW: [(&str, &str, u8, &str); 1] = [(FLIPPED, ALL, 5, "c.real: undecided with 16 nodes")];
    let words = "compare --from blif --nodes 16 c.real other";
    expect_compares(&rt, rt.alloc(), words, &FEW);
}
