// Circuits for logic networks: what a text denotes, what is written of it, and what is refused.
use super::*;

// A network with these outputs and nodes over a, b and c.
macro_rules! over {
    ($outputs:literal, $nodes:literal) => {
        concat!(".model m\n.inputs a b c\n.outputs ", $outputs, "\n", $nodes, ".end\n")
    };
}

// A circuit on lines for a, b, c and one output, by its gates and that output's label, s if none is given.
macro_rules! summed {
    ($gates:literal) => {
        summed!($gates, "s")
    };
    ($gates:literal, $output:literal) => {
        concat!(
            ".version 2.0\n.numvars 4\n.variables x0 x1 x2 y0\n.inputs a b c y0\n",
            ".outputs x0 x1 x2 ",
            $output,
            "\n.constants ---0\n.garbage 111-\n.begin\n",
            $gates,
            ".end\n"
        )
    };
}

// Of each there is one circuit with the fewest gates, and with few controls.
#[test]
fn a_node_is_added_to_its_output(rt: HostRuntime) {
    const CASES: [(&str, &str, u8, &str); 12] = [
        (
            "compute",
            over!("s", ".names a b c s\n1-1 1\n"),
            0,
            summed!("t3 x0 x2 y0\n"),
        ),
        (
            "compute",
            over!("s", ".names a b c s\n0-1 1\n"),
            0,
            summed!("t3 -x0 x2 y0\n"),
        ),
        // By each goal, and without a search.
        (
            "compute --goal lines",
            over!("s", ".names a b c s\n1-1 1\n"),
            0,
            summed!("t3 x0 x2 y0\n"),
        ),
        (
            "compute --goal gates --effort 0 --seed 7",
            over!("s", ".names a b c s\n1-1 1\n"),
            0,
            summed!("t3 x0 x2 y0\n"),
        ),
        // Without rows it is 0, and with a row of no operands 1.
        ("compute", over!("s", ".names s\n"), 0, summed!("")),
        (
            "compute",
            over!("s", ".names s\n1\n"),
            0,
            summed!("t1 y0\n"),
        ),
        // A buffer and an inverter take no line.
        (
            "compute",
            over!("s", ".names b n\n0 1\n.names n s\n0 1\n"),
            0,
            summed!("t2 x1 y0\n"),
        ),
        // Rows that end with 0 say where it is 0.
        (
            "compute",
            over!("s", ".names a b c s\n0-- 0\n--0 0\n"),
            0,
            summed!("t3 x0 x2 y0\n"),
        ),
        // A line that ends with a backslash goes on, `#` begins a comment, and what Yosys remarks is dropped.
        (
            "compute",
            over!(
                "\\\n s # the sum",
                ".names a b \\\nc s\n1-1 1\n.attrib src 1\n"
            ),
            0,
            summed!("t3 x0 x2 y0\n"),
        ),
        (
            "compute",
            over!("s", ".names a b s\n11 1\n.cname add\n.param W 3\n"),
            0,
            summed!("t3 x0 x1 y0\n"),
        ),
        // Inputs may come again, an input may be an output, and neither `.model` nor `.end` is needed.
        (
            "compute",
            ".inputs a b\n.inputs c\n.outputs a\n",
            0,
            summed!("t2 x0 y0\n", "a"),
        ),
        // A name that a label can't have leaves the line's own.
        (
            "compute",
            over!("s\"", ".names a s\"\n0 1\n"),
            0,
            summed!("t2 -x0 y0\n", "y0"),
        ),
    ];
    expect_each(&rt, rt.alloc(), &CASES);
}

// A node that two others need has seven operands.
#[test]
fn a_circuit_with_work_lines_gives_the_network(rt: HostRuntime) {
    const NETWORK: &str = concat!(
        ".inputs a b c d e f g\n.outputs s t\n",
        ".names a b c d e f g n\n1111111 1\n0000000 1\n.names a b m\n10 1\n01 1\n",
        ".names n m c s\n11- 1\n--1 1\n.names n m t\n1- 1\n-1 1\n.end\n"
    );
    let alloc = rt.alloc();
    let circuit = output_of(&rt, alloc, "compute --effort 1", NETWORK.as_bytes());
    let first = ("c.real", circuit.bytes());
    let second = ("n.blif", NETWORK.as_bytes());
    let words = "compare --from blif c.real n.blif";
    expect_over_two(&rt, alloc, words, first, second, told(0, "same\n"));
}

// A Toffoli gate adds a conjunction, and nothing one that is never true: on its inputs and outputs no circuit is cheaper.
#[test]
fn a_curve_tells_costs_and_calls(rt: HostRuntime) {
    const CASES: [(&str, &str, u8, &str); 4] = [
        (
            "compute --curve --effort 1",
            over!("s", ".names a b c s\n1-1 1\n"),
            0,
            curve!("4 7 6 5 1 rev compute --lines 4 --goal t --effort 1 --seed 0\n"),
        ),
        // Without a search the circuit is that on so many lines as there may be.
        (
            "compute --lines 5 --goal gates --effort 0 --seed 9 --curve",
            over!("s", ".names a b c s\n1-1 1\n"),
            0,
            curve!("4 7 6 5 1 rev compute --lines 5 --goal gates --effort 0 --seed 9\n"),
        ),
        (
            "compute --curve --lines 4 --effort 1",
            over!("s", ".names s\n"),
            0,
            curve!("4 0 0 0 0 rev compute --lines 4 --goal t --effort 1 --seed 0\n"),
        ),
        (
            "compute --curve --lines 3",
            over!("s", ".names s\n"),
            5,
            "-: 4 lines of inputs and outputs are more than 3",
        ),
    ];
    expect_each(&rt, rt.alloc(), &CASES);
}

// The line is that of the first fault.
#[test]
fn a_text_that_denotes_no_network_is_refused(rt: HostRuntime) {
    const CASES: [(&str, &str, u8, &str); 31] = [
        ("compute", over!("s", ".latch a s\n"), 3, "-:4: latch"),
        ("compute", over!("s", ".mlatch a s\n"), 3, "-:4: latch"),
        (
            "compute",
            over!("s", ".subckt m a=a\n"),
            3,
            "-:4: not supported",
        ),
        (
            "compute",
            over!("s", ".gate and2 A=a\n"),
            3,
            "-:4: not supported",
        ),
        ("compute", over!("s", ".exdc\n"), 3, "-:4: not supported"),
        (
            "compute",
            over!("s", ".search f\n"),
            3,
            "-:4: not supported",
        ),
        (
            "compute",
            over!("s", ".clock c\n"),
            3,
            "-:4: unknown directive",
        ),
        ("compute", ".i 2\n", 3, "-:1: unknown directive"),
        ("compute", over!("s", ".model n\n"), 3, "-:4: second model"),
        ("compute", over!("s", ".names\n"), 3, "-:4: missing name"),
        (
            "compute",
            over!("s", ".names a a a a a a a a a a a a a a a a a s\n"),
            3,
            "-:4: too many operands",
        ),
        (
            "compute",
            over!("s", ".names a b\n1 1\n"),
            3,
            "-:4: driven twice",
        ),
        ("compute", over!("s", ".inputs b\n"), 3, "-:4: driven twice"),
        (
            "compute",
            over!("s", ".names a s\n1 1\n.names b s\n1 1\n"),
            3,
            "-:6: driven twice",
        ),
        (
            "compute",
            over!("s s", ".names s\n"),
            3,
            "-:3: repeated output",
        ),
        ("compute", over!("s", "11 1\n"), 3, "-:4: row out of place"),
        (
            "compute",
            over!("s", ".names a b s\n111 1\n"),
            3,
            "-:5: wrong row length",
        ),
        (
            "compute",
            over!("s", ".names a b s\n1x 1\n"),
            3,
            "-:5: wrong character",
        ),
        (
            "compute",
            over!("s", ".names a b s\n11 -\n"),
            3,
            "-:5: wrong character",
        ),
        (
            "compute",
            over!("s", ".names a b s\n11 1\n00 0\n"),
            3,
            "-:6: mixed rows",
        ),
        (
            "compute",
            ".inputs a\n.names a b\n1 1\n.end\n",
            3,
            "-:4: no outputs",
        ),
        (
            "compute",
            over!("s", ".names a d s\n11 1\n"),
            3,
            "-:4: never driven",
        ),
        (
            "compute",
            over!("s", ".names a t s\n11 1\n.names s t\n1 1\n"),
            3,
            "-:4: cycle",
        ),
        ("compute", ".names\n", 3, "-:1: missing name"),
        ("compute", ".inputs a a\n", 3, "-:1: driven twice"),
        ("compute", ".inputs a\n.names a a\n", 3, "-:2: driven twice"),
        ("compute", "11 1\n", 3, "-:1: row out of place"),
        ("compute", ".names a b c\n1 1\n", 3, "-:2: wrong row length"),
        ("compute", ".inputs a\n", 3, "-:1: no outputs"),
        ("compute", "\n.outputs y\n", 3, "-:2: never driven"),
        (
            "compute",
            ".outputs y\n.names x y\n1 1\n.names y x\n1 1\n",
            3,
            "-:2: cycle",
        ),
    ];
    expect_each(&rt, rt.alloc(), &CASES);
}

// Three inputs and two outputs take five lines, and each line in between one more.
#[test]
fn a_network_that_does_not_fit_is_refused(rt: HostRuntime) {
    const ADDER: &str = over!(
        "s m",
        ".names a b h\n10 1\n01 1\n.names h c s\n10 1\n01 1\n.names a b h c m\n11-- 1\n--11 1\n"
    );
    const CASES: [(&str, &str, u8, &str); 6] = [
        (
            "compute --lines 4",
            ADDER,
            5,
            "-: 5 lines of inputs and outputs are more than 4",
        ),
        (
            "compute --lines 1",
            over!("a", ""),
            5,
            "-: 4 lines of inputs and outputs are more than 1",
        ),
        ("compute --lines 0", ADDER, 2, "bad value for --lines"),
        ("compute --lines 65", ADDER, 2, "bad value for --lines"),
        ("compute --goal cx", ADDER, 2, "bad value for --goal"),
        (
            "compute --gates mct",
            ADDER,
            2,
            "option --gates not used by compute",
        ),
    ];
    expect_each(&rt, rt.alloc(), &CASES);
}
