// Drawings of circuits and of networks.
use super::*;
use std::alloc::Global;
use std::process::Abort;

const TOFFOLI: &str = typed!(3, "a b c", "t3 a b c\nt3 a c b\nt3 a b c\nt1 c\n");

const IN_ONE_BLOCK: &str = "\
    a ──●──●──●───── a\n\
    b ──●──⊕──●───── b\n\
    c ──⊕──●──⊕──⊕── c\n";

const IN_TWO_BLOCKS: &str = "\
    a ──●──●──●── a\n\
    b ──●──⊕──●── b\n\
    c ──⊕──●──⊕── c\n\
    \n\
    a ───── a\n\
    b ───── b\n\
    c ──⊕── c\n";

// Draws the circuit, by its name: the status, and what is told.
fn expect_drawings(rt: &impl Abort, alloc: Global, cases: &[(&str, u8, &str)]) {
    for (words, status, tells) in cases {
        let circuit = ("c.real", TOFFOLI.as_bytes());
        expect(rt, alloc, words, circuit, told(*status, tells));
    }
}

#[test]
fn a_block_has_as_many_gates_as_asked_and_all_of_them_by_0(rt: HostRuntime) {
    const CASES: [(&str, u8, &str); 5] = [
        ("draw c.real", 0, IN_ONE_BLOCK),
        ("draw --wrap 3 c.real", 0, IN_TWO_BLOCKS),
        ("draw --wrap 4 c.real", 0, IN_ONE_BLOCK),
        ("draw --wrap=65535 c.real", 0, IN_ONE_BLOCK),
        ("draw c.real --wrap 0", 0, IN_ONE_BLOCK),
    ];
    expect_drawings(&rt, rt.alloc(), &CASES);
}

// Draws a circuit on one line of so many flips.
fn expect_flips(rt: &impl Abort, alloc: Global, count: usize, drawing: &[u8]) {
    let first = b".numvars 1\n.variables a\n.begin\n";
    let circuit = repeated(rt, alloc, first, b"t1 a\n", count, b".end\n");
    expect(
        rt,
        alloc,
        "draw c.real",
        ("c.real", &circuit),
        writes(drawing),
    );
}

#[test]
fn without_an_option_a_block_has_24_gates(rt: HostRuntime) {
    let alloc = rt.alloc();
    let (first, part) = ("a ─".as_bytes(), "─⊕─".as_bytes());
    let block = repeated(&rt, alloc, first, part, 24, "─ a\n".as_bytes());
    expect_flips(&rt, alloc, 24, &block);
    let last = "─ a\n\na ──⊕── a\n".as_bytes();
    let rest = repeated(&rt, alloc, first, part, 24, last);
    expect_flips(&rt, alloc, 25, &rest);
}

// Each kind of gate, a control that wants 0, constants, garbage, and labels of different widths.
const ALL_KINDS: &str = "\
    .numvars 4\n.variables x0 x1 x2 x3\n.inputs x0 größe \"a b\" x3\n.constants --01\n\
    .garbage 1---\n.begin\nt3 x0 -x1 x3\nt1 x1\nf3 x0 x3 x1\np3 x3 x0 x2\n.end\n";

const ALL_KINDS_DRAWN: &str = "\
    x0 ─────●─────●──◉─┤ x0\n\
    größe ──○──⊕──✕──┼── x1\n\
    \"a b\" 0─┼─────┼──⊕── x2\n\
    x3 1────⊕─────✕──●── x3\n";

#[test]
fn each_kind_of_gate_and_mark_is_drawn(rt: HostRuntime) {
    let want = writes(ALL_KINDS_DRAWN.as_bytes());
    expect_on(&rt, rt.alloc(), "draw", ALL_KINDS.as_bytes(), want);
}

#[test]
fn a_circuit_without_gates_is_its_lines(rt: HostRuntime) {
    let circuit = typed!(2, "a b", "").as_bytes();
    let want = writes("a ── a\nb ── b\n".as_bytes());
    expect_on(&rt, rt.alloc(), "draw", circuit, want);
}

#[test]
fn what_is_no_circuit_is_not_drawn(rt: HostRuntime) {
    const FAULTS: [(&[u8], &str); 1] = [(b"t2 a -b\n.end\n", "4: sign on a target")];
    const CASES: [(&str, u8, &str); 4] = [
        ("draw missing", 4, "cannot read missing"),
        ("draw --wrap 65536 c.real", 2, "bad value for --wrap"),
        ("draw --wrap -1 c.real", 2, "words not understood"),
        (
            "synth --wrap 3 c.real",
            2,
            "option --wrap not used by synth",
        ),
    ];
    let first = b".numvars 2\n.variables a b\n.begin\n";
    expect_faults(&rt, rt.alloc(), "draw c.real", "c.real", first, &FAULTS);
    expect_drawings(&rt, rt.alloc(), &CASES);
}

// A control that wants 0, a constant, garbage, and a label that has to be escaped.
const TO_BE_ESCAPED: &str = "\
    .numvars 2\n.variables a b\n.inputs \"a_<&\" b\n.constants -0\n.garbage -1\n.begin\nt2 -a b\n.end\n";

const AS_LATEX: &str = "\
    \\begin{quantikz}\n\
    \\lstick{a\\_\\textless{}\\symbol{38}} & \\octrl{1} & \\qw \\rstick{a} \\\\\n\
    \\lstick{b $\\ket{0}$} & \\targ{} & \\trash{} \\rstick{b} \\\\\n\
    \\end{quantikz}\n";

const AS_SVG: &str = "\
    <svg xmlns=\"http://www.w3.org/2000/svg\" viewBox=\"-88 0 206 90\" width=\"206\" height=\"90\" font-family=\"monospace\" font-size=\"13\" fill=\"none\" stroke=\"currentColor\">\n\
    <g transform=\"translate(0 0)\">\n\
    <g transform=\"translate(0 15)\"><text x=\"-8\" y=\"4\" text-anchor=\"end\" fill=\"currentColor\" stroke=\"none\" xml:space=\"preserve\">a_&lt;&amp;</text></g>\n\
    <path d=\"M0 15H10M20 15H30\"/>\n\
    <g transform=\"translate(30 15)\"><text x=\"8\" y=\"4\" fill=\"currentColor\" stroke=\"none\" xml:space=\"preserve\">a</text></g>\n\
    <g transform=\"translate(0 45)\"><text x=\"-8\" y=\"4\" text-anchor=\"end\" fill=\"currentColor\" stroke=\"none\" xml:space=\"preserve\">b<tspan> |0⟩</tspan></text></g>\n\
    <path d=\"M0 45H30\"/>\n\
    <g transform=\"translate(30 45)\"><text x=\"8\" y=\"4\" fill=\"currentColor\" stroke=\"none\" xml:space=\"preserve\">b</text><line y1=\"-6\" y2=\"6\"/></g>\n\
    <g transform=\"translate(15 0)\"><title>t2 -a b</title>\n\
    <g transform=\"translate(0 15)\"><line y1=\"5\" y2=\"15\"/><circle r=\"5\"/></g>\n\
    <g transform=\"translate(0 45)\"><line y1=\"-15\" y2=\"0\"/><circle r=\"10\"/><line y1=\"-10\" y2=\"10\"/></g>\n\
    </g>\n\
    </g>\n\
    </svg>\n";

#[test]
fn a_circuit_has_three_forms(rt: HostRuntime) {
    let circuit = TO_BE_ESCAPED.as_bytes();
    let text = writes("a_<& ──○── a\nb 0────⊕─┤ b\n".as_bytes());
    expect_on(&rt, rt.alloc(), "draw --as text", circuit, text);
    let latex = writes(AS_LATEX.as_bytes());
    expect_on(&rt, rt.alloc(), "draw --as latex", circuit, latex);
    let svg = writes(AS_SVG.as_bytes());
    expect_on(&rt, rt.alloc(), "draw --as svg", circuit, svg);
}

const NETWORK: &[u8] = b"OPENQASM 2.0;\nqreg q[2];\nh q[0];\ntdg q[1];\ncz q[1],q[0];\n";

const NETWORK_AS_LATEX: &str = "\
    \\begin{quantikz}\n\
    \\lstick{q0} & \\gate{H} & \\qw & \\ctrl{1} & \\qw \\rstick{q0} \\\\\n\
    \\lstick{q1} & \\qw & \\gate{T^\\dagger} & \\control{} & \\qw \\rstick{q1} \\\\\n\
    \\end{quantikz}\n";

#[test]
fn a_network_is_drawn_an_operation_a_column(rt: HostRuntime) {
    let text = writes("q0 ──H─────●── q0\nq1 ─────t──●── q1\n".as_bytes());
    expect_on(&rt, rt.alloc(), "draw --from qasm", NETWORK, text);
    let latex = writes(NETWORK_AS_LATEX.as_bytes());
    expect_on(
        &rt,
        rt.alloc(),
        "draw --from qasm --as latex",
        NETWORK,
        latex,
    );
}
