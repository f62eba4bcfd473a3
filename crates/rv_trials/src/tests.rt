// Whole runs over files and sinks in memory: tables of what is typed, what the inputs hold, and how the run ends. A
// table is a constant of texts and numbers, since its proof is short then, however many rows it has.
// Where memory is wanting a helper ends the test, and answers no error: a `?` beside objects that need dropping is dear
// to prove, in each function that it stands in.
use rv_cmd::run;
use rv_io::{MemFiles, MemSink};
use std::alloc::Global;
use std::process::Abort;

// A circuit as one types it, by the number of its lines, their names and its gates.
macro_rules! typed {
    ($count:literal, $names:literal, $gates:literal) => {
        concat!(
            ".numvars ",
            $count,
            "\n.variables ",
            $names,
            "\n.begin\n",
            $gates,
            ".end\n"
        )
    };
}

// A circuit as it is written, by its names, which are its labels, its constants, garbage and gates.
macro_rules! written {
    ($count:literal, $names:literal, $constants:literal, $garbage:literal, $gates:literal) => {
        concat!(
            ".version 2.0\n.numvars ",
            $count,
            "\n.variables ",
            $names,
            "\n.inputs ",
            $names,
            "\n.outputs ",
            $names,
            "\n.constants ",
            $constants,
            "\n.garbage ",
            $garbage,
            "\n.begin\n",
            $gates,
            ".end\n"
        )
    };
}

// A written circuit with so many names x0, x1 and so on, without constants and garbage, by its gates.
macro_rules! numbered {
    (1, $gates:literal) => {
        written!(1, "x0", "-", "-", $gates)
    };
    (2, $gates:literal) => {
        written!(2, "x0 x1", "--", "--", $gates)
    };
    (3, $gates:literal) => {
        written!(3, "x0 x1 x2", "---", "---", $gates)
    };
    (4, $gates:literal) => {
        written!(4, "x0 x1 x2 x3", "----", "----", $gates)
    };
    (8, $gates:literal) => {
        written!(8, "x0 x1 x2 x3 x4 x5 x6 x7", "--------", "--------", $gates)
    };
}

// The full adder as it is written, by its gates.
macro_rules! adder {
    ($gates:literal) => {
        concat!(
            ".version 2.0\n.numvars 4\n.variables a b c d\n.inputs a b cin 0\n.outputs g g s cout\n",
            ".constants ---0\n.garbage 11--\n.begin\n",
            $gates,
            ".end\n"
        )
    };
}

// A network as it is written, by the number of its qubits and its operations.
macro_rules! network {
    ($qubits:literal, $operations:literal) => {
        concat!(
            "OPENQASM 2.0;\ninclude \"qelib1.inc\";\nqreg q[",
            $qubits,
            "];\n",
            $operations
        )
    };
}

// The network of a flip of q[2] under q[0] and q[1], with operations before and after it.
macro_rules! toffoli {
    ($before:literal, $after:literal) => {
        concat!(
            "OPENQASM 2.0;\ninclude \"qelib1.inc\";\nqreg q[3];\n",
            $before,
            "h q[2];\ncx q[1],q[2];\ntdg q[2];\ncx q[0],q[2];\nt q[2];\ncx q[1],q[2];\ntdg q[2];\n",
            "cx q[0],q[2];\nt q[1];\nt q[2];\nh q[2];\ncx q[0],q[1];\nt q[0];\ntdg q[1];\n",
            "cx q[0],q[1];\n",
            $after
        )
    };
}

// The report of a circuit: its lines, gates, controls, quantum cost and depth.
macro_rules! circuit_report {
    ($lines:literal, $gates:literal, $controls:literal, $quantum:literal, $depth:literal) => {
        concat!(
            "lines ",
            $lines,
            "\ngates ",
            $gates,
            "\ncontrols ",
            $controls,
            "\nquantum ",
            $quantum,
            "\ndepth ",
            $depth,
            "\n"
        )
    };
}

// The names of the numbers in a report of circuits on more and more lines.
macro_rules! curve {
    ($rows:literal) => {
        concat!("lines t cnot quantum gates call\n", $rows)
    };
}

// The report of a network: its lines, operations, T, H and CNOT, its depth and T-depth.
macro_rules! network_report {
    ($lines:literal, $operations:literal, $t:literal, $h:literal, $cnot:literal, $depth:literal, $t_depth:literal) => {
        concat!(
            "lines ",
            $lines,
            "\noperations ",
            $operations,
            "\nt ",
            $t,
            "\nh ",
            $h,
            "\ncnot ",
            $cnot,
            "\ndepth ",
            $depth,
            "\nt-depth ",
            $t_depth,
            "\n"
        )
    };
}

mod arguments;
mod blocks;
mod check;
mod circuits;
mod compare;
mod compute;
mod cuts;
mod draw;
mod failures;
mod flow;
mod fold;
mod functions;
mod limits;
mod made;
mod one_pass;
mod optimal;
mod realize;
mod reduce;
mod route;
mod searches;
mod single;
mod templates;
mod toreal;

// The room of an output that is to take every byte.
const ROOM: u32 = 100_000;

// How a run is to end: what it writes, and the line of its fault, if it has one, without the `rev: ` before it.
#[derive(Clone, Copy)]
struct Want<'a> {
    status: u8,
    out: &'a [u8],
    line: &'a str,
}

fn writes(out: &[u8]) -> Want<'_> {
    Want {
        status: 0,
        out,
        line: "",
    }
}

fn fails(status: u8, line: &str) -> Want<'_> {
    Want {
        status,
        out: b"",
        line,
    }
}

// What a run with this status tells: by 0 and by 1, which is an answer of `check`, what it writes, else its fault.
fn told(status: u8, text: &str) -> Want<'_> {
    if status > 1 {
        return fails(status, text);
    }
    Want {
        status,
        out: text.as_bytes(),
        line: "",
    }
}

// How a run ended, with what it wrote and reported.
#[derive(Drop)]
struct Ended {
    status: u8,
    out: MemSink,
    errs: MemSink,
}

fn push_word(rt: &impl Abort, alloc: Global, words: &mut Vec<String>, word: &str) {
    let word = String::from_str(alloc, word).expect(rt, "memory");
    words.push(word).expect(rt, "memory");
}

// The words of a command line, apart by blanks. An empty word is typed as two quotes.
fn words_of(rt: &impl Abort, alloc: Global, typed: &str) -> Vec<String> {
    let mut words = Vec::new(alloc);
    for word in typed.split_whitespace() {
        push_word(rt, alloc, &mut words, if word == "''" { "" } else { word });
    }
    words
}

fn push_text(rt: &impl Abort, text: &mut String, part: &str) {
    text.push_str(part).expect(rt, "memory");
}

// A number after a text.
fn push_number(rt: &impl Abort, alloc: Global, text: &mut String, before: &str, number: u32) {
    let part = format!(in alloc; "{before}{number}").expect(rt, "memory");
    push_text(rt, text, &part);
}

// The names x0, x1 and so on, so many, apart by spaces.
fn names(rt: &impl Abort, alloc: Global, count: u32) -> String {
    let mut names = String::new(alloc);
    push_text(rt, &mut names, "x0");
    for line in 1..count {
        push_number(rt, alloc, &mut names, " x", line);
    }
    names
}

// A circuit as one types it on so many lines, by its gates.
fn circuit_on(rt: &impl Abort, alloc: Global, lines: u32, gates: &str) -> String {
    let names = names(rt, alloc, lines);
    let mut circuit = String::new(alloc);
    push_number(rt, alloc, &mut circuit, ".numvars ", lines);
    push_text(rt, &mut circuit, "\n.variables ");
    push_text(rt, &mut circuit, &names);
    push_text(rt, &mut circuit, "\n.begin\n");
    push_text(rt, &mut circuit, gates);
    push_text(rt, &mut circuit, ".end\n");
    circuit
}

fn append(rt: &impl Abort, text: &mut Vec<u8>, part: &[u8]) {
    text.extend_from_slice(part).expect(rt, "memory");
}

// A text of a part so many times over, between a first and a last part.
fn repeated(
    rt: &impl Abort,
    alloc: Global,
    first: &[u8],
    part: &[u8],
    count: usize,
    last: &[u8],
) -> Vec<u8> {
    let mut text = Vec::new(alloc);
    append(rt, &mut text, first);
    for _ in 0..count {
        append(rt, &mut text, part);
    }
    append(rt, &mut text, last);
    text
}

// An output or an error output with so much room.
fn sink_of(rt: &impl Abort, alloc: Global, room: u32) -> MemSink {
    MemSink::new(alloc, room).expect(rt, "memory")
}

fn add_file(rt: &impl Abort, files: &mut MemFiles, name: &str, text: &[u8]) {
    files.add(name, text).expect(rt, "memory");
}

fn file_of(rt: &impl Abort, alloc: Global, name: &str, text: &[u8]) -> MemFiles {
    let mut files = MemFiles::new(alloc);
    add_file(rt, &mut files, name, text);
    files
}

// What a name holds.
type Input<'a> = (&'a str, &'a [u8]);

fn files_of(rt: &impl Abort, alloc: Global, first: Input, second: Input) -> MemFiles {
    let mut files = file_of(rt, alloc, first.0, first.1);
    add_file(rt, &mut files, second.0, second.1);
    files
}

// Runs words over files and sinks in memory. It says nothing of the run, so that no caller has to read its contract.
fn run_words(
    alloc: Global,
    words: &[String],
    files: &mut MemFiles,
    out: &mut MemSink,
    errs: &mut MemSink,
) -> u8 {
    run(alloc, words, files, out, errs)
}

// Runs what is typed over these files and this output.
fn end_of(
    rt: &impl Abort,
    alloc: Global,
    typed: &str,
    files: &mut MemFiles,
    mut out: MemSink,
) -> Ended {
    let words = words_of(rt, alloc, typed);
    let mut errs = sink_of(rt, alloc, 100);
    let status = run_words(alloc, &words, files, &mut out, &mut errs);
    Ended { status, out, errs }
}

// These are one small function each, since what an assertion prints is dear to prove.
fn expect_same(rt: &impl Abort, words: &str, got: &[u8], want: &[u8]) {
    assert_eq!(rt; got, want, "{words}");
}

fn expect_status(rt: &impl Abort, words: &str, got: u8, want: u8) {
    assert_eq!(rt; got, want, "{words}");
}

fn expect_true(rt: &impl Abort, words: &str, is_so: bool) {
    assert!(rt; is_so, "{words}");
}

// What was reported is this line, or nothing if there is none.
fn is_report(errs: &[u8], line: &[u8]) -> bool {
    match errs.strip_prefix(b"rev: ") {
        Some(told) => !line.is_empty() && told.strip_suffix(b"\n") == Some(line),
        None => line.is_empty() && errs.is_empty(),
    }
}

fn expect_line(rt: &impl Abort, words: &str, errs: &[u8], line: &str) {
    expect_true(rt, words, is_report(errs, line.as_bytes()));
}

// The status, the output and the error output are those that are wanted.
fn expect_end(rt: &impl Abort, words: &str, ended: &Ended, want: Want) {
    expect_status(rt, words, ended.status, want.status);
    expect_line(rt, words, ended.errs.bytes(), want.line);
    expect_same(rt, words, ended.out.bytes(), want.out);
}

// Runs what is typed over these files.
fn expect_by(rt: &impl Abort, alloc: Global, words: &str, files: &mut MemFiles, want: Want) {
    let ended = end_of(rt, alloc, words, files, sink_of(rt, alloc, ROOM));
    expect_end(rt, words, &ended, want);
}

// Runs what is typed over an input, by its name.
fn expect(rt: &impl Abort, alloc: Global, words: &str, input: Input, want: Want) {
    let mut files = file_of(rt, alloc, input.0, input.1);
    expect_by(rt, alloc, words, &mut files, want);
}

// Runs what is typed over two inputs, by their names.
fn expect_over_two(
    rt: &impl Abort,
    alloc: Global,
    words: &str,
    first: Input,
    second: Input,
    want: Want,
) {
    let mut files = files_of(rt, alloc, first, second);
    expect_by(rt, alloc, words, &mut files, want);
}

// Runs what is typed over standard input.
fn expect_on(rt: &impl Abort, alloc: Global, words: &str, text: &[u8], want: Want) {
    expect(rt, alloc, words, ("-", text), want);
}

// Runs each of these over standard input: what is typed, the text, the status, and what is told.
fn expect_each(rt: &impl Abort, alloc: Global, cases: &[(&str, &str, u8, &str)]) {
    for (words, text, status, tells) in cases {
        expect_on(rt, alloc, words, text.as_bytes(), told(*status, tells));
    }
}

// Runs what is typed over each of these texts of an input, and writes the text beside it.
fn expect_texts(rt: &impl Abort, alloc: Global, words: &str, name: &str, cases: &[(&str, &str)]) {
    for (text, out) in cases {
        let want = writes(out.as_bytes());
        expect(rt, alloc, words, (name, text.as_bytes()), want);
    }
}

// Runs what is typed over a text of an input, which is refused with this line after the name and a colon.
fn expect_fault(rt: &impl Abort, alloc: Global, words: &str, input: Input, line: &str) {
    let line = format!(in alloc; "{}:{line}", input.0).expect(rt, "memory");
    expect(rt, alloc, words, input, fails(3, &line));
}

// Runs what is typed over each of these texts of an input, each with the same first part. It is refused with the line
// beside it, which follows the name of the input and a colon.
fn expect_faults(
    rt: &impl Abort,
    alloc: Global,
    words: &str,
    name: &str,
    first: &[u8],
    cases: &[(&[u8], &str)],
) {
    for (text, line) in cases {
        let text = repeated(rt, alloc, first, text, 1, b"");
        expect_fault(rt, alloc, words, (name, &text), line);
    }
}

// How many lines a text has.
fn line_count(text: &[u8]) -> usize {
    let mut count = 0usize;
    for byte in text {
        if *byte == b'\n' {
            count = count.saturating_add(1);
        }
    }
    count
}

// The text begins so.
fn expect_head(rt: &impl Abort, words: &str, text: &[u8], head: &[u8]) {
    expect_true(rt, words, text.starts_with(head));
}

// A text of which it is only said how it begins, and how many lines it has.
fn expect_begun(rt: &impl Abort, words: &str, text: &[u8], header: &[u8], lines: usize) {
    expect_head(rt, words, text, header);
    expect_true(rt, words, line_count(text) == lines);
}

// A run ended well, and wrote so many lines, which begin so.
fn expect_written(rt: &impl Abort, words: &str, ended: &Ended, header: &[u8], lines: usize) {
    expect_status(rt, words, ended.status, 0);
    expect_line(rt, words, ended.errs.bytes(), "");
    expect_begun(rt, words, ended.out.bytes(), header, lines);
}

// Runs what is typed over an input, and writes so many lines, which begin so.
fn expect_lines(
    rt: &impl Abort,
    alloc: Global,
    words: &str,
    input: Input,
    header: &[u8],
    lines: usize,
) {
    let mut files = file_of(rt, alloc, input.0, input.1);
    let ended = end_of(rt, alloc, words, &mut files, sink_of(rt, alloc, 50_000_000));
    expect_written(rt, words, &ended, header, lines);
}

// What a run over standard input writes, which ends well.
fn output_of(rt: &impl Abort, alloc: Global, words: &str, text: &[u8]) -> MemSink {
    let mut files = file_of(rt, alloc, "-", text);
    let ended = end_of(rt, alloc, words, &mut files, sink_of(rt, alloc, ROOM));
    expect_status(rt, words, ended.status, 0);
    ended.out
}

// Runs what is typed over standard input, and writes a text that begins so.
fn expect_begin(rt: &impl Abort, alloc: Global, words: &str, text: &[u8], head: &str) {
    let out = output_of(rt, alloc, words, text);
    expect_head(rt, words, out.bytes(), head.as_bytes());
}

// The status of a run over these files, whatever it writes.
fn status_of(rt: &impl Abort, alloc: Global, words: &str, files: &mut MemFiles) -> u8 {
    let ended = end_of(rt, alloc, words, files, sink_of(rt, alloc, 1000));
    ended.status
}

const CYCLES: &str = "1 0 3 2 5 7 4 6\n";

const CIRCUIT_OF_CYCLES: &str = numbered!(3, "t3 x0 x1 x2\nt3 x0 x2 x1\nt3 x0 x1 x2\nt1 x2\n");

const FULL_ADDER: &str = "# full adder
.version 2.0
.numvars 4
.variables a b c d
.inputs a b cin 0
.outputs g g s cout
.constants ---0
.garbage 11--
.inputbus in a b
.begin
p3 a b d
p3 b c d
.end
";

const PERES_AND_FREDKIN: &str =
    ".version 2.0\n.numvars 3\n.variables a b c\n.begin\np3 a b c\nf3 a b c\n.end\n";

const TWO_CONTROLS: &str = typed!(3, "a b c", "t3 a b c\n");

const TWO_REGISTERS: &str = "OPENQASM 2.0;\nqreg a[2];\nqreg b[2];\ncx a,b;\n";

const CONJUNCTION: &str = ".i 2\n.o 1\n11 1\n.e\n";

const FIFTEEN_OPERATIONS: &str = toffoli!("", "");

// A circuit that is cut after its gate.
const UNENDED: &str = ".numvars 2\n.variables a b\n.begin\nt2 a b";

const UNEQUAL_REGISTERS: &str = "OPENQASM 2.0;\nqreg a[2];\nqreg b[3];\ncx a,b;\n";
