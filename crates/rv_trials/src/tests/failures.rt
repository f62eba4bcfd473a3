// Calls that fail: of the files, of the output and of the error output.
use super::*;
use rv_cmd::run_safely;
use rv_io::{NullSink, SafeFiles};
use std::alloc::Global;
use std::process::Abort;

// What is typed, an input by its name and its text, the text of w.txt, or nothing, the status, and what is told.
type Row<'a> = (&'a str, &'a str, &'a str, &'a str, u8, &'a str);

const DISJUNCTION: &str = ".i 2\n.o 1\n1- 1\n-1 1\n.e\n";

// The sum and the carry of three bits.
const SUM_AND_CARRY: &str = ".i 3\n.o 2\n100 10\n010 10\n001 10\n111 10\n11- 01\n1-1 01\n-11 01\n";

// Of the four sums of three bits two come from three inputs each, so these take four lines.
const ADDER: &str = ".constants ---0\n.garbage --11\n0 1 8 2 9 3 4 7 10 11 5 13 6 14 12 15\n";

const SIMULATION: Row<'static> = (
    "simulate fa.real w.txt",
    "fa.real",
    FULL_ADDER,
    "111\n011\n",
    0,
    "11\n01\n",
);

// A circuit, and its network as w.txt.
const CHECK: Row<'static> = (
    "check c.real w.txt",
    "c.real",
    typed!(1, "a", "t1 a\n"),
    "OPENQASM 2.0;\nqreg q[1];\nx q[0];\n",
    0,
    "same\n",
);

// Permutations, truth tables, circuits and networks. The network of one Toffoli gate is a folded one, and in another
// one a control that wants 0 is turned before and after.
const ROWS: [Row<'static>; 17] = [
    (
        "synth --method out p.txt",
        "p.txt",
        CYCLES,
        "",
        0,
        CIRCUIT_OF_CYCLES,
    ),
    (
        "synth --method both p.txt",
        "p.txt",
        CYCLES,
        "",
        0,
        CIRCUIT_OF_CYCLES,
    ),
    (
        "single p.txt",
        "p.txt",
        "1 0\n",
        "",
        0,
        numbered!(1, "t1 x0\n"),
    ),
    (
        "embed f.pla",
        "f.pla",
        CONJUNCTION,
        "",
        0,
        ".constants --0\n.garbage -11\n0 3 1 5 2 6 4 7\n",
    ),
    ("embed f.pla", "f.pla", SUM_AND_CARRY, "", 0, ADDER),
    (
        "esop f.pla",
        "f.pla",
        DISJUNCTION,
        "",
        0,
        written!(3, "x0 x1 y0", "--0", "11-", "t3 -x0 x1 y0\nt2 x0 y0\n"),
    ),
    (
        "esop --to pla f.pla",
        "f.pla",
        DISJUNCTION,
        "",
        0,
        ".i 2\n.o 1\n.type esop\n.p 2\n01 1\n1- 1\n.e\n",
    ),
    (
        "map c.real",
        "c.real",
        TWO_CONTROLS,
        "",
        0,
        FIFTEEN_OPERATIONS,
    ),
    (
        "map c.real",
        "c.real",
        typed!(3, "a b c", "t3 -a b c\n"),
        "",
        0,
        toffoli!("x q[0];\n", "x q[0];\n"),
    ),
    (
        "cost --from qasm q.qasm",
        "q.qasm",
        FIFTEEN_OPERATIONS,
        "",
        0,
        network_report!(3, 15, 7, 2, 6, 11, 4),
    ),
    (
        "toreal q.qasm",
        "q.qasm",
        TWO_REGISTERS,
        "",
        0,
        numbered!(4, "t2 x0 x2\nt2 x1 x3\n"),
    ),
    (
        "fold q.qasm",
        "q.qasm",
        FIFTEEN_OPERATIONS,
        "",
        0,
        FIFTEEN_OPERATIONS,
    ),
    (
        "reduce q.qasm",
        "q.qasm",
        FIFTEEN_OPERATIONS,
        "",
        0,
        FIFTEEN_OPERATIONS,
    ),
    (
        "route c.real",
        "c.real",
        typed!(3, "x0 x1 x2", "t2 x0 x2\n"),
        "",
        0,
        numbered!(3, "f2 x1 x2\nt2 x0 x1\nf2 x1 x2\n"),
    ),
    (
        "draw c.real",
        "c.real",
        TWO_CONTROLS,
        "",
        0,
        "a ──●── a\nb ──●── b\nc ──⊕── c\n",
    ),
    SIMULATION,
    CHECK,
];

// Texts that are refused once they are read to their end.
const FAULTY_ROWS: [Row<'static>; 2] = [
    (
        "toreal q.qasm",
        "q.qasm",
        UNEQUAL_REGISTERS,
        "",
        3,
        "q.qasm:4: register sizes differ",
    ),
    (
        "toreal q.qasm",
        "q.qasm",
        "OPENQASM 2.0;\nqreg a[2];\nqreg b[2];\ncx a,b;\nh a[0];\n",
        "",
        3,
        "q.qasm: operation 3 is not classical",
    ),
];

// A read gives so many bytes at most.
const PIECE: usize = 3;

// How many calls read a text: its start, its pieces, and the read that finds its end.
fn calls_of(text: &str) -> u64 {
    (text.len().div_ceil(PIECE) as u64).saturating_add(2)
}

fn fail_file(rt: &impl Abort, files: &mut MemFiles, number: u64) {
    files.fail_call(number).expect(rt, "memory");
}

// An output or an error output with so much room, of which this call fails.
fn failing_sink(rt: &impl Abort, alloc: Global, room: u32, number: u64) -> MemSink {
    let mut sink = sink_of(rt, alloc, room);
    sink.fail_call(number).expect(rt, "memory");
    sink
}

// The inputs of a row, in pieces, of which one call fails.
fn failing_files(
    rt: &impl Abort,
    alloc: Global,
    input: (&str, &str),
    words: &str,
    number: u64,
) -> MemFiles {
    let mut files = file_of(rt, alloc, input.0, input.1.as_bytes());
    if !words.is_empty() {
        add_file(rt, &mut files, "w.txt", words.as_bytes());
    }
    files.piece(PIECE);
    fail_file(rt, &mut files, number);
    files
}

// Runs a row of which one call of the files fails.
fn expect_by_call(rt: &impl Abort, alloc: Global, row: Row, number: u64, want: Want) {
    let (typed, name, text, words, _, _) = row;
    let mut files = failing_files(rt, alloc, (name, text), words, number);
    expect_by(rt, alloc, typed, &mut files, want);
}

// Runs a row once for each call of its first input, which fails, and once with a call beyond those of all inputs. The
// answers that a simulation writes as it reads its words are for another test.
fn expect_each_call(rt: &impl Abort, alloc: Global, row: Row) {
    let (_, name, text, words, status, tells) = row;
    let calls = calls_of(text);
    let line = format!(in alloc; "cannot read {name}").expect(rt, "memory");
    for call in 0..calls {
        expect_by_call(rt, alloc, row, call.saturating_add(1), fails(4, &line));
    }
    let others = if words.is_empty() { 0 } else { calls_of(words) };
    let beyond = calls.saturating_add(others).saturating_add(1);
    expect_by_call(rt, alloc, row, beyond, told(status, tells));
}

#[test]
fn each_failing_call_of_the_files_is_told_with_its_input(rt: HostRuntime) {
    for row in &ROWS {
        expect_each_call(&rt, rt.alloc(), *row);
    }
    for row in &FAULTY_ROWS {
        expect_each_call(&rt, rt.alloc(), *row);
    }
}

// Runs the simulation of which a call fails, so many after those of the circuit.
fn expect_by_call_of_words(rt: &impl Abort, alloc: Global, call: u64, out: &[u8]) {
    let want = Want {
        status: 4,
        out,
        line: "cannot read w.txt",
    };
    let number = calls_of(FULL_ADDER).saturating_add(call);
    expect_by_call(rt, alloc, SIMULATION, number, want);
}

#[test]
fn a_failing_read_of_words_leaves_the_answers_before_it(rt: HostRuntime) {
    let alloc = rt.alloc();
    // The start, a read of three bytes, one up to the sixth byte, one up to the last, and one that finds the end.
    expect_by_call_of_words(&rt, alloc, 1, b"");
    expect_by_call_of_words(&rt, alloc, 2, b"");
    expect_by_call_of_words(&rt, alloc, 3, b"");
    expect_by_call_of_words(&rt, alloc, 4, b"11\n");
    expect_by_call_of_words(&rt, alloc, 5, b"11\n01\n");
}

// Runs a row of which each call of its second input fails.
fn expect_each_later_call(rt: &impl Abort, alloc: Global, row: Row) {
    let before = calls_of(row.2).saturating_add(1);
    for call in 0..calls_of(row.3) {
        let want = fails(4, "cannot read w.txt");
        expect_by_call(rt, alloc, row, before.saturating_add(call), want);
    }
}

#[test]
fn a_failing_read_of_a_network_leaves_no_answer(rt: HostRuntime) {
    expect_each_later_call(&rt, rt.alloc(), CHECK);
}

fn cannot_write(sent: &[u8]) -> Want<'_> {
    Want {
        status: 4,
        out: sent,
        line: "cannot write",
    }
}

// Runs a row with an output that has so much room, and of which this call fails.
fn end_by_output(rt: &impl Abort, alloc: Global, row: Row, room: u32, number: u64) -> Ended {
    let (typed, name, text, words, _, _) = row;
    let mut files = failing_files(rt, alloc, (name, text), words, u64::MAX);
    let out = failing_sink(rt, alloc, room, number);
    end_of(rt, alloc, typed, &mut files, out)
}

// Of this text a prefix is written if a call fails, and else all: how much, or nothing if no call fails.
fn prefix_of(rt: &impl Abort, typed: &str, ended: &Ended, text: &[u8]) -> Option<usize> {
    let sent = ended.out.bytes();
    if ended.status == 0 {
        expect_end(rt, typed, ended, writes(text));
        return None;
    }
    expect_end(rt, typed, ended, cannot_write(sent));
    expect_head(rt, typed, text, sent);
    Some(sent.len())
}

// The first call writes, so nothing is written if it fails, and the last one flushes what is written whole.
fn expect_prefixes(rt: &impl Abort, alloc: Global, row: Row) {
    let mut last = 0;
    for number in 1..20 {
        let ended = end_by_output(rt, alloc, row, 1000, number);
        let Some(sent) = prefix_of(rt, row.0, &ended, row.5.as_bytes()) else {
            break;
        };
        expect_true(rt, row.0, last <= sent && (number > 1 || sent == 0));
        last = sent;
    }
    expect_true(rt, row.0, last == row.5.len());
}

#[test]
fn each_failing_call_of_the_output_leaves_a_prefix(rt: HostRuntime) {
    for row in &ROWS {
        expect_prefixes(&rt, rt.alloc(), *row);
    }
}

// Runs a row with room for so much of its text alone.
fn expect_room(rt: &impl Abort, alloc: Global, row: Row, room: u32) {
    let ended = end_by_output(rt, alloc, row, room, u64::MAX);
    let (sent, _) = row.5.as_bytes().split_at(row.5.len().min(room as usize));
    expect_end(rt, row.0, &ended, cannot_write(sent));
}

// Runs a row once for each length of a prefix of its text, for which alone there is room.
fn expect_each_room(rt: &impl Abort, alloc: Global, row: Row) {
    for room in 0..u32::try_from(row.5.len()).unwrap_or(0) {
        expect_room(rt, alloc, row, room);
    }
}

#[test]
fn an_output_takes_as_much_of_the_text_as_it_has_room(rt: HostRuntime) {
    for row in &ROWS {
        expect_each_room(&rt, rt.alloc(), *row);
    }
}

// A circuit is written to an output that has so much room, and of which this call fails.
fn expect_sent(rt: &impl Abort, alloc: Global, room: u32, failing: u64, sent: &[u8]) {
    let row = ("synth", "-", "1 0", "", 4, "");
    let ended = end_by_output(rt, alloc, row, room, failing);
    expect_end(rt, "synth", &ended, cannot_write(sent));
}

#[test]
fn a_failing_output_gets_the_first_bytes_that_it_has_room_for(rt: HostRuntime) {
    expect_sent(&rt, rt.alloc(), 1000, 1, b"");
    expect_sent(&rt, rt.alloc(), 5, 9, b".vers");
}

// Reads a text that has a fault, in pieces of one byte, and a call fails.
fn expect_by_bytes(rt: &impl Abort, alloc: Global, failing: u64, want: Want) {
    let mut files = file_of(rt, alloc, "p.txt", b"0 x");
    files.piece(1);
    fail_file(rt, &mut files, failing);
    expect_by(rt, alloc, "synth p.txt", &mut files, want);
}

#[test]
fn pieces_of_one_byte_tell_the_same_fault(rt: HostRuntime) {
    let alloc = rt.alloc();
    expect_by_bytes(&rt, alloc, 9, fails(3, "p.txt:1: not a number"));
    // The fifth call finds the end.
    expect_by_bytes(&rt, alloc, 5, fails(4, "cannot read p.txt"));
}

#[test]
fn a_circuit_that_is_not_held_cannot_be_read(rt: HostRuntime) {
    const CASES: [(&str, &str, u8, &str); 2] = [
        ("decompose c.real", TWO_CONTROLS, 4, "cannot read c.real"),
        ("map c.real", TWO_CONTROLS, 4, "cannot read c.real"),
    ];
    expect_each(&rt, rt.alloc(), &CASES);
}

// Runs words over files that hold every name as empty. It says nothing of the run, so that no caller has to read its
// contract.
fn run_over_empty(
    alloc: Global,
    words: &[String],
    files: &mut SafeFiles,
    out: &mut NullSink,
    errs: &mut MemSink,
) -> u8 {
    run_safely(alloc, words, files, out, errs)
}

#[test]
fn files_that_hold_every_name_are_read_as_empty(rt: HostRuntime) {
    let alloc = rt.alloc();
    let words = words_of(&rt, alloc, "synth p.txt");
    let mut files = SafeFiles::new(MemFiles::new(alloc));
    let mut errs = sink_of(&rt, alloc, 100);
    let status = run_over_empty(alloc, &words, &mut files, &mut NullSink::new(), &mut errs);
    expect_status(&rt, "synth p.txt", status, 3);
    let line = "p.txt: 0 numbers are no power of two from 2 to 65536";
    expect_line(&rt, "synth p.txt", errs.bytes(), line);
}

// Runs words whose output has so much room, and whose error output has so much of its own, and of which this call
// fails: the status, and what is written.
fn end_by_errs(
    rt: &impl Abort,
    alloc: Global,
    typed: &str,
    files: &mut MemFiles,
    out_room: u32,
    (room, failing): (u32, u64),
) -> Ended {
    let mut out = sink_of(rt, alloc, out_room);
    let mut errs = failing_sink(rt, alloc, room, failing);
    let words = words_of(rt, alloc, typed);
    let status = run_words(alloc, &words, files, &mut out, &mut errs);
    Ended { status, out, errs }
}

// The status and what is written, whatever is reported.
fn expect_answer(rt: &impl Abort, typed: &str, ended: &Ended, status: u8, out: &[u8]) {
    expect_status(rt, typed, ended.status, status);
    expect_same(rt, typed, ended.out.bytes(), out);
}

// No room, room for a part of the line, a put that fails, and a flush that fails.
const FAILING_ERRS: [(u32, u64); 4] = [(0, 9), (3, 9), (100, 1), (100, 2)];

// Runs words over an input and an output without room: the status, whatever becomes of the error output.
fn expect_status_by(
    rt: &impl Abort,
    alloc: Global,
    errs: (u32, u64),
    (typed, text, status): (&str, &str, u8),
) {
    let mut files = file_of(rt, alloc, "p.txt", text.as_bytes());
    let ended = end_by_errs(rt, alloc, typed, &mut files, 0, errs);
    expect_answer(rt, typed, &ended, status, b"");
}

fn expect_statuses(rt: &impl Abort, alloc: Global, errs: (u32, u64), cases: &[(&str, &str, u8)]) {
    for case in cases {
        expect_status_by(rt, alloc, errs, *case);
    }
}

#[test]
fn a_failing_error_output_changes_no_status(rt: HostRuntime) {
    const CASES: [(&str, &str, u8); 9] = [
        ("sort", "", 2),
        ("synth p.txt", "0 1 1 2", 3),
        ("synth p.txt", "0 1 2", 3),
        ("synth p.txt", "", 3),
        ("synth p.txt", "0 4 1 2", 3),
        ("synth p.txt", "0 x 1", 3),
        ("synth q.txt", "", 4),
        ("synth p.txt", "1 0", 4),
        ("embed p.txt", ".i 16\n.o 1\n.e\n", 5),
    ];
    for errs in FAILING_ERRS {
        expect_statuses(&rt, rt.alloc(), errs, &CASES);
    }
}

// Simulates a word and a wrong one.
fn expect_first_answer(rt: &impl Abort, alloc: Global, errs: (u32, u64)) {
    let (circuit, words) = (
        ("c.real", FULL_ADDER.as_bytes()),
        ("w.txt", b"111\n11\n".as_slice()),
    );
    let mut files = files_of(rt, alloc, circuit, words);
    let typed = "simulate c.real w.txt";
    let ended = end_by_errs(rt, alloc, typed, &mut files, 100, errs);
    expect_answer(rt, typed, &ended, 3, b"11\n");
}

#[test]
fn a_failing_error_output_leaves_the_answers(rt: HostRuntime) {
    for errs in FAILING_ERRS {
        expect_first_answer(&rt, rt.alloc(), errs);
    }
}
