// The greatest counts that are accepted, beside the refused ones.
use super::*;
use rv_cube::CubeList;
use rv_esop::{EsopFault, cascade};
use rv_gate::{MOST_GATES, MOST_LINES, NameFault, Names};
use rv_pla::{Pla, PlaReader, TextReader};
use std::alloc::Global;
use std::process::Abort;

// A circuit on so many lines of a flip of the last of the first ones, under the others.
fn flip_over(rt: &impl Abort, alloc: Global, lines: u32, touched: u32) -> String {
    let first = names(rt, alloc, touched);
    let gate = format!(in alloc; "t{touched} {first}\n").expect(rt, "memory");
    circuit_on(rt, alloc, lines, &gate)
}

// Runs what is typed over the flip of so many lines, and writes so many lines, which begin so.
fn expect_flip(
    rt: &impl Abort,
    alloc: Global,
    words: &str,
    (lines, touched): (u32, u32),
    header: &[u8],
    count: usize,
) {
    let circuit = flip_over(rt, alloc, lines, touched);
    expect_lines(rt, alloc, words, ("-", circuit.as_bytes()), header, count);
}

// Runs what is typed over the flip of so many lines: the status, and what is told.
fn expect_told(
    rt: &impl Abort,
    alloc: Global,
    words: &str,
    (lines, touched): (u32, u32),
    status: u8,
    tells: &str,
) {
    let circuit = flip_over(rt, alloc, lines, touched);
    expect_on(rt, alloc, words, circuit.as_bytes(), told(status, tells));
}

// A flip with so many controls is split at a helper line: twice over half the controls, and twice over the others and
// the helper. A flip with m controls over lines enough is 4 * (m - 2) gates.
#[test]
fn a_decomposition_has_as_many_as_64_lines(rt: HostRuntime) {
    let alloc = rt.alloc();
    // 16 and 16 controls, and 31 and 32.
    let (less, most) = (8 + 2 * (56 + 56) + 1, 8 + 2 * (116 + 120) + 1);
    let header = b".version 2.0\n.numvars 33\n";
    expect_flip(&rt, alloc, "decompose", (32, 32), header, less);
    let header = b".version 2.0\n.numvars 64\n";
    expect_flip(&rt, alloc, "decompose", (63, 63), header, most);
    let refused = "-: 65 lines are more than 64";
    let clean = "-: 125 lines are more than 64";
    expect_told(&rt, alloc, "decompose", (64, 64), 5, refused);
    expect_told(&rt, alloc, "decompose --aux clean", (64, 64), 5, clean);
    expect_told(&rt, alloc, "map", (64, 64), 5, refused);
}

// A flip with m controls takes m - 2 lines that hold 0, and 2 * m - 3 gates.
#[test]
fn a_decomposition_over_clean_lines_has_as_many_as_64(rt: HostRuntime) {
    let alloc = rt.alloc();
    // 32 controls, and 30 lines beside 34 and 35.
    let words = "decompose --aux clean";
    let header = b".version 2.0\n.numvars 64\n";
    expect_flip(&rt, alloc, words, (34, 33), header, 8 + 61 + 1);
    expect_told(
        &rt,
        alloc,
        words,
        (35, 33),
        5,
        "-: 65 lines are more than 64",
    );
}

// A text of a part so many times over, between a first and a last part.
#[derive(Clone, Copy)]
struct Long<'a> {
    first: &'a [u8],
    part: &'a [u8],
    count: usize,
    last: &'a [u8],
}

fn long_text(rt: &impl Abort, alloc: Global, long: Long) -> Vec<u8> {
    repeated(rt, alloc, long.first, long.part, long.count, long.last)
}

// Runs what is typed over such a text: the status, and what is told.
fn expect_long(rt: &impl Abort, alloc: Global, words: &str, long: Long, status: u8, tells: &str) {
    let text = long_text(rt, alloc, long);
    expect_on(rt, alloc, words, &text, told(status, tells));
}

// Runs what is typed over such a text, and writes so many lines, which begin so.
fn expect_long_lines(
    rt: &impl Abort,
    alloc: Global,
    words: &str,
    long: Long,
    header: &[u8],
    lines: usize,
) {
    let text = long_text(rt, alloc, long);
    expect_lines(rt, alloc, words, ("-", &text), header, lines);
}

// A circuit on five lines of so many flips, by the text of one.
fn flips_on_five_lines(part: &[u8], count: usize) -> Long<'_> {
    Long {
        first: b".numvars 5\n.variables a b c d e\n.begin\n",
        part,
        count,
        last: b".end\n",
    }
}

// A network of as many operations on each of 64 qubits, and then the last ones.
fn operations_on_64_qubits(count: usize, last: &[u8]) -> Long<'_> {
    Long {
        first: b"OPENQASM 2.0;\nqreg q[64];\n",
        part: b"x q;\n",
        count,
        last,
    }
}

#[test]
fn a_decomposition_has_as_many_as_1048576_gates(rt: HostRuntime) {
    let alloc = rt.alloc();
    let most = flips_on_five_lines(b"t4 a b c d\n", 262144);
    let more = flips_on_five_lines(b"t4 a b c d\n", 262145);
    let refused = "-: 1048580 gates are more than 1048576";
    let header = b".version 2.0\n.numvars 5\n";
    expect_long_lines(&rt, alloc, "decompose", most, header, 8 + 1048576 + 1);
    expect_long(&rt, alloc, "decompose", more, 5, refused);
    // The gates are refused before the operations.
    expect_long(&rt, alloc, "map", more, 5, refused);
}

#[test]
fn a_mapping_has_at_most_4194304_operations(rt: HostRuntime) {
    let alloc = rt.alloc();
    let most = flips_on_five_lines(b"t3 a b c\n", 279620);
    let more = flips_on_five_lines(b"t3 a b c\n", 279621);
    let header = network!(5, "h q[2];\n").as_bytes();
    expect_long_lines(&rt, alloc, "map", most, header, 3 + 4194300);
    let refused = "-: 4194315 operations are more than 4194304";
    expect_long(&rt, alloc, "map", more, 5, refused);
}

#[test]
fn a_network_has_as_many_as_4194304_operations(rt: HostRuntime) {
    let alloc = rt.alloc();
    let most = operations_on_64_qubits(65536, b"");
    let more = operations_on_64_qubits(65536, b"x q[0];\n");
    let report = network_report!(64, 4194304, 0, 0, 0, 65536, 0);
    expect_long(&rt, alloc, "cost --from qasm", most, 0, report);
    let header = network!(64, "x q[0];\n").as_bytes();
    expect_long_lines(&rt, alloc, "fold", most, header, 3 + 4194304);
    let refused = "-:65539: too many operations";
    expect_long(&rt, alloc, "toreal", more, 3, refused);
    expect_long(&rt, alloc, "fold", more, 3, refused);
}

#[test]
fn a_network_of_as_many_as_1048576_operations_becomes_a_circuit(rt: HostRuntime) {
    let alloc = rt.alloc();
    let most = operations_on_64_qubits(16384, b"");
    let more = operations_on_64_qubits(16384, b"x q[0];\n");
    let header = b".version 2.0\n.numvars 64\n";
    expect_long_lines(&rt, alloc, "toreal", most, header, 8 + 1048576 + 1);
    let refused = "-: 1048577 gates are more than 1048576";
    expect_long(&rt, alloc, "toreal", more, 5, refused);
}

// A circuit on one line of so many flips without controls.
fn flips(count: usize) -> Long<'static> {
    Long {
        first: b".numvars 1\n.variables a\n.begin\n",
        part: b"t1 a\n",
        count,
        last: b".end\n",
    }
}

#[test]
fn a_circuit_has_as_many_as_1048576_gates(rt: HostRuntime) {
    let alloc = rt.alloc();
    let report = circuit_report!(1, 1048576, 0, 1048576, 1048576);
    expect_long(&rt, alloc, "cost", flips(MOST_GATES), 0, report);
    let refused = "-:1048580: too many gates";
    expect_long(&rt, alloc, "cost", flips(MOST_GATES + 1), 3, refused);
}

fn pla_of(rt: &impl Abort, alloc: Global, text: &[u8]) -> Pla {
    assert!(rt; text.len() <= 2_000_000);
    let mut reader = PlaReader::new(alloc);
    reader.feed(text).expect(rt, "terms");
    reader.finish().expect(rt, "a PLA")
}

// The list of so many terms, each with all of 16 outputs.
fn list_of_terms(rt: &impl Abort, alloc: Global, count: usize) -> CubeList {
    let first = b".i 1\n.o 16\n.type esop\n";
    let text = repeated(rt, alloc, first, b"1 1111111111111111\n", count, b".e\n");
    let pla = pla_of(rt, alloc, &text);
    CubeList::from_pla(alloc, &pla).expect(rt, "memory")
}

// How many gates the cascade of so many terms has, or why there is none.
fn cascade_of_terms(rt: &impl Abort, alloc: Global, count: usize) -> Result<usize, EsopFault> {
    let list = list_of_terms(rt, alloc, count);
    match cascade(alloc, &list) {
        Ok(circuit) => Ok(circuit.gates().len()),
        Err(fault) => Err(fault),
    }
}

fn expect_cascade(rt: &impl Abort, alloc: Global, count: usize, want: Result<usize, EsopFault>) {
    assert!(rt; cascade_of_terms(rt, alloc, count) == want);
}

#[test]
fn a_cascade_has_as_many_as_1048576_gates(rt: HostRuntime) {
    expect_cascade(&rt, rt.alloc(), 65536, Ok(1048576));
    let refused = Err(EsopFault::TooManyGates(1048592));
    expect_cascade(&rt, rt.alloc(), 65537, refused);
}

fn symbol(digit: u32) -> u8 {
    match digit % 3 {
        0 => b'0',
        1 => b'1',
        _ => b'-',
    }
}

// A term of 16 inputs that has all 16 outputs. Twelve inputs are the digits of the number to the base 3, and four check
// these as in a Hamming code, so two such terms differ in three inputs at least, and no step joins them.
fn push_term(rt: &impl Abort, text: &mut Vec<u8>, number: u32) {
    let checks: [(usize, usize, u32); 12] = [
        (0, 1, 1),
        (0, 1, 2),
        (0, 2, 1),
        (0, 2, 2),
        (0, 3, 1),
        (0, 3, 2),
        (1, 2, 1),
        (1, 2, 2),
        (1, 3, 1),
        (1, 3, 2),
        (2, 3, 1),
        (2, 3, 2),
    ];
    let mut sums = [0u32; 4];
    let mut rest = number;
    for (p, q, factor) in checks {
        let digit = rest % 3;
        rest /= 3;
        append(rt, text, &[symbol(digit)]);
        sums[p % 4] = sums[p % 4].wrapping_add(digit);
        sums[q % 4] = sums[q % 4].wrapping_add(digit.wrapping_mul(factor));
    }
    for sum in sums {
        append(rt, text, &[symbol(sum)]);
    }
    append(rt, text, b" 1111111111111111\n");
}

// So many such terms, each other than the others.
fn terms_apart(rt: &impl Abort, alloc: Global, count: u32) -> Vec<u8> {
    let mut text = Vec::new(alloc);
    append(rt, &mut text, b".i 16\n.o 16\n.type esop\n");
    for number in 0..count {
        push_term(rt, &mut text, number);
    }
    text
}

// No step reduces the list.
#[test]
fn a_cascade_of_more_gates_is_refused_with_their_number(rt: HostRuntime) {
    let text = terms_apart(&rt, rt.alloc(), 65537);
    let refused = fails(5, "-: 1048592 gates are more than 1048576");
    expect_on(&rt, rt.alloc(), "esop", &text, refused);
}

fn expect_push(rt: &impl Abort, names: &mut Names, name: &[u8], want: Result<(), NameFault>) {
    assert!(rt; names.push(name) == want);
}

#[test]
fn a_list_has_as_many_as_64_names(rt: HostRuntime) {
    let mut names = Names::numbered(rt.alloc(), b'x', MOST_LINES - 1).expect(&rt, "memory");
    expect_push(&rt, &mut names, b"last", Ok(()));
    expect_push(&rt, &mut names, b"more", Err(NameFault::TooMany));
    expect_true(&rt, "64", names.len() == 64);
}

// The numbers from 0 on, each after a space.
fn numbers(rt: &impl Abort, alloc: Global, count: u32) -> String {
    let mut text = String::new(alloc);
    for number in 0..count {
        push_number(rt, alloc, &mut text, " ", number);
    }
    text
}

#[test]
fn a_permutation_has_as_many_as_65536_numbers(rt: HostRuntime) {
    let alloc = rt.alloc();
    let most = numbers(&rt, alloc, 65536);
    let header = b".version 2.0\n.numvars 16\n";
    expect_lines(&rt, alloc, "synth", ("-", most.as_bytes()), header, 8 + 1);
    let more = numbers(&rt, alloc, 131072);
    let line = "-: 131072 numbers are no power of two from 2 to 65536";
    expect_on(&rt, alloc, "synth", more.as_bytes(), fails(3, line));
}

// Each word of 15 inputs has the same output word, so 15 lines tell them apart.
#[test]
fn an_embedding_has_as_many_as_16_lines(rt: HostRuntime) {
    let most = ("-", b".i 15\n.o 1\n.e\n".as_slice());
    let header = b".constants ---------------0\n.garbage -111111111111111\n0 32768 1 32769 2 ";
    expect_lines(&rt, rt.alloc(), "embed", most, header, 2 + 65536 / 16);
    let refused = fails(5, "-: 17 lines are more than 16");
    expect_on(&rt, rt.alloc(), "embed", b".i 16\n.o 1\n.e\n", refused);
}

// A PLA of as many equal terms, which go by pairs.
fn terms(count: usize) -> Long<'static> {
    Long {
        first: b".i 1\n.o 1\n.type esop\n",
        part: b"1 1\n",
        count,
        last: b".e\n",
    }
}

#[test]
fn a_pla_has_as_many_as_1048576_terms(rt: HostRuntime) {
    let alloc = rt.alloc();
    let no_cubes = ".i 1\n.o 1\n.type esop\n.p 0\n.e\n";
    expect_long(&rt, alloc, "esop --to pla", terms(1048576), 0, no_cubes);
    let refused = "-:1048580: too many terms";
    expect_long(&rt, alloc, "esop", terms(1048577), 3, refused);
}

#[test]
fn a_pla_has_as_many_as_16_inputs_and_16_outputs(rt: HostRuntime) {
    const CASES: [(&str, &str, u8, &str); 2] = [
        (
            "esop",
            ".i 17\n.o 1\n.e\n",
            3,
            "-:1: too many inputs or outputs",
        ),
        (
            "esop",
            ".i 1\n.o 17\n.e\n",
            3,
            "-:2: too many inputs or outputs",
        ),
    ];
    let most = b".i 16\n.o 16\n.type esop\n1111111111111111 1111111111111111\n.e\n";
    let header = b".i 16\n.o 16\n.type esop\n.p 1\n";
    expect_lines(&rt, rt.alloc(), "esop --to pla", ("-", most), header, 6);
    expect_each(&rt, rt.alloc(), &CASES);
}

// A flip with 63 controls costs 2 ^ 64 - 3.
#[test]
fn a_circuit_has_as_many_as_64_lines(rt: HostRuntime) {
    let alloc = rt.alloc();
    let report = circuit_report!(64, 1, 63, 18446744073709551613, 1);
    expect_told(&rt, alloc, "cost", (64, 64), 0, report);
    expect_told(&rt, alloc, "cost", (65, 65), 3, "-:1: too many lines");
}

#[test]
fn a_network_has_as_many_as_64_qubits(rt: HostRuntime) {
    let alloc = rt.alloc();
    let most = operations_on_64_qubits(1, b"");
    let more = operations_on_64_qubits(1, b"qreg r[1];\n");
    let header = b".version 2.0\n.numvars 64\n";
    expect_long_lines(&rt, alloc, "toreal", most, header, 8 + 64 + 1);
    expect_long(&rt, alloc, "toreal", more, 3, "-:4: too many qubits");
}

#[test]
fn a_generated_permutation_has_as_many_as_8_lines(rt: HostRuntime) {
    const CASES: [(&str, &str, u8, &str); 2] = [
        ("demo --lines 9", "", 2, "bad value for --lines"),
        ("demo --seed 65536", "", 2, "bad value for --seed"),
    ];
    let words = "demo --lines 8 --seed 65535";
    let header = b"lines 8\nseed 65535\n";
    expect_lines(&rt, rt.alloc(), words, ("-", b""), header, 9);
    expect_each(&rt, rt.alloc(), &CASES);
}
