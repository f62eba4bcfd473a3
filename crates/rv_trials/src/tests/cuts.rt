// Texts that are cut at each byte.
use super::*;
use std::alloc::Global;
use std::process::Abort;

// The status of a run on standard input.
fn status_on(rt: &impl Abort, alloc: Global, typed: &str, input: &[u8]) -> u8 {
    let mut files = file_of(rt, alloc, "-", input);
    status_of(rt, alloc, typed, &mut files)
}

// The status of a run on a text that is cut to this length.
fn expect_cut(rt: &impl Abort, typed: &str, length: usize, got: u8, want: u8) {
    assert_eq!(rt; got, want, "{typed} cut to {length}");
}

// The numbers of a permutation, on two lengths where a blank may follow, and then all of them.
fn expect_numbers(rt: &impl Abort, alloc: Global, typed: &str) {
    let text = b"1 0 3 2 5 7 4 6".as_slice();
    for length in 0..=text.len() {
        let status = match length {
            3 | 4 | 7 | 8 | 15 => 0,
            _ => 3,
        };
        let got = status_on(rt, alloc, typed, &text[..length]);
        expect_cut(rt, typed, length, got, status);
    }
}

#[test]
fn cut_numbers_are_a_permutation_at_five_lengths(rt: HostRuntime) {
    expect_numbers(&rt, rt.alloc(), "synth");
    expect_numbers(&rt, rt.alloc(), "single");
}

// The last line of the full adder may lack its line feed, and nothing else.
fn expect_circuit(rt: &impl Abort, alloc: Global, typed: &str) {
    let text = FULL_ADDER.as_bytes();
    for length in 0..=text.len() {
        let status = if length + 1 < text.len() { 3 } else { 0 };
        let got = status_on(rt, alloc, typed, &text[..length]);
        expect_cut(rt, typed, length, got, status);
    }
}

#[test]
fn a_cut_circuit_is_read_with_its_whole_end(rt: HostRuntime) {
    expect_circuit(&rt, rt.alloc(), "templates");
    expect_circuit(&rt, rt.alloc(), "route");
    expect_circuit(&rt, rt.alloc(), "draw");
}

// The register is the third statement.
fn is_whole(bytes: &[u8]) -> bool {
    let mut ended = 0usize;
    for byte in bytes {
        if *byte == b';' {
            ended = ended.saturating_add(1);
        }
    }
    ended >= 3 && (bytes.ends_with(b";") || bytes.ends_with(b";\n"))
}

fn expect_network(rt: &impl Abort, alloc: Global, typed: &str) {
    let text = FIFTEEN_OPERATIONS.as_bytes();
    for length in 0..=text.len() {
        let bytes = &text[..length];
        let status = if is_whole(bytes) { 0 } else { 3 };
        let got = status_on(rt, alloc, typed, bytes);
        expect_cut(rt, typed, length, got, status);
    }
}

#[test]
fn a_cut_network_is_read_exactly_after_a_statement(rt: HostRuntime) {
    expect_network(&rt, rt.alloc(), "cost --from qasm");
    expect_network(&rt, rt.alloc(), "fold");
    expect_network(&rt, rt.alloc(), "reduce");
}

// The status of the check of a Toffoli gate and a network.
fn status_of_check(rt: &impl Abort, alloc: Global, network: &[u8]) -> u8 {
    let mut files = files_of(
        rt,
        alloc,
        ("c.real", TWO_CONTROLS.as_bytes()),
        ("-", network),
    );
    status_of(rt, alloc, "check c.real", &mut files)
}

// Its network without the last line feed is the same, and each other one that is read is not.
#[test]
fn a_cut_network_is_another_one(rt: HostRuntime) {
    let text = FIFTEEN_OPERATIONS.as_bytes();
    for length in 0..=text.len() {
        let bytes = &text[..length];
        let status = match is_whole(bytes) {
            false => 3,
            true if length + 1 < text.len() => 1,
            true => 0,
        };
        let got = status_of_check(&rt, rt.alloc(), bytes);
        expect_cut(&rt, "check c.real", length, got, status);
    }
}
