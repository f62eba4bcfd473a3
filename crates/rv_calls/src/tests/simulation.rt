// Many words and their answers, over files in memory, and a line that never ends.
use super::{circuit_of, flip};
use rv_gate::Circuit;
use rv_io::{HostFiles, MemFiles, MemSink};
use rv_simulate::{WordsEnd, simulate_words};
use std::alloc::Global;
use std::process::Abort;

// How a text ends whose pieces are this long, and what is sent before.
fn simulated(
    rt: &impl Abort,
    alloc: Global,
    circuit: &Circuit,
    text: &[u8],
    piece: usize,
) -> (WordsEnd, MemSink) {
    let mut files = MemFiles::new(alloc);
    files.add("words", text).expect(rt, "a file");
    files.piece(piece.max(1));
    let mut out = MemSink::new(alloc, 1100).expect(rt, "a sink");
    let end = simulate_words(circuit, false, &mut files, "words", &mut out);
    (end, out)
}

fn many_words(rt: &impl Abort, alloc: Global) -> Vec<u8> {
    let mut text = Vec::new(alloc);
    for _ in 0..131 {
        text.extend_from_slice(b"101\n011\n").expect(rt, "memory");
    }
    text
}

fn expect_many_answers(rt: &impl Abort, answers: &[u8]) {
    assert!(rt; answers.len() == 1048);
    for pair in answers.chunks(8) {
        assert!(rt; pair == b"001\n111\n".as_slice());
    }
}

// So many words and gates that words run side by side.
#[test]
fn many_words_are_answered_as_one_is(rt: HostRuntime) {
    let circuit = circuit_of(&rt, rt.alloc(), 3, &[flip(&rt, 0, 0)], 129);
    let text = many_words(&rt, rt.alloc());
    for piece in [usize::MAX, 100, 4] {
        let (end, out) = simulated(&rt, rt.alloc(), &circuit, &text, piece);
        assert!(rt; end == WordsEnd::Done);
        expect_many_answers(&rt, out.bytes());
    }
}

#[test]
fn a_line_that_never_ends_is_too_long(rt: HostRuntime) {
    let circuit = circuit_of(&rt, rt.alloc(), 3, &[flip(&rt, 0, 0)], 1);
    let mut files = HostFiles::new(&rt);
    let mut out = MemSink::new(rt.alloc(), 100).expect(&rt, "a sink");
    let end = simulate_words(&circuit, false, &mut files, "/dev/zero", &mut out);
    assert!(rt; end == WordsEnd::TooLong);
    assert!(rt; out.bytes().is_empty());
}
