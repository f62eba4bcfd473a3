// Long inputs beside short ones. That they take no more memory is shown by `.ci/memory`.
use super::made::*;
use super::*;

#[test]
fn many_words_are_simulated(rt: HostRuntime) {
    let mut words = Parts {
        part: b"100\n",
        times: 1,
        rest: b"",
    };
    let circuit = PERES_AND_FREDKIN.as_bytes();
    let typed = "simulate c.real -";
    let one = status_of_made(&rt, rt.alloc(), typed, words, circuit);
    expect_status(&rt, typed, one, 0);
    words.times = 65536;
    let many = status_of_made(&rt, rt.alloc(), typed, words, circuit);
    expect_status(&rt, typed, many, 0);
}

#[test]
fn a_circuit_is_read_after_many_comments(rt: HostRuntime) {
    let mut circuit = Parts {
        part: b"# full adder\n",
        times: 0,
        rest: FULL_ADDER.as_bytes(),
    };
    let none = status_of_made(&rt, rt.alloc(), "cost", circuit, b"");
    expect_status(&rt, "cost", none, 0);
    circuit.times = 65536;
    let many = status_of_made(&rt, rt.alloc(), "cost", circuit, b"");
    expect_status(&rt, "cost", many, 0);
}
