// A text in the `.real` format with each kind of gate.
use super::read;
use rv_gate::{Circuit, Gate, Mark, Shape};
use rv_real::RealReader;
use std::process::Abort;

fn expect_marks(rt: &impl Abort, circuit: &Circuit) {
    assert!(rt; circuit.line_count() == 4);
    assert!(rt; circuit.input_label(3) == b"0 # in".as_slice());
    assert!(rt; circuit.output_label(3) == b"d".as_slice());
    assert!(rt; circuit.constant(3) == Mark::Zero);
    assert!(rt; circuit.garbage(2) && !circuit.garbage(3));
}

fn expect_shapes(rt: &impl Abort, gates: &[Gate], wanted: &[Shape]) {
    assert!(rt; gates.len() == wanted.len());
    for (gate, want) in gates.iter().zip(wanted) {
        assert!(rt; gate.shape() == *want);
    }
}

#[test]
fn each_kind_of_gate_is_read_with_the_marks_of_the_lines(rt: HostRuntime) {
    let text =
        b"# adder\r\n.inputbus x 2\n.numvars 4\n\n.variables a b c d\n.inputs a b c \"0 # in\"\r\n.constants -- -0\n.garbage 1-1-\n.begin\nt3 a b d\n\tt2 a b\r\nt3 b -c d# \"\nt2 b c\np a b d\nf3 -d a b\n.end x\n#\"";
    let wanted = [
        Shape::Flip {
            care: 0b0011,
            want: 0b0011,
            target: 3,
        },
        Shape::Flip {
            care: 0b0001,
            want: 0b0001,
            target: 1,
        },
        Shape::Flip {
            care: 0b0110,
            want: 0b0010,
            target: 3,
        },
        Shape::Flip {
            care: 0b0010,
            want: 0b0010,
            target: 2,
        },
        Shape::Peres { a: 0, b: 1, c: 3 },
        Shape::Swap {
            care: 0b1000,
            want: 0,
            a: 0,
            b: 1,
        },
    ];
    let circuit = read::<RealReader>(&rt, rt.alloc(), text).expect(&rt, "a circuit");
    expect_marks(&rt, &circuit);
    expect_shapes(&rt, circuit.gates(), &wanted);
}
