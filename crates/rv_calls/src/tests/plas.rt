// The sizes, terms and entries of a PLA.
use super::read;
use rv_pla::{Cube, Entry, Kind, PlaReader};

#[test]
fn sizes_and_terms(rt: HostRuntime) {
    let text = b".p 2\n.i 2\n.ilb a b\n.o 1\n1- 1\n-1 1\n.e\n.x";
    let pla = read::<PlaReader>(&rt, rt.alloc(), text).expect(&rt, "a PLA");
    assert!(rt; pla.inputs() == 2);
    assert!(rt; pla.outputs() == 1);
    assert!(rt; pla.kind() == Kind::Fd);
    assert!(rt; pla.term_count() == 2);
    assert!(rt; pla.value(2, 0) == Entry::One);
    let want = Cube {
        care: 2,
        want: 2,
        outs: 1,
    };
    assert!(rt; pla.ones(1) == want);
}
