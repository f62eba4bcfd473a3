// Networks and their folded networks.
use super::*;
use std::alloc::Global;
use std::process::Abort;

// Registers with a measurement, in which the last phase gate stands on the parity of the first.
const MEASURED: &str = "OPENQASM 2.0;\nqreg a[1];\nqreg b[1];\ncreg c[1];\nt a[0];\nh b[0];\n\
    cx a[0],b[0];\nbarrier a,b;\ncx b[0],a[0];\ncx a[0],b[0];\nt b[0];\nswap a[0],b[0];\n\
    tdg a[0];\nmeasure a -> c;\n";

const JOINED: &str = network!(1, "s q[0];\nx q[0];\nt q[0];\nx q[0];\n");

const KEPT: &str = network!(
    2,
    "t q[0];\nh q[1];\ncx q[0],q[1];\ncx q[1],q[0];\ncx q[0],q[1];\nswap q[0],q[1];\n"
);

// Each operation, on qubits where none joins another.
const EACH_OPERATION: &str = network!(
    64,
    "x q[0];\ny q[1];\nz q[9];\nh q[10];\ns q[63];\nsdg q[2];\nt q[3];\ntdg q[4];\ncx q[5],q[0];\n\
     cz q[0],q[31];\nccx q[7],q[6],q[5];\nswap q[30],q[29];\ncswap q[63],q[0],q[19];\n"
);

// The parities of line 0 and of seven lines, which one slot of a table would hold.
const TWO_PARITIES: &str = network!(
    10,
    "t q[0];\ncx q[4],q[1];\ncx q[5],q[1];\ncx q[6],q[1];\ncx q[7],q[1];\ncx q[8],q[1];\n\
     cx q[9],q[1];\nt q[1];\nt q[0];\nt q[1];\ntdg q[0];\ns q[1];\n"
);

const JOINED_APART: &str = network!(
    10,
    "t q[0];\ncx q[4],q[1];\ncx q[5],q[1];\ncx q[6],q[1];\ncx q[7],q[1];\ncx q[8],q[1];\n\
     cx q[9],q[1];\nz q[1];\n"
);

const FIVE: &str = network!(2, "z q[0];\nt q[0];\nh q[1];\nh q[0];\nt q[0];\n");

#[test]
fn phases_of_one_parity_are_joined(rt: HostRuntime) {
    const CASES: [(&str, &str); 7] = [
        (EACH_OPERATION, EACH_OPERATION),
        (TWO_PARITIES, JOINED_APART),
        // The middle t stands on the complement, and its phase is not joined to those of the other two.
        (
            "OPENQASM 2.0;\nqreg q[1];\nt q[0]; x q[0]; t q[0]; x q[0]; t q[0];",
            JOINED,
        ),
        (MEASURED, KEPT),
        // Across an h of another line phase gates are joined, and across one of their own they are not.
        (
            "OPENQASM 2.0;\nqreg q[2];\nt q[0];\nh q[1];\nz q[0];\nh q[0];\nt q[0];\n",
            FIVE,
        ),
        (
            "OPENQASM 2.0;\nqreg q[1];\nz q[0];\ns q[0];\ns q[0];\n",
            network!(1, ""),
        ),
        ("OPENQASM 2.0;\nqreg q[3];", network!(3, "")),
    ];
    expect_texts(&rt, rt.alloc(), "fold q.qasm", "q.qasm", &CASES);
}

// A network is folded to one with these counts, which is folded to itself.
fn expect_folded(rt: &impl Abort, alloc: Global, network: &[u8], counts: &[u8]) {
    let fold = output_of(rt, alloc, "fold", network);
    expect_lines(
        rt,
        alloc,
        "cost --from qasm",
        ("-", fold.bytes()),
        counts,
        7,
    );
    expect_on(rt, alloc, "fold", fold.bytes(), writes(fold.bytes()));
}

// A Toffoli gate twice: of its 14 T the first and the last of each parity join.
#[test]
fn a_folded_network_has_fewer_t(rt: HostRuntime) {
    let alloc = rt.alloc();
    let twice = typed!(3, "a b c", "t3 a b c\nt3 a b c\n");
    let map = output_of(&rt, alloc, "map", twice.as_bytes());
    let counts = b"lines 3\noperations 30\nt 14\nh 4\ncnot 12\n";
    expect_lines(
        &rt,
        alloc,
        "cost --from qasm",
        ("-", map.bytes()),
        counts,
        7,
    );
    let counts = b"lines 3\noperations 27\nt 8\nh 4\ncnot 12\n";
    expect_folded(&rt, alloc, map.bytes(), counts);
}

#[test]
fn a_folded_network_is_folded_to_itself(rt: HostRuntime) {
    const CASES: [(&str, &str); 5] = [
        (JOINED, JOINED),
        (KEPT, KEPT),
        (FIVE, FIVE),
        (network!(1, ""), network!(1, "")),
        (network!(3, ""), network!(3, "")),
    ];
    expect_texts(&rt, rt.alloc(), "fold", "-", &CASES);
}

#[test]
fn a_network_is_refused_by_its_fault(rt: HostRuntime) {
    const CASES: [(&[u8], &str); 3] = [
        (b"qreg q[2];\nt r[0];\n", "3: unknown register"),
        (b"qreg q[2];\nrz(pi/4) q[0];\n", "3: not supported"),
        (b"creg c[1];", "2: no quantum register"),
    ];
    let version = b"OPENQASM 2.0;\n";
    expect_faults(&rt, rt.alloc(), "fold q.qasm", "q.qasm", version, &CASES);
}
