// OpenQASM texts and their circuits.
use super::*;

const TOREAL: &str = "toreal q.qasm";

const SEVEN_OPERATIONS: &str = "\
    OPENQASM 2.0;\nqreg q[3];\nx q;\nCX q[2],q[0];\nccx q[2],q[0],q[1];\nswap q[1],q[2];\n\
    cswap q[2],q[0],q[1];\n";

#[test]
fn each_operation_becomes_a_gate(rt: HostRuntime) {
    const CASES: [(&str, &str); 3] = [
        (
            SEVEN_OPERATIONS,
            numbered!(
                3,
                "t1 x0\nt1 x1\nt1 x2\nt2 x2 x0\nt3 x0 x2 x1\nf2 x1 x2\nf3 x2 x0 x1\n"
            ),
        ),
        // A single qubit is repeated.
        (
            "OPENQASM 2.0;\nqreg a[1];\nqreg b[2];\ncx a[0],b;\ncswap a[0],b[0],b[1];\n",
            numbered!(3, "t2 x0 x1\nt2 x0 x2\nf3 x0 x1 x2\n"),
        ),
        ("OPENQASM 2.0;\nqreg q[2];\n", numbered!(2, "")),
    ];
    expect_texts(&rt, rt.alloc(), TOREAL, "q.qasm", &CASES);
}

const COMPILED: &str = "\
    // made by a compiler; x q[0];\nOPENQASM 2.0;\ninclude \"qelib1.inc\";\nqreg q[2];\n\
    qreg ancilla[1];\ncreg c[2];\ncreg meas[1];\nx q[0];\nbarrier q[0],q[1],ancilla[0];\n\
    id q[1];\nccx q[0], q[1], ancilla[0]; // the carry\nbarrier q,ancilla;\n\
    measure q -> c;\nmeasure ancilla[0] -> meas[0];\nbarrier q;\nid q;\n";

#[test]
fn texts_of_other_tools_are_read(rt: HostRuntime) {
    const WITHOUT_BLANKS: &str = "OPENQASM 2.0;include\"qelib1.inc\";qreg q[2];creg c[2];\
x q[0];cx q[0],q[1];measure q[0]->c[0];";
    const MANY_BLANKS: &str = "OPENQASM 2.0;\r\n\r\nqreg a_0[1];\r\nqreg B[1];\r\n\r\n\
cx\ta_0 [0] ,\r\n\tB [ 0 ] ;\r\n";
    // Register names may be words of the language, and sizes and indices may begin with zeros.
    const ODD_NAMES: &str = "OPENQASM 2.0;qreg x[007];qreg U[1];creg gate[999999999];\
swap x[06],U;x x[00000000000];";
    const CASES: [(&str, &str); 4] = [
        (COMPILED, numbered!(3, "t1 x0\nt3 x0 x1 x2\n")),
        (WITHOUT_BLANKS, numbered!(2, "t1 x0\nt2 x0 x1\n")),
        (MANY_BLANKS, numbered!(2, "t2 x0 x1\n")),
        (ODD_NAMES, numbered!(8, "f2 x6 x7\nt1 x0\n")),
    ];
    expect_texts(&rt, rt.alloc(), TOREAL, "q.qasm", &CASES);
}

#[test]
fn an_operation_that_is_not_classical_is_told_by_its_number(rt: HostRuntime) {
    const FIRST: &str = " operation 1 is not classical";
    const CASES: [(&[u8], &str); 8] = [
        (b"y q[0];\nx q;\nh q;\n", FIRST),
        (b"z q[0];\nx q;\nh q;\n", FIRST),
        (b"h q[0];\nx q;\nh q;\n", FIRST),
        (b"s q[0];\nx q;\nh q;\n", FIRST),
        (b"sdg q[0];\nx q;\nh q;\n", FIRST),
        (b"t q[0];\nx q;\nh q;\n", FIRST),
        (b"tdg q[0];\nx q;\nh q;\n", FIRST),
        (b"cz q[0],q[1];\nx q;\nh q;\n", FIRST),
    ];
    let register = b"OPENQASM 2.0;\nqreg q[2];\n";
    expect_faults(&rt, rt.alloc(), TOREAL, "q.qasm", register, &CASES);
}

#[test]
fn each_cause_but_too_many_operations_has_its_text(rt: HostRuntime) {
    const CASES: [(&[u8], &str); 14] = [
        (b"qreg q[2.0];\n", "2: wrong syntax"),
        (b"qreg q[2];\nx r[0];\n", "3: unknown register"),
        (b"qreg q[2];\nx q[2];\n", "3: index out of range"),
        (b"qreg q[2];\ncreg q[2];\n", "3: repeated register"),
        (b"qreg q[2];\nqreg r[63];\n", "3: too many qubits"),
        (
            b"qreg a[2];\nqreg b[3];\ncx a,b;\n",
            "4: register sizes differ",
        ),
        (b"qreg q[2];\ncx q[1],q[1];\n", "3: repeated operand"),
        (b"qreg q[2];\nmcx q[0],q[1];\n", "3: unknown gate"),
        (b"qreg q[2];\nrx(0.5) q[0];\n", "3: not supported"),
        (
            b"qreg a[1];\ncreg c[1];\nmeasure a -> c;\nx a[0];\n",
            "5: gate after measurement",
        ),
        (b"\n", "2: no quantum register"),
        (b"creg c[1];", "2: no quantum register"),
        (b"qreg q[2];\ncx q[0];\n", "3: wrong operand count"),
        (b"qreg q[2];\nx\nq[0]\n", "3: unended statement"),
    ];
    let version = b"OPENQASM 2.0;\n";
    expect_faults(&rt, rt.alloc(), TOREAL, "q.qasm", version, &CASES);
}

#[test]
fn the_first_statement_is_the_version(rt: HostRuntime) {
    const CASES: [(&[u8], &str); 19] = [
        (b"OPENQASM\n3.0;", "1: not supported"),
        (b"OPENQASM 2.0;\n\n//;\n;\n", "4: wrong syntax"),
        (b"OPENQASM 2.0;\ninclude\n\"a;", "2: wrong syntax"),
        (b"OPENQASM 2.0;\nqreg\nq[1.];", "2: wrong syntax"),
        (b"OPENQASM 2.0;qreg q[1];\n\n/", "3: unended statement"),
        (b"OPENQASM 2.0;qreg q[1];\ngate", "2: not supported"),
        (
            b"OPENQASM 2.0;qreg q[1];\nx\nq[1];",
            "2: index out of range",
        ),
        (b"", "0: no OPENQASM 2.0 header"),
        (b"\nx q[0];\n", "2: no OPENQASM 2.0 header"),
        (b"\n// c\n", "2: no OPENQASM 2.0 header"),
        (b";", "1: no OPENQASM 2.0 header"),
        (b"gate x;", "1: no OPENQASM 2.0 header"),
        (b"OPENQASM 2.0 x;", "1: no OPENQASM 2.0 header"),
        (b"openqasm 2.0;", "1: no OPENQASM 2.0 header"),
        // A mark of the order of bytes is no blank.
        (
            b"\xef\xbb\xbfOPENQASM 2.0;\nqreg q[2];\n",
            "1: no OPENQASM 2.0 header",
        ),
        (b"OPENQASM 3.0;", "1: not supported"),
        (b"OPENQASM 2;", "1: not supported"),
        (b"OPENQASM \"2.0;\n", "1: wrong syntax"),
        (b"\nOPENQASM\n2.0", "2: unended statement"),
    ];
    expect_faults(&rt, rt.alloc(), TOREAL, "q.qasm", b"", &CASES);
}

// Two registers on lines 1 and 2, and statements from line 3 on.
const REGISTERS: &[u8] = b"OPENQASM 2.0;\nqreg q[2];creg c[2];\n";

#[test]
fn the_first_rule_that_a_statement_breaks_is_told(rt: HostRuntime) {
    const CASES: [(&[u8], &str); 20] = [
        (b"\n ;", "4: wrong syntax"),
        (b"\ncx\nq[0],\nq[0];", "4: repeated operand"),
        (b"include \"a.inc\";", "3: not supported"),
        (b"include qelib1;", "3: wrong syntax"),
        (b"if(c==1) x q[0];", "3: not supported"),
        (b"if \";", "3: wrong syntax"),
        (b"qreg q[0];", "3: wrong syntax"),
        (b"qreg r[0000000001];", "3: wrong syntax"),
        (b"qreg q[65];", "3: repeated register"),
        (b"x;", "3: wrong operand count"),
        (b"id;", "3: wrong operand count"),
        (b"barrier;", "3: wrong syntax"),
        (b"x q[0],;", "3: wrong syntax"),
        (b"x r,r;", "3: wrong operand count"),
        (b"cx q[2],r;", "3: index out of range"),
        (b"x c;", "3: unknown register"),
        (b"x q[99999999999999999999];", "3: index out of range"),
        (b"measure q;", "3: wrong syntax"),
        (b"measure q -> c[0];", "3: register sizes differ"),
        (b"measure q->c;cx q,q;", "3: repeated operand"),
    ];
    expect_faults(&rt, rt.alloc(), TOREAL, "q.qasm", REGISTERS, &CASES);
}

#[test]
fn bytes_outside_the_language_stand_for_themselves(rt: HostRuntime) {
    const CASES: [(&[u8], &str); 10] = [
        (b"x q[0]\x00;", "3: wrong syntax"),
        (b"\x00;", "3: unknown gate"),
        (b"\xff;", "3: unknown gate"),
        (b"\xc3\xa9 q;", "3: unknown gate"),
        (b"x \xc3\xa9;", "3: wrong syntax"),
        // A vertical tab and a form feed are no blanks.
        (b"x\x0bq[0];", "3: wrong syntax"),
        (b"x q[0]\x0c;", "3: wrong syntax"),
        (b"\x0bx q[0];", "3: unknown gate"),
        (b"\"\xff\n;", "3: wrong syntax"),
        (b"include \"\xff\";", "3: not supported"),
    ];
    expect_faults(&rt, rt.alloc(), TOREAL, "q.qasm", REGISTERS, &CASES);
    // In a comment any byte may stand.
    let comment = b"//\x00\x0b\xff;\xef\xbb\xbf\nx q[0];";
    let commented = repeated(&rt, rt.alloc(), REGISTERS, comment, 1, b"");
    let circuit = writes(numbered!(2, "t1 x0\n").as_bytes());
    expect_on(&rt, rt.alloc(), "toreal", &commented, circuit);
}

#[test]
fn an_unended_statement_has_the_rules_of_quotes_and_names_alone(rt: HostRuntime) {
    const CASES: [(&[u8], &str); 5] = [
        (b"foo", "3: unended statement"),
        (b"include \"a.inc\"", "3: unended statement"),
        (b"\nreset q", "4: not supported"),
        (b"x q[0];x \"q;\n", "3: wrong syntax"),
        (b"x r;U", "3: unknown register"),
    ];
    expect_faults(&rt, rt.alloc(), TOREAL, "q.qasm", REGISTERS, &CASES);
}
