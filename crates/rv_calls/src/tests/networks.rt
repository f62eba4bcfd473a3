// What a program in OpenQASM tells.
use super::read;
use rv_net::{Net, Op};
use rv_qasm::{Program, QasmReader};
use std::process::Abort;

fn expect_net(rt: &impl Abort, net: &Net) {
    let wanted = [Op::Cx(0, 1), Op::Cx(0, 2), Op::X(2)];
    assert!(rt; net.lines() == 3);
    assert!(rt; net.ops() == wanted.as_slice());
}

fn expect_registers(rt: &impl Abort, program: &Program) {
    assert!(rt; program.measurements() == 2);
    assert!(rt; program.register_count() == 2);
    assert!(rt; program.register_name(1) == b"_r1".as_slice());
    assert!(rt; program.register_size(1) == 2);
}

#[test]
fn a_program_tells_its_registers_and_measurements(rt: HostRuntime) {
    let text =
        b"// one; two\r\nOPENQASM 2.0;include \"qelib1.inc\";\nqreg q[1];creg c[2];//;\nqreg _r1[2];\tcx q[0],_r1;x _r1\n[ 1 ]\n;measure _r1->c;";
    let program = read::<QasmReader>(&rt, rt.alloc(), text).expect(&rt, "a program");
    expect_net(&rt, program.net());
    expect_registers(&rt, &program);
}
