// The texts of the libraries' faults. The lines of the program do not rest on them.
use rv_embed::EmbedFault;
use rv_gate::{LabelFault, NameFault, PushFault};
use rv_reader::TextRefusal;
use rv_real::RealFault;
use rv_text::TextFault;
use std::alloc::Global;
use std::fmt::Display;
use std::process::Abort;

fn expect<F: Display>(rt: &impl Abort, alloc: Global, fault: &F, want: &str) {
    let text = format!(in alloc; "{fault}").expect(rt, "a text");
    assert!(rt; text.as_str() == want);
}

#[test]
fn faults_say_what_is_wrong(rt: HostRuntime) {
    let alloc = rt.alloc();
    let fault = TextFault { line: 3, code: 14 };
    expect(&rt, alloc, &fault, "line 3: fault 14");
    expect(&rt, alloc, &TextRefusal::Text(fault), "line 3: fault 14");
    expect(&rt, alloc, &TextRefusal::Mem, "out of memory");
    let fault = RealFault::Text(TextFault { line: 1, code: 16 });
    expect(&rt, alloc, &fault, "line 1: fault 16");
    expect(&rt, alloc, &RealFault::Mem, "out of memory");
    expect(&rt, alloc, &NameFault::Taken(3), "line 3 has the name");
    expect(&rt, alloc, &PushFault::TooManyGates, "too many gates");
    expect(&rt, alloc, &LabelFault::NotALabel, "not a label");
    let wide = EmbedFault::TooManyLines(17);
    expect(&rt, alloc, &wide, "17 lines are more than 16");
}
