// Lines and their tokens.
use super::expect_true;
use rv_text::token;
use std::alloc::Global;
use std::process::Abort;

fn append(rt: &impl Abort, text: &mut Vec<u8>, part: &[u8]) {
    text.extend_from_slice(part).expect(rt, "memory");
}

// The tokens of a line, each with a mark before it, `"` if it is quoted, and one after it, `?` if it isn't closed.
fn shown(rt: &impl Abort, alloc: Global, line: &[u8], quotes: bool, blanks: &[u8]) -> Vec<u8> {
    let mut seen = Vec::new(alloc);
    let mut at = 0;
    for _ in 0..10 {
        let Some(found) = token(line, line.len().min(at), quotes, blanks) else {
            break;
        };
        append(rt, &mut seen, if found.quoted { b"\"" } else { b"(" });
        append(rt, &mut seen, &line[found.start..found.end]);
        append(rt, &mut seen, if found.closed { b")" } else { b"?" });
        at = found.after();
    }
    seen
}

#[test]
fn tokens_of_lines(rt: HostRuntime) {
    const LINES: [(&str, bool, &str, &str); 9] = [
        ("", true, "", ""),
        (" \t\r", true, "", ""),
        (".begin # t1 a", true, "", "(.begin)"),
        ("t2 a\tb#c\r", true, "", "(t2)(a)(b)"),
        ("\"a #b\" c", true, "", "\"a #b)(c)"),
        ("\"a #b\" c", false, "", "(\"a)"),
        ("\"\"\"a\"b\"c\"", true, "", "\")\"a)(b\"c\")"),
        ("a \"b # ", true, "", "(a)\"b # ?"),
        ("{1, 2}#3", false, ",{}", "(1)(2)"),
    ];
    for (line, quotes, blanks, want) in LINES {
        let seen = shown(&rt, rt.alloc(), line.as_bytes(), quotes, blanks.as_bytes());
        expect_true(&rt, line, seen.as_slice() == want.as_bytes());
    }
}
