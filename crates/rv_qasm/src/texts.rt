// Ready texts: a usual operation is written by one text for each of its lines.
ghost use Rattle.std.specs.Prelude.{◌≡◌, ℕ, ◌+◌, ◌<◌, ◌≤◌, ◌++◌, List, codes, length};
ghost use Rattle.rv_gate.specs.declared.word.TheConstants.{MOST_LINES};
ghost use Rattle.rv_io.specs.Writer.{short_bytes};
ghost use Rattle.rv_io.specs.declared.short_text.TheConstants.{SHORT};
ghost use Rattle.rv_qasm.specs.Text.{qubit};
ghost use Rattle.rv_qasm.specs.ReadyTexts.{AreBetween, AreOpTexts};

use rv_gate::MOST_LINES;
use rv_io::ShortText;

const LINES: usize = MOST_LINES as usize;

/// The qubit of each line between two texts.
#[derive(Drop)]
pub(crate) struct Texts {
    texts: [ShortText; LINES],
}

fn joined(first: &[u8], second: &[u8]) -> ShortText
    requires { length first.now + length second.now ≤ SHORT }
    ensures { short_bytes result ≡ first.now ++ second.now }
{
    match ShortText::joined(first, second) {
        Some(text) => text,
        None => unreachable!(),
    }
}

fn qubit_text(line: u8) -> ShortText
    requires { line < MOST_LINES }
    ensures text { short_bytes result ≡ qubit line }
    ensures short { length (qubit line) ≤ 5 }
{
    if line < 10 {
        joined(b"q[", &[b'0' + line, b']'])
    } else {
        joined(b"q[", &[b'0' + line / 10, b'0' + line % 10, b']'])
    }
}

fn text_between(before: &[u8], line: u8, after: &[u8]) -> ShortText
    requires short { length before.now + length after.now ≤ 11 }
    requires line { line < MOST_LINES }
    ensures { short_bytes result ≡ before.now ++ (qubit line ++ after.now) }
{
    let ended = joined(qubit_text(line).as_slice(), after);
    joined(before, ended.as_slice())
}

impl Texts {
    fn between(lines: u8, before: &[u8], after: &[u8]) -> Texts
        requires few { lines ≤ MOST_LINES }
        requires short { length before.now + length after.now ≤ 11 }
        ensures { AreBetween lines before.now after.now result }
    {
        let mut texts = [ShortText::new(); LINES];
        for line in 0..lines {
            texts[usize::from(line)] = text_between(before, line, after);
        }
        Texts { texts }
    }

    pub(crate) fn text(&self, line: u8) -> &ShortText
        requires { line < MOST_LINES }
        ensures { (lines : ℕ) (before after : List ℕ) → AreBetween lines before after self.now → line < lines
            → short_bytes result.now ≡ before ++ (qubit line ++ after) }
    {
        &self.texts[usize::from(line)]
    }
}

/// Ready texts for [`put_statement`](crate::put_statement): those of the usual gates' names with the first qubit, and
/// those of the qubits alone, before a comma and last.
#[derive(Drop)]
pub struct OpTexts {
    pub(crate) x: Texts,
    pub(crate) h: Texts,
    pub(crate) t: Texts,
    pub(crate) tdg: Texts,
    pub(crate) cx: Texts,
    pub(crate) listed: Texts,
    pub(crate) last: Texts,
}

impl OpTexts {
    /// The texts for so many lines.
    pub fn new(lines: u8) -> OpTexts
        requires { lines ≤ MOST_LINES }
        ensures { AreOpTexts lines result }
    {
        OpTexts {
            x: Texts::between(lines, b"x ", b";\n"),
            h: Texts::between(lines, b"h ", b";\n"),
            t: Texts::between(lines, b"t ", b";\n"),
            tdg: Texts::between(lines, b"tdg ", b";\n"),
            cx: Texts::between(lines, b"cx ", b","),
            listed: Texts::between(lines, b"", b","),
            last: Texts::between(lines, b"", b";\n"),
        }
    }
}
