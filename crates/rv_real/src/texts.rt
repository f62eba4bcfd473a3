ghost use Rattle.std.specs.Prelude.{◌≡◌, ◌∷◌, ◌++◌, ◌<◌, ◌≤◌, ℕ, Bool, List, length, IfSome};
ghost use Rattle.rv_gate.specs.declared.word.TheConstants.{MOST_LINES};
ghost use Rattle.rv_io.specs.Writer.{short_bytes};
ghost use Rattle.rv_real.specs.Text.{control_word, name_at};
ghost use Rattle.rv_real.specs.inside.Texts.{AreTexts, AreTextsOf};

use rv_gate::{MOST_LINES, Names};
use rv_io::ShortText;

const LINES: usize = 64;

/// The text of each operand that is short: a space and the name of a line, and the same with `-` before
/// the name.
#[derive(Drop)]
pub(crate) struct Texts {
    plain: [Option<ShortText>; LINES],
    negated: [Option<ShortText>; LINES],
}

impl Texts {
    pub(crate) fn of(names: &Names) -> Texts
        requires { length names.now ≤ MOST_LINES }
        ensures { AreTexts names.now result }
    {
        let mut texts = Texts::none();
        for line in 0..names.len() {
            let name = names.name(line);
            texts.plain[usize::from(line)] = ShortText::joined(b" ", name);
            texts.negated[usize::from(line)] = ShortText::joined(b" -", name);
        }
        texts
    }

    // No text yet.
    fn none() -> Texts
        ensures { (names : List (List ℕ)) → AreTexts names result }
    {
        Texts {
            plain: [None; LINES],
            negated: [None; LINES],
        }
    }

    // The texts of the operands that want such a bit. Chosen at once, so that no branch hangs on the bit.
    fn texts(&self, wanted: bool) -> &[Option<ShortText>; LINES]
        ensures texts { (names : List (List ℕ)) → AreTexts names self.now → AreTextsOf names wanted result.now }
        ensures sized { length result.now ≡ LINES }
    {
        if wanted { &self.plain } else { &self.negated }
    }

    /// The text of an operand, where it is short.
    pub(crate) fn text(&self, line: u8, wanted: bool) -> Option<&ShortText>
        requires { line < MOST_LINES }
        ensures { (names : List (List ℕ)) → AreTexts names self.now
            → IfSome result (λ text. short_bytes text.now ≡ 32 ∷ control_word (name_at names line) wanted) }
    {
        text_on(self.texts(wanted), line)
    }
}

// The text on a line, where it is short.
fn text_on(texts: &[Option<ShortText>; LINES], line: u8) -> Option<&ShortText>
    requires line { line < MOST_LINES }
    requires sized { length texts.now ≡ LINES }
    ensures { (names : List (List ℕ)) (wanted : Bool) → AreTextsOf names wanted texts.now
        → IfSome result (λ text. short_bytes text.now ≡ 32 ∷ control_word (name_at names line) wanted) }
{
    texts[usize::from(line)].as_ref()
}
