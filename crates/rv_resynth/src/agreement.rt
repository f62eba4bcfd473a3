ghost use Rattle.std.specs.Prelude.{◌≡◌, ℕ, ◌+◌, ◌*◌, ◌<◌, ◌≤◌, Bool, List, length, All, IsTrue, IsFalse, ◌⊎◌};
ghost use Rattle.rv_gate.specs.Word.{has};
ghost use Rattle.rv_gate.specs.declared.word.TheConstants.{MOST_LINES};
ghost use Rattle.rv_many.specs.declared.words.TheConstants.{MOST_WORDS};
ghost use Rattle.rv_gate.specs.Gate.{AllFit};
ghost use Rattle.rv_resynth.specs.Same.{Interchangeable, Differ, width};
ghost use Rattle.rv_resynth.specs.declared.lines.TheConstants.{MOST_WINDOW_LINES};
ghost use Rattle.rv_resynth.specs.inside.Lines.{AgreesAt, Covers, number_on};

use crate::block::{put_in, same_rows};
use crate::lines::{MOST_WINDOW_LINES, block_count};
use rv_gate::{Gate, MOST_LINES};
use rv_many::{Row, run_many};
use rv_search::{list_lines, span};

// Whether both lists make the same of each word of a block.
fn agree_in(old: &[Gate], new: &[Gate], lines: &[u8], block: u32) -> bool
    requires few { length lines.now ≤ MOST_WINDOW_LINES }
    requires within { All (λ line. line < MOST_LINES) lines.now }
    requires old { AllFit MOST_LINES old.now }
    requires new { AllFit MOST_LINES new.now }
    ensures agree { IsTrue result → (word : List Bool) (j : ℕ) → j < MOST_WORDS
        → number_on lines.now word ≡ MOST_WORDS * block + j → AgreesAt old.now new.now lines.now word }
    ensures differ { IsFalse result → Differ old.now new.now }
{
    let mut room_a = [Row { parts: [0; 4] }; MOST_LINES as usize];
    put_in(lines, block, &mut room_a);
    let mut room_b = room_a;
    run_many(old, &mut room_a);
    run_many(new, &mut room_b);
    same_rows(&room_a, &room_b)
}

/// Whether two lists of gates do the same, on any number of lines.
///
/// They are run on all words of the lines that they touch, 256 at once. Lists that touch more than
/// [`MOST_WINDOW_LINES`] lines aren't looked at.
pub fn agree(old: &[Gate], new: &[Gate]) -> bool
    ensures agree { IsTrue result → Interchangeable old.now new.now }
    ensures differ { IsFalse result → (MOST_WINDOW_LINES < width old.now new.now) ⊎ Differ old.now new.now }
{
    let set = span(old) | span(new);
    let mut room = [0u8; MOST_LINES as usize];
    let count = list_lines(set, &mut room);
    if count > MOST_WINDOW_LINES {
        return false;
    }
    let lines = &room[..count];
    for block in 0..block_count(count) {
        if !agree_in(old, new, lines, block) {
            return false;
        }
    }
    true
}
