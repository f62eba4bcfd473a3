ghost use Rattle.std.specs.Prelude.{ℕ, ◌≡◌, ◌+◌, ◌*◌, ◌<◌, ◌≤◌, ◌↔◌, length, take};
ghost use Rattle.rv_gate.specs.Word.{word_of};
ghost use Rattle.rv_many.specs.Column.{column};
ghost use Rattle.rv_many.specs.declared.words.TheConstants.{MOST_WORDS};
ghost use Rattle.rv_perm.specs.Perm.{Computes, permuted};
ghost use Rattle.rv_compare.specs.Compare.{GivesImage, IsOnAllLines, PermAnswer, asked, asked_perm, function_by};
ghost use Rattle.rv_compare.specs.Compare.{perm_answer, size_by};
ghost use Rattle.rv_compare.specs.declared.comparison.Comparison.{Comparison as AnyComparison};
ghost use Rattle.rv_compare.specs.declared.comparison.Comparison.TheVariants.{Same};

use crate::block::{agreement, first_zero, give_outputs, keep_outputs, put_in};
use crate::comparison::Comparison;
use crate::marks::{inputs_in, outputs_in, perm_constants, perm_garbage};
use crate::sides::{Other, compare};
use rv_gate::{Circuit, MOST_LINES, Word};
use rv_many::{MOST_WORDS, Row, set_rows, word_of};
use rv_perm::{MOST_PERM_LINES, Perm, PermSpec};

// The word to which a permutation takes a word.
fn image(perm: &Perm, word: Word) -> Word
    requires { length word ≡ perm.now.lines }
    ensures { result ≡ permuted perm.now word }
{
    let lines = perm.lines();
    let image = perm.get(word.number() as u32);
    let Some(image) = Word::new(lines, u64::from(image)) else {
        unreachable!()
    };
    image
}

// Takes the word of each place to its image.
fn permute(perm: &Perm, rows: &mut [Row])
    requires { length rows.old ≡ perm.now.lines }
    ensures lines { length rows.new ≡ length rows.old }
    ensures words { (j : ℕ) → j < MOST_WORDS → column rows.new j ≡ permuted perm.now (column rows.old j) }
{
    perm.recall_invariant();
    let mut words = [word_of(rows, 0); MOST_WORDS];
    for place in 0..MOST_WORDS {
        words[place] = image(perm, word_of(rows, place));
    }
    set_rows(&words, rows);
}

// Sets the first rows to what the function of a permutation gives at the words of a block. Says how many these are.
fn give_images(spec: &PermSpec, all: bool, block: u32, rows: &mut [Row]) -> usize
    requires { length rows.old ≡ spec.now.table.lines }
    ensures lines { length rows.new ≡ length rows.old }
    ensures count { result ≡ (size_by (asked_perm all spec.now)).outputs }
    ensures within { result ≤ length rows.old }
    ensures words { (j : ℕ) → j < MOST_WORDS → column (take result rows.new) j
        ≡ function_by (asked_perm all spec.now)
        (word_of (size_by (asked_perm all spec.now)).inputs (MOST_WORDS * block + j)) }
{
    spec.recall_invariant();
    put_in(perm_constants(spec, all), block, rows);
    permute(spec.perm(), rows);
    keep_outputs(perm_garbage(spec, all), rows)
}

impl Other for PermSpec {
    ghost size = { λ all other. size_by (asked_perm all other) };

    ghost Agrees = { λ all other circuit. GivesImage (asked all circuit) (asked_perm all other) };

    ghost room = { λ other. 0 };

    fn inputs(&self, all: bool) -> u32 {
        self.recall_invariant();
        u32::from(inputs_in(perm_constants(self, all)))
    }

    fn outputs(&self, all: bool) -> u32 {
        self.recall_invariant();
        u32::from(outputs_in(perm_garbage(self, all)))
    }

    fn first_apart(
        &self,
        circuit: &Circuit,
        all: bool,
        block: u32,
        count: u32,
        _rows: &mut [Row],
    ) -> Option<u32> {
        self.recall_invariant();
        let mut room_a = [Row::ones(); MOST_LINES as usize];
        let mut room_b = [Row::ones(); MOST_PERM_LINES as usize];
        let rows_a = &mut room_a[..usize::from(circuit.line_count())];
        let rows_b = &mut room_b[..usize::from(self.perm().lines())];
        let kept_a = give_outputs(circuit, all, block, rows_a);
        let kept_b = give_images(self, all, block, rows_b);
        first_zero(agreement(&rows_a[..kept_a], &rows_b[..kept_b]), count)
    }
}

/// Compares the functions of a circuit and of a permutation, each by its marks, on all input words; with `all`, on
/// all their lines, without marks.
pub fn compare_perm(circuit: &Circuit, spec: &PermSpec, all: bool) -> Comparison
    ensures exact { (answer : AnyComparison) → (result ≡ answer)
        ↔ PermAnswer (asked all circuit.now) (asked_perm all spec.now) answer }
    ensures value { result ≡ perm_answer (asked all circuit.now) (asked_perm all spec.now) }

    // On all lines they are the same if the gates compute the permutation.
    ensures computes { IsOnAllLines all circuit.now spec.now
        → (result ≡ Same)
        ↔ ((length circuit.now.names ≡ spec.now.table.lines)
        × Computes spec.now.table.lines circuit.now.gates spec.now.table.images) }
{
    circuit.recall_invariant();
    spec.recall_invariant();
    compare(circuit, spec, all, &mut [])
}
