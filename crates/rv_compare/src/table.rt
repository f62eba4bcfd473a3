ghost use Rattle.std.specs.Prelude.{ℕ, ◌≡◌, ◌+◌, ◌*◌, ◌^◌, ◌<◌, ◌≤◌, ◌↔◌, length};
ghost use Rattle.std.specs.Bool.{Decides};
ghost use Rattle.rv_gate.specs.Gate.{run};
ghost use Rattle.rv_gate.specs.Word.{bit_of, word_of};
ghost use Rattle.rv_many.specs.Column.{column};
ghost use Rattle.rv_many.specs.declared.words.TheConstants.{MOST_WORDS};
ghost use Rattle.rv_pla.specs.FreeEntries.{IsAllowed, allows};
ghost use Rattle.rv_embed.specs.Realizes.{Realizes};
ghost use Rattle.rv_compare.specs.Compare.{GivesAllowed, TableAnswer, asked, size_for, table_answer};
ghost use Rattle.rv_compare.specs.declared.comparison.Comparison.{Comparison as AnyComparison};
ghost use Rattle.rv_compare.specs.declared.comparison.Comparison.TheVariants.{Same};

use crate::block::{BLOCK, give_outputs};
use crate::comparison::Comparison;
use crate::sides::{Other, compare};
use rv_gate::{Circuit, MOST_LINES};
use rv_many::Row;
use rv_pla::{Entry, Pla};

// Whether a bit may stand at an entry.
fn allows(entry: Entry, bit: bool) -> bool
    ensures { result ≡ allows entry bit }
{
    match entry {
        Entry::One => bit,
        Entry::Zero => !bit,
        Entry::Free => true,
    }
}

// Whether the word of a place may stand at the input word with a number.
fn is_allowed(pla: &Pla, input: u32, rows: &[Row], place: usize) -> bool
    requires outputs { length rows.now ≡ pla.now.outputs }
    requires input { input < 2 ^ pla.now.inputs }
    requires place { place < MOST_WORDS }
    ensures { Decides result (IsAllowed pla.now (word_of pla.now.inputs input) (bit_of (column rows.now place))) }
{
    for output in 0..pla.outputs() {
        if !allows(
            pla.value(input, output),
            rows[usize::from(output)].bit(place),
        ) {
            return false;
        }
    }
    true
}

impl Other for Pla {
    ghost size = { λ all other. size_for other };

    ghost Agrees = { λ all other circuit. GivesAllowed (asked all circuit) other };

    ghost room = { λ other. 0 };

    fn inputs(&self, _all: bool) -> u32 {
        u32::from(self.inputs())
    }

    fn outputs(&self, _all: bool) -> u32 {
        u32::from(self.outputs())
    }

    fn first_apart(
        &self,
        circuit: &Circuit,
        all: bool,
        block: u32,
        count: u32,
        _rows: &mut [Row],
    ) -> Option<u32> {
        let mut room = [Row::ones(); MOST_LINES as usize];
        let rows = &mut room[..usize::from(circuit.line_count())];
        let kept = give_outputs(circuit, all, block, rows);
        for place in 0..count {
            if !is_allowed(self, block * BLOCK + place, &rows[..kept], place as usize) {
                return Some(place);
            }
        }
        None
    }
}

/// Compares the function of a circuit with a table: at each input word the circuit must give a word that the
/// table allows. With `all`, the inputs and outputs of the circuit are all its lines.
pub fn compare_table(circuit: &Circuit, pla: &Pla, all: bool) -> Comparison
    ensures exact { (answer : AnyComparison) → (result ≡ answer) ↔ TableAnswer (asked all circuit.now) pla.now answer }
    ensures value { result ≡ table_answer (asked all circuit.now) pla.now }
    ensures realizes { (result ≡ Same)
        ↔ Realizes pla.now (run circuit.now.gates) (asked all circuit.now).constants (asked all circuit.now).garbage }
{
    circuit.recall_invariant();
    // What it ensures tells what every table keeps.
    let _ = pla.inputs();
    compare(circuit, pla, all, &mut [])
}
