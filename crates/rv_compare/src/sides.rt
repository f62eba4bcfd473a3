// A circuit compared with any other side.
ghost use Rattle.std.specs.Prelude.{ℕ, ◌≡◌, ◌+◌, ◌*◌, ◌^◌, ◌≤◌, Bool, List, None, length, IfSome};
ghost use Rattle.rv_gate.specs.Circuit.{Cascade};
ghost use Rattle.rv_gate.specs.Word.{word_of};
ghost use Rattle.rv_many.specs.declared.words.TheConstants.{MOST_WORDS};
ghost use Rattle.rv_compare.specs.Compare.{IsAnswer, Size, asked, size_of};
ghost use Rattle.rv_compare.specs.inside.Least.{IsFirstFailing};
ghost use Rattle.rv_compare.specs.declared.comparison.TheConstants.{MOST_INPUTS};

use crate::block::{BLOCK, word_count};
use crate::comparison::Comparison;
use crate::marks::{input_count, output_count};
use rv_gate::Circuit;
use rv_many::Row;

/// What a circuit is compared with, by its marks or on all lines.
pub(crate) trait Other {
    /// How many bits it takes and gives.
    ghost size: { Bool → Self → Size };

    /// A circuit agrees with it at an input word.
    ghost Agrees: { Bool → Self → Cascade → List Bool → Type 0 };

    /// How many rows it needs to work on.
    ghost room: { Self → ℕ };

    fn inputs(&self, all: bool) -> u32
        ensures { result ≡ (size all self.now).inputs };

    fn outputs(&self, all: bool) -> u32
        ensures { result ≡ (size all self.now).outputs };

    /// The first of so many words of a block at which a circuit of this size doesn't agree.
    fn first_apart(
        &self,
        circuit: &Circuit,
        all: bool,
        block: u32,
        count: u32,
        rows: &mut [Row],
    ) -> Option<u32>
        requires room { length rows.old ≡ room self.now }
        requires inputs { (size_of (asked all circuit.now)).inputs ≡ (size all self.now).inputs }
        requires outputs { (size_of (asked all circuit.now)).outputs ≡ (size all self.now).outputs }
        requires few { count ≤ MOST_WORDS }
        requires words { MOST_WORDS * block + count ≤ 2 ^ (size all self.now).inputs }
        requires small { (size all self.now).inputs ≤ MOST_INPUTS }
        ensures room { length rows.new ≡ length rows.old }
        ensures first { IsFirstFailing count
            (λ j. Agrees all self.now circuit.now
            (word_of (size_of (asked all circuit.now)).inputs (MOST_WORDS * block + j))) result };
}

/// Compares sides of one size on all words.
pub(crate) fn compare_words<T: Other>(
    circuit: &Circuit,
    other: &T,
    all: bool,
    inputs: u8,
    rows: &mut [Row],
) -> Comparison
    requires room { length rows.old ≡ T.room other.now }
    requires inputs { inputs ≡ (size_of (asked all circuit.now)).inputs }
    requires same_inputs { inputs ≡ (T.size all other.now).inputs }
    requires outputs { (size_of (asked all circuit.now)).outputs ≡ (T.size all other.now).outputs }
    requires few { inputs ≤ MOST_INPUTS }
    ensures { IsAnswer (size_of (asked all circuit.now)) (T.size all other.now)
        (T.Agrees all other.now circuit.now) result }
{
    let words = word_count(inputs);
    for block in 0..words.div_ceil(BLOCK) {
        let first = block * BLOCK;
        let count = BLOCK.min(words - first);
        if let Some(place) = other.first_apart(circuit, all, block, count, rows) {
            return Comparison::Differs(u64::from(first + place));
        }
    }
    Comparison::Same
}

/// The numbers of inputs or of outputs, if they differ.
pub(crate) fn sizes_apart<T: Other>(circuit: &Circuit, other: &T, all: bool) -> Option<Comparison>
    ensures apart { IfSome result
        (IsAnswer (size_of (asked all circuit.now)) (T.size all other.now) (T.Agrees all other.now circuit.now)) }
    ensures inputs { result ≡ None → (size_of (asked all circuit.now)).inputs ≡ (T.size all other.now).inputs }
    ensures outputs { result ≡ None → (size_of (asked all circuit.now)).outputs ≡ (T.size all other.now).outputs }
{
    let inputs = u32::from(input_count(circuit, all));
    let other_inputs = other.inputs(all);
    if inputs != other_inputs {
        return Some(Comparison::Inputs(inputs, other_inputs));
    }
    let outputs = u32::from(output_count(circuit, all));
    let other_outputs = other.outputs(all);
    if outputs != other_outputs {
        return Some(Comparison::Outputs(outputs, other_outputs));
    }
    None
}

/// Compares a circuit with another side, by their marks or on all lines.
pub(crate) fn compare<T: Other>(
    circuit: &Circuit,
    other: &T,
    all: bool,
    rows: &mut [Row],
) -> Comparison
    requires room { length rows.old ≡ T.room other.now }
    requires small { (T.size all other.now).inputs ≤ MOST_INPUTS }
    ensures { IsAnswer (size_of (asked all circuit.now)) (T.size all other.now)
        (T.Agrees all other.now circuit.now) result }
{
    if let Some(apart) = sizes_apart(circuit, other, all) {
        return apart;
    }
    compare_words(circuit, other, all, input_count(circuit, all), rows)
}
