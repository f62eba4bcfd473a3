ghost use Rattle.std.specs.Prelude.{◌≡◌, ◌↔◌, ◌^◌, ◌≤◌, Bool, List, length, Ok, IfErr, IfOk};
ghost use Rattle.rv_gate.specs.Marks.{input_count};
ghost use Rattle.rv_gate.specs.Word.{word_of};
ghost use Rattle.rv_gate.specs.declared.word.TheConstants.{MOST_LINES};
ghost use Rattle.rv_compare.specs.Compare.{AreSame, CircuitsAnswer, HasManyInputs, asked, circuits_answer};
ghost use Rattle.rv_compare.specs.Compare.{size_of};
ghost use Rattle.rv_compare.specs.declared.comparison.Comparison.{Comparison as AnyComparison};
ghost use Rattle.rv_compare.specs.declared.comparison.Comparison.TheVariants.{Same};
ghost use Rattle.rv_compare.specs.inside.Least.{IsFirstFailing};

use crate::block::{agreement, first_zero, give_outputs};
use crate::comparison::{CompareFault, Comparison, MOST_INPUTS, answer_of, undecided};
use crate::drawn::circuit_edges;
use crate::marks::{input_count, output_count};
use crate::sides::{Other, compare_words, sizes_apart};
use crate::ways::{LEAST_DRAWN, circuit_order, diagram_for, way_count, way_of};
use rv_diagram::{Diagram, DiagramFault};
use rv_gate::{Circuit, MOST_LINES};
use rv_many::Row;
use std::alloc::Global;

impl Other for Circuit {
    ghost size = { λ all other. size_of (asked all other) };

    ghost Agrees = { λ all other circuit. AreSame (asked all circuit) (asked all other) };

    ghost room = { λ other. 0 };

    fn inputs(&self, all: bool) -> u32 {
        u32::from(input_count(self, all))
    }

    fn outputs(&self, all: bool) -> u32 {
        u32::from(output_count(self, all))
    }

    fn first_apart(
        &self,
        circuit: &Circuit,
        all: bool,
        block: u32,
        count: u32,
        _rows: &mut [Row],
    ) -> Option<u32> {
        let mut room_a = [Row::ones(); MOST_LINES as usize];
        let mut room_b = [Row::ones(); MOST_LINES as usize];
        let rows_a = &mut room_a[..usize::from(circuit.line_count())];
        let rows_b = &mut room_b[..usize::from(self.line_count())];
        let kept_a = give_outputs(circuit, all, block, rows_a);
        let kept_b = give_outputs(self, all, block, rows_b);
        first_zero(agreement(&rows_a[..kept_a], &rows_b[..kept_b]), count)
    }
}

// The first word at which two circuits differ, on a diagram.
fn apart_in(
    alloc: Global,
    diagram: &mut Diagram,
    a: &Circuit,
    b: &Circuit,
    all: bool,
    inputs: u8,
) -> Result<Option<u64>, DiagramFault>
    requires few { inputs ≤ MOST_LINES }
    requires outputs { (size_of (asked all a.now)).outputs ≡ (size_of (asked all b.now)).outputs }
    ensures { IfOk result (IsFirstFailing (2 ^ inputs)
        (λ k. AreSame (asked all a.now) (asked all b.now) (word_of inputs k))) }
{
    let mut mine = circuit_edges(alloc, diagram, a, all, &mut Vec::new(alloc))?;
    let mut others = circuit_edges(alloc, diagram, b, all, &mut mine)?;
    let found = diagram.first_apart(alloc, &mut mine, &mut others, inputs)?;
    Ok(found)
}

// The first word at which they differ, by diagrams.
fn first_apart_drawn(
    alloc: Global,
    a: &Circuit,
    b: &Circuit,
    all: bool,
    inputs: u8,
    nodes: u32,
) -> Result<Option<u64>, DiagramFault>
    requires few { inputs ≤ MOST_LINES }
    requires outputs { (size_of (asked all a.now)).outputs ≡ (size_of (asked all b.now)).outputs }
    ensures { IfOk result (IsFirstFailing (2 ^ inputs)
        (λ k. AreSame (asked all a.now) (asked all b.now) (word_of inputs k))) }
{
    for number in 0..way_count(inputs) {
        let way = way_of(inputs, number, nodes);
        let by = if way.by_second { b } else { a };
        let order = circuit_order(alloc, way.order, by, all)?;
        let mut diagram = diagram_for(alloc, way, order)?;
        match apart_in(alloc, &mut diagram, a, b, all, inputs) {
            Ok(found) => return Ok(found),
            Err(DiagramFault::Mem) => return Err(DiagramFault::Mem),
            Err(DiagramFault::TooLarge) => {}
        }
    }
    Err(DiagramFault::TooLarge)
}

/// Compares the functions of two circuits on all input words; with `all`, on all their lines, without marks.
///
/// Diagrams may have so many nodes, at most [`MOST_NODES`](rv_diagram::MOST_NODES). Only where there are more than
/// [`MOST_INPUTS`] inputs it may end without an answer.
pub fn compare_circuits(
    alloc: Global,
    a: &Circuit,
    b: &Circuit,
    all: bool,
    nodes: u32,
) -> Result<Comparison, CompareFault>
    ensures exact { IfOk result (λ given. (answer : AnyComparison) → (given ≡ answer)
        ↔ CircuitsAnswer (asked all a.now) (asked all b.now) answer) }
    ensures ends { IfErr result (λ fault. HasManyInputs (asked all a.now)) }
    ensures value { IfOk result (λ answer. answer ≡ circuits_answer (asked all a.now) (asked all b.now)) }
    ensures same { result ≡ Ok Same → (x : List Bool) → length x ≡ input_count (asked all a.now).constants
        → AreSame (asked all a.now) (asked all b.now) x }
{
    if let Some(apart) = sizes_apart(a, b, all) {
        return Ok(apart);
    }
    let inputs = input_count(a, all);
    if inputs >= LEAST_DRAWN {
        match first_apart_drawn(alloc, a, b, all, inputs, nodes) {
            Ok(found) => return Ok(answer_of(found)),
            Err(fault) => {
                if inputs > MOST_INPUTS {
                    return Err(undecided(fault));
                }
            }
        }
    }
    Ok(compare_words(a, b, all, inputs, &mut []))
}
