ghost use Rattle.std.specs.Prelude.{ℕ, ◌≡◌, ◌+◌, ◌*◌, ◌<◌, ◌≤◌, ◌^◌, ◌↔◌, All, length, map, IfOk, IfErr};
ghost use Rattle.std.specs.Bool.{Decides};
ghost use Rattle.rv_gate.specs.Word.{bit_of, word_of};
ghost use Rattle.rv_gate.specs.declared.word.TheConstants.{MOST_LINES};
ghost use Rattle.rv_many.specs.Column.{column, row_bit};
ghost use Rattle.rv_many.specs.declared.words.TheConstants.{MOST_WORDS};
ghost use Rattle.rv_blif.specs.Logic.{signal_count, values};
ghost use Rattle.rv_compare.specs.Compare.{EndsFor, GivesOutputs, LogicAnswer, asked};
ghost use Rattle.rv_compare.specs.Compare.{logic_answer, size_in, size_of};
ghost use Rattle.rv_compare.specs.declared.comparison.CompareFault.TheVariants.{Mem};
ghost use Rattle.rv_compare.specs.declared.comparison.Comparison.{Comparison as AnyComparison};
ghost use Rattle.rv_compare.specs.declared.comparison.TheConstants.{MOST_INPUTS};
ghost use Rattle.rv_compare.specs.inside.Least.{IsFirstFailing};

use crate::block::{agreement, first_zero, give_outputs, put_in};
use crate::comparison::{CompareFault, Comparison, MOST_INPUTS, answer_of, undecided};
use crate::drawn::{circuit_edges, logic_edges};
use crate::marks::{input_count, inputs_of};
use crate::sides::{Other, compare_words, sizes_apart};
use crate::ways::{LEAST_DRAWN, diagram_for, order_beside, way_count, way_of};
use rv_blif::{Logic, Output};
use rv_diagram::{Diagram, DiagramFault};
use rv_gate::{Circuit, MOST_LINES};
use rv_many::Row;
use std::alloc::Global;

// Gives each signal of a network its row at the words of a block.
fn give_values(logic: &Logic, block: u32, rows: &mut [Row])
    requires room { length rows.old ≡ signal_count logic.now }
    requires few { length logic.now.inputs ≤ MOST_INPUTS }
    ensures room { length rows.new ≡ length rows.old }
    ensures words { (j : ℕ) → j < MOST_WORDS → column rows.new j
        ≡ values logic.now (word_of (length logic.now.inputs) (MOST_WORDS * block + j)) }
{
    let inputs = logic.input_count() as usize;
    put_in(inputs_of(inputs), block, &mut rows[..inputs]);
    logic.set_nodes(rows);
}

// The places at which the rows of the circuit are those of the outputs.
fn agreement_with(outputs: &[Output], rows: &[Row], values: &[Row]) -> Row
    requires rows { length outputs.now ≡ length rows.now }
    requires few { length rows.now ≤ MOST_LINES }
    requires signals { All (λ output. output.signal < length values.now) outputs.now }
    ensures { (j : ℕ) → j < MOST_WORDS → Decides (row_bit result j)
        (column rows.now j ≡ map (λ output. bit_of (column values.now j) output.signal) outputs.now) }
{
    let mut room = [Row::ones(); MOST_LINES as usize];
    let given = &mut room[..rows.len()];
    for line in 0..rows.len() {
        given[line] = values[outputs[line].signal() as usize];
    }
    agreement(rows, given)
}

impl Other for Logic {
    ghost size = { λ all other. size_in other };

    ghost Agrees = { λ all other circuit. GivesOutputs (asked all circuit) other };

    ghost room = { signal_count };

    fn inputs(&self, _all: bool) -> u32 {
        self.input_count()
    }

    fn outputs(&self, _all: bool) -> u32 {
        self.output_count()
    }

    fn first_apart(
        &self,
        circuit: &Circuit,
        all: bool,
        block: u32,
        count: u32,
        rows: &mut [Row],
    ) -> Option<u32> {
        give_values(self, block, rows);
        let mut room = [Row::ones(); MOST_LINES as usize];
        let given = &mut room[..usize::from(circuit.line_count())];
        let kept = give_outputs(circuit, all, block, given);
        first_zero(agreement_with(self.outputs(), &given[..kept], rows), count)
    }
}

// The first word at which a circuit and a network differ, on a diagram.
fn apart_in(
    alloc: Global,
    diagram: &mut Diagram,
    circuit: &Circuit,
    logic: &Logic,
    all: bool,
    inputs: u8,
) -> Result<Option<u64>, DiagramFault>
    requires few { inputs ≤ MOST_LINES }
    requires inputs { inputs ≡ length logic.now.inputs }
    requires outputs { (size_of (asked all circuit.now)).outputs ≡ length logic.now.outputs }
    ensures { IfOk result (IsFirstFailing (2 ^ inputs)
        (λ k. GivesOutputs (asked all circuit.now) logic.now (word_of inputs k))) }
{
    let mut others = logic_edges(alloc, diagram, logic, inputs)?;
    let mut mine = circuit_edges(alloc, diagram, circuit, all, &mut others)?;
    let found = diagram.first_apart(alloc, &mut mine, &mut others, inputs)?;
    Ok(found)
}

// The first word at which they differ, by diagrams.
fn first_apart_drawn(
    alloc: Global,
    circuit: &Circuit,
    logic: &Logic,
    all: bool,
    inputs: u8,
    nodes: u32,
) -> Result<Option<u64>, DiagramFault>
    requires few { inputs ≤ MOST_LINES }
    requires inputs { inputs ≡ length logic.now.inputs }
    requires outputs { (size_of (asked all circuit.now)).outputs ≡ length logic.now.outputs }
    ensures { IfOk result (IsFirstFailing (2 ^ inputs)
        (λ k. GivesOutputs (asked all circuit.now) logic.now (word_of inputs k))) }
{
    for number in 0..way_count(inputs) {
        let way = way_of(inputs, number, nodes);
        let order = order_beside(alloc, way, circuit, logic, all)?;
        let mut diagram = diagram_for(alloc, way, order)?;
        match apart_in(alloc, &mut diagram, circuit, logic, all, inputs) {
            Ok(found) => return Ok(found),
            Err(DiagramFault::Mem) => return Err(DiagramFault::Mem),
            Err(DiagramFault::TooLarge) => {}
        }
    }
    Err(DiagramFault::TooLarge)
}

// Compares them on all words.
fn compare_rows(
    alloc: Global,
    circuit: &Circuit,
    logic: &Logic,
    all: bool,
    inputs: u8,
) -> Result<Comparison, CompareFault>
    requires inputs { inputs ≡ (size_of (asked all circuit.now)).inputs }
    requires same_inputs { inputs ≡ length logic.now.inputs }
    requires outputs { (size_of (asked all circuit.now)).outputs ≡ length logic.now.outputs }
    requires few { inputs ≤ MOST_INPUTS }
    ensures answer { IfOk result (LogicAnswer (asked all circuit.now) logic.now) }
    ensures ends { IfErr result (λ fault. fault ≡ Mem) }
{
    let signals = usize::from(inputs) + logic.nodes().len();
    let mut rows = vec![in alloc; Row::ones(); signals]?;
    Ok(compare_words(circuit, logic, all, inputs, &mut rows))
}

/// Compares the function of a circuit with that of a logic network on all input words. With `all`, the inputs and
/// outputs of the circuit are all its lines.
///
/// Diagrams may have so many nodes, at most [`MOST_NODES`](rv_diagram::MOST_NODES). Where there are more than
/// [`MOST_INPUTS`] inputs it may end without an answer. It takes 32 bytes for each signal.
pub fn compare_logic(
    alloc: Global,
    circuit: &Circuit,
    logic: &Logic,
    all: bool,
    nodes: u32,
) -> Result<Comparison, CompareFault>
    ensures exact { IfOk result (λ given. (answer : AnyComparison) → (given ≡ answer)
        ↔ LogicAnswer (asked all circuit.now) logic.now answer) }
    ensures ends { IfErr result (EndsFor (asked all circuit.now)) }
    ensures value { IfOk result (λ answer. answer ≡ logic_answer (asked all circuit.now) logic.now) }
{
    if let Some(apart) = sizes_apart(circuit, logic, all) {
        return Ok(apart);
    }
    let inputs = input_count(circuit, all);
    if inputs >= LEAST_DRAWN {
        match first_apart_drawn(alloc, circuit, logic, all, inputs, nodes) {
            Ok(found) => return Ok(answer_of(found)),
            Err(fault) => {
                if inputs > MOST_INPUTS {
                    return Err(undecided(fault));
                }
            }
        }
    }
    compare_rows(alloc, circuit, logic, all, inputs)
}
