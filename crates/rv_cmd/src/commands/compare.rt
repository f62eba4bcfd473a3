ghost use Rattle.std.specs.Prelude.{◌≡◌, length};
ghost use Rattle.rv_io.specs.Sink.{Sends};
ghost use Rattle.rv_io.specs.Writer.{Adds};
ghost use Rattle.rv_cmd.specs.Commands.Compare.{LacksAnswer, MeansCircuits, MeansLogic, MeansPerm, MeansTable};
ghost use Rattle.rv_cmd.specs.Commands.Compare.{circuits_differ, circuits_report, logic_differs, logic_report};
ghost use Rattle.rv_cmd.specs.Commands.Compare.{compare_row, comparison_said, comparison_text, counts_said};
ghost use Rattle.rv_cmd.specs.Commands.Compare.{differs_said, no_answer, perm_differs, perm_report, says_apart};
ghost use Rattle.rv_cmd.specs.Commands.Compare.{table_differs, table_report, with_circuit, with_logic, with_perm};
ghost use Rattle.rv_cmd.specs.Commands.Compare.{with_table};
ghost use Rattle.rv_cmd.specs.Names.{names_read};
ghost use Rattle.rv_cmd.specs.Row.{always_told};
ghost use Rattle.rv_cmd.specs.inside.Making.{Makes};

use crate::making::{TwoInputs, of_two};
use crate::product::{Made, Product};
use rv_blif::{BlifReader, Logic};
use rv_compare::{
    CompareFault, Comparison, compare_circuits, compare_logic, compare_perm, compare_table,
    input_count,
};
use rv_faults::{InputFault, Measure, Refusal, Unmade, put_bits};
use rv_gate::Circuit;
use rv_io::{Files, Sink, WriteFault, Writer};
use rv_perm::{PermReader, PermSpec};
use rv_pla::{Pla, PlaReader};
use rv_real::RealReader;
use rv_words::{Form, Settings};
use std::alloc::Global;

/// Whether a circuit has the function of another circuit, a permutation or a logic network, or one that a table
/// allows.
pub(crate) fn compare<F: Files>(
    alloc: Global,
    settings: &Settings,
    files: &mut F,
) -> Result<Made, Unmade>
    requires { length (names_read settings.now) ≡ 2 }
    ensures { Makes (compare_row settings.now.origin settings.now.all settings.now.nodes) (names_read settings.now)
        (F.view files.old) (F.view files.new) result }
{
    let (all, nodes) = (settings.all, settings.nodes);
    match settings.origin {
        Form::Pla => of_two(alloc, settings, files, &WithTable { all }),
        Form::Perm => of_two(alloc, settings, files, &WithPerm { all }),
        Form::Blif => of_two(alloc, settings, files, &WithLogic { all, nodes }),
        _ => of_two(alloc, settings, files, &WithCircuit { all, nodes }),
    }
}

// By their marks, or on all lines.
#[derive(Clone, Copy)]
struct WithCircuit {
    all: bool,
    nodes: u32,
}

impl TwoInputs for WithCircuit {
    type First = RealReader;

    type Second = RealReader;

    ghost report = { λ command. with_circuit circuits_report command.all };

    ghost differs = { λ command. with_circuit circuits_differ command.all };

    ghost Lacks = { λ command. LacksAnswer command.nodes command.all };

    ghost Means = { λ command. MeansCircuits command.all };

    fn make(&self, alloc: Global, first: &Circuit, second: &Circuit) -> Result<Made, Refusal> {
        match compare_circuits(alloc, first, second, self.all, self.nodes) {
            Ok(answer) => Ok(told(input_count(first, self.all), answer)),
            Err(fault) => Err(no_answer(self.nodes, fault)),
        }
    }
}

#[derive(Clone, Copy)]
struct WithPerm {
    all: bool,
}

impl TwoInputs for WithPerm {
    type First = RealReader;

    type Second = PermReader;

    ghost report = { λ command. with_perm perm_report command.all };

    ghost differs = { λ command. with_perm perm_differs command.all };

    ghost Lacks = { λ command. always_told };

    ghost Means = { λ command. MeansPerm command.all };

    fn make(&self, _alloc: Global, circuit: &Circuit, spec: &PermSpec) -> Result<Made, Refusal> {
        Ok(told(
            input_count(circuit, self.all),
            compare_perm(circuit, spec, self.all),
        ))
    }
}

#[derive(Clone, Copy)]
struct WithTable {
    all: bool,
}

impl TwoInputs for WithTable {
    type First = RealReader;

    type Second = PlaReader;

    ghost report = { λ command. with_table table_report command.all };

    ghost differs = { λ command. with_table table_differs command.all };

    ghost Lacks = { λ command. always_told };

    ghost Means = { λ command. MeansTable command.all };

    fn make(&self, _alloc: Global, circuit: &Circuit, pla: &Pla) -> Result<Made, Refusal> {
        Ok(told(
            input_count(circuit, self.all),
            compare_table(circuit, pla, self.all),
        ))
    }
}

#[derive(Clone, Copy)]
struct WithLogic {
    all: bool,
    nodes: u32,
}

impl TwoInputs for WithLogic {
    type First = RealReader;

    type Second = BlifReader;

    ghost report = { λ command. with_logic logic_report command.all };

    ghost differs = { λ command. with_logic logic_differs command.all };

    ghost Lacks = { λ command. LacksAnswer command.nodes command.all };

    ghost Means = { λ command. MeansLogic command.all };

    fn make(&self, alloc: Global, circuit: &Circuit, network: &Logic) -> Result<Made, Refusal> {
        match compare_logic(alloc, circuit, network, self.all, self.nodes) {
            Ok(answer) => Ok(told(input_count(circuit, self.all), answer)),
            Err(fault) => Err(no_answer(self.nodes, fault)),
        }
    }
}

// The answer on a circuit with so many inputs, as it is to be written.
fn told(inputs: u8, answer: Comparison) -> Made
    ensures product { result.product ≡ Product.Comparison inputs answer }
    ensures differs { result.differs ≡ says_apart answer }
{
    Made {
        product: Product::Comparison(inputs, answer),
        differs: says_apart(answer),
    }
}

// Whether an answer is that both sides differ.
fn says_apart(answer: Comparison) -> bool
    ensures { result ≡ says_apart answer }
{
    match answer {
        Comparison::Same => false,
        Comparison::Inputs(..) | Comparison::Outputs(..) | Comparison::Differs(_) => true,
    }
}

// Why there is no answer by diagrams of at most so many nodes.
fn no_answer(nodes: u32, fault: CompareFault) -> Refusal
    ensures { result ≡ no_answer nodes fault }
{
    match fault {
        CompareFault::Undecided => Refusal::Refused {
            input: 0,
            why: InputFault::Undecided {
                count: u64::from(nodes),
                what: Measure::Nodes,
            },
        },
        CompareFault::Mem => Refusal::OutOfMemory,
    }
}

/// Sends what was found of a circuit with so many inputs.
pub(crate) fn put_comparison<O: Sink>(
    inputs: u8,
    answer: Comparison,
    out: &mut O,
) -> Result<(), WriteFault>
    ensures { Sends (O.view out.old) (comparison_text inputs answer) result (O.view out.new) }
{
    let mut writer = Writer::new();
    put_said(&mut writer, out, inputs, answer);
    writer.put(out, b"\n");
    writer.finish(out)
}

// What an answer says.
fn put_said<O: Sink>(writer: &mut Writer, out: &mut O, inputs: u8, answer: Comparison)
    ensures { Adds writer.old (O.view out.old) (comparison_said inputs answer) writer.new (O.view out.new) }
{
    match answer {
        Comparison::Same => writer.put(out, b"same"),
        Comparison::Inputs(first, second) => {
            put_counts(writer, out, b"differs in inputs ", first, second);
        }
        Comparison::Outputs(first, second) => {
            put_counts(writer, out, b"differs in outputs ", first, second);
        }
        Comparison::Differs(word) => put_differs(writer, out, inputs, word),
    }
}

// The word at which both differ.
fn put_differs<O: Sink>(writer: &mut Writer, out: &mut O, inputs: u8, word: u64)
    ensures { Adds writer.old (O.view out.old) (differs_said inputs word) writer.new (O.view out.new) }
{
    if inputs == 0 {
        writer.put(out, b"differs at the empty word");
        return;
    }
    writer.put(out, b"differs at word ");
    put_bits(writer, out, inputs, word);
}

// Both counts.
fn put_counts<O: Sink>(writer: &mut Writer, out: &mut O, what: &[u8], first: u32, second: u32)
    ensures { Adds writer.old (O.view out.old) (counts_said what.now first second) writer.new (O.view out.new) }
{
    writer.put(out, what);
    writer.put_number(out, u128::from(first));
    writer.put(out, b" and ");
    writer.put_number(out, u128::from(second));
}
