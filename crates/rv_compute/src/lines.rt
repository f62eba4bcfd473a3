// The lines of the circuit of a logic network.
ghost use Rattle.std.specs.Prelude.{◌≡◌, ◌+◌, ◌<◌, ◌≤◌, ◌++◌, true, false, map, replicate, length, IfOk, OnOk};
ghost use Rattle.rv_gate.specs.Names.{numbered, IsPrefixByte};
ghost use Rattle.rv_gate.specs.declared.circuit.Mark.TheVariants.{Input, Zero};
ghost use Rattle.rv_gate.specs.declared.word.TheConstants.{MOST_LINES};
ghost use Rattle.rv_compute.specs.Lines.{line_names, lines_of, logic_lines, with_label, with_labels};
ghost use Rattle.rv_compute.specs.inside.Held.{line_count};

use rv_blif::Logic;
use rv_gate::{Circuit, LabelFault, MOST_LINES, Mark, Names};
use std::alloc::{AllocError, Global};

fn push_numbered(alloc: Global, names: &mut Names, prefix: u8, count: u8) -> Result<(), AllocError>
    requires letter { IsPrefixByte prefix }
    requires few { count ≤ MOST_LINES }
    ensures { OnOk result (names.new ≡ names.old ++ numbered prefix count) }
{
    let more = Names::numbered(alloc, prefix, count)?;
    for line in 0..count {
        match names.push(more.name(line)) {
            Ok(()) => {}
            Err(_) => return Err(AllocError),
        }
    }
    Ok(())
}

fn names_of(alloc: Global, inputs: u8, outputs: u8, work: u8) -> Result<Names, AllocError>
    requires { inputs + outputs + work ≤ MOST_LINES }
    ensures { IfOk result (λ names. names ≡ line_names inputs outputs work) }
{
    let mut names = Names::numbered(alloc, b'x', inputs)?;
    push_numbered(alloc, &mut names, b'y', outputs)?;
    push_numbered(alloc, &mut names, b'w', work)?;
    Ok(names)
}

// The lines after the first ones hold 0.
fn hold_zeros(circuit: &mut Circuit, first: u8, rest: u8)
    requires few { first + rest ≤ MOST_LINES }
    requires lines { length circuit.old.names ≡ first + rest }
    requires fresh { circuit.old.constants ≡ replicate (first + rest) Input }
    ensures { circuit.new ≡ record circuit.old { constants = replicate first Input ++ replicate rest Zero } }
{
    for line in 0..rest {
        circuit.set_constant(first + line, Mark::Zero);
    }
}

// The lines after the first ones are garbage.
fn drop_last(circuit: &mut Circuit, first: u8, rest: u8)
    requires few { first + rest ≤ MOST_LINES }
    requires lines { length circuit.old.names ≡ first + rest }
    requires fresh { circuit.old.garbage ≡ replicate (first + rest) false }
    ensures { circuit.new ≡ record circuit.old { garbage = replicate first false ++ replicate rest true } }
{
    for line in 0..rest {
        circuit.set_garbage(first + line, true);
    }
}

// The inputs are garbage too.
fn drop_inputs(circuit: &mut Circuit, inputs: u8, outputs: u8, work: u8)
    requires few { inputs + outputs + work ≤ MOST_LINES }
    requires lines { length circuit.old.names ≡ inputs + outputs + work }
    requires fresh { circuit.old.garbage ≡ replicate (inputs + outputs) false ++ replicate work true }
    ensures { circuit.new ≡ record circuit.old
        { garbage = replicate inputs true ++ (replicate outputs false ++ replicate work true) } }
{
    for input in 0..inputs {
        circuit.set_garbage(input, true);
    }
}

// The circuit without gates for so many inputs and outputs, and lines to work on.
fn lines_of(alloc: Global, inputs: u8, outputs: u8, work: u8) -> Result<Circuit, AllocError>
    requires some { 1 ≤ outputs }
    requires few { inputs + outputs + work ≤ MOST_LINES }
    ensures { IfOk result (λ c. c ≡ lines_of inputs outputs work) }
{
    let names = names_of(alloc, inputs, outputs, work)?;
    let mut circuit = Circuit::new(names)?;
    hold_zeros(&mut circuit, inputs, outputs + work);
    drop_last(&mut circuit, inputs + outputs, work);
    drop_inputs(&mut circuit, inputs, outputs, work);
    Ok(circuit)
}

// Labels a line at the beginning.
fn label_input(circuit: &mut Circuit, line: u8, name: &[u8]) -> Result<(), AllocError>
    requires { line < length circuit.old.names }
    ensures { OnOk result (circuit.new
        ≡ record circuit.old { input_labels = with_label circuit.old.input_labels line name.now }) }
{
    match circuit.set_input_label(line, name) {
        Ok(()) | Err(LabelFault::NotALabel) => Ok(()),
        Err(LabelFault::Mem) => Err(AllocError),
    }
}

// Labels a line at the end.
fn label_output(circuit: &mut Circuit, line: u8, name: &[u8]) -> Result<(), AllocError>
    requires { line < length circuit.old.names }
    ensures { OnOk result (circuit.new
        ≡ record circuit.old { output_labels = with_label circuit.old.output_labels line name.now }) }
{
    match circuit.set_output_label(line, name) {
        Ok(()) | Err(LabelFault::NotALabel) => Ok(()),
        Err(LabelFault::Mem) => Err(AllocError),
    }
}

// Labels the lines of the inputs by their names.
fn label_inputs(circuit: &mut Circuit, logic: &Logic) -> Result<(), AllocError>
    requires few { length logic.now.inputs ≤ MOST_LINES }
    requires lines { length logic.now.inputs ≤ length circuit.old.names }
    ensures { OnOk result (circuit.new
        ≡ record circuit.old { input_labels = with_labels circuit.old.input_labels 0 logic.now.inputs }) }
{
    for input in 0..logic.input_count() {
        label_input(circuit, input as u8, logic.input_name(input))?;
    }
    Ok(())
}

// Labels the lines of the outputs, which come after so many, by theirs.
fn label_outputs(circuit: &mut Circuit, first: u8, logic: &Logic) -> Result<(), AllocError>
    requires few { first + length logic.now.outputs ≤ MOST_LINES }
    requires lines { first + length logic.now.outputs ≤ length circuit.old.names }
    ensures { OnOk result (circuit.new ≡ record circuit.old {
      output_labels =
          with_labels circuit.old.output_labels first (map (λ output. output.name) logic.now.outputs);
    }) }
{
    let outputs = logic.outputs();
    for p in 0..outputs.len() {
        label_output(circuit, first + p as u8, outputs[p].name())?;
    }
    Ok(())
}

/// The circuit without gates for a network, with lines to work on.
pub(crate) fn logic_lines(alloc: Global, logic: &Logic, work: u8) -> Result<Circuit, AllocError>
    requires { line_count logic.now work ≤ MOST_LINES }
    ensures { IfOk result (λ c. c ≡ logic_lines logic.now work) }
{
    let (inputs, outputs) = (logic.input_count() as u8, logic.output_count() as u8);
    let mut circuit = lines_of(alloc, inputs, outputs, work)?;
    label_inputs(&mut circuit, logic)?;
    label_outputs(&mut circuit, inputs, logic)?;
    Ok(circuit)
}
