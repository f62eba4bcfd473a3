ghost use Rattle.std.specs.Prelude.{◌≡◌, ◌≤◌, ◌<◌, length, slice_set, unwrap_or, Some, IfSome, IfErr, OnOk, All};
ghost use Rattle.std.specs.Option.{option_map};
ghost use Rattle.rv_reader.specs.declared.stop.Stop.TheVariants.{Mem as OutOfMemory};
ghost use Rattle.rv_real.specs.inside.Kept.{AreGivenLabels};
ghost use Rattle.rv_gate.specs.Circuit.{IsLabel};
ghost use Rattle.rv_gate.specs.inside.CircuitView.{labels_in};

use crate::code::WRONG_NAME;
use rv_gate::{Circuit, LabelFault, Mark};
use rv_reader::Stop;

fn set_input_label(circuit: &mut Circuit, line: u8, label: &[u8]) -> Result<(), Stop>
    requires line { line < length circuit.old.names }
    requires label { IsLabel label.now }
    ensures ok { OnOk result
        (circuit.new ≡ record circuit.old { input_labels = slice_set circuit.old.input_labels line label.now }) }
    ensures err { IfErr result (λ stop. stop ≡ OutOfMemory) }
{
    match circuit.set_input_label(line, label) {
        Ok(()) => Ok(()),
        Err(LabelFault::NotALabel) => Err(Stop::Fault(WRONG_NAME)),
        Err(LabelFault::Mem) => Err(Stop::Mem),
    }
}

fn set_output_label(circuit: &mut Circuit, line: u8, label: &[u8]) -> Result<(), Stop>
    requires line { line < length circuit.old.names }
    requires label { IsLabel label.now }
    ensures ok { OnOk result
        (circuit.new ≡ record circuit.old { output_labels = slice_set circuit.old.output_labels line label.now }) }
    ensures err { IfErr result (λ stop. stop ≡ OutOfMemory) }
{
    match circuit.set_output_label(line, label) {
        Ok(()) => Ok(()),
        Err(LabelFault::NotALabel) => Err(Stop::Fault(WRONG_NAME)),
        Err(LabelFault::Mem) => Err(Stop::Mem),
    }
}

// Labels the inputs, one after another.
pub(crate) fn label_inputs(circuit: &mut Circuit, labels: &Vec<Vec<u8>>) -> Result<(), Stop>
    requires count { length (labels_in labels.now) ≡ length circuit.old.names }
    requires labels { All IsLabel (labels_in labels.now) }
    ensures ok { OnOk result (circuit.new ≡ record circuit.old { input_labels = labels_in labels.now }) }
    ensures err { IfErr result (λ stop. stop ≡ OutOfMemory) }
{
    for line in 0..circuit.line_count() {
        if let Err(stop) = set_input_label(circuit, line, &labels[usize::from(line)]) {
            return Err(stop);
        }
    }
    Ok(())
}

// Labels the outputs, one after another.
pub(crate) fn label_outputs(circuit: &mut Circuit, labels: &Vec<Vec<u8>>) -> Result<(), Stop>
    requires count { length (labels_in labels.now) ≡ length circuit.old.names }
    requires labels { All IsLabel (labels_in labels.now) }
    ensures ok { OnOk result (circuit.new ≡ record circuit.old { output_labels = labels_in labels.now }) }
    ensures err { IfErr result (λ stop. stop ≡ OutOfMemory) }
{
    for line in 0..circuit.line_count() {
        if let Err(stop) = set_output_label(circuit, line, &labels[usize::from(line)]) {
            return Err(stop);
        }
    }
    Ok(())
}

// Marks the inputs, one after another.
pub(crate) fn mark_constants(circuit: &mut Circuit, marks: &[Mark])
    requires { length marks.now ≡ length circuit.old.names }
    ensures { circuit.new ≡ record circuit.old { constants = marks.now } }
{
    for line in 0..circuit.line_count() {
        circuit.set_constant(line, marks[usize::from(line)]);
    }
}

// Marks the outputs, one after another.
pub(crate) fn mark_garbage(circuit: &mut Circuit, marks: &[bool])
    requires { length marks.now ≡ length circuit.old.names }
    ensures { circuit.new ≡ record circuit.old { garbage = marks.now } }
{
    for line in 0..circuit.line_count() {
        circuit.set_garbage(line, marks[usize::from(line)]);
    }
}

// Labels the inputs where labels were given.
pub(crate) fn give_inputs(circuit: &mut Circuit, labels: &Option<Vec<Vec<u8>>>) -> Result<(), Stop>
    requires { IfSome (option_map labels_in labels.now) (AreGivenLabels (Some (length circuit.old.names))) }
    ensures ok { OnOk result
        (circuit.new
        ≡ record circuit.old {
          input_labels = unwrap_or (option_map labels_in labels.now) circuit.old.input_labels;
        }) }
    ensures err { IfErr result (λ stop. stop ≡ OutOfMemory) }
{
    match labels {
        Some(labels) => label_inputs(circuit, labels),
        None => Ok(()),
    }
}

// Labels the outputs where labels were given.
pub(crate) fn give_outputs(circuit: &mut Circuit, labels: &Option<Vec<Vec<u8>>>) -> Result<(), Stop>
    requires { IfSome (option_map labels_in labels.now) (AreGivenLabels (Some (length circuit.old.names))) }
    ensures ok { OnOk result
        (circuit.new
        ≡ record circuit.old {
          output_labels = unwrap_or (option_map labels_in labels.now) circuit.old.output_labels;
        }) }
    ensures err { IfErr result (λ stop. stop ≡ OutOfMemory) }
{
    match labels {
        Some(labels) => label_outputs(circuit, labels),
        None => Ok(()),
    }
}

// Marks the inputs where marks were given.
pub(crate) fn give_constants(circuit: &mut Circuit, marks: &Option<Vec<Mark>>)
    requires { IfSome (option_map (λ row. row.items) marks.now) (λ row.
        Some (length circuit.old.names) ≡ Some (length row)) }
    ensures { circuit.new
        ≡ record circuit.old { constants = unwrap_or (option_map (λ row. row.items) marks.now) circuit.old.constants } }
{
    if let Some(marks) = marks {
        mark_constants(circuit, marks);
    }
}

// Marks the outputs where marks were given.
pub(crate) fn give_garbage(circuit: &mut Circuit, marks: &Option<Vec<bool>>)
    requires { IfSome (option_map (λ row. row.items) marks.now) (λ row.
        Some (length circuit.old.names) ≡ Some (length row)) }
    ensures { circuit.new
        ≡ record circuit.old { garbage = unwrap_or (option_map (λ row. row.items) marks.now) circuit.old.garbage } }
{
    if let Some(marks) = marks {
        mark_garbage(circuit, marks);
    }
}
