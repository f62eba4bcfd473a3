ghost use Rattle.std.specs.Prelude.{◌≡◌, ◌+◌, ◌^◌, ◌<◌, ◌≤◌, ◌↔◌, [], ◌∷◌, ◌++◌, false, length, map, replicate};
ghost use Rattle.std.specs.Prelude.{slice_get, slice_set, All, IfOk, OnOk, OnErr};
ghost use Rattle.std.specs.List.{list_all};
ghost use Rattle.rv_gate.specs.Gate.{run, FitsIn, IsGate};
ghost use Rattle.rv_gate.specs.Circuit.{IsCascade, IsLabel, is_label_byte, fresh};
ghost use Rattle.rv_gate.specs.inside.CircuitView.{labels_in};
ghost use Rattle.rv_gate.specs.declared.circuit.Mark.TheVariants.{Input};
ghost use Rattle.rv_gate.specs.declared.circuit.LabelFault.TheVariants.{Mem};

use crate::{Gate, MOST_LINES, Names, Word};
use std::alloc::{AllocError, Global};
use std::marker::Model;
use thiserror::Error;

/// The most gates that a circuit has.
pub const MOST_GATES: usize = 1 << 20;

/// What is put in on a line: a bit of the input, or a constant, as an ancilla line has it.
#[derive(Clone, Copy, Debug, PartialEq, Eq)]
pub enum Mark {
    Input,
    Zero,
    One,
}

/// Why a gate was not added.
#[derive(Clone, Copy, Debug, Error)]
pub enum PushFault {
    /// There are [`MOST_GATES`] gates.
    #[error("too many gates")]
    TooManyGates,
    #[error("out of memory")]
    Mem,
}

/// Why a label was not set.
#[derive(Clone, Copy, Debug, Error)]
pub enum LabelFault {
    /// There is a `"` or LF.
    #[error("not a label")]
    NotALabel,
    #[error("out of memory")]
    Mem,
}

impl From<AllocError> for LabelFault {
    ghost from_gives = { λ _ fault. fault ≡ Mem };

    fn from(_: AllocError) -> Self {
        LabelFault::Mem
    }
}

/// A reversible circuit: named lines, and gates that act on them one after another (a cascade).
///
/// Each line has a label at its input and at its output, a mark at its input, and at its output may be
/// garbage, a bit that nobody asks for. None of these changes what the gates do. There are 1 to
/// [`MOST_LINES`] lines, at most [`MOST_GATES`] gates, and each gate fits.
#[derive(Drop)]
pub struct Circuit {
    names: Names,
    inputs: Inputs,
    outputs: Outputs,
    gates: Vec<Gate>,
}

// What stands on the lines at their inputs.
#[derive(Drop)]
struct Inputs {
    labels: Vec<Vec<u8>>,
    constants: Vec<Mark>,
}

// What stands on the lines at their outputs.
#[derive(Drop)]
struct Outputs {
    labels: Vec<Vec<u8>>,
    garbage: Vec<bool>,
}

impl Model for Circuit {
    ghost use Rattle.rv_gate.specs.Circuit.{Cascade, IsCascade};

    ghost Value = { Cascade };

    ghost use Rattle.rv_gate.specs.inside.CircuitView.{circuit_view};

    ghost view = { circuit_view };

    ghost invariant = { λ c. IsCascade (circuit_view c) };
}

fn is_label(label: &[u8]) -> bool
    ensures { result ≡ list_all is_label_byte label.now }
{
    label.iter().all(|byte| *byte != b'"' && *byte != b'\n')
}

// A label of its own with these bytes.
fn label_of(alloc: Global, label: &[u8]) -> Result<Vec<u8>, LabelFault>
    ensures ok { IfOk result (λ own. (own.items ≡ label.now) × IsLabel label.now) }
    ensures not_a_label { (result ≡ Err LabelFault.NotALabel) ↔ (¬ IsLabel label.now) }
{
    if !is_label(label) {
        return Err(LabelFault::NotALabel);
    }
    let own = Vec::from_slice(alloc, label)?;
    Ok(own)
}

// The names, to begin as labels.
fn labels_of(names: &Names) -> Result<Vec<Vec<u8>>, AllocError>
    ensures { IfOk result (λ labels. labels_in labels ≡ names.now) }
{
    let alloc = names.allocator();
    let mut labels = Vec::new(alloc);
    for line in 0..names.len() {
        labels.push(Vec::from_slice(alloc, names.name(line))?)?;
    }
    Ok(labels)
}

// The same labels.
fn copy_of(alloc: Global, labels: &[Vec<u8>]) -> Result<Vec<Vec<u8>>, AllocError>
    ensures { IfOk result (λ copy. labels_in copy ≡ map (λ label. label.items) labels.now) }
{
    let mut copy = Vec::new(alloc);
    for label in labels {
        copy.push(Vec::from_slice(alloc, label)?)?;
    }
    Ok(copy)
}

impl Inputs {
    fn new(names: &Names) -> Result<Inputs, AllocError>
        ensures { IfOk result (λ inputs.
            (labels_in inputs.labels ≡ names.now) × (inputs.constants.items ≡ replicate (length names.now) Input)) }
    {
        let labels = labels_of(names)?;
        let constants = vec![in names.allocator(); Mark::Input; usize::from(names.len())]?;
        Ok(Inputs { labels, constants })
    }

    fn copy(&self, alloc: Global) -> Result<Inputs, AllocError>
        ensures { IfOk result (λ inputs.
            (labels_in inputs.labels ≡ labels_in self.now.labels)
            × (inputs.constants.items ≡ self.now.constants.items)) }
    {
        let labels = copy_of(alloc, &self.labels)?;
        let constants = Vec::from_slice(alloc, &self.constants)?;
        Ok(Inputs { labels, constants })
    }
}

impl Outputs {
    fn new(names: &Names) -> Result<Outputs, AllocError>
        ensures { IfOk result (λ outputs.
            (labels_in outputs.labels ≡ names.now) × (outputs.garbage.items ≡ replicate (length names.now) false)) }
    {
        let labels = labels_of(names)?;
        let garbage = vec![in names.allocator(); false; usize::from(names.len())]?;
        Ok(Outputs { labels, garbage })
    }

    fn copy(&self, alloc: Global) -> Result<Outputs, AllocError>
        ensures { IfOk result (λ outputs.
            (labels_in outputs.labels ≡ labels_in self.now.labels)
            × (outputs.garbage.items ≡ self.now.garbage.items)) }
    {
        let labels = copy_of(alloc, &self.labels)?;
        let garbage = Vec::from_slice(alloc, &self.garbage)?;
        Ok(Outputs { labels, garbage })
    }
}

impl Circuit {
    /// The circuit on these lines that has no gates. Its labels are the names, each line is an input,
    /// and none is garbage. Fails only for want of memory.
    pub fn new(names: Names) -> Result<Circuit, AllocError>
        requires { 1 ≤ length names }
        ensures { IfOk result (λ c. c ≡ fresh names) }
    {
        let alloc = names.allocator();
        let inputs = Inputs::new(&names)?;
        let outputs = Outputs::new(&names)?;
        // At most 64 lines, each name another.
        names.recall_invariant();
        Ok(Circuit {
            names,
            inputs,
            outputs,
            gates: Vec::new(alloc),
        })
    }

    /// A circuit of its own that is equal to this one. Fails only for want of memory.
    pub fn copy(&self) -> Result<Circuit, AllocError>
        ensures { IfOk result (λ c. c ≡ self.now) }
    {
        let alloc = self.names.allocator();
        let names = self.names.copy()?;
        let inputs = self.inputs.copy(alloc)?;
        let outputs = self.outputs.copy(alloc)?;
        let gates = Vec::from_slice(alloc, &self.gates)?;
        Ok(Circuit {
            names,
            inputs,
            outputs,
            gates,
        })
    }

    /// How many lines there are. Its contract also tells what every circuit keeps.
    pub fn line_count(&self) -> u8
        ensures value { result ≡ length self.now.names }
        ensures some { 1 ≤ result }
        ensures few { result ≤ MOST_LINES }
        ensures valid { IsCascade self.now }
    {
        self.names.len()
    }

    /// For proofs: recalls what every circuit keeps. Does nothing when it runs.
    pub fn recall_invariant(&self)
        ensures { IsCascade self.now }
    {
        let _ = &self.names;
    }

    /// The names of the lines.
    pub fn names(&self) -> &Names
        ensures { result.now ≡ self.now.names }
    {
        &self.names
    }

    /// The gates, in the order in which they act.
    pub fn gates(&self) -> &[Gate]
        ensures { result.now ≡ self.now.gates }
    {
        &self.gates
    }

    /// What is put in on a line.
    pub fn constant(&self, line: u8) -> Mark
        requires { line < length self.now.names }
        ensures { slice_get self.now.constants line ≡ Some result }
    {
        self.inputs.constants[usize::from(line)]
    }

    /// Whether a line's output is garbage.
    pub fn garbage(&self, line: u8) -> bool
        requires { line < length self.now.names }
        ensures { slice_get self.now.garbage line ≡ Some result }
    {
        self.outputs.garbage[usize::from(line)]
    }

    /// What is put in on each line.
    pub fn constant_row(&self) -> &[Mark]
        ensures { result.now ≡ self.now.constants }
    {
        &self.inputs.constants
    }

    /// Of each line, whether its output is garbage.
    pub fn garbage_row(&self) -> &[bool]
        ensures { result.now ≡ self.now.garbage }
    {
        &self.outputs.garbage
    }

    /// The label of a line at its input.
    pub fn input_label(&self, line: u8) -> &[u8]
        requires { line < length self.now.names }
        ensures { slice_get self.now.input_labels line ≡ Some result.now }
    {
        &self.inputs.labels[usize::from(line)]
    }

    /// The label of a line at its output.
    pub fn output_label(&self, line: u8) -> &[u8]
        requires { line < length self.now.names }
        ensures { slice_get self.now.output_labels line ≡ Some result.now }
    {
        &self.outputs.labels[usize::from(line)]
    }

    /// Labels a line at its input. A label is any bytes without `"` and LF.
    pub fn set_input_label(&mut self, line: u8, label: &[u8]) -> Result<(), LabelFault>
        requires { line < length self.old.names }
        ensures ok { OnOk result
            (self.new ≡ record self.old { input_labels = slice_set self.old.input_labels line label.now }) }
        ensures err { OnErr result (self.new ≡ self.old) }
        ensures not_a_label { (result ≡ Err LabelFault.NotALabel) ↔ (¬ IsLabel label.now) }
    {
        let own = label_of(self.names.allocator(), label)?;
        self.inputs.labels[usize::from(line)] = own;
        Ok(())
    }

    /// Labels a line at its output. A label is any bytes without `"` and LF.
    pub fn set_output_label(&mut self, line: u8, label: &[u8]) -> Result<(), LabelFault>
        requires { line < length self.old.names }
        ensures ok { OnOk result
            (self.new ≡ record self.old { output_labels = slice_set self.old.output_labels line label.now }) }
        ensures err { OnErr result (self.new ≡ self.old) }
        ensures not_a_label { (result ≡ Err LabelFault.NotALabel) ↔ (¬ IsLabel label.now) }
    {
        let own = label_of(self.names.allocator(), label)?;
        self.outputs.labels[usize::from(line)] = own;
        Ok(())
    }

    /// Marks what is put in on a line.
    pub fn set_constant(&mut self, line: u8, mark: Mark)
        requires { line < length self.old.names }
        ensures { self.new ≡ record self.old { constants = slice_set self.old.constants line mark } }
    {
        self.inputs.constants[usize::from(line)] = mark;
    }

    /// Says whether a line's output is garbage.
    pub fn set_garbage(&mut self, line: u8, garbage: bool)
        requires { line < length self.old.names }
        ensures { self.new ≡ record self.old { garbage = slice_set self.old.garbage line garbage } }
    {
        self.outputs.garbage[usize::from(line)] = garbage;
    }

    /// Adds a gate after the others.
    pub fn push(&mut self, gate: Gate) -> Result<(), PushFault>
        requires { FitsIn gate (length self.old.names) }
        ensures ok { OnOk result (self.new ≡ record self.old { gates = self.old.gates ++ gate ∷ [] }) }
        ensures err { OnErr result (self.new ≡ self.old) }
        ensures full { (result ≡ Err PushFault.TooManyGates) ↔ (length self.old.gates ≡ MOST_GATES) }
    {
        if self.gates.len() == MOST_GATES {
            return Err(PushFault::TooManyGates);
        }
        // Its shape is that of a gate.
        gate.recall_invariant();
        match self.gates.push(gate) {
            Ok(()) => Ok(()),
            Err(_) => Err(PushFault::Mem),
        }
    }

    /// Takes these gates in the place of those that it has.
    pub fn set_gates(&mut self, gates: Vec<Gate>)
        requires valid { All IsGate gates.items }
        requires fits { All (λ gate. FitsIn gate (length self.old.names)) gates.items }
        requires few { length gates.items ≤ MOST_GATES }
        ensures { self.new ≡ record self.old { gates = gates.items } }
    {
        self.gates = gates;
    }

    /// The word that comes out where this word is put in: the gates act on it in their order. The marks
    /// are not looked at.
    pub fn run(&self, word: Word) -> Word
        requires { length word ≡ length self.now.names }
        ensures { result ≡ run self.now.gates word }
    {
        let mut word = word;
        for gate in &self.gates {
            word = gate.act(word);
        }
        word
    }
}
