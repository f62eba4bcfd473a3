ghost use Rattle.std.specs.Prelude.{◌≡◌, ◌≤◌, ◌<◌, ◌+◌, ℕ, Bool, List, length, map, take, slice_get, Some, All, IfOk};
ghost use Rattle.rv_gate.specs.Word.{bit_of};
ghost use Rattle.rv_blif.specs.Logic.{Node as TheNode, IsLogic, node_value, values, outputs_of};
ghost use Rattle.rv_many.specs.Column.{column};
ghost use Rattle.rv_many.specs.declared.words.TheConstants.{MOST_WORDS};

use crate::evaluate::node_row;
use crate::node::Node;
use crate::output::Output;
use rv_many::Row;
use std::alloc::{AllocError, Global};
use std::marker::Model;

/// The most signals that a logic network has: inputs and nodes.
pub const MOST_SIGNALS: u32 = 1 << 20;

/// A logic network: named inputs, nodes in topological order, and named outputs.
///
/// Signals go by numbers: first the inputs, then the nodes. The operands of a node are signals before it.
#[derive(Drop)]
pub struct Logic {
    inputs: Vec<Vec<u8>>,
    nodes: Vec<Node>,
    outputs: Vec<Output>,
}

impl Model for Logic {
    ghost use Rattle.std.specs.Prelude.{map};
    ghost use Rattle.rv_blif.specs.Logic.{Logic as TheLogic, IsLogic};

    ghost Value = { TheLogic };

    ghost view = { λ l.
        record { inputs = map (λ name. name.items) l.inputs.items; nodes = l.nodes.items; outputs = l.outputs.items } };

    ghost invariant = { λ l. IsLogic (record {
      inputs = map (λ name. name.items) l.inputs.items;
      nodes = l.nodes.items;
      outputs = l.outputs.items;
    }) };
}

impl Logic {
    /// A network of inputs by their names, nodes and outputs.
    pub fn new(inputs: Vec<Vec<u8>>, nodes: Vec<Node>, outputs: Vec<Output>) -> Logic
        requires { IsLogic
            (record { inputs = map (λ name. name.items) inputs.items; nodes = nodes.items; outputs = outputs.items }) }
        ensures { result
            ≡ record { inputs = map (λ name. name.items) inputs.items; nodes = nodes.items; outputs = outputs.items } }
    {
        Logic {
            inputs,
            nodes,
            outputs,
        }
    }

    /// For proofs: recalls what every network keeps. Does nothing when it runs.
    pub fn recall_invariant(&self)
        ensures { IsLogic self.now }
    {
        let _ = &self.nodes;
    }

    /// For proofs: the bit of each node is that of its cover, by the bits of its operands. Does nothing when it runs.
    pub fn recall_values(&self)
        ensures { (word : List Bool) → length word ≡ length self.now.inputs → (k : ℕ) (node : TheNode)
            → slice_get self.now.nodes k ≡ Some node
            → bit_of (values self.now word) (length self.now.inputs + k) ≡ node_value node (values self.now word) }
    {
        self.recall_invariant();
    }

    /// The number of inputs.
    pub fn input_count(&self) -> u32
        ensures value { result ≡ length self.now.inputs }
        ensures valid { IsLogic self.now }
    {
        self.inputs.len() as u32
    }

    /// The number of outputs.
    pub fn output_count(&self) -> u32
        ensures value { result ≡ length self.now.outputs }
        ensures valid { IsLogic self.now }
    {
        self.outputs.len() as u32
    }

    /// The name of an input.
    pub fn input_name(&self, input: u32) -> &[u8]
        requires { input < length self.now.inputs }
        ensures { slice_get self.now.inputs input ≡ Some result.now }
    {
        &self.inputs[input as usize]
    }

    /// The nodes, each after those on which it depends. Node `k` is the signal that is `k` after the inputs.
    pub fn nodes(&self) -> &[Node]
        ensures value { result.now ≡ self.now.nodes }
        ensures valid { IsLogic self.now }
    {
        &self.nodes
    }

    /// The outputs, in order.
    pub fn outputs(&self) -> &[Output]
        ensures value { result.now ≡ self.now.outputs }
        ensures valid { IsLogic self.now }
    {
        &self.outputs
    }

    /// Gives each node its row: the bits that it has at the words whose bits are in the rows of the inputs.
    pub fn set_nodes(&self, rows: &mut [Row])
        requires { length rows.old ≡ length self.now.inputs + length self.now.nodes }
        ensures lines { length rows.new ≡ length rows.old }
        ensures words { (j : ℕ) → j < MOST_WORDS → column rows.new j
            ≡ values self.now (take (length self.now.inputs) (column rows.old j)) }
    {
        let inputs = self.input_count() as usize;
        let nodes = self.nodes();
        for k in 0..nodes.len() {
            rows[inputs + k] = node_row(&nodes[k], &rows[..inputs + k]);
        }
    }

    /// The rows of the outputs, by the rows of the inputs.
    pub fn output_rows(&self, alloc: Global, inputs: &[Row]) -> Result<Vec<Row>, AllocError>
        requires { length inputs.now ≡ length self.now.inputs }
        ensures { IfOk result (λ rows.
            (j : ℕ) → j < MOST_WORDS → column rows.items j ≡ outputs_of self.now (column inputs.now j)) }
    {
        let mut rows = signal_rows(alloc, inputs, inputs.len() + self.nodes().len())?;
        self.set_nodes(&mut rows);
        let outputs = self.outputs();
        let picked = picked(alloc, outputs, &rows)?;
        Ok(picked)
    }
}

// So many rows, the first of which are these.
fn signal_rows(alloc: Global, inputs: &[Row], count: usize) -> Result<Vec<Row>, AllocError>
    requires { length inputs.now ≤ count }
    ensures count { IfOk result (λ rows. length rows.items ≡ count) }
    ensures inputs { IfOk result (λ rows. take (length inputs.now) rows.items ≡ inputs.now) }
{
    let mut rows = Vec::from_slice(alloc, inputs)?;
    while rows.len() < count {
        rows.push(Row::ones())?;
    }
    Ok(rows)
}

// The rows of outputs, by those of all signals.
fn picked(alloc: Global, outputs: &[Output], rows: &[Row]) -> Result<Vec<Row>, AllocError>
    requires { All (λ output. output.signal < length rows.now) outputs.now }
    ensures { IfOk result (λ picked. (j : ℕ)
        → column picked.items j ≡ map (λ output. bit_of (column rows.now j) output.signal) outputs.now) }
{
    let mut picked = Vec::new(alloc);
    for output in outputs {
        picked.push(rows[output.signal() as usize])?;
    }
    Ok(picked)
}
