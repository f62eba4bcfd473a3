// The covers in topological order.
ghost use Rattle.std.specs.Prelude.{◌≡◌, ◌≤◌, ◌<◌, ◌+◌, ℕ, None, length, replicate, IfOk, IfSome, OnOk};
ghost use Rattle.rv_blif.specs.declared.logic.TheConstants.{MOST_SIGNALS};
ghost use Rattle.rv_blif.specs.Placing.{all_placed, over_signals, pass, rounds, signal_of, signals_by, with_cover};
ghost use Rattle.rv_blif.specs.Placing.{with_covers, with_inputs};

use crate::cover::{Cover, cover_at};
use crate::marks::{set_signal, signal_of};
use crate::node::Node;
use std::alloc::{AllocError, Global};
use std::marker::Model;
use std::mem::replace;

/// The covers that are placed so far, as nodes, and the numbers of those that are left.
#[derive(Drop)]
pub(crate) struct Placing {
    pub(crate) inputs: u32,
    pub(crate) signals: Vec<Option<u32>>,
    pub(crate) nodes: Vec<Node>,
    pub(crate) left: Vec<usize>,
}

impl Model for Placing {
    ghost use Rattle.rv_blif.specs.Placing.{Placing as ThePlacing, IsPlacing};

    ghost Value = { ThePlacing };

    ghost view = { λ p.
        record { inputs = p.inputs; signals = p.signals.items; nodes = p.nodes.items; left = p.left.items } };

    ghost invariant = { λ p. IsPlacing (record {
      inputs = p.inputs;
      signals = p.signals.items;
      nodes = p.nodes.items;
      left = p.left.items;
    }) };
}

fn all_placed(signals: &[Option<u32>], names: &[usize]) -> bool
    ensures { result ≡ all_placed signals.now names.now }
{
    names.iter().all(|name| signal_of(signals, *name).is_some())
}

// The signals of names that are placed.
fn signals_by(
    alloc: Global,
    signals: &[Option<u32>],
    names: &[usize],
) -> Result<Vec<u32>, AllocError>
    ensures { IfOk result (λ v. v.items ≡ signals_by signals.now names.now) }
{
    names
        .iter()
        .map(|name| signal_of(signals, *name).unwrap_or(0))
        .collect(alloc)
}

// A cover as a node over signals.
fn over_signals(alloc: Global, signals: &[Option<u32>], cover: &Cover) -> Result<Node, AllocError>
    ensures { IfOk result (λ node. node ≡ over_signals signals.now cover.now.node) }
{
    let operands = signals_by(alloc, signals, cover.operands())?;
    let products = Vec::from_slice(alloc, cover.products())?;
    Ok(Node::new(operands, products, cover.on()))
}

impl Placing {
    fn node_count(&self) -> usize
        ensures { result ≡ length self.now.nodes }
    {
        self.nodes.len()
    }

    // Places a cover after the others, or leaves it.
    fn add(&mut self, alloc: Global, k: usize, cover: &Cover) -> Result<(), AllocError>
        requires { self.old.inputs + length self.old.nodes < MOST_SIGNALS }
        ensures value { OnOk result (self.new ≡ with_cover self.old k cover.now) }
        ensures count { OnOk result (self.new.inputs + length self.new.nodes + length self.new.left
            ≡ self.old.inputs + length self.old.nodes + length self.old.left + 1) }
        ensures inputs { OnOk result (self.new.inputs ≡ self.old.inputs) }
    {
        if all_placed(&self.signals, cover.operands()) {
            let signal = self.inputs + self.node_count() as u32;
            let node = over_signals(alloc, &self.signals, cover)?;
            self.nodes.push(node)?;
            set_signal(&mut self.signals, cover.name(), signal);
        } else {
            self.left.push(k)?;
        }
        Ok(())
    }

    // Places covers by their numbers, or leaves them.
    fn add_all(
        &mut self,
        alloc: Global,
        covers: &[Cover],
        numbers: &[usize],
    ) -> Result<(), AllocError>
        requires { self.old.inputs + length self.old.nodes + length self.old.left + length numbers.now ≤ MOST_SIGNALS }
        ensures value { OnOk result (self.new ≡ with_covers covers.now self.old numbers.now) }
        ensures room { OnOk result (self.new.inputs + length self.new.nodes + length self.new.left ≤ MOST_SIGNALS) }
        ensures inputs { OnOk result (self.new.inputs ≡ self.old.inputs) }
    {
        for k in numbers {
            match cover_at(covers, *k) {
                Some(cover) => self.add(alloc, *k, cover)?,
                None => {}
            }
        }
        Ok(())
    }

    // One pass over the covers that are left.
    fn pass(&mut self, alloc: Global, covers: &[Cover]) -> Result<(), AllocError>
        requires { self.old.inputs + length self.old.nodes + length self.old.left ≤ MOST_SIGNALS }
        ensures value { OnOk result (self.new ≡ pass covers.now self.old) }
        ensures room { OnOk result (self.new.inputs + length self.new.nodes + length self.new.left ≤ MOST_SIGNALS) }
        ensures inputs { OnOk result (self.new.inputs ≡ self.old.inputs) }
    {
        let left = replace(&mut self.left, Vec::new(alloc));
        self.add_all(alloc, covers, &left)?;
        self.left.reverse();
        Ok(())
    }

    // Passes there and back, at most so many times, until none is placed.
    pub(crate) fn rounds(
        &mut self,
        alloc: Global,
        covers: &[Cover],
        most: usize,
    ) -> Result<(), AllocError>
        requires { self.old.inputs + length self.old.nodes + length self.old.left ≤ MOST_SIGNALS }
        ensures value { OnOk result (self.new ≡ rounds most covers.now self.old) }
        ensures room { OnOk result (self.new.inputs + length self.new.nodes + length self.new.left ≤ MOST_SIGNALS) }
        ensures inputs { OnOk result (self.new.inputs ≡ self.old.inputs) }
    {
        for count in 0..most {
            let before = self.node_count();
            self.pass(alloc, covers)?;
            self.pass(alloc, covers)?;
            if self.node_count() == before {
                return Ok(());
            }
        }
        Ok(())
    }
}

// The signals of the inputs.
pub(crate) fn input_signals(
    alloc: Global,
    names: usize,
    inputs: &[usize],
) -> Result<Vec<Option<u32>>, AllocError>
    requires { length inputs.now ≤ MOST_SIGNALS }
    ensures value { IfOk result (λ v. v.items ≡ with_inputs 0 (replicate names None) inputs.now) }
    ensures below { IfOk result (λ v.
        (name : ℕ) → IfSome (signal_of v.items name) (λ signal. signal < length inputs.now)) }
{
    let mut signals = vec![in alloc; None; names]?;
    for i in 0..inputs.len() {
        set_signal(&mut signals, inputs[i], i as u32);
    }
    Ok(signals)
}
