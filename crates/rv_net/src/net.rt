ghost use Rattle.std.specs.Prelude.{◌≡◌, ◌≤◌, ◌↔◌, ◌++◌, ◌∷◌, [], length, OnOk, OnErr};
ghost use Rattle.rv_gate.specs.declared.word.TheConstants.{MOST_LINES};
ghost use Rattle.rv_net.specs.Op.{IsNetwork, OpFitsIn};
ghost use Rattle.rv_net.specs.Denotes.{IsProductAt};

use crate::Op;
use std::alloc::Global;
use std::marker::Model;

/// The most operations that a network has.
pub const MOST_OPS: usize = 1 << 22;

/// Why an operation was not added.
#[derive(Clone, Copy)]
pub enum OpFault {
    /// There are [`MOST_OPS`] operations.
    TooManyOps,
    /// Memory was wanting.
    Mem,
}

/// A network of operations on 1 to [`MOST_LINES`](rv_gate::MOST_LINES) lines, which act in their order. Each fits.
#[derive(Drop)]
pub struct Net {
    lines: u8,
    ops: Vec<Op>,
}

impl Model for Net {
    ghost use Rattle.rv_net.specs.Op.{IsNetwork, Network};

    ghost Value = { Network };

    ghost view = { λ n. record { lines = n.lines; ops = n.ops.items } };

    ghost invariant = { λ n. IsNetwork (record { lines = n.lines; ops = n.ops.items }) };
}

impl Net {
    /// No operations on so many lines. Takes no memory.
    pub fn new(alloc: Global, lines: u8) -> Net
        requires some { 1 ≤ lines }
        requires few { lines ≤ MOST_LINES }
        ensures { result ≡ record { lines = lines; ops = [] } }
    {
        Net {
            lines,
            ops: Vec::new(alloc),
        }
    }

    /// These operations.
    pub fn of_ops(lines: u8, ops: Vec<Op>) -> Net
        requires { IsNetwork (record { lines = lines; ops = ops.items }) }
        ensures { result ≡ record { lines = lines; ops = ops.items } }
    {
        Net { lines, ops }
    }

    /// How many lines there are. Its contract also tells what every network keeps.
    pub fn lines(&self) -> u8
        ensures value { result ≡ self.now.lines }
        ensures valid { IsNetwork self.now }
    {
        self.lines
    }

    /// For proofs: recalls what every network keeps. Does nothing when it runs.
    pub fn recall_invariant(&self)
        ensures { IsNetwork self.now }
    {
        let _ = &self.lines;
    }

    /// The operations, in the order in which they act.
    pub fn ops(&self) -> &[Op]
        ensures { result.now ≡ self.now.ops }
    {
        &self.ops
    }

    /// The same operations on more lines.
    pub fn widen(&mut self, lines: u8)
        requires more { self.old.lines ≤ lines }
        requires few { lines ≤ MOST_LINES }
        ensures { self.new ≡ record self.old { lines = lines } }
    {
        self.lines = lines;
    }

    /// Adds an operation after the others: the amplitudes become their matrix times that of the operation.
    pub fn push(&mut self, op: Op) -> Result<(), OpFault>
        requires { OpFitsIn op self.old.lines }
        ensures ok { OnOk result (self.new ≡ record self.old { ops = self.old.ops ++ op ∷ [] }) }
        ensures product { OnOk result (IsProductAt self.new.ops self.old.ops (op ∷ [])) }
        ensures err { OnErr result (self.new ≡ self.old) }
        ensures full { (result ≡ Err OpFault.TooManyOps) ↔ (length self.old.ops ≡ MOST_OPS) }
    {
        if self.ops.len() == MOST_OPS {
            return Err(OpFault::TooManyOps);
        }
        match self.ops.push(op) {
            Ok(()) => {}
            Err(_) => return Err(OpFault::Mem),
        }
        Ok(())
    }
}
