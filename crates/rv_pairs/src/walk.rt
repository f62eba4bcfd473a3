// One walk over the operations of a network.
ghost use Rattle.std.specs.Prelude.{◌≡◌, ◌*◌, ◌+◌, ◌^◌, ◌<◌, ◌≤◌, true, IfOk, OnOk, MatchOption, None, Some, ◌++◌, ◌∷◌};
ghost use Rattle.std.specs.Prelude.{[], length, slice_set};
ghost use Rattle.rv_gate.specs.declared.word.TheConstants.{MOST_LINES};
ghost use Rattle.rv_net.specs.Op.{OpFitsIn};

use crate::access::{code, inverse, reads, writes};
use crate::chains::Chains;
use rv_gate::MOST_LINES;
use rv_net::Op;
use std::alloc::{AllocError, Global};

/// The operations so far, with gaps where pairs went, and chains of those that read a line, that write it, and that
/// have one number.
#[derive(Drop)]
pub(crate) struct Walk {
    pub(crate) cells: Vec<Option<Op>>,
    pub(crate) reads: Chains,
    pub(crate) writes: Chains,
    pub(crate) alike: Chains,
}

impl Walk {
    ghost use Rattle.rv_pairs.specs.inside.Cells.{HasNoPartner, IsNext, IsPartner};
    ghost use Rattle.rv_pairs.specs.inside.Standing.{Stands};

    /// Before the first operation of a network on so many lines, of so many operations.
    pub(crate) fn new(alloc: Global, lines: u8, operations: usize) -> Result<Walk, AllocError>
        requires { lines ≤ MOST_LINES }
        ensures stands { IfOk result (Stands lines) }
        ensures empty { IfOk result (λ walk. walk.cells.items ≡ []) }
    {
        Ok(Walk {
            cells: Vec::with_capacity(alloc, operations)?,
            reads: Chains::new(alloc, usize::from(MOST_LINES), operations)?,
            writes: Chains::new(alloc, usize::from(MOST_LINES), operations)?,
            alike: Chains::new(alloc, (12 + 2 * usize::from(lines)) << 12, operations)?,
        })
    }

    /// The operations that are left, with the gaps. What the chains took is free then.
    pub(crate) fn into_cells(self) -> Vec<Option<Op>>
        ensures { result ≡ self.cells }
    {
        self.cells
    }

    // Whether a line that an operation reads is written after all that might be its partner. It mostly is, and no cell
    // far back is read.
    fn is_barred(&mut self, op: Op, lines: u8) -> bool
        requires stands { Stands lines self.old }
        requires fits { OpFitsIn op lines }
        requires few { length self.old.cells.items < 2 ^ 32 }
        ensures stands { Stands lines self.new }
        ensures cells { self.new.cells.items ≡ self.old.cells.items }
        ensures barred { result ≡ true → HasNoPartner self.old.cells.items op }
    {
        match self.alike.bound(code(inverse(op))) {
            Some(place) => !self.writes.is_free(&self.cells, reads(op), place),
            None => true,
        }
    }

    // The place of the latest operation that an operation undoes, where all after it commute with it.
    fn nearest(&mut self, op: Op, lines: u8) -> Option<usize>
        requires stands { Stands lines self.old }
        requires fits { OpFitsIn op lines }
        requires few { length self.old.cells.items < 2 ^ 32 }
        ensures stands { Stands lines self.new }
        ensures cells { self.new.cells.items ≡ self.old.cells.items }
        ensures partner { MatchOption result (HasNoPartner self.old.cells.items op)
            (IsPartner self.old.cells.items op) }
    {
        let latest = self.alike.latest(&self.cells, code(inverse(op)));
        if latest == 0 {
            return None;
        }
        let place = latest - 1;
        if self.writes.is_free(&self.cells, reads(op), place)
            && self.reads.is_free(&self.cells, writes(op), place)
        {
            Some(place as usize)
        } else {
            None
        }
    }

    // The place of the partner of an operation, if it has one.
    fn partner(&mut self, op: Op, lines: u8) -> Option<usize>
        requires stands { Stands lines self.old }
        requires fits { OpFitsIn op lines }
        requires few { length self.old.cells.items < 2 ^ 32 }
        ensures stands { Stands lines self.new }
        ensures cells { self.new.cells.items ≡ self.old.cells.items }
        ensures partner { MatchOption result (HasNoPartner self.old.cells.items op)
            (IsPartner self.old.cells.items op) }
    {
        if self.is_barred(op, lines) {
            None
        } else {
            self.nearest(op, lines)
        }
    }

    // Puts an operation after the others.
    fn push(&mut self, op: Op, lines: u8) -> Result<(), AllocError>
        requires stands { Stands lines self.old }
        requires fits { OpFitsIn op lines }
        requires few { length self.old.cells.items < 2 ^ 32 }
        ensures stands { OnOk result (Stands lines self.new) }
        ensures cells { OnOk result (self.new.cells.items ≡ self.old.cells.items ++ Some op ∷ []) }
    {
        let place = self.cells.len() as u32;
        self.cells.push(Some(op))?;
        self.alike.push(code(op), place)?;
        self.reads.add(reads(op), place)?;
        self.writes.add(writes(op), place)?;
        Ok(())
    }

    // Leaves out the operation at a place.
    fn leave_out(&mut self, place: usize, lines: u8)
        requires stands { Stands lines self.old }
        requires within { place < length self.old.cells.items }
        ensures stands { Stands lines self.new }
        ensures cells { self.new.cells.items ≡ slice_set self.old.cells.items place None }
    {
        self.cells[place] = None;
    }

    /// Goes on to an operation: it goes with its partner, or stands after the others.
    pub(crate) fn step(&mut self, op: Op, lines: u8) -> Result<(), AllocError>
        requires stands { Stands lines self.old }
        requires fits { OpFitsIn op lines }
        requires few { length self.old.cells.items < 2 ^ 32 }
        ensures stands { OnOk result (Stands lines self.new) }
        ensures next { OnOk result (IsNext self.old.cells.items op self.new.cells.items) }
    {
        match self.partner(op, lines) {
            Some(place) => {
                self.leave_out(place, lines);
                Ok(())
            }
            None => self.push(op, lines),
        }
    }
}
