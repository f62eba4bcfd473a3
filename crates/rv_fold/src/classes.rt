// Where the classes of phases begin.
ghost use Rattle.std.specs.Prelude.{◌≡◌, ◌↔◌, ℕ, ◌+◌, ◌^◌, ◌<◌, ◌≤◌, Some, List, length, slice_index, if◌then◌else◌};
ghost use Rattle.std.specs.Prelude.{All, IsTrue, IfOk};
ghost use Rattle.rv_gate.specs.Word.{has};
ghost use Rattle.rv_gate.specs.declared.word.TheConstants.{MOST_LINES};

use crate::firsts::Firsts;
use crate::parities::Parity;
use rv_gate::LineSet;
use std::alloc::{AllocError, Global};

/// Where the classes begin, by the parities of their phase gates.
#[derive(Drop)]
pub(crate) struct Classes {
    // for each line, the number of operations up to the last one that restarted it
    sinces: Vec<usize>,
    // the first place of the last class of each parity
    firsts: Firsts,
    ghost few: { length sinces.items ≤ MOST_LINES },
}

impl Classes {
    ghost use Rattle.rv_net.specs.Op.{OpFitsIn};
    ghost use Rattle.rv_net.specs.declared.op.Op.{Op};
    ghost use Rattle.rv_fold.specs.Folded.{parity_at, restarted_at};
    ghost use Rattle.rv_fold.specs.inside.Standing.{AreClasses, StartsAt};

    /// No classes, on so many lines of a network of so many operations. No line is restarted.
    pub(crate) fn new(alloc: Global, lines: u8, operations: usize) -> Result<Classes, AllocError>
        requires { lines ≤ MOST_LINES }
        ensures { IfOk result (λ c. (ops : List Op) → AreClasses lines ops 0 c) }
    {
        let mut sinces = Vec::new(alloc);
        for _line in 0..lines {
            sinces.push(0)?;
        }
        Ok(Classes {
            sinces,
            firsts: Firsts::new(alloc, lines, operations)?,
        })
    }

    // Whether no line of a set was restarted from a place on.
    fn is_kept(&self, lines: LineSet, from: usize) -> bool
        ensures { IsTrue result ↔ ((line : ℕ) → line < length self.now.sinces.items → IsTrue (has lines line)
            → slice_index self.now.sinces.items line ≤ from) }
    {
        let mut left = lines;
        while left != 0 {
            let line = left.trailing_zeros() as usize;
            if line < self.sinces.len() && from < self.sinces[line] {
                return false;
            }
            left &= !(1 << line);
        }
        true
    }

    /// The place where the class of a phase gate begins, by the parity on its line: its own place, if it is the first.
    pub(crate) fn first(&mut self, parity: Parity, place: usize) -> Result<usize, AllocError>
        ensures { IfOk result (λ first. (n : ℕ) (ops : List Op) → All (λ op. OpFitsIn op n) ops
            → AreClasses n ops place self.old → parity_at n ops place ≡ Some parity
            → StartsAt n ops place parity first × AreClasses n ops (place + 1) self.new) }
    {
        if let Some(first) = self.firsts.look_up(parity) {
            if self.is_kept(parity.lines, first) {
                return Ok(first);
            }
        }
        self.firsts.note(parity, place)?;
        Ok(place)
    }

    /// The operation at a place restarts a set of lines.
    pub(crate) fn restart(&mut self, lines: LineSet, place: usize)
        requires { place + 1 < 2 ^ 64 }
        ensures sinces { (line : ℕ) → line < length self.old.sinces.items
            → slice_index self.new.sinces.items line
            ≡ (if has lines line then place + 1 else slice_index self.old.sinces.items line) }
        ensures count { length self.new.sinces.items ≡ length self.old.sinces.items }
        ensures firsts { self.new.firsts ≡ self.old.firsts }
    {
        let mut left = lines;
        while left != 0 {
            let line = left.trailing_zeros() as usize;
            if line < self.sinces.len() {
                self.sinces[line] = place + 1;
            }
            left &= !(1 << line);
        }
    }
}
