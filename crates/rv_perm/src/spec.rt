// Permutations with marks.
ghost use Rattle.std.specs.Prelude.{◌≡◌, ◌<◌, slice_get, slice_set, slice_index_or, Some, false};
ghost use Rattle.rv_perm.specs.Marked.{IsMarked, unmarked};

use super::perm::{MOST_PERM_LINES, Perm};
use rv_gate::Mark;
use std::marker::Model;

/// A permutation, with what is put in on each line, and which outputs are garbage.
///
/// The marks do not change the permutation. Its lines are those of the permutation, from 0 on.
#[derive(Drop)]
pub struct PermSpec {
    perm: Perm,
    constants: [Mark; MOST_PERM_LINES as usize],
    garbage: [bool; MOST_PERM_LINES as usize],
}

impl Model for PermSpec {
    ghost use Rattle.std.specs.Prelude.{◌≡◌, length, take};
    ghost use Rattle.rv_perm.specs.declared.perm.TheConstants.{MOST_PERM_LINES};
    ghost use Rattle.rv_perm.specs.Marked.{Marked};
    ghost use Rattle.rv_perm.specs.Perm.{IsPerm};

    ghost Value = { Marked };

    ghost view = { λ s.
        record { table = s.perm; constants = take s.perm.lines s.constants; garbage = take s.perm.lines s.garbage } };

    ghost invariant = { λ s.
        IsPerm s.perm.lines s.perm.images × (length s.constants ≡ MOST_PERM_LINES)
        × (length s.garbage ≡ MOST_PERM_LINES) };
}

impl PermSpec {
    /// The permutation without marks: no input is constant, and no output is garbage.
    pub fn new(perm: Perm) -> PermSpec
        ensures { result ≡ unmarked perm }
    {
        // Its lines are few enough for the marks.
        perm.recall_invariant();
        PermSpec {
            perm,
            constants: [Mark::Input; MOST_PERM_LINES as usize],
            garbage: [false; MOST_PERM_LINES as usize],
        }
    }

    /// The permutation.
    pub fn perm(&self) -> &Perm
        ensures value { result.now ≡ self.now.table }
        ensures valid { IsMarked self.now }
    {
        &self.perm
    }

    /// For proofs: recalls what every marked permutation keeps. Does nothing when it runs.
    pub fn recall_invariant(&self)
        ensures { IsMarked self.now }
    {
        let _ = &self.perm;
    }

    /// What is put in on a line.
    pub fn constant(&self, line: u8) -> Mark
        requires { line < self.now.table.lines }
        ensures { slice_get self.now.constants line ≡ Some result }
    {
        self.constants[usize::from(line)]
    }

    /// Whether a line's output is garbage.
    pub fn garbage(&self, line: u8) -> bool
        requires { line < self.now.table.lines }
        ensures { slice_get self.now.garbage line ≡ Some result }
    {
        self.garbage[usize::from(line)]
    }

    /// What is put in on each line.
    pub fn constants(&self) -> &[Mark]
        ensures { result.now ≡ self.now.constants }
    {
        &self.constants[..usize::from(self.perm.lines())]
    }

    /// Of each line, whether its output is garbage.
    pub fn garbage_marks(&self) -> &[bool]
        ensures { result.now ≡ self.now.garbage }
    {
        &self.garbage[..usize::from(self.perm.lines())]
    }

    /// Marks what is put in on a line.
    pub fn set_constant(&mut self, line: u8, mark: Mark)
        requires { line < self.old.table.lines }
        ensures { self.new ≡ record self.old { constants = slice_set self.old.constants line mark } }
    {
        self.constants[usize::from(line)] = mark;
    }

    /// Says whether a line's output is garbage.
    pub fn set_garbage(&mut self, line: u8, garbage: bool)
        requires { line < self.old.table.lines }
        ensures { self.new ≡ record self.old { garbage = slice_set self.old.garbage line garbage } }
    {
        self.garbage[usize::from(line)] = garbage;
    }
}
