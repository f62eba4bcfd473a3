// Cubes that concern free entries alone may come and go.
ghost use Rattle.std.specs.Prelude.{◌≡◌, ◌<◌, ◌≤◌, ◌-◌, ◌^◌, ℕ, [], true, length, IfOk, IsTrue};
ghost use Rattle.rv_gate.specs.Word.{has, word_of};
ghost use Rattle.rv_pla.specs.Pla.{entry};
ghost use Rattle.rv_pla.specs.FreeEntries.{is_dont_care};
ghost use Rattle.rv_pla.specs.declared.cube.TheConstants.{MOST_INPUTS};
ghost use Rattle.rv_exorlink.specs.Free.{IsFree, AreOutsFrom, AreFree};

use super::cube::put;
use rv_pla::{Cube, MOST_INPUTS, Pla, has};
use std::alloc::{AllocError, Global};
use std::marker::Model;

/// The free outputs of each word; none are if the table is empty.
#[derive(Drop)]
pub struct Free {
    table: Vec<u16>,
}

impl Model for Free {
    ghost use Rattle.std.specs.Prelude.{List, ℕ};

    ghost Value = { List ℕ };

    ghost view = { λ f. f.table.items };
}

// Of these outputs those that are free at all words that a cube matches, by a table for the inputs from one on.
fn outs_from(table: &[u16], cube: Cube, outs: u16, from: u8, inputs: u8) -> u16
    requires few { inputs ≤ MOST_INPUTS }
    requires within { from ≤ inputs }
    requires full { length table.now ≡ 2 ^ (inputs - from) }
    ensures { AreOutsFrom inputs from table.now cube outs result }
{
    if from == inputs {
        return outs & table[0];
    }
    let half = table.len() / 2;
    if !has(cube.care, from) {
        let some = outs_from(&table[..half], cube, outs, from + 1, inputs);
        if some == 0 {
            return 0;
        }
        return outs_from(&table[half..], cube, some, from + 1, inputs);
    }
    if has(cube.want, from) {
        return outs_from(&table[half..], cube, outs, from + 1, inputs);
    }
    outs_from(&table[..half], cube, outs, from + 1, inputs)
}

// The outputs that are free at a word.
fn free_at(pla: &Pla, number: u32) -> u16
    requires { number < 2 ^ pla.now.inputs }
    ensures { (output : ℕ) → has result output ≡ true
        → is_dont_care (entry pla.now (word_of pla.now.inputs number) output) ≡ true }
{
    let mut outs = 0u16;
    for output in 0..pla.outputs() {
        outs = put(outs, output, pla.value(number, output).is_dont_care());
    }
    outs
}

impl Free {
    /// No entry is free.
    pub fn none(alloc: Global) -> Free
        ensures { result ≡ [] }
    {
        Free {
            table: Vec::new(alloc),
        }
    }

    /// The free entries of a PLA.
    pub fn of(alloc: Global, pla: &Pla) -> Result<Free, AllocError>
        ensures { IfOk result (AreFree pla.now) }
    {
        let mut table = Vec::new(alloc);
        let mut some = false;
        for number in 0..1u32 << pla.inputs() {
            let outs = free_at(pla, number);
            some |= outs != 0;
            table.push(outs)?;
        }
        if some {
            Ok(Free { table })
        } else {
            Ok(Free::none(alloc))
        }
    }

    /// Whether no entry is free.
    pub fn is_none(&self) -> bool {
        self.table.is_empty()
    }

    /// The free outputs of the word with this number.
    pub fn outs_at(&self, number: usize) -> u16 {
        if number < self.table.len() {
            self.table[number]
        } else {
            0
        }
    }

    /// The outputs of a cube that are free at all words that it matches.
    pub fn outs_of(&self, cube: Cube, inputs: u8) -> u16
        requires { inputs ≤ MOST_INPUTS }
    {
        if self.table.len() != 1usize << inputs {
            return 0;
        }
        outs_from(&self.table, cube, cube.outs, 0, inputs)
    }

    /// Whether a cube concerns free entries alone.
    #[inline(always)]
    pub fn has(&self, cube: Cube, inputs: u8) -> bool
        requires { inputs ≤ MOST_INPUTS }
        ensures { IsTrue result → IsFree inputs self.now cube }
    {
        if self.table.len() != 1usize << inputs {
            return false;
        }
        outs_from(&self.table, cube, cube.outs, 0, inputs) == cube.outs
    }
}
