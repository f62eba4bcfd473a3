// The slots that have to be looked at.
ghost use Rattle.std.specs.Prelude.{◌≡◌, ◌<◌, ℕ, Bool, List, true, false, length, slice_set, IfOk, MatchOption, IsTrue};
ghost use Rattle.rv_cube.specs.inside.Slots.{is_due};

use std::alloc::{AllocError, Global};
use std::marker::Model;

/// Slots that have to be looked at.
#[derive(Drop)]
pub struct Due {
    rows: Vec<bool>,
    // no row before this one is due
    least: usize,
    // no row from this one on is due
    end: usize,
    // no row was ever done
    fresh: bool,
}

impl Model for Due {
    ghost use Rattle.std.specs.Prelude.{List, Bool};
    ghost use Rattle.rv_cube.specs.inside.Due.{IsDue};

    ghost Value = { List Bool };

    ghost view = { λ d. d.rows.items };

    ghost invariant = { λ d. IsDue d.rows.items d.least d.end d.fresh };
}

impl Due {
    /// So many rows, all of them due.
    pub fn new(alloc: Global, len: usize) -> Result<Due, AllocError>
        ensures len { IfOk result (λ d. length d ≡ len) }
        ensures due { IfOk result (λ d. (a : ℕ) → a < len → is_due d a ≡ true) }
    {
        let mut rows = Vec::new(alloc);
        rows.resize(len, true)?;
        Ok(Due {
            rows,
            least: 0,
            end: len,
            fresh: true,
        })
    }

    pub fn len(&self) -> usize
        ensures { result ≡ length self.now }
    {
        self.rows.len()
    }

    /// All rows are due, since none was done.
    pub fn is_fresh(&self) -> bool
        ensures { IsTrue result → (a : ℕ) → a < length self.now → is_due self.now a ≡ true }
    {
        self.fresh
    }

    /// Makes a row due.
    pub fn put(&mut self, row: usize)
        requires { row < length self.old }
        ensures { self.new ≡ slice_set self.old row true }
    {
        self.rows[row] = true;
        if row < self.least {
            self.least = row;
        }
        if self.end <= row {
            self.end = row + 1;
        }
    }

    /// A row is not due any more.
    pub fn done(&mut self, row: usize)
        requires { row < length self.old }
        ensures { self.new ≡ slice_set self.old row false }
    {
        self.rows[row] = false;
        self.fresh = false;
    }

    /// The least row that is due. It stays due.
    pub fn next(&mut self) -> Option<usize>
        ensures same { self.new ≡ self.old }
        ensures least { MatchOption result ((a : ℕ) → is_due self.old a ≡ false)
            (λ a. (a < length self.old) × (is_due self.old a ≡ true) × ((b : ℕ) → b < a → is_due self.old b ≡ false)) }
    {
        while self.least < self.end {
            if self.rows[self.least] {
                return Some(self.least);
            }
            self.least += 1;
        }
        self.least = self.rows.len();
        self.end = 0;
        None
    }
}
