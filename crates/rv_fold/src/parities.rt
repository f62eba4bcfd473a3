// The parities on lines, as operations go by.
ghost use Rattle.std.specs.Prelude.{◌≡◌, ◌<◌, ◌≤◌, length, IfOk};
ghost use Rattle.rv_gate.specs.declared.word.TheConstants.{MOST_LINES};
ghost use Rattle.rv_net.specs.Op.{OpFitsIn};
ghost use Rattle.rv_fold.specs.inside.Mixed.{AreMixed};
ghost use Rattle.rv_fold.specs.inside.Shown.{parities_of};
ghost use Rattle.rv_fold.specs.Parities.{parities_after, alone, combined, complemented, direct, restarted, restart_set};
ghost use Rattle.rv_fold.specs.Parities.{same_parity, with_parity};

use rv_gate::LineSet;
use rv_net::Op;
use std::alloc::{AllocError, Global};

/// What the bit of a line is: the exclusive or of the values of some lines, or its complement.
#[derive(Clone, Copy)]
pub struct Parity {
    pub lines: LineSet,
    pub flipped: bool,
}

impl Parity {
    // The line by itself.
    fn alone(line: u8) -> Parity
        requires { line < MOST_LINES }
        ensures { result ≡ alone line }
    {
        Parity {
            lines: 1 << line,
            flipped: false,
        }
    }

    fn complemented(self) -> Parity
        ensures { result ≡ complemented self }
    {
        Parity {
            lines: self.lines,
            flipped: !self.flipped,
        }
    }

    fn combined(self, other: Parity) -> Parity
        ensures { result ≡ combined self other }
    {
        Parity {
            lines: self.lines ^ other.lines,
            flipped: self.flipped ^ other.flipped,
        }
    }

    pub(crate) fn is_same(self, other: Parity) -> bool
        ensures { result ≡ same_parity self other }
    {
        self.lines == other.lines && self.flipped == other.flipped
    }
}

// Each line of a set has itself alone.
fn restart_lines(parities: &mut Vec<Parity>, set: LineSet)
    requires { length parities.old.items ≤ MOST_LINES }
    ensures parities { parities_of parities.new.items ≡ restarted set (parities_of parities.old.items) }
    ensures count { length parities.new.items ≡ length parities.old.items }
{
    let mut left = set;
    while left != 0 {
        let line = left.trailing_zeros() as usize;
        if line < parities.len() {
            parities[line] = Parity::alone(line as u8);
        }
        left &= !(1 << line);
    }
}

/// The parity on each line.
#[derive(Drop)]
pub(crate) struct Parities {
    parities: Vec<Parity>,
    // has each line whose parity isn't the line by itself
    mixed: LineSet,
    ghost few: { length parities.items ≤ MOST_LINES },
    ghost are_mixed: { AreMixed (length parities.items) (parities_of parities.items) mixed },
}

impl Parities {
    /// Each line by itself.
    pub(crate) fn new(alloc: Global, lines: u8) -> Result<Parities, AllocError>
        requires { lines ≤ MOST_LINES }
        ensures each { IfOk result (λ f. parities_of f.parities.items ≡ alone) }
        ensures count { IfOk result (λ f. length f.parities.items ≡ lines) }
    {
        let mut parities = Vec::new(alloc);
        for line in 0..lines {
            parities.push(Parity::alone(line))?;
        }
        Ok(Parities { parities, mixed: 0 })
    }

    /// The parity on a line.
    pub(crate) fn parity(&self, line: u8) -> Parity
        requires { line < length self.now.parities.items }
        ensures { result ≡ parities_of self.now.parities.items line }
    {
        self.parities[line as usize]
    }

    // What a set of lines restarts: it grows by each line whose parity has a line of it.
    fn reached(&self, first: LineSet) -> LineSet
        ensures { result ≡ restart_set (length self.now.parities.items) (parities_of self.now.parities.items) first }
    {
        let mut set = first;
        let mut left = self.mixed & !first;
        while left != 0 {
            let line = left.trailing_zeros() as usize;
            if self.parities[line].lines & set == 0 {
                left &= !(1 << line);
            } else {
                set |= 1 << line;
                left = self.mixed & !set;
            }
        }
        set
    }

    fn set_parity(&mut self, line: u8, parity: Parity)
        requires { line < length self.old.parities.items }
        ensures parities { parities_of self.new.parities.items
            ≡ with_parity (parities_of self.old.parities.items) line parity }
        ensures count { length self.new.parities.items ≡ length self.old.parities.items }
    {
        self.parities[line as usize] = parity;
        self.mixed |= 1 << line;
    }

    // Restarts what a set of lines restarts, and answers those lines.
    fn restart(&mut self, first: LineSet) -> LineSet
        ensures set { result ≡ restart_set (length self.old.parities.items)
            (parities_of self.old.parities.items) first }
        ensures parities { parities_of self.new.parities.items
            ≡ restarted result (parities_of self.old.parities.items) }
        ensures count { length self.new.parities.items ≡ length self.old.parities.items }
    {
        let set = self.reached(first);
        restart_lines(&mut self.parities, set);
        self.mixed &= !set;
        set
    }

    #[tactic(auto, using(crate::proofs::Restarts::restart_none))]
    /// What an operation makes of the parities. Answers the lines that it restarts.
    pub(crate) fn pass(&mut self, op: Op) -> LineSet
        requires { OpFitsIn op (length self.old.parities.items) }
        ensures set { result ≡ restart_set (length self.old.parities.items) (parities_of self.old.parities.items)
            (direct op) }
        ensures parities { parities_of self.new.parities.items
            ≡ parities_after (length self.old.parities.items) op (parities_of self.old.parities.items) }
        ensures count { length self.new.parities.items ≡ length self.old.parities.items }
    {
        match op {
            Op::X(q) | Op::Y(q) => {
                self.set_parity(q, self.parity(q).complemented());
                0
            }
            Op::Cx(a, b) => {
                self.set_parity(b, self.parity(a).combined(self.parity(b)));
                0
            }
            Op::Swap(a, b) => {
                let (first, second) = (self.parity(a), self.parity(b));
                self.set_parity(a, second);
                self.set_parity(b, first);
                0
            }
            Op::H(q) => self.restart(1 << q),
            Op::Ccx(_, _, c) => self.restart(1 << c),
            Op::Cswap(_, a, b) => self.restart(1 << a | 1 << b),
            Op::Z(_) | Op::S(_) | Op::Sdg(_) | Op::T(_) | Op::Tdg(_) | Op::Cz(_, _) => 0,
        }
    }
}
