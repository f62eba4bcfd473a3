// The operations of a network, one at a time.
ghost use Rattle.std.specs.Prelude.{◌≡◌, ◌≢◌, ◌<◌, ◌≤◌, ◌%◌, ◌+◌, ◌&&◌, ◌∷◌, [], Bool, List, false, length, if◌then◌else◌};
ghost use Rattle.std.specs.Prelude.{slice_set, IfOk, IfSome, IsFalse, IsTrue};
ghost use Rattle.rv_gate.specs.Word.{bit_of};
ghost use Rattle.rv_gate.specs.declared.word.TheConstants.{MOST_LINES};
ghost use Rattle.rv_net.specs.Op.{OpFitsIn};
ghost use Rattle.rv_net.specs.declared.op.Op.TheVariants.{X, Y, Z, H, S, Sdg, T, Tdg, Cx, Cz, Ccx, Swap, Cswap};
ghost use Rattle.rv_terms.specs.Products.{odd};
ghost use Rattle.rv_sums.specs.inside.State.{EndsLack, IsFree, IsPhaseOp, IsPhased, Leads, word_at};

use crate::fault::PathFault;
use crate::path_sum::{PathSum, always};
use rv_net::Op;
use rv_terms::Sum;
use std::alloc::Global;

impl PathSum {
    // A power of w where the bit of a line is 1.
    fn turn_line(&mut self, line: u8, weight: u8) -> Result<(), PathFault>
        requires { line < length self.old.sums.items }
        ensures { IfOk result (λ _. IsPhased line weight self.old self.new) }
    {
        self.phases.add_sum(&self.sums[usize::from(line)], weight)?;
        Ok(())
    }

    // An operation that is no more than that.
    fn phase(&mut self, op: Op, line: u8, weight: u8) -> Result<(), PathFault>
        requires line { line < length self.old.sums.items }
        requires op { IsPhaseOp op line weight }
        ensures { IfOk result (λ _. Leads (op ∷ []) self.old self.new) }
    {
        self.turn_line(line, weight)?;
        Ok(())
    }

    fn x(&mut self, alloc: Global, line: u8) -> Result<(), PathFault>
        requires { line < length self.old.sums.items }
        ensures { IfOk result (λ _. Leads (X line ∷ []) self.old self.new) }
    {
        let one = always(alloc)?;
        self.flip(alloc, line, &one)?;
        Ok(())
    }

    fn y(&mut self, alloc: Global, line: u8) -> Result<(), PathFault>
        requires { line < length self.old.sums.items }
        ensures { IfOk result (λ _. Leads (Y line ∷ []) self.old self.new) }
    {
        let one = always(alloc)?;
        self.turn(&one, 2)?;
        self.turn_line(line, 4)?;
        self.flip(alloc, line, &one)?;
        Ok(())
    }

    fn cx(&mut self, alloc: Global, a: u8, b: u8) -> Result<(), PathFault>
        requires control { a < length self.old.sums.items }
        requires target { b < length self.old.sums.items }
        ensures { IfOk result (λ _. Leads (Cx a b ∷ []) self.old self.new) }
    {
        let bit = self.sums[usize::from(a)].copy(alloc)?;
        self.flip(alloc, b, &bit)?;
        Ok(())
    }

    // The product of the bits of two lines.
    fn both(&self, alloc: Global, a: u8, b: u8) -> Result<Sum, PathFault>
        requires first { a < length self.now.sums.items }
        requires second { b < length self.now.sums.items }
        ensures { IfOk result (λ sum. (x v : List Bool)
            → odd sum x v ≡ (bit_of (word_at self.now.sums.items x v) a && bit_of (word_at self.now.sums.items x v) b)) }
    {
        let product = self.sums[usize::from(a)].times(alloc, &self.sums[usize::from(b)])?;
        Ok(product)
    }

    fn ccx(&mut self, alloc: Global, a: u8, b: u8, target: u8) -> Result<(), PathFault>
        requires first { a < length self.old.sums.items }
        requires second { b < length self.old.sums.items }
        requires target { target < length self.old.sums.items }
        ensures { IfOk result (λ _. Leads (Ccx a b target ∷ []) self.old self.new) }
    {
        let product = self.both(alloc, a, b)?;
        self.flip(alloc, target, &product)?;
        Ok(())
    }

    fn cz(&mut self, alloc: Global, a: u8, b: u8) -> Result<(), PathFault>
        requires first { a < length self.old.sums.items }
        requires second { b < length self.old.sums.items }
        ensures { IfOk result (λ _. Leads (Cz a b ∷ []) self.old self.new) }
    {
        let product = self.both(alloc, a, b)?;
        self.turn(&product, 4)?;
        Ok(())
    }

    fn swap(&mut self, a: u8, b: u8)
        requires first { a < length self.old.sums.items }
        requires second { b < length self.old.sums.items }
        ensures { Leads (Swap a b ∷ []) self.old self.new }
    {
        self.sums.swap(usize::from(a), usize::from(b));
    }

    // Both lines are flipped where they differ and the control is 1.
    fn cswap(&mut self, alloc: Global, control: u8, a: u8, b: u8) -> Result<(), PathFault>
        requires control { control < length self.old.sums.items }
        requires first { a < length self.old.sums.items }
        requires second { b < length self.old.sums.items }
        requires apart { a ≢ b }
        ensures { IfOk result (λ _. Leads (Cswap control a b ∷ []) self.old self.new) }
    {
        let differ = self.sums[usize::from(a)].plus(alloc, &self.sums[usize::from(b)])?;
        let exchange = differ.times(alloc, &self.sums[usize::from(control)])?;
        self.flip(alloc, a, &exchange)?;
        self.flip(alloc, b, &exchange)?;
        Ok(())
    }

    // One operation more.
    pub(crate) fn step(&mut self, alloc: Global, op: Op) -> Result<(), PathFault>
        requires { OpFitsIn op (length self.old.sums.items) }
        ensures { IfOk result (λ _. Leads (op ∷ []) self.old self.new) }
    {
        match op {
            Op::X(line) => self.x(alloc, line),
            Op::Y(line) => self.y(alloc, line),
            Op::Z(line) => self.phase(op, line, 4),
            Op::H(line) => self.h(alloc, line),
            Op::S(line) => self.phase(op, line, 2),
            Op::Sdg(line) => self.phase(op, line, 6),
            Op::T(line) => self.phase(op, line, 1),
            Op::Tdg(line) => self.phase(op, line, 7),
            Op::Cx(a, b) => self.cx(alloc, a, b),
            Op::Cz(a, b) => self.cz(alloc, a, b),
            Op::Ccx(a, b, target) => self.ccx(alloc, a, b, target),
            Op::Swap(a, b) => {
                self.swap(a, b);
                Ok(())
            }
            Op::Cswap(control, a, b) => self.cswap(alloc, control, a, b),
        }
    }
}
