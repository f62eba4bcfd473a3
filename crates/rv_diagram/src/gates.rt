// What gates make of the functions on lines.
ghost use Rattle.std.specs.Prelude.{◌≡◌, ◌<◌, ◌≤◌, ◌&&◌, ◌∷◌, [], Bool, true, List, All, length, if◌then◌else◌, IfOk, OnOk};
ghost use Rattle.rv_gate.specs.Gate.{FitsIn, holds, same};
ghost use Rattle.rv_gate.specs.Word.{bit_of};
ghost use Rattle.rv_gate.specs.declared.gate.Shape.TheVariants.{Flip, Swap, Peres};
ghost use Rattle.rv_gate.specs.declared.word.TheConstants.{MOST_LINES};
ghost use Rattle.rv_diagram.specs.Diagram.{AreStill, HaveRun, IsEdge, Keeps, value, word_at};

use crate::diagram::Diagram;
use crate::edge::{DiagramFault, Edge};
use rv_gate::{Gate, LineSet, MOST_LINES, Shape, has};
use std::alloc::Global;

impl Diagram {
    /// The function that is a bit of the input word.
    pub fn literal(&mut self, input: u8) -> Result<Edge, DiagramFault>
        requires { input < MOST_LINES }
        ensures keeps { Keeps self.old self.new }
        ensures edge { IfOk result (IsEdge self.new) }
        ensures value { IfOk result (λ e. (x : List Bool) → value self.new e x ≡ bit_of x input) }
    {
        let edge = self.branch(input, Edge::ZERO, Edge::ONE)?;
        Ok(edge)
    }

    // Where this holds, and a line has the bit that is wanted, if one is.
    fn and_control(
        &mut self,
        on: Edge,
        line: Edge,
        cared: bool,
        wanted: bool,
    ) -> Result<Edge, DiagramFault>
        requires on { IsEdge self.old on }
        requires line { IsEdge self.old line }
        ensures keeps { Keeps self.old self.new }
        ensures edge { IfOk result (IsEdge self.new) }
        ensures value { IfOk result (λ e. (x : List Bool) → value self.new e x
            ≡ ((if cared then same (value self.old line x) wanted else true) && value self.old on x)) }
    {
        if !cared {
            return Ok(on);
        }
        let both = self.and(line.turn(!wanted), on)?;
        Ok(both)
    }

    /// Where each line of `care` has the bit that `want` gives.
    pub fn held(
        &mut self,
        lines: &[Edge],
        care: LineSet,
        want: LineSet,
    ) -> Result<Edge, DiagramFault>
        requires few { length lines.now ≤ MOST_LINES }
        requires lines { All (IsEdge self.old) lines.now }
        ensures keeps { Keeps self.old self.new }
        ensures edge { IfOk result (IsEdge self.new) }
        ensures value { IfOk result (λ e. (x : List Bool)
            → value self.new e x ≡ holds care want (word_at self.old lines.now x)) }
    {
        let mut on = Edge::ONE;
        for line in 0..lines.len() {
            let cared = has(care, line as u8);
            let wanted = has(want, line as u8);
            on = self.and_control(on, lines[line], cared, wanted)?;
        }
        Ok(on)
    }

    fn flip(
        &mut self,
        lines: &mut [Edge],
        care: LineSet,
        want: LineSet,
        target: u8,
    ) -> Result<(), DiagramFault>
        requires fits { FitsIn (Flip care want target) (length lines.old) }
        requires few { length lines.old ≤ MOST_LINES }
        requires lines { All (IsEdge self.old) lines.old }
        ensures keeps { Keeps self.old self.new }
        ensures run { OnOk result (HaveRun self.old self.new lines.old lines.new (Flip care want target ∷ [])) }
    {
        let on = self.held(lines, care, want)?;
        let target = usize::from(target);
        let next = self.xor(lines[target], on)?;
        lines[target] = next;
        Ok(())
    }

    fn swap(
        &mut self,
        lines: &mut [Edge],
        care: LineSet,
        want: LineSet,
        a: u8,
        b: u8,
    ) -> Result<(), DiagramFault>
        requires fits { FitsIn (Swap care want a b) (length lines.old) }
        requires few { length lines.old ≤ MOST_LINES }
        requires lines { All (IsEdge self.old) lines.old }
        ensures keeps { Keeps self.old self.new }
        ensures run { OnOk result (HaveRun self.old self.new lines.old lines.new (Swap care want a b ∷ [])) }
    {
        let on = self.held(lines, care, want)?;
        let (a, b) = (usize::from(a), usize::from(b));
        let (x, y) = (lines[a], lines[b]);
        let apart = self.xor(x, y)?;
        let differ = self.and(apart, on)?;
        let first = self.xor(x, differ)?;
        let second = self.xor(y, differ)?;
        lines[a] = first;
        lines[b] = second;
        Ok(())
    }

    fn peres(&mut self, lines: &mut [Edge], a: u8, b: u8, c: u8) -> Result<(), DiagramFault>
        requires fits { FitsIn (Peres a b c) (length lines.old) }
        requires few { length lines.old ≤ MOST_LINES }
        requires lines { All (IsEdge self.old) lines.old }
        ensures keeps { Keeps self.old self.new }
        ensures run { OnOk result (HaveRun self.old self.new lines.old lines.new (Peres a b c ∷ [])) }
    {
        let (a, b, c) = (usize::from(a), usize::from(b), usize::from(c));
        let (x, y, z) = (lines[a], lines[b], lines[c]);
        let both = self.and(x, y)?;
        let second = self.xor(x, y)?;
        let third = self.xor(z, both)?;
        lines[b] = second;
        lines[c] = third;
        Ok(())
    }

    // What a gate makes of the functions on lines.
    fn act(&mut self, gate: Gate, lines: &mut [Edge]) -> Result<(), DiagramFault>
        requires fits { FitsIn gate (length lines.old) }
        requires few { length lines.old ≤ MOST_LINES }
        requires lines { All (IsEdge self.old) lines.old }
        ensures keeps { Keeps self.old self.new }
        ensures run { OnOk result (HaveRun self.old self.new lines.old lines.new (gate ∷ [])) }
    {
        match gate.shape() {
            Shape::Flip { care, want, target } => self.flip(lines, care, want, target),
            Shape::Swap { care, want, a, b } => self.swap(lines, care, want, a, b),
            Shape::Peres { a, b, c } => self.peres(lines, a, b, c),
        }
    }

    /// What gates make of the functions on lines, one gate after another. The diagram keeps what these and those that are
    /// kept need, and little besides.
    pub fn run_gates(
        &mut self,
        alloc: Global,
        gates: &[Gate],
        lines: &mut [Edge],
        kept: &mut [Edge],
    ) -> Result<(), DiagramFault>
        requires fits { All (λ gate. FitsIn gate (length lines.old)) gates.now }
        requires few { length lines.old ≤ MOST_LINES }
        requires lines { All (IsEdge self.old) lines.old }
        requires kept { All (IsEdge self.old) kept.old }
        ensures kept { OnOk result (AreStill self.old self.new kept.old kept.new) }
        ensures run { OnOk result (HaveRun self.old self.new lines.old lines.new gates.now) }
    {
        for gate in gates {
            self.make_room(alloc, lines, kept)?;
            self.act(*gate, lines)?;
        }
        Ok(())
    }
}
