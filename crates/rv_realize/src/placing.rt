// An order of lines in which the inputs and the outputs stand in their order.
use crate::cells::{at, put_at};
use rv_gate::{Gate, LineSet, MOST_LINES, Shape, has};
use std::alloc::{AllocError, Global};

const LINES: usize = MOST_LINES as usize;

// No line.
const NONE: u8 = MOST_LINES;

// Lines in a new order, as far as they are placed. The first lines are the inputs.
#[derive(Drop)]
pub(crate) struct Placing {
    inputs: u8,
    // the line of each output
    outputs: Vec<u8>,
    next_input: u8,
    next_output: usize,
    /// The lines in their new order.
    pub(crate) lines: Vec<u8>,
    /// Exchanges at the end, of outputs that no order of lines brings in order.
    pub(crate) swaps: Vec<Gate>,
}

impl Placing {
    pub(crate) fn new(alloc: Global, inputs: u8, outputs: &[u8]) -> Result<Placing, AllocError> {
        Ok(Placing {
            inputs,
            outputs: Vec::from_slice(alloc, outputs)?,
            next_input: 0,
            next_output: 0,
            lines: Vec::new(alloc),
            swaps: Vec::new(alloc),
        })
    }

    /// The output that a line has.
    pub(crate) fn output_on(&self, line: u8) -> Option<usize> {
        self.outputs.iter().position(|own| *own == line)
    }

    fn place_output(&mut self) -> Result<(), AllocError> {
        self.lines.push(at(&self.outputs, self.next_output, NONE))?;
        self.next_output = self.next_output.saturating_add(1);
        Ok(())
    }

    // Exchanges, at the end, an output on an input's line with the next one, which is on that of another input.
    fn exchange(&mut self, output: usize, line: u8, other: u8) -> Result<(), AllocError> {
        if let Some(gate) = Gate::swap(0, 0, line, other) {
            self.swaps.push(gate)?;
        }
        put_at(&mut self.outputs, self.next_output, line);
        put_at(&mut self.outputs, output, other);
        Ok(())
    }

    // Places the next input, or the next output if this has to come first.
    fn place_input(&mut self) -> Result<(), AllocError> {
        let line = self.next_input;
        if let Some(output) = self.output_on(line) {
            let other = at(&self.outputs, self.next_output, NONE);
            if output != self.next_output && other >= self.inputs {
                return self.place_output();
            }
            if output != self.next_output {
                self.exchange(output, line, other)?;
            }
            self.next_output = self.next_output.saturating_add(1);
        }
        self.lines.push(line)?;
        self.next_input = line.saturating_add(1);
        Ok(())
    }

    /// Places all inputs and outputs.
    pub(crate) fn run(&mut self) -> Result<(), AllocError> {
        for _ in 0..2 * LINES {
            if self.next_input < self.inputs {
                self.place_input()?;
            } else if self.next_output < self.outputs.len() {
                self.place_output()?;
            }
        }
        Ok(())
    }

    /// Places the other lines of a set.
    pub(crate) fn place_rest(&mut self, used: LineSet) -> Result<(), AllocError> {
        for line in 0..MOST_LINES {
            if has(used, line) && !self.lines.contains(&line) {
                self.lines.push(line)?;
            }
        }
        Ok(())
    }

    fn place_of(&self, line: u8) -> Option<u8> {
        let place = self.lines.iter().position(|own| *own == line)?;
        u8::try_from(place).ok()
    }

    fn set_of(&self, lines: LineSet) -> LineSet {
        let mut set = 0;
        for line in 0..MOST_LINES {
            if has(lines, line)
                && let Some(place) = self.place_of(line)
            {
                set |= 1u64 << (place % MOST_LINES);
            }
        }
        set
    }

    /// A gate on the lines in their new order.
    pub(crate) fn placed(&self, gate: Gate) -> Option<Gate> {
        match gate.shape() {
            Shape::Flip { care, want, target } => Gate::flip(
                self.set_of(care),
                self.set_of(want),
                self.place_of(target)?,
            ),
            Shape::Swap { care, want, a, b } => Gate::swap(
                self.set_of(care),
                self.set_of(want),
                self.place_of(a)?,
                self.place_of(b)?,
            ),
            Shape::Peres { a, b, c } => {
                Gate::peres(self.place_of(a)?, self.place_of(b)?, self.place_of(c)?)
            }
        }
    }
}
