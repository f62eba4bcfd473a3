// A flow and a plan as operations again.
use crate::common::{add, at, bit, line_of, lowest, put_at, without_lowest};
use crate::flow::{Flow, minus, plus};
use crate::frame::Frame;
use crate::plan::Plan;
use crate::table::{Entry, Table};
use rv_net::Op;
use std::alloc::{AllocError, Global};

const NO_TERM: usize = usize::MAX;

// Operations so far, which terms are written, and the term that is written between two X, for a phase of the whole.
#[derive(Drop)]
struct Writing {
    ops: Vec<Op>,
    frame: Frame,
    is_written: Vec<bool>,
    reversed: usize,
}

// The first term with this power, or with an odd one.
fn first_with(flow: &Flow, power: u8, any_odd: bool) -> usize {
    for place in 0..flow.terms.len() {
        let other = flow.term(place).power;
        if other == power || any_odd && other & 1 == 1 {
            return place;
        }
    }
    NO_TERM
}

// The term between two X writes the opposite of its power as a phase of the whole.
fn reversed_term(flow: &Flow) -> usize {
    let power = minus(flow.constant);
    if power == 0 || power == 4 {
        return NO_TERM;
    }
    let term = first_with(flow, power, false);
    if term == NO_TERM && power & 1 == 1 {
        first_with(flow, power, true)
    } else {
        term
    }
}

impl Writing {
    fn new(alloc: Global, flow: &Flow) -> Result<Writing, AllocError> {
        let frame = Frame::new(alloc, flow.lines)?;
        let is_written = vec![in alloc; false; flow.terms.len()]?;
        Ok(Writing {
            ops: Vec::new(alloc),
            frame,
            is_written,
            reversed: reversed_term(flow),
        })
    }

    fn two(&mut self, first: Op, second: Op) -> Result<(), AllocError> {
        add(&mut self.ops, first)?;
        add(&mut self.ops, second)
    }

    fn phase(&mut self, line: u8, power: u8) -> Result<(), AllocError> {
        match power & 7 {
            0 => Ok(()),
            1 => add(&mut self.ops, Op::T(line)),
            2 => add(&mut self.ops, Op::S(line)),
            3 => self.two(Op::S(line), Op::T(line)),
            4 => add(&mut self.ops, Op::Z(line)),
            5 => self.two(Op::Z(line), Op::T(line)),
            6 => add(&mut self.ops, Op::Sdg(line)),
            _ => add(&mut self.ops, Op::Tdg(line)),
        }
    }

    fn term(&mut self, flow: &Flow, place: usize, line: u8) -> Result<(), AllocError> {
        let power = flow.term(place).power;
        if place != self.reversed {
            return self.phase(line, power);
        }
        add(&mut self.ops, Op::X(line))?;
        self.phase(line, minus(power))?;
        add(&mut self.ops, Op::X(line))
    }

    // Writes the term of what a line holds, if it has one that isn't written yet.
    fn held(
        &mut self,
        flow: &Flow,
        table: &Table,
        region: usize,
        line: usize,
    ) -> Result<(), AllocError> {
        if let Some(place) = table.find(region, self.frame.row(line)) {
            if !at(&self.is_written, place, true) {
                put_at(&mut self.is_written, place, true);
                self.term(flow, place, line_of(line))?;
            }
        }
        Ok(())
    }

    // Writes a sign of a sum as signs of lines, where no later region has the sum.
    fn sign(&mut self, flow: &Flow, region: usize, entry: Entry) -> Result<(), AllocError> {
        let place = entry.term as usize;
        let is_due = flow.term(place).power == 4 && !at(&self.is_written, place, true);
        if !is_due || flow.later(region, entry.set).is_some() {
            return Ok(());
        }
        put_at(&mut self.is_written, place, true);
        let lines = self.frame.lines_of(entry.set);
        let mut left = lines;
        for _ in 0..lines.count_ones() {
            add(&mut self.ops, Op::Z(line_of(lowest(left))))?;
            left = without_lowest(left);
        }
        Ok(())
    }

    fn signs(&mut self, flow: &Flow, table: &Table, region: usize) -> Result<(), AllocError> {
        for entry in table.of_region(region) {
            self.sign(flow, region, *entry)?;
        }
        Ok(())
    }

    fn flips(
        &mut self,
        flow: &Flow,
        table: &Table,
        plan: &Plan,
        region: usize,
    ) -> Result<(), AllocError> {
        for flip in plan.of_region(region) {
            let (control, target) = (usize::from(flip.control), usize::from(flip.target));
            add(&mut self.ops, Op::Cx(flip.control, flip.target))?;
            self.frame.flip(control, target);
            self.held(flow, table, region, target)?;
        }
        Ok(())
    }

    fn cut(&mut self, flow: &Flow, region: usize) -> Result<(), AllocError> {
        let cut = flow.cut(region);
        let mut left = cut;
        for _ in 0..cut.count_ones() {
            add(&mut self.ops, Op::H(line_of(lowest(left))))?;
            left = without_lowest(left);
        }
        self.frame.pass(flow.map(region), flow.inverse(region));
        Ok(())
    }

    fn region(
        &mut self,
        flow: &Flow,
        table: &Table,
        plan: &Plan,
        region: usize,
    ) -> Result<(), AllocError> {
        for line in 0..flow.lines {
            self.held(flow, table, region, line)?;
        }
        self.signs(flow, table, region)?;
        self.flips(flow, table, plan, region)?;
        self.cut(flow, region)
    }

    // Ends with the turned lines, and a phase of the whole that is left.
    fn end(&mut self, flow: &Flow) -> Result<(), AllocError> {
        let mut power = flow.constant;
        if self.reversed != NO_TERM {
            power = plus(power, flow.term(self.reversed).power);
        }
        let mut turned = flow.turned;
        if power != 0 && turned == 0 {
            add(&mut self.ops, Op::X(0))?;
            turned = bit(0);
        }
        let mut left = turned;
        for _ in 0..turned.count_ones() {
            let line = line_of(lowest(left));
            self.phase(line, power)?;
            add(&mut self.ops, Op::X(line))?;
            self.phase(line, power)?;
            left = without_lowest(left);
            power = 0;
        }
        Ok(())
    }

    fn all(&mut self, flow: &Flow, table: &Table, plan: &Plan) -> Result<(), AllocError> {
        for region in 0..flow.count() {
            self.region(flow, table, plan, region)?;
        }
        self.end(flow)
    }
}

/// The operations of a flow, with the flips of a plan: each term where a line first holds its sum. None if one has no
/// place.
pub(crate) fn written(
    alloc: Global,
    flow: &Flow,
    table: &Table,
    plan: &Plan,
) -> Result<Option<Vec<Op>>, AllocError> {
    let mut writing = Writing::new(alloc, flow)?;
    writing.all(flow, table, plan)?;
    let Writing {
        ops,
        is_written,
        ..
    } = writing;
    if is_written.iter().all(|is| *is) {
        Ok(Some(ops))
    } else {
        Ok(None)
    }
}
