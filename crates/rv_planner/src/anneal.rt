// Orders of steps on few lines, by annealing.
use crate::load::{Load, load_of};
use crate::moves::Mover;
use crate::order::{Order, Problem};
use crate::solver::Solver;
use std::alloc::{AllocError, Global};
use std::mem::swap;

// A T gate weighs so much, and a line at a step.
const GATE: i64 = 256;

const LINE: i64 = 5;

// The temperature at the beginning, and how it falls with each phase, in parts of 2^16.
const HOT: i64 = 4 * 256;

const COOLER: i64 = 62937;

// What a line above the limit weighs at the beginning, in parts of 2^8 of a unit, and how it grows with each phase.
const LIGHT: i64 = 179 * 256;

const HEAVIER: i64 = 68078;

const PHASES: usize = 64;

/// The order that is being changed, and the best one on few enough lines.
#[derive(Drop)]
pub(crate) struct Annealer {
    pub(crate) solver: Solver,
    mover: Mover,
    pub(crate) current: Order,
    pub(crate) best: Order,
    /// Whether there is a best one.
    pub(crate) is_found: bool,
    price: i64,
    load: Load,
    best_price: i64,
    best_sum: i64,
}

impl Annealer {
    pub(crate) fn new(alloc: Global, seed: u16) -> Result<Annealer, AllocError> {
        Ok(Annealer {
            solver: Solver::new(alloc)?,
            mover: Mover::new(alloc, seed),
            current: Order::new(alloc),
            best: Order::new(alloc),
            is_found: false,
            price: 0,
            load: Load {
                over: 0,
                sum: 0,
                most: 0,
            },
            best_price: 0,
            best_sum: 0,
        })
    }

    // Notes the order, if it is the best one so far.
    fn note(&mut self) -> Result<(), AllocError> {
        let worse = self.price > self.best_price
            || self.price == self.best_price && self.load.sum >= self.best_sum;
        if self.load.over > 0 || self.is_found && worse {
            return Ok(());
        }
        self.is_found = true;
        self.best_price = self.price;
        self.best_sum = self.load.sum;
        self.best.assign(&self.current)
    }

    // Begins with the current order.
    fn begin(&mut self, limit: i64) -> Result<(), AllocError> {
        self.load = load_of(&self.current, limit);
        self.price = self.current.price();
        self.is_found = false;
        self.note()
    }

    // One change.
    fn step(
        &mut self,
        problem: &Problem,
        limit: i64,
        temperature: i64,
        weight: i64,
    ) -> Result<(), AllocError> {
        let Some(range) = self.mover.change(problem, &self.current)? else {
            return Ok(());
        };
        let next = &mut self.mover.next;
        self.solver.match_steps(problem, next);
        self.solver.refresh(problem, next, range.low, range.high)?;
        let load = load_of(next, limit);
        let price = next.price();
        let over = load.over.saturating_sub(self.load.over);
        let worse = (price.saturating_sub(self.price).saturating_mul(GATE))
            .saturating_add(over.saturating_mul(weight) / 256)
            .saturating_add(load.sum.saturating_sub(self.load.sum).saturating_mul(LINE));
        if self.mover.takes(worse, temperature) {
            swap(&mut self.current, &mut self.mover.next);
            self.load = load;
            self.price = price;
            self.note()?;
        }
        Ok(())
    }

    /// Changes the current order so often, towards few T gates on at most so many lines.
    pub(crate) fn run(
        &mut self,
        problem: &Problem,
        limit: i64,
        changes: usize,
    ) -> Result<(), AllocError> {
        self.begin(limit)?;
        let (mut temperature, mut weight) = (HOT, LIGHT);
        for _ in 0..PHASES {
            for _ in 0..changes / PHASES {
                self.step(problem, limit, temperature, weight)?;
            }
            temperature = temperature.saturating_mul(COOLER) / 65536;
            weight = weight.saturating_mul(HEAVIER) / 65536;
        }
        Ok(())
    }
}
