// Circuits of which the best ones are made shorter.
use crate::RealizeOptions;
use crate::rank::is_better;
use rv_gate::Circuit;
use rv_price::Goal;
use rv_resynth::{Goal as ShortGoal, resynth, resynth_by_marks};
use std::alloc::{AllocError, Global};

// So many of the best circuits are made shorter, with a part of the effort each.
const BEST: usize = 4;

const PART: u16 = 5;

// More lines than these take too long by marks, and more gates by any way.
const MOST_MARKED_LINES: u8 = 8;

const MOST_GATES: usize = 1 << 10;

// Circuits of at most so many gates are made shorter by more than one goal.
const FEW_GATES: usize = 64;

#[derive(Drop)]
pub(crate) struct Pool {
    alloc: Global,
    options: RealizeOptions,
    pub(crate) circuits: Vec<Circuit>,
}

fn short_goal(goal: Goal) -> ShortGoal {
    match goal {
        Goal::Quantum | Goal::Cx => ShortGoal::Quantum,
        Goal::Gates => ShortGoal::Gates,
        Goal::Lines | Goal::T => ShortGoal::T,
    }
}

impl Pool {
    pub(crate) fn new(alloc: Global, options: RealizeOptions) -> Pool {
        Pool {
            alloc,
            options,
            circuits: Vec::new(alloc),
        }
    }

    /// Adds a circuit, so that better ones stand before it.
    pub(crate) fn add(&mut self, circuit: Circuit) -> Result<(), AllocError> {
        if circuit.line_count() > self.options.lines {
            return Ok(());
        }
        let (alloc, goal) = (self.alloc, self.options.goal);
        let place = self
            .circuits
            .iter()
            .position(|old| is_better(alloc, goal, &circuit, old));
        match place {
            Some(place) => self.circuits.insert(place, circuit)?,
            None => self.circuits.push(circuit)?,
        }
        Ok(())
    }

    // What is made of a circuit by its marks, or by what it does to every word.
    fn shorter(
        &self,
        alloc: Global,
        circuit: &Circuit,
        marked: bool,
    ) -> Result<Circuit, AllocError> {
        let goal = short_goal(self.options.goal);
        if marked {
            resynth_by_marks(alloc, circuit, goal, self.effort(), self.options.seed)
        } else {
            resynth(alloc, circuit, goal, self.effort(), self.options.seed)
        }
    }

    // The effort for one circuit.
    fn effort(&self) -> u16 {
        (self.options.effort / PART).max(1)
    }

    /// Makes a circuit of few gates shorter by what it does to every word: by T, and by the quantum cost.
    pub(crate) fn shorten_by_goals(
        &mut self,
        alloc: Global,
        circuit: &Circuit,
    ) -> Result<(), AllocError> {
        if circuit.gates().len() > FEW_GATES {
            return Ok(());
        }
        let (effort, seed) = (self.effort(), self.options.seed);
        self.add(resynth(alloc, circuit, ShortGoal::T, effort, seed)?)?;
        self.add(resynth(alloc, circuit, ShortGoal::Quantum, effort, seed)?)
    }

    // What is made of the best circuits, if they have few gates enough: of few lines by their marks, else as they are.
    fn shortened(&self, alloc: Global, by_word: bool) -> Result<Vec<Circuit>, AllocError> {
        let mut more = Vec::new(alloc);
        for circuit in self.circuits.iter().take(BEST) {
            let has_few = circuit.line_count() <= MOST_MARKED_LINES;
            if circuit.gates().len() <= MOST_GATES {
                if has_few {
                    more.push(self.shorter(alloc, circuit, true)?)?;
                }
                if by_word || !has_few {
                    more.push(self.shorter(alloc, circuit, false)?)?;
                }
            }
        }
        Ok(more)
    }

    /// Makes the best of the circuits shorter: those of few lines by their marks, and all others by what they do to
    /// every word, which those of few lines are too if wished.
    pub(crate) fn shorten(&mut self, alloc: Global, by_word: bool) -> Result<(), AllocError> {
        for circuit in self.shortened(alloc, by_word)? {
            self.add(circuit)?;
        }
        Ok(())
    }
}
