// Where a search is: the words over so many coordinates.
use crate::cells::numbers;
use crate::step::Step;
use crate::task::Task;
use std::alloc::{AllocError, Global};

#[derive(Drop)]
pub(crate) struct State {
    pub(crate) words: Vec<u32>,
    pub(crate) dimension: usize,
}

impl State {
    // All words of a task.
    pub(crate) fn first(alloc: Global, task: &Task) -> Result<State, AllocError> {
        Ok(State {
            words: numbers(alloc, task.words())?,
            dimension: task.inputs,
        })
    }

    pub(crate) fn go(&mut self, step: &Step) {
        step.change(&mut self.words, self.dimension);
        self.dimension = step.dimension(self.dimension);
    }
}
