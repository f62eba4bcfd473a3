// Many short searches, of which the best is kept.
use crate::beam::{Beam, Way};
use crate::build::{Found, built};
use crate::carries::carried;
use crate::count::counted;
use crate::pack::{Weights, packed, store_of};
use crate::random::Random;
use crate::rows::multiplied;
use crate::step::Step;
use crate::task::Task;
use crate::worth::{ONE, Scale};
use std::alloc::{AllocError, Global};

// More coordinates than this are not looked at: a spectrum has an entry for each form.
const MOST_COORDINATES: usize = 12;

// The seed of the first numbers.
const FIRST: u64 = 5;

// Steps of work for one of effort.
const WORK: u64 = 170_000_000;

// The least price of a level.
const T: u64 = 7;

// So many circuits of the least price are kept.
const MOST_FOUND: usize = 24;

// Products have at most so many forms together, less one for each.
const MOST_LEVEL: usize = 60;

/// What is looked for: circuits on at most so many lines.
#[derive(Clone, Copy)]
pub struct Search {
    pub lines: u8,
    pub effort: u16,
    pub seed: u16,
}

// A search ends after so many turns in a row that found nothing better, and a part of the work.
const IDLE: usize = 40;

const PLAIN: Way = Way {
    beam: 20,
    low: 6,
    keep: 24,
    per_parent: 8,
    noise: 0,
    all_up_to: 6,
    forms: 0,
    tries: 6,
    most_forms: 7,
    most_level: MOST_LEVEL,
    most_dimension: 0,
    patience: 12,
    ends: 6,
    scale: Scale {
        tenths: 6,
        bonus: 0,
    },
    most_work: 0,
};

// Products that were found are packed with each of these.
const WEIGHTS: [Weights; 4] = [
    Weights {
        output: 64,
        product: 64,
    },
    Weights {
        output: 64,
        product: 64,
    },
    Weights {
        output: 64,
        product: 48,
    },
    Weights {
        output: 64,
        product: 32,
    },
];

// So many searches over more coordinates than there may be come first.
const WIDE_TURNS: usize = 6;

// The way of a search: each time another.
fn way_of(turn: usize) -> Way {
    match turn % 6 {
        0 => PLAIN,
        1 => Way {
            scale: Scale {
                tenths: 10,
                bonus: 0,
            },
            beam: 14,
            noise: 15,
            forms: 10,
            ..PLAIN
        },
        2 => Way {
            scale: Scale {
                tenths: 5,
                bonus: ONE / 5,
            },
            beam: 14,
            noise: 25,
            ..PLAIN
        },
        3 => Way {
            beam: 14,
            noise: 50,
            all_up_to: 7,
            tries: 10,
            ..PLAIN
        },
        4 => Way {
            scale: Scale {
                tenths: 8,
                bonus: 0,
            },
            noise: 25,
            beam: 28,
            ..PLAIN
        },
        _ => Way {
            noise: 25,
            low: 2,
            all_up_to: 7,
            forms: 10,
            ..PLAIN
        },
    }
}

// How many forms the products of steps have, less one for each.
fn level_of(steps: &[Step]) -> usize {
    let mut level = 0usize;
    for step in steps {
        level = level.saturating_add(step.units());
    }
    level
}

// What was found so far, all of the same price, and the steps that make the first of it.
#[derive(Drop)]
struct Record {
    steps: Vec<Step>,
    found: Vec<Found>,
    level: usize,
    // so many turns in a row found nothing better, and the work that they did
    idle: usize,
    idle_work: u64,
    // whether products were packed
    has_packed: bool,
}

impl Record {
    fn new(alloc: Global) -> Record {
        Record {
            steps: Vec::new(alloc),
            found: Vec::new(alloc),
            level: MOST_LEVEL,
            idle: 0,
            idle_work: 0,
            has_packed: false,
        }
    }

    fn price(&self) -> u64 {
        match self.found.first() {
            None => u64::MAX,
            Some(found) => found.price,
        }
    }

    fn holds(&self, found: &Found) -> bool {
        for other in &self.found {
            if *other.gates == *found.gates {
                return true;
            }
        }
        false
    }

    // The first steps of those found, some of them: none where nothing was found.
    fn start(
        &self,
        alloc: Global,
        turn: usize,
        random: &mut Random,
    ) -> Result<Vec<Step>, AllocError> {
        let count = if turn % 2 == 0 {
            0
        } else {
            random.below(self.steps.len())
        };
        match self.steps.get(..count) {
            Some(steps) => Vec::from_slice(alloc, steps),
            None => Ok(Vec::new(alloc)),
        }
    }

    // Whether nothing better was found for long.
    fn is_idle(&self, most_work: u64) -> bool {
        self.idle >= IDLE && self.idle_work > most_work / 32
    }

    // Searches from some of the first steps of those found, and keeps what is cheaper. Gives the work.
    fn go_on(
        &mut self,
        alloc: Global,
        whole: &Task,
        task: &Task,
        lines: u8,
        way: Way,
        turn: usize,
        random: &mut Random,
    ) -> Result<u64, AllocError> {
        let start = self.start(alloc, turn, random)?;
        let most_level = self.level.saturating_sub(level_of(&start)).max(1);
        let mut beam = Beam::new(alloc, task, Way { most_level, ..way }, start)?;
        beam.run(alloc, task, random)?;
        self.idle = self.idle.saturating_add(1);
        self.idle_work = self.idle_work.saturating_add(beam.work);
        for steps in &beam.ways {
            self.keep(alloc, whole, lines, steps)?;
        }
        Ok(beam.work.max(1 << 16))
    }

    // Keeps what steps make, where it is cheaper, and besides the others where it is as cheap.
    fn keep(
        &mut self,
        alloc: Global,
        whole: &Task,
        lines: u8,
        steps: &[Step],
    ) -> Result<(), AllocError> {
        let Some(found) = built(alloc, whole, lines, steps)? else {
            return Ok(());
        };
        if found.price < self.price() {
            self.steps = Vec::from_slice(alloc, steps)?;
            self.level = level_of(steps).min((found.price.saturating_sub(1) / T) as usize);
            self.idle = 0;
            self.idle_work = 0;
            self.found.clear();
            self.found.push(found)?;
        } else if found.price == self.price()
            && self.found.len() < MOST_FOUND
            && !self.holds(&found)
        {
            self.found.push(found)?;
        }
        Ok(())
    }

    // Looks over more coordinates than there may be, and packs what is found. Gives the work.
    fn widely(
        &mut self,
        alloc: Global,
        whole: &Task,
        task: &Task,
        most_dimension: usize,
        search: Search,
        turn: usize,
        random: &mut Random,
    ) -> Result<u64, AllocError> {
        let wide = task
            .inputs
            .saturating_add(task.outputs)
            .min(MOST_COORDINATES);
        if wide <= most_dimension {
            return Ok(0);
        }
        let way = Way {
            most_dimension: wide,
            most_work: u64::from(search.effort).saturating_mul(WORK / 8),
            ..way_of(turn)
        };
        let mut beam = Beam::new(alloc, task, way, Vec::new(alloc))?;
        beam.run(alloc, task, random)?;
        let mut work = beam.work.max(1 << 16);
        for steps in &beam.ways {
            let more = self.pack(
                alloc,
                whole,
                task,
                most_dimension,
                search.lines,
                steps,
                random,
            )?;
            work = work.saturating_add(more);
        }
        Ok(work)
    }

    // Keeps what the products of steps over more coordinates make over these. Gives the work.
    fn pack(
        &mut self,
        alloc: Global,
        whole: &Task,
        task: &Task,
        most_dimension: usize,
        lines: u8,
        steps: &[Step],
        random: &mut Random,
    ) -> Result<u64, AllocError> {
        let mut work = 0u64;
        let Some(store) = store_of(alloc, task, steps)? else {
            return Ok(0);
        };
        for weights in WEIGHTS {
            let most = self.level;
            let found = packed(
                alloc,
                task,
                &store,
                most_dimension,
                weights,
                most,
                random,
                &mut work,
            )?;
            if let Some(own) = found {
                self.has_packed = true;
                self.keep(alloc, whole, lines, &own)?;
            }
        }
        Ok(work)
    }

    // Keeps what adding rows makes, if it is enough.
    fn multiply(&mut self, alloc: Global, whole: &Task, lines: u8) -> Result<(), AllocError> {
        match multiplied(alloc, whole)? {
            Some(steps) => self.keep(alloc, whole, lines, &steps),
            None => Ok(()),
        }
    }

    // Keeps what carries make that are taken off again, if it is enough.
    fn carry(&mut self, alloc: Global, whole: &Task, lines: u8) -> Result<(), AllocError> {
        for is_whole in [false, true] {
            if let Some(steps) = carried(alloc, whole, is_whole)? {
                self.keep(alloc, whole, lines, &steps)?;
            }
        }
        Ok(())
    }

    // Keeps what counting makes, if it is enough. Gives the work.
    fn count(
        &mut self,
        alloc: Global,
        whole: &Task,
        task: &Task,
        most_dimension: usize,
        lines: u8,
        random: &mut Random,
    ) -> Result<u64, AllocError> {
        let Some(steps) = counted(alloc, task)? else {
            return Ok(0);
        };
        self.keep(alloc, whole, lines, &steps)?;
        self.pack(alloc, whole, task, most_dimension, lines, &steps, random)
    }
}

// Searches turn by turn, until the work is done or many of them in a row found nothing better.
fn search_on(
    alloc: Global,
    whole: &Task,
    task: &Task,
    most_dimension: usize,
    search: Search,
    record: &mut Record,
) -> Result<(), AllocError> {
    let mut random = Random::new(u64::from(search.seed).wrapping_add(FIRST));
    let most_work = u64::from(search.effort).saturating_mul(WORK);
    let lines = search.lines;
    let work = record.count(alloc, whole, task, most_dimension, lines, &mut random)?;
    let mut left = most_work.saturating_sub(work);
    for turn in 0..WIDE_TURNS {
        // Where nothing was packed at first, there are too many products.
        if left > most_work / 2 && (turn == 0 || record.has_packed) {
            let work = record.widely(
                alloc,
                whole,
                task,
                most_dimension,
                search,
                turn,
                &mut random,
            )?;
            left = left.saturating_sub(work);
        }
    }
    for turn in 0..usize::from(search.effort).saturating_mul(4) {
        if left == 0 || record.is_idle(most_work) {
            return Ok(());
        }
        let way = Way {
            most_dimension,
            most_work: left,
            ..way_of(turn / 2)
        };
        let work = record.go_on(alloc, whole, task, lines, way, turn, &mut random)?;
        left = left.saturating_sub(work);
    }
    Ok(())
}

/// The cheapest gates that are found for a table, on lines of which the first are its inputs and the others begin
/// with 0: those of several circuits that are as cheap. Nothing promises that they do what is asked.
pub fn all_found(alloc: Global, whole: &Task, search: Search) -> Result<Vec<Found>, AllocError> {
    let task = whole.independent(alloc)?;
    let lines = usize::from(search.lines);
    let others = whole.outputs.saturating_sub(task.outputs);
    let most_dimension = lines.saturating_sub(others).max(whole.inputs);
    let mut record = Record::new(alloc);
    if lines < whole.inputs || lines > 64 {
        return Ok(record.found);
    }
    record.multiply(alloc, whole, search.lines)?;
    record.carry(alloc, whole, search.lines)?;
    if most_dimension <= MOST_COORDINATES {
        search_on(alloc, whole, &task, most_dimension, search, &mut record)?;
    }
    Ok(record.found)
}

/// The gates of one of them.
pub fn found(alloc: Global, whole: &Task, search: Search) -> Result<Option<Found>, AllocError> {
    Ok(all_found(alloc, whole, search)?.pop())
}
