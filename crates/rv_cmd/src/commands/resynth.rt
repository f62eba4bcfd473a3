ghost use Rattle.std.specs.Prelude.{◌≡◌, false, length, true};
ghost use Rattle.rv_cmd.specs.Commands.Resynth.{IsResynthReport, resynth_goal, resynth_limits, resynth_row};
ghost use Rattle.rv_cmd.specs.Names.{names_read};
ghost use Rattle.rv_cmd.specs.inside.Making.{Makes};

use crate::making::{OneSearch, found_of_one};
use crate::product::{Made, Product};
use rv_faults::{Refusal, Unmade};
use rv_gate::Circuit;
use rv_io::Files;
use rv_real::RealReader;
use rv_resynth::{Goal, resynth as found_for, resynth_by_marks};
use rv_words::{Goal as Wish, Settings};
use std::alloc::Global;

/// A circuit that a search finds for the circuit that is read, on all its lines or by its marks.
pub(crate) fn resynth<F: Files>(
    alloc: Global,
    settings: &Settings,
    files: &mut F,
) -> Result<Made, Unmade>
    requires { length (names_read settings.now) ≡ 1 }
    ensures { Makes (resynth_row (resynth_goal settings.now.goal) settings.now.effort settings.now.marks)
        (names_read settings.now) (F.view files.old) (F.view files.new) result }
{
    let search = Search {
        goal: resynth_goal(settings.goal),
        effort: settings.effort,
        seed: settings.seed,
    };
    if settings.marks {
        found_of_one(alloc, settings, files, &ByMarks { search })
    } else {
        found_of_one(alloc, settings, files, &OnAllLines { search })
    }
}

// What to make small, how long, and by which numbers.
#[derive(Clone, Copy)]
struct Search {
    goal: Goal,
    effort: u16,
    seed: u16,
}

#[derive(Clone, Copy)]
struct OnAllLines {
    search: Search,
}

impl OneSearch for OnAllLines {
    type Text = RealReader;

    ghost limits = { λ command. resynth_limits };

    ghost Means = { λ command. IsResynthReport false command.search.goal command.search.effort };

    fn find(&self, alloc: Global, circuit: &Circuit) -> Result<Product, Refusal> {
        let Search { goal, effort, seed } = self.search;
        match found_for(alloc, circuit, goal, effort, seed) {
            Ok(new) => {
                new.recall_invariant();
                Ok(Product::Circuit(new))
            }
            Err(_) => Err(Refusal::OutOfMemory),
        }
    }
}

#[derive(Clone, Copy)]
struct ByMarks {
    search: Search,
}

impl OneSearch for ByMarks {
    type Text = RealReader;

    ghost limits = { λ command. resynth_limits };

    ghost Means = { λ command. IsResynthReport true command.search.goal command.search.effort };

    fn find(&self, alloc: Global, circuit: &Circuit) -> Result<Product, Refusal> {
        let Search { goal, effort, seed } = self.search;
        match resynth_by_marks(alloc, circuit, goal, effort, seed) {
            Ok(new) => {
                new.recall_invariant();
                Ok(Product::Circuit(new))
            }
            Err(_) => Err(Refusal::OutOfMemory),
        }
    }
}

fn resynth_goal(wish: Option<Wish>) -> Goal
    ensures { result ≡ resynth_goal wish }
{
    match wish {
        Some(Wish::Gates) => Goal::Gates,
        Some(Wish::T) => Goal::T,
        _ => Goal::Quantum,
    }
}
