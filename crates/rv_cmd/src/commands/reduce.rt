ghost use Rattle.std.specs.Prelude.{◌≡◌, length};
ghost use Rattle.rv_cmd.specs.Commands.Reduce.{IsReduced, IsReducedBy, reduce_goal, reduce_limits, reduce_row};
ghost use Rattle.rv_cmd.specs.Names.{names_read};
ghost use Rattle.rv_cmd.specs.inside.Making.{Makes};

use crate::making::{OneSearch, found_of_one};
use crate::product::{Made, Product};
use rv_faults::{Refusal, Unmade};
use rv_io::Files;
use rv_qasm::{Program, QasmReader};
use rv_reduce::{Goal, reduce as reduced, reduce_for};
use rv_words::{Goal as Wish, Settings};
use std::alloc::Global;

/// A network that a search finds for that of an OpenQASM text.
pub(crate) fn reduce<F: Files>(
    alloc: Global,
    settings: &Settings,
    files: &mut F,
) -> Result<Made, Unmade>
    requires { length (names_read settings.now) ≡ 1 }
    ensures { Makes (reduce_row settings.now.goal) (names_read settings.now) (F.view files.old) (F.view files.new)
        result }
{
    match settings.goal {
        None => found_of_one(alloc, settings, files, &PlainReduce),
        Some(wish) => {
            let command = ReduceFor {
                goal: reduce_goal(wish),
                effort: settings.effort,
                seed: settings.seed,
            };
            found_of_one(alloc, settings, files, &command)
        }
    }
}

// How the arguments ask for a goal.
fn reduce_goal(wish: Wish) -> Goal
    ensures { result ≡ reduce_goal wish }
{
    match wish {
        Wish::T => Goal::T,
        Wish::Cx => Goal::Cx,
        Wish::Depth => Goal::Depth,
        _ => Goal::Ops,
    }
}

// With fewer operations and fewer T.
struct PlainReduce;

impl OneSearch for PlainReduce {
    type Text = QasmReader;

    ghost limits = { λ command. reduce_limits };

    ghost Means = { λ command. IsReduced };

    fn find(&self, alloc: Global, program: &Program) -> Result<Product, Refusal> {
        match reduced(alloc, program.net()) {
            Ok(net) => Ok(Product::Network(net)),
            Err(_) => Err(Refusal::OutOfMemory),
        }
    }
}

// With less of what a goal counts.
#[derive(Clone, Copy)]
struct ReduceFor {
    goal: Goal,
    effort: u16,
    seed: u16,
}

impl OneSearch for ReduceFor {
    type Text = QasmReader;

    ghost limits = { λ command. reduce_limits };

    ghost Means = { λ command. IsReducedBy command.goal };

    fn find(&self, alloc: Global, program: &Program) -> Result<Product, Refusal> {
        match reduce_for(alloc, program.net(), self.goal, self.effort, self.seed) {
            Ok(found) => Ok(Product::Network(found)),
            Err(_) => Err(Refusal::OutOfMemory),
        }
    }
}
