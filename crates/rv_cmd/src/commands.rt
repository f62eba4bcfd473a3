//! The commands, a file each, and the table of their making.
ghost use Rattle.rv_words.specs.Settings.{IsAsked};
ghost use Rattle.rv_cmd.specs.Commands.{row_of};
ghost use Rattle.rv_cmd.specs.Names.{names_read};
ghost use Rattle.rv_cmd.specs.Row.{IsReadsFirst};
ghost use Rattle.rv_cmd.specs.inside.Making.{MakesBy};

pub(crate) mod check;
pub(crate) mod check_constants;
pub(crate) mod check_networks;
pub(crate) mod compare;
pub(crate) mod compute;
pub(crate) mod cost;
pub(crate) mod decompose;
pub(crate) mod demo;
pub(crate) mod draw;
pub(crate) mod embed;
pub(crate) mod esop;
pub(crate) mod flow;
pub(crate) mod fold;
pub(crate) mod map;
pub(crate) mod optimal;
pub(crate) mod realize;
pub(crate) mod reduce;
pub(crate) mod resynth;
pub(crate) mod route;
pub(crate) mod simulate;
pub(crate) mod single;
pub(crate) mod synth;
pub(crate) mod templates;
pub(crate) mod toreal;

use crate::making::of_one;
use crate::product::Made;
use rv_faults::Unmade;
use rv_io::Files;
use rv_words::{Command, Settings};
use std::alloc::Global;

/// Reads the inputs, and then makes what the command makes of them.
pub(crate) fn make<F: Files>(
    alloc: Global,
    settings: &Settings,
    files: &mut F,
) -> Result<Made, Unmade>
    requires asked { IsAsked settings.now }
    requires command { IsReadsFirst (row_of settings.now) }
    ensures { MakesBy (row_of settings.now) (names_read settings.now) (F.view files.old) (F.view files.new) result }
{
    let aux = settings.aux;
    match settings.command {
        Command::Synth => {
            let method = synth::rows_method(settings.method);
            of_one(alloc, settings, files, &synth::Synth { method })
        }
        Command::Embed => of_one(alloc, settings, files, &embed::Embed),
        Command::Esop => esop::esop(alloc, settings, files),
        Command::Templates => templates::templates(alloc, settings, files),
        Command::Decompose => of_one(alloc, settings, files, &decompose::Decompose { aux }),
        Command::Map => map::map(alloc, settings, files),
        Command::Cost => cost::cost(alloc, settings, files),
        Command::Simulate => unreachable!(),
        Command::ToReal => of_one(alloc, settings, files, &toreal::ToReal),
        Command::Flow => flow::flow(alloc, settings, files),
        Command::Demo => demo::demo(alloc, settings.lines, settings.seed),
        Command::Fold => of_one(alloc, settings, files, &fold::Fold),
        Command::Reduce => reduce::reduce(alloc, settings, files),
        Command::Check => check::check(alloc, settings, files),
        Command::Single => of_one(alloc, settings, files, &single::Single),
        Command::Route => of_one(alloc, settings, files, &route::Route),
        Command::Draw => draw::draw(alloc, settings, files),
        Command::Compare => compare::compare(alloc, settings, files),
        Command::Resynth => resynth::resynth(alloc, settings, files),
        Command::Compute => compute::compute(alloc, settings, files),
        Command::Optimal => optimal::optimal(alloc, settings, files),
        Command::Realize => realize::realize(alloc, settings, files),
    }
}
