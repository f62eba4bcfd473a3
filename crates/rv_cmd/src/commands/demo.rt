ghost use Rattle.std.specs.Prelude.{◌≤◌, []};
ghost use Rattle.rv_io.specs.Files.{FilesView};
ghost use Rattle.rv_io.specs.Sink.{Sends};
ghost use Rattle.rv_perm.specs.declared.perm.TheConstants.{MOST_DEMO_LINES};
ghost use Rattle.rv_cmd.specs.Commands.Demo.{demo_row, summary_text};
ghost use Rattle.rv_cmd.specs.inside.Making.{Makes};

use crate::commands::cost::put_line;
use crate::product::{Made, Product};
use rv_faults::Unmade;
use rv_flow::{Summary, demo as summary_of};
use rv_io::{Sink, WriteFault, Writer};
use std::alloc::Global;

/// What each step makes of a generated permutation.
pub(crate) fn demo(alloc: Global, lines: u8, seed: u16) -> Result<Made, Unmade>
    requires some { 1 ≤ lines }
    requires few { lines ≤ MOST_DEMO_LINES }
    ensures { (view : FilesView) → Makes (demo_row lines seed) [] view view result }
{
    match summary_of(alloc, lines, seed) {
        Ok(summary) => Ok(Product::Summary(summary).alike()),
        Err(_) => Err(Unmade::OutOfMemory),
    }
}

/// Sends what the steps come to, a line each.
pub(crate) fn put_summary<O: Sink>(summary: &Summary, out: &mut O) -> Result<(), WriteFault>
    ensures { Sends (O.view out.old) (summary_text summary.now) result (O.view out.new) }
{
    let mut writer = Writer::new();
    put_line(&mut writer, out, b"lines", u128::from(summary.lines));
    put_line(&mut writer, out, b"seed", u128::from(summary.seed));
    put_line(
        &mut writer,
        out,
        b"synthesised",
        u128::from(summary.synthesised),
    );
    put_line(
        &mut writer,
        out,
        b"simplified",
        u128::from(summary.simplified),
    );
    put_line(
        &mut writer,
        out,
        b"decomposed",
        u128::from(summary.decomposed),
    );
    put_line(&mut writer, out, b"added", u128::from(summary.added));
    put_line(
        &mut writer,
        out,
        b"operations",
        u128::from(summary.operations),
    );
    put_line(&mut writer, out, b"t", u128::from(summary.t));
    put_line(&mut writer, out, b"depth", u128::from(summary.depth));
    writer.finish(out)
}
