ghost use Rattle.std.specs.Prelude.{◌≢◌};
ghost use Rattle.rv_words.specs.Settings.{settings_of, texts};
ghost use Rattle.rv_cmd.specs.Headline.{Headline, IsExactBy};
ghost use Rattle.rv_cmd.specs.Safe.{IsSafeBy, scene_of};

use crate::run;
use rv_io::{NullSink, SafeFiles, Sink};
use std::alloc::Global;

/// Does what the arguments ask for over files and an output that never fail, and answers the exit status.
///
/// Whatever the arguments, the files and the error output, it is not the status of a call that failed.
pub fn run_safely<E: Sink>(
    alloc: Global,
    arguments: &[String],
    files: &mut SafeFiles,
    out: &mut NullSink,
    errs: &mut E,
) -> u8
    // What was read, written and reported, and why the status is what it is.
    ensures headline { Headline (texts arguments.now) (scene_of files.old out.old) (scene_of files.new out.new)
        (E.view errs.old) (E.view errs.new) result }

    // No call fails: the status is that of what the arguments and the contents ask for, or it is 6.
    ensures unfailing { result ≢ 4 }
    ensures safe { IsSafeBy (settings_of (texts arguments.now)) (scene_of files.old out.old) result }
    ensures exact { IsExactBy (settings_of (texts arguments.now)) (scene_of files.old out.old)
        (scene_of files.new out.new) result }
{
    run(alloc, arguments, files, out, errs)
}
