ghost use Rattle.std.specs.Prelude.{◌≡◌, ◌≢◌, ◌≤◌, IfOk, IfErr};
ghost use Rattle.rv_io.specs.Files.{Keeps};
ghost use Rattle.rv_words.specs.Settings.{IsAsked, settings_of, texts};
ghost use Rattle.rv_faults.specs.declared.fault.Fault.TheVariants.{CannotWrite};
ghost use Rattle.rv_cmd.specs.Commands.{row_of};
ghost use Rattle.rv_cmd.specs.Headline.{AreUncounted, AsksToCompare, EndsAs, Headline, IsCompleteBy, IsExactBy};
ghost use Rattle.rv_cmd.specs.Headline.{LeavesCounts, LimitsInTerms, Performs, WrittenBy};
ghost use Rattle.rv_cmd.specs.Names.{names_read};
ghost use Rattle.rv_cmd.specs.Row.{IsReadsFirst};
ghost use Rattle.rv_cmd.specs.inside.Products.{product_text};
ghost use Rattle.rv_cmd.specs.inside.Sending.{IsBroken, IsWhole};

use crate::commands::make;
use crate::commands::simulate::simulate;
use crate::names::name_of;
use crate::output::send;
use crate::product::Made;
use crate::run_end::RunEnd;
use rv_faults::Fault;
use rv_io::{Files, Sink};
use rv_words::{Command, Settings, settings};
use std::alloc::Global;

/// Does what the arguments ask for, and answers the exit status.
///
/// The arguments do not hold the program's name. The inputs are read from `files`, where `-` is standard
/// input; what is asked for is sent to `out`, and one line that names a fault to `errs`.
pub fn run<F: Files, O: Sink, E: Sink>(
    alloc: Global,
    arguments: &[String],
    files: &mut F,
    out: &mut O,
    errs: &mut E,
) -> u8
    // What status 0 gives, and status 1 of `check` and `compare`: what was written means what the inputs hold.
    ensures written { result ≤ 1 → WrittenBy (settings_of (texts arguments.now))
        (record { files = F.view files.old; out = O.view out.old })
        (record { files = F.view files.new; out = O.view out.new }) }

    // What was read, written and reported, and why the status is what it is.
    ensures headline { Headline (texts arguments.now)
        (record { files = F.view files.old; out = O.view out.old })
        (record { files = F.view files.new; out = O.view out.new })
        (E.view errs.old) (E.view errs.new) result }

    // The status is that of what the arguments and the contents ask for, unless a call failed.
    ensures complete { IsCompleteBy (settings_of (texts arguments.now))
        (record { files = F.view files.old; out = O.view out.old })
        (record { files = F.view files.new; out = O.view out.new }) result }

    // If the contents are told, it is 0 or 1 exactly if they are accepted, unless a call failed or memory was wanting.
    ensures exact { IsExactBy (settings_of (texts arguments.now))
        (record { files = F.view files.old; out = O.view out.old })
        (record { files = F.view files.new; out = O.view out.new }) result }

    // What is accepted, in the subject's terms.
    ensures terms { LimitsInTerms }

    // By any status but 4 no call of the files or the output has failed.
    ensures uncounted { result ≢ 4 → AreUncounted
        (record { files = F.view files.old; out = O.view out.old })
        (record { files = F.view files.new; out = O.view out.new }) }

    // It is 1 only by `check` and `compare`.
    ensures differing { result ≡ 1 → AsksToCompare (settings_of (texts arguments.now)) }
{
    run_arguments(alloc, arguments, files, out, errs)
}

fn run_arguments<F: Files, O: Sink, E: Sink>(
    alloc: Global,
    arguments: &[String],
    files: &mut F,
    out: &mut O,
    errs: &mut E,
) -> u8
    ensures { Headline (texts arguments.now)
        (record { files = F.view files.old; out = O.view out.old })
        (record { files = F.view files.new; out = O.view out.new })
        (E.view errs.old) (E.view errs.new) result }
{
    let end = run_unreported(alloc, arguments, files, out);
    end.report(errs);
    end.status()
}

/// Does what the arguments ask for, and answers how that ended. A fault is told to no
/// error output.
pub fn run_unreported<F: Files, O: Sink>(
    alloc: Global,
    arguments: &[String],
    files: &mut F,
    out: &mut O,
) -> RunEnd
    ensures keeps { Keeps (F.view files.old) (F.view files.new) }
    ensures later { (O.view out.old).faults ≤ (O.view out.new).faults }
    ensures ends { EndsAs (texts arguments.now) result
        (record { files = F.view files.old; out = O.view out.old })
        (record { files = F.view files.new; out = O.view out.new }) }
{
    match settings(alloc, arguments) {
        Ok(settings) => {
            let end = perform(alloc, &settings, files, out);
            RunEnd::Understood { settings, end }
        }
        Err(fault) => RunEnd::ArgumentsRefused(fault),
    }
}

// Does what is asked for. Answers whether what was written says that two inputs differ.
fn perform<F: Files, O: Sink>(
    alloc: Global,
    settings: &Settings,
    files: &mut F,
    out: &mut O,
) -> Result<bool, Fault>
    requires { IsAsked settings.now }
    ensures keeps { Keeps (F.view files.old) (F.view files.new) }
    ensures later { (O.view out.old).faults ≤ (O.view out.new).faults }
    ensures counts { LeavesCounts result
        (record { files = F.view files.old; out = O.view out.old })
        (record { files = F.view files.new; out = O.view out.new }) }
    ensures performs { Performs (row_of settings.now) (names_read settings.now)
        (record { files = F.view files.old; out = O.view out.old })
        (record { files = F.view files.new; out = O.view out.new }) result }
{
    match settings.command {
        Command::Simulate => simulate(
            alloc,
            settings.all,
            name_of(settings, 0),
            name_of(settings, 1),
            files,
            out,
        ),
        _ => convert(alloc, settings, files, out),
    }
}

// Writes what is made of the inputs.
fn convert<F: Files, O: Sink>(
    alloc: Global,
    settings: &Settings,
    files: &mut F,
    out: &mut O,
) -> Result<bool, Fault>
    requires asked { IsAsked settings.now }
    requires command { IsReadsFirst (row_of settings.now) }
    ensures keeps { Keeps (F.view files.old) (F.view files.new) }
    ensures later { (O.view out.old).faults ≤ (O.view out.new).faults }
    ensures counts { LeavesCounts result
        (record { files = F.view files.old; out = O.view out.old })
        (record { files = F.view files.new; out = O.view out.new }) }
    ensures performs { Performs (row_of settings.now) (names_read settings.now)
        (record { files = F.view files.old; out = O.view out.old })
        (record { files = F.view files.new; out = O.view out.new }) result }
{
    match make(alloc, settings, files) {
        Ok(made) => write(&made, out),
        Err(unmade) => Err(unmade.fault()),
    }
}

// Sends what was made, and answers whether it says that inputs differ.
fn write<O: Sink>(made: &Made, out: &mut O) -> Result<bool, Fault>
    ensures whole { IfOk result
        (λ differs. (differs ≡ made.now.differs)
        × IsWhole (product_text made.now.product) (O.view out.old) (O.view out.new)) }
    ensures broken { IfErr result
        (λ fault. (fault ≡ CannotWrite) × IsBroken (product_text made.now.product) (O.view out.old) (O.view out.new)) }
    ensures later { (O.view out.old).faults ≤ (O.view out.new).faults }
{
    match send(&made.product, out) {
        Ok(()) => Ok(made.differs),
        Err(_) => Err(Fault::CannotWrite),
    }
}
