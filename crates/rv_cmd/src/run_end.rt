ghost use Rattle.std.specs.Prelude.{◌≡◌, ◌≤◌};
ghost use Rattle.rv_cmd.specs.Headline.{ReportsRunEnd, status_of_run_end};
ghost use Rattle.rv_cmd.specs.inside.Naming.{NamesAnInput};

use crate::names::faulty_name;
use rv_faults::{Fault, report, report_arguments, status_of_arguments};
use rv_io::Sink;
use rv_words::{ArgumentFault, Settings};

/// How a run ended, before anything is said of it on the error output.
#[derive(Drop)]
pub enum RunEnd {
    /// The arguments were understood. What was written may say that two inputs differ.
    Understood {
        settings: Settings,
        end: Result<bool, Fault>,
    },
    /// The arguments were refused.
    ArgumentsRefused(ArgumentFault),
}

impl RunEnd {
    /// The exit status.
    pub fn status(&self) -> u8
        ensures { result ≡ status_of_run_end self.now }
    {
        match self {
            RunEnd::Understood { end, .. } => match end {
                Ok(differs) => u8::from(*differs),
                Err(fault) => fault.status(),
            },
            RunEnd::ArgumentsRefused(fault) => status_of_arguments(fault),
        }
    }

    /// Sends the line that names the fault, if there is one. That this fails changes nothing else.
    pub(crate) fn report<E: Sink>(&self, errs: &mut E)
        requires { NamesAnInput self.now }
        ensures reports { ReportsRunEnd self.now (E.view errs.old) (E.view errs.new) }
        ensures later { (E.view errs.old).faults ≤ (E.view errs.new).faults }
    {
        match self {
            RunEnd::Understood { settings, end } => {
                if let Err(fault) = end {
                    report(errs, faulty_name(settings, *fault), *fault);
                }
            }
            RunEnd::ArgumentsRefused(fault) => report_arguments(errs, fault),
        }
    }
}
