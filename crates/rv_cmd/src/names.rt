// The names that a run reads.
ghost use Rattle.std.specs.Prelude.{◌≡◌, ◌<◌, length};
ghost use Rattle.rv_real.specs.Text.{name_at};
ghost use Rattle.rv_faults.specs.Fault.{input_of, reason};
ghost use Rattle.rv_cmd.specs.Names.{names_read};
ghost use Rattle.rv_cmd.specs.inside.Naming.{IsAmong};

use rv_faults::Fault;
use rv_words::Settings;

/// The name of an input, of which a library is the last.
pub(crate) fn name_of(settings: &Settings, input: usize) -> &str
    requires { input < length (names_read settings.now) }
    ensures { result.now ≡ name_at (names_read settings.now) input }
{
    if input < settings.inputs.len() {
        return settings.inputs.get(input);
    }
    match &settings.library {
        Some(name) => name.text(),
        None => unreachable!(),
    }
}

/// The name of the input that a fault is of, or no name.
pub(crate) fn faulty_name(settings: &Settings, fault: Fault) -> &str
    requires { IsAmong (names_read settings.now) fault }
    ensures { reason result.now fault ≡ reason (name_at (names_read settings.now) (input_of fault)) fault }
{
    match fault {
        Fault::CannotRead { input } | Fault::Refused { input, .. } | Fault::TooLong { input } => {
            name_of(settings, input)
        }
        Fault::CannotWrite | Fault::OutOfMemory => "",
    }
}
