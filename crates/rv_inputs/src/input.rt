ghost use Rattle.std.specs.Prelude.{◌≡◌, ◌∷◌, [], Ok, IfOk, IfErr};
ghost use Rattle.rv_io.specs.Files.{Keeps};
ghost use Rattle.rv_reader.specs.Files.{IsReadToEnd};
ghost use Rattle.rv_faults.specs.Fault.{unmade_by};
ghost use Rattle.rv_inputs.specs.Contents.{StaysAt};
ghost use Rattle.rv_inputs.specs.Formats.{format, refused_at};
ghost use Rattle.rv_inputs.specs.Reading.{HasObject, HasObjects, IsUnread, IsUnreadInput, LacksObject, LacksObjects};
ghost use Rattle.rv_inputs.specs.Reading.{ReadsOnly, first_told};

use crate::InputText;
use rv_faults::{InputFault, Unmade};
use rv_io::Files;
use rv_reader::{Unread, read_file};
use std::alloc::Global;

/// Reads the input of this number and name to its end, and answers what it denotes, or why it denotes nothing.
///
/// A fault of its text is answered once it is read to its end.
pub fn read_input<F: Files, R: InputText>(
    alloc: Global,
    name: &str,
    files: &mut F,
    input: usize,
) -> Result<R::Object, Unmade>
    ensures keeps { Keeps (F.view files.old) (F.view files.new) }
    ensures stays { StaysAt name.now (F.view files.old) (F.view files.new) }
    ensures read { IfOk result
        (λ object. IsReadToEnd name.now (F.view files.old) (F.view files.new)
        (λ bytes. format R.denoted R.why bytes ≡ Ok object)) }
    ensures unread { IfErr result
        (IsUnreadInput (format R.denoted R.why) input name.now (F.view files.old) (F.view files.new)) }
{
    match read_file::<F, R>(alloc, files, name) {
        Ok(object) => Ok(object),
        Err(Unread::Read) => Err(Unmade::CannotRead { input }),
        Err(Unread::TooLong) => Err(Unmade::TooLong { input }),
        Err(Unread::Refused(fault)) => Err(refused_at(input, R::why(fault))),
    }
}

// What is refused of an input, or want of memory.
fn refused_at(input: usize, why: Option<InputFault>) -> Unmade
    ensures { result ≡ unmade_by (refused_at input why) }
{
    match why {
        Some(why) => Unmade::Refused { input, why },
        None => Unmade::OutOfMemory,
    }
}

/// Reads the only input of a command.
pub fn read_one<F: Files, R: InputText>(
    alloc: Global,
    name: &str,
    files: &mut F,
) -> Result<R::Object, Unmade>
    ensures keeps { ReadsOnly (name.now ∷ []) (F.view files.old) (F.view files.new) }
    ensures read { IfOk result
        (HasObject (format R.denoted R.why) (name.now ∷ []) (F.view files.old) (F.view files.new)) }
    ensures unread { IfErr result (IsUnread (name.now ∷ []) (F.view files.old) (F.view files.new)
        (LacksObject (format R.denoted R.why) (name.now ∷ []) (F.view files.old) (F.view files.new))) }
{
    read_input::<F, R>(alloc, name, files, 0)
}

/// Reads both inputs of a command.
///
/// An input that can't be read, or is too long, comes before a fault of a text.
pub fn read_two<F: Files, R: InputText, S: InputText>(
    alloc: Global,
    first: &str,
    second: &str,
    files: &mut F,
) -> Result<(R::Object, S::Object), Unmade>
    ensures keeps { ReadsOnly (first.now ∷ second.now ∷ []) (F.view files.old) (F.view files.new) }
    ensures read { IfOk result
        (λ both. HasObjects (format R.denoted R.why) (format S.denoted S.why) (first.now ∷ second.now ∷ [])
        (F.view files.old) (F.view files.new) both.0 both.1) }
    ensures unread { IfErr result (IsUnread (first.now ∷ second.now ∷ []) (F.view files.old) (F.view files.new)
        (LacksObjects (format R.denoted R.why) (format S.denoted S.why) (first.now ∷ second.now ∷ []) (F.view files.old)
        (F.view files.new))) }
{
    match read_input::<F, R>(alloc, first, files, 0) {
        Ok(object) => match read_input::<F, S>(alloc, second, files, 1) {
            Ok(other) => Ok((object, other)),
            Err(unmade) => Err(unmade),
        },
        Err(unmade) => match unmade {
            Unmade::Refused { .. } => match read_input::<F, S>(alloc, second, files, 1) {
                Ok(_) => Err(unmade),
                Err(other) => Err(first_told(unmade, other)),
            },
            _ => Err(unmade),
        },
    }
}

// What is told where the text of the first input is refused.
fn first_told(first: Unmade, second: Unmade) -> Unmade
    ensures { result ≡ first_told first second }
{
    match second {
        Unmade::Refused { .. } => first,
        _ => second,
    }
}
