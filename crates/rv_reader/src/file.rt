ghost use Rattle.std.specs.Prelude.{◌≡◌, ◌≤◌, ◌+◌, ℕ, List, ◌++◌, true, length, Ok, IfOk, IfErr};
ghost use Rattle.rv_io.specs.Files.{Keeps};
ghost use Rattle.rv_text.specs.declared.lines.TheConstants.{MOST_BYTES};
ghost use Rattle.rv_reader.specs.inside.Fed.{IsFed, GivesUnlessMem};
ghost use Rattle.rv_reader.specs.Files.{IsReadToEnd, IsUnread};

use crate::{TextReader, Unread};
use rv_io::{Files, Got, Started};
use rv_text::MOST_BYTES;
use std::alloc::Global;

/// How many bytes one read asks for at most.
const ROOM: usize = 4096;

// Feeds a reader one piece more, where it has refused none. Says whether it still has not.
fn feed_on<R: TextReader>(reader: &mut R, is_fed: bool, piece: &[u8]) -> bool
    requires { R.fed reader.old + length piece.now ≤ MOST_BYTES }
    ensures fed_most { R.fed reader.new ≤ R.fed reader.old + length piece.now }
    ensures fed { (text : List ℕ) → IsFed R.Stands R.refusal R.mem R.denoted is_fed reader.old text
        → IsFed R.Stands R.refusal R.mem R.denoted result reader.new (text ++ piece.now) }
{
    is_fed && reader.feed(piece).is_ok()
}

// What the text gives that a reader was fed.
fn end_of<R: TextReader>(reader: R, is_fed: bool) -> Result<R::Object, Unread<R::Fault>>
    ensures { (text : List ℕ) → IsFed R.Stands R.refusal R.mem R.denoted is_fed reader text
        → GivesUnlessMem R.mem result (R.denoted text) }
{
    match reader.finish() {
        Ok(object) => Ok(object),
        Err(fault) => Err(Unread::Refused(fault)),
    }
}

/// Reads a file to its end through a small room, and answers what its text denotes.
///
/// A text that is refused is read to its end all the same: that it can be read, and is not too long,
/// comes first. At most one byte more than [`MOST_BYTES`] is read.
pub fn read_file<F: Files, R: TextReader>(
    alloc: Global,
    files: &mut F,
    name: &str,
) -> Result<R::Object, Unread<R::Fault>>
    ensures keeps { Keeps (F.view files.old) (F.view files.new) }

    ensures taken { (F.view files.new).is_started ≡ true → (F.view files.new).place ≤ MOST_BYTES + 1 }

    // What was read to the end denotes the object.
    ensures read { IfOk result (λ object.
        IsReadToEnd name.now (F.view files.old) (F.view files.new) (λ bytes. R.denoted bytes ≡ Ok object)) }

    // Each refusal has its cause.
    ensures unread { IfErr result (IsUnread R.mem R.denoted name.now (F.view files.old) (F.view files.new)) }
{
    if files.start(name) == Started::Failed {
        return Err(Unread::Read);
    }
    let mut reader = R::new(alloc);
    let mut is_fed = true;
    let mut left = MOST_BYTES as usize;
    let mut room = [0; ROOM];
    loop {
        let wanted = room.len().min(left + 1);
        match files.read(&mut room[..wanted]) {
            Got::Bytes(count) => {
                if count > left {
                    return Err(Unread::TooLong);
                }
                left -= count;
                is_fed = feed_on(&mut reader, is_fed, &room[..count]);
            }
            Got::End => return end_of(reader, is_fed),
            Got::Failed => return Err(Unread::Read),
        }
    }
}
