// One call of a reader or a writer, whatever it is.
ghost use Rattle.std.specs.Prelude.{◌≡◌, ◌<◌, length};
ghost use Rattle.std.specs.Io.KnownBytes.{Keeps};
ghost use Rattle.rv_io.specs.Streams.{PutsTo, ReadsFrom, flushed_of, got_of, put_of};

use crate::{Flushed, Got, Put};
use std::io;
use std::io::{Read, Write};

/// Reads the next bytes into `room`, from its first place on.
pub fn read_from<R: Read>(source: &mut R, room: &mut [u8]) -> Got
    requires { 0 < length room.old }
    ensures { ReadsFrom (R.remaining source.old) room.new result (R.remaining source.new) }
{
    got_of(source.read(room))
}

fn got_of(read: io::Result<usize>) -> Got
    ensures { result ≡ got_of read }
{
    match read {
        Ok(0) => Got::End,
        Ok(count) => Got::Bytes(count),
        Err(_) => Got::Failed,
    }
}

/// Writes some of the bytes, from the first one on. A write that takes none of them has failed.
pub fn put_to<W: Write>(target: &mut W, bytes: &[u8]) -> Put
    requires { 0 < length bytes.now }
    ensures { PutsTo (W.contents target.old) bytes.now result (W.contents target.new) }
{
    put_of(target.write(bytes))
}

fn put_of(written: io::Result<usize>) -> Put
    ensures { result ≡ put_of written }
{
    match written {
        Ok(0) | Err(_) => Put::Failed,
        Ok(count) => Put::Took(count),
    }
}

/// Flushes what was written.
pub fn flush_to<W: Write>(target: &mut W) -> Flushed
    ensures { Keeps (W.contents target.old) (W.contents target.new) }
{
    flushed_of(target.flush())
}

fn flushed_of(flushed: io::Result<()>) -> Flushed
    ensures { result ≡ flushed_of flushed }
{
    match flushed {
        Ok(()) => Flushed::Done,
        Err(_) => Flushed::Failed,
    }
}
