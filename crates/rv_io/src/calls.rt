ghost use Rattle.std.specs.Prelude.{◌≡◌, ◌+◌, ◌<◌, ◌≤◌, ◌^◌, true, Some, length, IfOk, IsErrOf, decimal};
ghost use Rattle.rv_io.specs.declared.calls.InFault.TheVariants.{Mem};
ghost use Rattle.rv_io.specs.Faults.{Rose};
ghost use Rattle.rv_io.specs.Files.{Keeps, PassesLimit, ReadingFails, SameOpened};
ghost use Rattle.rv_io.specs.Sink.{Sends};

use crate::{Files, Got, Put, Sink, Started, WriteFault};
use itoa::Buffer;
use std::alloc::{AllocError, Global};
use thiserror::Error;

/// How many bytes one read asks for at most.
const ROOM: usize = 4096;

/// Why a content was not read.
#[derive(Clone, Copy, Debug, PartialEq, Eq, Error)]
pub enum InFault {
    /// The start or a read failed.
    #[error("cannot read")]
    Read,
    /// More bytes were read than the limit allows.
    #[error("too long")]
    TooLong,
    /// Memory was wanting.
    #[error("out of memory")]
    Mem,
}

impl From<AllocError> for InFault {
    ghost from_gives = { λ _ fault. fault ≡ Mem };

    fn from(_: AllocError) -> Self {
        InFault::Mem
    }
}

/// Reads the whole content of a name, of at most `limit` bytes.
///
/// The memory grows with what was read, and not with `limit`. At most one byte more than `limit`
/// is read, and what was read before a refusal is lost.
pub fn read_all<F: Files>(
    alloc: Global,
    files: &mut F,
    name: &str,
    limit: u32,
) -> Result<Vec<u8>, InFault>
    requires { limit < 2 ^ 31 }
    ensures keeps { Keeps (F.view files.old) (F.view files.new) }
    ensures whole { IfOk result (λ bytes.
        (F.view files.old).tells ≡ true → (F.view files.old).held name.now ≡ Some bytes.items) }
    ensures whole_place { IfOk result (λ bytes.
        ((F.view files.new).is_started ≡ true) × ((F.view files.new).place ≡ length bytes.items)) }
    ensures limited { IfOk result (λ bytes. length bytes.items ≤ limit) }

    // A content is refused as unreadable only if the count of faults rose, or if it is not held.
    ensures read { IsErrOf result InFault.Read → ReadingFails name.now (F.view files.old) (F.view files.new) }
    ensures read_place { IsErrOf result InFault.Read → (F.view files.new).is_started ≡ true
        → (F.view files.new).place ≤ limit }

    // A content is refused as too long only if one byte more than the limit was read of it.
    ensures too_long { IsErrOf result InFault.TooLong
        → PassesLimit limit name.now (F.view files.old) (F.view files.new) }

    // Nothing else is counted as a fault.
    ensures uncounted { ¬ IsErrOf result InFault.Read → (F.view files.new).faults ≡ (F.view files.old).faults }

    // If memory was wanting, no more was read.
    ensures mem_place { IsErrOf result InFault.Mem
        → ((F.view files.new).is_started ≡ true) × ((F.view files.new).place ≤ limit + 1) }

    // What is started at the end is this name.
    ensures named { (F.view files.old).tells ≡ true → (F.view files.new).is_started ≡ true
        → (F.view files.new).is_opened name.now ≡ true }
{
    match files.start(name) {
        Started::Ready => read_started(alloc, files, limit),
        Started::Failed => Err(InFault::Read),
    }
}

// Reads what is started.
fn read_started<F: Files>(alloc: Global, files: &mut F, limit: u32) -> Result<Vec<u8>, InFault>
    requires few { limit < 2 ^ 31 }
    requires started { (F.view files.old).is_started ≡ true }
    requires begun { (F.view files.old).place ≡ 0 }
    ensures keeps { Keeps (F.view files.old) (F.view files.new) }
    ensures same { SameOpened (F.view files.old) (F.view files.new) }
    ensures whole { IfOk result (λ bytes. (F.view files.old).tells ≡ true → (F.view files.old).content ≡ bytes.items) }
    ensures whole_place { IfOk result (λ bytes. (F.view files.new).place ≡ length bytes.items) }
    ensures limited { IfOk result (λ bytes. length bytes.items ≤ limit) }
    ensures read { IsErrOf result InFault.Read → Rose (F.view files.old).faults (F.view files.new).faults }
    ensures read_place { IsErrOf result InFault.Read → (F.view files.new).place ≤ limit }
    ensures uncounted { ¬ IsErrOf result InFault.Read → (F.view files.new).faults ≡ (F.view files.old).faults }
    ensures too_long { IsErrOf result InFault.TooLong → (F.view files.old).tells ≡ true
        → limit < length (F.view files.old).content }
    ensures too_long_place { IsErrOf result InFault.TooLong → (F.view files.new).place ≡ limit + 1 }
    ensures mem_place { IsErrOf result InFault.Mem → (F.view files.new).place ≤ limit + 1 }
{
    let most = limit as usize;
    let mut bytes = Vec::new(alloc);
    let mut room = [0; ROOM];
    while bytes.len() <= most {
        let wanted = room.len().min(most + 1 - bytes.len());
        match files.read(&mut room[..wanted]) {
            Got::Bytes(count) => bytes.extend_from_slice(&room[..count])?,
            Got::End => return Ok(bytes),
            Got::Failed => return Err(InFault::Read),
        }
    }
    Err(InFault::TooLong)
}

/// Sends all the bytes, and flushes nothing. Takes no memory.
pub fn put_all<O: Sink>(sink: &mut O, bytes: &[u8]) -> Result<(), WriteFault>
    ensures { Sends (O.view sink.old) bytes.now result (O.view sink.new) }
{
    let mut at = 0;
    while at < bytes.len() {
        match sink.put(&bytes[at..]) {
            Put::Took(count) => at += count,
            Put::Failed => return Err(WriteFault),
        }
    }
    Ok(())
}

/// Sends the decimal digits of a number, and flushes nothing. Takes no memory.
pub fn put_number<O: Sink>(sink: &mut O, n: u128) -> Result<(), WriteFault>
    ensures { Sends (O.view sink.old) (decimal n) result (O.view sink.new) }
{
    let mut buffer = Buffer::new();
    put_all(sink, buffer.format(n).as_bytes())
}
