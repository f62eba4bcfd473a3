ghost use Rattle.std.specs.Prelude.{◌<◌, ◌≤◌, ◌^◌, length};
ghost use Rattle.rv_io.specs.Sink.{Flushes, Puts, SinkView};

use thiserror::Error;

/// What a put answers.
#[derive(Clone, Copy)]
pub enum Put {
    /// So many bytes were sent, the first ones.
    Took(usize),
    /// Nothing was sent.
    Failed,
}

/// What a flush answers.
#[derive(Clone, Copy, Debug, PartialEq, Eq)]
pub enum Flushed {
    /// All that was sent is flushed.
    Done,
    /// What was sent may not have arrived.
    Failed,
}

/// A sink did not take all the bytes.
#[derive(Clone, Copy, Debug, PartialEq, Eq, Error)]
#[error("cannot write")]
pub struct WriteFault;

/// Where bytes are sent.
///
/// A sink may tell the bytes that were sent. It always tells how often a call has failed, and
/// whether all that was sent is flushed.
pub trait Sink {
    /// What a contract sees.
    ghost view: { Self → SinkView };

    /// Sends some of the bytes, from the first one on.
    fn put(&mut self, bytes: &[u8]) -> Put
        requires { 0 < length bytes.now }
        ensures later { (view self.old).faults ≤ (view self.new).faults }
        ensures counted { (view self.new).faults < 2 ^ 64 }
        ensures puts { Puts (view self.old) bytes.now result (view self.new) };

    /// Flushes what was sent.
    fn flush(&mut self) -> Flushed
        ensures later { (view self.old).faults ≤ (view self.new).faults }
        ensures counted { (view self.new).faults < 2 ^ 64 }
        ensures flushes { Flushes (view self.old) result (view self.new) };
}
