ghost use Rattle.std.specs.Prelude.{◌≡◌, ◌≤◌, ◌<◌, ◌^◌, true, false, length};
ghost use Rattle.rv_io.specs.Sink.{Flushes, Puts};
ghost use Rattle.rv_io.specs.NullSink.{null_view};
ghost use Rattle.rv_io.specs.declared.sink.Put.TheVariants.{Took};
ghost use Rattle.rv_io.specs.declared.sink.Flushed.TheVariants.{Done};

use crate::{Flushed, Put, Sink};
use std::marker::Model;

/// A sink that takes every byte and never fails. It doesn't tell what was sent.
#[derive(Drop)]
pub struct NullSink {
    flushed: bool,
}

impl Model for NullSink {
    ghost use Rattle.rv_io.specs.NullSink.{NullSink};

    ghost Value = { NullSink };

    ghost view = { λ s. record { is_flushed = s.flushed } };
}

impl NullSink {
    /// A sink that is flushed.
    pub fn new() -> NullSink
        ensures { result ≡ record { is_flushed = true } }
    {
        NullSink { flushed: true }
    }
}

impl Sink for NullSink {
    ghost view = { null_view };

    fn put(&mut self, bytes: &[u8]) -> Put
        requires { 0 < length bytes.now }
        ensures later { (null_view self.old).faults ≤ (null_view self.new).faults }
        ensures counted { (null_view self.new).faults < 2 ^ 64 }
        ensures puts { Puts (null_view self.old) bytes.now result (null_view self.new) }
        ensures answer { result ≡ Took (length bytes.now) }
        ensures after { self.new ≡ record { is_flushed = false } }
    {
        self.flushed = false;
        Put::Took(bytes.len())
    }

    fn flush(&mut self) -> Flushed
        ensures later { (null_view self.old).faults ≤ (null_view self.new).faults }
        ensures counted { (null_view self.new).faults < 2 ^ 64 }
        ensures flushes { Flushes (null_view self.old) result (null_view self.new) }
        ensures answer { result ≡ Done }
        ensures after { self.new ≡ record { is_flushed = true } }
    {
        self.flushed = true;
        Flushed::Done
    }
}
