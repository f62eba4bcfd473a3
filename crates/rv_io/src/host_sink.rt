ghost use Rattle.std.specs.Prelude.{◌≡◌, None, true};

use crate::{Flushed, Put, Sink, flush_to, put_to};
use std::marker::Model;

#[derive(Clone, Copy)]
enum Target {
    Output,
    Errors,
}

/// Standard output or standard error. The bytes are not told.
///
/// A write that takes none of the bytes counts as a fault.
#[derive(Drop)]
pub struct HostSink<'a> {
    rt: &'a HostRuntime,
    target: Target,
    faults: u64,
    flushed: bool,
}

impl<'a> Model for HostSink<'a> {
    ghost use Rattle.std.specs.Prelude.{◌<◌, ◌^◌, None};
    ghost use Rattle.rv_io.specs.Sink.{SinkView};

    ghost Value = { SinkView };

    ghost view = { λ s. record { sent = None; faults = s.faults; is_flushed = s.flushed } };

    ghost invariant = { λ s. s.faults < 2 ^ 64 };
}

impl<'a> HostSink<'a> {
    /// Standard output.
    pub fn output(rt: &'a HostRuntime) -> HostSink<'a>
        ensures { result ≡ record { sent = None; faults = 0; is_flushed = true } }
    {
        HostSink {
            rt,
            target: Target::Output,
            faults: 0,
            flushed: true,
        }
    }

    /// Standard error.
    pub fn errors(rt: &'a HostRuntime) -> HostSink<'a>
        ensures { result ≡ record { sent = None; faults = 0; is_flushed = true } }
    {
        HostSink {
            rt,
            target: Target::Errors,
            faults: 0,
            flushed: true,
        }
    }
}

impl Sink for HostSink<'_> {
    ghost view = { λ s. s };

    fn put(&mut self, bytes: &[u8]) -> Put {
        let put = match self.target {
            Target::Output => put_to(&mut self.rt.stdout(), bytes),
            Target::Errors => put_to(&mut self.rt.stderr(), bytes),
        };
        match put {
            Put::Took(_) => self.flushed = false,
            Put::Failed => self.faults = self.faults.saturating_add(1),
        }
        put
    }

    fn flush(&mut self) -> Flushed {
        let flushed = match self.target {
            Target::Output => flush_to(&mut self.rt.stdout()),
            Target::Errors => flush_to(&mut self.rt.stderr()),
        };
        match flushed {
            Flushed::Done => self.flushed = true,
            Flushed::Failed => self.faults = self.faults.saturating_add(1),
        }
        flushed
    }
}
