ghost use Rattle.std.specs.Prelude.{◌≡◌, ◌≤◌, ◌<◌, ◌^◌, ◌∷◌, ◌++◌, [], true, IfOk, OnErr, OnOk, length};
ghost use Rattle.rv_io.specs.Sink.{Flushes, Puts};
ghost use Rattle.rv_io.specs.MemSink.{after_flush, after_put, flush_answer, flush_fails, put_answer, put_fails};
ghost use Rattle.rv_io.specs.MemSink.{sink_view};

use crate::{Flushed, Put, Sink};
use std::alloc::{AllocError, Global};
use std::marker::Model;

/// A sink in memory with a fixed room. It tells what was sent, and fails at the calls that it is
/// given and if no room is left.
#[derive(Drop)]
pub struct MemSink {
    bytes: Vec<u8>,
    room: u32,
    faults: u64,
    calls: u64,
    failing: Vec<u64>,
    flushed: bool,
}

impl Model for MemSink {
    ghost use Rattle.std.specs.Prelude.{◌≤◌, length, vec_capacity};
    ghost use Rattle.rv_io.specs.MemSink.{MemSink};

    ghost Value = { MemSink };

    ghost view = { λ s.
        record {
          bytes = s.bytes.items;
          room = s.room;
          faults = s.faults;
          calls = s.calls;
          failing = s.failing.items;
          is_flushed = s.flushed;
        } };

    // The memory for the whole room is taken.
    ghost invariant = { λ s. (length s.bytes.items ≤ s.room) × (s.room ≤ vec_capacity s.bytes) };
}

impl MemSink {
    /// An empty sink for `room` bytes. It takes their memory at once, so that no put takes any.
    pub fn new(alloc: Global, room: u32) -> Result<MemSink, AllocError>
        ensures { IfOk result (λ sink.
            sink ≡ record { bytes = []; room = room; faults = 0; calls = 0; failing = []; is_flushed = true }) }
    {
        Ok(MemSink {
            bytes: Vec::with_capacity(alloc, room as usize)?,
            room,
            faults: 0,
            calls: 0,
            failing: Vec::new(alloc),
            flushed: true,
        })
    }

    /// Lets the call of that number fail. Calls of `put` and `flush` are counted together, from 1.
    pub fn fail_call(&mut self, number: u64) -> Result<(), AllocError>
        ensures ok { OnOk result (self.new ≡ record self.old { failing = self.old.failing ++ number ∷ [] }) }
        ensures err { OnErr result (self.new ≡ self.old) }
    {
        self.failing.push(number)?;
        Ok(())
    }

    /// What was sent.
    pub fn bytes(&self) -> &[u8]
        ensures { result.now ≡ self.now.bytes }
    {
        &self.bytes
    }
}

impl Sink for MemSink {
    ghost view = { sink_view };

    fn put(&mut self, bytes: &[u8]) -> Put
        requires { 0 < length bytes.now }
        ensures later { self.old.faults ≤ self.new.faults }
        ensures counted { self.new.faults < 2 ^ 64 }
        ensures puts { Puts (sink_view self.old) bytes.now result (sink_view self.new) }
        ensures answer { result ≡ put_answer self.old bytes.now (put_fails self.old) }
        ensures after { self.new ≡ after_put self.old bytes.now (put_fails self.old) }
    {
        self.calls = self.calls.saturating_add(1);
        let left = self.room as usize - self.bytes.len();
        if left == 0 || self.failing.contains(&self.calls) {
            self.faults = self.faults.saturating_add(1);
            return Put::Failed;
        }
        let count = bytes.len().min(left);
        if self.bytes.extend_from_slice(&bytes[..count]).is_err() {
            unreachable!()
        }
        self.flushed = false;
        Put::Took(count)
    }

    fn flush(&mut self) -> Flushed
        ensures later { self.old.faults ≤ self.new.faults }
        ensures counted { self.new.faults < 2 ^ 64 }
        ensures flushes { Flushes (sink_view self.old) result (sink_view self.new) }
        ensures answer { result ≡ flush_answer (flush_fails self.old) }
        ensures after { self.new ≡ after_flush self.old (flush_fails self.old) }
    {
        self.calls = self.calls.saturating_add(1);
        if self.failing.contains(&self.calls) {
            self.faults = self.faults.saturating_add(1);
            return Flushed::Failed;
        }
        self.flushed = true;
        Flushed::Done
    }
}
