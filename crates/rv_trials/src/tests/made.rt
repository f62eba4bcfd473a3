// Inputs that are made as they are read, and take no memory.
ghost use Rattle.rv_io.specs.HostFiles.{progress_view};

use super::*;
use rv_io::{Files, Got, NullSink, Started};
use std::alloc::Global;
use std::marker::Model;
use std::process::Abort;

// A text: a part that isn't empty, so many times over, and then the rest.
#[derive(Clone, Copy)]
pub(super) struct Parts<'a> {
    pub(super) part: &'a [u8],
    pub(super) times: u32,
    pub(super) rest: &'a [u8],
}

impl<'a> Parts<'a> {
    // Takes the first part, or the rest if there is no part.
    fn next_part(&mut self) -> &'a [u8] {
        if self.times > 0 {
            self.times -= 1;
            return self.part;
        }
        let rest = self.rest;
        self.rest = b"";
        rest
    }
}

// Standard input is a text that is made as it is read. Each other name has these bytes.
#[derive(Drop)]
pub(super) struct Made<'a> {
    input: Parts<'a>,
    named: &'a [u8],
    started: bool,
    // The bytes that come next, and the text after them.
    next: &'a [u8],
    later: Parts<'a>,
    place: u64,
}

impl<'a> Model for Made<'a> {
    ghost use Rattle.rv_io.specs.HostFiles.{HostFiles};

    ghost Value = { HostFiles };

    ghost view = { λ s. record { is_started = s.started; place = s.place; faults = 0 } };
}

impl<'a> Made<'a> {
    pub(super) fn new(input: Parts<'a>, named: &'a [u8]) -> Made<'a> {
        Made {
            input,
            named,
            started: false,
            next: b"",
            later: input,
            place: 0,
        }
    }
}

impl Files for Made<'_> {
    ghost view = { progress_view };

    fn start(&mut self, name: &str) -> Started {
        let named = Parts {
            part: b"",
            times: 0,
            rest: self.named,
        };
        self.later = if name == "-" { self.input } else { named };
        self.next = b"";
        self.started = true;
        self.place = 0;
        Started::Ready
    }

    fn read(&mut self, room: &mut [u8]) -> Got {
        if self.next.is_empty() {
            self.next = self.later.next_part();
        }
        let count = room.len().min(self.next.len());
        if count == 0 {
            return Got::End;
        }
        let (given, left) = self.next.split_at(count);
        room[..count].copy_from_slice(given);
        self.next = left;
        self.place = self.place.saturating_add(count as u64);
        Got::Bytes(count)
    }
}

// Runs words over such inputs, with an output that takes every byte. It says nothing of the run, so that no caller has
// to read its contract.
fn run_over_made(
    alloc: Global,
    words: &[String],
    files: &mut Made,
    out: &mut NullSink,
    errs: &mut MemSink,
) -> u8 {
    run(alloc, words, files, out, errs)
}

// The status of a run over such inputs, which reports to this error output.
fn status_over_made(
    rt: &impl Abort,
    alloc: Global,
    typed: &str,
    files: &mut Made,
    errs: &mut MemSink,
) -> u8 {
    let words = words_of(rt, alloc, typed);
    run_over_made(alloc, &words, files, &mut NullSink::new(), errs)
}

pub(super) fn status_of_made(
    rt: &impl Abort,
    alloc: Global,
    typed: &str,
    input: Parts,
    named: &[u8],
) -> u8 {
    let mut files = Made::new(input, named);
    let mut errs = sink_of(rt, alloc, 100);
    status_over_made(rt, alloc, typed, &mut files, &mut errs)
}

// Reads a permutation text of 134217728 line feeds and then these bytes.
fn expect_refused(rt: &impl Abort, alloc: Global, rest: &[u8], status: u8, line: &str) {
    let line_feeds = Parts {
        part: &[b'\n'; 4096],
        times: 32768,
        rest,
    };
    let mut files = Made::new(line_feeds, b"");
    let mut errs = sink_of(rt, alloc, 100);
    let got = status_over_made(rt, alloc, "synth", &mut files, &mut errs);
    expect_status(rt, "synth", got, status);
    expect_line(rt, "synth", errs.bytes(), line);
}

// Of the greatest length, and longer by one: permutation texts without numbers.
#[test]
fn a_text_has_as_many_as_134217728_bytes(rt: HostRuntime) {
    let line = "-: 0 numbers are no power of two from 2 to 65536";
    expect_refused(&rt, rt.alloc(), b"", 3, line);
    let line = "-: longer than 134217728 bytes";
    expect_refused(&rt, rt.alloc(), b"\n", 5, line);
}
