ghost use Rattle.std.specs.Prelude.{◌≡◌, false};
ghost use Rattle.rv_io.specs.HostFiles.{progress_view};

use crate::{Files, Got, Started, read_from};
use std::fs;
use std::fs::File;
use std::marker::Model;

/// The name of standard input.
const STANDARD_INPUT: &str = "-";

#[derive(Drop)]
enum Source {
    Input,
    Open(File),
}

/// The files of the system, by their paths. The name `-` is standard input. No content is told.
///
/// Each start opens the file anew, but standard input goes on where the last read of it ended.
#[derive(Drop)]
pub struct HostFiles<'a> {
    rt: &'a HostRuntime,
    source: Option<Source>,
    place: u64,
    faults: u64,
}

fn source_of(rt: &HostRuntime, name: &str) -> Option<Source> {
    if name == STANDARD_INPUT {
        return Some(Source::Input);
    }
    match fs::open(rt, name) {
        Ok(file) => Some(Source::Open(file)),
        Err(_) => None,
    }
}

impl<'a> Model for HostFiles<'a> {
    ghost use Rattle.std.specs.Prelude.{◌<◌, ◌^◌, is_some};
    ghost use Rattle.rv_io.specs.HostFiles.{HostFiles};

    ghost Value = { HostFiles };

    ghost view = { λ s. record { is_started = is_some s.source; place = s.place; faults = s.faults } };

    ghost invariant = { λ s. s.faults < 2 ^ 64 };
}

impl<'a> HostFiles<'a> {
    /// Nothing is started.
    pub fn new(rt: &'a HostRuntime) -> HostFiles<'a>
        ensures { result ≡ record { is_started = false; place = 0; faults = 0 } }
    {
        HostFiles {
            rt,
            source: None,
            place: 0,
            faults: 0,
        }
    }
}

impl Files for HostFiles<'_> {
    ghost view = { progress_view };

    fn start(&mut self, name: &str) -> Started {
        self.place = 0;
        self.source = source_of(self.rt, name);
        if self.source.is_none() {
            self.faults = self.faults.saturating_add(1);
            return Started::Failed;
        }
        Started::Ready
    }

    fn read(&mut self, room: &mut [u8]) -> Got {
        let got = match &mut self.source {
            Some(Source::Input) => read_from(&mut self.rt.stdin(), room),
            Some(Source::Open(file)) => read_from(file, room),
            None => unreachable!(),
        };
        match got {
            Got::Bytes(count) => self.place = self.place.saturating_add(count as u64),
            Got::End => {}
            Got::Failed => self.faults = self.faults.saturating_add(1),
        }
        got
    }
}
