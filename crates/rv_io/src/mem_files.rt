ghost use Rattle.std.specs.Prelude.{◌≡◌, ◌≤◌, ◌<◌, ◌^◌, ◌∷◌, ◌++◌, ◌+◌, [], true, false, IfSome, IsNone, None, OnErr};
ghost use Rattle.std.specs.Prelude.{OnOk, is_some, length};
ghost use Rattle.std.specs.FinMap as finite;
ghost use Rattle.rv_io.specs.Faults.{next_count};
ghost use Rattle.rv_io.specs.Files.{Keeps, Reads, SameOpened, Starts};
ghost use Rattle.rv_io.specs.MemFiles.{after_read, after_start, bytes_left, fails_next, files_view, moved_by};
ghost use Rattle.rv_io.specs.MemFiles.{opened_at, place_of, read_answer, read_count, room_after_read, start_answer};
ghost use Rattle.rv_io.specs.inside.Entries.{IsFirst, names_of, pairs};

use crate::{Files, Got, Started};
use std::alloc::{AllocError, Global};
use std::marker::Model;

/// Files in memory. They tell what they hold, fail at the calls that they are given, and can be
/// read in small pieces.
#[derive(Drop)]
pub struct MemFiles {
    alloc: Global,
    // The newest first: of two entries of one name the first counts.
    entries: Vec<(String, Vec<u8>)>,
    // The index of the entry that is started, and the place in it.
    started: Option<(usize, usize)>,
    faults: u64,
    calls: u64,
    failing: Vec<u64>,
    piece: usize,
}

impl Model for MemFiles {
    ghost use Rattle.std.specs.Prelude.{◌≤◌};
    ghost use Rattle.rv_io.specs.MemFiles.{MemFiles, files_code};
    ghost use Rattle.rv_io.specs.inside.Entries.{IsStartedIn, names_of, opened_in, pairs};

    ghost Value = { MemFiles };

    ghost coded = { files_code };

    ghost view = { λ s. record {
      names = names_of (pairs s.entries.items);
      started = opened_in (pairs s.entries.items) s.started;
      faults = s.faults;
      calls = s.calls;
      failing = s.failing.items;
      piece = s.piece;
    } };

    ghost invariant = { λ s. (1 ≤ s.piece) × IsStartedIn (pairs s.entries.items) s.started };
}

impl MemFiles {
    /// No names, no failing calls, and pieces of any size.
    pub fn new(alloc: Global) -> MemFiles
        ensures { result
            ≡ record { names = finite.empty; started = None; faults = 0; calls = 0; failing = []; piece = usize.MAX } }
    {
        MemFiles {
            alloc,
            entries: Vec::new(alloc),
            started: None,
            faults: 0,
            calls: 0,
            failing: Vec::new(alloc),
            piece: usize::MAX,
        }
    }

    /// Holds the bytes at the name, in place of what it held there. The memory of older bytes is
    /// kept until the files are dropped.
    pub fn add(&mut self, name: &str, bytes: &[u8]) -> Result<(), AllocError>
        ensures ok { OnOk result
            (self.new ≡ record self.old { names = finite.insert self.old.names name.now bytes.now; started = None }) }
        ensures err { OnErr result (self.new ≡ self.old) }
    {
        let name = String::from_str(self.alloc, name)?;
        let bytes = Vec::from_slice(self.alloc, bytes)?;
        self.entries.insert(0, (name, bytes))?;
        self.started = None;
        Ok(())
    }

    /// Lets the call of that number fail. Calls of `start` and `read` are counted together, from 1.
    pub fn fail_call(&mut self, number: u64) -> Result<(), AllocError>
        ensures ok { OnOk result (self.new ≡ record self.old { failing = self.old.failing ++ number ∷ [] }) }
        ensures err { OnErr result (self.new ≡ self.old) }
    {
        self.failing.push(number)?;
        Ok(())
    }

    /// Lets a read give at most so many bytes.
    pub fn piece(&mut self, size: usize)
        requires { 1 ≤ size }
        ensures { self.new ≡ record self.old { piece = size } }
    {
        self.piece = size;
    }

    // Counts a call, and answers whether it is one that fails.
    fn begin_call(&mut self) -> bool
        ensures fails { result ≡ fails_next self.old }
        ensures after { self.new ≡ record self.old { calls = next_count self.old.calls } }
        ensures counted { self.new.faults < 2 ^ 64 }
    {
        self.calls = self.calls.saturating_add(1);
        self.failing.contains(&self.calls)
    }

    // Counts a fault.
    fn count_fault(&mut self)
        ensures { self.new ≡ record self.old { faults = next_count self.old.faults } }
    {
        self.faults = self.faults.saturating_add(1);
    }

    // Starts the name at its first byte if it is held, and answers whether it is. Else nothing is started.
    pub(crate) fn open(&mut self, name: &str) -> bool
        ensures held { result ≡ is_some (finite.get self.old.names name.now) }
        ensures after { self.new
            ≡ record self.old { started = opened_at name.now (finite.get self.old.names name.now) } }
    {
        let Some(index) = index_of(&self.entries, name) else {
            self.started = None;
            return false;
        };
        self.started = Some((index, 0));
        true
    }

    // The bytes that are left of what is started.
    fn left(&self) -> &[u8]
        ensures left { result.now ≡ bytes_left self.now }
        ensures small { place_of self.now.started + length result.now < 2 ^ 64 }
    {
        match self.started {
            Some((index, place)) => &self.entries[index].1[place..],
            None => &[],
        }
    }

    // Moves the place.
    fn skip(&mut self, count: usize)
        requires left { count ≤ length (bytes_left self.old) }
        requires small { place_of self.old.started + count < 2 ^ 64 }
        ensures { self.new ≡ record self.old { started = moved_by count self.old.started } }
    {
        if let Some((index, place)) = self.started {
            self.started = Some((index, place + count));
        }
    }

    // Gives the next bytes of what is started, if any are left.
    pub(crate) fn give(&mut self, room: &mut [u8]) -> Got
        ensures answer { result ≡ read_answer (read_count self.old (length room.old)) false }
        ensures after { self.new
            ≡ record self.old { started = moved_by (read_count self.old (length room.old)) self.old.started } }
        ensures filled { room.new
            ≡ room_after_read room.old (bytes_left self.old) (read_count self.old (length room.old)) false }
        ensures fits { place_of self.new.started < 2 ^ 64 }
        ensures piece { 1 ≤ self.old.piece }
    {
        let left = self.left();
        let count = self.piece.min(room.len()).min(left.len());
        if count == 0 {
            return Got::End;
        }
        room[..count].copy_from_slice(&left[..count]);
        self.skip(count);
        Got::Bytes(count)
    }
}

// The first entry of a name.
fn index_of(entries: &[(String, Vec<u8>)], name: &str) -> Option<usize>
    ensures none { IsNone result → finite.get (names_of (pairs entries.now)) name.now ≡ None }
    ensures first { IfSome result (IsFirst name.now (pairs entries.now)) }
{
    entries.iter().position(|entry| name == entry.0.as_str())
}

impl Files for MemFiles {
    ghost view = { files_view };

    fn start(&mut self, name: &str) -> Started
        ensures keeps { Keeps (files_view self.old) (files_view self.new) }
        ensures counted { self.new.faults < 2 ^ 64 }
        ensures starts { Starts (files_view self.old) name.now result (files_view self.new) }
        ensures answer { result ≡ start_answer (finite.get self.old.names name.now) (fails_next self.old) }
        ensures after { self.new
            ≡ after_start self.old name.now (finite.get self.old.names name.now) (fails_next self.old) }
    {
        let fails = self.begin_call();
        if !self.open(name) {
            return Started::Failed;
        }
        if fails {
            self.started = None;
            self.count_fault();
            return Started::Failed;
        }
        Started::Ready
    }

    fn read(&mut self, room: &mut [u8]) -> Got
        requires started { (files_view self.old).is_started ≡ true }
        requires room { 0 < length room.old }
        ensures keeps { Keeps (files_view self.old) (files_view self.new) }
        ensures counted { self.new.faults < 2 ^ 64 }
        ensures same { SameOpened (files_view self.old) (files_view self.new) }
        ensures reads { Reads (files_view self.old) room.new result (files_view self.new) }
        ensures answer { result ≡ read_answer (read_count self.old (length room.old)) (fails_next self.old) }
        ensures after { self.new ≡ after_read self.old (read_count self.old (length room.old)) (fails_next self.old) }
        ensures filled { room.new
            ≡ room_after_read room.old (bytes_left self.old) (read_count self.old (length room.old))
            (fails_next self.old) }
    {
        if self.begin_call() {
            self.count_fault();
            return Got::Failed;
        }
        self.give(room)
    }
}
