ghost use Rattle.std.specs.Prelude.{◌≡◌, ◌<◌, ◌^◌, true, false, length};
ghost use Rattle.rv_io.specs.Files.{Keeps, Reads, SameOpened, Starts};
ghost use Rattle.rv_io.specs.MemFiles.{bytes_left, moved_by, read_answer, read_count, room_after_read};
ghost use Rattle.rv_io.specs.SafeFiles.{after_safe_start, safe_view};
ghost use Rattle.rv_io.specs.declared.files.Started.TheVariants.{Ready};

use crate::{Files, Got, MemFiles, Started};
use std::marker::Model;

/// Files in memory that never fail: the failing calls that they were given are ignored, and a name
/// that is not held is read as an empty one.
#[derive(Drop)]
pub struct SafeFiles {
    files: MemFiles,
    // Whether a name is started that `files` doesn't hold.
    unheld: bool,
}

impl Model for SafeFiles {
    ghost use Rattle.rv_io.specs.SafeFiles.{SafeFiles, safe_code};

    ghost Value = { SafeFiles };

    ghost coded = { safe_code };

    ghost view = { λ s. record { files = s.files; is_unheld = s.unheld } };
}

impl SafeFiles {
    /// The names and pieces of these files.
    pub fn new(files: MemFiles) -> SafeFiles
        ensures { result ≡ record { files = files; is_unheld = false } }
    {
        SafeFiles {
            files,
            unheld: false,
        }
    }
}

impl Files for SafeFiles {
    ghost view = { safe_view };

    fn start(&mut self, name: &str) -> Started
        ensures keeps { Keeps (safe_view self.old) (safe_view self.new) }
        ensures counted { (safe_view self.new).faults < 2 ^ 64 }
        ensures starts { Starts (safe_view self.old) name.now result (safe_view self.new) }
        ensures answer { result ≡ Ready }
        ensures after { self.new ≡ after_safe_start self.old name.now }
    {
        self.unheld = !self.files.open(name);
        Started::Ready
    }

    fn read(&mut self, room: &mut [u8]) -> Got
        requires started { (safe_view self.old).is_started ≡ true }
        requires room { 0 < length room.old }
        ensures keeps { Keeps (safe_view self.old) (safe_view self.new) }
        ensures counted { (safe_view self.new).faults < 2 ^ 64 }
        ensures same { SameOpened (safe_view self.old) (safe_view self.new) }
        ensures reads { Reads (safe_view self.old) room.new result (safe_view self.new) }
        ensures answer { result ≡ read_answer (read_count self.old.files (length room.old)) false }
        ensures after { self.new
            ≡ record self.old {
              files = record self.old.files {
                started = moved_by (read_count self.old.files (length room.old)) self.old.files.started;
              };
            } }
        ensures filled { room.new
            ≡ room_after_read room.old (bytes_left self.old.files) (read_count self.old.files (length room.old)) false }
    {
        self.files.give(room)
    }
}
