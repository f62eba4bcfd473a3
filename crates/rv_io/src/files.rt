ghost use Rattle.std.specs.Prelude.{◌≡◌, ◌<◌, ◌^◌, true, length};
ghost use Rattle.rv_io.specs.Files.{FilesView, Keeps, Reads, SameOpened, Starts};

/// What the start of a name answers.
#[derive(Clone, Copy, Debug, PartialEq, Eq)]
pub enum Started {
    /// The name is started at its first byte.
    Ready,
    /// Nothing is started.
    Failed,
}

/// What a read answers.
#[derive(Clone, Copy)]
pub enum Got {
    /// So many bytes are the first of the room.
    Bytes(usize),
    /// The name was read to its end.
    End,
    /// The place stays.
    Failed,
}

/// Contents by name, of which one at a time is read. The name `-` stands for standard input.
///
/// Files may tell what each name holds. They always tell whether a name is started, how many of
/// its bytes were read, and how often a call has failed.
pub trait Files {
    /// What a contract sees.
    ghost view: { Self → FilesView };

    /// Starts a name at its first byte. What was started before no longer is.
    fn start(&mut self, name: &str) -> Started
        ensures keeps { Keeps (view self.old) (view self.new) }
        ensures counted { (view self.new).faults < 2 ^ 64 }
        ensures starts { Starts (view self.old) name.now result (view self.new) };

    /// Reads the next bytes of the started name into `room`, from its first place on.
    fn read(&mut self, room: &mut [u8]) -> Got
        requires started { (view self.old).is_started ≡ true }
        requires room { 0 < length room.old }
        ensures keeps { Keeps (view self.old) (view self.new) }
        ensures counted { (view self.new).faults < 2 ^ 64 }
        ensures same { SameOpened (view self.old) (view self.new) }
        ensures reads { Reads (view self.old) room.new result (view self.new) };
}
