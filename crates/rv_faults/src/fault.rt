ghost use Rattle.std.specs.Prelude.{◌≡◌};
ghost use Rattle.rv_faults.specs.Fault.{fault_of, status_of, status_of_input, unmade_by};

/// Why a run did not do what its arguments ask for. Inputs are numbered from 0, in the order of the arguments.
#[derive(Clone, Copy)]
pub enum Fault {
    /// The start or a read of an input failed.
    CannotRead { input: usize },
    /// A write or the flush of the output failed.
    CannotWrite,
    /// What an input holds is refused.
    Refused { input: usize, why: InputFault },
    /// An input has more than [`MOST_BYTES`](rv_text::MOST_BYTES) bytes.
    TooLong { input: usize },
    /// A growth of memory was refused.
    OutOfMemory,
}

/// Why nothing is made of the inputs: one of them isn't read, or a command refuses what was read.
#[derive(Clone, Copy)]
pub enum Unmade {
    /// The start or a read of an input failed.
    CannotRead { input: usize },
    /// What an input holds is refused.
    Refused { input: usize, why: InputFault },
    /// An input has more than [`MOST_BYTES`](rv_text::MOST_BYTES) bytes.
    TooLong { input: usize },
    /// A growth of memory was refused.
    OutOfMemory,
}

/// Why a command makes nothing of inputs that were read.
#[derive(Clone, Copy)]
pub enum Refusal {
    /// What an input holds is refused.
    Refused { input: usize, why: InputFault },
    /// A growth of memory was refused.
    OutOfMemory,
}

impl Refusal {
    /// As why nothing is made of the inputs.
    pub fn unmade(self) -> Unmade
        ensures { result ≡ unmade_by self }
    {
        match self {
            Refusal::Refused { input, why } => Unmade::Refused { input, why },
            Refusal::OutOfMemory => Unmade::OutOfMemory,
        }
    }
}

impl Unmade {
    /// As why a run did not do what its arguments ask for.
    pub fn fault(self) -> Fault
        ensures { result ≡ fault_of self }
    {
        match self {
            Unmade::CannotRead { input } => Fault::CannotRead { input },
            Unmade::Refused { input, why } => Fault::Refused { input, why },
            Unmade::TooLong { input } => Fault::TooLong { input },
            Unmade::OutOfMemory => Fault::OutOfMemory,
        }
    }
}

/// The format of an input, with the codes of its rules.
#[derive(Clone, Copy)]
pub enum TextFormat {
    /// RevLib's `.real`; the codes are those of [`rv_real::code`].
    Real,
    /// Permutations; the codes are those of [`rv_perm::code`].
    Permutation,
    /// PLAs; the codes are those of [`rv_pla::code`].
    Pla,
    /// OpenQASM 2.0; the codes are those of [`rv_qasm::code`].
    Qasm,
    /// BLIF; the codes are those of [`rv_blif::code`].
    Blif,
    /// Words for a circuit; there is one code, 0.
    Words,
}

/// What a comparison that isn't decided counts.
#[derive(Clone, Copy)]
pub enum Measure {
    /// Nodes of decision diagrams, and there may be no more.
    Nodes,
    /// Terms of a sum over paths, and there may be no more.
    Terms,
    /// Steps that follow a sum over paths, and there may be no more.
    Steps,
    /// Bits of the paths of a sum, which are left at its end.
    PathBits,
}

/// Why what an input holds is refused.
#[derive(Clone, Copy)]
pub enum InputFault {
    /// A line breaks a rule of the format.
    Text {
        format: TextFormat,
        line: u32,
        code: u8,
    },
    /// So many numbers are no permutation of the words of 1 to 16 lines.
    WrongLength {
        count: u32,
    },
    /// The number at this place is not below the count of the numbers.
    OutOfRange {
        place: u32,
    },
    /// The same number stands at both places.
    Repeated {
        first: u32,
        second: u32,
    },
    /// The terms on these lines say 1 and 0 of the same output at a word, which goes by the number of
    /// its `inputs` bits.
    Conflict {
        on_line: u32,
        off_line: u32,
        inputs: u8,
        word: u32,
    },
    /// The gate at this place, from 1, of a template is no Toffoli gate.
    NotToffoli {
        place: u32,
    },
    /// A template of so many lines makes another word of a word; both go by their numbers.
    NotIdentity {
        lines: u8,
        word: u8,
        image: u8,
    },
    /// The operation at this place, from 1, of a network does not only move words.
    NotClassical {
        place: u32,
    },
    /// A template has so many lines, more than it may have.
    WideTemplate {
        lines: u8,
        most: u8,
    },
    /// A template has so many gates, more than it may have.
    LongTemplate {
        gates: u32,
        most: u32,
    },
    /// So many lines are needed, more than there may be.
    TooManyLines {
        count: u32,
        most: u8,
    },
    /// The inputs and outputs need so many lines, more than there may be.
    TooManyEnds {
        count: u32,
        most: u8,
    },
    /// So many gates are needed, more than a circuit has.
    TooManyGates {
        count: u32,
        most: u32,
    },
    /// More gates are needed than this many.
    MoreGates {
        most: u32,
    },
    /// So many operations are needed, more than a network has.
    TooManyOps {
        count: u32,
        most: u32,
    },
    /// After the operation at this place, from 1, a network that was followed from a word of `lines` bits,
    /// which goes by its number, has a coefficient beyond the limit.
    LargeCoefficient {
        lines: u8,
        word: u16,
        place: u32,
    },
    /// Whether both inputs agree isn't told: what is followed grew to so much.
    Undecided {
        count: u64,
        what: Measure,
    },
}

impl Fault {
    /// The exit status.
    pub fn status(self) -> u8
        ensures { result ≡ status_of self }
    {
        match self {
            Fault::CannotRead { .. } | Fault::CannotWrite => 4,
            Fault::Refused { why, .. } => why.status(),
            Fault::TooLong { .. } => 5,
            Fault::OutOfMemory => 6,
        }
    }
}

impl InputFault {
    /// The exit status.
    pub fn status(self) -> u8
        ensures { result ≡ status_of_input self }
    {
        match self {
            InputFault::Text { .. }
            | InputFault::WrongLength { .. }
            | InputFault::OutOfRange { .. }
            | InputFault::Repeated { .. }
            | InputFault::Conflict { .. }
            | InputFault::NotToffoli { .. }
            | InputFault::NotIdentity { .. }
            | InputFault::NotClassical { .. } => 3,
            InputFault::WideTemplate { .. }
            | InputFault::LongTemplate { .. }
            | InputFault::TooManyLines { .. }
            | InputFault::TooManyEnds { .. }
            | InputFault::TooManyGates { .. }
            | InputFault::MoreGates { .. }
            | InputFault::TooManyOps { .. }
            | InputFault::LargeCoefficient { .. }
            | InputFault::Undecided { .. } => 5,
        }
    }
}
