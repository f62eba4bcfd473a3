ghost use Rattle.std.specs.Prelude.{◌≡◌};

/// What a PLA gives for an output at a word.
#[derive(Clone, Copy, Debug, PartialEq, Eq)]
pub enum Entry {
    One,
    Zero,
    /// Either value serves.
    Free,
}

impl Entry {
    ghost use Rattle.rv_pla.specs.Zeros.{bit_for};
    ghost use Rattle.rv_pla.specs.FreeEntries.{is_dont_care};

    /// The bit of the entry: a free one counts as 0.
    pub fn bit(self) -> bool
        ensures { result ≡ bit_for self }
    {
        matches!(self, Entry::One)
    }

    /// Either value serves.
    pub fn is_dont_care(self) -> bool
        ensures { result ≡ is_dont_care self }
    {
        matches!(self, Entry::Free)
    }
}
