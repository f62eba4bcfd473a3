ghost use Rattle.std.specs.Prelude.{◌≡◌};
ghost use Rattle.rv_pla.specs.Pla.{is_esop, uncovered};
ghost use Rattle.rv_pla.specs.inside.Table.{entry_beside, has_off_set, entry_told};

use crate::entry::Entry;

/// The type of a PLA: what the characters of an output part say.
///
/// A `1` says ON. In types fr and fdr a `0` says OFF, in types fd and fdr a `-` says don't care. In type
/// esop an output is 1 where an odd number of terms have a `1`.
#[derive(Clone, Copy, Debug, PartialEq, Eq)]
pub enum Kind {
    F,
    Fd,
    Fr,
    Fdr,
    Esop,
}

pub(crate) fn is_esop(kind: Kind) -> bool
    ensures { result ≡ is_esop kind }
{
    matches!(kind, Kind::Esop)
}

// Whether the type has OFF-sets: a `0` says OFF.
pub(crate) fn has_off_set(kind: Kind) -> bool
    ensures { result ≡ has_off_set kind }
{
    matches!(kind, Kind::Fr | Kind::Fdr)
}

// What an output is where no term covers a word.
fn uncovered(kind: Kind) -> Entry
    ensures { result ≡ uncovered kind }
{
    match kind {
        Kind::F | Kind::Fd | Kind::Esop => Entry::Zero,
        Kind::Fr | Kind::Fdr => Entry::Free,
    }
}

// What an output is that the second table of a PLA has.
fn entry_beside(kind: Kind) -> Entry
    ensures { result ≡ entry_beside kind }
{
    match kind {
        Kind::Fd => Entry::Free,
        Kind::F | Kind::Fr | Kind::Fdr | Kind::Esop => Entry::Zero,
    }
}

// What an output is, by whether the first table has it, and the second.
pub(crate) fn told(kind: Kind, first: bool, second: bool) -> Entry
    ensures { result ≡ entry_told kind first second }
{
    if first {
        Entry::One
    } else if second {
        entry_beside(kind)
    } else {
        uncovered(kind)
    }
}
