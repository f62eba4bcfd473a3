ghost use Rattle.std.specs.Prelude.{◌≡◌};
ghost use Rattle.rv_compare.specs.Compare.{of_failing};
ghost use Rattle.rv_compare.specs.declared.comparison.CompareFault.TheVariants.{Mem};

use rv_diagram::DiagramFault;
use std::alloc::AllocError;
use thiserror::Error;

/// The most inputs of a circuit that is compared on all words.
pub const MOST_INPUTS: u8 = 24;

/// What a comparison finds.
#[derive(Clone, Copy, Debug, PartialEq, Eq)]
pub enum Comparison {
    /// Both have as many inputs and outputs, and agree at every input word.
    Same,
    /// They have these numbers of inputs, which differ.
    Inputs(u32, u32),
    /// They have these numbers of outputs, which differ.
    Outputs(u32, u32),
    /// The input word with this number is the least one at which they don't agree.
    Differs(u64),
}

/// What the first word at which both fail to agree tells.
pub(crate) fn answer_of(found: Option<u64>) -> Comparison
    ensures { result ≡ of_failing found }
{
    match found {
        None => Comparison::Same,
        Some(word) => Comparison::Differs(word),
    }
}

/// Why there is no answer.
#[derive(Clone, Copy, Debug, PartialEq, Eq, Error)]
pub enum CompareFault {
    /// There are more than [`MOST_INPUTS`] inputs, and no diagram of so few nodes tells.
    #[error("undecided by small diagrams")]
    Undecided,
    #[error("out of memory")]
    Mem,
}

impl From<AllocError> for CompareFault {
    ghost from_gives = { λ _ fault. fault ≡ Mem };

    fn from(_: AllocError) -> Self {
        CompareFault::Mem
    }
}

/// Why no diagram tells.
pub(crate) fn undecided(fault: DiagramFault) -> CompareFault {
    match fault {
        DiagramFault::TooLarge => CompareFault::Undecided,
        DiagramFault::Mem => CompareFault::Mem,
    }
}
