// What is refused of the first input by a limit that is passed, after limits that are kept.
ghost use Rattle.std.specs.Prelude.{◌≡◌, ◌<◌, ◌∷◌, ◌++◌, ℕ, List};
ghost use Rattle.rv_faults.specs.declared.fault.InputFault.{InputFault};
ghost use Rattle.rv_cmd.specs.Limits.{AreKept, Limit, at_most, of_gates, of_lines, of_ops};
ghost use Rattle.rv_cmd.specs.inside.Products.{IsRefusalOf};

use rv_faults::{InputFault, Refusal};
use rv_gate::MOST_GATES;
use rv_net::MOST_OPS;

/// A limit is passed, for this reason.
pub(crate) fn passed(why: InputFault) -> Refusal
    ensures { (count most : ℕ) (reason : InputFault) (first rest : List Limit) → AreKept first → (reason ≡ why)
        × (most < count)
        → IsRefusalOf 1 (first ++ at_most 0 count most reason ∷ rest) result }
{
    Refusal::Refused { input: 0, why }
}

/// So many lines are more than there may be.
pub(crate) fn too_many_lines(count: u8, most: u8) -> Refusal
    ensures { (lines : ℕ) (first rest : List Limit) → AreKept first → (lines ≡ count) × (most < count)
        → IsRefusalOf 1 (first ++ of_lines lines most ∷ rest) result }
{
    passed(InputFault::TooManyLines {
        count: u32::from(count),
        most,
    })
}

/// So many gates are more than a circuit may have.
pub(crate) fn too_many_gates(count: u32) -> Refusal
    ensures { (gates : ℕ) (first rest : List Limit) → AreKept first → (gates ≡ count) × (MOST_GATES < count)
        → IsRefusalOf 1 (first ++ of_gates gates ∷ rest) result }
{
    passed(InputFault::TooManyGates {
        count,
        most: MOST_GATES as u32,
    })
}

/// So many operations are more than a network may have.
pub(crate) fn too_many_ops(count: u32) -> Refusal
    ensures { (ops : ℕ) (first rest : List Limit) → AreKept first → (ops ≡ count) × (MOST_OPS < count)
        → IsRefusalOf 1 (first ++ of_ops ops ∷ rest) result }
{
    passed(InputFault::TooManyOps {
        count,
        most: MOST_OPS as u32,
    })
}
