//! Whether two gates commute.
ghost use Rattle.std.specs.Prelude.{◌≡◌, ◌<◌};
ghost use Rattle.rv_gate.specs.Gate.{IsGate};
ghost use Rattle.rv_gate.specs.Commuting.{meet, rule};

use rv_gate::{Gate, LineSet, Shape};

// Whether the sets have a line in common.
#[inline(always)]
fn meet(a: LineSet, b: LineSet) -> bool
    ensures { result ≡ meet a b }
{
    a & b != 0
}

// Whether the flips commute. Those of one target do.
#[inline(always)]
#[tactic(auto, unfolding(rv_gate::specs::Commuting::rule))]
fn flips_pass(
    care: LineSet,
    want: LineSet,
    target: u8,
    care2: LineSet,
    want2: LineSet,
    target2: u8,
) -> bool
    requires first { IsGate (Shape.Flip care want target) }
    requires second { IsGate (Shape.Flip care2 want2 target2) }
    ensures { result ≡ rule (Shape.Flip care want target) (Shape.Flip care2 want2 target2) }
{
    if target == target2 {
        return true;
    }
    meet(care & care2, want ^ want2) || !meet(1 << target, care2) && !meet(1 << target2, care)
}

/// Whether the gates commute, by the rule: as `Gate::commutes`, and quicker for flips.
#[inline(always)]
pub fn passes(first: Gate, second: Gate) -> bool
    ensures { result ≡ rule first second }
{
    match first.shape() {
        Shape::Flip { care, want, target } => match second.shape() {
            Shape::Flip {
                care: care2,
                want: want2,
                target: target2,
            } => flips_pass(care, want, target, care2, want2, target2),
            Shape::Swap { .. } => first.commutes(second),
            Shape::Peres { .. } => first.commutes(second),
        },
        Shape::Swap { .. } => first.commutes(second),
        Shape::Peres { .. } => first.commutes(second),
    }
}
