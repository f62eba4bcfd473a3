// Cubes as the controls of flips.
ghost use Rattle.std.specs.Prelude.{◌≡◌, Bool, List, if◌then◌else◌};
ghost use Rattle.rv_gate.specs.Gate.{act, flip, IsGate};
ghost use Rattle.rv_pla.specs.Cube.{matches};
ghost use Rattle.rv_cube.specs.Flip.{flip_of};

use rv_gate::{Gate, LineSet};
use rv_pla::Cube;

/// The flip of the target under the cube: the cube's ones are its positive controls, the zeros its negative ones.
///
/// So it acts on the words that the cube matches.
#[tactic(auto, using(crate::proofs::inside::Words::held))]
pub fn flip_of(cube: Cube, target: u8) -> Gate
    requires { IsGate (flip_of cube target) }
    ensures value { result ≡ flip_of cube target }
    ensures acts { (word : List Bool) → act result word ≡ (if matches cube word then flip word target else word) }
{
    let Some(gate) = Gate::flip(LineSet::from(cube.care), LineSet::from(cube.want), target) else {
        unreachable!()
    };
    gate
}
