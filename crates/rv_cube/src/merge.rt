// Two cubes become one.
ghost use Rattle.std.specs.Prelude.{◌≡◌, ◌≤◌};
ghost use Rattle.rv_pla.specs.declared.cube.TheConstants.{MOST_INPUTS};
ghost use Rattle.rv_cube.specs.Reduction.{carrying, merge};

use super::distance::{Apart, differing, with_third};
use rv_pla::{Cube, MOST_INPUTS};

fn carrying(cube: Cube) -> Option<Cube>
    ensures { result ≡ carrying cube }
{
    if cube.outs == 0 { None } else { Some(cube) }
}

/// What two cubes become that have the same inputs, or the same outputs and one input in which they differ.
pub fn merge(x: Cube, y: Cube, inputs: u8) -> Option<Cube>
    requires { inputs ≤ MOST_INPUTS }
    ensures { result ≡ merge inputs x y }
{
    match differing(x, y, inputs) {
        Apart::OneInput(p) => Some(with_third(x, y, p)),
        _ => carrying(Cube {
            care: x.care,
            want: x.want,
            outs: x.outs ^ y.outs,
        }),
    }
}
