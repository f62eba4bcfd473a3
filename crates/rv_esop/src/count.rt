// How many flips a list of cubes takes.
ghost use Rattle.std.specs.Prelude.{◌≡◌, ◌≤◌, length};
ghost use Rattle.rv_pla.specs.declared.cube.TheConstants.{MOST_OUTPUTS};
ghost use Rattle.rv_cube.specs.declared.list.TheConstants.{MOST_CUBES};
ghost use Rattle.rv_esop.specs.Cascade.{flips_of_cubes};
ghost use Rattle.rv_esop.specs.inside.Flips.{flips_from};

use rv_cube::MOST_CUBES;
use rv_pla::{Cube, MOST_OUTPUTS, has};

/// How many flips a cube takes.
pub fn count_of(cube: Cube, inputs: u8, outputs: u8) -> u32
    requires { outputs ≤ MOST_OUTPUTS }
    ensures value { result ≡ length (flips_from inputs cube 0 outputs) }
    ensures few { result ≤ outputs }
{
    let mut count = 0;
    for output in 0..outputs {
        if has(cube.outs, output) {
            count += 1;
        }
    }
    count
}

/// How many flips the cubes take together.
#[tactic(auto, using(crate::proofs::inside::Counts::counts))]
pub fn flip_count(cubes: &[Cube], inputs: u8, outputs: u8) -> u32
    requires few { length cubes.now ≤ MOST_CUBES }
    requires few_outputs { outputs ≤ MOST_OUTPUTS }
    ensures { result ≡ length (flips_of_cubes inputs outputs cubes.now) }
{
    let mut count = 0;
    for cube in cubes {
        count += count_of(*cube, inputs, outputs);
    }
    count
}
