// The value of a list of cubes at a word.
ghost use Rattle.std.specs.Prelude.{◌≡◌, ◌^◌, ◌<◌, ◌≤◌, All};
ghost use Rattle.rv_gate.specs.Word.{word_of};
ghost use Rattle.rv_pla.specs.Cube.{matches};
ghost use Rattle.rv_pla.specs.declared.cube.TheConstants.{MOST_INPUTS};
ghost use Rattle.rv_cube.specs.Esop.{esop_value};
ghost use Rattle.rv_gate.specs.Word.{ones_of};

use rv_gate::mirrored_u32;
use rv_pla::{Cube, MOST_INPUTS};

/// The set of the inputs that have a 1 in the word with this number.
pub fn ones_of(inputs: u8, number: u32) -> u16
    requires few { inputs ≤ MOST_INPUTS }
    requires word { number < 2 ^ inputs }
    ensures value { result ≡ ones_of (word_of inputs number) }
    ensures bound { result < 2 ^ inputs }
{
    mirrored_u32(number, inputs) as u16
}

// Whether the cube matches the word of these inputs.
#[tactic(auto, using(crate::proofs::inside::Words::matched))]
pub fn matches(cube: Cube, inputs: u8, number: u32, set: u16) -> bool
    requires set { set ≡ ones_of (word_of inputs number) }
    requires asked { cube.care < 2 ^ inputs }
    ensures { result ≡ matches cube (word_of inputs number) }
{
    (set ^ cube.want) & cube.care == 0
}

/// The outputs that an odd number of the cubes carry that match the word with this number.
#[tactic(auto, unfolding(crate::specs::Esop::esop_value))]
pub fn esop_value(cubes: &[Cube], inputs: u8, number: u32) -> u16
    requires some { 1 ≤ inputs }
    requires few { inputs ≤ MOST_INPUTS }
    requires word { number < 2 ^ inputs }
    requires asked { All (λ cube. cube.care < 2 ^ inputs) cubes.now }
    ensures { result ≡ esop_value cubes.now (word_of inputs number) }
{
    let set = ones_of(inputs, number);
    let mut outs = 0;
    for cube in cubes {
        if matches(*cube, inputs, number, set) {
            outs ^= cube.outs;
        }
    }
    outs
}
