// The Reed-Muller form of a table of values.
ghost use Rattle.std.specs.Prelude.{◌≡◌, ◌^◌, ◌<◌, ◌≤◌, length, All, IfOk};
ghost use Rattle.rv_pla.specs.declared.cube.TheConstants.{MOST_INPUTS};
ghost use Rattle.rv_cube.specs.Esop.{terms_of, IsTerm};
ghost use Rattle.rv_cube.specs.inside.Transform.{transformed, xor_each, set_cubes};

use super::value::ones_of;
use rv_pla::{Cube, MOST_INPUTS};
use std::alloc::{AllocError, Global};

#[tactic(auto, using(crate::proofs::inside::ReedMuller::xor_each_from))]
fn xor_each(low: &[u16], high: &mut [u16])
    requires { length low.now ≡ length high.old }
    ensures { high.new ≡ xor_each low.now high.old }
{
    for i in 0..high.len() {
        high[i] ^= low[i];
    }
}

/// Puts in place of the values the outputs of each set of inputs.
#[tactic(auto, using(crate::proofs::inside::ReedMuller::transformed_none))]
pub fn transform(table: &mut [u16], inputs: u8)
    requires few { inputs ≤ MOST_INPUTS }
    requires full { length table.old ≡ 2 ^ inputs }
    ensures { table.new ≡ transformed inputs table.old }
{
    if inputs == 0 {
        return;
    }
    let (low, high) = table.split_at_mut(1 << (inputs - 1));
    xor_each(low, high);
    transform(low, inputs - 1);
    transform(high, inputs - 1);
}

/// A cube for each set that some output needs.
#[tactic(auto, using(crate::proofs::inside::ReedMuller::filling))]
pub fn cubes_of(
    alloc: Global,
    needed: &[u16],
    inputs: u8,
    outputs: u8,
) -> Result<Vec<Cube>, AllocError>
    requires some { 1 ≤ inputs }
    requires few { inputs ≤ MOST_INPUTS }
    requires full { length needed.now ≡ 2 ^ inputs }
    requires small { All (λ y. y < 2 ^ outputs) needed.now }
    ensures value { IfOk result (λ v. v.items ≡ terms_of (set_cubes inputs needed.now (2 ^ inputs))) }
    ensures valid { IfOk result (λ v. All (IsTerm inputs outputs) v.items) }
    ensures len { IfOk result (λ v. length v.items ≤ 2 ^ inputs) }
{
    let mut cubes = Vec::new(alloc);
    for s in 0..needed.len() {
        let outs = needed[s];
        if outs != 0 {
            let set = ones_of(inputs, s as u32);
            cubes.push(Cube {
                care: set,
                want: set,
                outs,
            })?;
        }
    }
    Ok(cubes)
}
