ghost use Rattle.std.specs.Prelude.{◌≡◌, ◌+◌, ◌<◌, ◌≤◌, ◌↔◌, ◌++◌, ℕ, Bool, List, length, OnOk, IfOk};
ghost use Rattle.rv_gate.specs.Gate.{run};
ghost use Rattle.rv_gate.specs.declared.circuit.TheConstants.{MOST_GATES};
ghost use Rattle.rv_pla.specs.Cube.{IsCube};
ghost use Rattle.rv_pla.specs.declared.cube.TheConstants.{MOST_INPUTS, MOST_OUTPUTS};
ghost use Rattle.rv_cube.specs.Esop.{esop_value};
ghost use Rattle.rv_esop.specs.Cascade.{cascade_of, flip_count, xor_set};
ghost use Rattle.rv_esop.specs.inside.Flips.{flips_from};
ghost use Rattle.rv_esop.specs.declared.circuit.EsopFault.TheVariants.{Mem};

use super::count::flip_count;
use super::lines::lines_of;
use rv_cube::{CubeList, flip_of};
use rv_gate::{Circuit, MOST_GATES};
use rv_pla::{Cube, MOST_INPUTS, MOST_OUTPUTS, has};
use std::alloc::{AllocError, Global};
use thiserror::Error;

/// Why there is no circuit.
#[derive(Clone, Copy, Debug, PartialEq, Eq, Error)]
pub enum EsopFault {
    /// The cubes take so many flips together, more than [`MOST_GATES`].
    #[error("{0} gates are too many")]
    TooManyGates(u32),
    #[error("out of memory")]
    Mem,
}

impl From<AllocError> for EsopFault {
    ghost from_gives = { λ _ fault. fault ≡ Mem };

    fn from(_: AllocError) -> Self {
        EsopFault::Mem
    }
}

fn push_flips(circuit: &mut Circuit, cube: Cube, inputs: u8, outputs: u8) -> Result<(), AllocError>
    requires few_inputs { inputs ≤ MOST_INPUTS }
    requires few_outputs { outputs ≤ MOST_OUTPUTS }
    requires lines { length circuit.old.names ≡ inputs + outputs }
    requires valid { IsCube inputs outputs cube }
    ensures { OnOk result (circuit.new
        ≡ record circuit.old { gates = circuit.old.gates ++ flips_from inputs cube 0 outputs }) }
{
    for output in 0..outputs {
        if has(cube.outs, output) {
            match circuit.push(flip_of(cube, inputs + output)) {
                Ok(()) => {}
                Err(_) => return Err(AllocError),
            }
        }
    }
    Ok(())
}

/// The circuit of a list of cubes: a flip for each cube and output.
///
/// Lines `x0`, `x1`, .. are the inputs, and garbage at the end. Lines `y0`, `y1`, .. are the outputs, and
/// hold 0. The flips of a cube have its ones as positive and its zeros as negative controls. Whatever the
/// output lines hold, the circuit adds the value of the list to it, bit by bit, and keeps the inputs.
pub fn cascade(alloc: Global, cubes: &CubeList) -> Result<Circuit, EsopFault>
    ensures circuit { IfOk result (λ c. c ≡ cascade_of cubes.now) }
    ensures adds { IfOk result (λ c. (x v : List Bool) → length x ≡ cubes.now.inputs → length v ≡ cubes.now.outputs
        → run c.gates (x ++ v) ≡ x ++ xor_set v (esop_value cubes.now.cubes x)) }
    ensures too_many { (n : ℕ) → (result ≡ Err (EsopFault.TooManyGates n))
        ↔ ((flip_count cubes.now ≡ n) × (MOST_GATES < n)) }
{
    let (inputs, outputs) = (cubes.inputs(), cubes.outputs());
    let count = flip_count(cubes.cubes(), inputs, outputs);
    if count as usize > MOST_GATES {
        return Err(EsopFault::TooManyGates(count));
    }
    let mut circuit = lines_of(alloc, inputs, outputs)?;
    for cube in cubes.cubes() {
        push_flips(&mut circuit, *cube, inputs, outputs)?;
    }
    Ok(circuit)
}
