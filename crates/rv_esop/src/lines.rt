// The lines of the circuit of a list of cubes.
ghost use Rattle.std.specs.Prelude.{◌≡◌, ◌+◌, ◌≤◌, ◌++◌, true, false, replicate, length, IfOk};
ghost use Rattle.rv_gate.specs.Names.{numbered};
ghost use Rattle.rv_gate.specs.declared.circuit.Mark.TheVariants.{Input, Zero};
ghost use Rattle.rv_pla.specs.declared.cube.TheConstants.{MOST_INPUTS, MOST_OUTPUTS};
ghost use Rattle.rv_esop.specs.Cascade.{esop_lines};

use rv_gate::{Circuit, Mark, Names};
use rv_pla::{MOST_INPUTS, MOST_OUTPUTS};
use std::alloc::{AllocError, Global};

fn names_of(alloc: Global, inputs: u8, outputs: u8) -> Result<Names, AllocError>
    requires few_inputs { inputs ≤ MOST_INPUTS }
    requires few_outputs { outputs ≤ MOST_OUTPUTS }
    ensures { IfOk result (λ names. names ≡ numbered 120 inputs ++ numbered 121 outputs) }
{
    let mut names = Names::numbered(alloc, b'x', inputs)?;
    let more = Names::numbered(alloc, b'y', outputs)?;
    for output in 0..outputs {
        match names.push(more.name(output)) {
            Ok(()) => {}
            Err(_) => return Err(AllocError),
        }
    }
    Ok(names)
}

fn hold_zeros(circuit: &mut Circuit, inputs: u8, outputs: u8)
    requires few_inputs { inputs ≤ MOST_INPUTS }
    requires few_outputs { outputs ≤ MOST_OUTPUTS }
    requires lines { length circuit.old.names ≡ inputs + outputs }
    requires fresh { circuit.old.constants ≡ replicate (inputs + outputs) Input }
    ensures { circuit.new ≡ record circuit.old { constants = replicate inputs Input ++ replicate outputs Zero } }
{
    for output in 0..outputs {
        circuit.set_constant(inputs + output, Mark::Zero);
    }
}

fn drop_inputs(circuit: &mut Circuit, inputs: u8, outputs: u8)
    requires few_inputs { inputs ≤ MOST_INPUTS }
    requires few_outputs { outputs ≤ MOST_OUTPUTS }
    requires lines { length circuit.old.names ≡ inputs + outputs }
    requires fresh { circuit.old.garbage ≡ replicate (inputs + outputs) false }
    ensures { circuit.new ≡ record circuit.old { garbage = replicate inputs true ++ replicate outputs false } }
{
    for input in 0..inputs {
        circuit.set_garbage(input, true);
    }
}

/// The circuit without gates on the lines for these inputs and outputs.
pub fn lines_of(alloc: Global, inputs: u8, outputs: u8) -> Result<Circuit, AllocError>
    requires some { 1 ≤ inputs }
    requires few_inputs { inputs ≤ MOST_INPUTS }
    requires few_outputs { outputs ≤ MOST_OUTPUTS }
    ensures { IfOk result (λ c. c ≡ esop_lines inputs outputs) }
{
    let names = names_of(alloc, inputs, outputs)?;
    let mut circuit = Circuit::new(names)?;
    hold_zeros(&mut circuit, inputs, outputs);
    drop_inputs(&mut circuit, inputs, outputs);
    Ok(circuit)
}
