ghost use Rattle.rv_cmd.specs.Commands.ToReal.{IsCircuitOf, toreal_report};

use crate::making::OneInput;
use crate::product::Product;
use crate::refusals::{passed, too_many_gates};
use rv_faults::{InputFault, Refusal};
use rv_qasm::{BackFault, Program, QasmReader, to_circuit};
use std::alloc::Global;

/// The circuit of the network of an OpenQASM text.
pub(crate) struct ToReal;

impl OneInput for ToReal {
    type Text = QasmReader;

    ghost report = { λ command. toreal_report };

    ghost Means = { λ command. IsCircuitOf };

    fn make(&self, alloc: Global, program: &Program) -> Result<Product, Refusal> {
        let net = program.net();
        net.recall_invariant();
        match to_circuit(alloc, net) {
            Ok(circuit) => {
                circuit.recall_invariant();
                Ok(Product::Circuit(circuit))
            }
            Err(BackFault::NotClassical(place)) => Err(passed(InputFault::NotClassical { place })),
            Err(BackFault::TooManyGates(count)) => Err(too_many_gates(count)),
            Err(BackFault::Mem) => Err(Refusal::OutOfMemory),
        }
    }
}
