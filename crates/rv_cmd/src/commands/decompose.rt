ghost use Rattle.rv_cmd.specs.Commands.Decompose.{IsDecomposition, decompose_report};

use crate::making::OneInput;
use crate::product::Product;
use crate::steps::decomposition;
use rv_faults::Refusal;
use rv_gate::Circuit;
use rv_mct::Aux;
use rv_real::RealReader;
use std::alloc::Global;

/// A circuit of NOT, CNOT and Toffoli gates that does what a circuit does.
#[derive(Clone, Copy)]
pub(crate) struct Decompose {
    pub(crate) aux: Aux,
}

impl OneInput for Decompose {
    type Text = RealReader;

    ghost report = { λ command. decompose_report command.aux };

    ghost Means = { λ command. IsDecomposition command.aux };

    fn make(&self, alloc: Global, circuit: &Circuit) -> Result<Product, Refusal> {
        circuit.recall_invariant();
        match decomposition(alloc, self.aux, circuit) {
            Ok(decomposed) => {
                decomposed.recall_invariant();
                Ok(Product::Circuit(decomposed))
            }
            Err(refusal) => Err(refusal),
        }
    }
}
