ghost use Rattle.rv_cmd.specs.Commands.Single.{IsSingleSynthesis, single_report};

use crate::making::OneInput;
use crate::product::Product;
use rv_dbs::synth_single;
use rv_faults::Refusal;
use rv_perm::{PermReader, PermSpec};
use std::alloc::Global;

/// A circuit of single-target gates that computes a permutation.
pub(crate) struct Single;

impl OneInput for Single {
    type Text = PermReader;

    ghost report = { λ command. single_report };

    ghost Means = { λ command. IsSingleSynthesis };

    fn make(&self, alloc: Global, spec: &PermSpec) -> Result<Product, Refusal> {
        spec.recall_invariant();
        match synth_single(alloc, spec) {
            Ok(circuit) => {
                circuit.recall_invariant();
                Ok(Product::Circuit(circuit))
            }
            Err(_) => Err(Refusal::OutOfMemory),
        }
    }
}
