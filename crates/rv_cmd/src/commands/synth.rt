ghost use Rattle.std.specs.Prelude.{◌≡◌};
ghost use Rattle.rv_cmd.specs.Commands.Synth.{IsSynthesis, rows_method, synth_report};

use crate::making::OneInput;
use crate::product::Product;
use rv_faults::Refusal;
use rv_perm::{PermReader, PermSpec};
use rv_tbs::{Method, synth};
use rv_words::Synthesis;
use std::alloc::Global;

/// A circuit that computes a permutation.
#[derive(Clone, Copy)]
pub(crate) struct Synth {
    pub(crate) method: Method,
}

impl OneInput for Synth {
    type Text = PermReader;

    ghost report = { λ command. synth_report command.method };

    ghost Means = { λ command. IsSynthesis command.method };

    fn make(&self, alloc: Global, spec: &PermSpec) -> Result<Product, Refusal> {
        spec.recall_invariant();
        match synth(alloc, spec, self.method) {
            Ok(circuit) => {
                circuit.recall_invariant();
                Ok(Product::Circuit(circuit))
            }
            Err(_) => Err(Refusal::OutOfMemory),
        }
    }
}

/// The method of transformations that is asked for.
pub(crate) fn rows_method(synthesis: Synthesis) -> Method
    ensures { result ≡ rows_method synthesis }
{
    match synthesis {
        Synthesis::Rows(method) => method,
        Synthesis::SingleTargets => Method::Best,
    }
}
