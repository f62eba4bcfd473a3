ghost use Rattle.rv_cmd.specs.Commands.Embed.{IsEmbedded, embed_report};

use crate::making::OneInput;
use crate::product::Product;
use crate::steps::embedding;
use rv_faults::Refusal;
use rv_pla::{Pla, PlaReader};
use std::alloc::Global;

/// A permutation, with marks, that gives the function of a PLA.
pub(crate) struct Embed;

impl OneInput for Embed {
    type Text = PlaReader;

    ghost report = { λ command. embed_report };

    ghost Means = { λ command. IsEmbedded };

    fn make(&self, alloc: Global, pla: &Pla) -> Result<Product, Refusal> {
        match embedding(alloc, pla) {
            Ok(spec) => {
                spec.recall_invariant();
                Ok(Product::Permutation(spec))
            }
            Err(refusal) => Err(refusal),
        }
    }
}
