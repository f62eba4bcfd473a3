ghost use Rattle.rv_cmd.specs.Commands.Fold.{IsFolded, fold_report};

use crate::making::OneInput;
use crate::product::Product;
use rv_faults::Refusal;
use rv_fold::fold;
use rv_qasm::{Program, QasmReader};
use std::alloc::Global;

/// The network of an OpenQASM text, with its phase gates folded.
pub(crate) struct Fold;

impl OneInput for Fold {
    type Text = QasmReader;

    ghost report = { λ command. fold_report };

    ghost Means = { λ command. IsFolded };

    fn make(&self, alloc: Global, program: &Program) -> Result<Product, Refusal> {
        match fold(alloc, program.net()) {
            Ok(folded) => Ok(Product::Network(folded)),
            Err(_) => Err(Refusal::OutOfMemory),
        }
    }
}
