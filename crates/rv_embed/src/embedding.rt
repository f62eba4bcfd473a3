ghost use Rattle.std.specs.Prelude.{◌≡◌, ◌<◌, ◌≤◌, ◌-◌, ◌++◌, ℕ, true, false, replicate, IfOk, IsErrOf};
ghost use Rattle.rv_gate.specs.declared.circuit.Mark.TheVariants.{Input, Zero};
ghost use Rattle.rv_perm.specs.declared.perm.TheConstants.{MOST_PERM_LINES};
ghost use Rattle.rv_embed.specs.declared.fault.EmbedFault.TheVariants.{TooManyLines};
ghost use Rattle.rv_pla.specs.Zeros.{zeros};
ghost use Rattle.rv_pla.specs.FreeEntries.{HasNoFree};
ghost use Rattle.rv_embed.specs.Classes.{largest_class};
ghost use Rattle.rv_embed.specs.Filled.{filled};
ghost use Rattle.rv_embed.specs.Embedding.{least_lines, embedding_of};
ghost use Rattle.rv_embed.specs.Least.{IsEmbedding, NoCircuitHasFewer, NoneHasFewer};

use super::fault::EmbedFault;
use super::filled::{Filling, filled};
use super::images::embedded_images;
use super::lines::least_power;
use rv_gate::Mark;
use rv_perm::{MOST_PERM_LINES, Perm, PermSpec};
use rv_pla::Pla;
use std::alloc::Global;

/// A function in a permutation.
#[derive(Drop)]
pub struct Embedded {
    /// The permutation, whose constants and garbage leave the function.
    pub spec: PermSpec,
    /// The largest number of input words that share one output word.
    pub largest: u32,
}

/// Embeds the function of a PLA in a permutation: of as few lines as there can be, where no entry is free.
///
/// Free entries are filled. Each input word with such an entry takes, one after another, of the output words
/// that agree with its other entries the one that is used least; where this leaves the largest class of
/// input words with one output word no smaller, each free entry counts as 0. The first lines are the inputs
/// and, at the other end, the outputs; the further inputs hold the constant 0, and the further outputs are
/// garbage. An input word followed by zeros goes to its output word followed by the number of smaller input
/// words with that output word. The remaining words go to the remaining words in ascending order. Refused is
/// a function that so needs more lines than [`MOST_PERM_LINES`]; another filling of its free entries may
/// need fewer. The time grows with the number of words of all lines, and with the number of entries.
#[tactic(auto, using(crate::proofs::inside::Fillings::filled_classes))]
pub fn embed(alloc: Global, pla: &Pla) -> Result<Embedded, EmbedFault>
    ensures spec { IfOk result (λ e. e.spec ≡ embedding_of pla.now) }
    ensures largest { IfOk result (λ e. e.largest ≡ largest_class (filled pla.now)) }
    ensures lines { IfOk result (λ e. e.spec.table.lines ≡ least_lines pla.now) }
    ensures few { IfOk result (λ e. least_lines pla.now ≤ MOST_PERM_LINES) }

    // It gives what the PLA asks, and no permutation and no circuit does so on fewer lines, where no entry is free.
    ensures embeds { IfOk result (λ e. IsEmbedding pla.now e.spec) }
    ensures least { HasNoFree pla.now → IfOk result (λ e. NoneHasFewer pla.now e.spec.table.lines) }
    ensures no_circuit { HasNoFree pla.now → IfOk result (λ e. NoCircuitHasFewer pla.now e.spec.table.lines) }

    // Free entries never cost a line.
    ensures classes { largest_class (filled pla.now) ≤ largest_class (zeros pla.now) }

    // The least number of lines is told exactly where it is too great.
    ensures too_many { (n : ℕ) → IsErrOf result (TooManyLines n) → (n ≡ least_lines pla.now) × (MOST_PERM_LINES < n) }
    ensures needed { HasNoFree pla.now → (n : ℕ) → IsErrOf result (TooManyLines n) → NoneHasFewer pla.now n }
    ensures no_circuit_needs { HasNoFree pla.now → (n : ℕ) → IsErrOf result (TooManyLines n)
        → NoCircuitHasFewer pla.now n }
{
    let Filling { outputs, classes } = filled(alloc, pla)?;
    let lines = pla
        .inputs()
        .max(pla.outputs() + least_power(classes.largest));
    if lines > MOST_PERM_LINES {
        return Err(EmbedFault::TooManyLines(lines));
    }
    let images = embedded_images(
        alloc,
        lines,
        pla.inputs(),
        pla.outputs(),
        &outputs,
        &classes.ranks,
    )?;
    let perm = Perm::from_images(alloc, lines, &images)?;
    Ok(Embedded {
        spec: marked(perm, pla.inputs(), pla.outputs()),
        largest: classes.largest,
    })
}

// The permutation with its marks: the first lines are the inputs, and the outputs.
fn marked(perm: Perm, inputs: u8, outs: u8) -> PermSpec
    requires inputs_in { inputs ≤ perm.lines }
    requires outputs_in { outs ≤ perm.lines }
    ensures { result ≡ record {
      table = perm;
      constants = replicate inputs Input ++ replicate (perm.lines - inputs) Zero;
      garbage = replicate outs false ++ replicate (perm.lines - outs) true;
    } }
{
    let lines = perm.lines();
    let mut spec = PermSpec::new(perm);
    for line in inputs..lines {
        spec.set_constant(line, Mark::Zero);
    }
    for line in outs..lines {
        spec.set_garbage(line, true);
    }
    spec
}
