// Steps that several commands take within their limits.
ghost use Rattle.std.specs.Prelude.{◌≡◌, All, IfOk, IfErr};
ghost use Rattle.rv_embed.specs.Embedding.{embedding_of};
ghost use Rattle.rv_mct.specs.Extends.{IsPlain};
ghost use Rattle.rv_mct.specs.Widened.{decomposed};
ghost use Rattle.rv_cmd.specs.Commands.Decompose.{decomposition_limits};
ghost use Rattle.rv_cmd.specs.Commands.Embed.{embed_limits};
ghost use Rattle.rv_cmd.specs.Goals.{search_goal};
ghost use Rattle.rv_cmd.specs.Limits.{AreKept};
ghost use Rattle.rv_cmd.specs.inside.Products.{IsRefusalOf};

use crate::refusals::{too_many_gates, too_many_lines};
use rv_embed::{EmbedFault, embed};
use rv_faults::Refusal;
use rv_gate::{Circuit, MOST_LINES};
use rv_mct::{Aux, MctFault, decompose};
use rv_perm::{MOST_PERM_LINES, PermSpec};
use rv_pla::Pla;
use rv_price::Goal;
use rv_words::Goal as Wish;
use std::alloc::Global;

/// A circuit of NOT, CNOT and Toffoli gates that does what a circuit does.
pub(crate) fn decomposition(alloc: Global, aux: Aux, circuit: &Circuit) -> Result<Circuit, Refusal>
    ensures kept { IfOk result (λ made. AreKept (decomposition_limits aux circuit.now)) }
    ensures made { IfOk result (λ made. made ≡ decomposed aux circuit.now) }
    ensures plain { IfOk result (λ made. All IsPlain made.gates) }
    ensures unmade { IfErr result (IsRefusalOf 1 (decomposition_limits aux circuit.now)) }
{
    match decompose(alloc, circuit, aux) {
        Ok(decomposed) => Ok(decomposed.circuit),
        Err(MctFault::TooManyLines(count)) => Err(too_many_lines(count, MOST_LINES)),
        Err(MctFault::TooManyGates(count)) => Err(too_many_gates(count)),
        Err(MctFault::Mem) => Err(Refusal::OutOfMemory),
    }
}

/// A permutation, with marks, that gives the function of a PLA.
pub(crate) fn embedding(alloc: Global, pla: &Pla) -> Result<PermSpec, Refusal>
    ensures kept { IfOk result (λ spec. AreKept (embed_limits pla.now)) }
    ensures made { IfOk result (λ spec. spec ≡ embedding_of pla.now) }
    ensures unmade { IfErr result (IsRefusalOf 1 (embed_limits pla.now)) }
{
    match embed(alloc, pla) {
        Ok(embedded) => Ok(embedded.spec),
        Err(EmbedFault::TooManyLines(count)) => Err(too_many_lines(count, MOST_PERM_LINES)),
        Err(EmbedFault::Mem) => Err(Refusal::OutOfMemory),
    }
}

/// What a search is to make small.
pub(crate) fn search_goal(wish: Option<Wish>) -> Goal
    ensures { result ≡ search_goal wish }
{
    match wish {
        Some(Wish::Lines) => Goal::Lines,
        Some(Wish::Cx) => Goal::Cx,
        Some(Wish::Quantum) => Goal::Quantum,
        Some(Wish::Gates) => Goal::Gates,
        _ => Goal::T,
    }
}
