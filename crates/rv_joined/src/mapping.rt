ghost use Rattle.std.specs.Prelude.{◌≡◌, ◌+◌, ◌<◌, ◌≤◌, ◌↔◌, ℕ, All, Err, IfOk, IfSome, count_by, length};
ghost use Rattle.std.specs.List.{flat_map};
ghost use Rattle.rv_gate.specs.Every.{Every};
ghost use Rattle.rv_gate.specs.Gate.{IsFlipOn};
ghost use Rattle.rv_gate.specs.declared.word.TheConstants.{MOST_LINES};
ghost use Rattle.rv_mct.specs.Blocks.{flips_of};
ghost use Rattle.rv_mct.specs.Widened.{lines_with_helpers};
ghost use Rattle.rv_net.specs.Op.{is_t};
ghost use Rattle.rv_net.specs.declared.net.TheConstants.{MOST_OPS};
ghost use Rattle.rv_ladder.specs.Counts.{operations, relative_count, turns};
ghost use Rattle.rv_ladder.specs.Relative.{MapsRelative};
ghost use Rattle.rv_joined.specs.Joined.{MapsJoined};

use crate::best::{best, t_count};
use crate::setup::Setup;
use rv_gate::{Circuit, Gate};
use rv_ladder::{RelativeFault, relative};
use rv_mct::{Aux, flips_of};
use rv_net::{MOST_OPS, Net};
use std::alloc::{AllocError, Global};

// Of more operations than these no phases are joined: it would take several times the time and memory.
const MOST_JOINED: usize = 1 << 20;

// The flips of all gates.
fn all_flips(alloc: Global, gates: &[Gate]) -> Result<Vec<Gate>, AllocError>
    ensures { IfOk result (λ flips. flips.items ≡ flat_map flips_of gates.now) }
{
    let mut flips = Vec::new(alloc);
    for gate in gates {
        let (some, count) = flips_of(*gate);
        flips.extend_from_slice(&some[..count])?;
    }
    Ok(flips)
}

fn is_large(net: &Net) -> bool {
    net.ops().len() > MOST_JOINED
}

// A network with joined phases, if one is found with no more T than this one.
fn found(alloc: Global, circuit: &Circuit, aux: Aux, net: &Net) -> Result<Option<Net>, AllocError>
    requires { MapsRelative aux circuit.now net.now }
    ensures { IfOk result (λ o. IfSome o (MapsJoined aux circuit.now)) }
{
    if is_large(net) {
        return Ok(None);
    }
    circuit.recall_invariant();
    let lines = circuit.line_count();
    let all = net.lines();
    if all < lines {
        return Ok(None);
    }
    let setup = Setup {
        aux,
        lines,
        extra: all - lines,
    };
    let flips = all_flips(alloc, circuit.gates())?;
    let Some(ops) = best(alloc, setup, &flips)? else {
        return Ok(None);
    };
    if ops.len() > MOST_OPS || t_count(&ops) > t_count(net.ops()) {
        return Ok(None);
    }
    Ok(Some(Net::of_ops(all, ops)))
}

/// The network of a circuit with gates of any size, over {x, h, z, s, t, tdg, cx}: on its lines, and after them as
/// many helper lines as [`decompose`](rv_mct::decompose) adds.
///
/// It has no more T than that of [`relative`](rv_ladder::relative), which is refused where this one is. Where that one
/// has more than 2^20 operations, it is written.
pub fn joined(alloc: Global, circuit: &Circuit, aux: Aux) -> Result<Net, RelativeFault>
    ensures ok { IfOk result (λ net. MapsJoined aux circuit.now net) }
    ensures too_many_lines { (n : ℕ) → (result ≡ Err (RelativeFault.TooManyLines n))
        ↔ ((lines_with_helpers aux circuit.now ≡ n) × (MOST_LINES < n)) }
    ensures too_many_ops { (n : ℕ) → (result ≡ Err (RelativeFault.TooManyOps n))
        ↔ ((lines_with_helpers aux circuit.now ≤ MOST_LINES) × (relative_count operations aux circuit.now ≡ n)
        × (MOST_OPS < n)) }
{
    let net = match relative(alloc, circuit, aux) {
        Ok(net) => net,
        Err(fault) => return Err(fault),
    };
    match found(alloc, circuit, aux, &net) {
        Ok(Some(better)) => Ok(better),
        Ok(None) => Ok(net),
        Err(_) => Err(RelativeFault::Mem),
    }
}
