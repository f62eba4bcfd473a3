ghost use Rattle.std.specs.Prelude.{◌≡◌, ◌+◌, ◌<◌, ◌≤◌, ◌↔◌, ℕ, length, Err, IfOk};
ghost use Rattle.rv_mct.specs.Blocks.{added};
ghost use Rattle.rv_mct.specs.Widened.{helper_count, lines_with_helpers};
ghost use Rattle.rv_ladder.specs.Counts.{operations, relative_count};
ghost use Rattle.rv_ladder.specs.Ladder.{relative_network};
ghost use Rattle.rv_ladder.specs.Relative.{MapsRelative, relative_net};

use crate::block::add_network;
use crate::measuring::measure;
use rv_gate::{Circuit, MOST_LINES};
use rv_mct::Aux;
use rv_net::{MOST_OPS, Net, Op};
use std::alloc::{AllocError, Global};

/// Why there is no network. The lines come first.
#[derive(Clone, Copy)]
pub enum RelativeFault {
    /// There would be so many lines, more than [`MOST_LINES`](rv_gate::MOST_LINES).
    TooManyLines(u8),
    /// There would be so many operations, more than [`MOST_OPS`](rv_net::MOST_OPS).
    TooManyOps(u32),
    /// Memory was wanting.
    Mem,
}

fn ops_of(alloc: Global, circuit: &Circuit, aux: Aux, extra: u8) -> Result<Vec<Op>, AllocError>
    requires few { length circuit.now.names + extra ≤ MOST_LINES }
    requires enough { added aux (length circuit.now.names) circuit.now.gates ≤ extra }
    ensures { IfOk result (λ ops. ops.items ≡ relative_network aux (length circuit.now.names) extra circuit.now.gates) }
{
    circuit.recall_invariant();
    let lines = circuit.line_count();
    let mut ops = Vec::new(alloc);
    add_network(&mut ops, circuit.gates(), aux, lines, extra)?;
    Ok(ops)
}

// The network, with so many helper lines. The limits are kept.
fn net_of(alloc: Global, circuit: &Circuit, aux: Aux, extra: u8) -> Result<Net, AllocError>
    requires added { extra ≡ helper_count aux circuit.now }
    requires lines { lines_with_helpers aux circuit.now ≤ MOST_LINES }
    requires ops { relative_count operations aux circuit.now ≤ MOST_OPS }
    ensures { IfOk result (λ net. MapsRelative aux circuit.now net) }
{
    circuit.recall_invariant();
    let lines = circuit.line_count();
    let ops = ops_of(alloc, circuit, aux, extra)?;
    Ok(Net::of_ops(lines + extra, ops))
}

/// The network of a circuit with gates of any size, over {x, h, t, tdg, cx}: on its lines, and after them as many
/// helper
/// lines as [`decompose`](rv_mct::decompose) adds.
///
/// Each large gate becomes a ladder of blocks with four T, which are Toffoli gates up to a phase; within each ladder
/// the
/// phases cancel. Lines and operations are counted before any operation is made.
pub fn relative(alloc: Global, circuit: &Circuit, aux: Aux) -> Result<Net, RelativeFault>
    ensures ok { IfOk result (λ net. MapsRelative aux circuit.now net) }
    ensures too_many_lines { (n : ℕ) → (result ≡ Err (RelativeFault.TooManyLines n))
        ↔ ((lines_with_helpers aux circuit.now ≡ n) × (MOST_LINES < n)) }
    ensures too_many_ops { (n : ℕ) → (result ≡ Err (RelativeFault.TooManyOps n))
        ↔ ((lines_with_helpers aux circuit.now ≤ MOST_LINES) × (relative_count operations aux circuit.now ≡ n)
        × (MOST_OPS < n)) }
{
    let extra = match measure(circuit, aux) {
        Ok(extra) => extra,
        Err(fault) => return Err(fault),
    };
    match net_of(alloc, circuit, aux, extra) {
        Ok(net) => Ok(net),
        Err(_) => Err(RelativeFault::Mem),
    }
}
