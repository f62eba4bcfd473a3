ghost use Rattle.std.specs.Prelude.{◌≡◌, ◌+◌, ◌<◌, ◌≤◌, ◌↔◌, ℕ, length, All, IfOk};
ghost use Rattle.rv_gate.specs.declared.circuit.TheConstants.{MOST_GATES};
ghost use Rattle.rv_mct.specs.Blocks.{added, cost_of};
ghost use Rattle.rv_mct.specs.Extends.{Extends, IsPlain};
ghost use Rattle.rv_mct.specs.Widened.{decomposed, helper_count};

use crate::measuring::measure;
use crate::whole::add_decomposition;
use crate::widening::widened;
use crate::{Aux, MctFault};
use rv_gate::{Circuit, MOST_LINES};
use std::alloc::{AllocError, Global};

/// A decomposed circuit, and how many lines it has more.
#[derive(Drop)]
pub struct Decomposed {
    pub circuit: Circuit,
    /// How many lines were added, after the others.
    pub added: u8,
}

/// The circuit with NOT, CNOT and Toffoli gates alone: each gate is replaced in its place by flips with at most two
/// controls.
///
/// With [`Aux::Borrowed`] the replacements are those of A. Barenco et al., "Elementary gates for quantum computation",
/// 1995, Lemmas 7.2 and 7.3: the helper lines may hold anything, and end as they began. With [`Aux::Clean`] they are
/// ladders over added lines, which hold 0 and end with it. Added lines come last, are named `z0`, `z1` and so on
/// without names that are there, begin with the constant 0, and end as garbage.
pub fn decompose(alloc: Global, circuit: &Circuit, aux: Aux) -> Result<Decomposed, MctFault>
    ensures added { IfOk result (λ d. d.added ≡ added aux (length circuit.now.names) circuit.now.gates) }
    ensures circuit { IfOk result (λ d. d.circuit ≡ decomposed aux circuit.now) }
    ensures extends { IfOk result (λ d.
        Extends aux (length circuit.now.names) d.added d.circuit.gates circuit.now.gates) }
    ensures plain { IfOk result (λ d. All IsPlain d.circuit.gates) }
    ensures count { IfOk result (λ d.
        length d.circuit.gates ≡ cost_of aux (length circuit.now.names + d.added) circuit.now.gates) }
    ensures too_many_lines { (n : ℕ) → (result ≡ Err (MctFault.TooManyLines n))
        ↔ ((length circuit.now.names + added aux (length circuit.now.names) circuit.now.gates ≡ n) × (MOST_LINES < n)) }
    ensures too_many_gates { (n : ℕ) → (result ≡ Err (MctFault.TooManyGates n))
        ↔ ((length circuit.now.names + added aux (length circuit.now.names) circuit.now.gates ≤ MOST_LINES)
        × (cost_of aux (length circuit.now.names + added aux (length circuit.now.names) circuit.now.gates) circuit.now.gates ≡ n)
        × (MOST_GATES < n)) }
{
    circuit.recall_invariant();
    let extra = match measure(circuit, aux) {
        Ok(extra) => extra,
        Err(fault) => return Err(fault),
    };
    match with_helpers(alloc, circuit, aux, extra) {
        Ok(decomposed) => Ok(decomposed),
        Err(_) => Err(MctFault::Mem),
    }
}

// The decomposed circuit, which has so many lines more.
fn with_helpers(
    alloc: Global,
    circuit: &Circuit,
    aux: Aux,
    extra: u8,
) -> Result<Decomposed, AllocError>
    requires few { length circuit.now.names + extra ≤ MOST_LINES }
    requires enough { extra ≡ helper_count aux circuit.now }
    ensures added { IfOk result (λ d. d.added ≡ helper_count aux circuit.now) }
    ensures circuit { IfOk result (λ d. d.circuit ≡ decomposed aux circuit.now) }
{
    let lines = circuit.line_count();
    let mut wide = widened(alloc, circuit, extra)?;
    add_decomposition(&mut wide, circuit.gates(), aux, lines, extra)?;
    Ok(Decomposed {
        circuit: wide,
        added: extra,
    })
}
