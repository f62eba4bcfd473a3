// Synthesis by each method.
ghost use Rattle.std.specs.Prelude.{◌≡◌, ◌*◌, ◌^◌, ◌≤◌, ◌↔◌, Bool, List, length, IfOk};
ghost use Rattle.rv_perm.specs.Perm.{Computes};
ghost use Rattle.rv_tbs.specs.Synthesis.{out_gates, both_gates, fewer, gates_of, synthesis_of, turning};
ghost use Rattle.rv_tbs.specs.Turned.{AreTurning};
ghost use Rattle.rv_gate.specs.declared.gate.Shape.{Shape};

use super::both::both_gates;
use super::outward::outward_gates;
use rv_gate::{Circuit, Gate};
use rv_perm::{Perm, PermSpec, circuit_on};
use std::alloc::{AllocError, Global};

/// Where the gates are applied that a step finds.
#[derive(Clone, Copy, Debug, PartialEq, Eq)]
pub enum Method {
    /// To the outputs.
    Out,
    /// To the inputs where the word that goes to `k` differs from `k` in fewer places than the image of
    /// `k`, else to the outputs.
    Both,
    /// As by `Both` where that takes fewer gates, else as by `Out`.
    Best,
}

/// A circuit of flips that computes the permutation, on lines named `x0`, `x1`, and so on, with its marks.
///
/// All controls are positive. On `n` lines there are at most `n` * 2^`n` flips, and no lines beside
/// those of the permutation. The time grows with the words that the flips change, and [`Method::Best`]
/// takes that of both other methods. The flips that turn one word into another are those of the lines that
/// are due, one after the other. Fails only for want of memory.
pub fn synth(alloc: Global, spec: &PermSpec, method: Method) -> Result<Circuit, AllocError>
    ensures circuit { IfOk result (λ c. c ≡ synthesis_of method spec.now) }
    ensures computes { IfOk result (λ c. Computes spec.now.table.lines c.gates spec.now.table.images) }
    ensures flips { (goal word : List Bool) (gates : List Shape) → length word ≡ length goal
        → AreTurning goal word gates ↔ (gates ≡ turning goal word) }
    ensures bound { IfOk result (λ c. length c.gates ≤ spec.now.table.lines * 2 ^ spec.now.table.lines) }
{
    let gates = gates_by(alloc, spec.perm(), method)?;
    circuit_on(alloc, spec, gates)
}

// The gates by the method.
fn gates_by(alloc: Global, perm: &Perm, method: Method) -> Result<Vec<Gate>, AllocError>
    ensures { IfOk result (λ v. v.items ≡ gates_of method perm.now.lines perm.now.images) }
{
    match method {
        Method::Out => outward_gates(alloc, perm),
        Method::Both => both_gates(alloc, perm),
        Method::Best => fewer_gates(alloc, perm),
    }
}

// The gates by the method that takes fewer.
fn fewer_gates(alloc: Global, perm: &Perm) -> Result<Vec<Gate>, AllocError>
    ensures { IfOk result
        (λ v. v.items ≡ fewer (both_gates perm.now.lines perm.now.images) (out_gates perm.now.lines perm.now.images)) }
{
    let both = both_gates(alloc, perm)?;
    let outward = outward_gates(alloc, perm)?;
    if both.len() < outward.len() {
        Ok(both)
    } else {
        Ok(outward)
    }
}
