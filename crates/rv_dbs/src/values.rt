// The control functions of the gates, by the least words of the walks.
ghost use Rattle.std.specs.Prelude.{◌≡◌, ◌<◌, ◌≤◌, ◌^◌, if◌then◌else◌, IfOk};
ghost use Rattle.rv_gate.specs.Gate.{xor};
ghost use Rattle.rv_dbs.specs.Walk.{least_on_walk, side, left, right};
ghost use Rattle.rv_dbs.specs.Singles.{table_by, values_of, is_changed};

use super::words::{bit, other, word_count};
use rv_perm::Perm;
use std::alloc::{AllocError, Global};

// The side of a word.
#[tactic(auto, using(crate::proofs::inside::Jumps::sides))]
fn side(perm: &Perm, least: &[u32], k: u8, x: u32) -> bool
    requires line { k < perm.now.lines }
    requires least { least.now ≡ table_by perm.now.lines (least_on_walk perm.now.lines k perm.now.images) }
    requires word { x < 2 ^ perm.now.lines }
    ensures { result ≡ side perm.now.lines k perm.now.images x }
{
    perm.recall_invariant();
    least[other(k, x) as usize] < least[x as usize]
}

fn value_of(a: bool, b: bool) -> u16
    ensures { result ≡ (if xor a b then 1 else 0) }
{
    u16::from(a != b)
}

/// The values of the left gate's control function.
pub fn left_values(alloc: Global, perm: &Perm, least: &[u32], k: u8) -> Result<Vec<u16>, AllocError>
    requires line { k < perm.now.lines }
    requires least { least.now ≡ table_by perm.now.lines (least_on_walk perm.now.lines k perm.now.images) }
    ensures { IfOk result (λ v. v.items ≡ values_of perm.now.lines (left perm.now.lines k perm.now.images)) }
{
    let mut values = Vec::new(alloc);
    for x in 0..word_count(perm.lines()) {
        values.push(value_of(bit(x, k), side(perm, least, k, x)))?;
    }
    Ok(values)
}

/// The values of the right gate's control function.
pub fn right_values(
    alloc: Global,
    perm: &Perm,
    least: &[u32],
    k: u8,
) -> Result<Vec<u16>, AllocError>
    requires line { k < perm.now.lines }
    requires least { least.now ≡ table_by perm.now.lines (least_on_walk perm.now.lines k perm.now.images) }
    ensures { IfOk result (λ v. v.items ≡ values_of perm.now.lines (right perm.now.lines k perm.now.images)) }
{
    let mut values = Vec::new(alloc);
    for y in 0..word_count(perm.lines()) {
        values.push(value_of(bit(y, k), side(perm, least, k, perm.inverse_get(y))))?;
    }
    Ok(values)
}

/// The values of the last line's control function: 1 where the permutation changes the line.
pub fn changes(alloc: Global, perm: &Perm) -> Result<Vec<u16>, AllocError>
    ensures { IfOk result (λ v. v.items ≡ values_of perm.now.lines (is_changed perm.now.images)) }
{
    let mut values = Vec::new(alloc);
    for x in 0..word_count(perm.lines()) {
        values.push(value_of(bit(perm.get(x), 0), bit(x, 0)))?;
    }
    Ok(values)
}
