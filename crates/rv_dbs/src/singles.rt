// The gates for all lines.
ghost use Rattle.std.specs.Prelude.{◌≡◌, ◌<◌, ◌++◌, ◌==◌, length, slice_index, if◌then◌else◌, IfOk, OnOk};
ghost use Rattle.rv_perm.specs.declared.perm.TheConstants.{MOST_PERM_LINES};
ghost use Rattle.rv_dbs.specs.Walk.{other, left, right};
ghost use Rattle.rv_dbs.specs.Singles.{values_of, between, KeepsAbove, singles_from, singles};
ghost use Rattle.rv_dbs.specs.Meaning.{IsSingles};

use super::flips::push_flips;
use super::least::least_words;
use super::values::{changes, left_values, right_values};
use super::words::{other, word_count};
use rv_gate::Gate;
use rv_perm::{MOST_PERM_LINES, Perm};
use std::alloc::{AllocError, Global};

// What the gate with these values makes of a word.
fn turned(values: &[u16], k: u8, x: u32) -> u32
    requires line { k < MOST_PERM_LINES }
    requires word { x < length values.now }
    ensures { result ≡ (if slice_index values.now x == 1 then other k x else x) }
{
    if values[x as usize] == 1 {
        other(k, x)
    } else {
        x
    }
}

// The images of the permutation between the two gates.
#[tactic(auto, using(crate::proofs::Loops::values_full))]
fn images_between(
    alloc: Global,
    perm: &Perm,
    first: &[u16],
    last: &[u16],
    k: u8,
) -> Result<Vec<u32>, AllocError>
    requires line { k < perm.now.lines }
    requires first { first.now ≡ values_of perm.now.lines (left perm.now.lines k perm.now.images) }
    requires last { last.now ≡ values_of perm.now.lines (right perm.now.lines k perm.now.images) }
    ensures { IfOk result (λ v. v.items ≡ between perm.now.lines k perm.now.images) }
{
    let mut images = Vec::new(alloc);
    for x in 0..word_count(perm.lines()) {
        images.push(turned(last, k, perm.get(turned(first, k, x))))?;
    }
    Ok(images)
}

// Puts the gates for the lines of the bits `k`, `k - 1`, .. 0 at the end.
#[tactic(auto, using(crate::proofs::Loops::gates))]
fn push_singles(alloc: Global, perm: &Perm, k: u8, gates: &mut Vec<Gate>) -> Result<(), AllocError>
    requires line { k < perm.now.lines }
    requires kept { KeepsAbove perm.now.lines k perm.now.images }
    ensures { OnOk result (gates.new.items ≡ gates.old.items ++ singles_from perm.now.lines k perm.now.images) }
{
    let lines = perm.lines();
    if k == 0 {
        return push_flips(alloc, lines, 0, &changes(alloc, perm)?, gates);
    }
    let least = least_words(alloc, perm, k)?;
    let left = left_values(alloc, perm, &least, k)?;
    let right = right_values(alloc, perm, &least, k)?;
    let images = images_between(alloc, perm, &left, &right, k)?;
    let rest = Perm::from_images(alloc, lines, &images)?;
    push_flips(alloc, lines, k, &left, gates)?;
    push_singles(alloc, &rest, k - 1, gates)?;
    push_flips(alloc, lines, k, &right, gates)
}

/// The gates of the synthesis.
pub fn gates_for(alloc: Global, perm: &Perm) -> Result<Vec<Gate>, AllocError>
    ensures gates { IfOk result (λ v. v.items ≡ singles perm.now.lines perm.now.images) }
    ensures means { IfOk result (λ v. IsSingles perm.now.lines perm.now.images v.items) }
{
    let lines = perm.lines();
    let mut gates = Vec::new(alloc);
    push_singles(alloc, perm, lines - 1, &mut gates)?;
    Ok(gates)
}
