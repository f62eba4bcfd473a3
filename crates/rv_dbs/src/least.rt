// The least words of the walks.
ghost use Rattle.std.specs.Prelude.{◌≡◌, ◌<◌, ◌≤◌, All, length, IfOk};
ghost use Rattle.rv_perm.specs.declared.perm.TheConstants.{MOST_PERM_LINES};
ghost use Rattle.rv_dbs.specs.Walk.{next, least_on_walk};
ghost use Rattle.rv_dbs.specs.Singles.{table_by};
ghost use Rattle.rv_dbs.specs.inside.Jumps.{lesser, twice};

use super::words::{other, word_count};
use rv_perm::{MOST_PERM_LINES, Perm};
use std::alloc::{AllocError, Global};

// The next word of the walk from each word.
#[tactic(auto, using(crate::proofs::Pairs::image_within, crate::proofs::Pairs::other_within))]
fn steps(alloc: Global, perm: &Perm, k: u8) -> Result<Vec<u32>, AllocError>
    requires { k < perm.now.lines }
    ensures { IfOk result (λ v. v.items ≡ table_by perm.now.lines (next k perm.now.images)) }
{
    let mut steps = Vec::new(alloc);
    for x in 0..word_count(perm.lines()) {
        steps.push(other(k, perm.inverse_get(other(k, perm.get(x)))))?;
    }
    Ok(steps)
}

// Each word.
fn words(alloc: Global, lines: u8) -> Result<Vec<u32>, AllocError>
    requires { lines ≤ MOST_PERM_LINES }
    ensures { IfOk result (λ v. v.items ≡ table_by lines (λ x. x)) }
{
    let mut words = Vec::new(alloc);
    for x in 0..word_count(lines) {
        words.push(x)?;
    }
    Ok(words)
}

// The lesser of what stands at each place and at the place to which it jumps.
fn lesser(alloc: Global, least: &[u32], jumps: &[u32]) -> Result<Vec<u32>, AllocError>
    requires as_many { length least.now ≡ length jumps.now }
    requires within { All (λ y. y < length jumps.now) jumps.now }
    ensures { IfOk result (λ v. v.items ≡ lesser least.now jumps.now) }
{
    let mut lesser = Vec::new(alloc);
    for x in 0..jumps.len() {
        let there = jumps[x] as usize;
        lesser.push(least[x].min(least[there]))?;
    }
    Ok(lesser)
}

// Each two jumps in one.
fn twice(alloc: Global, jumps: &[u32]) -> Result<Vec<u32>, AllocError>
    requires within { All (λ y. y < length jumps.now) jumps.now }
    ensures { IfOk result (λ v. v.items ≡ twice jumps.now) }
{
    let mut twice = Vec::new(alloc);
    for x in 0..jumps.len() {
        let there = jumps[x] as usize;
        twice.push(jumps[there])?;
    }
    Ok(twice)
}

/// The least word of the walk from each word: of the first 1, 2, 4, .. words of it.
#[tactic(auto, using(crate::proofs::inside::Jumps::turns))]
pub fn least_words(alloc: Global, perm: &Perm, k: u8) -> Result<Vec<u32>, AllocError>
    requires { k < perm.now.lines }
    ensures { IfOk result (λ v. v.items ≡ table_by perm.now.lines (least_on_walk perm.now.lines k perm.now.images)) }
{
    let lines = perm.lines();
    let mut least = words(alloc, lines)?;
    let mut jumps = steps(alloc, perm, k)?;
    for turn in 0..lines {
        least = lesser(alloc, &least, &jumps)?;
        jumps = twice(alloc, &jumps)?;
    }
    Ok(least)
}
