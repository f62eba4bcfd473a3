ghost use Rattle.std.specs.Prelude.{◌≡◌, ◌<◌, ◌++◌, ◌∷◌, [], slice_set, List, Bool, IfOk, IfSome, length};
ghost use Rattle.rv_gate.specs.declared.word.TheConstants.{MOST_LINES};
ghost use Rattle.rv_net.specs.Cyclotomic.{doubled};
ghost use Rattle.rv_net.specs.Amplitude.{sum_over_words};
ghost use Rattle.rv_terms.specs.Products.{odd};
ghost use Rattle.rv_ends.specs.Ends.{amount, over_all, path_value, word_at};

use crate::amount::{Amount, turn_of};
use crate::constant::{are_same, turns_of, word_of};
use rv_gate::MOST_LINES;
use rv_terms::{Phases, Product, Sum, SumFault};
use std::alloc::{AllocError, Global};

// The sums in which another one stands for a path bit.
fn put_in(alloc: Global, sums: &[Sum], path: u8, with: &Sum) -> Result<Vec<Sum>, SumFault>
    requires { path < MOST_LINES }
    ensures { IfOk result (λ made. (x v : List Bool) → path < length v
        → word_at made.items x v ≡ word_at sums.now x (slice_set v path (odd with.now x v))) }
{
    let mut made = Vec::new(alloc);
    for sum in sums {
        let next = sum.replaced_path(alloc, path, with)?;
        add(&mut made, next)?;
    }
    Ok(made)
}

fn add(made: &mut Vec<Sum>, sum: Sum) -> Result<(), AllocError>
    ensures { IfOk result (λ _. made.new.items ≡ made.old.items ++ sum ∷ []) }
{
    made.push(sum)?;
    Ok(())
}

// The sum where no path bit is left.
fn last(
    alloc: Global,
    sums: &[Sum],
    phases: &Phases,
    z: &[bool],
) -> Result<Option<Amount>, AllocError>
    ensures { IfOk result (λ o. IfSome o (λ e. (x : List Bool)
        → over_all sums.now phases.now x z.now ≡ doubled 64 (amount e))) }
{
    let Some(turns) = turns_of(alloc, phases)? else {
        return Ok(None);
    };
    let Some(word) = word_of(alloc, sums)? else {
        return Ok(None);
    };
    if are_same(&word, z) {
        return Ok(Some(turn_of(turns)));
    }
    Ok(Some(Amount {
        a: 0,
        b: 0,
        c: 0,
        d: 0,
    }))
}

// The sum where a path bit has this value.
#[cycle(ends)]
fn half(
    alloc: Global,
    sums: &[Sum],
    phases: &Phases,
    paths: &[u8],
    z: &[bool],
    path: u8,
    with: &Sum,
) -> Result<Option<Amount>, SumFault>
    requires { path < MOST_LINES }
    ensures { IfOk result (λ o. IfSome o (λ e. (x : List Bool) (bit : Bool)
        → ((v : List Bool) → odd with.now x v ≡ bit)
        → doubled (length paths.now) (sum_over_words 64 (λ v. path_value sums.now phases.now x z.now (slice_set v path bit)))
        ≡ doubled 64 (amount e))) }
{
    let sums = put_in(alloc, sums, path, with)?;
    let phases = phases.replaced_path(alloc, path, with)?;
    let sum = end_sum(alloc, &sums, &phases, paths, z)?;
    Ok(sum)
}

/// The sum over all paths, for the word `z`, where only these path bits are left: 2^64 times what is answered is the
/// sum, doubled once for each of these bits. `None` where another bit is left, or a number is too large.
#[cycle(ends)]
pub fn end_sum(
    alloc: Global,
    sums: &[Sum],
    phases: &Phases,
    paths: &[u8],
    z: &[bool],
) -> Result<Option<Amount>, SumFault>
    ensures { IfOk result (λ o. IfSome o (λ e. (x : List Bool)
        → doubled (length paths.now) (over_all sums.now phases.now x z.now) ≡ doubled 64 (amount e))) }
{
    if paths.len() == 0 {
        let sum = last(alloc, sums, phases, z)?;
        return Ok(sum);
    }
    let path = paths[0];
    let rest = &paths[1..];
    if path >= MOST_LINES {
        return Ok(None);
    }
    let zero = Sum::new(alloc);
    let one = Sum::of(alloc, Product::ONE)?;
    let Some(low) = half(alloc, sums, phases, rest, z, path, &zero)? else {
        return Ok(None);
    };
    let Some(high) = half(alloc, sums, phases, rest, z, path, &one)? else {
        return Ok(None);
    };
    let Some(whole) = low.plus(high) else {
        return Ok(None);
    };
    Ok(Some(whole))
}
