// Whether from one word the amplitude isn't that of the circuit.
ghost use Rattle.std.specs.Prelude.{◌≡◌, ◌≢◌, ◌<◌, ◌≤◌, List, Bool, All, false, length, IfOk, IsTrue};
ghost use Rattle.rv_net.specs.Amplitude.{amplitude, count_h};
ghost use Rattle.rv_net.specs.Cyclotomic.{power, root2};
ghost use Rattle.rv_net.specs.Op.{OpFitsIn};
ghost use Rattle.rv_terms.specs.Products.{odd};
ghost use Rattle.rv_sums.specs.inside.State.{word_at};

use crate::apart::is_apart;
use crate::fault::PathFault;
use crate::following::through_from;
use crate::path_sum::constant;
use crate::same::count_h;
use rv_gate::Word;
use rv_net::Op;
use rv_terms::Sum;
use std::alloc::Global;

pub(crate) fn is_nought(sum: &Sum) -> bool
    ensures { IsTrue result → (x v : List Bool) → odd sum.now x v ≡ false }
{
    let products = sum.products();
    if products.len() != 0 {
        return false;
    }
    true
}

// Whether a sum is always this bit.
fn is_bit(alloc: Global, sum: &Sum, bit: bool) -> Result<bool, PathFault>
    ensures { IfOk result (λ is. IsTrue is → (x v : List Bool) → odd sum.now x v ≡ bit) }
{
    let one = constant(alloc, bit)?;
    let other = sum.plus(alloc, &one)?;
    let is = is_nought(&other);
    Ok(is)
}

// Whether on some line no path ends at the bit of the image.
fn end_elsewhere(alloc: Global, sums: &[Sum], image: Word) -> Result<bool, PathFault>
    requires { length sums.now ≡ length image }
    ensures { IfOk result (λ other. IsTrue other → (x v : List Bool) → word_at sums.now x v ≢ image) }
{
    for line in 0..image.len() {
        let bit = image.bit(line);
        let away = is_bit(alloc, &sums[usize::from(line)], !bit)?;
        if away {
            return Ok(true);
        }
    }
    Ok(false)
}

// Whether the amplitude from the word to the image isn't that of a permutation which takes it there, as the sum over
// paths from this word shows.
pub(crate) fn differs(alloc: Global, word: Word, image: Word, ops: &[Op]) -> Result<bool, PathFault>
    requires image { length image ≡ length word }
    requires fits { All (λ op. OpFitsIn op (length word)) ops.now }
    ensures { IfOk result (λ differs.
        IsTrue differs → amplitude ops.now word image ≢ power root2 (count_h ops.now)) }
{
    let state = through_from(alloc, word, ops)?;
    let elsewhere = end_elsewhere(alloc, &state.sums, image)?;
    if elsewhere {
        return Ok(true);
    }
    let roots = count_h(ops);
    let apart = is_apart(alloc, &state, image, roots)?;
    Ok(apart)
}
