// The images of an embedding.
ghost use Rattle.std.specs.Prelude.{◌≡◌, ◌<◌, ◌≤◌, ◌+◌, ◌^◌, length, All, IfOk};
ghost use Rattle.rv_perm.specs.Perm.{IsEachOnce};
ghost use Rattle.rv_perm.specs.declared.perm.TheConstants.{MOST_PERM_LINES};
ghost use Rattle.rv_embed.specs.Classes.{largest_class};
ghost use Rattle.rv_embed.specs.inside.Ranks.{ranks_of};
ghost use Rattle.rv_embed.specs.Embedding.{least_power, embedded_images, first_inputs, first_outputs, images_between};

use super::complete::completed;
use std::alloc::{AllocError, Global};

// Each input word followed by zeros.
fn first_inputs(alloc: Global, lines: u8, inputs: u8) -> Result<Vec<u32>, AllocError>
    requires few { lines ≤ MOST_PERM_LINES }
    requires room { inputs ≤ lines }
    ensures { IfOk result (λ v. v.items ≡ first_inputs lines inputs) }
{
    let mut numbers = Vec::new(alloc);
    for x in 0..1u32 << inputs {
        numbers.push(x * (1 << (lines - inputs)))?;
    }
    Ok(numbers)
}

// Each output word followed by the rank of its input word.
fn first_outputs(
    alloc: Global,
    lines: u8,
    outs: u8,
    outputs: &[u32],
    ranks: &[u32],
) -> Result<Vec<u32>, AllocError>
    requires few { lines ≤ MOST_PERM_LINES }
    requires room { outs + least_power (largest_class outputs.now) ≤ lines }
    requires below { All (λ y. y < 2 ^ outs) outputs.now }
    requires ranked { ranks.now ≡ ranks_of outputs.now }
    ensures { IfOk result (λ v. v.items ≡ first_outputs lines outs outputs.now) }
{
    let mut numbers = Vec::new(alloc);
    for (x, output) in outputs.iter().enumerate() {
        numbers.push(*output * (1 << (lines - outs)) + ranks[x])?;
    }
    Ok(numbers)
}

// The images where each number goes from its place in one list to the number at this place of another.
fn images_between(
    alloc: Global,
    count: usize,
    from: &[u32],
    to: &[u32],
) -> Result<Vec<u32>, AllocError>
    requires from_count { length from.now ≡ count }
    requires from_once { IsEachOnce from.now }
    requires to_count { length to.now ≡ count }
    ensures { IfOk result (λ v. v.items ≡ images_between count from.now to.now) }
{
    let mut images = vec![in alloc; 0u32; count]?;
    for (place, x) in from.iter().enumerate() {
        images[*x as usize] = to[place];
    }
    Ok(images)
}

// The images of the embedding of a function with `outs` outputs on so many lines.
pub(crate) fn embedded_images(
    alloc: Global,
    lines: u8,
    inputs: u8,
    outs: u8,
    outputs: &[u32],
    ranks: &[u32],
) -> Result<Vec<u32>, AllocError>
    requires few { lines ≤ MOST_PERM_LINES }
    requires inputs_in { inputs ≤ lines }
    requires outputs_in { outs + least_power (largest_class outputs.now) ≤ lines }
    requires count { length outputs.now ≡ 2 ^ inputs }
    requires below { All (λ y. y < 2 ^ outs) outputs.now }
    requires ranked { ranks.now ≡ ranks_of outputs.now }
    ensures { IfOk result (λ v. v.items ≡ embedded_images lines inputs outs outputs.now) }
{
    let count = 1usize << lines;
    let first = first_inputs(alloc, lines, inputs)?;
    let from = completed(alloc, first, count)?;
    let first = first_outputs(alloc, lines, outs, outputs, ranks)?;
    let to = completed(alloc, first, count)?;
    images_between(alloc, count, &from, &to)
}
