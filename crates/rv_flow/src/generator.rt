//! Permutations from seeds.
ghost use Rattle.std.specs.Prelude.{◌≡◌, ◌<◌, ◌≤◌, ◌-◌, ◌^◌, length, IfOk};
ghost use Rattle.rv_flow.specs.Generator.{drawn, generated, shuffled};
ghost use Rattle.std.specs.List.{range_with_len};

use rv_perm::{MOST_DEMO_LINES, Perm};
use std::alloc::{AllocError, Global};

// The state after a draw.
fn drawn(state: u32) -> u32
    requires { state < 65537 }
    ensures value { result ≡ drawn state }
    ensures below { result < 65537 }
{
    (75 * state + 74) % 65537
}

// Exchanges each place from the last one down with one that is drawn, which is no later one.
fn shuffle(numbers: &mut [u32], seed: u16)
    requires { 1 ≤ length numbers.old }
    ensures { numbers.new ≡ shuffled (length numbers.old - 1) seed numbers.old }
{
    let mut state = u32::from(seed);
    let mut i = numbers.len() - 1;
    while i > 0 {
        state = drawn(state);
        numbers.swap(i, state as usize % (i + 1));
        i -= 1;
    }
}

// The numbers below 2^`lines` in their order.
fn numbers(alloc: Global, lines: u8) -> Result<Vec<u32>, AllocError>
    requires { lines ≤ MOST_DEMO_LINES }
    ensures { IfOk result (λ v. v.items ≡ range_with_len 0 (2 ^ lines)) }
{
    let mut numbers = Vec::new(alloc);
    for number in 0..1u32 << lines {
        numbers.push(number)?;
    }
    Ok(numbers)
}

// These numbers, shuffled.
fn shuffled(alloc: Global, lines: u8, seed: u16) -> Result<Vec<u32>, AllocError>
    requires some { 1 ≤ lines }
    requires few { lines ≤ MOST_DEMO_LINES }
    ensures { IfOk result (λ v. v.items ≡ (generated lines seed).images) }
{
    let mut numbers = numbers(alloc, lines)?;
    shuffle(&mut numbers, seed);
    Ok(numbers)
}

/// The permutation of a seed: the numbers in their order, shuffled. Fails only for want of memory.
pub(crate) fn generate(alloc: Global, lines: u8, seed: u16) -> Result<Perm, AllocError>
    requires some { 1 ≤ lines }
    requires few { lines ≤ MOST_DEMO_LINES }
    ensures { IfOk result (λ p. p ≡ generated lines seed) }
{
    let images = shuffled(alloc, lines, seed)?;
    Perm::from_images(alloc, lines, &images)
}
