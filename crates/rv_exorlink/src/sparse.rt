// A first list for a PLA of which few words matter, in the manner of that from a table: the second part is made for
// what the first one leaves, so that free entries fall as they may. Who takes the list looks at its value at each word,
// so nothing is proved of it.
ghost use Rattle.std.specs.Prelude.{◌≤◌};
ghost use Rattle.rv_pla.specs.declared.cube.TheConstants.{MOST_INPUTS};

use super::free::Free;
use rv_gate::mirrored_u32;
use rv_pla::{Cube, MOST_INPUTS};
use std::alloc::{AllocError, Global};

// A word as the set of its inputs with a 1, and its values at the outputs where they matter.
#[derive(Clone, Copy)]
struct Care {
    set: u16,
    value: u16,
    mask: u16,
}

// The words that matter, if they are no more than so many.
fn care_words(
    alloc: Global,
    values: &[u16],
    free: &Free,
    inputs: u8,
    outputs: u8,
    most: usize,
) -> Result<Option<Vec<Care>>, AllocError>
    requires { inputs ≤ MOST_INPUTS }
{
    let all = u16::MAX >> 16u8.saturating_sub(outputs).min(15);
    let mut words = Vec::new(alloc);
    for number in 0..values.len() {
        let mask = all & !free.outs_at(number);
        if mask != 0 {
            if words.len() >= most {
                return Ok(None);
            }
            words.push(Care {
                set: (mirrored_u32((number & 0xFFFF) as u32, inputs) & 0xFFFF) as u16,
                value: values[number],
                mask,
            })?;
        }
    }
    Ok(Some(words))
}

// One value that serves at all words, if there is one.
fn common_value(words: &[Care]) -> Option<u16> {
    let (mut known, mut value) = (0u16, 0u16);
    for word in words {
        if (word.value ^ value) & word.mask & known != 0 {
            return None;
        }
        value |= word.value & word.mask;
        known |= word.mask;
    }
    Some(value)
}

// The words with this bit at an input.
fn half_of(alloc: Global, words: &[Care], bit: u16, is_one: bool) -> Result<Vec<Care>, AllocError> {
    let mut half = Vec::new(alloc);
    for word in words {
        if (word.set & bit != 0) == is_one {
            half.push(*word)?;
        }
    }
    Ok(half)
}

// What a list leaves of the values.
fn rest_of(alloc: Global, words: &[Care], cubes: &[Cube]) -> Result<Vec<Care>, AllocError> {
    let mut rest = Vec::new(alloc);
    for word in words {
        let mut value = word.value;
        for cube in cubes {
            if (word.set ^ cube.want) & cube.care == 0 {
                value ^= cube.outs;
            }
        }
        rest.push(Care {
            set: word.set,
            value,
            mask: word.mask,
        })?;
    }
    Ok(rest)
}

// Two lists, where the cubes of each get a symbol of an input: care and want.
fn both_of(
    alloc: Global,
    first: &[Cube],
    first_symbol: (u16, u16),
    second: &[Cube],
    second_symbol: (u16, u16),
) -> Result<Vec<Cube>, AllocError> {
    let mut cubes = Vec::new(alloc);
    for (part, symbol) in [(first, first_symbol), (second, second_symbol)] {
        for cube in part {
            cubes.push(Cube {
                care: cube.care | symbol.0,
                want: cube.want | symbol.1,
                outs: cube.outs,
            })?;
        }
    }
    Ok(cubes)
}

// A list with these values, by the inputs from one on.
fn list_from(
    alloc: Global,
    words: &[Care],
    input: u8,
    inputs: u8,
) -> Result<Vec<Cube>, AllocError> {
    let common = common_value(words);
    if common.is_some() || input >= inputs || input >= 16 {
        let mut cubes = Vec::new(alloc);
        let outs = common.unwrap_or(0);
        if outs != 0 {
            cubes.push(Cube {
                care: 0,
                want: 0,
                outs,
            })?;
        }
        return Ok(cubes);
    }
    let bit = 1u16 << input;
    let low = half_of(alloc, words, bit, false)?;
    let high = half_of(alloc, words, bit, true)?;
    if low.is_empty() || high.is_empty() {
        return list_from(alloc, words, input + 1, inputs);
    }
    let zeros = list_from(alloc, &low, input + 1, inputs)?;
    let ones = list_from(alloc, &high, input + 1, inputs)?;
    let up = list_from(alloc, &rest_of(alloc, &high, &zeros)?, input + 1, inputs)?;
    let down = list_from(alloc, &rest_of(alloc, &low, &ones)?, input + 1, inputs)?;
    if up.len() <= ones.len()
        && zeros.len().saturating_add(up.len()) <= ones.len().saturating_add(down.len())
    {
        both_of(alloc, &zeros, (0, 0), &up, (bit, bit))
    } else if down.len() <= zeros.len() {
        both_of(alloc, &ones, (0, 0), &down, (bit, 0))
    } else {
        both_of(alloc, &zeros, (bit, 0), &ones, (bit, bit))
    }
}

// From so many words on the list would take long.
const MOST_WORDS: usize = 2048;

/// The list, if few words matter.
pub fn sparse(
    alloc: Global,
    values: &[u16],
    free: &Free,
    inputs: u8,
    outputs: u8,
) -> Result<Option<Vec<Cube>>, AllocError>
    requires { inputs ≤ MOST_INPUTS }
{
    if free.is_none() {
        return Ok(None);
    }
    match care_words(alloc, values, free, inputs, outputs, MOST_WORDS)? {
        Some(words) => Ok(Some(list_from(alloc, &words, 0, inputs)?)),
        None => Ok(None),
    }
}
