// Whether from one word the amplitude isn't that of the circuit, by the sum over the paths that are left.
ghost use Rattle.std.specs.Prelude.{◌≡◌, ◌≢◌, List, [], Bool, length, IfOk, IfSome, IsTrue};
ghost use Rattle.rv_ends.specs.Ends.{amount};
ghost use Rattle.rv_net.specs.Amplitude.{amplitude, count_h};
ghost use Rattle.rv_net.specs.Cyclotomic.{power, root2};
ghost use Rattle.rv_net.specs.declared.op.Op.{Op};
ghost use Rattle.rv_sums.specs.inside.State.{ReachedFrom};

use crate::fault::PathFault;
use crate::free::all_lack;
use crate::path_sum::{ALL_PATHS, PathSum};
use rv_ends::{Amount, end_sum};
use rv_gate::{MOST_LINES, Word};
use std::alloc::{AllocError, Global};

// The most path bits over which a sum is made at its end.
const MOST_LIVE: usize = 12;

// The path bits that stand in the sum.
fn live_paths(alloc: Global, state: &PathSum) -> Result<Vec<u8>, AllocError> {
    let mut paths = Vec::new(alloc);
    for path in 0..MOST_LINES {
        if state.phases.has_path(path) || !all_lack(&state.sums, path) {
            paths.push(path)?;
        }
    }
    Ok(paths)
}

// The bits of a word.
fn bits_of(alloc: Global, word: Word) -> Result<Vec<bool>, AllocError>
    ensures { IfOk result (λ bits. bits.items ≡ word) }
{
    let mut bits = Vec::new(alloc);
    for line in 0..word.len() {
        bits.push(word.bit(line))?;
    }
    Ok(bits)
}

// The powers of the root of two.
const ROOTS: [Amount; 13] = [
    Amount {
        a: 1,
        b: 0,
        c: 0,
        d: 0,
    },
    Amount {
        a: 0,
        b: 1,
        c: 0,
        d: -1,
    },
    Amount {
        a: 2,
        b: 0,
        c: 0,
        d: 0,
    },
    Amount {
        a: 0,
        b: 2,
        c: 0,
        d: -2,
    },
    Amount {
        a: 4,
        b: 0,
        c: 0,
        d: 0,
    },
    Amount {
        a: 0,
        b: 4,
        c: 0,
        d: -4,
    },
    Amount {
        a: 8,
        b: 0,
        c: 0,
        d: 0,
    },
    Amount {
        a: 0,
        b: 8,
        c: 0,
        d: -8,
    },
    Amount {
        a: 16,
        b: 0,
        c: 0,
        d: 0,
    },
    Amount {
        a: 0,
        b: 16,
        c: 0,
        d: -16,
    },
    Amount {
        a: 32,
        b: 0,
        c: 0,
        d: 0,
    },
    Amount {
        a: 0,
        b: 32,
        c: 0,
        d: -32,
    },
    Amount {
        a: 64,
        b: 0,
        c: 0,
        d: 0,
    },
];

// A small power of the root of two.
fn roots_of(count: usize) -> Option<Amount>
    ensures { IfSome result (λ roots. amount roots ≡ power root2 count) }
{
    if count > 12 {
        return None;
    }
    Some(ROOTS[count])
}

fn are_others(a: Amount, b: Amount) -> bool
    ensures { IsTrue result → amount a ≢ amount b }
{
    a.a != b.a || a.b != b.b || a.c != b.c || a.d != b.d
}

// Whether the sum over the paths that are left isn't what a permutation asks for, after operations with so many H.
pub(crate) fn is_apart(
    alloc: Global,
    state: &PathSum,
    image: Word,
    roots: usize,
) -> Result<bool, PathFault>
    ensures { IfOk result (λ apart. IsTrue apart → (word : List Bool) (ops : List Op) → roots ≡ count_h ops
        → length image ≡ length word → ReachedFrom word ops [] state.now
        → amplitude ops word image ≢ power root2 (count_h ops)) }
{
    let paths = live_paths(alloc, state)?;
    if paths.len() > MOST_LIVE {
        return Ok(false);
    }
    let bits = bits_of(alloc, image)?;
    let Some(sum) = end_sum(alloc, &state.sums, &state.phases, &paths, &bits)? else {
        return Ok(false);
    };
    let scale = state.scale as usize + paths.len() * 2;
    if roots > ALL_PATHS as usize || scale + roots < ALL_PATHS as usize {
        return Ok(false);
    }
    let Some(asked) = roots_of(scale + roots - ALL_PATHS as usize) else {
        return Ok(false);
    };
    Ok(are_others(sum, asked))
}
