// Permutations that have a circuit's function by its marks: inputs stand on garbage lines, and the other outputs are
// added to what stood on as many lines.
use std::alloc::{AllocError, Global};

/// So many permutations with a circuit's function are looked at.
pub const COMPLETIONS: usize = 8;

// The lines of a circuit by their marks, and of each word of inputs and constants what its gates make of it.
#[derive(Drop)]
pub(crate) struct Marked {
    pub(crate) lines: u32,
    pub(crate) inputs: u8,
    pub(crate) ones: u8,
    pub(crate) garbage: u8,
    pub(crate) images: Vec<u8>,
}

// Which inputs stand at the end, where, and the lines of the outputs that tell the others.
#[derive(Clone, Copy)]
struct Choice {
    kept: u8,
    spots: [u8; 8],
    outputs: u8,
}

// Whether a set has a line.
fn has(set: u8, line: u32) -> bool {
    set >> (line % 8) & 1 == 1
}

// A garbage line for each kept input: its own one, or else the next that is free.
fn spots_of(marked: &Marked, kept: u8) -> [u8; 8] {
    let mut spots = [0u8; 8];
    let mut free = marked.garbage & !kept;
    for line in 0..8u32 {
        if has(kept, line) {
            let own = 1u8 << line;
            let spot = if marked.garbage & own != 0 {
                own
            } else {
                free & free.wrapping_neg()
            };
            free &= !spot;
            spots[line as usize] = spot;
        }
    }
    spots
}

// What stands at the end of a word, without what is added.
fn told(marked: &Marked, choice: &Choice, word: usize) -> u8 {
    let mut end = match marked.images.get(word) {
        Some(image) => *image & choice.outputs,
        None => 0,
    };
    for line in 0..8u32 {
        if has(choice.kept, line) && word >> line & 1 == 1 {
            end |= choice.spots[line as usize];
        }
    }
    end
}

// Whether it tells the word.
fn is_one_to_one(marked: &Marked, choice: &Choice) -> bool {
    let mut met = [false; 256];
    let others = usize::from(!marked.inputs);
    for word in 0..1usize << marked.lines.min(8) {
        if word & others == 0 {
            let end = usize::from(told(marked, choice, word));
            if met[end] {
                return false;
            }
            met[end] = true;
        }
    }
    true
}

// The choice of a number, among those that tell each word.
fn choice_of(marked: &Marked, number: usize) -> Option<Choice> {
    let mut left = number;
    let count = marked.inputs.count_ones();
    let lines = ((1u32 << marked.lines.min(8)) - 1) as u8;
    for fewer in 0..count.saturating_add(1) {
        for kept in 0..=255u8 {
            let is_kept = kept & !marked.inputs == 0
                && kept.count_ones() == count.saturating_sub(fewer);
            if is_kept && kept.count_ones() <= marked.garbage.count_ones() {
                let spots = spots_of(marked, kept);
                for outputs in 0..=255u8 {
                    let few = outputs & (marked.garbage | !lines) == 0
                        && outputs.count_ones() == fewer;
                    let choice = Choice {
                        kept,
                        spots,
                        outputs,
                    };
                    if few && is_one_to_one(marked, &choice) {
                        if left == 0 {
                            return Some(choice);
                        }
                        left = left.saturating_sub(1);
                    }
                }
            }
        }
    }
    None
}

// The lines to which something is added: those that the choice leaves.
fn sums_of(marked: &Marked, choice: &Choice) -> u8 {
    let mut used = choice.outputs;
    for line in 0..8u32 {
        if has(choice.kept, line) {
            used |= choice.spots[line as usize];
        }
    }
    ((1u32 << marked.lines.min(8)) - 1) as u8 & !used
}

// What is added to these lines: the bits by which the constant lines of a word differ from the constants, each on its
// own line, or else on the next that is free.
fn added(marked: &Marked, sums: u8, word: u8) -> u8 {
    let lines = ((1u32 << marked.lines.min(8)) - 1) as u8;
    let constants = lines & !marked.inputs;
    let mut free = sums & !constants;
    let mut sum = 0u8;
    for line in 0..8u32 {
        if has(constants, line) {
            let own = 1u8 << line;
            let spot = if sums & own != 0 {
                own
            } else {
                free & free.wrapping_neg()
            };
            free &= !spot;
            if has(word ^ marked.ones, line) {
                sum |= spot;
            }
        }
    }
    sum
}

// The permutation of a number.
pub(crate) fn completion(
    alloc: Global,
    marked: &Marked,
    number: usize,
) -> Result<Option<Vec<u8>>, AllocError> {
    let Some(choice) = choice_of(marked, number) else {
        return Ok(None);
    };
    let sums = sums_of(marked, &choice);
    let mut permutation = Vec::new(alloc);
    for word in 0..1usize << marked.lines.min(8) {
        let image = match marked.images.get(word) {
            Some(image) => *image,
            None => 0,
        };
        let end = told(marked, &choice, word) | image & sums & !marked.garbage;
        permutation.push(end ^ added(marked, sums, (word & 255) as u8))?;
    }
    Ok(Some(permutation))
}
