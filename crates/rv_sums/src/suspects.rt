// Words at which a network may differ, by what is left of its sum. Nothing is promised of them.
ghost use Rattle.std.specs.Prelude.{◌≤◌, All};
ghost use Rattle.rv_gate.specs.Every.{Every};
ghost use Rattle.rv_gate.specs.Gate.{IsFlipOn};
ghost use Rattle.rv_gate.specs.declared.word.TheConstants.{MOST_LINES};
ghost use Rattle.rv_net.specs.Op.{OpFitsIn};

use crate::fault::PathFault;
use crate::following::through;
use crate::path_sum::PathSum;
use crate::taking::Reach;
use rv_gate::{Gate, LineSet, MOST_LINES, Mark, Word};
use rv_net::Op;
use rv_terms::{Product, Sum};
use std::alloc::Global;

/// How many terms of the phases are looked at.
const MOST_SUSPECT_TERMS: usize = 32;

// The set of fewer lines.
fn fewer(best: Option<LineSet>, set: LineSet) -> Option<LineSet> {
    match best {
        Some(lines) if lines.count_ones() <= set.count_ones() => best,
        _ => Some(set),
    }
}

// The lines of a least product that is in a sum or in that of its line, and not in both.
fn least_lines(sum: &Sum, own: Product) -> Option<LineSet> {
    let mut best = None;
    if !sum.has(own) {
        best = Some(own.lines);
    }
    for product in sum.products() {
        if *product != own {
            best = fewer(best, product.lines);
        }
    }
    best
}

// The number of the word of which the flips make that with 1 on these lines.
fn number_before(lines: u8, set: LineSet, flips: &[Gate]) -> u64 {
    let Some(image) = Word::of_lines(lines, set) else {
        return 0;
    };
    let mut word = image;
    for place in 0..flips.len() {
        let gate = flips[flips.len() - 1 - place];
        if gate.fits(word.len()) {
            word = gate.act(word);
        }
    }
    word.number()
}

// For each line a least product by which it isn't its own, then some by which phases are left.
fn suspect_lines(alloc: Global, state: &PathSum) -> Result<Vec<LineSet>, PathFault> {
    let mut found = Vec::new(alloc);
    for line in 0..MOST_LINES {
        if let Some(sum) = state.sums.get(usize::from(line)) {
            if let Some(set) = least_lines(sum, Product::of_line(line)) {
                found.push(set)?;
            }
        }
    }
    for term in state.phases.terms().iter().take(MOST_SUSPECT_TERMS) {
        found.push(term.product.lines)?;
    }
    Ok(found)
}

/// The numbers of words at which the network may differ from the flips.
pub(crate) fn suspects(
    alloc: Global,
    lines: u8,
    ops: &[Op],
    flips: &[Gate],
    marks: &[Mark],
    reach: Reach,
) -> Result<Vec<u64>, PathFault>
    requires few { lines ≤ MOST_LINES }
    requires fits { All (λ op. OpFitsIn op lines) ops.now }
    requires each { Every (IsFlipOn lines) flips.now }
{
    let state = through(alloc, lines, ops, flips, marks, reach)?;
    let sets = suspect_lines(alloc, &state.sum)?;
    let mut numbers = Vec::new(alloc);
    for set in &sets {
        numbers.push(number_before(lines, state.facts.completed(*set), flips))?;
    }
    Ok(numbers)
}
