// Which of the lines that begin with a constant are followed by what is known of them: those of which it is little.
ghost use Rattle.std.specs.Prelude.{◌≤◌, List, Bool, IfOk, IsTrue};
ghost use Rattle.rv_gate.specs.declared.word.TheConstants.{MOST_LINES};
ghost use Rattle.rv_sums.specs.Finding.{HasConstants, may_begin};

use crate::beginning::mark_of;
use crate::by_paths::LITTLE;
use crate::facts::{Facts, asks_for};
use crate::fault::PathFault;
use crate::path_sum::PathSum;
use crate::same::flips;
use rv_gate::{Circuit, Gate, LineSet, MOST_LINES, Mark, Shape, has};
use std::alloc::{AllocError, Global};

fn unless(mark: Mark, gone: bool) -> Mark
    ensures { (bit : Bool) → IsTrue (may_begin mark bit) → IsTrue (may_begin result bit) }
{
    if gone {
        return Mark::Input;
    }
    mark
}

// The marks of so many lines, but for those of some.
fn without(alloc: Global, lines: u8, marks: &[Mark], gone: LineSet) -> Result<Vec<Mark>, AllocError>
    requires { lines ≤ MOST_LINES }
    ensures { IfOk result (λ made. (word : List Bool) → HasConstants marks.now word → HasConstants made.items word) }
{
    let mut made = Vec::new(alloc);
    for line in 0..lines {
        let mark = mark_of(marks, line);
        let next = unless(mark, has(gone, line));
        made.push(next)?;
    }
    Ok(made)
}

// The lines of which too much is known, and the controls of a flip by which its target isn't known.
fn too_large(facts: &Facts, gate: Gate) -> LineSet {
    let mut large: LineSet = 0;
    let Shape::Flip { care, target, .. } = gate.shape() else {
        return large;
    };
    for line in 0..MOST_LINES {
        if has(facts.lines, line) {
            if let Some(fact) = facts.sums.get(usize::from(line)) {
                let controls = has(care, line) && target < MOST_LINES && asks_for(fact, target);
                if controls || fact.len() > LITTLE {
                    large |= 1 << line;
                }
            }
        }
    }
    large
}

// Those that are met as the flips follow one another. Of them nothing is known from there on.
fn large_lines(
    alloc: Global,
    lines: u8,
    flips: &[Gate],
    marks: &[Mark],
) -> Result<LineSet, PathFault>
    requires { lines ≤ MOST_LINES }
{
    let start = PathSum::start(alloc, lines, marks)?;
    let mut facts = Facts::start(alloc, marks, &start.sums)?;
    let mut large: LineSet = 0;
    for gate in flips {
        let more = too_large(&facts, *gate);
        for line in 0..MOST_LINES {
            if has(more, line) {
                facts.lose(alloc, line)?;
            }
        }
        large |= more;
        facts = facts.past(alloc, usize::from(lines), *gate)?;
    }
    Ok(large)
}

// The marks of lines of which little is known, at each flip.
pub(crate) fn held(alloc: Global, circuit: &Circuit, marks: &[Mark]) -> Result<Vec<Mark>, PathFault>
    ensures { IfOk result (λ made. (word : List Bool) → HasConstants marks.now word → HasConstants made.items word) }
{
    if marks.is_empty() {
        return Ok(Vec::new(alloc));
    }
    let lines = circuit.line_count();
    prove!(lines <= MOST_LINES);
    let mut made = without(alloc, lines, marks, 0)?;
    let flips = flips(alloc, circuit)?;
    'rounds: for _ in 0..MOST_LINES {
        let large = large_lines(alloc, lines, &flips, &made)?;
        if large == 0 {
            return Ok(made);
        }
        let next = without(alloc, lines, &made, large)?;
        made = next;
    }
    Ok(made)
}
