// Gates and controls that the marks make needless on the words that can come up. They go if some words don't tell; the
// words that tell are found by comparing on all of them.
ghost use Rattle.std.specs.Prelude.{◌≡◌, length};
ghost use Rattle.rv_gate.specs.declared.word.TheConstants.{MOST_LINES};

use crate::replacing::all_fit;
use crate::resynthesis::{frame_of, with_gates};
use rv_compare::{Comparison, compare_circuits};
use rv_diagram::MOST_NODES;
use rv_gate::{Circuit, Gate, MOST_GATES, MOST_LINES, Mark, Shape};
use rv_many::{Row, act_on_all, constant_row, number_row};
use std::alloc::{AllocError, Global};

// So many words are side by side.
const BLOCK: u64 = 256;

// With so many blocks a search begins, and so often words that tell are added.
const BLOCKS: u32 = 4;

const ROUNDS: usize = 12;

// Of more gates nothing is dropped, nor if more would act on all blocks of words.
const MOST_TRIED: usize = 1 << 16;

const MOST_ACTS: usize = 1 << 27;

// So many gates may act for each step of effort.
const ACTS: usize = 1 << 26;

// What some words are told by: the marks of a circuit, and its gates.
#[derive(Clone, Copy)]
struct Trial<'a> {
    circuit: &'a Circuit,
    blocks: &'a [u32],
}

// The rows of the words of a block, put in among the constants.
fn rows_of(marks: &[Mark], block: u32) -> [Row; MOST_LINES as usize] {
    let mut rows = [Row::ones(); MOST_LINES as usize];
    let count = marks.len().min(64);
    let mut bit = 0u8;
    for step in 0..count {
        let line = count - 1 - step;
        let mark = marks[line];
        rows[line] = match mark {
            Mark::Input => number_row(block, bit % 64),
            Mark::Zero => constant_row(false),
            Mark::One => constant_row(true),
        };
        if matches!(mark, Mark::Input) {
            bit = bit.wrapping_add(1);
        }
    }
    rows
}

// What gates make of rows.
fn run_on(gates: &[Gate], rows: &mut [Row])
    requires { length rows.old ≡ MOST_LINES }
    ensures { length rows.new ≡ MOST_LINES }
{
    for gate in gates {
        if gate.fits(MOST_LINES) {
            act_on_all(*gate, rows);
        }
    }
}

// Whether both have the same rows at the lines that are asked for.
fn have_same(garbage: &[bool], a: &[Row], b: &[Row]) -> bool {
    for line in 0..garbage.len().min(a.len()).min(b.len()) {
        if !garbage[line] && a[line].parts != b[line].parts {
            return false;
        }
    }
    true
}

impl Trial<'_> {
    // Whether gates make the same of a block, on the lines that are asked for.
    fn agree_on(&self, gates: &[Gate], block: u32) -> bool {
        let mut old = rows_of(self.circuit.constant_row(), block);
        let mut new = old;
        run_on(self.circuit.gates(), &mut old);
        run_on(gates, &mut new);
        have_same(self.circuit.garbage_row(), &old, &new)
    }

    // Whether gates make the same of all its words.
    fn agrees(&self, gates: &[Gate]) -> bool {
        for block in self.blocks {
            if !self.agree_on(gates, *block) {
                return false;
            }
        }
        true
    }

    // Takes a gate away if the words don't tell.
    fn without(&self, gates: &mut Vec<Gate>, place: usize) -> Result<bool, AllocError> {
        if place >= gates.len() {
            return Ok(true);
        }
        let gate = gates.remove(place);
        if self.agrees(gates) {
            return Ok(true);
        }
        if place <= gates.len() {
            gates.insert(place, gate)?;
        }
        Ok(false)
    }

    // Takes controls from a flip, one after another, if the words don't tell.
    fn narrow(&self, gates: &mut Vec<Gate>, place: usize) {
        for line in 0..64u32 {
            if place < gates.len() {
                let old = gates[place];
                if let Some(new) = less(old, 1 << line) {
                    gates[place] = new;
                    if !self.agrees(gates) {
                        gates[place] = old;
                    }
                }
            }
        }
    }

    // The gates without what the words don't tell, the last one first.
    fn cut(&self, gates: &mut Vec<Gate>, acts: usize) -> Result<(), AllocError> {
        let count = gates.len();
        let mut left = acts;
        let each = count
            .saturating_add(self.circuit.gates().len())
            .saturating_mul(self.blocks.len());
        for step in 0..count {
            let place = count - 1 - step;
            let tests = match gates.get(place) {
                Some(gate) => 1 + gate.controls().count_ones() as usize,
                None => 1,
            };
            let more = each.saturating_mul(tests);
            if more > left {
                return Ok(());
            }
            left = left.saturating_sub(more);
            if !self.without(gates, place)? {
                self.narrow(gates, place);
            }
        }
        Ok(())
    }
}

// A flip without a control.
fn less(gate: Gate, line: u64) -> Option<Gate> {
    let Shape::Flip { care, want, target } = gate.shape() else {
        return None;
    };
    if care & line == 0 {
        return None;
    }
    Gate::flip(care & !line, want & !line, target)
}

// The block of a word that tells gates from those of the circuit, by the marks; none if there is no such word.
fn telling(alloc: Global, circuit: &Circuit, gates: &[Gate]) -> Result<Option<u32>, AllocError> {
    circuit.recall_invariant();
    if gates.len() > MOST_GATES || !all_fit(gates, circuit.line_count()) {
        return Ok(Some(0));
    }
    let copy = Vec::from_slice(alloc, gates)?;
    let frame = frame_of(alloc, circuit)?;
    let new = with_gates(circuit, frame, copy);
    match compare_circuits(alloc, circuit, &new, false, MOST_NODES as u32) {
        Ok(Comparison::Same) => Ok(None),
        Ok(Comparison::Differs(word)) => Ok(Some((word / BLOCK).min(u64::from(u32::MAX)) as u32)),
        _ => Ok(Some(0)),
    }
}

// In how many blocks all words of so many inputs are.
fn block_count(inputs: u8) -> u32 {
    1u32 << inputs.saturating_sub(8).min(24)
}

// The blocks with which a search begins, of so many inputs.
fn first_blocks(alloc: Global, inputs: u8) -> Result<Vec<u32>, AllocError> {
    let all = block_count(inputs);
    let mut blocks = Vec::new(alloc);
    for number in 0..BLOCKS.min(all) {
        blocks.push(number.wrapping_mul(all / BLOCKS.min(all).max(1)))?;
    }
    Ok(blocks)
}

// Gates with the same function by the circuit's marks, without needless gates and controls; or these gates, if none are
// found.
pub(crate) fn dropped(
    alloc: Global,
    circuit: &Circuit,
    gates: Vec<Gate>,
    inputs: u8,
    effort: u16,
) -> Result<Vec<Gate>, AllocError> {
    let all = gates.len().saturating_mul(block_count(inputs) as usize);
    if gates.len() > MOST_TRIED || all > MOST_ACTS {
        return Ok(gates);
    }
    let mut blocks = first_blocks(alloc, inputs)?;
    let acts = ACTS.saturating_mul(usize::from(effort)) / ROUNDS;
    for _ in 0..ROUNDS {
        let mut new = Vec::from_slice(alloc, &gates)?;
        let trial = Trial {
            circuit,
            blocks: &blocks,
        };
        trial.cut(&mut new, acts)?;
        match telling(alloc, circuit, &new)? {
            Some(block) => blocks.push(block)?,
            None => return Ok(new),
        }
    }
    Ok(gates)
}
