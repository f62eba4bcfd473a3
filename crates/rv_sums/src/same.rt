// Whether the sum after all operations and flips is that of each word to itself.
ghost use Rattle.std.specs.Prelude.{◌≡◌, ◌<◌, ◌≤◌, ◌++◌, List, Bool, All, length, if◌then◌else◌, IfOk, IsTrue};
ghost use Rattle.rv_gate.specs.Every.{Every};
ghost use Rattle.rv_gate.specs.Gate.{IsFlipOn, IsGate, run};
ghost use Rattle.rv_mct.specs.Blocks.{flips_of};
ghost use Rattle.rv_gate.specs.declared.word.TheConstants.{MOST_LINES};
ghost use Rattle.rv_net.specs.Amplitude.{count_h};
ghost use Rattle.rv_net.specs.Op.{OpFitsIn};
ghost use Rattle.rv_terms.specs.Products.{odd};
ghost use Rattle.rv_sums.specs.Finding.{DenotesFrom};
ghost use Rattle.rv_sums.specs.inside.Paths.{is_h};
ghost use Rattle.rv_sums.specs.inside.State.{AreFlips, Holds, word_at};

use crate::differs::is_nought;
use crate::fault::PathFault;
use crate::following::through;
use crate::path_sum::ALL_PATHS;
use crate::taking::{Following, Reach};
use rv_gate::{Circuit, Gate, MOST_LINES, Mark};
use rv_mct::flips_of;
use rv_net::Op;
use rv_terms::Sum;
use std::alloc::{AllocError, Global};

// Adds the flips that a gate stands for.
fn add_flips(made: &mut Vec<Gate>, gate: Gate) -> Result<(), AllocError>
    ensures flips { IfOk result (λ _. made.new.items ≡ made.old.items ++ flips_of gate) }
    ensures valid { IsGate gate }
{
    let (three, count) = flips_of(gate);
    made.extend_from_slice(&three[..count])?;
    Ok(())
}

// The flips that a circuit's gates stand for.
pub(crate) fn flips(alloc: Global, circuit: &Circuit) -> Result<Vec<Gate>, AllocError>
    ensures { IfOk result (λ made. AreFlips (length circuit.now.names) circuit.now.gates made.items) }
{
    let lines = circuit.line_count();
    prove!(lines <= MOST_LINES);
    let mut made = Vec::new(alloc);
    for gate in circuit.gates() {
        add_flips(&mut made, *gate)?;
    }
    Ok(made)
}

// Whether each sum is that of its line.
fn are_lines(sums: &[Sum]) -> bool
    ensures { IsTrue result → (x v : List Bool) → length x ≡ length sums.now → word_at sums.now x v ≡ x }
{
    if sums.len() > usize::from(MOST_LINES) {
        return false;
    }
    for line in 0..sums.len() {
        if !sums[line].is_line(line as u8) {
            return false;
        }
    }
    true
}

// Whether a sum is that of a fact.
fn is_told(alloc: Global, sum: &Sum, fact: &Sum) -> Result<bool, PathFault>
    ensures { IfOk result (λ is. IsTrue is → (x v : List Bool) → odd sum.now x v ≡ odd fact.now x v) }
{
    let rest = sum.plus(alloc, fact)?;
    Ok(is_nought(&rest))
}

// Whether each sum is that of its line's fact.
fn are_told(alloc: Global, sums: &[Sum], facts: &[Sum]) -> Result<bool, PathFault>
    ensures { IfOk result (λ are. IsTrue are → (x v : List Bool) → length x ≡ length sums.now → Holds facts.now x
        → word_at sums.now x v ≡ x) }
{
    if facts.len() < sums.len() {
        return Ok(false);
    }
    for line in 0..sums.len() {
        let told = is_told(alloc, &sums[line], &facts[line])?;
        if !told {
            return Ok(false);
        }
    }
    Ok(true)
}

impl Following {
    // Whether the sums are those of each word to itself, where the facts hold.
    fn is_own(&self, alloc: Global) -> Result<bool, PathFault>
        ensures { IfOk result (λ own. IsTrue own → (x v : List Bool) → length x ≡ length self.now.sum.sums.items
            → Holds self.now.facts.sums.items x → word_at self.now.sum.sums.items x v ≡ x) }
    {
        if self.facts.sums.is_empty() {
            return Ok(are_lines(&self.sum.sums));
        }
        let told = are_told(alloc, &self.sum.sums, &self.facts.sums)?;
        Ok(told)
    }
}

fn one_if_h(op: Op) -> usize
    ensures value { result ≡ if is_h op then 1 else 0 }
    ensures small { result ≤ 1 }
{
    match op {
        Op::H(_) => 1,
        _ => 0,
    }
}

pub(crate) fn count_h(ops: &[Op]) -> usize
    ensures { result ≡ count_h ops.now }
{
    let mut count: usize = 0;
    for place in 0..ops.len() {
        count += one_if_h(ops[place]);
    }
    count
}

// Whether the operations denote what the flips do, as the sum after all of them shows.
pub(crate) fn is_same(
    alloc: Global,
    lines: u8,
    ops: &[Op],
    flips: &[Gate],
    marks: &[Mark],
    reach: Reach,
) -> Result<bool, PathFault>
    requires few { lines ≤ MOST_LINES }
    requires fits { All (λ op. OpFitsIn op lines) ops.now }
    requires each { Every (IsFlipOn lines) flips.now }
    ensures { IfOk result (λ same. IsTrue same → DenotesFrom marks.now lines ops.now (run flips.now)) }
{
    let state = through(alloc, lines, ops, flips, marks, reach)?;
    if !state.sum.phases.is_nothing() {
        return Ok(false);
    }
    if state.sum.scale > ALL_PATHS {
        return Ok(false);
    }
    let roots = count_h(ops);
    if roots != (ALL_PATHS - state.sum.scale) as usize {
        return Ok(false);
    }
    let own = state.is_own(alloc)?;
    Ok(own)
}
