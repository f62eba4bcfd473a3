// The gates that turn one word into another.
ghost use Rattle.std.specs.Prelude.{◌≡◌, ◌<◌, ◌++◌, length, IfOk, OnOk, IsFalse, if◌then◌else◌, ◌==◌};
ghost use Rattle.rv_gate.specs.Word.{has, bit_of, number_of, ones_of};
ghost use Rattle.rv_gate.specs.Gate.{run};
ghost use Rattle.rv_tbs.specs.Synthesis.{is_set_due, is_clear_due, set_flips, clear_flips, turning};

use rv_gate::{Gate, LineSet, MOST_LINES, Shape, Word};
use std::alloc::AllocError;

// Finds the gates that turn `word` into `goal`.
pub(crate) fn turning_gates(goal: Word, word: Word, gates: &mut Vec<Gate>) -> Result<(), AllocError>
    requires { length word ≡ length goal }
    ensures { OnOk result (gates.new.items ≡ gates.old.items ++ turning goal word) }
{
    let middle = set_lines(goal, word, gates)?;
    clear_lines(goal, middle, gates)?;
    Ok(())
}

// Finds the flips that set lines, and gives the word after them.
fn set_lines(goal: Word, word: Word, gates: &mut Vec<Gate>) -> Result<Word, AllocError>
    requires { length word ≡ length goal }
    ensures word { IfOk result (λ v. v ≡ run (set_flips goal word) word) }
    ensures gates { OnOk result (gates.new.items ≡ gates.old.items ++ set_flips goal word) }
{
    let mut word = word;
    for line in 0..goal.len() {
        if is_set_due(goal, word, line) {
            gates.push(flip_under(word.ones(), line))?;
            word = word.with_bit(line, true);
        }
    }
    Ok(word)
}

// Finds the flips that clear lines.
fn clear_lines(goal: Word, word: Word, gates: &mut Vec<Gate>) -> Result<(), AllocError>
    requires { length word ≡ length goal }
    ensures gates { OnOk result (gates.new.items ≡ gates.old.items ++ clear_flips goal word) }
{
    let is_zero = goal.number() == 0;
    let mut word = word;
    for line in 0..goal.len() {
        if is_clear_due(goal, word, line) {
            let after = word.with_bit(line, false);
            gates.push(flip_under(controls_for(is_zero, after), line))?;
            word = after;
        }
    }
    Ok(())
}

// Whether the line is to be set.
fn is_set_due(goal: Word, word: Word, line: u8) -> bool
    requires goal_in { line < length goal }
    requires word_in { line < length word }
    ensures { result ≡ is_set_due goal line (bit_of word line) }
{
    goal.bit(line) && !word.bit(line)
}

// Whether the line is to be cleared.
fn is_clear_due(goal: Word, word: Word, line: u8) -> bool
    requires goal_in { line < length goal }
    requires word_in { line < length word }
    ensures { result ≡ is_clear_due goal line (bit_of word line) }
{
    word.bit(line) && !goal.bit(line)
}

// The controls of a clearing flip, by whether the goal is the word 0 and by the word after it.
fn controls_for(is_zero: bool, after: Word) -> LineSet
    ensures { result ≡ (if is_zero then 0 else ones_of after) }
{
    if is_zero { 0 } else { after.ones() }
}

// A flip of `line` under positive controls.
fn flip_under(controls: LineSet, line: u8) -> Gate
    requires line_in { line < MOST_LINES }
    requires free { IsFalse (has controls line) }
    ensures { result ≡ Shape.Flip controls controls line }
{
    match Gate::flip(controls, controls, line) {
        Some(gate) => gate,
        None => unreachable!(),
    }
}
