// What stands on the lines at the beginning, and what is due at the end.
ghost use Rattle.std.specs.Prelude.{◌≡◌, ℕ, ◌<◌, ◌≤◌, [], length, IfOk, IsTrue};
ghost use Rattle.rv_gate.specs.declared.word.TheConstants.{MOST_LINES};
ghost use Rattle.rv_compute.specs.inside.Held.{Stands, line_count, due, IsDone};

use rv_blif::Logic;
use rv_gate::MOST_LINES;
use std::alloc::{AllocError, Global};

/// The inputs on their lines, and nothing on the others.
pub(crate) fn first_held(
    alloc: Global,
    logic: &Logic,
    extra: u8,
) -> Result<Vec<Option<u32>>, AllocError>
    requires { line_count logic.now extra ≤ MOST_LINES }
    ensures { IfOk result (λ held. Stands logic.now extra held.items []) }
{
    let inputs = logic.input_count();
    let lines = inputs + logic.output_count() + u32::from(extra);
    let mut held = Vec::new(alloc);
    for line in 0..lines {
        held.push(if line < inputs { Some(line) } else { None })?;
    }
    Ok(held)
}

// What a line is to hold at the end.
fn due(logic: &Logic, line: u32) -> Option<u32>
    requires { line < MOST_LINES }
    ensures { result ≡ due logic.now line }
{
    let inputs = logic.input_count();
    let outputs = logic.outputs();
    if line < inputs {
        Some(line)
    } else if ((line - inputs) as usize) < outputs.len() {
        Some(outputs[(line - inputs) as usize].signal())
    } else {
        None
    }
}

/// Whether each line holds what is due.
pub(crate) fn is_done(logic: &Logic, held: &[Option<u32>]) -> bool
    requires { length held.now ≤ MOST_LINES }
    ensures { IsTrue result → IsDone logic.now held.now }
{
    for line in 0..held.len() {
        if held[line] != due(logic, line as u32) {
            return false;
        }
    }
    true
}
