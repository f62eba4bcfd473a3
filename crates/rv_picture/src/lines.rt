ghost use Rattle.std.specs.Prelude.{◌≡◌, ◌≤◌, IfOk};
ghost use Rattle.rv_gate.specs.declared.word.TheConstants.{MOST_LINES};
ghost use Rattle.rv_picture.specs.Lines.{network_lines};

use rv_gate::{Circuit, MOST_LINES, Names};
use std::alloc::{AllocError, Global};

/// The lines on which a network is drawn, `q0`, `q1` and so on: a circuit without gates.
pub fn network_lines(alloc: Global, lines: u8) -> Result<Circuit, AllocError>
    requires some { 1 ≤ lines }
    requires most { lines ≤ MOST_LINES }
    ensures { IfOk result (λ c. c ≡ network_lines lines) }
{
    let names = Names::numbered(alloc, b'q', lines)?;
    Circuit::new(names)
}
