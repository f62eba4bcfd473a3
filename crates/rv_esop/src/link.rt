// The CNOT that makes a line the exclusive or of itself and another one.
ghost use Rattle.std.specs.Prelude.{◌≡◌, ◌≢◌, ◌<◌, ◌^◌};
ghost use Rattle.rv_gate.specs.declared.gate.Shape.TheVariants.{Flip};
ghost use Rattle.rv_gate.specs.declared.word.TheConstants.{MOST_LINES};

use rv_gate::{Gate, LineSet, MOST_LINES};

/// The flip of a line where another one has a 1.
pub fn link_of(from: u8, to: u8) -> Gate
    requires from { from < MOST_LINES }
    requires to { to < MOST_LINES }
    requires apart { from ≢ to }
    ensures { result ≡ Flip (2 ^ from) (2 ^ from) to }
{
    let line: LineSet = 1u64 << from;
    let Some(gate) = Gate::flip(line, line, to) else {
        unreachable!()
    };
    gate
}
