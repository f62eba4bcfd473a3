ghost use Rattle.std.specs.Prelude.{◌≡◌, All};
ghost use Rattle.std.specs.Bool.{Decides};
ghost use Rattle.rv_mct.specs.Extends.{IsPlain};

use rv_gate::{Circuit, Gate, Shape};
use rv_mct::count_lines;

fn is_plain_gate(gate: Gate) -> bool
    ensures { Decides result (IsPlain gate) }
{
    match gate.shape() {
        Shape::Flip { care, .. } => count_lines(care) <= 2,
        Shape::Swap { .. } => false,
        Shape::Peres { .. } => false,
    }
}

/// Whether every gate is a flip with at most two controls.
pub fn is_plain(circuit: &Circuit) -> bool
    ensures { Decides result (All IsPlain circuit.now.gates) }
{
    circuit.gates().iter().all(|gate| is_plain_gate(*gate))
}
