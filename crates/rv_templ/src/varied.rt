//! Lines that are not the same to each gate of a list.
ghost use Rattle.std.specs.Prelude.{◌≡◌, ◌<◌, ◌≤◌, length};
ghost use Rattle.rv_templ.specs.declared.image.TheConstants.{TEMPLATE_GATES};
ghost use Rattle.rv_templ.specs.Images.{turned};
ghost use Rattle.rv_templ.specs.inside.Pruning.{varied_at, varied};

use crate::image::{target_of, turned_gate};
use rv_gate::{Gate, LineSet};

/// The lines that control the gate and not the first one, or not with the same wanted value, and the gate's target.
pub fn varied_at(gate: Gate, first: Gate) -> LineSet
    ensures { result ≡ varied_at gate first }
{
    (gate.controls() ^ first.controls()) | (gate.wanted() ^ first.wanted()) | 1 << target_of(gate)
}

/// The lines on which some gate has its target, or not the control that the first gate has.
pub fn varied(gates: &[Gate]) -> LineSet
    requires { 0 < length gates.now }
    ensures { result ≡ varied gates.now (length gates.now) }
{
    let first = gates[0];
    let mut set = 0;
    for j in 0..gates.len() {
        set |= varied_at(gates[j], first);
    }
    set
}

/// The same of the first gates of a list that was turned by `r`.
pub fn varied_turned(gates: &[Gate], r: usize, count: usize) -> LineSet
    requires few { length gates.now ≤ TEMPLATE_GATES }
    requires turn { r < length gates.now }
    requires room { count ≤ length gates.now }
    ensures { result ≡ varied (turned r gates.now) count }
{
    let first = turned_gate(gates, r, 0);
    let mut set = 0;
    for j in 0..count {
        set |= varied_at(turned_gate(gates, r, j), first);
    }
    set
}
