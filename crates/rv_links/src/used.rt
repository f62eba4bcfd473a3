//! The lines that gates read and change.
ghost use Rattle.std.specs.Prelude.{◌≡◌, true, false, IsTrue};
ghost use Rattle.rv_gate.specs.declared.gate.Shape.{Shape};
ghost use Rattle.rv_gate.specs.Commuting.{meet, rule};
ghost use Rattle.rv_links.specs.inside.Used.{read_by, Uses, UsesAll};

use rv_gate::{Gate, LineSet};

/// Lines that gates read, and that they change.
#[derive(Clone, Copy)]
pub struct LineUse {
    pub read: LineSet,
    pub changed: LineSet,
}

/// The lines that make a gate commute with no flip that changes one of them, unless their controls are opposed.
pub fn read_by(gate: Gate) -> LineSet
    ensures { result ≡ read_by gate }
{
    if gate.is_flip() {
        gate.controls()
    } else {
        gate.touched()
    }
}

/// Sets of all lines that the gates read, and that they change.
pub fn used(gates: &[Gate]) -> (LineSet, LineSet)
    ensures { UsesAll result.0 result.1 gates.now }
{
    let mut read = 0;
    let mut changed = 0;
    for gate in gates {
        read |= read_by(*gate);
        changed |= gate.targets();
    }
    (read, changed)
}

fn apart(a: LineSet, b: LineSet) -> bool
    ensures { IsTrue result → meet a b ≡ false }
{
    a & b == 0
}

/// Whether the gate is a flip that commutes with each gate that reads and changes only lines of these sets: its target
/// is not read, and its controls are not changed.
pub fn is_free(gate: Gate, read: LineSet, changed: LineSet) -> bool
    ensures { IsTrue result → (other : Shape) → Uses read changed other → rule gate other ≡ true }
{
    let flip = gate.is_flip();
    if !flip {
        return false;
    }
    let unread = apart(gate.targets(), read);
    if !unread {
        return false;
    }
    apart(gate.controls(), changed)
}
