// The flips of a single-target gate.
ghost use Rattle.std.specs.Prelude.{◌≡◌, ◌-◌, ◌<◌, ◌≤◌, ◌++◌, ◌^◌, ℕ, All, length, slice_index, OnOk};
ghost use Rattle.rv_perm.specs.declared.perm.TheConstants.{MOST_PERM_LINES};
ghost use Rattle.rv_cube.specs.ReedMuller.{reed_muller};
ghost use Rattle.rv_cube.specs.Reduction.{reduced};
ghost use Rattle.rv_dbs.specs.Walk.{other};
ghost use Rattle.rv_dbs.specs.Singles.{flips_of};

use rv_cube::{CubeList, flip_of};
use rv_gate::Gate;
use rv_perm::MOST_PERM_LINES;
use std::alloc::{AllocError, Global};

/// Puts the flips of the single-target gate of bit `k` at the end. The values of its control function don't depend on
/// that bit.
pub fn push_flips(
    alloc: Global,
    lines: u8,
    k: u8,
    values: &[u16],
    gates: &mut Vec<Gate>,
) -> Result<(), AllocError>
    requires few { lines ≤ MOST_PERM_LINES }
    requires line { k < lines }
    requires full { length values.now ≡ 2 ^ lines }
    requires small { All (λ value. value < 2 ^ 1) values.now }
    requires free { (x : ℕ) → x < 2 ^ lines → slice_index values.now (other k x) ≡ slice_index values.now x }
    ensures { OnOk result (gates.new.items
        ≡ gates.old.items ++ flips_of (lines - 1 - k) (reduced lines (reed_muller lines values.now))) }
{
    let mut list = CubeList::from_values(alloc, lines, 1, values)?;
    list.reduce()?;
    for cube in list.cubes() {
        gates.push(flip_of(*cube, lines - 1 - k))?;
    }
    Ok(())
}
