ghost use Rattle.std.specs.Prelude.{◌≡◌, ◌+◌, ◌<◌, ◌≤◌, length, OnOk};
ghost use Rattle.rv_mct.specs.Blocks.{count_lines, count, is_free, borrowed_ladder, borrowed_ladder_over, clean_ladder};
ghost use Rattle.rv_mct.specs.inside.Long.{IsLong};
ghost use Rattle.rv_mct.specs.inside.LadderLines.{BorrowedDivided, CleanDivided, Grown};

use crate::control::Control;
use crate::flips::{down_up_twice, ladder};
use crate::lines::{controls_of, free_lines};
use rv_gate::{Circuit, LineSet, MOST_LINES};
use std::alloc::AllocError;

// Adds a long flip over free lines.
fn borrowed_ladder_over(
    circuit: &mut Circuit,
    controls: &[Control],
    free: &[u8],
    target: u8,
) -> Result<(), AllocError>
    requires few { length circuit.old.names ≤ MOST_LINES }
    requires some { 2 ≤ length controls.now }
    requires enough { length controls.now ≤ length free.now + 2 }
    requires divided { BorrowedDivided (length circuit.old.names) controls.now free.now target }
    ensures { OnOk result (Grown circuit.old circuit.new (borrowed_ladder_over controls.now free.now target)) }
{
    down_up_twice(
        circuit,
        controls[0],
        controls[1],
        &controls[2..],
        &free[..controls.len() - 2],
        target,
    )?;
    Ok(())
}

/// Adds a long flip by way of added lines, which hold 0.
pub(crate) fn clean_ladder(
    circuit: &mut Circuit,
    controls: &[Control],
    first: u8,
    target: u8,
) -> Result<(), AllocError>
    requires few { length circuit.old.names ≤ MOST_LINES }
    requires some { 2 ≤ length controls.now }
    requires room { first + length controls.now ≤ length circuit.old.names + 2 }
    requires divided { CleanDivided (length circuit.old.names) controls.now first target }
    ensures { OnOk result (Grown circuit.old circuit.new (clean_ladder controls.now first target)) }
{
    ladder(
        circuit,
        controls[0],
        controls[1],
        &controls[2..],
        first,
        target,
    )?;
    Ok(())
}

/// Adds a long flip by way of the least free lines.
pub(crate) fn borrowed_ladder(
    circuit: &mut Circuit,
    care: LineSet,
    want: LineSet,
    target: u8,
) -> Result<(), AllocError>
    requires long { IsLong (length circuit.old.names) care target }
    requires some { 2 ≤ count_lines care }
    requires enough { count_lines care ≤ count (is_free care target) (length circuit.old.names) + 2 }
    ensures { OnOk result
        (Grown circuit.old circuit.new (borrowed_ladder (length circuit.old.names) care want target)) }
{
    let lines = circuit.line_count();
    let controls = controls_of(care, want);
    let free = free_lines(care, target, lines, controls.len() - 2);
    borrowed_ladder_over(circuit, &controls, &free, target)?;
    Ok(())
}
