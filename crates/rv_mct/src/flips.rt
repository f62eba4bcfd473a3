ghost use Rattle.std.specs.Prelude.{◌≡◌, ◌+◌, ◌^◌, ◌<◌, ◌≤◌, ◌++◌, ◌∷◌, [], reverse, length, OnOk};
ghost use Rattle.rv_gate.specs.Gate.{FitsIn, IsGate};
ghost use Rattle.rv_mct.specs.Blocks.{both, wanted_place, ladder, down_up, inner, down_up_twice};
ghost use Rattle.std.specs.List.{range_with_len};
ghost use Rattle.rv_mct.specs.inside.LadderLines.{AreDivided, Grown, IsRung};

use crate::control::{Control, positive};
use rv_gate::{Circuit, Gate, LineSet, MOST_LINES};
use std::alloc::AllocError;

pub(crate) fn place(line: u8) -> LineSet
    requires { line < MOST_LINES }
    ensures { result ≡ 2 ^ line }
{
    1 << line
}

fn wanted_place(control: Control) -> LineSet
    requires { control.line < MOST_LINES }
    ensures { result ≡ wanted_place control }
{
    if control.wanted {
        place(control.line)
    } else {
        0
    }
}

/// The flip under two controls.
fn both(a: Control, b: Control, target: u8) -> Gate
    requires { IsRung MOST_LINES a b target }
    ensures { result ≡ both a b target }
{
    let care = place(a.line) | place(b.line);
    let want = wanted_place(a) | wanted_place(b);
    match Gate::flip(care, want, target) {
        Some(gate) => gate,
        None => unreachable!(),
    }
}

/// Adds a gate.
pub(crate) fn push(circuit: &mut Circuit, gate: Gate) -> Result<(), AllocError>
    requires { FitsIn gate (length circuit.old.names) }
    ensures { OnOk result (Grown circuit.old circuit.new (gate ∷ [])) }
{
    match circuit.push(gate) {
        Ok(()) => Ok(()),
        Err(_) => Err(AllocError),
    }
}

fn push_both(circuit: &mut Circuit, a: Control, b: Control, target: u8) -> Result<(), AllocError>
    requires few { length circuit.old.names ≤ MOST_LINES }
    requires rung { IsRung (length circuit.old.names) a b target }
    ensures { OnOk result (Grown circuit.old circuit.new (both a b target ∷ [])) }
{
    push(circuit, both(a, b, target))?;
    Ok(())
}

/// Adds the ladder over lines from `helper` on, which hold 0.
pub(crate) fn ladder(
    circuit: &mut Circuit,
    a: Control,
    b: Control,
    more: &[Control],
    helper: u8,
    target: u8,
) -> Result<(), AllocError>
    requires few { length circuit.old.names ≤ MOST_LINES }
    requires room { helper + length more.now ≤ MOST_LINES }
    requires divided { AreDivided (length circuit.old.names) a b more.now (range_with_len helper (length more.now))
        target }
    ensures { OnOk result
        (Grown circuit.old circuit.new (ladder a b more.now (range_with_len helper (length more.now)) target)) }
{
    let Some((c, rest)) = more.split_first() else {
        push_both(circuit, a, b, target)?;
        return Ok(());
    };
    let first = both(a, b, helper);
    push(circuit, first)?;
    ladder(circuit, positive(helper), *c, rest, helper + 1, target)?;
    let undone = first;
    push(circuit, undone)?;
    Ok(())
}

/// Adds the flips down and up again, where the last of `more` and of `helpers` come first.
pub(crate) fn down_up(
    circuit: &mut Circuit,
    a: Control,
    b: Control,
    more: &[Control],
    helpers: &[u8],
    target: u8,
) -> Result<(), AllocError>
    requires few { length circuit.old.names ≤ MOST_LINES }
    requires enough { length more.now ≡ length helpers.now }
    requires divided { AreDivided (length circuit.old.names) a b (reverse more.now) (reverse helpers.now) target }
    ensures { OnOk result
        (Grown circuit.old circuit.new (down_up a b (reverse more.now) (reverse helpers.now) target)) }
{
    let Some((c, rest)) = more.split_last() else {
        push_both(circuit, a, b, target)?;
        return Ok(());
    };
    let Some((helper, free)) = helpers.split_last() else {
        unreachable!()
    };
    let outer = both(*c, positive(*helper), target);
    push(circuit, outer)?;
    down_up(circuit, a, b, rest, free, *helper)?;
    push(circuit, outer)?;
    Ok(())
}

/// Adds the flips down and up, and once more without the first and the last.
pub(crate) fn down_up_twice(
    circuit: &mut Circuit,
    a: Control,
    b: Control,
    more: &[Control],
    helpers: &[u8],
    target: u8,
) -> Result<(), AllocError>
    requires few { length circuit.old.names ≤ MOST_LINES }
    requires enough { length more.now ≡ length helpers.now }
    requires divided { AreDivided (length circuit.old.names) a b (reverse more.now) (reverse helpers.now) target }
    ensures { OnOk result
        (Grown circuit.old circuit.new (down_up_twice a b (reverse more.now) (reverse helpers.now) target)) }
{
    down_up(circuit, a, b, more, helpers, target)?;
    let Some((_, rest)) = more.split_last() else {
        return Ok(());
    };
    let Some((helper, others)) = helpers.split_last() else {
        unreachable!()
    };
    down_up(circuit, a, b, rest, others, *helper)?;
    Ok(())
}
