ghost use Rattle.std.specs.Prelude.{◌≡◌, ◌+◌, ◌<◌, ◌≤◌, length, IsTrue, OnOk};
ghost use Rattle.rv_gate.specs.Gate.{FitsIn, IsGate, IsFlipOn};
ghost use Rattle.rv_mct.specs.Blocks.{count_lines, is_free, middle, halves, split, long_flip, flip_block, flip_wish};
ghost use Rattle.rv_mct.specs.inside.Long.{IsLong, IsCut, Ready};
ghost use Rattle.rv_mct.specs.inside.LadderLines.{Grown};

use crate::Aux;
use crate::flips::{place, push};
use crate::lines::{controls_of, count_lines, first_free, free_count};
use crate::long::{borrowed_ladder, clean_ladder};
use rv_gate::{Circuit, Gate, LineSet, MOST_LINES, Shape};
use std::alloc::AllocError;

fn halves(
    circuit: &mut Circuit,
    care: LineSet,
    want: LineSet,
    target: u8,
    line: u8,
    helper: u8,
) -> Result<(), AllocError>
    requires cut { IsCut (length circuit.old.names) care target line helper }
    requires many { 3 ≤ count_lines care }
    requires line { line < MOST_LINES }
    requires helper { helper < MOST_LINES }
    ensures { OnOk result
        (Grown circuit.old circuit.new (halves (length circuit.old.names) care want target line helper)) }
{
    let (cut, own) = (place(line), place(helper));
    let (low, low_want) = (care % cut, want % cut);
    borrowed_ladder(circuit, low, low_want, helper)?;
    borrowed_ladder(circuit, care - low | own, want - low_want | own, target)?;
    Ok(())
}

// The control with which the second half of the controls begins.
pub fn middle(care: LineSet) -> u8
    requires { 3 ≤ count_lines care }
    ensures { result ≡ middle care }
{
    let controls = controls_of(care, care);
    controls[(controls.len() + 1) / 2].line
}

fn split(
    circuit: &mut Circuit,
    care: LineSet,
    want: LineSet,
    target: u8,
    helper: u8,
) -> Result<(), AllocError>
    requires long { IsLong (length circuit.old.names) care target }
    requires many { 3 ≤ count_lines care }
    requires below { helper < length circuit.old.names }
    requires free { IsTrue (is_free care target helper) }
    ensures { OnOk result (Grown circuit.old circuit.new (split (length circuit.old.names) care want target helper)) }
{
    let line = middle(care);
    halves(circuit, care, want, target, line, helper)?;
    halves(circuit, care, want, target, line, helper)?;
    Ok(())
}

fn clean_flip(
    circuit: &mut Circuit,
    lines: u8,
    extra: u8,
    care: LineSet,
    want: LineSet,
    target: u8,
) -> Result<(), AllocError>
    requires lines { length circuit.old.names ≡ lines + extra }
    requires ready { Ready Aux.Clean lines extra care want target }
    requires many { 3 ≤ count_lines care }
    ensures { OnOk result (Grown circuit.old circuit.new (long_flip Aux.Clean lines extra care want target)) }
{
    let controls = controls_of(care, want);
    clean_ladder(circuit, &controls, lines, target)?;
    Ok(())
}

fn borrowed_flip(
    circuit: &mut Circuit,
    lines: u8,
    extra: u8,
    care: LineSet,
    want: LineSet,
    target: u8,
) -> Result<(), AllocError>
    requires lines { length circuit.old.names ≡ lines + extra }
    requires ready { Ready Aux.Borrowed lines extra care want target }
    requires many { 3 ≤ count_lines care }
    ensures { OnOk result (Grown circuit.old circuit.new (long_flip Aux.Borrowed lines extra care want target)) }
{
    let all = lines + extra;
    if free_count(care, target, all) + 2 < count_lines(care) {
        let helper = first_free(care, target, all);
        split(circuit, care, want, target, helper)?;
        return Ok(());
    }
    borrowed_ladder(circuit, care, want, target)?;
    Ok(())
}

/// Adds what replaces a flip in a circuit of so many lines, to which so many were added.
pub(crate) fn flip_block(
    circuit: &mut Circuit,
    aux: Aux,
    lines: u8,
    extra: u8,
    flip: Gate,
) -> Result<(), AllocError>
    requires lines { length circuit.old.names ≡ lines + extra }
    requires few { lines + extra ≤ MOST_LINES }
    requires own { IsFlipOn lines flip }
    requires enough { flip_wish aux lines flip ≤ extra }
    ensures { OnOk result (Grown circuit.old circuit.new (flip_block aux lines extra flip)) }
{
    if let Shape::Flip { care, want, target } = flip.shape() {
        if count_lines(care) < 3 {
            push(circuit, flip)?;
            return Ok(());
        }
        match aux {
            Aux::Clean => clean_flip(circuit, lines, extra, care, want, target)?,
            Aux::Borrowed => borrowed_flip(circuit, lines, extra, care, want, target)?,
        }
    }
    Ok(())
}
