ghost use Rattle.std.specs.List.{flat_map};
ghost use Rattle.std.specs.Prelude.{◌≡◌, ◌+◌, ◌<◌, ◌≤◌, ◌++◌, length, All, IfOk, IsTrue};
ghost use Rattle.rv_gate.specs.Gate.{FitsIn, IsGate, IsFlipOn};
ghost use Rattle.rv_gate.specs.Greatest.{greatest};
ghost use Rattle.rv_mct.specs.Blocks.{added, count, count_lines, flip_wish, is_free, middle, wish};
ghost use Rattle.rv_gate.specs.Every.{Every};
ghost use Rattle.rv_mct.specs.inside.Long.{IsCut, IsLong, Ready};
ghost use Rattle.rv_ladder.specs.Ladder.{borrowed_net, flip_net, gate_net, halves_net, long_net, relative_network};
ghost use Rattle.rv_ladder.specs.Ladder.{split_net};

use crate::flip::{add_borrowed, add_clean};
use rv_gate::{Gate, LineSet, MOST_LINES, Shape};
use rv_mct::{Aux, controls_of, count_lines, first_free, flips_of, free_count, free_lines, middle};
use rv_net::{Op, add_flip};
use std::alloc::AllocError;

// A long flip by way of the least free lines.
fn add_over_free(
    ops: &mut Vec<Op>,
    lines: u8,
    care: LineSet,
    want: LineSet,
    t: u8,
) -> Result<(), AllocError>
    requires long { IsLong lines care t }
    requires some { 2 ≤ count_lines care }
    requires enough { count_lines care ≤ count (is_free care t) lines + 2 }
    ensures { IfOk result (λ _. ops.new.items ≡ ops.old.items ++ borrowed_net lines care want t) }
{
    let controls = controls_of(care, want);
    let free = free_lines(care, t, lines, controls.len() - 2);
    add_borrowed(ops, &controls, &free, t)?;
    Ok(())
}

fn add_halves(
    ops: &mut Vec<Op>,
    lines: u8,
    care: LineSet,
    want: LineSet,
    t: u8,
    line: u8,
    helper: u8,
) -> Result<(), AllocError>
    requires cut { IsCut lines care t line helper }
    requires many { 3 ≤ count_lines care }
    requires line { line < MOST_LINES }
    requires helper { helper < MOST_LINES }
    ensures { IfOk result (λ _. ops.new.items ≡ ops.old.items ++ halves_net lines care want t line helper) }
{
    let (cut, own): (LineSet, LineSet) = (1 << line, 1 << helper);
    let (low, low_want) = (care % cut, want % cut);
    add_over_free(ops, lines, low, low_want, helper)?;
    add_over_free(ops, lines, care - low | own, want - low_want | own, t)?;
    Ok(())
}

fn add_split(
    ops: &mut Vec<Op>,
    lines: u8,
    care: LineSet,
    want: LineSet,
    t: u8,
    helper: u8,
) -> Result<(), AllocError>
    requires long { IsLong lines care t }
    requires many { 3 ≤ count_lines care }
    requires below { helper < lines }
    requires free { IsTrue (is_free care t helper) }
    ensures { IfOk result (λ _. ops.new.items ≡ ops.old.items ++ split_net lines care want t helper) }
{
    let line = middle(care);
    add_halves(ops, lines, care, want, t, line, helper)?;
    add_halves(ops, lines, care, want, t, line, helper)?;
    Ok(())
}

fn add_long_clean(
    ops: &mut Vec<Op>,
    lines: u8,
    extra: u8,
    care: LineSet,
    want: LineSet,
    t: u8,
) -> Result<(), AllocError>
    requires ready { Ready Aux.Clean lines extra care want t }
    requires many { 3 ≤ count_lines care }
    ensures { IfOk result (λ _. ops.new.items ≡ ops.old.items ++ long_net Aux.Clean lines extra care want t) }
{
    let controls = controls_of(care, want);
    add_clean(ops, &controls, lines, t)?;
    Ok(())
}

fn add_long_borrowed(
    ops: &mut Vec<Op>,
    lines: u8,
    extra: u8,
    care: LineSet,
    want: LineSet,
    t: u8,
) -> Result<(), AllocError>
    requires ready { Ready Aux.Borrowed lines extra care want t }
    requires many { 3 ≤ count_lines care }
    ensures { IfOk result (λ _. ops.new.items ≡ ops.old.items ++ long_net Aux.Borrowed lines extra care want t) }
{
    let all = lines + extra;
    if free_count(care, t, all) + 2 < count_lines(care) {
        let helper = first_free(care, t, all);
        add_split(ops, all, care, want, t, helper)?;
        return Ok(());
    }
    add_over_free(ops, all, care, want, t)?;
    Ok(())
}

/// Adds the network of a flip in a circuit of so many lines, to which so many were added.
pub fn add_flip_net(
    ops: &mut Vec<Op>,
    aux: Aux,
    lines: u8,
    extra: u8,
    flip: Gate,
) -> Result<(), AllocError>
    requires few { lines + extra ≤ MOST_LINES }
    requires own { IsFlipOn lines flip }
    requires enough { flip_wish aux lines flip ≤ extra }
    ensures { IfOk result (λ _. ops.new.items ≡ ops.old.items ++ flip_net aux lines extra flip) }
{
    if let Shape::Flip { care, want, target } = flip.shape() {
        if count_lines(care) < 3 {
            add_flip(ops, care, want, target)?;
            return Ok(());
        }
        match aux {
            Aux::Clean => add_long_clean(ops, lines, extra, care, want, target)?,
            Aux::Borrowed => add_long_borrowed(ops, lines, extra, care, want, target)?,
        }
    }
    Ok(())
}

fn add_flips(
    ops: &mut Vec<Op>,
    flips: &[Gate],
    aux: Aux,
    lines: u8,
    extra: u8,
) -> Result<(), AllocError>
    requires few { lines + extra ≤ MOST_LINES }
    requires own { Every (IsFlipOn lines) flips.now }
    requires enough { greatest (flip_wish aux lines) flips.now ≤ extra }
    ensures { IfOk result (λ _. ops.new.items ≡ ops.old.items ++ flat_map (flip_net aux lines extra) flips.now) }
{
    for flip in flips {
        add_flip_net(ops, aux, lines, extra, *flip)?;
    }
    Ok(())
}

fn add_gate(ops: &mut Vec<Op>, gate: Gate, aux: Aux, lines: u8, extra: u8) -> Result<(), AllocError>
    requires few { lines + extra ≤ MOST_LINES }
    requires fits { FitsIn gate lines }
    requires enough { wish aux lines gate ≤ extra }
    ensures { IfOk result (λ _. ops.new.items ≡ ops.old.items ++ gate_net aux lines extra gate) }
{
    let (flips, count) = flips_of(gate);
    add_flips(ops, &flips[..count], aux, lines, extra)?;
    Ok(())
}

/// Adds the network of gates of a circuit of so many lines, to which so many were added.
pub(crate) fn add_network(
    ops: &mut Vec<Op>,
    gates: &[Gate],
    aux: Aux,
    lines: u8,
    extra: u8,
) -> Result<(), AllocError>
    requires few { lines + extra ≤ MOST_LINES }
    requires valid { All IsGate gates.now }
    requires fit { All (λ gate. FitsIn gate lines) gates.now }
    requires enough { added aux lines gates.now ≤ extra }
    ensures { IfOk result (λ _. ops.new.items ≡ ops.old.items ++ relative_network aux lines extra gates.now) }
{
    for gate in gates {
        add_gate(ops, *gate, aux, lines, extra)?;
    }
    Ok(())
}
