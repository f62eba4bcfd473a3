ghost use Rattle.std.specs.Prelude.{◌≡◌, ◌+◌, ◌*◌, ◌<◌, ◌≤◌, ℕ, List, length, All, OnOk, IfOk};
ghost use Rattle.rv_gate.specs.Gate.{FitsIn, IsGate, IsFlipOn};
ghost use Rattle.rv_gate.specs.Greatest.{greatest};
ghost use Rattle.rv_mct.specs.Blocks.{flip_block, flip_wish, block_of, wish, gate_cost, decomposition_of, added};
ghost use Rattle.std.specs.List.{flat_map};
ghost use Rattle.rv_gate.specs.Every.{Every};
ghost use Rattle.rv_mct.specs.inside.LadderLines.{Grown};

use crate::Aux;
use crate::block::flip_block;
use crate::gate::flips_of;
use rv_gate::{Circuit, Gate, MOST_LINES, Shape};
use std::alloc::AllocError;

fn add_flips(
    circuit: &mut Circuit,
    flips: &[Gate],
    aux: Aux,
    lines: u8,
    extra: u8,
) -> Result<(), AllocError>
    requires lines { length circuit.old.names ≡ lines + extra }
    requires few { lines + extra ≤ MOST_LINES }
    requires own { Every (IsFlipOn lines) flips.now }
    requires enough { greatest (flip_wish aux lines) flips.now ≤ extra }
    ensures { OnOk result (Grown circuit.old circuit.new (flat_map (flip_block aux lines extra) flips.now)) }
{
    for flip in flips {
        flip_block(circuit, aux, lines, extra, *flip)?;
    }
    Ok(())
}

fn add_block(
    circuit: &mut Circuit,
    gate: Gate,
    aux: Aux,
    lines: u8,
    extra: u8,
) -> Result<(), AllocError>
    requires lines { length circuit.old.names ≡ lines + extra }
    requires few { lines + extra ≤ MOST_LINES }
    requires fits { FitsIn gate lines }
    requires enough { wish aux lines gate ≤ extra }
    ensures { OnOk result (Grown circuit.old circuit.new (block_of aux lines extra gate)) }
{
    if let Shape::Flip { .. } = gate.shape() {
        flip_block(circuit, aux, lines, extra, gate)?;
        return Ok(());
    }
    let (flips, count) = flips_of(gate);
    add_flips(circuit, &flips[..count], aux, lines, extra)?;
    Ok(())
}

/// Adds what replaces the gates of a circuit of so many lines, to which so many were added.
pub(crate) fn add_decomposition(
    circuit: &mut Circuit,
    gates: &[Gate],
    aux: Aux,
    lines: u8,
    extra: u8,
) -> Result<(), AllocError>
    requires lines { length circuit.old.names ≡ lines + extra }
    requires few { lines + extra ≤ MOST_LINES }
    requires valid { All IsGate gates.now }
    requires fit { All (λ gate. FitsIn gate lines) gates.now }
    requires enough { added aux lines gates.now ≤ extra }
    ensures { OnOk result (Grown circuit.old circuit.new (decomposition_of aux lines extra gates.now)) }
{
    for gate in gates {
        add_block(circuit, *gate, aux, lines, extra)?;
    }
    Ok(())
}
