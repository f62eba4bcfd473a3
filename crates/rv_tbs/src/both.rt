// Synthesis on the inputs and the outputs.
ghost use Rattle.std.specs.Prelude.{◌≡◌, ◌^◌, ◌<◌, ◌++◌, IfOk, OnOk, All};
ghost use Rattle.rv_gate.specs.Gate.{FitsIn, IsFlip};
ghost use Rattle.rv_tbs.specs.Synthesis.{in_step_gates, applied_in, is_inward, sides, step, both_gates};

use super::outward::{outward_step, word_at};
use super::turn::turning_gates;
use rv_gate::Gate;
use rv_perm::Perm;
use std::alloc::{AllocError, Global};

// The gates of the circuit: those of the inputs as found, then those of the outputs reversed.
pub(crate) fn both_gates(alloc: Global, perm: &Perm) -> Result<Vec<Gate>, AllocError>
    ensures { IfOk result (λ v. v.items ≡ both_gates perm.now.lines perm.now.images) }
{
    let mut table = perm.copy()?;
    let mut ins = Vec::new(alloc);
    let mut outs = Vec::new(alloc);
    for k in 0..1u32 << perm.lines() {
        both_step(&mut table, k, &mut ins, &mut outs)?;
    }
    outs.reverse();
    ins.extend_from_slice(&outs)?;
    Ok(ins)
}

// Finds the gates of step `k`, and lets them act on the side where fewer places differ.
fn both_step(
    table: &mut Perm,
    k: u32,
    ins: &mut Vec<Gate>,
    outs: &mut Vec<Gate>,
) -> Result<(), AllocError>
    requires small { k < 2 ^ table.old.lines }
    ensures lines { table.new.lines ≡ table.old.lines }
    ensures found { OnOk result
        (sides table.new.images ins.new.items outs.new.items
        ≡ step is_inward table.old.lines k (sides table.old.images ins.old.items outs.old.items)) }
{
    if is_inward(table, k) {
        inward_step(table, k, ins)?;
        return Ok(());
    }
    outward_step(table, k, outs)?;
    Ok(())
}

// Whether the word that goes to `k` differs from `k` in fewer places than the image of `k`.
fn is_inward(table: &Perm, k: u32) -> bool
    requires { k < 2 ^ table.now.lines }
    ensures { result ≡ is_inward k table.now.images }
{
    (table.inverse_get(k) ^ k).count_ones() < (table.get(k) ^ k).count_ones()
}

// Finds the gates of step `k` for the inputs, and lets them act there.
fn inward_step(table: &mut Perm, k: u32, gates: &mut Vec<Gate>) -> Result<(), AllocError>
    requires small { k < 2 ^ table.old.lines }
    ensures lines { table.new.lines ≡ table.old.lines }
    ensures images { OnOk result
        (table.new.images
        ≡ applied_in (in_step_gates table.old.lines k table.old.images) table.old.lines table.old.images) }
    ensures gates { OnOk result (gates.new.items
        ≡ gates.old.items ++ in_step_gates table.old.lines k table.old.images) }
{
    let lines = table.lines();
    let start = gates.len();
    turning_gates(
        word_at(lines, k),
        word_at(lines, table.inverse_get(k)),
        gates,
    )?;
    apply_to_inputs(table, &gates[start..]);
    Ok(())
}

// Lets the gates act on the inputs, one after the other.
fn apply_to_inputs(table: &mut Perm, gates: &[Gate])
    requires flips { All (λ g. IsFlip g) gates.now }
    requires fits { All (λ g. FitsIn g table.old.lines) gates.now }
    ensures lines { table.new.lines ≡ table.old.lines }
    ensures images { table.new.images ≡ applied_in gates.now table.old.lines table.old.images }
{
    for gate in gates {
        table.apply_in(*gate);
    }
}
