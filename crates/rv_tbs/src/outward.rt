// Synthesis on the outputs alone.
ghost use Rattle.std.specs.Prelude.{◌≡◌, ◌^◌, ◌<◌, ◌≤◌, ◌++◌, map, IfOk, OnOk, All};
ghost use Rattle.rv_gate.specs.Word.{word_of};
ghost use Rattle.rv_gate.specs.Gate.{run_on_number, FitsIn, IsFlip};
ghost use Rattle.rv_tbs.specs.Synthesis.{step_gates, out_gates};

use super::turn::turning_gates;
use rv_gate::{Gate, MOST_LINES, Word};
use rv_perm::Perm;
use std::alloc::{AllocError, Global};

// The gates of the circuit: those of all steps, reversed.
pub(crate) fn outward_gates(alloc: Global, perm: &Perm) -> Result<Vec<Gate>, AllocError>
    ensures { IfOk result (λ v. v.items ≡ out_gates perm.now.lines perm.now.images) }
{
    let mut table = perm.copy()?;
    let mut gates = Vec::new(alloc);
    for k in 0..1u32 << perm.lines() {
        outward_step(&mut table, k, &mut gates)?;
    }
    gates.reverse();
    Ok(gates)
}

// Finds the gates of step `k`, and lets them act on the outputs.
pub(crate) fn outward_step(
    table: &mut Perm,
    k: u32,
    gates: &mut Vec<Gate>,
) -> Result<(), AllocError>
    requires small { k < 2 ^ table.old.lines }
    ensures lines { table.new.lines ≡ table.old.lines }
    ensures images { OnOk result
        (table.new.images
        ≡ map (run_on_number (step_gates table.old.lines k table.old.images) table.old.lines) table.old.images) }
    ensures gates { OnOk result (gates.new.items ≡ gates.old.items ++ step_gates table.old.lines k table.old.images) }
{
    let lines = table.lines();
    let start = gates.len();
    turning_gates(word_at(lines, k), word_at(lines, table.get(k)), gates)?;
    apply_to_outputs(table, &gates[start..]);
    Ok(())
}

// The word with the number.
pub(crate) fn word_at(lines: u8, number: u32) -> Word
    requires few { lines ≤ MOST_LINES }
    requires small { number < 2 ^ lines }
    ensures { result ≡ word_of lines number }
{
    match Word::new(lines, u64::from(number)) {
        Some(word) => word,
        None => unreachable!(),
    }
}

// Lets the gates act on all images.
fn apply_to_outputs(table: &mut Perm, gates: &[Gate])
    requires flips { All (λ g. IsFlip g) gates.now }
    requires fits { All (λ g. FitsIn g table.old.lines) gates.now }
    ensures lines { table.new.lines ≡ table.old.lines }
    ensures images { table.new.images ≡ map (run_on_number gates.now table.old.lines) table.old.images }
{
    for gate in gates {
        table.apply_out(*gate);
    }
    table.recall_invariant();
}
