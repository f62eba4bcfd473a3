// Circuits of plans, certified.
ghost use Rattle.std.specs.Prelude.{◌≡◌, ◌≤◌, length, IfOk, IfSome, IsTrue};
ghost use Rattle.rv_gate.specs.declared.circuit.TheConstants.{MOST_GATES};
ghost use Rattle.rv_gate.specs.declared.word.TheConstants.{MOST_LINES};
ghost use Rattle.rv_forms.specs.Computing.{Computes};
ghost use Rattle.rv_compute.specs.Computed.{Gives, IsComputedWithin};
ghost use Rattle.rv_compute.specs.inside.Computing.{IsWith};
ghost use Rattle.rv_compute.specs.inside.Held.{line_count};

use crate::run::{all_fit, circuit_with};
use rv_blif::Logic;
use rv_compare::{CompareFault, Comparison, compare_logic};
use rv_diagram::MOST_NODES;
use rv_forms::{computes, follows};
use rv_gate::{Circuit, MOST_GATES, MOST_LINES};
use rv_planner::{Plan, Plans};
use std::alloc::{AllocError, Global};

// Whether a circuit gives the network's outputs at each input word.
fn gives(alloc: Global, logic: &Logic, circuit: &Circuit) -> Result<bool, AllocError>
    ensures { IfOk result (λ same. IsTrue same → Gives logic.now circuit.now) }
{
    match compare_logic(alloc, circuit, logic, false, MOST_NODES as u32) {
        Ok(Comparison::Same) => Ok(true),
        Err(CompareFault::Mem) => Err(AllocError),
        _ => Ok(false),
    }
}

// Whether a plan's gates can be followed and their circuit gives the network's outputs.
fn is_compared(
    alloc: Global,
    logic: &Logic,
    plans: &Plans,
    plan: &Plan,
    circuit: &Circuit,
) -> Result<bool, AllocError>
    requires lines { line_count logic.now plan.now.work ≤ MOST_LINES }
    requires is { IsWith logic.now plan.now.work plan.now.gates.items circuit.now }
    ensures { IfOk result (λ done. IsTrue done → Computes logic.now plan.now.work plan.now.gates.items) }
{
    if plans.outs.len() != logic.output_count() as usize {
        return Ok(false);
    }
    let (terms, outs) = (&plans.terms, &plans.outs);
    let inputs = logic.input_count() as u8;
    if !follows(
        alloc,
        inputs,
        outs,
        plan.work,
        terms,
        &plan.gates,
        &plan.numbers,
    )? {
        return Ok(false);
    }
    let same = gives(alloc, logic, circuit)?;
    Ok(same)
}

// Whether a plan's gates compute the network: by its recipes, or where there are none by comparing.
fn is_certified(
    alloc: Global,
    logic: &Logic,
    plans: &Plans,
    plan: &Plan,
    circuit: &Circuit,
) -> Result<bool, AllocError>
    requires lines { line_count logic.now plan.now.work ≤ MOST_LINES }
    requires is { IsWith logic.now plan.now.work plan.now.gates.items circuit.now }
    ensures { IfOk result (λ done. IsTrue done → Computes logic.now plan.now.work plan.now.gates.items) }
{
    if plans.recipes.is_empty() {
        return is_compared(alloc, logic, plans, plan, circuit);
    }
    let (terms, recipes, outs) = (&plans.terms, &plans.recipes, &plans.outs);
    computes(
        alloc,
        logic,
        plan.work,
        terms,
        recipes,
        outs,
        &plan.gates,
        &plan.numbers,
    )
}

/// The circuit of a plan, if its gates compute the network.
pub(crate) fn certified(
    alloc: Global,
    logic: &Logic,
    extra: u8,
    plans: &Plans,
    plan: &Plan,
) -> Result<Option<Circuit>, AllocError>
    requires { line_count logic.now extra ≤ MOST_LINES }
    ensures { IfOk result (λ o. IfSome o (IsComputedWithin logic.now (line_count logic.now extra))) }
{
    if plan.work > extra || plan.gates.len() > MOST_GATES {
        return Ok(None);
    }
    let lines = logic.input_count() as u8 + logic.output_count() as u8 + plan.work;
    if !all_fit(&plan.gates, lines) {
        return Ok(None);
    }
    let gates = Vec::from_slice(alloc, &plan.gates)?;
    let circuit = circuit_with(alloc, logic, plan.work, gates)?;
    if !is_certified(alloc, logic, plans, plan, &circuit)? {
        return Ok(None);
    }
    Ok(Some(circuit))
}
