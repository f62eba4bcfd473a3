// A plan run step by step, each step certified.
ghost use Rattle.std.specs.Prelude.{◌≡◌, ◌≤◌, length, IfOk, IfSome, IsTrue};
ghost use Rattle.rv_gate.specs.declared.circuit.TheConstants.{MOST_GATES};
ghost use Rattle.rv_gate.specs.declared.word.TheConstants.{MOST_LINES};
ghost use Rattle.rv_compute.specs.Computed.{IsComputedWithin};
ghost use Rattle.rv_compute.specs.inside.Held.{Stands, line_count};
ghost use Rattle.rv_compute.specs.inside.Computing.{IsWith};
ghost use Rattle.rv_compute.specs.inside.Blocks.{AreGates};
ghost use Rattle.rv_compute.specs.inside.Own.{Ended};

use crate::lines::logic_lines;
use crate::start::{first_held, is_done};
use crate::step::{Work, add, copy};
use rv_blif::Logic;
use rv_gate::{Circuit, Gate, MOST_GATES, MOST_LINES};
use rv_schedule::{Net, Plan, Step};
use std::alloc::{AllocError, Global};

/// Whether each gate fits so many lines.
pub(crate) fn all_fit(gates: &[Gate], lines: u8) -> bool
    ensures { IsTrue result → AreGates lines gates.now }
{
    for gate in gates {
        gate.recall_invariant();
        if !gate.fits(lines) {
            return false;
        }
    }
    true
}

// One step. `false` where it can't be.
fn run_step(
    alloc: Global,
    logic: &Logic,
    extra: u8,
    net: &Net,
    work: &mut Work,
    step: Step,
) -> Result<bool, AllocError>
    requires lines { line_count logic.now extra ≤ MOST_LINES }
    requires stands { Stands logic.now extra work.old.held.items work.old.gates.items }
    ensures { IfOk result (λ _. Stands logic.now extra work.new.held.items work.new.gates.items) }
{
    if step.is_copy {
        return copy(
            alloc,
            logic,
            extra,
            net.passes(),
            work,
            step.signal,
            step.line,
        );
    }
    let products = net.products_for(alloc, step.signal, step.start)?;
    add(
        alloc,
        logic,
        extra,
        net.passes(),
        work,
        step.signal,
        step.start,
        &products,
        step.line,
    )
}

// All steps. Nothing where one of them can't be.
fn run_steps(
    alloc: Global,
    logic: &Logic,
    extra: u8,
    net: &Net,
    steps: &[Step],
) -> Result<Option<Work>, AllocError>
    requires { line_count logic.now extra ≤ MOST_LINES }
    ensures { IfOk result (λ o. IfSome o (λ work. Stands logic.now extra work.held.items work.gates.items)) }
{
    let held = first_held(alloc, logic, extra)?;
    let gates = Vec::new(alloc);
    let mut work = Work { held, gates };
    for step in steps {
        if !run_step(alloc, logic, extra, net, &mut work, *step)? {
            return Ok(None);
        }
    }
    Ok(Some(work))
}

/// The circuit of a network's lines with gates.
pub(crate) fn circuit_with(
    alloc: Global,
    logic: &Logic,
    extra: u8,
    gates: Vec<Gate>,
) -> Result<Circuit, AllocError>
    requires lines { line_count logic.now extra ≤ MOST_LINES }
    requires few { length gates.items ≤ MOST_GATES }
    requires fit { AreGates (line_count logic.now extra) gates.items }
    ensures { IfOk result (IsWith logic.now extra gates.items) }
{
    let mut circuit = logic_lines(alloc, logic, extra)?;
    circuit.set_gates(gates);
    Ok(circuit)
}

/// The circuit of gates that end in what is due.
pub(crate) fn circuit_of(
    alloc: Global,
    logic: &Logic,
    extra: u8,
    gates: Vec<Gate>,
) -> Result<Circuit, AllocError>
    requires lines { line_count logic.now extra ≤ MOST_LINES }
    requires few { length gates.items ≤ MOST_GATES }
    requires ended { Ended logic.now extra gates.items }
    ensures { IfOk result (IsComputedWithin logic.now (line_count logic.now extra)) }
{
    let circuit = circuit_with(alloc, logic, extra, gates)?;
    Ok(circuit)
}

// The circuit, if each line holds what is due.
fn finished(
    alloc: Global,
    logic: &Logic,
    extra: u8,
    work: Work,
) -> Result<Option<Circuit>, AllocError>
    requires lines { line_count logic.now extra ≤ MOST_LINES }
    requires stands { Stands logic.now extra work.held.items work.gates.items }
    ensures { IfOk result (λ o. IfSome o (IsComputedWithin logic.now (line_count logic.now extra))) }
{
    let lines = logic.input_count() as u8 + logic.output_count() as u8 + extra;
    if !is_done(logic, &work.held) || work.gates.len() > MOST_GATES {
        return Ok(None);
    }
    if !all_fit(&work.gates, lines) {
        return Ok(None);
    }
    let circuit = circuit_of(alloc, logic, extra, work.gates)?;
    Ok(Some(circuit))
}

/// The circuit of a plan, if it is one.
pub(crate) fn certified(
    alloc: Global,
    logic: &Logic,
    net: &Net,
    plan: &Plan,
) -> Result<Option<Circuit>, AllocError>
    requires { line_count logic.now plan.now.extra ≤ MOST_LINES }
    ensures { IfOk result (λ o. IfSome o (IsComputedWithin logic.now (line_count logic.now plan.now.extra))) }
{
    match run_steps(alloc, logic, plan.extra, net, &plan.steps)? {
        Some(work) => finished(alloc, logic, plan.extra, work),
        None => Ok(None),
    }
}
