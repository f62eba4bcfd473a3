ghost use Rattle.std.specs.Prelude.{◌≡◌, ◌≤◌, ◌++◌, ◌∷◌, [], IfOk, OnOk};
ghost use Rattle.rv_net.specs.Op.{OpFitsIn};
ghost use Rattle.rv_gate.specs.declared.word.TheConstants.{MOST_LINES};
ghost use Rattle.rv_angles.specs.Ops.{ops_on};
ghost use Rattle.rv_import.specs.declared.call.Call.{Call};
ghost use Rattle.rv_import.specs.Calls.{call_ops, IsExactNet, IsRight, qubits_in};

use crate::call::{Call, Qubits, qubits_of};
use crate::fault::CallFault;
use rv_angles::{Form, Gate, form_of, ops_on};
use rv_net::{Net, Op, OpFault};
use std::alloc::{AllocError, Global};

fn push(net: &mut Net, op: Op) -> Result<(), CallFault>
    ensures ops { OnOk result (net.new ≡ record net.old { ops = net.old.ops ++ op ∷ [] }) }
    ensures fits { OnOk result (OpFitsIn op net.old.lines) }
{
    if !op.fits(net.lines()) {
        return Err(CallFault::WrongQubits);
    }
    match net.push(op) {
        Ok(()) => Ok(()),
        Err(OpFault::TooManyOps) => Err(CallFault::TooManyOps),
        Err(OpFault::Mem) => Err(CallFault::Mem),
    }
}

fn push_all(net: &mut Net, ops: &[Op]) -> Result<(), CallFault>
    ensures { OnOk result (net.new ≡ record net.old { ops = net.old.ops ++ ops.now }) }
{
    for op in ops {
        push(net, *op)?;
    }
    Ok(())
}

// The operations of a form on qubits.
fn form_ops(alloc: Global, form: Form, qubits: Qubits) -> Result<Vec<Op>, AllocError>
    ensures { IfOk result (λ ops. ops.items ≡ ops_on form (qubits_in qubits)) }
{
    match qubits {
        Qubits::One(a) => ops_on(alloc, form, &[a]),
        Qubits::Two(a, b) => ops_on(alloc, form, &[a, b]),
        Qubits::Three(a, b, c) => ops_on(alloc, form, &[a, b, c]),
    }
}

fn add_form(alloc: Global, net: &mut Net, form: Form, qubits: Qubits) -> Result<(), CallFault>
    ensures { OnOk result (net.new ≡ record net.old { ops = net.old.ops ++ ops_on form (qubits_in qubits) }) }
{
    let ops = form_ops(alloc, form, qubits)?;
    push_all(net, ops.as_slice())
}

fn add_standard(alloc: Global, net: &mut Net, gate: Gate, qubits: Qubits) -> Result<(), CallFault>
    ensures ops { OnOk result
        (net.new ≡ record net.old { ops = net.old.ops ++ call_ops (Call.Standard gate qubits) }) }
    ensures right { OnOk result (IsRight net.old.lines (Call.Standard gate qubits)) }
{
    let Some(form) = form_of(gate) else {
        return Err(CallFault::NoForm);
    };
    if qubits.count() != qubits_of(gate) || !qubits.are_apart(net.lines()) {
        return Err(CallFault::WrongQubits);
    }
    add_form(alloc, net, form, qubits)
}

/// Adds the operations of a call to a network.
pub fn add(alloc: Global, net: &mut Net, call: Call) -> Result<(), CallFault>
    ensures ops { OnOk result (net.new ≡ record net.old { ops = net.old.ops ++ call_ops call }) }
    ensures right { OnOk result (IsRight net.old.lines call) }
{
    match call {
        Call::Plain(op) => push(net, op),
        Call::Standard(gate, qubits) => add_standard(alloc, net, gate, qubits),
    }
}

/// The network of calls on so many lines.
pub fn net_of(alloc: Global, lines: u8, calls: &[Call]) -> Result<Net, CallFault>
    requires some { 1 ≤ lines }
    requires few { lines ≤ MOST_LINES }
    // Its amplitudes are exactly those of the calls, one after another.
    ensures { IfOk result (λ net. IsExactNet lines calls.now net) }
{
    let mut net = Net::new(alloc, lines);
    for call in calls {
        add(alloc, &mut net, *call)?;
    }
    Ok(net)
}
