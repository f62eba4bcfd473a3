ghost use Rattle.std.specs.Prelude.{◌≡◌, ◌≤◌, ◌+◌, ◌++◌, [], length, IfOk};
ghost use Rattle.rv_gate.specs.declared.word.TheConstants.{MOST_LINES};
ghost use Rattle.rv_net.specs.declared.net.TheConstants.{MOST_OPS};
ghost use Rattle.rv_alike.specs.Alike.{IsTold};
ghost use Rattle.rv_alike.specs.inside.Inverted.{inverted};

use crate::inverse::add_inverted;
use rv_gate::{Circuit, Names};
use rv_net::Net;
use rv_paths::have_same_sums;
use rv_reduce::reduce;
use rv_sums::{Finding, check_by_paths};
use std::alloc::{AllocError, Global};

// A circuit without gates.
fn no_gates(alloc: Global, lines: u8) -> Result<Circuit, AllocError>
    requires some { 1 ≤ lines }
    requires few { lines ≤ MOST_LINES }
    ensures gates { IfOk result (λ circuit. circuit.gates ≡ []) }
    ensures lines { IfOk result (λ circuit. length circuit.names ≡ lines) }
{
    let names = Names::numbered(alloc, b'x', lines)?;
    let circuit = Circuit::new(names)?;
    Ok(circuit)
}

// The operations of a network, and then what takes back those of another one.
fn after_inverse(alloc: Global, net: &Net, other: &Net) -> Result<Net, AllocError>
    requires lines { net.now.lines ≡ other.now.lines }
    requires few { length net.now.ops + length other.now.ops ≤ MOST_OPS }
    ensures { IfOk result (λ both. both ≡ record net.now { ops = net.now.ops ++ inverted other.now.ops }) }
{
    net.recall_invariant();
    other.recall_invariant();
    let mut ops = Vec::from_slice(alloc, net.ops())?;
    add_inverted(&mut ops, other.ops())?;
    Ok(Net::of_ops(net.lines(), ops))
}

/// Compares the amplitudes of two networks on as many lines, exactly: whether they are the same, or a word from which
/// they are not.
///
/// Both are reduced, and their sums over paths are matched. Where these aren't equal, what is left of one and the
/// inverse of the other is checked by its sum over paths.
pub fn compare_networks(alloc: Global, first: &Net, second: &Net) -> Result<Finding, AllocError>
    requires lines { first.now.lines ≡ second.now.lines }
    requires few { length first.now.ops + length second.now.ops ≤ MOST_OPS }
    ensures { IfOk result (IsTold first.now second.now) }
{
    first.recall_invariant();
    second.recall_invariant();
    let mine = reduce(alloc, first)?;
    let others = reduce(alloc, second)?;
    let lines = mine.lines();
    if have_same_sums(alloc, lines, mine.ops(), others.ops())? {
        return Ok(Finding::Same);
    }
    let both = after_inverse(alloc, &others, &mine)?;
    let left = reduce(alloc, &both)?;
    let circuit = no_gates(alloc, lines)?;
    let finding = check_by_paths(alloc, &circuit, &left)?;
    Ok(finding)
}
