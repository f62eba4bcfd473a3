ghost use Rattle.std.specs.Prelude.{◌≡◌};
ghost use Rattle.rv_cmd.specs.Commands.CheckNetworks.{AreUndecided, TellsNetworks, networks_differ, networks_limits};

use crate::commands::check::{told, told_finding};
use crate::making::TwoSearch;
use crate::product::Made;
use rv_alike::compare_networks;
use rv_check::Verdict;
use rv_faults::{InputFault, Refusal};
use rv_net::MOST_OPS;
use rv_qasm::{Program, QasmReader};
use std::alloc::Global;

/// Whether two networks do the same, by sums over paths.
pub(crate) struct OfNetworks;

impl TwoSearch for OfNetworks {
    type First = QasmReader;

    type Second = QasmReader;

    ghost limits = { λ command. networks_limits };

    ghost differs = { λ command. networks_differ };

    ghost Lacks = { λ command. AreUndecided };

    ghost Means = { λ command. TellsNetworks };

    fn tell(&self, alloc: Global, first: &Program, second: &Program) -> Result<Made, Refusal> {
        let (a, b) = (first.net(), second.net());
        a.recall_invariant();
        b.recall_invariant();
        let count = a.ops().len() + b.ops().len();
        if MOST_OPS < count {
            return Err(too_many_together(count as u32));
        }
        let (lines, others) = (a.lines(), b.lines());
        if lines != others {
            return Ok(told(lines, Verdict::Lines(lines, others)));
        }
        match compare_networks(alloc, a, b) {
            Ok(finding) => told_finding(lines, finding),
            Err(_) => Err(Refusal::OutOfMemory),
        }
    }
}

// Both networks together have so many operations.
fn too_many_together(count: u32) -> Refusal
    ensures { result ≡ Refusal.Refused 1 (InputFault.TooManyOps count MOST_OPS) }
{
    Refusal::Refused {
        input: 1,
        why: InputFault::TooManyOps {
            count,
            most: MOST_OPS as u32,
        },
    }
}
