ghost use Rattle.std.specs.Prelude.{◌≡◌};
ghost use Rattle.rv_cmd.specs.Commands.Check.{IsUndecidedByPaths, paths_limits};
ghost use Rattle.rv_cmd.specs.Commands.CheckConstants.{TellsFrom, differs_from};

use crate::commands::check::{told, told_finding};
use crate::making::TwoSearch;
use crate::product::Made;
use rv_check::Verdict;
use rv_faults::Refusal;
use rv_gate::Circuit;
use rv_qasm::{Program, QasmReader};
use rv_real::RealReader;
use rv_sums::check_from_constants;
use std::alloc::Global;

/// Whether a network does what a circuit does from the words that hold its constants, by sums over paths.
pub(crate) struct FromConstants;

impl TwoSearch for FromConstants {
    type First = RealReader;

    type Second = QasmReader;

    ghost limits = { λ command. paths_limits };

    ghost differs = { λ command. differs_from };

    ghost Lacks = { λ command. IsUndecidedByPaths };

    ghost Means = { λ command. TellsFrom };

    fn tell(&self, alloc: Global, circuit: &Circuit, program: &Program) -> Result<Made, Refusal> {
        let net = program.net();
        let (circuit_lines, lines) = (circuit.line_count(), net.lines());
        if circuit_lines != lines {
            return Ok(told(lines, Verdict::Lines(circuit_lines, lines)));
        }
        match check_from_constants(alloc, circuit, net) {
            Ok(finding) => told_finding(lines, finding),
            Err(_) => Err(Refusal::OutOfMemory),
        }
    }
}
