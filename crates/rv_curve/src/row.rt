ghost use Rattle.std.specs.Prelude.{◌≡◌, IfOk};
ghost use Rattle.rv_curve.specs.Row.{network_counts, row_of};

use rv_cost::{circuit_cost, net_cost};
use rv_gate::Circuit;
use rv_ladder::{RelativeFault, relative};
use rv_mct::Aux;
use std::alloc::{AllocError, Global};

/// What of a network is told.
#[derive(Clone, Copy)]
pub struct Counts {
    /// `T` and its inverse.
    pub t: u32,
    /// `Cx`.
    pub cnot: u32,
}

/// What a circuit costs, and how it was asked for.
#[derive(Clone, Copy)]
pub struct Row {
    pub lines: u8,
    /// Of the network of ladders over lines that hold 0, if it has few lines and operations enough.
    pub counts: Option<Counts>,
    pub quantum: u128,
    pub gates: u32,
    /// At most so many lines were asked for.
    pub most: u8,
    /// How long was searched.
    pub effort: u16,
}

fn network_counts(alloc: Global, circuit: &Circuit) -> Result<Option<Counts>, AllocError>
    ensures { IfOk result (λ counts. counts ≡ network_counts circuit.now) }
{
    match relative(alloc, circuit, Aux::Clean) {
        Ok(net) => {
            let cost = net_cost(&net);
            Ok(Some(Counts {
                t: cost.t,
                cnot: cost.cnot,
            }))
        }
        Err(RelativeFault::TooManyLines(_)) => Ok(None),
        Err(RelativeFault::TooManyOps(_)) => Ok(None),
        Err(RelativeFault::Mem) => Err(AllocError),
    }
}

/// The row of a circuit that was asked for on at most so many lines, with so much effort.
pub fn row_of(alloc: Global, most: u8, effort: u16, circuit: &Circuit) -> Result<Row, AllocError>
    ensures { IfOk result (λ row. row ≡ row_of most effort circuit.now) }
{
    let counts = network_counts(alloc, circuit)?;
    let cost = circuit_cost(circuit);
    Ok(Row {
        lines: cost.lines,
        counts,
        quantum: cost.quantum,
        gates: cost.gates,
        most,
        effort,
    })
}
