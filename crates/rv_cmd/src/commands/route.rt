ghost use Rattle.rv_cmd.specs.Commands.Route.{IsRouting, route_report};

use crate::making::OneInput;
use crate::product::Product;
use crate::refusals::too_many_gates;
use rv_faults::Refusal;
use rv_gate::Circuit;
use rv_real::RealReader;
use rv_route::{RouteFault, route};
use std::alloc::Global;

/// A circuit whose gates touch neighbouring lines alone, which does what a circuit does.
pub(crate) struct Route;

impl OneInput for Route {
    type Text = RealReader;

    ghost report = { λ command. route_report };

    ghost Means = { λ command. IsRouting };

    fn make(&self, alloc: Global, circuit: &Circuit) -> Result<Product, Refusal> {
        circuit.recall_invariant();
        match route(alloc, circuit) {
            Ok(routed) => {
                routed.recall_invariant();
                Ok(Product::Circuit(routed))
            }
            Err(RouteFault::TooManyGates(count)) => Err(too_many_gates(count)),
            Err(RouteFault::Mem) => Err(Refusal::OutOfMemory),
        }
    }
}
