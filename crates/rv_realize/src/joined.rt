// The T gates of a circuit, once equal phases are joined.
use rv_gate::Circuit;
use rv_ladder::relative;
use rv_mct::Aux;
use rv_net::{Net, Op};
use rv_turns::join_turns;
use std::alloc::Global;

// Circuits of more gates than these take too long.
const MOST_GATES: usize = 1 << 10;

fn t_count(net: &Net) -> u64 {
    let mut count = 0u64;
    for op in net.ops() {
        if matches!(op, Op::T(_) | Op::Tdg(_)) {
            count = count.wrapping_add(1);
        }
    }
    count
}

/// How many T gates the network of a circuit has in which large gates are ladders, once those of equal phases are
/// joined. None is told of a circuit of many gates.
pub(crate) fn joined_t(alloc: Global, circuit: &Circuit) -> Option<u64> {
    if circuit.gates().len() > MOST_GATES {
        return None;
    }
    let Ok(net) = relative(alloc, circuit, Aux::Borrowed) else {
        return None;
    };
    match join_turns(alloc, &net) {
        Ok(joined) => Some(t_count(&joined)),
        Err(_) => None,
    }
}
