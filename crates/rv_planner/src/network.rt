// A logic network by products.
use crate::chains::Chains;
use crate::cover::push_node;
use crate::fewer::fewer;
use crate::form::Form;
use crate::net::Net;
use crate::signs::{best_signs, signed};
use rv_blif::Logic;
use std::alloc::{AllocError, Global};

/// The outputs of a logic network by fewer products, as far as they are found.
pub(crate) fn fewer_of(
    alloc: Global,
    logic: &Logic,
    seed: u16,
    effort: u32,
) -> Result<Net, AllocError> {
    let mut chains = Chains::new(alloc)?;
    let plain = signed_net_of(alloc, logic, &mut chains, &[])?;
    if plain.is_full {
        return Ok(plain);
    }
    let few = fewer(alloc, &plain, seed, effort)?;
    let signs = best_signs(alloc, &few)?;
    signed(alloc, &few, &signs)
}

/// The products of a logic network.
pub(crate) fn net_of(alloc: Global, logic: &Logic) -> Result<Net, AllocError> {
    let mut chains = Chains::new(alloc)?;
    let plain = signed_net_of(alloc, logic, &mut chains, &[])?;
    let signs = best_signs(alloc, &plain)?;
    signed_net_of(alloc, logic, &mut chains, &signs)
}

// The products of a logic network, with signs for their factors.
fn signed_net_of(
    alloc: Global,
    logic: &Logic,
    chains: &mut Chains,
    signs: &[u8],
) -> Result<Net, AllocError> {
    let mut net = Net::new(alloc, logic.input_count() as usize);
    net.set_signs(signs)?;
    for input in 0..net.inputs {
        net.push_signal(Form::of(input))?;
    }
    for node in logic.nodes() {
        push_node(alloc, &mut net, chains, node)?;
    }
    for output in logic.outputs() {
        let form = net.signal(output.signal());
        net.push_out(form)?;
    }
    Ok(net)
}
