// One walk over the operations of a network, which joins each phase gate to its class.
ghost use Rattle.std.specs.Prelude.{◌≡◌, ◌+◌, ◌%◌, ◌<◌, length, IfOk, OnOk};

use crate::classes::Classes;
use crate::parities::Parities;
use crate::phase::phase_gate;
use rv_net::Net;
use std::alloc::{AllocError, Global};

/// What is known before a place.
#[derive(Drop)]
pub(crate) struct Walk {
    parities: Parities,
    classes: Classes,
    // for each place the exponent that stands there: 0 but for the first phase gates of classes
    sums: Vec<u8>,
}

fn joined(sum: u8, exponent: u8) -> u8
    ensures { result ≡ (sum + exponent) % 8 }
{
    ((u16::from(sum) + u16::from(exponent)) % 8) as u8
}

impl Walk {
    ghost use Rattle.rv_fold.specs.inside.Standing.{AreSums, Stands};

    // Before the first operation of a network.
    fn new(alloc: Global, net: &Net) -> Result<Walk, AllocError>
        ensures { IfOk result (λ walk. Stands net.now 0 walk) }
    {
        let lines = net.lines();
        Ok(Walk {
            parities: Parities::new(alloc, lines)?,
            classes: Classes::new(alloc, lines, net.ops().len())?,
            sums: Vec::new(alloc),
        })
    }

    // Goes past the operation at a place.
    fn step(&mut self, net: &Net, place: usize) -> Result<(), AllocError>
        requires within { place < length net.now.ops }
        requires stands { Stands net.now place self.old }
        ensures { OnOk result (Stands net.now (place + 1) self.new) }
    {
        // what every network keeps: each operation fits
        net.recall_invariant();
        let op = net.ops()[place];
        self.sums.push(0)?;
        match phase_gate(op) {
            Some(phase) => {
                let parity = self.parities.parity(phase.line);
                let first = self.classes.first(parity, place)?;
                self.sums[first] = joined(self.sums[first], phase.exponent);
                Ok(())
            }
            None => {
                let restarted = self.parities.pass(op);
                self.classes.restart(restarted, place);
                Ok(())
            }
        }
    }

    /// For each place the exponent that stands there when all classes are joined: 0 but for their first phase gates.
    pub(crate) fn sums_of(alloc: Global, net: &Net) -> Result<Vec<u8>, AllocError>
        ensures { IfOk result (λ sums. AreSums net.now.lines net.now.ops (length net.now.ops) sums.items) }
    {
        let mut walk = Walk::new(alloc, net)?;
        for place in 0..net.ops().len() {
            walk.step(net, place)?;
        }
        Ok(walk.sums)
    }
}
