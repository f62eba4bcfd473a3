// The flips of each region.
use crate::common::{add, at, part, put_at};
use std::alloc::{AllocError, Global};

/// A line is added to another one.
#[derive(Clone, Copy)]
pub(crate) struct Flip {
    pub(crate) control: u8,
    pub(crate) target: u8,
}

pub(crate) const NO_FLIP: Flip = Flip {
    control: 0,
    target: 0,
};

/// The flips of all regions, and where those of each end.
#[derive(Drop)]
pub(crate) struct Plan {
    pub(crate) flips: Vec<Flip>,
    ends: Vec<usize>,
}

impl Plan {
    pub(crate) fn new(alloc: Global) -> Plan {
        Plan {
            flips: Vec::new(alloc),
            ends: Vec::new(alloc),
        }
    }

    pub(crate) fn copy(&self) -> Result<Plan, AllocError> {
        Ok(Plan {
            flips: self.flips.clone()?,
            ends: self.ends.clone()?,
        })
    }

    pub(crate) fn push(&mut self, control: u8, target: u8) -> Result<(), AllocError> {
        add(&mut self.flips, Flip { control, target })
    }

    /// A region ends here.
    pub(crate) fn close(&mut self) -> Result<(), AllocError> {
        add(&mut self.ends, self.flips.len())
    }

    pub(crate) fn len(&self) -> usize {
        self.flips.len()
    }

    pub(crate) fn flip(&self, place: usize) -> Flip {
        at(&self.flips, place, NO_FLIP)
    }

    pub(crate) fn start(&self, region: usize) -> usize {
        if region == 0 {
            0
        } else {
            at(&self.ends, region.wrapping_sub(1), self.flips.len())
        }
    }

    pub(crate) fn end(&self, region: usize) -> usize {
        at(&self.ends, region, self.flips.len())
    }

    /// Moves the end of a region.
    pub(crate) fn set_end(&mut self, region: usize, end: usize) {
        put_at(&mut self.ends, region, end);
    }

    /// The flips of a region.
    pub(crate) fn of_region(&self, region: usize) -> &[Flip] {
        part(&self.flips, self.start(region), self.end(region))
    }

    /// The region of the flip at a place.
    pub(crate) fn region_of(&self, place: usize) -> usize {
        let (mut low, mut high) = (0usize, self.ends.len());
        for _ in 0..64 {
            if low < high {
                let middle = low.wrapping_add(high) / 2;
                if self.end(middle) <= place {
                    low = middle.wrapping_add(1);
                } else {
                    high = middle;
                }
            }
        }
        low
    }

    /// Leaves out so many flips of a region, from a place on.
    pub(crate) fn leave_out(&mut self, region: usize, place: usize, count: usize) {
        let left = self.flips.len().saturating_sub(count);
        for to in place..left {
            let flip = self.flip(to.wrapping_add(count));
            put_at(&mut self.flips, to, flip);
        }
        self.flips.truncate(left);
        for later in region..self.ends.len() {
            let end = self.end(later).saturating_sub(count);
            put_at(&mut self.ends, later, end);
        }
    }
}
