// Coordinates of sets in a basis of their sums.
use crate::common::{at, bit, has, put_at, sum_of};
use std::alloc::{AllocError, Global};

/// The sets of the basis; and of each line a sum of them whose highest line it is, with the coordinates of that.
#[derive(Drop)]
pub(crate) struct Basis {
    sets: Vec<u64>,
    sums: Vec<u64>,
    coordinates: Vec<u64>,
}

impl Basis {
    pub(crate) fn new(alloc: Global) -> Result<Basis, AllocError> {
        let sums = vec![in alloc; 0; 64]?;
        let coordinates = vec![in alloc; 0; 64]?;
        Ok(Basis {
            sets: Vec::new(alloc),
            sums,
            coordinates,
        })
    }

    pub(crate) fn len(&self) -> usize {
        self.sets.len()
    }

    fn extend(&mut self, set: u64, line: usize, sum: u64, known: u64) -> Result<u64, AllocError> {
        let fresh = bit(self.sets.len());
        self.sets.push(set)?;
        put_at(&mut self.sums, line, sum);
        put_at(&mut self.coordinates, line, known ^ fresh);
        Ok(fresh)
    }

    /// The coordinates of a set, which joins the basis if it is no sum of others.
    pub(crate) fn coordinates_of(&mut self, set: u64) -> Result<u64, AllocError> {
        let (mut left, mut known) = (set, 0u64);
        for line in (0..64).rev() {
            if has(left, line) {
                let sum = at(&self.sums, line, 0);
                if sum == 0 {
                    return self.extend(set, line, left, known);
                }
                left ^= sum;
                known ^= at(&self.coordinates, line, 0);
            }
        }
        Ok(known)
    }

    /// The set of coordinates.
    pub(crate) fn set_of(&self, coordinates: u64) -> u64 {
        sum_of(&self.sets, coordinates)
    }
}
