// The regions of operations: each stands in the first one that it can be moved to.
use crate::common::{at, bit, has, put_at};
use rv_net::Op;
use std::alloc::{AllocError, Global};

/// The place of an operation, and its region; an `H` stands after the region's others.
#[derive(Clone, Copy)]
pub(crate) struct Placed {
    pub(crate) region: usize,
    pub(crate) place: usize,
    pub(crate) is_cut: bool,
    pub(crate) op: Op,
}

// Of each line the first region for what reads it, and for what writes it.
#[derive(Drop)]
struct Levels {
    for_readers: Vec<usize>,
    for_writers: Vec<usize>,
}

fn reads(op: Op) -> u64 {
    match op {
        Op::X(_) => 0,
        Op::Cx(a, _) => bit(usize::from(a)),
        Op::Cz(a, b) | Op::Swap(a, b) => bit(usize::from(a)) | bit(usize::from(b)),
        Op::Y(q) | Op::Z(q) | Op::H(q) | Op::S(q) | Op::Sdg(q) | Op::T(q) | Op::Tdg(q) => {
            bit(usize::from(q))
        }
        Op::Ccx(_, _, _) | Op::Cswap(_, _, _) => u64::MAX,
    }
}

fn writes(op: Op) -> u64 {
    match op {
        Op::X(q) | Op::Y(q) | Op::H(q) => bit(usize::from(q)),
        Op::Cx(_, b) => bit(usize::from(b)),
        Op::Swap(a, b) => bit(usize::from(a)) | bit(usize::from(b)),
        Op::Z(_) | Op::S(_) | Op::Sdg(_) | Op::T(_) | Op::Tdg(_) | Op::Cz(_, _) => 0,
        Op::Ccx(_, _, _) | Op::Cswap(_, _, _) => u64::MAX,
    }
}

fn is_cut(op: Op) -> bool {
    match op {
        Op::H(_) => true,
        _ => false,
    }
}

impl Levels {
    fn new(alloc: Global) -> Result<Levels, AllocError> {
        Ok(Levels {
            for_readers: vec![in alloc; 0; 64]?,
            for_writers: vec![in alloc; 0; 64]?,
        })
    }

    // The first region of what reads and writes these lines.
    fn first(&self, reads: u64, writes: u64) -> usize {
        let mut region = 0usize;
        for line in 0..64 {
            if has(reads, line) {
                region = region.max(at(&self.for_readers, line, 0));
            }
            if has(writes, line) {
                region = region.max(at(&self.for_writers, line, 0));
            }
        }
        region
    }

    // What reads and writes these lines stands before a region, or in it.
    fn note(&mut self, reads: u64, writes: u64, region: usize) {
        for line in 0..64 {
            if has(writes, line) {
                let first = region.max(at(&self.for_readers, line, 0));
                put_at(&mut self.for_readers, line, first);
            }
            if has(reads, line) {
                let first = region.max(at(&self.for_writers, line, 0));
                put_at(&mut self.for_writers, line, first);
            }
        }
    }

    fn place(&mut self, op: Op, place: usize) -> Placed {
        let region = self.first(reads(op), writes(op));
        let is_cut = is_cut(op);
        let after = region.saturating_add(usize::from(is_cut));
        self.note(reads(op), writes(op), after);
        Placed {
            region,
            place,
            is_cut,
            op,
        }
    }
}

/// The operations by region, in each of them its `H` last.
pub(crate) fn place_all(alloc: Global, ops: &[Op]) -> Result<Vec<Placed>, AllocError> {
    let mut levels = Levels::new(alloc)?;
    let mut list = Vec::with_capacity(alloc, ops.len())?;
    for place in 0..ops.len() {
        list.push(levels.place(ops[place], place))?;
    }
    list.sort_unstable_by_key(|placed| (placed.region, placed.is_cut, placed.place));
    Ok(list)
}
