// Flips, and pairs of them that cancel.
use crate::layout::{is_in, set_of};
use crate::lists::{at, put_at};
use crate::order::NONE;
use rv_gate::LineSet;
use std::alloc::{AllocError, Global};

/// A flip, and the number of the product that it adds.
#[derive(Clone, Copy)]
pub(crate) struct Flip {
    pub(crate) care: LineSet,
    pub(crate) want: LineSet,
    pub(crate) target: u8,
    pub(crate) number: u32,
}

impl Flip {
    pub(crate) fn not(line: usize) -> Flip {
        Flip {
            care: 0,
            want: 0,
            target: (line % 64) as u8,
            number: NONE,
        }
    }

    pub(crate) fn cnot(from: usize, to: usize) -> Flip {
        Flip {
            care: set_of(from),
            want: set_of(from),
            target: (to % 64) as u8,
            number: NONE,
        }
    }

    fn is(&self, other: &Flip) -> bool {
        self.care == other.care
            && self.want == other.want
            && self.target == other.target
            && self.number == other.number
    }

    // Whether the one doesn't see the other.
    fn commutes(&self, other: &Flip) -> bool {
        !is_in(other.care, usize::from(self.target)) && !is_in(self.care, usize::from(other.target))
    }
}

// The equal flip that meets the one at a place.
fn partner_of(flips: &[Flip], gone: &[bool], place: usize) -> Option<usize> {
    let flip = at(flips, place, Flip::not(0));
    for other in place.saturating_add(1)..flips.len() {
        if !at(gone, other, false) {
            let there = at(flips, other, flip);
            if flip.is(&there) {
                return Some(other);
            }
            if !flip.commutes(&there) {
                return None;
            }
        }
    }
    None
}

// One pass: the flips that are left, and whether some are gone.
fn pass(alloc: Global, flips: &[Flip]) -> Result<(Vec<Flip>, bool), AllocError> {
    let mut gone = vec![in alloc; false; flips.len()]?;
    let mut any = false;
    for place in 0..flips.len() {
        if !at(&gone, place, false) {
            if let Some(other) = partner_of(flips, &gone, place) {
                put_at(&mut gone, place, true);
                put_at(&mut gone, other, true);
                any = true;
            }
        }
    }
    let mut left = Vec::new(alloc);
    for place in 0..flips.len() {
        if !at(&gone, place, false) {
            left.push(at(flips, place, Flip::not(0)))?;
        }
    }
    Ok((left, any))
}

/// The flips without pairs of equal ones that meet.
pub(crate) fn cancelled(alloc: Global, flips: Vec<Flip>) -> Result<Vec<Flip>, AllocError> {
    let mut flips = flips;
    for _ in 0..flips.len() {
        let (left, any) = pass(alloc, &flips)?;
        flips = left;
        if !any {
            return Ok(flips);
        }
    }
    Ok(flips)
}
