// A flip too wide for a window, over a line that it doesn't touch.
use rv_gate::{Gate, LineSet, Shape};
use std::alloc::{AllocError, Global};

// How many controls such a flip has.
const LEAST: u32 = 8;

const MOST: u32 = 14;

// The lowest lines of a set, so many.
fn lowest(set: LineSet, count: u32) -> LineSet {
    let mut low = 0u64;
    for line in 0..64u32 {
        if set >> line & 1 == 1 && low.count_ones() < count {
            low |= 1 << line;
        }
    }
    low
}

/// Four flips with about half of its controls, of which two are of a line that ends as it began. They may do the same;
/// nothing is promised of them. Others than flips with 8 to 14 controls that leave one of the lines free have none.
pub fn thinned(alloc: Global, gate: Gate, lines: u8) -> Result<Option<Vec<Gate>>, AllocError> {
    let Shape::Flip { care, want, target } = gate.shape() else {
        return Ok(None);
    };
    let controls = care.count_ones();
    let free = !(care | 1 << (target % 64));
    let helper = free.trailing_zeros();
    if controls < LEAST || controls > MOST || helper >= u32::from(lines.min(64)) {
        return Ok(None);
    }
    let low = lowest(care, controls / 2 + 1);
    let place = 1u64 << (helper % 64);
    let inner = Gate::flip(low, want & low, (helper % 64) as u8);
    let outer = Gate::flip(care & !low | place, want & !low | place, target);
    let (Some(inner), Some(outer)) = (inner, outer) else {
        return Ok(None);
    };
    let mut gates = Vec::new(alloc);
    for gate in [outer, inner, outer, inner] {
        gates.push(gate)?;
    }
    Ok(Some(gates))
}
