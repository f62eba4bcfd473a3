// What the products of a form weigh.
use std::alloc::{AllocError, Global};

/// Of how many scales a search chooses.
pub const SCALES: usize = 6;

// What a product of each degree weighs, in each scale.
const DEGREES: [[u32; 9]; SCALES] = [
    [1; 9],
    [1; 9],
    [1, 1, 2, 4, 8, 16, 32, 64, 128],
    [2, 2, 5, 8, 11, 14, 17, 20, 23],
    [1, 1, 3, 6, 10, 14, 18, 22, 26],
    [1, 1, 2, 2, 3, 3, 4, 4, 5],
];

// Of the sum over a line the root is taken, in each scale.
const ROOTS: [bool; SCALES] = [true, false, false, false, false, true];

// The degrees that the place of a byte has among those of 256 bits.
const BYTE_DEGREES: usize = 6;

// A scale, by bytes: of each degree of a byte's place, what each byte weighs there.
#[derive(Drop)]
pub(crate) struct Scale {
    bytes: Vec<u32>,
    root: bool,
    plain: bool,
}

// What a byte weighs at a place of some degree.
fn byte_weight(degrees: &[u32; 9], place: usize, byte: usize) -> u32 {
    let mut sum = 0u32;
    for bit in 0..8u32 {
        if byte >> bit & 1 == 1 {
            let degree = place.saturating_add(bit.count_ones() as usize);
            sum = sum.wrapping_add(degrees[degree.min(8)]);
        }
    }
    sum
}

impl Scale {
    pub(crate) fn new(alloc: Global, number: usize) -> Result<Scale, AllocError> {
        let number = number % SCALES;
        let mut bytes = Vec::new(alloc);
        for place in 0..BYTE_DEGREES {
            for byte in 0..256 {
                bytes.push(byte_weight(&DEGREES[number], place, byte))?;
            }
        }
        Ok(Scale {
            bytes,
            root: ROOTS[number],
            plain: number < 2,
        })
    }

    #[inline(always)]
    fn byte(&self, place: usize, byte: u64) -> u32 {
        match self.bytes.get((place & 7) << 8 | (byte & 255) as usize) {
            Some(weight) => *weight,
            None => 0,
        }
    }

    // What the products of 64 words weigh, where the words have so many bits on further lines.
    #[inline(always)]
    pub(crate) fn weight(&self, form: u64, place: usize) -> u32 {
        if self.plain {
            return form.count_ones();
        }
        let (one, two) = (place.wrapping_add(1), place.wrapping_add(2));
        self.byte(place, form)
            .wrapping_add(self.byte(one, form >> 8))
            .wrapping_add(self.byte(one, form >> 16))
            .wrapping_add(self.byte(two, form >> 24))
            .wrapping_add(self.byte(one, form >> 32))
            .wrapping_add(self.byte(two, form >> 40))
            .wrapping_add(self.byte(two, form >> 48))
            .wrapping_add(self.byte(place.wrapping_add(3), form >> 56))
    }

    // What a line adds to the score.
    #[inline(always)]
    pub(crate) fn score(&self, weight: u32) -> u32 {
        if self.root {
            u64::from(weight).wrapping_mul(10_000).isqrt().min(1 << 30) as u32
        } else {
            weight
        }
    }
}
