// Controls that the gates of a window have all or not at all. A search takes them for one line that no gate changes.
use crate::random::Random;
use rv_gate::{Gate, LineSet};

// The most of them, and the fewest of two gates.
const MOST_COMMON: u32 = 10;

const LEAST_COMMON: u32 = 2;

// So many gates are looked at for a partner, at most.
const PARTNERS: usize = 20;

/// Controls that each gate of a window has all or not at all.
#[derive(Clone, Copy)]
pub struct Common {
    /// Their lines.
    pub care: LineSet,
    /// Those of them that want 1.
    pub want: LineSet,
}

impl Common {
    /// No control at all.
    pub fn none() -> Common {
        Common { care: 0, want: 0 }
    }

    /// Whether there is no control.
    pub fn is_none(&self) -> bool {
        self.care == 0
    }

    pub(crate) fn size(&self) -> u32 {
        self.care.count_ones()
    }

    // Whether the gate has all of them.
    pub(crate) fn are_in(&self, gate: Gate) -> bool {
        gate.is_flip()
            && gate.controls() & self.care == self.care
            && gate.wanted() & self.care == self.want
    }

    /// Whether the gate has all of them, or touches none of their lines.
    pub fn suit(&self, gate: Gate) -> bool {
        gate.touched() & self.care == 0 || self.are_in(gate)
    }
}

// The controls of a wide flip but for a few.
fn most_of(gate: Gate, lines: u32, random: &mut Random) -> Common {
    let mut care = gate.controls();
    let first = random.below(64) as u32;
    for step in 0..64u32 {
        let line = (first + step) % 64;
        let free = (gate.controls() & !care).count_ones();
        if free + 2 < lines && care.count_ones() > LEAST_COMMON {
            care &= !(1 << line);
        }
    }
    Common {
        care,
        want: gate.wanted() & care,
    }
}

// The controls that two flips have in common, with the same wanted values.
fn shared(gate: Gate, other: Gate) -> Common {
    let care = gate.controls() & other.controls() & !(gate.wanted() ^ other.wanted());
    if !other.is_flip() || care.count_ones() < LEAST_COMMON {
        return Common::none();
    }
    Common {
        care,
        want: gate.wanted() & care,
    }
}

/// Chooses the common controls of a window on so many lines that begins with the first gate: some that it has, at most
/// ten, or none. Nothing is promised of the choice.
pub fn common_of(gates: &[Gate], lines: u32, random: &mut Random) -> Common {
    let Some(first) = gates.first() else {
        return Common::none();
    };
    let wide = first.touched().count_ones() > lines;
    if !first.is_flip() || !wide && random.below(3) != 0 {
        return Common::none();
    }
    let reach = 2 + random.below(PARTNERS);
    let mut common = Common::none();
    for place in 1..gates.len().min(reach) {
        let found = shared(*first, gates[place]);
        if !found.is_none() && (common.is_none() || random.below(2) == 0) {
            common = found;
        }
    }
    if common.is_none() && wide {
        common = most_of(*first, lines, random);
    }
    if common.size() > MOST_COMMON {
        return Common::none();
    }
    common
}
