use crate::Goal;
use crate::measuring::{most_controls, toffolis};
use rv_gate::{Gate, MOST_LINES, Shape};

/// What gates cost in a search. They decide what is tried, and nothing is promised of them.
#[derive(Clone, Copy)]
pub struct Prices {
    /// What is to be small.
    pub goal: Goal,
    /// The lines of the gates, with one that is added if a gate lacks it.
    pub lines: u8,
    /// Whether a beam passes over what cannot end below its bound.
    pub bounded: bool,
}

impl Prices {
    // What a flip with so many controls costs. Of circuits with as many T gates one of fewer gates is cheaper.
    pub(crate) fn flip(&self, controls: u32) -> u32 {
        match self.goal {
            Goal::Quantum => {
                if controls < 2 {
                    return 1;
                }
                (1u32 << (controls.min(20) + 1)).saturating_sub(3)
            }
            Goal::T => {
                let lines = self.lines.min(MOST_LINES + 1);
                let controls = controls.min(u32::from(MOST_LINES)) as u8;
                toffolis(lines, controls).wrapping_mul(8).wrapping_add(1)
            }
            Goal::Gates => 1,
        }
    }

    /// What a gate costs.
    pub fn gate(&self, gate: Gate) -> u32 {
        match gate.shape() {
            Shape::Flip { .. } => self.flip(u32::from(most_controls(gate))),
            Shape::Swap { .. } => match self.goal {
                Goal::Gates => 1,
                _ => self.flip(u32::from(most_controls(gate))).saturating_add(2),
            },
            Shape::Peres { .. } => self.peres(),
        }
    }

    /// What some gates cost.
    pub fn gates(&self, gates: &[Gate]) -> u64 {
        let mut sum = 0u64;
        for gate in gates {
            sum = sum.saturating_add(u64::from(self.gate(*gate)));
        }
        sum
    }

    // What of their cost the goal counts.
    fn counted(&self, gates: &[Gate]) -> u64 {
        let Goal::T = self.goal else {
            return self.gates(gates);
        };
        let mut sum = 0u64;
        for gate in gates {
            sum = sum.saturating_add(u64::from(self.gate(*gate) / 8));
        }
        sum
    }

    /// Whether some gates are as good as others.
    pub fn are_as_good(&self, new: &[Gate], old: &[Gate]) -> bool {
        let (counted, before) = (self.counted(new), self.counted(old));
        counted < before || counted == before && self.gates(new) <= self.gates(old)
    }

    pub(crate) fn peres(&self) -> u32 {
        match self.goal {
            Goal::Quantum => 4,
            Goal::T => 9,
            Goal::Gates => 1,
        }
    }
}
