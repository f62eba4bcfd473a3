ghost use Rattle.std.specs.Prelude.{◌≡◌, ℕ, ◌+◌, ◌^◌, ◌<◌, ◌≤◌, List, [], ◌∷◌, length, slice_index, if◌then◌else◌};
ghost use Rattle.rv_gate.specs.Word.{has};
ghost use Rattle.rv_cost.specs.declared.levels.TheConstants.{LINES};

use rv_gate::{LineSet, MOST_LINES};

const LINES: usize = MOST_LINES as usize;

/// The levels of what was added so far, as one number a line: the greatest level on it.
#[derive(Drop)]
pub(crate) struct Levels {
    tops: [u32; LINES],
    depth: u32,
    ghost sized: { length tops ≡ LINES },
    ghost bounded: { (line : ℕ) → line < LINES → slice_index tops line ≤ depth },
}

// The tops get another one on the lines of a set.
fn raise(tops: &mut [u32; LINES], lines: LineSet, level: u32)
    requires { length tops.old ≡ LINES }
    ensures sized { length tops.new ≡ LINES }
    ensures each { (line : ℕ) → line < LINES
        → slice_index tops.new line ≡ (if has lines line then level else slice_index tops.old line) }
{
    let mut left = lines;
    while left != 0 {
        let line = left.trailing_zeros();
        tops[line as usize] = level;
        left &= !(1 << line);
    }
}

impl Levels {
    ghost use Rattle.rv_cost.specs.Levels.{Task, highest_on, schedule_of};
    ghost use Rattle.rv_cost.specs.inside.Tops.{IsLevelled};

    /// Nothing is added.
    pub(crate) fn new() -> Levels
        ensures none { IsLevelled result [] }
        ensures low { result.depth ≡ 0 }
    {
        Levels {
            tops: [0; LINES],
            depth: 0,
        }
    }

    /// The greatest level.
    pub(crate) fn depth(&self) -> u32
        ensures { result ≡ self.now.depth }
    {
        self.depth
    }

    // The greatest level on the lines of a set.
    fn highest_on(&self, lines: LineSet) -> u32
        ensures value { (tasks : List Task) → IsLevelled self.now tasks
            → result ≡ highest_on (schedule_of tasks) lines }
        ensures few { result ≤ self.now.depth }
    {
        let mut highest = 0u32;
        let mut left = lines;
        while left != 0 {
            let line = left.trailing_zeros();
            highest = highest.max(self.tops[line as usize]);
            left &= !(1 << line);
        }
        highest
    }

    /// Adds a gate or an operation, so many steps above the earlier ones that share a line with it.
    pub(crate) fn add(&mut self, lines: LineSet, steps: u32)
        requires { self.old.depth + steps < 2 ^ 32 }
        ensures added { (tasks : List Task) → IsLevelled self.old tasks
            → IsLevelled self.new (record { lines = lines; steps = steps } ∷ tasks) }
        ensures few { self.new.depth ≤ self.old.depth + steps }
    {
        let level = self.highest_on(lines) + steps;
        self.depth = self.depth.max(level);
        raise(&mut self.tops, lines, level);
    }
}
