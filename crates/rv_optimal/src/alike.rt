// Keys that a renaming of the lines leads to one another.
ghost use Rattle.std.specs.Prelude.{◌≡◌, ℕ, ◌<◌, ◌^◌, IsTrue};
ghost use Rattle.std.specs.List.{Contains};
ghost use Rattle.rv_many.specs.Square.{came_from, is_apart};
ghost use Rattle.rv_gate.specs.Word.{has};
ghost use Rattle.rv_optimal.specs.inside.Alike.{least, least_on, walk, swapped, Suits};

// Exchanges of a line with the next one that lead through all orders of four lines.
const WALK: [u8; 23] = [
    0, 1, 2, 0, 2, 1, 0, 2, 0, 1, 2, 0, 2, 1, 0, 2, 0, 1, 2, 0, 2, 1, 0,
];

// Which keys count as one.
#[derive(Clone, Copy)]
pub(crate) enum Alike {
    // Equal ones.
    Equal,
    // Those of four lines that a renaming of the lines leads to one another.
    Renamed,
}

// The bits, where each place in `mask` has exchanged its bit with the one `apart` places above it.
#[inline(always)]
fn exchanged(bits: u64, mask: u64, apart: u8) -> u64
    requires apart { apart < 64 }
    requires none_twice { IsTrue (is_apart mask apart) }
    ensures { (place : ℕ) → place < 64 → has result place ≡ has bits (came_from mask apart place) }
{
    let differ = (bits ^ bits >> apart) & mask;
    bits ^ differ ^ differ << apart
}

// The key on four lines, where a line and the next one exchange their names: bits of the numbers, and their places.
#[inline(always)]
fn swapped(line: u8, key: u64) -> u64
    ensures { result ≡ swapped line key }
{
    if line == 0 {
        let images = exchanged(key, 0x1111_1111_1111_1111, 1);
        return exchanged(images, 0x00F0_00F0_00F0_00F0, 4);
    }
    if line == 1 {
        let images = exchanged(key, 0x2222_2222_2222_2222, 1);
        return exchanged(images, 0x0000_FF00_0000_FF00, 8);
    }
    let images = exchanged(key, 0x4444_4444_4444_4444, 1);
    exchanged(images, 0x0000_0000_FFFF_0000, 16)
}

// The least of the keys to which renaming leads.
fn least_renamed(key: u64) -> u64
    ensures { result ≡ least_on walk key key }
{
    let mut least = key;
    let mut renamed = key;
    for line in WALK {
        renamed = swapped(line, renamed);
        least = least.min(renamed);
    }
    least
}

// Whether each number is still there when a line and the next one exchange their names.
fn stay(line: u8, moves: &[u64]) -> bool
    ensures { IsTrue result → (step : ℕ) → Contains moves.now step → Contains moves.now (swapped line step) }
{
    for step in moves {
        if !moves.contains(&swapped(line, *step)) {
            return false;
        }
    }
    true
}

impl Alike {
    // Which keys have circuits of as many gates, where each gate makes one of the moves.
    pub(crate) fn of(lines: u8, moves: &[u64]) -> Self
        ensures { Suits result lines moves.now }
    {
        if lines == 4 && stay(0, moves) && stay(1, moves) && stay(2, moves) {
            Alike::Renamed
        } else {
            Alike::Equal
        }
    }

    // The least of the keys that are alike.
    pub(crate) fn least(self, key: u64) -> u64
        ensures { result ≡ least self key }
    {
        match self {
            Alike::Equal => key,
            Alike::Renamed => least_renamed(key),
        }
    }
}
