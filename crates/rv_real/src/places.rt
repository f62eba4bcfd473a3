ghost use Rattle.std.specs.Prelude.{◌≡◌, ◌<◌, ◌≤◌, ℕ, List, All, IfSome, length};
ghost use Rattle.rv_gate.specs.declared.word.TheConstants.{MOST_LINES};
ghost use Rattle.rv_gate.specs.Names.{AreNames};
ghost use Rattle.rv_real.specs.Header.{line_of_name};
ghost use Rattle.rv_real.specs.inside.Places.{key_of, AreBytes, ArePlaces};

use rv_gate::Names;

/// How many places a table has: a key each.
const PLACES: usize = 256;

/// The lines by their names, where these are short.
#[derive(Drop)]
pub(crate) struct Places {
    keys: [u32; PLACES],
    lines: [u8; PLACES],
}

// A short name as a number.
#[inline(always)]
fn key_of(name: &[u8]) -> u32
    ensures key { result ≡ key_of name.now }
    ensures bytes { 0 < result → AreBytes name.now }
{
    match name {
        [a] => 256 + u32::from(*a),
        [a, b] => (256 + u32::from(*a)) * 256 + u32::from(*b),
        [a, b, c] => ((256 + u32::from(*a)) * 256 + u32::from(*b)) * 256 + u32::from(*c),
        _ => 0,
    }
}

// The place of a key: by its last two bytes, so that names that end in numbers have each their own.
#[inline(always)]
fn place_of(key: u32) -> usize
    ensures { result < PLACES }
{
    let bytes = key.to_le_bytes();
    usize::from(bytes[1].wrapping_mul(10).wrapping_add(bytes[0]))
}

// The line that has the name.
#[inline(never)]
fn line_of_name(names: &Names, name: &[u8]) -> Option<u8>
    ensures exact { result ≡ line_of_name names.now name.now }
    ensures below { IfSome result (λ line. line < length names.now) }
{
    names.find(name)
}

impl Places {
    pub(crate) fn of(names: &Names) -> Places
        ensures { ArePlaces names.now result }
    {
        let mut places = Places::none();
        for line in 0..names.len() {
            let key = key_of(names.name(line));
            let place = place_of(key);
            places.keys[place] = key;
            places.lines[place] = line;
        }
        places
    }

    // No key.
    fn none() -> Places
        ensures { (names : List (List ℕ)) → ArePlaces names result }
    {
        Places {
            keys: [0; PLACES],
            lines: [0; PLACES],
        }
    }

    /// The line that has the name.
    #[inline(always)]
    pub(crate) fn find(&self, names: &Names, name: &[u8]) -> Option<u8>
        requires { ArePlaces names.now self.now }
        ensures exact { result ≡ line_of_name names.now name.now }
        ensures below { IfSome result (λ line. line < length names.now) }
    {
        names.recall_invariant();
        let key = key_of(name);
        let place = place_of(key);
        if key != 0 && self.keys[place] == key {
            return Some(self.lines[place]);
        }
        line_of_name(names, name)
    }
}
