ghost use Rattle.std.specs.Prelude.{◌≡◌, ◌<◌};
ghost use Rattle.rv_gate.specs.Word.{has};

use crate::cube::MOST_INPUTS;

/// Whether a set of inputs or outputs of a cube has a place.
pub fn has(set: u16, place: u8) -> bool
    requires { place < MOST_INPUTS }
    ensures { result ≡ has set place }
{
    rv_gate::has(u64::from(set), place)
}
