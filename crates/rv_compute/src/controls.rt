// The controls by which a product of operands is read on lines.
ghost use Rattle.std.specs.Prelude.{◌≡◌, ◌≢◌, ◌<◌, ◌≤◌, ℕ, length};
ghost use Rattle.rv_gate.specs.declared.word.TheConstants.{MOST_LINES};
ghost use Rattle.rv_blif.specs.declared.product.TheConstants.{MOST_OPERANDS};
ghost use Rattle.rv_compute.specs.inside.Blocks.{AreControls, DoServe, IsWithLine, IsWithPlace, Serve};
ghost use Rattle.rv_compute.specs.inside.Places.{AreBeside, AreThere, IsBeside};

use crate::place::Place;
use rv_blif::{MOST_OPERANDS, Product};
use rv_gate::{LineSet, MOST_LINES, has};

/// The controls of a product: lines, with their wanted values; or none, since it never holds, or since an operand that
/// it asks for stands nowhere.
#[derive(Clone, Copy, Debug, PartialEq, Eq)]
pub(crate) enum Controls {
    Held { care: LineSet, want: LineSet },
    Never,
    Missing,
}

// A line more is asked for, which is to have this bit.
fn with_line(care: LineSet, want: LineSet, line: u8, bit: bool) -> Controls
    requires { line < MOST_LINES }
    ensures asks { IsWithLine care want line bit result }
    ensures serves { (lines target : ℕ) → line < lines → line ≢ target → Serve lines target care want
        → DoServe lines target result }
{
    let as_wanted = has(want, line) == bit;
    if has(care, line) {
        return if as_wanted {
            Controls::Held { care, want }
        } else {
            Controls::Never
        };
    }
    Controls::Held {
        care: care | 1 << line,
        want: if as_wanted { want } else { want ^ 1 << line },
    }
}

// What is read at a place is asked for, and is to be this bit.
fn with_place(lines: u8, care: LineSet, want: LineSet, place: Place, bit: bool) -> Controls
    requires { lines ≤ MOST_LINES }
    ensures asks { IsWithPlace lines care want place bit result }
    ensures serves { (target : ℕ) → IsBeside lines target place → Serve lines target care want
        → DoServe lines target result }
{
    match place {
        Place::Constant(value) => {
            if value == bit {
                Controls::Held { care, want }
            } else {
                Controls::Never
            }
        }
        Place::Line { line, on } => {
            if line < lines {
                with_line(care, want, line, bit == on)
            } else {
                Controls::Missing
            }
        }
    }
}

/// The controls of a product of operands at these places, on so many lines.
pub(crate) fn controls_of(lines: u8, product: Product, places: &[Option<Place>]) -> Controls
    requires lines { lines ≤ MOST_LINES }
    requires few { length places.now ≤ MOST_OPERANDS }
    ensures asks { AreControls lines places.now product result }
    ensures serves { (target : ℕ) → AreBeside lines target places.now → AreThere places.now
        → DoServe lines target result }
{
    let (mut care, mut want) = (0u64, 0u64);
    for i in 0..places.len() {
        if has(u64::from(product.care), i as u8) {
            let bit = has(u64::from(product.want), i as u8);
            let Some(place) = places[i] else {
                return Controls::Missing;
            };
            match with_place(lines, care, want, place, bit) {
                Controls::Held { care: c, want: w } => {
                    care = c;
                    want = w;
                }
                Controls::Never => return Controls::Never,
                Controls::Missing => return Controls::Missing,
            }
        }
    }
    Controls::Held { care, want }
}
