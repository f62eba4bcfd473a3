// What says of most inputs at once that no slot has them.
ghost use Rattle.std.specs.Prelude.{◌≡◌, ◌<◌, ◌==◌, ℕ, false, IfOk, if◌then◌else◌};
ghost use Rattle.rv_cube.specs.inside.Slots.{key_of};
ghost use Rattle.rv_cube.specs.inside.Filter.{filter_place, count_at, one_more, one_less};

use rv_pla::Cube;
use std::alloc::{AllocError, Global};
use std::marker::Model;

pub(crate) const PLACES: u32 = 524288;

/// Counts of the inputs that lead to a slot, by their places: where it is 0 none do, and where it is 1 no two do. The
/// inputs of each cube have a place, which others may share.
#[derive(Drop)]
pub(crate) struct Filter {
    // 2 stands for any number, and stays
    counts: Vec<u8>,
}

impl Model for Filter {
    ghost use Rattle.std.specs.Prelude.{◌≡◌, ℕ, List, length};
    ghost use Rattle.rv_cube.specs.declared.filter.TheConstants.{PLACES};

    ghost Value = { List ℕ };

    ghost view = { λ f. f.counts.items };

    ghost invariant = { λ f. length f.counts.items ≡ PLACES };
}

/// The place of a cube's inputs. Inputs change it by an exclusive or, whatever the cube. Up to 12 inputs as few share a
/// place as can be.
#[inline(always)]
#[tactic(auto, using(crate::proofs::inside::Probes::place_within), unfolding(crate::specs::inside::Filter::filter_place))]
pub(crate) fn filter_place(cube: Cube) -> u32
    ensures value { result ≡ filter_place (key_of cube) }
    ensures within { result < PLACES }
{
    let (care, want) = (cube.care as u32, cube.want as u32);
    care ^ (want * 8 ^ want * 128 % PLACES)
}

/// The place of a cube's inputs, from that of another's. It is cheap where few inputs are known to differ.
#[inline(always)]
#[tactic(auto, using(crate::proofs::inside::Probes::place_between, crate::proofs::inside::Probes::step_within))]
pub(crate) fn place_from(place: u32, from: Cube, to: Cube) -> u32
    requires place { place ≡ filter_place (key_of from) }
    requires within { place < PLACES }
    ensures value { result ≡ filter_place (key_of to) }
    ensures within { result < PLACES }
{
    place
        ^ filter_place(Cube {
            care: from.care ^ to.care,
            want: from.want ^ to.want,
            outs: 0,
        })
}

impl Filter {
    /// No inputs lead anywhere. Fails only for want of memory.
    pub(crate) fn new(alloc: Global) -> Result<Filter, AllocError>
        ensures { IfOk result (λ f. (place : ℕ) → count_at f place ≡ 0) }
    {
        let mut counts = Vec::new(alloc);
        counts.resize(PLACES as usize, 0)?;
        Ok(Filter { counts })
    }

    /// Whether inputs with this place may lead to a slot.
    #[inline(always)]
    pub(crate) fn is_marked(&self, place: u32) -> bool
        requires { place < PLACES }
        ensures { result ≡ false → count_at self.now place ≡ 0 }
    {
        self.counts[place as usize] != 0
    }

    /// Counts inputs of the cube's place, which lead to a slot now.
    pub(crate) fn add(&mut self, cube: Cube)
        ensures { (place : ℕ) → count_at self.new place
            ≡ (if place == filter_place (key_of cube) then one_more (count_at self.old place)
            else count_at self.old place) }
    {
        let place = filter_place(cube) as usize;
        self.counts[place] = if self.counts[place] == 0 { 1 } else { 2 };
    }

    /// No longer counts inputs of the cube's place, which led to a slot.
    pub(crate) fn remove(&mut self, cube: Cube)
        ensures { (place : ℕ) → count_at self.new place
            ≡ (if place == filter_place (key_of cube) then one_less (count_at self.old place)
            else count_at self.old place) }
    {
        let place = filter_place(cube) as usize;
        if self.counts[place] == 1 {
            self.counts[place] = 0;
        }
    }
}
