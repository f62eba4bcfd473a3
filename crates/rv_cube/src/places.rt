// Where the inputs of a cube lead.
ghost use Rattle.std.specs.Prelude.{◌≡◌, ◌&&◌, ◌<◌, ℕ, [], false, None, Some, if◌then◌else◌, IfOk, OnOk, OnErr};
ghost use Rattle.rv_cube.specs.inside.Slots.{carries, key_of, key_eq, led_to};
ghost use Rattle.rv_cube.specs.inside.Filter.{filter_place};

use super::filter::{Filter, PLACES, filter_place};
use indexmap::IndexMap;
use rv_pla::Cube;
use std::alloc::{AllocError, Global};
use std::marker::Model;

/// The slots by the inputs of their cubes. Most inputs that are looked for lead nowhere.
#[derive(Drop)]
pub(crate) struct Places {
    slots: IndexMap<(u16, u16), usize>,
    filter: Filter,
}

impl Model for Places {
    ghost use Rattle.std.specs.Prelude.{ℕ, List};
    ghost use Rattle.rv_cube.specs.inside.Slots.{led_to};
    ghost use Rattle.rv_cube.specs.inside.Filter.{IsFiltered};

    ghost Value = { List ((ℕ × ℕ) × ℕ) };

    ghost view = { λ p. p.slots.entries };

    ghost invariant = { λ p. IsFiltered p.filter (led_to p.slots.entries) };
}

impl Places {
    /// No inputs lead anywhere. Fails only for want of memory.
    pub(crate) fn new(alloc: Global) -> Result<Places, AllocError>
        ensures { IfOk result (λ p. p ≡ []) }
    {
        Ok(Places {
            slots: IndexMap::new(alloc),
            filter: Filter::new(alloc)?,
        })
    }

    /// The slot with the inputs of the cube.
    #[inline(always)]
    pub(crate) fn find(&self, cube: Cube) -> Option<usize>
        ensures { result ≡ led_to self.now (key_of cube) }
    {
        self.find_at(cube, filter_place(cube))
    }

    /// The same, with the place of its inputs.
    #[inline(always)]
    pub(crate) fn find_at(&self, cube: Cube, place: u32) -> Option<usize>
        requires place { place ≡ filter_place (key_of cube) }
        requires within { place < PLACES }
        ensures { result ≡ led_to self.now (key_of cube) }
    {
        if self.filter.is_marked(place) {
            self.get(cube)
        } else {
            None
        }
    }

    /// The same, without a look at the filter: for inputs that may lead to a slot.
    #[inline(never)]
    pub(crate) fn get(&self, cube: Cube) -> Option<usize>
        ensures { result ≡ led_to self.now (key_of cube) }
    {
        match self.slots.get(&(cube.care, cube.want)) {
            Some(i) => Some(*i),
            None => None,
        }
    }

    /// Whether inputs with this place may lead to a slot.
    #[inline(always)]
    pub(crate) fn may_lead(&self, place: u32) -> bool
        requires { place < PLACES }
        ensures { result ≡ false → (key : ℕ × ℕ) → filter_place key ≡ place → led_to self.now key ≡ None }
    {
        self.filter.is_marked(place)
    }

    /// The inputs of the cube lead to slot i. Fails only for want of memory.
    pub(crate) fn note(&mut self, cube: Cube, i: usize) -> Result<(), AllocError>
        ensures ok { OnOk result ((key : ℕ × ℕ)
            → led_to self.new key ≡ (if key_eq (key_of cube) key then Some i else led_to self.old key)) }
        ensures err { OnErr result ((key : ℕ × ℕ) → led_to self.new key ≡ led_to self.old key) }
    {
        match self.slots.insert((cube.care, cube.want), i) {
            Ok(_) => {
                self.filter.add(cube);
                Ok(())
            }
            Err(_) => Err(AllocError),
        }
    }

    /// The inputs of a cube that carries an output lead nowhere.
    pub(crate) fn forget(&mut self, cube: Cube)
        ensures { (key : ℕ × ℕ) → led_to self.new key
            ≡ (if carries cube && key_eq (key_of cube) key then None else led_to self.old key) }
    {
        if cube.outs != 0 {
            match self.slots.swap_remove(&(cube.care, cube.want)) {
                Some(_) => self.filter.remove(cube),
                None => {}
            }
        }
    }
}
