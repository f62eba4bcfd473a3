// The slots of a list of cubes, and what finds them.
ghost use Rattle.std.specs.Prelude.{◌≡◌, ◌++◌, ◌∷◌, [], ℕ, ◌<◌, ◌≤◌, Bool, true, false, length, Option, None, Some};
ghost use Rattle.std.specs.Prelude.{All, OnOk, OnErr, IfOk, IfSome, MatchOption, slice_set};
ghost use Rattle.rv_pla.specs.Cube.{IsCube};
ghost use Rattle.rv_pla.specs.declared.cube.TheConstants.{MOST_INPUTS, MOST_OUTPUTS};
ghost use Rattle.rv_cube.specs.Esop.{terms_of};
ghost use Rattle.rv_cube.specs.Distance.{differing};
ghost use Rattle.rv_cube.specs.Reduction.{no_cube, at, carrying};
ghost use Rattle.rv_cube.specs.inside.Slots.{carries, full, key_of, IsKeyed, slot_of, or_empty, settled, IsPartner};
ghost use Rattle.rv_cube.specs.inside.Slotted.{AsksWithin, IsLeast, IsOnly, least_of, IsLesser, IsTwin, IsEqual};
ghost use Rattle.rv_cube.specs.inside.Slotted.{IsNeighbour, IsReplaced, Lists, Gains, IsAlike, IsBeside};
ghost use Rattle.rv_cube.specs.inside.Slotted.{IsTwoApartFrom};
ghost use Rattle.rv_cube.specs.inside.Moved.{moved_as, turned_by, ArePlaces, IsMovedEither, IsRow};
ghost use Rattle.rv_cube.specs.declared.distance.Turns.TheVariants.{Once, Twice};
ghost use Rattle.rv_cube.specs.inside.Filter.{filter_place};
ghost use Rattle.rv_cube.specs.inside.Watching.{IsNearList};

use super::carried::terms_of;
use super::distance::{Turns, turned, turned_by, turned_twice};
use super::filter::{PLACES, filter_place, place_from};
use super::places::Places;
use rv_pla::{Cube, MOST_INPUTS, has};
use std::alloc::{AllocError, Global};
use std::marker::Model;

/// The cubes of a list in slots that stay where they are, found by their inputs.
///
/// A slot whose cube carries no output is empty. No two full slots have the same inputs.
#[derive(Drop)]
pub struct Slots {
    inputs: u8,
    cubes: Vec<Cube>,
    places: Places,
    // no cube asks for another input
    asked: u16,
}

impl Model for Slots {
    ghost use Rattle.rv_cube.specs.inside.Slots.{led_to};
    ghost use Rattle.rv_cube.specs.inside.Slotted.{Slotted, IsSlotted};

    ghost Value = { Slotted };

    ghost view = { λ s. record { inputs = s.inputs; cubes = s.cubes.items } };

    ghost invariant = { λ s. IsSlotted (led_to s.places) s.asked s.inputs s.cubes.items };
}

#[inline(always)]
fn lesser_of(a: Option<usize>, b: Option<usize>) -> Option<usize>
    ensures { result ≡ least_of a b }
{
    match a {
        None => b,
        Some(x) => match b {
            None => Some(x),
            Some(y) => { if y < x { Some(y) } else { Some(x) } }
        },
    }
}

// The cube with the inputs changed in which two others differ.
#[inline(always)]
fn moved_as(cube: Cube, from: Cube, to: Cube) -> Cube
    ensures { result ≡ moved_as cube from to }
{
    Cube {
        care: cube.care ^ from.care ^ to.care,
        want: cube.want ^ from.want ^ to.want,
        outs: cube.outs,
    }
}

// The places of the inputs of the two cubes that differ from a cube in an input alone, for each of its inputs.
#[derive(Clone, Copy)]
struct Neighbours {
    one_places: [u32; MOST_INPUTS as usize],
    other_places: [u32; MOST_INPUTS as usize],
}

#[inline(always)]
fn neighbours_of(cube: Cube, inputs: u8) -> Neighbours
    requires { inputs ≤ MOST_INPUTS }
    ensures one_places { ArePlaces inputs cube Once result.one_places }
    ensures other_places { ArePlaces inputs cube Twice result.other_places }
{
    let mut near = Neighbours {
        one_places: [0; MOST_INPUTS as usize],
        other_places: [0; MOST_INPUTS as usize],
    };
    for input in 0..inputs {
        let i = usize::from(input);
        near.one_places[i] = filter_place(turned_by(cube, input, Turns::Once));
        near.other_places[i] = filter_place(turned_by(cube, input, Turns::Twice));
    }
    near
}

// A cube and one of its inputs, and how the places of the inputs differ where that one is turned.
#[derive(Clone, Copy)]
struct Row {
    cube: Cube,
    q: u8,
    one_step: u32,
    other_step: u32,
}

impl Slots {
    /// No slots, for cubes of 1 to [`MOST_INPUTS`] inputs. Fails only for want of memory.
    pub fn new(alloc: Global, inputs: u8) -> Result<Slots, AllocError>
        requires some { 1 ≤ inputs }
        requires few { inputs ≤ MOST_INPUTS }
        ensures { IfOk result (λ s. s ≡ record { inputs = inputs; cubes = [] }) }
    {
        Ok(Slots {
            inputs,
            cubes: Vec::new(alloc),
            places: Places::new(alloc)?,
            asked: 0,
        })
    }

    /// How many inputs a cube has.
    pub fn inputs(&self) -> u8
        ensures value { result ≡ self.now.inputs }
        ensures some { 1 ≤ result }
        ensures few { result ≤ MOST_INPUTS }
    {
        self.inputs
    }

    /// How many slots there are.
    pub fn len(&self) -> usize
        ensures value { result ≡ length self.now.cubes }
        ensures valid { All (IsCube self.now.inputs MOST_OUTPUTS) self.now.cubes }
        ensures keyed { IsKeyed self.now.cubes }
        ensures some { 1 ≤ self.now.inputs }
        ensures few { self.now.inputs ≤ MOST_INPUTS }
    {
        self.cubes.len()
    }

    /// The cube of a slot.
    pub fn cube(&self, i: usize) -> Cube
        requires { i < length self.now.cubes }
        ensures value { result ≡ at self.now.cubes i }
        ensures valid { IsCube self.now.inputs MOST_OUTPUTS result }
        ensures all_valid { All (IsCube self.now.inputs MOST_OUTPUTS) self.now.cubes }
        ensures keyed { IsKeyed self.now.cubes }
    {
        self.cubes[i]
    }

    /// One more slot at the end, which is empty. Fails only for want of memory.
    pub fn open(&mut self) -> Result<(), AllocError>
        ensures ok { OnOk result (self.new ≡ record self.old { cubes = self.old.cubes ++ no_cube ∷ [] }) }
        ensures err { OnErr result (self.new ≡ self.old) }
    {
        let no_cube = Cube {
            care: 0,
            want: 0,
            outs: 0,
        };
        self.cubes.push(no_cube)?;
        Ok(())
    }

    /// The full slot with the inputs of the cube.
    pub fn find(&self, cube: Cube) -> Option<usize>
        ensures value { result ≡ slot_of self.now.cubes cube }
        ensures within { IfSome result (λ i. i < length self.now.cubes) }
        ensures keyed { IsKeyed self.now.cubes }
    {
        self.find_at(cube, filter_place(cube))
    }

    /// The same, with the place of its inputs.
    #[inline(always)]
    #[tactic(auto, using(crate::proofs::inside::Noting::slot_of_noted))]
    pub fn find_at(&self, cube: Cube, place: u32) -> Option<usize>
        requires place { place ≡ filter_place (key_of cube) }
        requires within { place < PLACES }
        ensures value { result ≡ slot_of self.now.cubes cube }
        ensures within { IfSome result (λ i. i < length self.now.cubes) }
        ensures keyed { IsKeyed self.now.cubes }
    {
        self.places.find_at(cube, place)
    }

    /// Empties a slot.
    pub fn clear(&mut self, i: usize)
        requires { i < length self.old.cubes }
        ensures { self.new ≡ record self.old { cubes = slice_set self.old.cubes i no_cube } }
    {
        self.places.forget(self.cubes[i]);
        self.cubes[i] = Cube {
            care: 0,
            want: 0,
            outs: 0,
        };
    }

    /// Puts a cube that carries an output into slot i, which is empty. Where a full slot has its inputs, the
    /// two become one, which stands in the lower slot. Fails only for want of memory, and then changes nothing.
    pub fn settle(&mut self, i: usize, cube: Cube) -> Result<(), AllocError>
        requires within { i < length self.old.cubes }
        requires empty { full self.old.cubes i ≡ false }
        requires some { carries cube ≡ true }
        requires valid { IsCube self.old.inputs MOST_OUTPUTS cube }
        ensures ok { OnOk result (self.new
            ≡ record self.old { cubes = settled self.old.inputs self.old.cubes i cube }) }
        ensures err { OnErr result (self.new ≡ self.old) }
    {
        match self.find(cube) {
            None => self.put(i, cube),
            Some(j) => self.merge(i, j, cube),
        }
    }

    // Puts a cube into an empty slot; no full slot has its inputs.
    fn put(&mut self, i: usize, cube: Cube) -> Result<(), AllocError>
        requires within { i < length self.old.cubes }
        requires empty { full self.old.cubes i ≡ false }
        requires some { carries cube ≡ true }
        requires valid { IsCube self.old.inputs MOST_OUTPUTS cube }
        requires alone { slot_of self.old.cubes cube ≡ None }
        ensures ok { OnOk result (self.new ≡ record self.old { cubes = slice_set self.old.cubes i cube }) }
        ensures err { OnErr result (self.new ≡ self.old) }
    {
        self.places.note(cube, i)?;
        self.asked |= cube.care;
        self.cubes[i] = cube;
        Ok(())
    }

    // The cube and slot j, which has the same inputs, become one, in the lower of i and j.
    #[tactic(auto, using(crate::proofs::inside::Twins::become_one))]
    fn merge(&mut self, i: usize, j: usize, cube: Cube) -> Result<(), AllocError>
        requires within { i < length self.old.cubes }
        requires empty { full self.old.cubes i ≡ false }
        requires some { carries cube ≡ true }
        requires valid { IsCube self.old.inputs MOST_OUTPUTS cube }
        requires found { slot_of self.old.cubes cube ≡ Some j }
        ensures ok { OnOk result (self.new
            ≡ record self.old { cubes = settled self.old.inputs self.old.cubes i cube }) }
        ensures err { OnErr result (self.new ≡ self.old) }
    {
        let merged = Cube {
            care: cube.care,
            want: cube.want,
            outs: cube.outs ^ self.cubes[j].outs,
        };
        if i < j {
            self.replace(i, j, merged)
        } else {
            self.replace(j, i, merged)
        }
    }

    // Puts a cube into slot a, or nothing where it carries no output, and empties slot b; one of them is empty,
    // and the other has the cube's inputs.
    fn replace(&mut self, a: usize, b: usize, cube: Cube) -> Result<(), AllocError>
        requires order { a < b }
        requires within { b < length self.old.cubes }
        requires valid { IsCube self.old.inputs MOST_OUTPUTS cube }
        requires only { IsReplaced self.old.cubes a b cube }
        ensures ok { OnOk result (self.new
            ≡ record self.old { cubes = slice_set (slice_set self.old.cubes b no_cube) a (or_empty (carrying cube)) }) }
        ensures err { OnErr result (self.new ≡ self.old) }
    {
        if cube.outs == 0 {
            self.clear(b);
            self.clear(a);
            return Ok(());
        }
        self.places.note(cube, a)?;
        self.asked |= cube.care;
        self.cubes[b] = Cube {
            care: 0,
            want: 0,
            outs: 0,
        };
        self.cubes[a] = cube;
        Ok(())
    }

    /// The least full slot other than a and b whose cube becomes one with this one.
    #[tactic(auto, using(crate::proofs::inside::Partners::least))]
    pub fn partner(&self, cube: Cube, a: usize, b: usize) -> Option<usize>
        requires { IsCube self.now.inputs MOST_OUTPUTS cube }
        ensures { MatchOption result ((c : ℕ) → IsPartner self.now.inputs self.now.cubes a b cube c → ⊥)
            (λ c. IsPartner self.now.inputs self.now.cubes a b cube c
            × ((d : ℕ) → IsPartner self.now.inputs self.now.cubes a b cube d → c ≤ d)) }
    {
        let place = filter_place(cube);
        let mut best = self.twin(cube, a, b);
        for p in 0..self.inputs {
            best = self.lesser_neighbour(best, cube, place, p, a, b);
        }
        best
    }

    // The slot with the inputs of the cube, if it is another than a and b.
    #[inline(always)]
    fn twin(&self, cube: Cube, a: usize, b: usize) -> Option<usize>
        ensures { IsOnly (IsTwin self.now.cubes a b cube) result }
    {
        let Some(c) = self.places.find(cube) else {
            return None;
        };
        if c == a {
            return None;
        }
        if c == b {
            return None;
        }
        Some(c)
    }

    // The same, if it has the outputs of the cube as well.
    #[inline(always)]
    fn equal(&self, cube: Cube, a: usize, b: usize) -> Option<usize>
        ensures { IsOnly (IsEqual self.now.cubes a b cube) result }
    {
        let Some(c) = self.twin(cube, a, b) else {
            return None;
        };
        if self.cube(c).outs == cube.outs {
            Some(c)
        } else {
            None
        }
    }

    // The lesser of `best` and of the least slot other than a and b that has the outputs of the cube, and its inputs
    // but for p.
    #[inline(always)]
    fn lesser_neighbour(
        &self,
        best: Option<usize>,
        cube: Cube,
        place: u32,
        p: u8,
        a: usize,
        b: usize,
    ) -> Option<usize>
        requires few { self.now.inputs ≤ MOST_INPUTS }
        requires within { p < self.now.inputs }
        requires own { IsCube self.now.inputs MOST_OUTPUTS cube }
        requires valid { All (IsCube self.now.inputs MOST_OUTPUTS) self.now.cubes }
        requires place { place ≡ filter_place (key_of cube) }
        requires place_within { place < PLACES }
        ensures { IsLesser (IsLeast (IsNeighbour self.now.inputs self.now.cubes a b cube p)) best result }
    {
        let one = turned(cube, p);
        let other = turned_twice(cube, one, p);
        let best = self.lesser_equal(best, one, place_from(place, cube, one), a, b);
        self.lesser_equal(best, other, place_from(place, cube, other), a, b)
    }

    // The lesser of `best` and of the slot other than a and b with the inputs and the outputs of the cube, with the
    // place of its inputs.
    #[inline(always)]
    #[tactic(auto, using(crate::proofs::inside::Partners::lesser_none))]
    fn lesser_equal(
        &self,
        best: Option<usize>,
        cube: Cube,
        place: u32,
        a: usize,
        b: usize,
    ) -> Option<usize>
        requires place { place ≡ filter_place (key_of cube) }
        requires within { place < PLACES }
        ensures { IsLesser (IsOnly (IsEqual self.now.cubes a b cube)) best result }
    {
        if self.places.may_lead(place) {
            lesser_of(best, self.equal(cube, a, b))
        } else {
            best
        }
    }

    /// Lists the full slots whose cubes differ from this one in two inputs, in no special order. Other full
    /// slots may be among them. Fails only for want of memory.
    #[tactic(auto, using(crate::proofs::inside::Listing::listing, crate::proofs::inside::Noting::asking))]
    pub fn two_apart(&self, cube: Cube, found: &mut Vec<usize>) -> Result<(), AllocError>
        requires { IsCube self.now.inputs MOST_OUTPUTS cube }
        ensures full { OnOk result (All (λ b. full self.now.cubes b ≡ true) found.new.items) }
        ensures lists { OnOk result ((b p q : ℕ) → full self.now.cubes b ≡ true
            → differing self.now.inputs cube (at self.now.cubes b) ≡ p ∷ q ∷ [] → Lists found.new.items b) }
    {
        found.clear();
        let asked = self.asked | cube.care;
        let near = neighbours_of(cube, self.inputs);
        for q in 0..self.inputs {
            if has(asked, q) {
                self.list_pairs(cube, &near, asked, q, found)?;
            }
        }
        Ok(())
    }

    /// Lists the full slots whose cubes differ from this one in one input or two, in no special order. Other full
    /// slots may be among them. Fails only for want of memory.
    pub fn near(&self, cube: Cube, found: &mut Vec<usize>) -> Result<(), AllocError>
        requires { IsCube self.now.inputs MOST_OUTPUTS cube }
        ensures { OnOk result (IsNearList self.now.inputs self.now.cubes cube found.new.items) }
    {
        self.two_apart(cube, found)?;
        for p in 0..self.inputs {
            self.list_beside(cube, p, found)?;
        }
        Ok(())
    }

    // Lists the slots that differ in q and a lower input. No cube asks for another input than those of `asked`.
    #[inline(always)]
    #[tactic(auto, using(crate::proofs::inside::Listing::from_start))]
    fn list_pairs(
        &self,
        cube: Cube,
        near: &Neighbours,
        asked: u16,
        q: u8,
        found: &mut Vec<usize>,
    ) -> Result<(), AllocError>
        requires few { self.now.inputs ≤ MOST_INPUTS }
        requires within { q < self.now.inputs }
        requires one_places { ArePlaces self.now.inputs cube Once near.now.one_places }
        requires other_places { ArePlaces self.now.inputs cube Twice near.now.other_places }
        requires own { AsksWithin asked cube }
        requires asks { All (AsksWithin asked) self.now.cubes }
        ensures { OnOk result (Gains self.now.cubes
            (IsTwoApartFrom self.now.cubes cube q q) found.old.items found.new.items) }
    {
        let (i, place) = (q as usize, filter_place(cube));
        let row = Row {
            cube,
            q,
            one_step: place ^ near.one_places[i],
            other_step: place ^ near.other_places[i],
        };
        for p in 0..q {
            if has(asked, p) {
                let i = p as usize;
                self.list_moved(&row, near.one_places[i], p, Turns::Once, found)?;
                self.list_moved(&row, near.other_places[i], p, Turns::Twice, found)?;
            }
        }
        Ok(())
    }

    // Lists the slots that differ from the row's cube in its input, and in p by so many turns, after which the inputs
    // have this place.
    #[inline(always)]
    #[tactic(auto, using(crate::proofs::inside::Probes::place_after, crate::proofs::inside::Probes::step_within))]
    fn list_moved(
        &self,
        row: &Row,
        place: u32,
        p: u8,
        turns: Turns,
        found: &mut Vec<usize>,
    ) -> Result<(), AllocError>
        requires line { p < MOST_INPUTS }
        requires within { place < PLACES }
        requires place { place ≡ filter_place (key_of (turned_by row.now.cube p turns)) }
        requires row { IsRow row.now }
        ensures { OnOk result (Gains self.now.cubes
            (IsMovedEither self.now.cubes (turned_by row.now.cube p turns) row.now.cube
            (turned_by row.now.cube row.now.q Once)
            (turned_by row.now.cube row.now.q Twice)) found.old.items found.new.items) }
    {
        self.list_at(row, place ^ row.one_step, p, turns, Turns::Once, found)?;
        self.list_at(row, place ^ row.other_step, p, turns, Turns::Twice, found)
    }

    // Lists the slot that differs from the row's cube in its input and in p by so many turns each, with the place of
    // its inputs.
    #[inline(always)]
    #[tactic(auto, using(crate::proofs::inside::Listing::gains_none))]
    fn list_at(
        &self,
        row: &Row,
        place: u32,
        p: u8,
        turns: Turns,
        row_turns: Turns,
        found: &mut Vec<usize>,
    ) -> Result<(), AllocError>
        requires line { p < MOST_INPUTS }
        requires row { row.now.q < MOST_INPUTS }
        requires within { place < PLACES }
        requires place { place ≡ filter_place
            (key_of (moved_as (turned_by row.now.cube p turns) row.now.cube
            (turned_by row.now.cube row.now.q row_turns))) }
        ensures { OnOk result (Gains self.now.cubes (IsAlike self.now.cubes
            (moved_as (turned_by row.now.cube p turns) row.now.cube
            (turned_by row.now.cube row.now.q row_turns))) found.old.items found.new.items) }
    {
        if self.places.may_lead(place) {
            self.list_turned(row, p, turns, row_turns, found)
        } else {
            Ok(())
        }
    }

    // The same, without a look at the filter. It is seldom called, and a call of its own keeps the loop small.
    #[inline(never)]
    fn list_turned(
        &self,
        row: &Row,
        p: u8,
        turns: Turns,
        row_turns: Turns,
        found: &mut Vec<usize>,
    ) -> Result<(), AllocError>
        requires line { p < MOST_INPUTS }
        requires row { row.now.q < MOST_INPUTS }
        ensures { OnOk result (Gains self.now.cubes (IsAlike self.now.cubes
            (moved_as (turned_by row.now.cube p turns) row.now.cube
            (turned_by row.now.cube row.now.q row_turns))) found.old.items found.new.items) }
    {
        let from = turned_by(row.cube, p, turns);
        let to = turned_by(row.cube, row.q, row_turns);
        self.list(moved_as(from, row.cube, to), found)
    }

    // Lists the slots that differ in q.
    #[tactic(auto, using(std::proofs::lemmas::Result::on_ok_weaker, crate::proofs::inside::Listing::gains_beside))]
    fn list_beside(&self, cube: Cube, q: u8, found: &mut Vec<usize>) -> Result<(), AllocError>
        requires few { self.now.inputs ≤ MOST_INPUTS }
        requires within { q < self.now.inputs }
        ensures { OnOk result (Gains self.now.cubes (IsBeside self.now.cubes cube q) found.old.items found.new.items) }
    {
        let one = turned(cube, q);
        let other = turned_twice(cube, one, q);
        self.list_any(one, found)?;
        self.list_any(other, found)
    }

    // Lists the slot with the inputs of the cube.
    #[tactic(auto, using(crate::proofs::inside::Listing::gains_none))]
    fn list_any(&self, cube: Cube, found: &mut Vec<usize>) -> Result<(), AllocError>
        ensures { OnOk result (Gains self.now.cubes (IsAlike self.now.cubes cube) found.old.items found.new.items) }
    {
        if self.places.may_lead(filter_place(cube)) {
            self.list(cube, found)
        } else {
            Ok(())
        }
    }

    // The same, without a look at the filter.
    #[inline(always)]
    #[tactic(auto, using(crate::proofs::inside::Listing::gains_none, crate::proofs::inside::Listing::gains_some))]
    fn list(&self, cube: Cube, found: &mut Vec<usize>) -> Result<(), AllocError>
        ensures { OnOk result (Gains self.now.cubes (IsAlike self.now.cubes cube) found.old.items found.new.items) }
    {
        match self.places.get(cube) {
            Some(b) => found.push(b)?,
            None => {}
        }
        Ok(())
    }

    /// The cubes of the full slots, in their order. Takes no memory.
    pub fn into_cubes(self) -> Vec<Cube>
        ensures { result.items ≡ terms_of self.cubes }
    {
        terms_of(self.cubes)
    }
}
