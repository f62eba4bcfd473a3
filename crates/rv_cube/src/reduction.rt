// A list of cubes while it is reduced.
ghost use Rattle.std.specs.Prelude.{◌≡◌, ◌<◌, ◌≤◌, ℕ, false, true, length, All, OnOk, OnErr, IfOk, IfSome, MatchOption};
ghost use Rattle.std.specs.Prelude.{slice_set, nat_lt, if◌then◌else◌};
ghost use Rattle.rv_pla.specs.Cube.{IsCube};
ghost use Rattle.rv_pla.specs.declared.cube.TheConstants.{MOST_INPUTS, MOST_OUTPUTS};
ghost use Rattle.rv_cube.specs.Esop.{terms_of};
ghost use Rattle.rv_cube.specs.Reduction.{no_cube, at, carrying, merge, reduced, IsSettled};
ghost use Rattle.rv_cube.specs.ReductionFor.{output_dropped};
ghost use Rattle.rv_cube.specs.inside.Slots.{carries, full, or_empty, IsKeyed, settled, merged_in_any, MergesNone};
ghost use Rattle.rv_cube.specs.inside.Slots.{ExorlinksNone, IsFirstMerge, IsFirstExorlink};
ghost use Rattle.rv_cube.specs.inside.Reducing.{settled_any, emptied, ComesIn, IsNext, IsExorlinked, Steps};

use super::due::Due;
use super::exorlink::first_exorlink_in;
use super::merge::merge;
use super::slots::Slots;
use super::step::Step;
use super::watch::{list_near, watch};
use rv_pla::{Cube, MOST_INPUTS};
use std::alloc::{AllocError, Global};
use std::marker::Model;

/// A list of cubes while it is reduced, with the slots that have to be looked at.
///
/// A slot that is not due in `merges` has the same outputs as no later slot that differs from it in one
/// input; one that is not due in `exorlinks` makes an exorlink with no later slot.
#[derive(Drop)]
pub struct Reduction {
    slots: Slots,
    merges: Due,
    exorlinks: Due,
    // room for the slots that differ from a cube in one input or two
    near: Vec<usize>,
}

impl Model for Reduction {
    ghost use Rattle.rv_cube.specs.inside.Slotted.{Slotted};
    ghost use Rattle.rv_cube.specs.inside.Reducing.{IsReduction};

    ghost Value = { Slotted };

    ghost view = { λ r. r.slots };

    ghost invariant = { λ r. IsReduction r.slots.inputs r.slots.cubes r.merges r.exorlinks };
}

// The first later slot that becomes one with slot a by its outputs.
fn merge_with(slots: &Slots, a: usize) -> Option<usize>
    requires within { a < length slots.now.cubes }
    requires before { (i : ℕ) → i < a → MergesNone slots.now.inputs slots.now.cubes i }
    ensures { MatchOption result (MergesNone slots.now.inputs slots.now.cubes a)
        (IsFirstMerge slots.now.inputs slots.now.cubes a) }
{
    let cube = slots.cube(a);
    if cube.outs == 0 {
        return None;
    }
    slots.partner(cube, a, a)
}

// What the cubes in two slots become, and the lower slot.
fn merge_at(a: usize, x: Cube, b: usize, y: Cube, inputs: u8) -> (usize, Option<Cube>)
    requires { inputs ≤ MOST_INPUTS }
    ensures { result ≡ (if nat_lt a b then (a, merge inputs x y) else (b, merge inputs y x)) }
{
    if a < b {
        (a, merge(x, y, inputs))
    } else {
        (b, merge(y, x, inputs))
    }
}

impl Reduction {
    /// All slots have to be looked at. Fails only for want of memory.
    #[tactic(auto, using(crate::proofs::inside::Watched::watched_all))]
    pub fn new(alloc: Global, slots: Slots) -> Result<Reduction, AllocError>
        ensures { IfOk result (λ r. r ≡ slots) }
    {
        let len = slots.len();
        Ok(Reduction {
            merges: Due::new(alloc, len)?,
            exorlinks: Due::new(alloc, len)?,
            near: Vec::new(alloc),
            slots,
        })
    }

    // How many inputs a cube has.
    fn inputs(&self) -> u8
        ensures value { result ≡ self.now.inputs }
        ensures few { result ≤ MOST_INPUTS }
    {
        self.slots.inputs()
    }

    // The cube of a slot.
    fn cube(&self, i: usize) -> Cube
        requires { i < length self.now.cubes }
        ensures value { result ≡ at self.now.cubes i }
        ensures valid { All (IsCube self.now.inputs MOST_OUTPUTS) self.now.cubes }
        ensures keyed { IsKeyed self.now.cubes }
    {
        self.slots.cube(i)
    }

    // Empties a slot.
    fn clear(&mut self, i: usize)
        requires { i < length self.old.cubes }
        ensures { self.new ≡ record self.old { cubes = slice_set self.old.cubes i no_cube } }
    {
        self.slots.clear(i);
    }

    // Puts a cube into an empty slot, as `Slots::settle`.
    #[tactic(auto, using(crate::proofs::inside::Keeps::near_within))]
    fn put(&mut self, i: usize, cube: Cube) -> Result<(), AllocError>
        requires within { i < length self.old.cubes }
        requires empty { full self.old.cubes i ≡ false }
        requires some { carries cube ≡ true }
        requires valid { IsCube self.old.inputs MOST_OUTPUTS cube }
        ensures inputs { self.new.inputs ≡ self.old.inputs }
        ensures ok { OnOk result (self.new
            ≡ record self.old { cubes = settled self.old.inputs self.old.cubes i cube }) }
        ensures err { OnErr result (self.new ≡ self.old) }
    {
        list_near(&self.slots, cube, &self.exorlinks, &mut self.near)?;
        self.slots.settle(i, cube)?;
        watch(
            &self.slots,
            cube,
            &self.near,
            &mut self.merges,
            &mut self.exorlinks,
        );
        Ok(())
    }

    // The same, where there is a cube.
    fn put_any(&mut self, i: usize, cube: Option<Cube>) -> Result<(), AllocError>
        requires within { i < length self.old.cubes }
        requires empty { full self.old.cubes i ≡ false }
        requires valid { IfSome cube (λ c. (carries c ≡ true) × IsCube self.old.inputs MOST_OUTPUTS c) }
        ensures inputs { self.new.inputs ≡ self.old.inputs }
        ensures ok { OnOk result (self.new
            ≡ record self.old { cubes = settled_any self.old.inputs self.old.cubes i cube }) }
        ensures err { OnErr result (self.new ≡ self.old) }
    {
        match cube {
            Some(cube) => self.put(i, cube),
            None => Ok(()),
        }
    }

    // The first merge by equal outputs.
    #[tactic(auto, using(crate::proofs::inside::DueRows::done_lowers))]
    fn next_merge(&mut self) -> Option<(usize, usize)>
        ensures valid { All (IsCube self.old.inputs MOST_OUTPUTS) self.old.cubes }
        ensures keyed { IsKeyed self.old.cubes }
        ensures same { self.new ≡ self.old }
        ensures found { MatchOption result ((a : ℕ) → MergesNone self.old.inputs self.old.cubes a)
            (λ r. IsFirstMerge self.old.inputs self.old.cubes r.0 r.1) }
    {
        'rows: loop {
            let Some(a) = self.merges.next() else {
                return None;
            };
            match merge_with(&self.slots, a) {
                Some(b) => return Some((a, b)),
                None => self.merges.done(a),
            }
        }
    }

    // The first exorlink.
    #[tactic(auto, using(crate::proofs::inside::DueRows::done_lowers))]
    fn next_exorlink(&mut self) -> Result<Option<Step>, AllocError>
        ensures same { self.new ≡ self.old }
        ensures found { IfOk result (λ o. MatchOption o ((a : ℕ) → ExorlinksNone self.old.inputs self.old.cubes a)
            (λ step. (a : ℕ) × (b : ℕ) × IsFirstExorlink self.old.inputs self.old.cubes a b step)) }
    {
        'rows: loop {
            let Some(a) = self.exorlinks.next() else {
                return Ok(None);
            };
            match first_exorlink_in(&self.slots, a, &mut self.near)? {
                Some(step) => return Ok(Some(step)),
                None => self.exorlinks.done(a),
            }
        }
    }

    // The step that is the first of the list.
    fn next(&mut self) -> Result<Option<Step>, AllocError>
        ensures valid { All (IsCube self.old.inputs MOST_OUTPUTS) self.old.cubes }
        ensures keyed { IsKeyed self.old.cubes }
        ensures same { self.new ≡ self.old }
        ensures found { IfOk result (λ o. MatchOption o (IsSettled self.old.inputs (terms_of self.old.cubes))
            (IsNext self.old.inputs self.old.cubes)) }
    {
        match self.next_merge() {
            Some((a, b)) => Ok(Some(Step::Merge { a, b })),
            None => self.next_exorlink(),
        }
    }

    // The cubes in a and b become one. A step that fails for want of memory loses the list.
    #[tactic(auto, using(crate::proofs::inside::OneStep::joined))]
    fn merge(&mut self, a: usize, b: usize) -> Result<(), AllocError>
        requires { IsFirstMerge self.old.inputs self.old.cubes a b }
        ensures inputs { self.new.inputs ≡ self.old.inputs }
        ensures steps { OnOk result (Steps self.old.inputs self.old.cubes self.old.cubes self.new.cubes) }
    {
        let (x, y) = (self.cube(a), self.cube(b));
        let one = merge(x, y, self.inputs());
        self.clear(b);
        self.clear(a);
        self.put_any(a, one)
    }

    // Empties three slots.
    fn clear_three(&mut self, p: usize, o: usize, c: usize)
        requires p { p < length self.old.cubes }
        requires o { o < length self.old.cubes }
        requires c { c < length self.old.cubes }
        ensures { self.new ≡ record self.old { cubes = emptied self.old.cubes p o c } }
    {
        self.clear(p);
        self.clear(o);
        self.clear(c);
    }

    // Puts two cubes into empty slots, the first where there is one.
    fn come_in(
        &mut self,
        low: usize,
        one: Option<Cube>,
        other: usize,
        rest: Cube,
    ) -> Result<(), AllocError>
        requires { ComesIn self.old low one other rest }
        ensures inputs { self.new.inputs ≡ self.old.inputs }
        ensures ok { OnOk result (self.new.cubes
            ≡ settled self.old.inputs (settled_any self.old.inputs self.old.cubes low one) other rest) }
    {
        self.put_any(low, one)?;
        self.put(other, rest)
    }

    // The cubes in `place` and `other` become `own` and `rest`, and then `own` one with its partner.
    fn exorlink(
        &mut self,
        place: usize,
        other: usize,
        partner: usize,
        own: Cube,
        rest: Cube,
    ) -> Result<(), AllocError>
        requires { IsExorlinked self.old.inputs self.old.cubes place other partner own rest }
        ensures inputs { self.new.inputs ≡ self.old.inputs }
        ensures steps { OnOk result (Steps self.old.inputs self.old.cubes
            (merged_in_any self.old.inputs
            (slice_set (slice_set self.old.cubes place own) other rest) place partner) self.new.cubes) }
    {
        let third = self.cube(partner);
        let (low, one) = merge_at(place, own, partner, third, self.inputs());
        self.clear_three(place, other, partner);
        self.come_in(low, one, other, rest)
    }

    // Makes the step that is the first of the list.
    fn make(&mut self, step: Step) -> Result<(), AllocError>
        requires valid { All (IsCube self.old.inputs MOST_OUTPUTS) self.old.cubes }
        requires keyed { IsKeyed self.old.cubes }
        requires next { IsNext self.old.inputs self.old.cubes step }
        ensures inputs { self.new.inputs ≡ self.old.inputs }
        ensures steps { OnOk result (Steps self.old.inputs self.old.cubes self.old.cubes self.new.cubes) }
    {
        match step {
            Step::Merge { a, b } => self.merge(a, b),
            Step::Exorlink {
                a,
                b,
                first,
                second,
                place,
                partner,
            } => {
                if place == a {
                    self.exorlink(a, b, partner, first, second)
                } else {
                    self.exorlink(b, a, partner, second, first)
                }
            }
        }
    }

    // Makes steps until none applies, or one fails.
    #[tactic(auto, using(crate::proofs::Reduced::reduced_end))]
    fn make_all(&mut self) -> Result<(), AllocError>
        ensures inputs { self.new.inputs ≡ self.old.inputs }
        ensures list { OnOk result (terms_of self.new.cubes ≡ reduced self.old.inputs (terms_of self.old.cubes)) }
    {
        'steps: loop {
            match self.next()? {
                Some(step) => self.make(step)?,
                None => return Ok(()),
            }
        }
    }

    /// Makes steps until none applies. Fails only for want of memory, and the list is lost then.
    pub fn run(mut self) -> Result<Reduction, AllocError>
        ensures inputs { IfOk result (λ r. r.inputs ≡ self.inputs) }
        ensures list { IfOk result (λ r. terms_of r.cubes ≡ reduced self.inputs (terms_of self.cubes)) }
    {
        match self.make_all() {
            Ok(()) => Ok(self),
            Err(error) => Err(error),
        }
    }

    // The cube of a slot loses an output, and goes where none is left. A step that fails loses the list.
    #[tactic(auto, using(std::proofs::lemmas::Nat::one_shl, crate::proofs::inside::IdleSlots::drop_none))]
    fn drop_in(&mut self, i: usize, output: u8) -> Result<(), AllocError>
        requires stands { full self.old.cubes i ≡ true }
        requires output { output < MOST_OUTPUTS }
        ensures inputs { self.new.inputs ≡ self.old.inputs }
        ensures dropped { OnOk result (self.new.cubes
            ≡ slice_set self.old.cubes i (or_empty (carrying (output_dropped (at self.old.cubes i) output)))) }
    {
        let mut cube = self.slots.cube(i);
        cube.outs ^= 1 << output;
        self.clear(i);
        if cube.outs != 0 {
            self.put(i, cube)
        } else {
            Ok(())
        }
    }

    /// The cube of a slot loses an output, and goes where none is left. Fails only for want of memory, and the
    /// list is lost then.
    pub fn drop_output(mut self, i: usize, output: u8) -> Result<Reduction, AllocError>
        requires stands { full self.cubes i ≡ true }
        requires output { output < MOST_OUTPUTS }
        ensures inputs { IfOk result (λ r. r.inputs ≡ self.inputs) }
        ensures dropped { IfOk result (λ r. r.cubes
            ≡ slice_set self.cubes i (or_empty (carrying (output_dropped (at self.cubes i) output)))) }
    {
        match self.drop_in(i, output) {
            Ok(()) => Ok(self),
            Err(error) => Err(error),
        }
    }

    /// The slots.
    pub fn slots(&self) -> &Slots
        ensures { result.now ≡ self.now }
    {
        &self.slots
    }

    /// The list. Takes no memory.
    pub fn into_cubes(self) -> Vec<Cube>
        ensures { result.items ≡ terms_of self.cubes }
    {
        self.slots.into_cubes()
    }
}
