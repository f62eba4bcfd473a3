ghost use Rattle.std.specs.Prelude.{◌≡◌, ◌+◌, ◌^◌, ◌<◌, ◌≤◌, ◌==◌, ◌&&◌, ℕ, Bool, List, false, length, take, All, IfOk};
ghost use Rattle.std.specs.List.{list_any};
ghost use Rattle.rv_check.specs.Reduced.{is_large};
ghost use Rattle.rv_net.specs.Op.{OpFitsIn};
ghost use Rattle.rv_check.specs.inside.Followed.{followed, is_only};
ghost use Rattle.rv_check.specs.inside.Kept.{kept_more, mixed, reduced_kept};
ghost use Rattle.rv_check.specs.inside.Placed.{AreOn};
ghost use Rattle.rv_check.specs.inside.Dense.{NoneLargeIn};
ghost use Rattle.rv_check.specs.inside.Small.{AreSmall};
ghost use Rattle.rv_check.specs.inside.Stands.{On, Stands};
ghost use Rattle.rv_check.specs.inside.Units.{units_of};
ghost use Rattle.rv_check.specs.inside.View.{HasRoom, kept_of, room_of, width_of};
ghost use Rattle.rv_check.specs.declared.checking.TheConstants.{MOST_CHECKED_LINES};

use crate::dense::{collect, fill, follow_values};
use crate::member::{Member, has_large, is_only, move_all};
use crate::mixing::{mix, reduce};
use crate::short::Short;
use crate::units::{Units, alone, follow_units};
use rv_gate::Word;
use rv_net::{MOST_OPS, Op};
use std::alloc::{AllocError, Global};

// How a network goes on from a word.
#[derive(Clone, Copy)]
pub(crate) enum Followed {
    // After so many operations a coefficient is beyond the limit.
    TooLarge(u32),
    // Whether the amplitudes are those of a map that takes the word to its image.
    Agrees(bool),
}

// The vector that is kept, in lowest terms, with its least denominator exponent: how many of the roots of two that
// the H brought aren't divided out. The rest is room for the next one.
#[derive(Drop)]
pub(crate) struct KeptVector {
    members: Vec<Member>,
    exponent: u32,
    mixed: Vec<Member>,
    places: Vec<u16>,
    values: Vec<Short>,
}

impl KeptVector {
    pub(crate) fn new(alloc: Global, lines: u8) -> Result<KeptVector, AllocError>
        requires { lines ≤ MOST_CHECKED_LINES }
        ensures { IfOk result (λ v. HasRoom lines v) }
    {
        Ok(KeptVector {
            members: Vec::new(alloc),
            exponent: 0,
            mixed: Vec::new(alloc),
            places: vec![in alloc; 0u16; 1usize << lines]?,
            values: vec![in alloc; Short::zero(); 1usize << lines]?,
        })
    }

    // One or two words, taken over.
    fn start(&mut self, units: Units) -> Result<(), AllocError>
        ensures kept { IfOk result (λ _. kept_of self.new ≡ units_of units) }
        ensures room { IfOk result (λ _. room_of self.new ≡ room_of self.old) }
        ensures width { IfOk result (λ _. width_of self.new ≡ width_of self.old) }
    {
        self.members.clear();
        match units {
            Units::One(unit) => {
                self.members.push(unit.member())?;
                self.exponent = 0;
            }
            Units::Two(first, second) => {
                self.members.push(first.member())?;
                self.members.push(second.member())?;
                self.exponent = 1;
            }
        }
        Ok(())
    }

    // H on a line.
    fn turn(&mut self, line: u8) -> Result<(), AllocError>
        requires lines { (lines : ℕ) × (line < lines) × AreOn (room_of self.old) lines self.old.members.items }
        requires few { length self.old.members.items ≤ 2 ^ 10 }
        requires small { All (λ m. AreSmall (2 ^ 100) m.value) self.old.members.items }
        requires exponent { self.old.exponent < MOST_OPS }
        ensures kept { IfOk result (λ _. kept_of self.new
            ≡ reduced_kept (self.old.exponent + 1) (mixed line self.old.members.items)) }
        ensures room { IfOk result (λ _. room_of self.new ≡ room_of self.old) }
        ensures width { IfOk result (λ _. width_of self.new ≡ width_of self.old) }
    {
        mix(line, &self.members, &mut self.mixed, &mut self.places)?;
        std::mem::swap(&mut self.members, &mut self.mixed);
        self.exponent = reduce(&mut self.members, self.exponent + 1);
        Ok(())
    }

    // One operation. Answers whether a coefficient is beyond the limit.
    fn step(&mut self, op: Op) -> Result<bool, AllocError>
        requires lines { (lines : ℕ) × OpFitsIn op lines × AreOn (room_of self.old) lines self.old.members.items }
        requires few { length self.old.members.items ≤ 2 ^ 10 }
        requires small { list_any (λ m. is_large m.value) self.old.members.items ≡ false }
        requires exponent { self.old.exponent < MOST_OPS }
        ensures kept { IfOk result (λ _. kept_of self.new ≡ kept_more (kept_of self.old) op) }
        ensures large { IfOk result (λ large. large ≡ list_any (λ m. is_large m.value) self.new.members.items) }
        ensures room { IfOk result (λ _. room_of self.new ≡ room_of self.old) }
        ensures width { IfOk result (λ _. width_of self.new ≡ width_of self.old) }
    {
        match op {
            Op::H(line) => {
                self.turn(line)?;
                Ok(has_large(&self.members))
            }
            _ => {
                move_all(op, &mut self.members);
                Ok(false)
            }
        }
    }

    // Follows operations by the values of all words, from a place on, as long as most have one. Answers the place.
    fn follow_all(&mut self, ops: &[Op], start: usize, lines: u8) -> Result<usize, AllocError>
        requires few_lines { lines ≤ MOST_CHECKED_LINES }
        requires fits { All (λ op. OpFitsIn op lines) ops.now }
        requires few { length ops.now ≤ MOST_OPS }
        requires start { start ≤ length ops.now }
        requires room { HasRoom lines self.old }
        requires on { On lines self.old.members.items }
        requires exponent { self.old.exponent ≤ start }
        ensures from { IfOk result (λ place. start ≤ place) }
        ensures within { IfOk result (λ place. place ≤ length ops.now) }
        ensures stands { IfOk result (λ place. (x : List Bool) → length x ≡ lines
            → Stands (take start ops.now) x (kept_of self.old)
            → Stands (take place ops.now) x (kept_of self.new) × NoneLargeIn ops.now x start place) }
        ensures room { IfOk result (λ _. HasRoom lines self.new) }
    {
        if self.members.len() < self.values.len() / 4
            || !fill(&self.members, lines, &mut self.values)
        {
            return Ok(start);
        }
        let place = follow_values(ops, start, lines, &mut self.values, &mut self.exponent);
        collect(lines, &self.values, &mut self.members)?;
        Ok(place)
    }

    // After an H there may be so many words.
    fn go_on(&mut self, op: Op, ops: &[Op], start: usize, lines: u8) -> Result<usize, AllocError>
        requires few_lines { lines ≤ MOST_CHECKED_LINES }
        requires fits { All (λ op. OpFitsIn op lines) ops.now }
        requires few { length ops.now ≤ MOST_OPS }
        requires start { start ≤ length ops.now }
        requires room { HasRoom lines self.old }
        requires on { On lines self.old.members.items }
        requires exponent { self.old.exponent ≤ start }
        ensures from { IfOk result (λ place. start ≤ place) }
        ensures within { IfOk result (λ place. place ≤ length ops.now) }
        ensures stands { IfOk result (λ place. (x : List Bool) → length x ≡ lines
            → Stands (take start ops.now) x (kept_of self.old)
            → Stands (take place ops.now) x (kept_of self.new) × NoneLargeIn ops.now x start place) }
        ensures room { IfOk result (λ _. HasRoom lines self.new) }
    {
        match op {
            Op::H(_) => self.follow_all(ops, start, lines),
            _ => Ok(start),
        }
    }

    // Follows a network from a word, as far as the coefficients keep their limit.
    pub(crate) fn follow(
        &mut self,
        ops: &[Op],
        word: Word,
        image: Word,
    ) -> Result<Followed, AllocError>
        requires fits { All (λ op. OpFitsIn op (length word)) ops.now }
        requires few { length ops.now ≤ MOST_OPS }
        requires lines { length word ≤ MOST_CHECKED_LINES }
        requires room { HasRoom (length word) self.old }
        requires image { length image ≡ length word }
        ensures answer { IfOk result (λ answer. answer ≡ followed ops.now word image) }
        ensures room { IfOk result (λ _. HasRoom (length word) self.new) }
    {
        let mut units = alone(word);
        let done = follow_units(ops, word, &mut units);
        self.start(units)?;
        let mut place = done;
        while place < ops.len() {
            let op = ops[place];
            if self.step(op)? {
                return Ok(Followed::TooLarge(place as u32 + 1));
            }
            place = self.go_on(op, ops, place + 1, word.len())?;
        }
        let agrees = self.exponent == 0 && is_only(image, &self.members);
        Ok(Followed::Agrees(agrees))
    }
}
