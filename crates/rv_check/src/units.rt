ghost use Rattle.std.specs.Prelude.{◌≡◌, ◌+◌, ◌%◌, ◌<◌, ◌≤◌, ℕ, length, take, All, IfSome, IsFalse, IsTrue};
ghost use Rattle.rv_net.specs.Op.{OpFitsIn};
ghost use Rattle.rv_net.specs.declared.op.Op.TheVariants.{H};
ghost use Rattle.rv_check.specs.inside.Kept.{NotLarge, kept_after, kept_more, kept_start, moved};
ghost use Rattle.rv_check.specs.inside.Units.{member_of, moved_all, units_of};
ghost use Rattle.rv_check.specs.declared.units.Units.TheVariants.{One, Two};

use crate::coefficient::Coefficient;
use crate::member::{Member, goes_to, is_same_word, moves_words, phase_of};
use rv_gate::Word;
use rv_net::Op;

// A word with this power of w as its value.
#[derive(Clone, Copy)]
pub(crate) struct Unit {
    pub word: Word,
    pub power: u8,
}

// One word, or two over a root of two: from a word, the network of a circuit never has more. It takes no memory, and no
// table of places.
#[derive(Clone, Copy)]
pub(crate) enum Units {
    One(Unit),
    Two(Unit, Unit),
}

#[inline(always)]
fn power_after(power: u8, more: u8) -> u8
    requires { more < 8 }
    ensures { result ≡ (power % 8 + more) % 8 }
{
    (power % 8 + more) % 8
}

// A word moved in place: a copy of one that stays would cost more than the operation.
#[inline(always)]
fn move_unit(op: Op, unit: &mut Unit)
    requires { OpFitsIn op (length unit.old.word) }
    ensures { member_of unit.new ≡ moved op (member_of unit.old) }
{
    unit.power = power_after(unit.power, phase_of(op, unit.word));
    if moves_words(op) {
        unit.word = goes_to(op, unit.word);
    }
}

// Both words that H on a line makes of one.
fn split(line: u8, unit: Unit) -> Units
    requires { line < length unit.word }
    ensures { units_of result ≡ kept_more (units_of (One unit)) (H line) }
{
    let Unit { word, power } = unit;
    let other = if word.bit(line) {
        power_after(power, 4)
    } else {
        power
    };
    Units::Two(
        Unit {
            word: word.with_bit(line, false),
            power,
        },
        Unit {
            word: word.with_bit(line, true),
            power: other,
        },
    )
}

// The word that H on a line makes of two, where it makes one.
fn joined(line: u8, first: Unit, second: Unit) -> Option<Units>
    requires { line < length first.word }
    ensures { IfSome result (λ next. units_of next ≡ kept_more (units_of (Two first second)) (H line)) }
{
    let Unit { word, power } = first;
    let bit = word.bit(line);
    if !is_same_word(second.word, word.with_bit(line, !bit)) {
        return None;
    }
    let opposite = power_after(power, 4);
    if second.power % 8 == power % 8 {
        Some(Units::One(Unit {
            word: word.with_bit(line, false),
            power,
        }))
    } else if second.power % 8 == opposite {
        Some(Units::One(Unit {
            word: word.with_bit(line, true),
            power: if bit { opposite } else { power },
        }))
    } else {
        None
    }
}

impl Unit {
    pub(crate) fn member(self) -> Member
        ensures { result ≡ member_of self }
    {
        Member {
            word: self.word,
            value: Coefficient::one().turned(self.power % 8),
        }
    }
}

impl Units {
    // After an H on a line, where one or two words are left whose values are powers of w.
    fn after_h(self, line: u8) -> Option<Units>
        requires { All (λ m. line < length m.word) (units_of self).members }
        ensures { IfSome result (λ next. units_of next ≡ kept_more (units_of self) (H line)) }
    {
        match self {
            Units::One(unit) => Some(split(line, unit)),
            Units::Two(first, second) => joined(line, first, second),
        }
    }

    // Each word moved.
    #[inline(always)]
    fn move_each(&mut self, op: Op)
        requires { All (λ m. OpFitsIn op (length m.word)) (units_of self.old).members }
        ensures { units_of self.new ≡ moved_all op (units_of self.old) }
    {
        match self {
            Units::One(unit) => move_unit(op, unit),
            Units::Two(first, second) => {
                move_unit(op, first);
                move_unit(op, second);
            }
        }
    }

    // One operation more, if one or two words are left whose values are powers of w. Answers whether that is so.
    #[inline(always)]
    fn pass(&mut self, op: Op) -> bool
        requires { All (λ m. OpFitsIn op (length m.word)) (units_of self.old).members }
        ensures passed { IsTrue result → units_of self.new ≡ kept_more (units_of self.old) op }
        ensures stays { IsFalse result → self.new ≡ self.old }
    {
        match op {
            Op::H(line) => match self.after_h(line) {
                Some(next) => {
                    *self = next;
                    true
                }
                None => false,
            },
            _ => {
                self.move_each(op);
                true
            }
        }
    }
}

// The word alone, with the value 1.
#[tactic(auto, unfolding(rv_net::specs::Cyclotomic::times_w_power))]
pub(crate) fn alone(word: Word) -> Units
    ensures { units_of result ≡ kept_start word }
{
    Units::One(Unit { word, power: 0 })
}

// Follows operations from a word, as long as there are one or two words whose values are powers of w. Answers how many
// operations that are.
pub(crate) fn follow_units(ops: &[Op], word: Word, units: &mut Units) -> usize
    requires { All (λ op. OpFitsIn op (length word)) ops.now }
    ensures within { result ≤ length ops.now }
    ensures kept { units_of units.new ≡ kept_after (take result ops.now) word }
    ensures small { (place : ℕ) → place ≤ result → NotLarge ops.now word place }
{
    *units = alone(word);
    for place in 0..ops.len() {
        if !units.pass(ops[place]) {
            return place;
        }
    }
    ops.len()
}
