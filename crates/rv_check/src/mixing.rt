ghost use Rattle.std.specs.Prelude.{◌≡◌, ◌+◌, ◌*◌, ◌^◌, ◌<◌, ◌≤◌, length, All, IfOk, ℕ, if◌then◌else◌};
ghost use Rattle.rv_net.specs.Cyclotomic.{negated};
ghost use Rattle.rv_check.specs.inside.Kept.{added, mixed, reduced_kept, spread};
ghost use Rattle.rv_check.specs.inside.Placed.{AreOn, ArePlaced};
ghost use Rattle.rv_check.specs.inside.Small.{AreSmall};

use crate::coefficient::Coefficient;
use crate::member::{Member, are_multiples, divide_all, is_present};
use rv_gate::Word;
use std::alloc::AllocError;

// The value added to that of the word. Each member's place is kept at the number of its lines with the bit 1.
fn add(
    members: &mut Vec<Member>,
    places: &mut [u16],
    word: Word,
    value: Coefficient,
) -> Result<(), AllocError>
    requires lines { AreOn (length places.old) (length word) members.old.items }
    requires placed { ArePlaced places.old members.old.items }
    requires few { length members.old.items < 2 ^ 16 }
    requires small { All (λ m. AreSmall (2 ^ 120) m.value) members.old.items }
    requires value { AreSmall (2 ^ 120) value }
    ensures items { IfOk result (λ _. members.new.items ≡ added members.old.items word value) }
    ensures placed { IfOk result (λ _. ArePlaced places.new members.new.items) }
{
    let ones = word.ones() as usize;
    let place = usize::from(places[ones]);
    if place < members.len() && members[place].word == word {
        members[place].value = members[place].value.plus(value);
    } else {
        places[ones] = members.len() as u16;
        members.push(Member { word, value })?;
    }
    Ok(())
}

// The value, negated if that is so.
fn signed(negative: bool, value: Coefficient) -> Coefficient
    requires { AreSmall (2 ^ 120) value }
    ensures { result ≡ if negative then negated value else value }
{
    if negative { value.negated() } else { value }
}

// Both members that H on a line makes of one, added.
fn spread(
    line: u8,
    members: &mut Vec<Member>,
    places: &mut [u16],
    member: Member,
) -> Result<(), AllocError>
    requires line { line < length member.word }
    requires lines { AreOn (length places.old) (length member.word) members.old.items }
    requires placed { ArePlaced places.old members.old.items }
    requires few { length members.old.items + 1 < 2 ^ 16 }
    requires small { All (λ m. AreSmall (2 ^ 119) m.value) members.old.items }
    requires value { AreSmall (2 ^ 119) member.value }
    ensures items { IfOk result (λ _. members.new.items ≡ spread line members.old.items member) }
    ensures placed { IfOk result (λ _. ArePlaced places.new members.new.items) }
{
    let Member { word, value } = member;
    let other = signed(word.bit(line), value);
    add(members, places, word.with_bit(line, false), value)?;
    add(members, places, word.with_bit(line, true), other)?;
    Ok(())
}

// What H on a line makes of the members, its root of two not divided out.
pub(crate) fn mix(
    line: u8,
    members: &[Member],
    next: &mut Vec<Member>,
    places: &mut [u16],
) -> Result<(), AllocError>
    requires lines { (lines : ℕ) × (line < lines) × AreOn (length places.old) lines members.now }
    requires few { length members.now ≤ 2 ^ 10 }
    requires small { All (λ m. AreSmall (2 ^ 100) m.value) members.now }
    ensures { IfOk result (λ _. next.new.items ≡ mixed line members.now) }
{
    next.clear();
    for member in members {
        spread(line, next, places, *member)?;
    }
    next.retain(|member| is_present(member));
    Ok(())
}

// Divides by the root of two as often as it can be, and at most as often as the denominator exponent says. Answers the
// least denominator exponent.
pub(crate) fn reduce(members: &mut [Member], exponent: u32) -> u32
    requires { All (λ m. AreSmall (2 ^ 120) m.value) members.old }
    ensures members { members.new ≡ (reduced_kept exponent members.old).members }
    ensures exponent { result ≡ (reduced_kept exponent members.old).exponent }
{
    let mut exponent = exponent;
    while exponent > 0 && are_multiples(members) {
        divide_all(members);
        exponent -= 1;
    }
    exponent
}
