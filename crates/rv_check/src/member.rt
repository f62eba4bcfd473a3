ghost use Rattle.std.specs.Prelude.{◌≡◌, ◌^◌, ◌<◌, ◌≤◌, Bool, List, ◌||◌, not, length, map, All, IsFalse};
ghost use Rattle.std.specs.List.{list_all, list_any};
ghost use Rattle.rv_net.specs.Op.{goes_to, phase_of, OpFitsIn};
ghost use Rattle.rv_check.specs.Reduced.{is_large, is_multiple};
ghost use Rattle.rv_check.specs.inside.Kept.{carried, divided, is_present, moved, turned};
ghost use Rattle.rv_net.specs.Amplitude.{same_word};
ghost use Rattle.rv_check.specs.inside.Followed.{is_image, is_only};
ghost use Rattle.rv_check.specs.inside.Small.{AreSmall};

use crate::coefficient::Coefficient;
use rv_gate::Word;
use rv_net::Op;

// A word that a vector has, with its coefficient.
#[derive(Clone, Copy)]
pub(crate) struct Member {
    pub word: Word,
    pub value: Coefficient,
}

// Where an operation that is no H takes a word.
#[inline(always)]
pub(crate) fn goes_to(op: Op, word: Word) -> Word
    requires { OpFitsIn op (length word) }
    ensures { result ≡ goes_to op word }
{
    match op {
        Op::X(q) | Op::Y(q) => word.with_bit(q, !word.bit(q)),
        Op::Cx(a, b) => word.with_bit(b, word.bit(a) != word.bit(b)),
        Op::Ccx(a, b, c) => word.with_bit(c, (word.bit(a) && word.bit(b)) != word.bit(c)),
        Op::Swap(a, b) => word.with_bit(a, word.bit(b)).with_bit(b, word.bit(a)),
        Op::Cswap(c, a, b) => {
            if word.bit(c) {
                word.with_bit(a, word.bit(b)).with_bit(b, word.bit(a))
            } else {
                word
            }
        }
        Op::Z(_) | Op::H(_) | Op::S(_) | Op::Sdg(_) | Op::T(_) | Op::Tdg(_) | Op::Cz(_, _) => word,
    }
}

// The power of w that an operation brings.
#[inline(always)]
pub(crate) fn phase_of(op: Op, word: Word) -> u8
    requires { OpFitsIn op (length word) }
    ensures value { result ≡ phase_of op word }
    ensures few { result < 8 }
{
    match op {
        Op::Y(q) => if word.bit(q) { 6 } else { 2 },
        Op::Z(q) => if word.bit(q) { 4 } else { 0 },
        Op::S(q) => if word.bit(q) { 2 } else { 0 },
        Op::Sdg(q) => if word.bit(q) { 6 } else { 0 },
        Op::T(q) => if word.bit(q) { 1 } else { 0 },
        Op::Tdg(q) => if word.bit(q) { 7 } else { 0 },
        Op::Cz(a, b) => if word.bit(a) && word.bit(b) { 4 } else { 0 },
        Op::X(_)
        | Op::H(_)
        | Op::Cx(_, _)
        | Op::Ccx(_, _, _)
        | Op::Swap(_, _)
        | Op::Cswap(_, _, _) => 0,
    }
}

// A member turned by the phase that an operation brings. Most often there is none, and then nothing is written.
#[inline(always)]
fn turn(op: Op, member: &mut Member)
    requires fits { OpFitsIn op (length member.old.word) }
    requires small { AreSmall (2 ^ 120) member.old.value }
    ensures { member.new ≡ turned op member.old }
{
    let power = phase_of(op, member.word);
    if power != 0 {
        member.value = member.value.turned(power);
    }
}

// A member carried by an operation to another word, in place.
#[inline(always)]
fn carry(op: Op, member: &mut Member)
    requires { OpFitsIn op (length member.old.word) }
    ensures { member.new ≡ carried op member.old }
{
    member.word = goes_to(op, member.word);
}

#[inline(always)]
fn brings_a_phase(op: Op) -> bool
    ensures { IsFalse result → (x : List Bool) → phase_of op x ≡ 0 }
{
    match op {
        Op::X(_)
        | Op::H(_)
        | Op::Cx(_, _)
        | Op::Ccx(_, _, _)
        | Op::Swap(_, _)
        | Op::Cswap(_, _, _) => false,
        _ => true,
    }
}

#[inline(always)]
pub(crate) fn moves_words(op: Op) -> bool
    ensures { IsFalse result → (x : List Bool) → goes_to op x ≡ x }
{
    match op {
        Op::Z(_) | Op::H(_) | Op::S(_) | Op::Sdg(_) | Op::T(_) | Op::Tdg(_) | Op::Cz(_, _) => false,
        _ => true,
    }
}

fn turn_all(op: Op, members: &mut [Member])
    requires fits { All (λ m. OpFitsIn op (length m.word)) members.old }
    requires small { All (λ m. AreSmall (2 ^ 120) m.value) members.old }
    ensures { members.new ≡ map (turned op) members.old }
{
    if brings_a_phase(op) {
        for member in members.iter_mut() {
            turn(op, member);
        }
    }
}

fn carry_all(op: Op, members: &mut [Member])
    requires { All (λ m. OpFitsIn op (length m.word)) members.old }
    ensures { members.new ≡ map (carried op) members.old }
{
    if moves_words(op) {
        for member in members.iter_mut() {
            carry(op, member);
        }
    }
}

// An operation that is no H, done on each member.
pub(crate) fn move_all(op: Op, members: &mut [Member])
    requires fits { All (λ m. OpFitsIn op (length m.word)) members.old }
    requires small { All (λ m. AreSmall (2 ^ 120) m.value) members.old }
    ensures { members.new ≡ map (moved op) members.old }
{
    turn_all(op, members);
    carry_all(op, members);
}

pub(crate) fn are_multiples(members: &[Member]) -> bool
    requires { All (λ m. AreSmall (2 ^ 120) m.value) members.now }
    ensures { result ≡ list_all (λ m. is_multiple m.value) members.now }
{
    members.iter().all(|member| member.value.is_multiple())
}

pub(crate) fn has_large(members: &[Member]) -> bool
    ensures { result ≡ list_any (λ m. is_large m.value) members.now }
{
    members.iter().any(|member| member.value.is_large())
}

fn divided(member: Member) -> Member
    requires { AreSmall (2 ^ 120) member.value }
    ensures { result ≡ divided member }
{
    Member {
        word: member.word,
        value: member.value.quotient(),
    }
}

pub(crate) fn divide_all(members: &mut [Member])
    requires { All (λ m. AreSmall (2 ^ 120) m.value) members.old }
    ensures { members.new ≡ map divided members.old }
{
    for member in members.iter_mut() {
        *member = divided(*member);
    }
}

pub(crate) fn is_present(member: &Member) -> bool
    ensures { result ≡ is_present member.now }
{
    !member.value.is_same(Coefficient::zero())
}

// Whether two words are the same.
pub(crate) fn is_same_word(x: Word, y: Word) -> bool
    ensures { result ≡ same_word x y }
{
    x == y
}

// Whether a member is the image with the value 1.
fn is_image(member: &Member, image: Word) -> bool
    ensures { result ≡ is_image image member.now }
{
    is_same_word(member.word, image) && member.value.is_same(Coefficient::one())
}

// Whether each member is 0 or the image with the value 1.
fn are_fitting(image: Word, members: &[Member]) -> bool
    ensures { result ≡ list_all (λ m. not (is_present m) || is_image image m) members.now }
{
    members
        .iter()
        .all(|member| !is_present(member) || is_image(member, image))
}

fn has_image(image: Word, members: &[Member]) -> bool
    ensures { result ≡ list_any (is_image image) members.now }
{
    members.iter().any(|member| is_image(member, image))
}

// Whether the vector is the image alone.
#[tactic(auto, unfolding(crate::specs::inside::Followed::is_only))]
pub(crate) fn is_only(image: Word, members: &[Member]) -> bool
    ensures { result ≡ is_only image members.now }
{
    are_fitting(image, members) && has_image(image, members)
}
