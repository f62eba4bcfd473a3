ghost use Rattle.std.specs.Prelude.{◌≡◌, ◌+◌, ◌-◌, ◌*◌, ◌^◌, ◌<◌, ◌≤◌, ◌≢◌, ℕ, Bool, List, length, map, All, IfOk};
ghost use Rattle.std.specs.Prelude.{IsTrue, IsFalse, if◌then◌else◌, slice_set};
ghost use Rattle.std.specs.List.{filter, list_all};
ghost use Rattle.rv_gate.specs.Gate.{xor};
ghost use Rattle.rv_gate.specs.Word.{bit_of, number_of};
ghost use Rattle.rv_net.specs.Cyclotomic.{Cyclotomic, nought, plus, times_w_power};
ghost use Rattle.rv_net.specs.Op.{OpFitsIn, goes_to};
ghost use Rattle.rv_net.specs.declared.op.Op.{Op};
ghost use Rattle.rv_net.specs.declared.op.Op.TheVariants.{X, Y, H, Cx, Ccx, Swap, Cswap};
ghost use Rattle.rv_check.specs.Reduced.{is_multiple, quotient, reduced, words};
ghost use Rattle.rv_check.specs.inside.Dense.{Marks, NoneLargeIn, Shows, ShowsAt, ShowsOverAt, bits_in_all, covers};
ghost use Rattle.rv_check.specs.inside.Dense.{halved_by, left, members_from, minus, mixed_at, moved_at, undivided_more};
ghost use Rattle.rv_check.specs.inside.Kept.{Kept, is_present};
ghost use Rattle.rv_check.specs.inside.Small.{AreSmall};
ghost use Rattle.rv_check.specs.inside.Stands.{Apart, On, value_at};
ghost use Rattle.rv_check.specs.declared.checking.TheConstants.{MOST_CHECKED_LINES};

use crate::coefficient::Coefficient;
use crate::member::{Member, is_present};
use crate::short::Short;
use rv_gate::Word;
use rv_net::{MOST_OPS, Op};
use std::alloc::AllocError;

// Vectors that have most words: a value for each word, at the place that is its number. So a pass over the words with
// the bit 1 on some lines is one over the places with the bits of a mask.

// The bit of a line in the numbers of words, which are the places of their values.
fn place_bit(lines: u8, line: u8) -> usize
    requires few_lines { lines ≤ MOST_CHECKED_LINES }
    requires line { line < lines }
    ensures { result ≡ 2 ^ (lines - 1 - line) }
{
    1 << (lines - 1 - line)
}

// H on a line, its root of two not divided out.
fn mix(values: &mut [Short], lines: u8, line: u8)
    requires few_lines { lines ≤ MOST_CHECKED_LINES }
    requires line { line < lines }
    requires len { length values.old ≡ 2 ^ lines }
    requires small { All (AreSmall (2 ^ 60)) values.old }
    ensures { (f : List Bool → Cyclotomic) → values.old ≡ map f (words lines)
        → values.new ≡ map (mixed_at line f) (words lines) }
{
    let bit = place_bit(lines, line);
    let mut place = bit;
    while place < values.len() {
        let (low, high) = (values[place - bit], values[place]);
        values[place - bit] = low.plus(high);
        values[place] = low.minus(high);
        place = (place + 1) | bit;
    }
}

// Times this power of w where the place has the bits of a mask. The next such place is the next number, with these
// bits.
#[inline(always)]
fn turn_by(values: &mut [Short], mask: usize, power: u8)
    requires small { All (AreSmall (2 ^ 61)) values.old }
    requires few { power < 8 }
    ensures { (n : ℕ) (f : List Bool → Cyclotomic) → values.old ≡ map f (words n) → values.new ≡ map
        (λ x. if covers mask (number_of x) then times_w_power power (f x) else f x) (words n) }
{
    let mut place = mask;
    while place < values.len() {
        values[place] = values[place].turned(power);
        place = (place + 1) | mask;
    }
}

// One loop for each of the usual powers, which so isn't looked at for each value.
fn turn(values: &mut [Short], mask: usize, power: u8)
    requires small { All (AreSmall (2 ^ 61)) values.old }
    requires few { power < 8 }
    ensures { (n : ℕ) (f : List Bool → Cyclotomic) → values.old ≡ map f (words n) → values.new ≡ map
        (λ x. if covers mask (number_of x) then times_w_power power (f x) else f x) (words n) }
{
    match power {
        1 => turn_by(values, mask, 1),
        2 => turn_by(values, mask, 2),
        4 => turn_by(values, mask, 4),
        6 => turn_by(values, mask, 6),
        7 => turn_by(values, mask, 7),
        _ => turn_by(values, mask, power),
    }
}

// The bit of a line changed where the place has the bits of a mask.
fn flip(values: &mut [Short], lines: u8, mask: usize, line: u8)
    requires few_lines { lines ≤ MOST_CHECKED_LINES }
    requires line { line < lines }
    ensures { (on : List Bool → Bool) → Marks mask lines line on → (f : List Bool → Cyclotomic)
        → values.old ≡ map f (words lines) → values.new ≡ map
        (λ x. f (slice_set x line (xor (on x) (bit_of x line)))) (words lines) }
{
    let bit = place_bit(lines, line);
    let all = mask | bit;
    let mut place = all;
    while place < values.len() {
        values.swap(place - bit, place);
        place = (place + 1) | all;
    }
}

// Times this power of w where the word has the bit 1 on the line.
fn turn_line(values: &mut [Short], lines: u8, line: u8, power: u8)
    requires few_lines { lines ≤ MOST_CHECKED_LINES }
    requires line { line < lines }
    requires len { length values.old ≡ 2 ^ lines }
    requires small { All (AreSmall (2 ^ 61)) values.old }
    requires few { power < 8 }
    ensures { (f : List Bool → Cyclotomic) → values.old ≡ map f (words lines) → values.new ≡ map
        (λ x. times_w_power (if bit_of x line then power else 0) (f x)) (words lines) }
{
    turn(values, place_bit(lines, line), power);
}

// What the operation X, CX, CCX, Y, swap or CSWAP does.

fn flip_line(values: &mut [Short], lines: u8, line: u8)
    requires few_lines { lines ≤ MOST_CHECKED_LINES }
    requires line { line < lines }
    ensures { (f : List Bool → Cyclotomic) → values.old ≡ map f (words lines)
        → values.new ≡ map (moved_at (X line) f) (words lines) }
{
    flip(values, lines, 0, line);
}

fn flip_under(values: &mut [Short], lines: u8, control: u8, line: u8)
    requires few_lines { lines ≤ MOST_CHECKED_LINES }
    requires fits { OpFitsIn (Cx control line) lines }
    ensures { (f : List Bool → Cyclotomic) → values.old ≡ map f (words lines)
        → values.new ≡ map (moved_at (Cx control line) f) (words lines) }
{
    flip(values, lines, place_bit(lines, control), line);
}

fn flip_under_both(values: &mut [Short], lines: u8, first: u8, second: u8, line: u8)
    requires few_lines { lines ≤ MOST_CHECKED_LINES }
    requires fits { OpFitsIn (Ccx first second line) lines }
    ensures { (f : List Bool → Cyclotomic) → values.old ≡ map f (words lines)
        → values.new ≡ map (moved_at (Ccx first second line) f) (words lines) }
{
    let controls = place_bit(lines, first) | place_bit(lines, second);
    flip(values, lines, controls, line);
}

fn flip_and_turn(values: &mut [Short], lines: u8, line: u8)
    requires few_lines { lines ≤ MOST_CHECKED_LINES }
    requires line { line < lines }
    requires len { length values.old ≡ 2 ^ lines }
    requires small { All (AreSmall (2 ^ 61)) values.old }
    ensures { (f : List Bool → Cyclotomic) → values.old ≡ map f (words lines)
        → values.new ≡ map (moved_at (Y line) f) (words lines) }
{
    turn_line(values, lines, line, 6);
    flip_line(values, lines, line);
    turn_line(values, lines, line, 2);
}

// The bits of two lines exchanged where the place has the bits of a mask: each place with the bit of the one line, and
// without that of the other, takes the value of the place where it is the other way round.
fn exchange(values: &mut [Short], lines: u8, mask: usize, a: u8, b: u8)
    requires few_lines { lines ≤ MOST_CHECKED_LINES }
    requires fits { OpFitsIn (Swap a b) lines }
    requires len { length values.old ≡ 2 ^ lines }
    ensures { (on : List Bool → Bool) → Marks mask lines a on → Marks mask lines b on → (f : List Bool → Cyclotomic)
        → values.old ≡ map f (words lines) → values.new ≡ map
        (λ x. f (if on x then goes_to (Swap a b) x else x)) (words lines) }
{
    let (bit, other) = (place_bit(lines, a), place_bit(lines, b));
    let all = mask | bit;
    let mut place = all;
    while place < values.len() {
        if place | other != place {
            values.swap(place - bit + other, place);
        }
        place = (place + 1) | all;
    }
}

fn exchange_lines(values: &mut [Short], lines: u8, a: u8, b: u8)
    requires few_lines { lines ≤ MOST_CHECKED_LINES }
    requires fits { OpFitsIn (Swap a b) lines }
    requires len { length values.old ≡ 2 ^ lines }
    ensures { (f : List Bool → Cyclotomic) → values.old ≡ map f (words lines)
        → values.new ≡ map (moved_at (Swap a b) f) (words lines) }
{
    exchange(values, lines, 0, a, b);
}

fn exchange_under(values: &mut [Short], lines: u8, control: u8, a: u8, b: u8)
    requires few_lines { lines ≤ MOST_CHECKED_LINES }
    requires fits { OpFitsIn (Cswap control a b) lines }
    requires len { length values.old ≡ 2 ^ lines }
    ensures { (f : List Bool → Cyclotomic) → values.old ≡ map f (words lines)
        → values.new ≡ map (moved_at (Cswap control a b) f) (words lines) }
{
    exchange(values, lines, place_bit(lines, control), a, b);
}

// An operation that is no H.
fn go(values: &mut [Short], lines: u8, op: Op)
    requires few_lines { lines ≤ MOST_CHECKED_LINES }
    requires fits { OpFitsIn op lines }
    requires other { (line : ℕ) → op ≢ H line }
    requires len { length values.old ≡ 2 ^ lines }
    requires small { All (AreSmall (2 ^ 61)) values.old }
    ensures { (f : List Bool → Cyclotomic) → values.old ≡ map f (words lines)
        → values.new ≡ map (moved_at op f) (words lines) }
{
    match op {
        Op::Z(q) => turn_line(values, lines, q, 4),
        Op::S(q) => turn_line(values, lines, q, 2),
        Op::Sdg(q) => turn_line(values, lines, q, 6),
        Op::T(q) => turn_line(values, lines, q, 1),
        Op::Tdg(q) => turn_line(values, lines, q, 7),
        Op::Cz(a, b) => turn(values, place_bit(lines, a) | place_bit(lines, b), 4),
        Op::X(q) => flip_line(values, lines, q),
        Op::Y(q) => flip_and_turn(values, lines, q),
        Op::Cx(a, b) => flip_under(values, lines, a, b),
        Op::Ccx(a, b, c) => flip_under_both(values, lines, a, b, c),
        Op::Swap(a, b) => exchange_lines(values, lines, a, b),
        Op::Cswap(c, a, b) => exchange_under(values, lines, c, a, b),
        Op::H(_) => unreachable!(),
    }
}

fn are_multiples(values: &[Short]) -> bool
    requires { All (AreSmall (2 ^ 61)) values.now }
    ensures { result ≡ list_all is_multiple values.now }
{
    values.iter().all(|value| value.is_multiple())
}

fn divide_all(values: &mut [Short])
    requires { All (AreSmall (2 ^ 61)) values.old }
    ensures { values.new ≡ map quotient values.old }
{
    for value in values.iter_mut() {
        *value = value.quotient();
    }
}

// The bits that are 1 in the absolute value of one of the integers.
fn bits_in_all(values: &[Short]) -> u64
    ensures { result ≡ bits_in_all values.now }
{
    let mut bits = 0;
    for value in values {
        bits |= value.bits();
    }
    bits
}

fn halve_all(values: &mut [Short], times: u32)
    requires { times < 64 }
    ensures { values.new ≡ map (halved_by times) values.old }
{
    for value in values.iter_mut() {
        *value = value.halved(times);
    }
}

// Divides by two, the root of two twice, as often as it can be, and at most as often as the exponent says. Answers what
// is left of it.
fn halve(values: &mut [Short], exponent: u32) -> u32
    requires { All (AreSmall (2 ^ 61)) values.old }
    ensures small { All (AreSmall (2 ^ 61)) values.new }
    ensures values { reduced result values.new ≡ reduced exponent values.old }
    ensures exponent { left result values.new ≡ left exponent values.old }
{
    let times = bits_in_all(values)
        .trailing_zeros()
        .min(exponent / 2)
        .min(63);
    halve_all(values, times);
    exponent - 2 * times
}

// Divides by the root of two as often as it can be, and at most as often as the denominator exponent says. Answers the
// least denominator exponent.
fn reduce(values: &mut [Short], exponent: u32) -> u32
    requires { All (AreSmall (2 ^ 61)) values.old }
    ensures values { values.new ≡ reduced exponent values.old }
    ensures exponent { result ≡ left exponent values.old }
{
    let mut exponent = halve(values, exponent);
    while exponent > 0 && are_multiples(values) {
        divide_all(values);
        exponent -= 1;
    }
    exponent
}

// How many bits a number takes.
fn width(number: u64) -> u8
    ensures { number < 2 ^ result }
{
    (64 - number.leading_zeros()) as u8
}

// Whether a quarter of the values or more aren't 0. It decides only how the vector is kept.
fn are_many(values: &[Short]) -> bool {
    let mut missing = values.len() / 4;
    for value in values {
        if missing == 0 {
            return true;
        }
        if !value.is_zero() {
            missing -= 1;
        }
    }
    missing == 0
}

// The most bits that an integer takes where a vector is taken over or goes on.
const MOST_BITS: u8 = 55;

// What a vector stands over, and how small it is.
#[derive(Clone, Copy)]
struct Scale {
    // How many roots of two aren't divided out.
    exponent: u32,
    // How many bits the integers of its values take at most.
    bits: u8,
}

// Divides out what can be. Answers false where the values are too great for more sums even so, or few.
fn renew(values: &mut [Short], scale: &mut Scale) -> bool
    requires { All (AreSmall (2 ^ 61)) values.old }
    ensures values { values.new ≡ reduced scale.old.exponent values.old }
    ensures exponent { scale.new.exponent ≡ left scale.old.exponent values.old }
    ensures small { All (AreSmall (2 ^ scale.new.bits)) values.new }
    ensures bits { IsTrue result → scale.new.bits ≤ 55 }
{
    scale.exponent = reduce(values, scale.exponent);
    scale.bits = width(bits_in_all(values));
    scale.bits <= MOST_BITS && are_many(values)
}

// Sees to it that the values have room for an H. Answers false where they haven't, or are found to be few.
fn make_room(values: &mut [Short], scale: &mut Scale) -> bool
    requires small { All (AreSmall (2 ^ scale.old.bits)) values.old }
    requires bits { scale.old.bits ≤ 61 }
    ensures small { All (AreSmall (2 ^ scale.new.bits)) values.new }
    ensures bits { IsTrue result → scale.new.bits ≤ 60 }
    ensures whole { All (AreSmall (2 ^ 61)) values.new }
    ensures exponent { scale.new.exponent ≤ scale.old.exponent }
    ensures shown { (ops : List Op) (x : List Bool) (place : ℕ)
        → ShowsOverAt ops x place values.old scale.old.exponent
        → ShowsOverAt ops x place values.new scale.new.exponent }
{
    if scale.bits > 60 {
        return renew(values, scale);
    }
    // Few may be left: looked at after one H in sixteen.
    scale.bits % 16 != 15 || are_many(values)
}

// H on a line, its root of two not divided out.
fn turn_h(values: &mut [Short], lines: u8, line: u8, scale: &mut Scale)
    requires few_lines { lines ≤ MOST_CHECKED_LINES }
    requires line { line < lines }
    requires len { length values.old ≡ 2 ^ lines }
    requires small { All (AreSmall (2 ^ scale.old.bits)) values.old }
    requires bits { scale.old.bits ≤ 60 }
    requires exponent { scale.old.exponent < MOST_OPS }
    ensures small { All (AreSmall (2 ^ scale.new.bits)) values.new }
    ensures bits { scale.new.bits ≤ 61 }
    ensures exponent { scale.new.exponent ≡ scale.old.exponent + 1 }
    ensures done { (k : Kept) → On lines k.members → Shows lines values.old scale.old.exponent k
        → Shows lines values.new scale.new.exponent (undivided_more k (H line)) }
{
    mix(values, lines, line);
    scale.exponent += 1;
    scale.bits += 1;
}

// One operation.
fn step(values: &mut [Short], lines: u8, op: Op, scale: &mut Scale)
    requires few_lines { lines ≤ MOST_CHECKED_LINES }
    requires fits { OpFitsIn op lines }
    requires len { length values.old ≡ 2 ^ lines }
    requires small { All (AreSmall (2 ^ scale.old.bits)) values.old }
    requires bits { scale.old.bits ≤ 60 }
    requires exponent { scale.old.exponent < MOST_OPS }
    ensures small { All (AreSmall (2 ^ scale.new.bits)) values.new }
    ensures bits { scale.new.bits ≤ 61 }
    ensures exponent { scale.new.exponent ≤ scale.old.exponent + 1 }
    ensures done { (k : Kept) → On lines k.members → Shows lines values.old scale.old.exponent k
        → Shows lines values.new scale.new.exponent (undivided_more k op) }
{
    match op {
        Op::H(line) => turn_h(values, lines, line, scale),
        _ => go(values, lines, op),
    }
}

// Follows operations from a place on, until the values are too great or few. Answers the place.
fn follow_on(ops: &[Op], start: usize, lines: u8, values: &mut [Short], scale: &mut Scale) -> usize
    requires few_lines { lines ≤ MOST_CHECKED_LINES }
    requires fits { All (λ op. OpFitsIn op lines) ops.now }
    requires few { length ops.now ≤ MOST_OPS }
    requires start { start ≤ length ops.now }
    requires len { length values.old ≡ 2 ^ lines }
    requires small { All (AreSmall (2 ^ scale.old.bits)) values.old }
    requires bits { scale.old.bits ≤ 61 }
    requires exponent { scale.old.exponent ≤ start }
    ensures from { start ≤ result }
    ensures within { result ≤ length ops.now }
    ensures small { All (AreSmall (2 ^ 61)) values.new }
    ensures shown { (x : List Bool) → length x ≡ lines → ShowsOverAt ops.now x start values.old scale.old.exponent
        → ShowsOverAt ops.now x result values.new scale.new.exponent × NoneLargeIn ops.now x start result }
{
    let mut place = start;
    while place < ops.len() {
        if !make_room(values, scale) {
            return place;
        }
        step(values, lines, ops[place], scale);
        place += 1;
    }
    place
}

// The same, and divides as often as it can be. The values are those of a kept vector before and after.
pub(crate) fn follow_values(
    ops: &[Op],
    start: usize,
    lines: u8,
    values: &mut [Short],
    exponent: &mut u32,
) -> usize
    requires few_lines { lines ≤ MOST_CHECKED_LINES }
    requires fits { All (λ op. OpFitsIn op lines) ops.now }
    requires few { length ops.now ≤ MOST_OPS }
    requires start { start ≤ length ops.now }
    requires len { length values.old ≡ 2 ^ lines }
    requires small { All (AreSmall (2 ^ 55)) values.old }
    requires exponent { exponent.old ≤ start }
    ensures from { start ≤ result }
    ensures within { result ≤ length ops.now }
    ensures shown { (x : List Bool) → length x ≡ lines → ShowsAt ops.now x start values.old exponent.old
        → ShowsAt ops.now x result values.new exponent.new × NoneLargeIn ops.now x start result }
{
    let mut scale = Scale {
        exponent: *exponent,
        bits: MOST_BITS,
    };
    let place = follow_on(ops, start, lines, values, &mut scale);
    *exponent = reduce(values, scale.exponent);
    place
}

fn erase(values: &mut [Short])
    ensures { values.new ≡ map (λ u. nought) values.old }
{
    for value in values.iter_mut() {
        *value = Short::zero();
    }
}

// The values of members, for all words. Answers whether they are small enough.
pub(crate) fn fill(members: &[Member], lines: u8, values: &mut [Short]) -> bool
    requires few_lines { lines ≤ MOST_CHECKED_LINES }
    requires on { On lines members.now }
    requires len { length values.old ≡ 2 ^ lines }
    ensures small { IsTrue result → All (AreSmall (2 ^ 55)) values.new }
    ensures shown { IsTrue result → Apart members.now → values.new ≡ map (value_at members.now) (words lines) }
{
    erase(values);
    for member in members {
        let Some(value) = member.value.shortened() else {
            return false;
        };
        values[member.word.number() as usize] = value;
    }
    true
}

// The members whose values aren't 0.
pub(crate) fn collect(
    lines: u8,
    values: &[Short],
    members: &mut Vec<Member>,
) -> Result<(), AllocError>
    requires few_lines { lines ≤ MOST_CHECKED_LINES }
    requires len { length values.now ≡ 2 ^ lines }
    ensures { IfOk result (λ _. members.new.items ≡ filter is_present (members_from lines 0 values.now)) }
{
    members.clear();
    for number in 0..values.len() {
        let Some(word) = Word::new(lines, number as u64) else {
            unreachable!()
        };
        members.push(Member {
            word,
            value: Coefficient::widened(values[number]),
        })?;
    }
    members.retain(|member| is_present(member));
    Ok(())
}
