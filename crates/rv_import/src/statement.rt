// A gate on qubits of registers.
ghost use Rattle.std.specs.Prelude.{ℕ, List, ◌≡◌, ◌+◌, ◌≤◌, ◌<◌, drop, length, option_map, IfSome};
ghost use Rattle.rv_import.specs.Angles.{next_angle, no_angles, right_angles};
ghost use Rattle.rv_import.specs.Statement.{angles_and, angles_from, at_comma, bytes_of, place_at, place_of};
ghost use Rattle.rv_import.specs.Statement.{call_on, call_with, gate_call, named_call, qubits_of, three_of, token_at};
ghost use Rattle.rv_import.specs.Statement.{two_of};

use crate::angles::Angles;
use crate::call::{Call, Qubits};
use crate::named::call_of;
use crate::register::{Register, qubit_of};
use arrayvec::ArrayVec;
use rv_text::decimal_value;

// A number over the size of any register.
const MOST_PLACE: u32 = 255;

fn place_of(
    registers: &[Register],
    name: &[u8],
    before: &[u8],
    place: &[u8],
    after: &[u8],
) -> Option<u8>
    ensures { result ≡ place_of registers.now name.now before.now place.now after.now }
{
    if before != b"[".as_slice() || after != b"]".as_slice() {
        return None;
    }
    match decimal_value(place, MOST_PLACE) {
        Some(place) => qubit_of(registers, name, place),
        None => None,
    }
}

fn two_of(a: Option<u8>, b: Option<u8>) -> Option<Qubits>
    ensures { result ≡ two_of a b }
{
    match (a, b) {
        (Some(a), Some(b)) if a != b => Some(Qubits::Two(a, b)),
        _ => None,
    }
}

fn three_of(a: Option<u8>, b: Option<u8>, c: Option<u8>) -> Option<Qubits>
    ensures { result ≡ three_of a b c }
{
    match (a, b, c) {
        (Some(a), Some(b), Some(c)) if a != b && a != c && b != c => {
            Some(Qubits::Three(a, b, c))
        }
        _ => None,
    }
}

pub(crate) fn token_at(tokens: &[Vec<u8>], index: usize) -> &[u8]
    requires { index < length tokens.now }
    ensures { result.now ≡ token_at (bytes_of tokens.now) index }
{
    tokens[index].as_slice()
}

fn at_comma(token: &[u8], qubits: Option<Qubits>) -> Option<Qubits>
    ensures { result ≡ at_comma token.now qubits }
{
    if token == b",".as_slice() {
        qubits
    } else {
        None
    }
}

fn place_at(registers: &[Register], tokens: &[Vec<u8>], index: usize) -> Option<u8>
    requires { index + 3 < length tokens.now }
    ensures { result ≡ place_at registers.now (bytes_of tokens.now) index }
{
    place_of(
        registers,
        token_at(tokens, index),
        token_at(tokens, index + 1),
        token_at(tokens, index + 2),
        token_at(tokens, index + 3),
    )
}

fn one_qubit(registers: &[Register], tokens: &[Vec<u8>]) -> Option<Qubits>
    requires { length tokens.now ≡ 4 }
    ensures { result ≡ qubits_of registers.now (bytes_of tokens.now) }
{
    match place_at(registers, tokens, 0) {
        Some(a) => Some(Qubits::One(a)),
        None => None,
    }
}

fn two_qubits(registers: &[Register], tokens: &[Vec<u8>]) -> Option<Qubits>
    requires { length tokens.now ≡ 9 }
    ensures { result ≡ qubits_of registers.now (bytes_of tokens.now) }
{
    let both = two_of(
        place_at(registers, tokens, 0),
        place_at(registers, tokens, 5),
    );
    at_comma(token_at(tokens, 4), both)
}

fn three_qubits(registers: &[Register], tokens: &[Vec<u8>]) -> Option<Qubits>
    requires { length tokens.now ≡ 14 }
    ensures { result ≡ qubits_of registers.now (bytes_of tokens.now) }
{
    let all = three_of(
        place_at(registers, tokens, 0),
        place_at(registers, tokens, 5),
        place_at(registers, tokens, 10),
    );
    at_comma(token_at(tokens, 4), at_comma(token_at(tokens, 9), all))
}

/// The qubits of registers that tokens name.
pub fn qubits_of(registers: &[Register], tokens: &[Vec<u8>]) -> Option<Qubits>
    ensures { result ≡ qubits_of registers.now (bytes_of tokens.now) }
{
    match tokens.len() {
        4 => one_qubit(registers, tokens),
        9 => two_qubits(registers, tokens),
        14 => three_qubits(registers, tokens),
        _ => None,
    }
}

/// Angles that were read, and how many tokens they and their closing parenthesis have.
#[derive(Drop)]
pub struct AnglesRead {
    pub angles: ArrayVec<u8, 3>,
    pub count: usize,
}

// The angles are at their end, after so many tokens.
fn read_to(angles: Angles, count: usize) -> Option<AnglesRead>
    ensures exact { (tokens : List (List ℕ))
        → option_map (λ read. record { angles = read.angles.items; rest = drop read.count tokens }) result
        ≡ angles_and (drop count tokens) (right_angles (next_angle angles)) }
    ensures count { IfSome result (λ read. read.count ≡ count) }
{
    match angles.finish() {
        Some(angles) => Some(AnglesRead { angles, count }),
        None => None,
    }
}

/// Reads the angles of a gate after their opening parenthesis.
pub fn angles_from(tokens: &[Vec<u8>]) -> Option<AnglesRead>
    ensures exact { option_map (λ read.
        record { angles = read.angles.items; rest = drop read.count (bytes_of tokens.now) }) result
        ≡ angles_from no_angles (bytes_of tokens.now) }
    ensures within { IfSome result (λ read. read.count ≤ length tokens.now) }
{
    let mut angles = Angles::begun();
    for index in 0..tokens.len() {
        let token = token_at(tokens, index);
        if token == b")".as_slice() {
            return read_to(angles, index + 1);
        }
        angles.step(token);
    }
    None
}

fn call_on(registers: &[Register], name: &[u8], angles: &[u8], tokens: &[Vec<u8>]) -> Option<Call>
    ensures { result ≡ call_on registers.now name.now angles.now (bytes_of tokens.now) }
{
    match qubits_of(registers, tokens) {
        Some(qubits) => call_of(name, angles, qubits),
        None => None,
    }
}

// After the opening parenthesis.
#[tactic(auto, using(crate::proofs::Tokens::bytes_after))]
fn call_with(registers: &[Register], name: &[u8], tokens: &[Vec<u8>]) -> Option<Call>
    ensures { result
        ≡ call_with registers.now name.now (angles_from no_angles (bytes_of tokens.now)) }
{
    match angles_from(tokens) {
        Some(read) => call_on(
            registers,
            name,
            read.angles.as_slice(),
            &tokens[read.count..],
        ),
        None => None,
    }
}

#[tactic(auto, using(crate::proofs::Tokens::bytes_after))]
fn named_call(registers: &[Register], name: &[u8], tokens: &[Vec<u8>]) -> Option<Call>
    ensures { result ≡ named_call registers.now name.now (bytes_of tokens.now) }
{
    if tokens.is_empty() {
        return None;
    }
    if token_at(tokens, 0) == b"(".as_slice() {
        return call_with(registers, name, &tokens[1..]);
    }
    call_on(registers, name, &[], tokens)
}

/// The gate that the tokens of a statement are, on qubits of registers.
#[tactic(auto, using(crate::proofs::Tokens::bytes_after))]
pub fn gate_call(registers: &[Register], tokens: &[Vec<u8>]) -> Option<Call>
    ensures { result ≡ gate_call registers.now (bytes_of tokens.now) }
{
    if tokens.is_empty() {
        return None;
    }
    named_call(registers, token_at(tokens, 0), &tokens[1..])
}
