// A line with a gate on one to three qubits of a register `q`, as it is mostly written.
ghost use Rattle.std.specs.Prelude.{◌≡◌, ℕ, ◌+◌, ◌<◌, ◌≤◌, ◌∷◌, [], ◌++◌, List, decimal, true, length, take, IfSome};
ghost use Rattle.rv_qasm.specs.Gates.{is_on_three, is_on_two};
ghost use Rattle.rv_qasm.specs.Text.{gate_on, qubit};
ghost use Rattle.rv_qasm.specs.inside.Views.{written_qubits};
ghost use Rattle.rv_qasm.specs.inside.Written.{BeginsLine, gate_qubits, is_gate_on};

use crate::gates::{is_on_one, is_on_three, is_on_two};

/// The qubits of a gate, in the order of its text.
#[derive(Clone, Copy)]
pub(crate) enum GateQubits {
    One(u8),
    Two(u8, u8),
    Three(u8, u8, u8),
}

/// A gate on qubits of the register `q`, and how many bytes its line has.
#[derive(Clone, Copy)]
pub(crate) struct Written<'a> {
    pub(crate) name: &'a [u8],
    pub(crate) qubits: GateQubits,
    pub(crate) len: usize,
}

// Whether a byte is at a place.
fn is_at(bytes: &[u8], at: usize, byte: u8) -> bool
    ensures text { result ≡ true → take (at + 1) bytes.now ≡ take at bytes.now ++ byte ∷ [] }
    ensures within { result ≡ true → at < length bytes.now }
{
    at < bytes.len() && bytes[at] == byte
}

// The digit at a place.
fn digit_at(bytes: &[u8], at: usize) -> Option<u8>
    ensures text { IfSome result (λ d. take (at + 1) bytes.now ≡ take at bytes.now ++ (48 + d) ∷ []) }
    ensures within { IfSome result (λ d. at < length bytes.now) }
    ensures digit { IfSome result (λ d. d < 10) }
{
    if at < bytes.len() && bytes[at].is_ascii_digit() {
        return Some(bytes[at] - b'0');
    }
    None
}

// Whether `q[` is at a place.
fn is_opened(bytes: &[u8], at: usize) -> bool
    ensures text { result ≡ true → take (at + 1 + 1) bytes.now ≡ (take at bytes.now ++ 113 ∷ []) ++ 91 ∷ [] }
    ensures within { result ≡ true → at + 1 < length bytes.now }
{
    is_at(bytes, at, b'q') && is_at(bytes, at + 1, b'[')
}

// A number by its first digit, after which a second one may be at a place, and the place after it.
fn number_from(bytes: &[u8], first: u8, at: usize) -> (u8, usize)
    requires digit { first < 10 }
    requires within { at ≤ length bytes.now }
    ensures text { (before : List ℕ) → take at bytes.now ≡ before ++ (48 + first) ∷ []
        → take result.1 bytes.now ≡ before ++ decimal result.0 }
    ensures within { result.1 ≤ length bytes.now }
{
    if first == 0 {
        return (first, at);
    }
    match digit_at(bytes, at) {
        Some(second) => (10 * first + second, at + 1),
        None => (first, at),
    }
}

// The number of one or two digits at a place, and the place after it.
fn number_at(bytes: &[u8], at: usize) -> Option<(u8, usize)>
    ensures text { IfSome result (λ r. take r.1 bytes.now ≡ take at bytes.now ++ decimal r.0) }
    ensures within { IfSome result (λ r. r.1 ≤ length bytes.now) }
{
    match digit_at(bytes, at) {
        Some(first) => Some(number_from(bytes, first, at + 1)),
        None => None,
    }
}

// The qubit at a place, by a number of one or two digits, and the place after it.
fn written_qubit(bytes: &[u8], at: usize) -> Option<(u8, usize)>
    ensures text { IfSome result (λ r. take r.1 bytes.now ≡ take at bytes.now ++ qubit r.0) }
    ensures within { IfSome result (λ r. r.1 ≤ length bytes.now) }
{
    if !is_opened(bytes, at) {
        return None;
    }
    match number_at(bytes, at + 1 + 1) {
        Some((line, end)) => closed_qubit(bytes, line, end),
        None => None,
    }
}

// A qubit by its line, where its bracket is at a place.
fn closed_qubit(bytes: &[u8], line: u8, at: usize) -> Option<(u8, usize)>
    ensures text { (before : List ℕ) → take at bytes.now ≡ ((before ++ 113 ∷ []) ++ 91 ∷ []) ++ decimal line
        → IfSome result (λ r. take r.1 bytes.now ≡ before ++ qubit r.0) }
    ensures within { IfSome result (λ r. r.1 ≤ length bytes.now) }
{
    if is_at(bytes, at, b']') {
        Some((line, at + 1))
    } else {
        None
    }
}

// The place of the first blank, if it is one of the first.
fn name_end(bytes: &[u8]) -> Option<usize>
    ensures text { IfSome result (λ n. take (n + 1) bytes.now ≡ take n bytes.now ++ 32 ∷ []) }
    ensures within { IfSome result (λ n. n < length bytes.now) }
{
    for end in 1..6 {
        if is_at(bytes, end, b' ') {
            return Some(end);
        }
    }
    None
}

// Whether a statement and its line end at a place.
fn is_end(bytes: &[u8], at: usize) -> bool
    ensures text { result ≡ true → take (at + 1 + 1) bytes.now ≡ (take at bytes.now ++ 59 ∷ []) ++ 10 ∷ [] }
    ensures within { result ≡ true → at + 1 < length bytes.now }
{
    is_at(bytes, at, b';') && is_at(bytes, at + 1, b'\n')
}

// A gate on qubits, whose line ends at a place.
fn ended_line<'a>(
    bytes: &[u8],
    name: &'a [u8],
    qubits: GateQubits,
    at: usize,
) -> Option<Written<'a>>
    requires text { take at bytes.now ≡ gate_on name.now (gate_qubits qubits) }
    requires gate { is_gate_on name.now (gate_qubits qubits) ≡ true }
    ensures { IfSome result (λ w. BeginsLine bytes.now w.len w.name.now (written_qubits w)) }
{
    if is_end(bytes, at) {
        Some(Written {
            name,
            qubits,
            len: at + 1 + 1,
        })
    } else {
        None
    }
}

// The qubit after the comma at a place, and the place after it.
fn listed_qubit(bytes: &[u8], at: usize) -> Option<(u8, usize)>
    ensures text { IfSome result (λ r. take r.1 bytes.now ≡ (take at bytes.now ++ 44 ∷ []) ++ qubit r.0) }
    ensures within { IfSome result (λ r. r.1 ≤ length bytes.now) }
{
    if !is_at(bytes, at, b',') {
        return None;
    }
    written_qubit(bytes, at + 1)
}

// A gate on two qubits, the second of which follows the comma at a place.
fn line_on_two<'a>(bytes: &[u8], name: &'a [u8], first: u8, at: usize) -> Option<Written<'a>>
    requires text { take at bytes.now ≡ gate_on name.now (first ∷ []) }
    requires gate { is_on_two name.now ≡ true }
    ensures { IfSome result (λ w. BeginsLine bytes.now w.len w.name.now (written_qubits w)) }
{
    match listed_qubit(bytes, at) {
        Some((second, end)) => ended_line(bytes, name, GateQubits::Two(first, second), end),
        None => None,
    }
}

// A gate on three qubits, the second of which follows the comma at a place.
fn line_on_three<'a>(bytes: &[u8], name: &'a [u8], first: u8, at: usize) -> Option<Written<'a>>
    requires text { take at bytes.now ≡ gate_on name.now (first ∷ []) }
    requires gate { is_on_three name.now ≡ true }
    ensures { IfSome result (λ w. BeginsLine bytes.now w.len w.name.now (written_qubits w)) }
{
    match listed_qubit(bytes, at) {
        Some((second, end)) => line_on_third(bytes, name, (first, second), end),
        None => None,
    }
}

// A gate on three qubits, the third of which follows the comma at a place.
fn line_on_third<'a>(
    bytes: &[u8],
    name: &'a [u8],
    others: (u8, u8),
    at: usize,
) -> Option<Written<'a>>
    requires text { take at bytes.now ≡ gate_on name.now (others.0 ∷ others.1 ∷ []) }
    requires gate { is_on_three name.now ≡ true }
    ensures { IfSome result (λ w. BeginsLine bytes.now w.len w.name.now (written_qubits w)) }
{
    match listed_qubit(bytes, at) {
        Some((third, end)) => {
            let qubits = GateQubits::Three(others.0, others.1, third);
            ended_line(bytes, name, qubits, end)
        }
        None => None,
    }
}

// A gate of this name, whose first qubit is at a place.
fn line_from<'a>(bytes: &[u8], name: &'a [u8], at: usize) -> Option<Written<'a>>
    requires { take at bytes.now ≡ name.now ++ 32 ∷ [] }
    ensures { IfSome result (λ w. BeginsLine bytes.now w.len w.name.now (written_qubits w)) }
{
    match written_qubit(bytes, at) {
        Some((first, end)) => {
            if is_on_one(name) {
                ended_line(bytes, name, GateQubits::One(first), end)
            } else if is_on_two(name) {
                line_on_two(bytes, name, first, end)
            } else if is_on_three(name) {
                line_on_three(bytes, name, first, end)
            } else {
                None
            }
        }
        None => None,
    }
}

/// The gate of the line that bytes begin with, if it is as it is mostly written.
pub(crate) fn written_line<'a>(bytes: &'a [u8]) -> Option<Written<'a>>
    ensures { IfSome result (λ w. BeginsLine bytes.now w.len w.name.now (written_qubits w)) }
{
    match name_end(bytes) {
        Some(end) => line_from(bytes, &bytes[..end], end + 1),
        None => None,
    }
}
