ghost use Rattle.std.specs.Prelude.{◌≡◌, ◌∷◌, [], ◌≤◌, ◌<◌, ◌+◌, ◌^◌, drop, length, map, IfSome, option_map};
ghost use Rattle.std.specs.Prelude.{slice_range, codes};
ghost use Rattle.std.specs.List.{list_any, position_or_len};
ghost use Rattle.rv_qasm.specs.Registers.{declaration_of, is_indexed, is_token, register_operand, operands_in};
ghost use Rattle.rv_qasm.specs.Registers.{operands_of};
ghost use Rattle.rv_qasm.specs.Tokens.{is_identifier, is_open_string};
ghost use Rattle.rv_qasm.specs.inside.Parts.{parts_at, after_comma};
ghost use Rattle.rv_qasm.specs.inside.Views.{declared, named};

use crate::numbers::{capped_decimal, written_size};
use crate::tokens::{Tokens, same_bytes};
use smallvec::SmallVec;

/// A whole register, or one place of it by its digits.
#[derive(Clone, Copy, Default)]
pub(crate) struct RegisterOperand<'a> {
    pub(crate) name: &'a [u8],
    pub(crate) place: Option<&'a [u8]>,
}

/// The operands of a statement. Those of a gate take no memory.
pub(crate) type RegisterOperands<'a> = SmallVec<RegisterOperand<'a>, 3>;

pub(crate) fn is_identifier(token: &[u8]) -> bool
    ensures { result ≡ is_identifier token.now }
{
    !token.is_empty() && (token[0].is_ascii_alphabetic() || token[0] == b'_')
}

// Whether a token is this one byte.
#[inline(always)]
fn is_mark(token: &[u8], mark: u8) -> bool
    ensures { result ≡ is_token (mark ∷ []) token.now }
{
    token.len() == 1 && token[0] == mark
}

// These are the tokens of `NAME[N]` but N.
fn is_indexed(name: &[u8], before: &[u8], after: &[u8]) -> bool
    ensures { result ≡ is_indexed name.now before.now after.now }
{
    is_identifier(name) && is_mark(before, b'[') && is_mark(after, b']')
}

// The first mark from a place on, or the end.
pub(crate) fn first_of(tokens: &Tokens, from: usize, mark: &[u8]) -> usize
    requires { from ≤ length tokens.now }
    ensures exact { result ≡ from + position_or_len (is_token mark.now) (drop from tokens.now) }
    ensures within { result ≤ length tokens.now }
{
    let mut at = from;
    while at < tokens.len() && !same_bytes(tokens.get(at), mark) {
        at += 1;
    }
    at
}

/// A register that tokens declare.
#[derive(Clone, Copy)]
pub(crate) struct Declaration<'a> {
    pub(crate) name: &'a [u8],
    pub(crate) size: u32,
}

// The register that tokens declare from a place on.
pub(crate) fn declaration_of<'a>(tokens: &'a Tokens, at: usize) -> Option<Declaration<'a>>
    requires { at ≤ length tokens.now }
    ensures exact { option_map declared result ≡ declaration_of (drop at tokens.now) }
    ensures some { IfSome result (λ d. 1 ≤ d.size) }
{
    if tokens.len() - at != 4 {
        return None;
    }
    declared_by(
        tokens.get(at),
        tokens.get(at + 1),
        tokens.get(at + 2),
        tokens.get(at + 3),
    )
}

fn declared_by<'a>(
    name: &'a [u8],
    before: &[u8],
    size: &[u8],
    after: &[u8],
) -> Option<Declaration<'a>>
    ensures exact { option_map declared result ≡ declaration_of (name.now ∷ before.now ∷ size.now ∷ after.now ∷ []) }
    ensures some { IfSome result (λ d. 1 ≤ d.size) }
{
    if !is_indexed(name, before, after) {
        return None;
    }
    match written_size(size) {
        Some(size) => Some(Declaration { name, size }),
        None => None,
    }
}

// The operand that tokens are from one place to another.
pub(crate) fn register_operand<'a>(
    tokens: &'a Tokens,
    from: usize,
    to: usize,
) -> Option<RegisterOperand<'a>>
    requires order { from ≤ to }
    requires within { to ≤ length tokens.now }
    ensures { option_map named result ≡ register_operand (slice_range tokens.now from to) }
{
    if to - from == 1 {
        return whole_operand(tokens.get(from));
    }
    if to - from == 4 {
        return one_operand(
            tokens.get(from),
            tokens.get(from + 1),
            tokens.get(from + 2),
            tokens.get(from + 3),
        );
    }
    None
}

fn whole_operand<'a>(name: &'a [u8]) -> Option<RegisterOperand<'a>>
    ensures { option_map named result ≡ register_operand (name.now ∷ []) }
{
    if is_identifier(name) {
        return Some(RegisterOperand { name, place: None });
    }
    None
}

fn one_operand<'a>(
    name: &'a [u8],
    before: &[u8],
    place: &'a [u8],
    after: &[u8],
) -> Option<RegisterOperand<'a>>
    ensures { option_map named result ≡ register_operand (name.now ∷ before.now ∷ place.now ∷ after.now ∷ []) }
{
    if is_indexed(name, before, after) && capped_decimal(place).is_some() {
        return Some(RegisterOperand {
            name,
            place: Some(place),
        });
    }
    None
}

// The operand `NAME[N]` that the next four tokens are, if a comma follows or the end.
fn indexed_operand<'a>(tokens: &'a Tokens, at: usize) -> Option<RegisterOperand<'a>>
    requires { at ≤ length tokens.now }
    ensures within { IfSome result (λ _. at + 4 ≤ length tokens.now) }
    ensures fits { IfSome result (λ _. at + 4 < 2 ^ 64) }
    ensures exact { IfSome result (λ _.
        option_map named result ≡ register_operand (slice_range tokens.now at (at + 4))) }
    ensures first { IfSome result (λ _. at + 4 ≡ at + position_or_len (is_token (codes ",")) (drop at tokens.now)) }
{
    let left = tokens.len() - at;
    if left < 4 || (left > 4 && !is_mark(tokens.get(at + 4), b',')) {
        return None;
    }
    one_operand(
        tokens.get(at),
        tokens.get(at + 1),
        tokens.get(at + 2),
        tokens.get(at + 3),
    )
}

// What the tokens to the next comma, or to the end, are.
#[derive(Clone, Copy)]
pub(crate) struct Part<'a> {
    pub(crate) operand: Option<RegisterOperand<'a>>,
    pub(crate) end: usize,
}

pub(crate) fn next_part<'a>(tokens: &'a Tokens, at: usize) -> Part<'a>
    requires { at ≤ length tokens.now }
    ensures operand { option_map named result.operand ≡ register_operand (slice_range tokens.now at result.end) }
    ensures exact { result.end ≡ at + position_or_len (is_token (codes ",")) (drop at tokens.now) }
    ensures within { result.end ≤ length tokens.now }
{
    match indexed_operand(tokens, at) {
        Some(operand) => Part {
            operand: Some(operand),
            end: at + 4,
        },
        None => {
            let end = first_of(tokens, at, b",");
            Part {
                operand: register_operand(tokens, at, end),
                end,
            }
        }
    }
}

// The place after a comma, if there is one.
pub(crate) fn after_comma(tokens: &Tokens, comma: usize) -> Option<usize>
    ensures { result ≡ after_comma (length tokens.now) comma }
{
    if comma < tokens.len() {
        return Some(comma + 1);
    }
    None
}

// The place of the first operand, if there is one.
pub(crate) fn first_place(tokens: &Tokens) -> Option<usize>
    ensures parts { operands_of (drop 1 tokens.now) ≡ operands_in (parts_at result tokens.now) }
    ensures within { IfSome result (λ at. at ≤ length tokens.now) }
{
    if tokens.len() > 1 {
        return Some(1);
    }
    None
}

fn is_open_string(token: &[u8]) -> bool
    ensures { result ≡ is_open_string token.now }
{
    !token.is_empty() && token[0] == b'"' && (token.len() == 1 || token[token.len() - 1] != b'"')
}

// Whether there is a string without its closing quote.
pub(crate) fn has_unclosed(tokens: &Tokens) -> bool
    ensures { result ≡ list_any is_open_string tokens.now }
{
    if !tokens.may_have_string() {
        return false;
    }
    for index in 0..tokens.len() {
        if is_open_string(tokens.get(index)) {
            return true;
        }
    }
    false
}
