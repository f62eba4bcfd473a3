// The tokens of a text.
ghost use Rattle.std.specs.Prelude.{◌≡◌, ◌≢◌, ◌≤◌, ◌<◌, ◌+◌, [], ◌∷◌, ◌++◌, drop, take, length, slice_index, IfOk, OnOk};
ghost use Rattle.std.specs.List.{prefix_len};
ghost use Rattle.rv_text.specs.Bytes.{line_feed};
ghost use Rattle.rv_text.specs.Tokens.{is_blank};
ghost use Rattle.rv_qasm.specs.Tokens.{begins_comment, begins_name, number_length, string_length, token_length};
ghost use Rattle.rv_import.specs.Lexer.{is_in, is_passed_over, mark_length, piece_length, token_in, tokens_of};
ghost use Rattle.rv_import.specs.Statement.{bytes_of};

use std::alloc::{AllocError, Global};

/// Bytes of one kind, one after another.
#[derive(Clone, Copy)]
pub(crate) enum Run {
    Name,
    Digits,
    /// Of a string.
    Quoted,
    /// To the end of a line.
    Line,
}

fn rest_of(bytes: &[u8], from: usize) -> &[u8]
    requires { from ≤ length bytes.now }
    ensures { result.now ≡ drop from bytes.now }
{
    &bytes[from..]
}

pub(crate) fn begins_name(byte: u8) -> bool
    ensures { result ≡ begins_name byte }
{
    byte.is_ascii_alphabetic() || byte == b'_'
}

fn is_blank(byte: u8) -> bool
    ensures { result ≡ is_blank (line_feed ∷ []) byte }
{
    matches!(byte, b' ' | b'\t' | b'\r' | b'\n')
}

fn is_in(run: Run, byte: u8) -> bool
    ensures { result ≡ is_in run byte }
{
    match run {
        Run::Name => begins_name(byte) || byte.is_ascii_digit(),
        Run::Digits => byte.is_ascii_digit(),
        Run::Quoted => byte != b'"' && byte != b'\n',
        Run::Line => byte != b'\n',
    }
}

fn run_length(run: Run, bytes: &[u8]) -> usize
    ensures exact { result ≡ prefix_len (is_in run) bytes.now }
    ensures within { result ≤ length bytes.now }
{
    for index in 0..bytes.len() {
        if !is_in(run, bytes[index]) {
            return index;
        }
    }
    bytes.len()
}

// 0 after the last byte.
fn byte_at(bytes: &[u8], index: usize) -> u8
    ensures exact { result ≡ slice_index bytes.now index }
    ensures within { result ≢ 0 → index < length bytes.now }
{
    if index < bytes.len() { bytes[index] } else { 0 }
}

fn number_length(bytes: &[u8]) -> usize
    ensures exact { result ≡ number_length bytes.now }
    ensures within { result ≤ length bytes.now }
{
    let whole = run_length(Run::Digits, bytes);
    let rest = rest_of(bytes, whole);
    if byte_at(rest, 0) == b'.' && byte_at(rest, 1).is_ascii_digit() {
        whole + 1 + run_length(Run::Digits, rest_of(rest, 1))
    } else {
        whole
    }
}

fn string_length(bytes: &[u8]) -> usize
    ensures exact { result ≡ string_length bytes.now }
    ensures within { result ≤ length bytes.now }
{
    let inside = run_length(Run::Quoted, bytes);
    if byte_at(rest_of(bytes, inside), 0) == b'"' {
        inside + 1
    } else {
        inside
    }
}

// A string, an arrow or one other byte.
fn mark_length(first: u8, rest: &[u8]) -> usize
    ensures exact { result ≡ mark_length first rest.now }
    ensures some { 1 ≤ result }
    ensures within { result ≤ 1 + length rest.now }
{
    if first == b'"' {
        return 1 + string_length(rest);
    }
    if first == b'-' && byte_at(rest, 0) == b'>' {
        return 2;
    }
    1
}

#[tactic(auto, using(crate::proofs::Lexing::token_mark))]
fn token_length(bytes: &[u8]) -> usize
    requires { 0 < length bytes.now }
    ensures exact { result ≡ token_length (slice_index bytes.now 0) (drop 1 bytes.now) }
    ensures some { 1 ≤ result }
    ensures within { result ≤ length bytes.now }
{
    let rest = rest_of(bytes, 1);
    let first = bytes[0];
    if begins_name(first) {
        1 + run_length(Run::Name, rest)
    } else if first.is_ascii_digit() {
        number_length(bytes)
    } else {
        mark_length(first, rest)
    }
}

fn begins_comment(bytes: &[u8]) -> bool
    requires { 0 < length bytes.now }
    ensures { result ≡ begins_comment (slice_index bytes.now 0) (drop 1 bytes.now) }
{
    bytes[0] == b'/' && byte_at(rest_of(bytes, 1), 0) == b'/'
}

fn is_passed_over(bytes: &[u8]) -> bool
    requires { 0 < length bytes.now }
    ensures { result ≡ is_passed_over (slice_index bytes.now 0) (drop 1 bytes.now) }
{
    is_blank(bytes[0]) || begins_comment(bytes)
}

// How long the blank, the comment or the token is with which bytes begin.
fn piece_length(bytes: &[u8]) -> usize
    requires { 0 < length bytes.now }
    ensures exact { result ≡ piece_length (slice_index bytes.now 0) (drop 1 bytes.now) }
    ensures some { 1 ≤ result }
    ensures within { result ≤ length bytes.now }
{
    if is_blank(bytes[0]) {
        1
    } else if begins_comment(bytes) {
        1 + run_length(Run::Line, rest_of(bytes, 1))
    } else {
        token_length(bytes)
    }
}

// The token with which bytes begin, if they do.
fn push_token(
    alloc: Global,
    tokens: &mut Vec<Vec<u8>>,
    rest: &[u8],
    count: usize,
) -> Result<(), AllocError>
    requires some { 0 < length rest.now }
    requires within { count ≤ length rest.now }
    ensures { OnOk result (bytes_of tokens.new.items ≡ bytes_of tokens.old.items
        ++ token_in (is_passed_over (slice_index rest.now 0) (drop 1 rest.now)) (take count rest.now)) }
{
    if !is_passed_over(rest) {
        tokens.push(rest[..count].to_vec(alloc)?)?;
    }
    Ok(())
}

/// The tokens of a text.
pub fn tokens_of(alloc: Global, text: &[u8]) -> Result<Vec<Vec<u8>>, AllocError>
    ensures { IfOk result (λ tokens. bytes_of tokens.items ≡ tokens_of text.now) }
{
    let mut tokens = Vec::new(alloc);
    let mut at = 0;
    while at < text.len() {
        let rest = rest_of(text, at);
        let length = piece_length(rest);
        push_token(alloc, &mut tokens, rest, length)?;
        at += length;
    }
    Ok(tokens)
}
