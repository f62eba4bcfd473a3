// A whole text.
ghost use Rattle.std.specs.Prelude.{ℕ, List, ◌≡◌, ◌≤◌, ◌+◌, ◌-◌, take, drop, length, IfOk, MatchResult, Ok};
ghost use Rattle.std.specs.List.{position_or_len};
ghost use Rattle.rv_import.specs.Statement.{bytes_of};
ghost use Rattle.rv_import.specs.Reading.{at_end, is_end, IsFault, IsNetOf, read, read_if, statement_read, tokens_read};
ghost use Rattle.rv_import.specs.Calls.{IsExactNet};

use crate::fault::TextFault;
use crate::lexer::tokens_of;
use crate::made::net_of;
use crate::so_far::SoFar;
use crate::statement::token_at;
use rv_net::Net;
use std::alloc::{AllocError, Global};

// The first `;` from a place on, or the end.
fn end_from(tokens: &[Vec<u8>], from: usize) -> usize
    requires { from ≤ length tokens.now }
    ensures exact { result ≡ from + position_or_len is_end (drop from (bytes_of tokens.now)) }
    ensures after { from ≤ result }
    ensures within { result ≤ length tokens.now }
{
    for index in from..tokens.len() {
        if token_at(tokens, index) == b";".as_slice() {
            return index;
        }
    }
    tokens.len()
}

#[tactic(auto, using(crate::proofs::Parts::bytes_part))]
fn part_read(
    alloc: Global,
    so_far: &mut SoFar,
    tokens: &[Vec<u8>],
    start: usize,
    end: usize,
) -> Result<bool, AllocError>
    requires order { start ≤ end }
    requires within { end ≤ length tokens.now }
    ensures { IfOk result (λ is_right.
        statement_read so_far.old (take (end - start) (drop start (bytes_of tokens.now)))
        ≡ read_if is_right so_far.new) }
{
    so_far.statement_read(alloc, &tokens[start..end])
}

// At the end of a text, where this stands after the last `;`.
fn at_end(so_far: SoFar, number: usize, rest: usize) -> Result<SoFar, TextFault>
    ensures exact { (tokens : List (List ℕ)) → length tokens ≡ rest → MatchResult result
        (λ s. at_end number so_far tokens ≡ Ok s)
        (λ fault. IsFault (at_end number so_far tokens) fault) }
    ensures some { IfOk result (λ s. 1 ≤ s.size) }
{
    if rest != 0 || so_far.size() == 0 {
        return Err(TextFault::Statement(number));
    }
    Ok(so_far)
}

/// What the statements of a text give, one after another.
pub fn statements_read(alloc: Global, tokens: &[Vec<u8>]) -> Result<SoFar, TextFault>
    ensures exact { MatchResult result
        (λ s. tokens_read (bytes_of tokens.now) ≡ Ok s)
        (λ fault. IsFault (tokens_read (bytes_of tokens.now)) fault) }
    ensures some { IfOk result (λ s. 1 ≤ s.size) }
{
    let mut so_far = SoFar::new(alloc);
    let mut number = 1;
    let mut start = 0;
    let mut end = end_from(tokens, 0);
    while end < tokens.len() {
        if !part_read(alloc, &mut so_far, tokens, start, end)? {
            return Err(TextFault::Statement(number));
        }
        number += 1;
        start = end + 1;
        end = end_from(tokens, start);
    }
    at_end(so_far, number, tokens.len() - start)
}

// The network of what statements gave.
fn net_from(alloc: Global, so_far: &SoFar) -> Result<Net, TextFault>
    requires { 1 ≤ so_far.now.size }
    ensures { MatchResult result
        (λ net. IsExactNet so_far.now.size so_far.now.calls net)
        (λ fault. IsFault (Ok so_far.now) fault) }
{
    let net = net_of(alloc, so_far.size(), so_far.calls())?;
    Ok(net)
}

/// The network of a text in OpenQASM 2.0: gates on one register, with angles that are multiples of pi/4.
pub fn read(alloc: Global, text: &[u8]) -> Result<Net, TextFault>
    ensures { MatchResult result (λ net. IsNetOf text.now net) (λ fault. IsFault (read text.now) fault) }
{
    let tokens = tokens_of(alloc, text)?;
    let so_far = statements_read(alloc, tokens.as_slice())?;
    net_from(alloc, &so_far)
}
