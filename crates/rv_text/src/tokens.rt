ghost use Rattle.std.specs.Prelude.{◌≡◌, ◌≢◌, ◌≤◌, ◌<◌, ◌+◌, ◌↔◌, ℕ, Bool, List, [], ◌∷◌, true, false, drop, length};
ghost use Rattle.std.specs.Prelude.{slice_index, slice_range, nat_lt, if◌then◌else◌, IfSome};
ghost use Rattle.rv_text.specs.Bytes.{hash};
ghost use Rattle.rv_text.specs.Tokens.{Lexeme, tokens_of, tokens_from, inside, quoting, is_blank, plain, in_quotes};
ghost use Rattle.rv_text.specs.Separated.{AreTokens};
ghost use Rattle.rv_text.specs.Found.{first_and_rest, FollowsBlanks, IsWithin, IsUnquoted};

use crate::Token;

/// The first token of a line from a place on.
///
/// Blanks are a space, a tab, a carriage return and the bytes of `blanks`. With `quotes` a token
/// may stand in quotes, and its bytes are then those between them. The line goes on after the
/// closing quote of such a token, and else at the token's end. The tokens of a line are those that
/// blanks and a comment part, and no others.
pub fn token(line: &[u8], from: usize, quotes: bool, blanks: &[u8]) -> Option<Token>
    requires { from ≤ length line.now }
    ensures exact { tokens_of quotes blanks.now (drop from line.now)
        ≡ first_and_rest quotes blanks.now line.now result }
    ensures only { (tokens : List Lexeme)
        → AreTokens quotes blanks.now (drop from line.now) tokens
        ↔ (tokens ≡ tokens_of quotes blanks.now (drop from line.now)) }
    ensures within { IfSome result (λ t. IsWithin t from (length line.now)) }
    ensures follows { IfSome result (λ t. FollowsBlanks blanks.now line.now from t) }
    ensures plain { IfSome result (λ t. t.quoted ≡ false → IsUnquoted t) }
    ensures unquoted { quotes ≡ false → IfSome result (λ t. t.quoted ≡ false) }
{
    let start = blanks_end(line, from, blanks);
    if start == line.len() || line[start] == b'#' {
        return None;
    }
    if quotes && line[start] == b'"' {
        let end = quoted_end(line, start + 1);
        return Some(Token {
            start: start + 1,
            end,
            quoted: true,
            closed: end < line.len(),
        });
    }
    Some(Token {
        start,
        end: plain_end(line, start, blanks),
        quoted: false,
        closed: true,
    })
}

fn is_blank(byte: u8, blanks: &[u8]) -> bool
    ensures { result ≡ is_blank blanks.now byte }
{
    byte == b' ' || byte == b'\t' || byte == b'\r' || !blanks.is_empty() && blanks.contains(&byte)
}

// Where the blanks from a place on end.
fn blanks_end(line: &[u8], from: usize, blanks: &[u8]) -> usize
    requires { from ≤ length line.now }
    ensures range { (from ≤ result) × (result ≤ length line.now) }
    ensures same { (quotes : Bool)
        → tokens_of quotes blanks.now (drop result line.now) ≡ tokens_of quotes blanks.now (drop from line.now) }
    ensures blank { (k : ℕ) → from ≤ k → k < result → is_blank blanks.now (slice_index line.now k) ≡ true }
    ensures stops { result < length line.now → is_blank blanks.now (slice_index line.now result) ≡ false }
{
    let mut i = from;
    while i < line.len() && is_blank(line[i], blanks) {
        i += 1;
    }
    i
}

// Where a token without quotes ends that begins at `start`.
fn plain_end(line: &[u8], start: usize, blanks: &[u8]) -> usize
    requires { start ≤ length line.now }
    ensures range { (start ≤ result) × (result ≤ length line.now) }
    ensures same { (quotes : Bool) → tokens_from quotes blanks.now (inside []) (drop start line.now)
        ≡ plain (slice_range line.now start result) ∷ tokens_of quotes blanks.now (drop result line.now) }
    ensures moves { start < length line.now → is_blank blanks.now (slice_index line.now start) ≡ false
        → slice_index line.now start ≢ hash → start < result }
{
    let mut i = start;
    while i < line.len() && !is_blank(line[i], blanks) && line[i] != b'#' {
        i += 1;
    }
    i
}

// Where a token in quotes ends that begins at `start`: at its closing quote, or where the line ends.
fn quoted_end(line: &[u8], start: usize) -> usize
    requires { start ≤ length line.now }
    ensures range { (start ≤ result) × (result ≤ length line.now) }
    ensures same { (blanks : List ℕ) → tokens_from true blanks (quoting []) (drop start line.now)
        ≡ (if nat_lt result (length line.now) then
        in_quotes (slice_range line.now start result) true ∷ tokens_of true blanks (drop (result + 1) line.now)
        else in_quotes (slice_range line.now start result) false ∷ []) }
{
    let mut i = start;
    while i < line.len() && line[i] != b'"' {
        i += 1;
    }
    i
}
