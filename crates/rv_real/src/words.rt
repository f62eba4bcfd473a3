ghost use Rattle.std.specs.Prelude.{◌≡◌, ◌≤◌, ◌<◌, ℕ, List, [], ◌∷◌, ◌==◌, not, true, false, drop, length, slice_index};
ghost use Rattle.std.specs.Prelude.{slice_range, IfSome, Some};
ghost use Rattle.std.specs.List.{list_any};
ghost use Rattle.rv_text.specs.Tokens.{tokens_of, tokens_from, inside, plain};
ghost use Rattle.rv_text.specs.Found.{first_and_rest, IsWithin, IsUnquoted};
ghost use Rattle.rv_real.specs.Reading.{is_unclosed};

use rv_text::{Token, has_quote, token};

// Where a space at a place ends, if there is one.
#[inline(always)]
fn space_end(line: &[u8], from: usize) -> usize
    requires { from ≤ length line.now }
    ensures range { (from ≤ result) × (result ≤ length line.now) }
    ensures same { tokens_of true [] (drop result line.now) ≡ tokens_of true [] (drop from line.now) }
{
    if from < line.len() && line[from] == b' ' {
        from + 1
    } else {
        from
    }
}

// Where the bytes over `#` from a place on end. None of them is a blank or a quote.
#[inline(always)]
fn plain_end(line: &[u8], start: usize) -> usize
    requires { start ≤ length line.now }
    ensures range { (start ≤ result) × (result ≤ length line.now) }
    ensures same { tokens_from true [] (inside (slice_range line.now start result)) (drop result line.now)
        ≡ tokens_from true [] (inside []) (drop start line.now) }
    ensures moves { start < result → 35 < slice_index line.now start }
{
    let mut i = start;
    while i < line.len() && line[i] > b'#' {
        i += 1;
    }
    i
}

// Whether a token without quotes surely ends at a place: at a space, or where the line ends.
#[inline(always)]
fn ends_word(line: &[u8], end: usize) -> bool
    requires { end ≤ length line.now }
    ensures { result ≡ true → (begun : List ℕ)
        → tokens_from true [] (inside begun) (drop end line.now) ≡ plain begun ∷ tokens_of true [] (drop end line.now) }
{
    end == line.len() || line[end] == b' '
}

// The first token from a place on, if it is as it is mostly written: at once or after one space, of bytes over `#`,
// and up to a space or the end of the line.
#[inline(always)]
fn plain_word(line: &[u8], from: usize) -> Option<Token>
    requires { from ≤ length line.now }
    ensures exact { IfSome result (λ t.
        tokens_of true [] (drop from line.now) ≡ first_and_rest true [] line.now (Some t)) }
    ensures within { IfSome result (λ t. IsWithin t from (length line.now)) }
    ensures unquoted { IfSome result (λ t. (t.quoted ≡ false) × IsUnquoted t) }
{
    let start = space_end(line, from);
    let end = plain_end(line, start);
    if start < end && ends_word(line, end) {
        Some(Token {
            start,
            end,
            quoted: false,
            closed: true,
        })
    } else {
        None
    }
}

/// The first token from a place on.
#[inline(always)]
pub(crate) fn word(line: &[u8], from: usize) -> Option<Token>
    requires { from ≤ length line.now }
    ensures exact { tokens_of true [] (drop from line.now) ≡ first_and_rest true [] line.now result }
    ensures within { IfSome result (λ t. IsWithin t from (length line.now)) }
{
    if from >= line.len() {
        return None;
    }
    match plain_word(line, from) {
        Some(found) => Some(found),
        None => token(line, from, true, &[]),
    }
}

// How many tokens stand from a place on.
pub(crate) fn count_words(line: &[u8], from: usize) -> usize
    requires { from ≤ length line.now }
    ensures { result ≡ length (tokens_of true [] (drop from line.now)) }
{
    let mut count = 0;
    let mut at = from;
    while let Some(found) = token(line, at, true, &[]) {
        count += 1;
        at = found.after();
    }
    count
}

// Whether a quote of a line isn't closed.
pub(crate) fn has_unclosed(line: &[u8]) -> bool
    ensures { result ≡ list_any is_unclosed (tokens_of true [] line.now) }
{
    // Most lines have no quote at all.
    has_quote(line) && is_any_unclosed(line)
}

// The same, token by token.
#[inline(never)]
fn is_any_unclosed(line: &[u8]) -> bool
    ensures { result ≡ list_any is_unclosed (tokens_of true [] line.now) }
{
    let mut at = 0;
    while let Some(found) = token(line, at, true, &[]) {
        if !found.closed {
            return true;
        }
        at = found.after();
    }
    false
}

// Whether there is no word for each of the lines from a place on.
pub(crate) fn has_other_count(line: &[u8], from: usize, lines: u8) -> bool
    requires { from ≤ length line.now }
    ensures { result ≡ not (length (tokens_of true [] (drop from line.now)) == lines) }
{
    count_words(line, from) != usize::from(lines)
}
