ghost use Rattle.std.specs.Prelude.{◌≡◌, ◌≤◌, drop, length, IfOk};
ghost use Rattle.rv_text.specs.Tokens.{tokens_of, joined};

use crate::token;
use std::alloc::{AllocError, Global};

/// The bytes of the tokens of a line from a place on, one after another. The tokens are those that
/// [`token`] finds.
pub fn joined(
    alloc: Global,
    line: &[u8],
    from: usize,
    quotes: bool,
    blanks: &[u8],
) -> Result<Vec<u8>, AllocError>
    requires { from ≤ length line.now }
    ensures { IfOk result (λ bytes. bytes.items ≡ joined (tokens_of quotes blanks.now (drop from line.now))) }
{
    let mut bytes = Vec::new(alloc);
    let mut at = from;
    while let Some(found) = token(line, at, quotes, blanks) {
        bytes.extend_from_slice(&line[found.start..found.end])?;
        at = found.after();
    }
    Ok(bytes)
}

/// How many bytes the tokens of a line from a place on have. Takes no memory.
pub fn joined_len(line: &[u8], from: usize, quotes: bool, blanks: &[u8]) -> usize
    requires { from ≤ length line.now }
    ensures { result ≡ length (joined (tokens_of quotes blanks.now (drop from line.now))) }
{
    let mut len = 0;
    let mut at = from;
    while let Some(found) = token(line, at, quotes, blanks) {
        len += found.end - found.start;
        at = found.after();
    }
    len
}
