ghost use Rattle.std.specs.Prelude.{◌≡◌, ◌≤◌, [], drop, length, IfOk, IfSome};
ghost use Rattle.std.specs.Option.{option_map};
ghost use Rattle.rv_text.specs.Tokens.{tokens_of, joined};
ghost use Rattle.rv_marks.specs.Row.{marks_of, row_of_marks};

use crate::RowMark;
use rv_text::{joined, joined_len};
use std::alloc::{AllocError, Global};

// The marks of a row, or none where a byte is no mark.
fn marks_of<M: RowMark>(alloc: Global, row: &[u8]) -> Result<Option<Vec<M>>, AllocError>
    ensures { IfOk result (λ marks. option_map (λ v. v.items) marks ≡ marks_of M.mark_of row.now) }
{
    let mut marks = Vec::new(alloc);
    for byte in row {
        match M::from_byte(*byte) {
            Some(mark) => marks.push(mark)?,
            None => return Ok(None),
        }
    }
    Ok(Some(marks))
}

/// The marks that the tokens of a line from a place on have, joined, or none where a byte is no mark.
/// With `quotes` a token may stand in quotes.
pub fn read_marks<M: RowMark>(
    alloc: Global,
    line: &[u8],
    from: usize,
    quotes: bool,
) -> Result<Option<Vec<M>>, AllocError>
    requires { from ≤ length line.now }
    ensures { IfOk result (λ marks.
        option_map (λ v. v.items) marks ≡ marks_of M.mark_of (joined (tokens_of quotes [] (drop from line.now)))) }
{
    let row = joined(alloc, line, from, quotes, &[])?;
    marks_of(alloc, &row)
}

/// Such marks where they are one for each of so many lines. A row of another length takes no memory.
pub fn read_row<M: RowMark>(
    alloc: Global,
    lines: u8,
    line: &[u8],
    from: usize,
    quotes: bool,
) -> Result<Option<Vec<M>>, AllocError>
    requires { from ≤ length line.now }
    ensures row { IfOk result (λ marks.
        option_map (λ v. v.items) marks
        ≡ row_of_marks M.mark_of lines (joined (tokens_of quotes [] (drop from line.now)))) }
    ensures len { IfOk result (λ marks. IfSome marks (λ row. length row.items ≡ lines)) }
{
    if joined_len(line, from, quotes, &[]) != usize::from(lines) {
        return Ok(None);
    }
    read_marks(alloc, line, from, quotes)
}
