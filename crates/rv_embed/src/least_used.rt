// The word that is used least, of those that fit a row.
ghost use Rattle.std.specs.Prelude.{◌≡◌, ◌<◌, ◌≤◌, ◌^◌, length, slice_index};
ghost use Rattle.rv_pla.specs.declared.cube.TheConstants.{MOST_OUTPUTS};
ghost use Rattle.rv_embed.specs.inside.Rows.{fits, IsRow, IsCursor, IsLeastUsed};

use super::row::Row;

// Where a search stands: no word that fits is used less often than the level, and those before the word
// more often.
#[derive(Clone, Copy)]
pub(crate) struct Cursor {
    pub(crate) level: u32,
    pub(crate) word: u32,
}

// The cursor at the word with the least count, and of these the first.
pub(crate) fn least_used(counts: &[u32], outputs: u8, row: Row, from: Cursor) -> Cursor
    requires few { outputs ≤ MOST_OUTPUTS }
    requires count { length counts.now ≡ 2 ^ outputs }
    requires row { IsRow outputs row }
    requires right { IsCursor row.care row.want (2 ^ outputs) counts.now from }
    ensures least { IsLeastUsed (fits row.care row.want) (λ y. slice_index counts.now y) (2 ^ outputs) result.word }
    ensures right { IsCursor row.care row.want (2 ^ outputs) counts.now result }
{
    let mut cursor = from;
    'words: loop {
        if counts[cursor.word as usize] <= cursor.level {
            return cursor;
        }
        let next = row.after(cursor.word);
        if cursor.word < next {
            cursor.word = next;
        } else {
            cursor = Cursor {
                level: cursor.level + 1,
                word: row.want,
            };
        }
    }
}
