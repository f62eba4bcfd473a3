// Where the searches of all rows stand.
ghost use Rattle.std.specs.Prelude.{◌≡◌, ◌<◌, ◌^◌, ◌==◌, ◌&&◌, ℕ, List, length, IfOk};
ghost use Rattle.rv_embed.specs.inside.Rows.{AreCursors, IsCursor, IsRow};

use super::least_used::Cursor;
use super::row::Row;
use std::alloc::{AllocError, Global};

// The cursor of a row. A slot that is free has that of the row whose outputs are all free, at its first word.
#[derive(Clone, Copy)]
pub(crate) struct Slot {
    pub(crate) care: u32,
    pub(crate) want: u32,
    pub(crate) cursor: Cursor,
}

impl Slot {
    fn is_free(self) -> bool {
        self.care == 0 && self.cursor.level == 0 && self.cursor.word == 0
    }

    fn is_of(self, row: Row) -> bool
        ensures { result ≡ (self.care == row.care) && (self.want == row.want) }
    {
        self.care == row.care && self.want == row.want
    }

    // The cursor of the row, or one at its first word.
    pub(crate) fn cursor_for(self, counts: &[u32], outputs: u8, row: Row) -> Cursor
        requires row { IsRow outputs row }
        requires right { IsCursor self.care self.want (2 ^ outputs) counts.now self.cursor }
        ensures { IsCursor row.care row.want (2 ^ outputs) counts.now result }
    {
        if self.is_of(row) {
            self.cursor
        } else {
            Cursor {
                level: 0,
                word: row.want,
            }
        }
    }
}

// Free slots, twice as many as there are words.
pub(crate) fn free_slots(alloc: Global, inputs: u8) -> Result<Vec<Slot>, AllocError>
    requires { inputs < 31 }
    ensures some { IfOk result (λ v. 0 < length v.items) }
    ensures right { IfOk result (λ v. (n : ℕ) (counts : List ℕ) → AreCursors n counts v.items) }
{
    let free = Slot {
        care: 0,
        want: 0,
        cursor: Cursor { level: 0, word: 0 },
    };
    Ok(vec![in alloc; free; 2usize << inputs]?)
}

// The slot of a row, or a free one.
pub(crate) fn slot_of(slots: &[Slot], row: Row) -> usize
    requires { 0 < length slots.now }
    ensures { result < length slots.now }
{
    let hash = row.care.wrapping_mul(0x9E37_79B1) ^ row.want.wrapping_mul(0x85EB_CA77);
    let mut at = (hash ^ hash >> 15) as usize % slots.len();
    for _ in 0..slots.len() {
        let slot = slots[at];
        if slot.is_of(row) || slot.is_free() {
            return at;
        }
        at += 1;
        if at == slots.len() {
            at = 0;
        }
    }
    at
}
