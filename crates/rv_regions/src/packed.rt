// Matrices over at most eight lines, a row in each byte of a word.

/// A 1 in each byte.
const ONES: u64 = 0x0101_0101_0101_0101;

const LOW: u64 = 0x7F7F_7F7F_7F7F_7F7F;

/// Each line holds itself.
pub(crate) const UNIT: u64 = 0x8040_2010_0804_0201;

pub(crate) fn row(rows: u64, line: u32) -> u64 {
    rows >> (line % 8 * 8) & 0xFF
}

/// The row of a line is added to that of another one.
pub(crate) fn add_row(rows: u64, control: u32, target: u32) -> u64 {
    rows ^ row(rows, control) << (target % 8 * 8)
}

/// In each row that has a line, another one is turned.
pub(crate) fn add_column(rows: u64, control: u32, target: u32) -> u64 {
    rows ^ (rows >> (target % 8) & ONES) << (control % 8)
}

// A 1 in each byte that is 0.
fn zeros(rows: u64) -> u64 {
    !((rows & LOW).wrapping_add(LOW) | rows | LOW) >> 7
}

/// How many rows are not 0.
pub(crate) fn count(rows: u64) -> u32 {
    8u32.wrapping_sub(zeros(rows).count_ones())
}

/// The rows without those that a line is alone.
pub(crate) fn without(rows: u64, line: u32) -> u64 {
    let alone = zeros(rows ^ ONES << (line % 8));
    rows & !alone.wrapping_mul(0xFF)
}

/// How many rows are not their own line alone.
pub(crate) fn wrong(rows: u64) -> u32 {
    count(rows ^ UNIT)
}

/// How many rows don't have their own line.
pub(crate) fn lacking(rows: u64) -> u32 {
    (!rows & UNIT).count_ones()
}
