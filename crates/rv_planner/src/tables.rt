// Functions of five operands, as tables.
use crate::lists::at;

/// How many operands there are.
pub(crate) const OPERANDS: usize = 5;

// The tables of the operands.
const TABLES: [u32; OPERANDS] = [
    0xAAAA_AAAA,
    0xCCCC_CCCC,
    0xF0F0_F0F0,
    0xFF00_FF00,
    0xFFFF_0000,
];

// The products of one operand, in a polynomial.
const SINGLE: [u32; OPERANDS] = [2, 4, 16, 256, 65536];

// The products of at most one operand.
const LINEAR: u32 = 0x0001_0117;

/// The table of an operand.
pub(crate) fn operand_table(operand: usize) -> u32 {
    at(&TABLES, operand, 0)
}

/// The table of the sum of a set of operands.
pub(crate) fn linear_table(operands: u8) -> u32 {
    let mut table = 0;
    for operand in 0..OPERANDS {
        if operands >> operand & 1 == 1 {
            table ^= operand_table(operand);
        }
    }
    table
}

/// The products of a table in its positive-polarity Reed-Muller form.
#[inline(always)]
pub(crate) fn polynomial(table: u32) -> u32 {
    let form = table ^ (table & 0x5555_5555) << 1;
    let form = form ^ (form & 0x3333_3333) << 2;
    let form = form ^ (form & 0x0F0F_0F0F) << 4;
    let form = form ^ (form & 0x00FF_00FF) << 8;
    form ^ (form & 0xFFFF) << 16
}

/// A function, up to linear ones.
#[inline(always)]
pub(crate) fn key_of(table: u32) -> u32 {
    polynomial(table) & !LINEAR
}

/// The operands of a linear function.
pub(crate) fn operands_of(table: u32) -> u8 {
    let form = polynomial(table);
    let mut operands = 0u8;
    for operand in 0..OPERANDS {
        if form & at(&SINGLE, operand, 0) != 0 {
            operands |= 1 << operand;
        }
    }
    operands
}
