// Squares of bits, eight by eight: bit `j` of row `i` is bit `8 * i + j` of a number.
ghost use Rattle.std.specs.Prelude.{◌≡◌, ◌≢◌, ℕ, ◌+◌, ◌*◌, ◌/◌, ◌%◌, ◌<◌, length, slice_index_or, IsTrue};
ghost use Rattle.rv_gate.specs.Word.{has};
ghost use Rattle.rv_many.specs.Square.{AreEight, byte_of, came_from, is_apart};

// The bits, where each place in `mask` has exchanged its bit with the one `apart` places above it.
fn exchanged(bits: u64, mask: u64, apart: u8) -> u64
    requires apart { apart < 64 }
    requires none_twice { IsTrue (is_apart mask apart) }
    ensures { (place : ℕ) → place < 64 → has result place ≡ has bits (came_from mask apart place) }
{
    let differ = (bits ^ bits >> apart) & mask;
    bits ^ differ ^ differ << apart
}

// The square whose rows are the columns of this one.
fn turned(square: u64) -> u64
    ensures { (i j : ℕ) → i < 8 → j < 8 → has result (8 * i + j) ≡ has square (8 * j + i) }
{
    let by_bits = exchanged(square, 0x00AA_00AA_00AA_00AA, 7);
    let by_pairs = exchanged(by_bits, 0x0000_CCCC_0000_CCCC, 14);
    exchanged(by_pairs, 0x0000_0000_F0F0_F0F0, 28)
}

/// Sets a byte of each of eight numbers to a column of a square: byte `at`, the lowest being 0.
pub(crate) fn put_columns(square: u64, numbers: &mut [[u8; 8]; 8], at: usize)
    requires numbers { AreEight numbers.old }
    requires within { at < 8 }
    ensures numbers { AreEight numbers.new }
    ensures columns { (i j : ℕ) → i < 8 → j < 8 → has (byte_of numbers.new i at) j ≡ has square (8 * j + i) }
    ensures others { (i k : ℕ) → k ≢ at → byte_of numbers.new i k ≡ byte_of numbers.old i k }
{
    let rows = turned(square);
    for i in 0..8 {
        numbers[i][at] = (rows >> (8 * i) & 0xFF) as u8;
    }
}

/// The number of eight bytes, the lowest first.
pub(crate) fn number_by(bytes: &[u8; 8]) -> u64
    requires { length bytes.now ≡ 8 }
    ensures { (j : ℕ) → j < 64 → has result j ≡ has (slice_index_or bytes.now (j / 8) 0) (j % 8) }
{
    u64::from_le_bytes(*bytes)
}
