ghost use Rattle.std.specs.Prelude.{◌≡◌, min, true, false, MatchOption};
ghost use Rattle.rv_text.specs.Decimal.{is_decimal, decimal_value, is_count};
ghost use Rattle.rv_qasm.specs.Registers.{is_place};

// More than any size of a register.
const BEYOND: u64 = 4294967296;

// The number that decimal digits write, or the one beyond the others.
pub(crate) fn capped_decimal(bytes: &[u8]) -> Option<u64>
    ensures { MatchOption result (is_decimal bytes.now ≡ false)
        (λ n. (is_decimal bytes.now ≡ true) × (n ≡ min (decimal_value bytes.now) BEYOND)) }
{
    if bytes.is_empty() {
        return None;
    }
    let mut n = 0;
    for byte in bytes {
        if !byte.is_ascii_digit() {
            return None;
        }
        n = (n * 10 + u64::from(*byte - b'0')).min(BEYOND);
    }
    Some(n)
}

// The size of a register.
pub(crate) fn written_size(bytes: &[u8]) -> Option<u32>
    ensures { MatchOption result (is_count bytes.now ≡ false)
        (λ n. (is_count bytes.now ≡ true) × (n ≡ decimal_value bytes.now)) }
{
    if bytes.len() > 9 {
        return None;
    }
    match capped_decimal(bytes) {
        Some(0) => None,
        Some(n) => Some(n as u32),
        None => None,
    }
}

// The place in a register of this size.
pub(crate) fn place_of(digits: &[u8], size: u32) -> Option<u32>
    ensures { MatchOption result (is_place digits.now size ≡ false)
        (λ n. (is_place digits.now size ≡ true) × (n ≡ decimal_value digits.now)) }
{
    match capped_decimal(digits) {
        Some(n) => {
            if n < u64::from(size) {
                Some(n as u32)
            } else {
                None
            }
        }
        None => None,
    }
}
