ghost use Rattle.std.specs.Prelude.{◌≡◌, ◌≤◌, ◌<◌, ◌+◌, ◌^◌, true, false, min, MatchOption, IfSome};
ghost use Rattle.std.specs.Str.{all_ascii_digits};
ghost use Rattle.rv_text.specs.Decimal.{is_decimal, decimal_value, is_count};

/// Whether all bytes are decimal digits. True where there are none.
pub fn are_digits(bytes: &[u8]) -> bool
    ensures { result ≡ all_ascii_digits bytes.now }
{
    for byte in bytes {
        if !byte.is_ascii_digit() {
            return false;
        }
    }
    true
}

/// The number that decimal digits write, of which there is one at least. A number over `most`
/// counts as the one after it.
pub fn decimal_value(bytes: &[u8], most: u32) -> Option<u32>
    requires { most < 2 ^ 28 }
    ensures { MatchOption result (is_decimal bytes.now ≡ false)
        (λ n. (is_decimal bytes.now ≡ true) × (n ≡ min (decimal_value bytes.now) (most + 1))) }
{
    if bytes.is_empty() {
        return None;
    }
    let mut n = 0;
    for byte in bytes {
        if !byte.is_ascii_digit() {
            return None;
        }
        n = (n * 10 + u32::from(*byte - b'0')).min(most + 1);
    }
    Some(n)
}

/// The number that one to nine decimal digits write, where it is over 0. A number over `most` counts
/// as the one after it.
pub fn count_of(bytes: &[u8], most: u8) -> Option<u8>
    requires { most < 255 }
    ensures exact { MatchOption result (is_count bytes.now ≡ false)
        (λ n. (is_count bytes.now ≡ true) × (n ≡ min (decimal_value bytes.now) (most + 1))) }
    ensures some { IfSome result (λ n. 1 ≤ n) }
{
    if bytes.len() > 9 {
        return None;
    }
    match decimal_value(bytes, u32::from(most)) {
        Some(0) => None,
        Some(n) => Some(n as u8),
        None => None,
    }
}
