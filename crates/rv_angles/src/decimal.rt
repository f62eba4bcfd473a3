// Decimal numbers, in units of 10^-12.
ghost use Rattle.std.specs.Prelude.{◌≡◌, ◌≤◌, ◌<◌};
ghost use Rattle.rv_angles.specs.Decimal.{decimal_of, digit_step, is_number, padded, units_of};

/// One.
pub const ONE: u64 = 1000000000000;

/// No number is greater than this many units.
pub const MOST_UNITS: u64 = 1000000000000000;

/// Decimals after so many are left out.
const MOST_PLACES: u8 = 12;

/// Digits so far, and how many of them stand after the dot.
#[derive(Clone, Copy)]
pub(crate) struct Decimal {
    value: u64,
    places: u8,
    has_dot: bool,
}

pub(crate) fn is_number(token: &[u8]) -> bool
    ensures { result ≡ is_number token.now }
{
    !token.is_empty() && token[0].is_ascii_digit()
}

fn digit_step(decimal: Decimal, byte: u8) -> Decimal
    requires value { decimal.value ≤ MOST_UNITS }
    requires places { decimal.places ≤ 12 }
    ensures step { result ≡ digit_step decimal byte }
    ensures value { result.value ≤ MOST_UNITS }
    ensures places { result.places ≤ 12 }
{
    if byte == b'.' {
        return Decimal {
            has_dot: true,
            ..decimal
        };
    }
    if decimal.has_dot && decimal.places >= MOST_PLACES {
        return decimal;
    }
    Decimal {
        value: (decimal.value * 10 + u64::from(byte.saturating_sub(b'0'))).min(MOST_UNITS),
        places: decimal.places + u8::from(decimal.has_dot),
        has_dot: decimal.has_dot,
    }
}

// The digits of a number.
fn decimal_of(token: &[u8]) -> Decimal
    ensures value { result ≡ decimal_of token.now }
    ensures most { result.value ≤ MOST_UNITS }
    ensures places { result.places ≤ 12 }
{
    let mut decimal = Decimal {
        value: 0,
        places: 0,
        has_dot: false,
    };
    for byte in token {
        decimal = digit_step(decimal, *byte);
    }
    decimal
}

// With so many more decimals.
fn padded(value: u64, places: u8) -> u64
    requires { value ≤ MOST_UNITS }
    ensures value { result ≡ padded places value }
    ensures most { result ≤ MOST_UNITS }
{
    let mut units = value;
    for place in 0..places {
        units = (units * 10).min(MOST_UNITS);
    }
    units
}

/// The units of a number, up to [`MOST_UNITS`].
pub(crate) fn units_of(token: &[u8]) -> u64
    ensures value { result ≡ units_of token.now }
    ensures most { result ≤ MOST_UNITS }
{
    let decimal = decimal_of(token);
    padded(decimal.value, MOST_PLACES - decimal.places)
}
